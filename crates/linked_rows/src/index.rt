// The command `index`, on the top call over a server in memory.
use crate::fixtures::{done, ended, ended_with, files_of, happened_behind, run_linked};
use crate::index_fixtures::{index, index_with, index_words, indexed, indexed_with, with_article};
use crate::post_fixtures::{D_INDEX, ONCE, post, spool_of};

#[test]
fn indexes_what_was_posted(rt: HostRuntime) {
    let posted = post(&rt, ONCE, &[], spool_of(&rt, None));
    let spool = ended_with(&rt, posted, 0, D_INDEX, "");
    let before = spool.events().len();
    let ran = index(&rt, "1", "100", spool);
    let elements =
        b"<file poster=\"me@example.org\" date=\"10\" subject=\"&quot;d&quot; yEnc (1/1)\">\n\
<groups>\n<group>alt.binaries.test</group>\n</groups>\n<segments>\n\
<segment bytes=\"188\" number=\"1\">tok.1of1@example.org</segment>\n</segments>\n</file>\n";
    let spool = indexed_with(&rt, ran, elements, "skipped 0\n");
    let overview =
        b"224 follows\r\n1\t\"d\" yEnc (1/1)\tme@example.org\tThu, 01 Jan 1970 02:00:10 +0200 (EET)\t\
<tok.1of1@example.org>\t\t188\t3\r\n.\r\n";
    happened_behind(
        &rt,
        before,
        spool,
        &[
            (b'O', b"127.0.0.1:1190"),
            (b'H', b"200 ready\r\n"),
            (b'S', b"GROUP alt.binaries.test\r\n"),
            (b'H', b"211 1 1 1 alt.binaries.test\r\n"),
            (b'S', b"OVER 1-1\r\n"),
            (b'H', overview),
            (b'S', b"QUIT\r\n"),
        ],
    );
}

#[test]
fn a_newsgroup_that_is_not_there_is_refused(rt: HostRuntime) {
    let spool = with_article(&rt, spool_of(&rt, None), b"", b"\"x\" yEnc (1/1)", b"i1@x");
    let before = spool.events().len();
    let words = index_words(&rt, "alt.none", "1", "100", &[]);
    let input = files_of(&rt, &[], &[]);
    let ran = run_linked(&rt, &words, input, spool, &[], &[]);
    let spool = ended_with(&rt, ran, 8, b"", "usebin: refused 411\n");
    happened_behind(
        &rt,
        before,
        spool,
        &[
            (b'O', b"127.0.0.1:1190"),
            (b'H', b"200 ready\r\n"),
            (b'S', b"GROUP alt.none\r\n"),
            (b'H', b"411 none\r\n"),
            (b'S', b"QUIT\r\n"),
        ],
    );
}

#[test]
fn of_two_articles_with_one_number_the_first_is_kept(rt: HostRuntime) {
    let spool = spool_of(&rt, None);
    let spool = with_article(&rt, spool, b"", b"\"x\" yEnc (2/2)", b"i1@x");
    let spool = with_article(&rt, spool, b"", b"\"x\" yEnc (1/2)", b"i2@x");
    let spool = with_article(&rt, spool, b"", b"hello", b"i3@x");
    let spool = with_article(&rt, spool, b"", b"\"x\" yEnc (2/2)", b"i4@x");
    let ran = index(&rt, "1", "100", spool);
    // The lines of the head have 9, 31, 25 and 20 octets, and the empty line 2.
    let elements = b"<file poster=\"a\" date=\"10\" subject=\"&quot;x&quot; yEnc (2/2)\">\n\
<groups>\n<group>alt.binaries.test</group>\n</groups>\n<segments>\n\
<segment bytes=\"87\" number=\"1\">i2@x</segment>\n<segment bytes=\"87\" number=\"2\">i1@x</segment>\n\
</segments>\n</file>\n";
    indexed(&rt, ran, elements, "skipped 1\n");
}

#[test]
fn only_the_asked_numbers_are_indexed(rt: HostRuntime) {
    let spool = spool_of(&rt, None);
    let spool = with_article(&rt, spool, b"", b"one (1/1)", b"i1@x");
    let spool = with_article(&rt, spool, b"", b"two (1/1)", b"i2@x");
    let spool = with_article(&rt, spool, b"", b"three (1/1)", b"i3@x");
    let ran = index(&rt, "2", "2", spool);
    let elements = b"<file poster=\"a\" date=\"10\" subject=\"two (1/1)\">\n\
<groups>\n<group>alt.binaries.test</group>\n</groups>\n<segments>\n\
<segment bytes=\"82\" number=\"1\">i2@x</segment>\n</segments>\n</file>\n";
    let spool = indexed_with(&rt, ran, elements, "skipped 0\n");
    // Behind the last article nothing is asked.
    let ran = index(&rt, "4", "9", spool);
    indexed(&rt, ran, b"", "skipped 0\n");
}

#[test]
fn an_index_logs_in_first(rt: HostRuntime) {
    let spool = spool_of(&rt, Some((b"bob", b"secret")));
    let login = b"AUTHINFO USER bob\r\nAUTHINFO PASS secret\r\n";
    let spool = with_article(&rt, spool, login, b"one (1/1)", b"i1@x");
    let with_login = ["--login", "l"];
    let right = b"127.0.0.1:1190 bob secret";
    let ran = index_with(&rt, "1", "9", &with_login, right, spool);
    let spool = done(&rt, ran);
    let wrong = b"127.0.0.1:1190 bob no";
    let ran = index_with(&rt, "1", "9", &with_login, wrong, spool);
    let spool = ended_with(&rt, ran, 9, b"", "usebin: link over login 481\n");
    let ran = index(&rt, "1", "9", spool);
    let spool = ended_with(&rt, ran, 8, b"", "usebin: refused 480\n");
    let ran = index_with(&rt, "1", "9", &with_login, b"\nx", spool);
    ended(&rt, ran, 6, b"", "usebin: login 2\n");
}
