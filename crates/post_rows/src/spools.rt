// Sessions with news servers in memory: what they reply to posts, logins, newsgroups and overviews.
use crate::spool_fixtures::{adds, ends, holding, holds, open, posted, send, spool_of, talks};
use news_spool::SpoolError;

// Sessions with servers that have no article: the server, and texts and replies in turn, with bars between them.
const SESSIONS: [(&str, &str); 3] = [
    // a login has to come first, and a wrong one is refused
    (
        "login:119",
        "POST\r\nHELP\r\nAUTHINFO PASS secret\r\nAUTHINFO USER me\r\nPOST\r\nAUTHINFO PASS wrong\r\n|200 ready\r\n480 login\r\n480 login\r\n482 order\r\n381 more\r\n480 login\r\n481 refused\r\n|AUTHINFO USER you\r\nAUTHINFO PASS secret\r\nAUTHINFO USER me\r\nAUTHINFO\r\nAUTHINFO PASS secret\r\nHELP\r\nPOST\r\n|381 more\r\n481 refused\r\n381 more\r\n500 what\r\n281 in\r\n500 what\r\n340 send\r\n|From: me@host\r\nNewsgroups: alt.test,alt.bin\r\nSubject: one\r\nMessage-ID: <one@host>\r\n\r\nhello\r\n..dot\r\n.\r\n|240 posted\r\n",
    ),
    // a server without a login knows none
    (
        "open:119",
        "AUTHINFO USER me\r\nAUTHINFO PASS secret\r\nAUTHINFO\r\nAUTHINFOX\r\n|200 ready\r\n502 no\r\n502 no\r\n502 no\r\n500 what\r\n",
    ),
    // a range has two numbers
    (
        "open:119",
        "|200 ready\r\n|OVER\r\n|500 what\r\n|OVER \r\n|500 what\r\n|OVER 1\r\n|500 what\r\n|OVER 1-\r\n|500 what\r\n|OVER -3\r\n|500 what\r\n|OVER 1-3-5\r\n|500 what\r\n|OVER 1 - 3\r\n|500 what\r\n|OVER <one@host>\r\n|500 what\r\n|OVER 1-10000000000000000\r\n|500 what\r\n",
    ),
];

// The same of servers to which three articles were posted.
const SESSIONS_BEHIND_POSTS: [(&str, &str); 6] = [
    // a newsgroup tells its articles
    (
        "open:119",
        "GROUP alt.test\r\nGROUP alt.bin\r\nGROUP alt.none\r\n|200 ready\r\n211 2 1 3 alt.test\r\n211 2 1 2 alt.bin\r\n411 none\r\n",
    ),
    // its name is compared whole
    (
        "open:119",
        "GROUP alt.tes\r\nGROUP alt.test2\r\nGROUP alt.test,alt.bin\r\nGROUP ALT.TEST\r\nGROUP alt.test \r\nGROUP \r\n|200 ready\r\n411 none\r\n411 none\r\n411 none\r\n411 none\r\n411 none\r\n411 none\r\n|GROUP\r\ngroup alt.test\r\nGROUPS alt.test\r\n|500 what\r\n500 what\r\n500 what\r\n",
    ),
    // and it waits for the login
    (
        "login:119",
        "GROUP alt.test\r\nOVER 1-3\r\nAUTHINFO USER me\r\nAUTHINFO PASS secret\r\nOVER 1-3\r\nGROUP alt.test\r\n|200 ready\r\n480 login\r\n480 login\r\n381 more\r\n281 in\r\n412 no group\r\n211 2 1 3 alt.test\r\n",
    ),
    // an overview has a line for each article
    (
        "open:119",
        "GROUP alt.test\r\nOVER 1-3\r\n|200 ready\r\n211 2 1 3 alt.test\r\n224 follows\r\n1\tone\tme@host\tnow\t<one@host>\t\t98\t2\r\n3\ta b  c \tyou <you@host>\tnow\t<three@host>\t\t100\t3\r\n.\r\n",
    ),
    // a range holds both its ends
    (
        "open:119",
        "GROUP alt.bin\r\nOVER 0-1\r\n|200 ready\r\n211 2 1 2 alt.bin\r\n224 follows\r\n1\tone\tme@host\tnow\t<one@host>\t\t98\t2\r\n.\r\n|OVER 002-9999999999999999\r\n|224 follows\r\n2\ttwo\tme@host\tnow\t<two@host>\t\t76\t0\r\n.\r\n|OVER 2-2\r\n|224 follows\r\n2\ttwo\tme@host\tnow\t<two@host>\t\t76\t0\r\n.\r\n",
    ),
    // and may have no article
    (
        "open:119",
        "OVER 1-3\r\nGROUP alt.test\r\nOVER 2-2\r\nOVER 4-9\r\nOVER 3-1\r\nOVER 0-0\r\n|200 ready\r\n412 no group\r\n211 2 1 3 alt.test\r\n423 none\r\n423 none\r\n423 none\r\n423 none\r\n",
    ),
];

#[test]
fn commands_have_their_replies(rt: HostRuntime) {
    for (server, script) in SESSIONS {
        let talk = open(&rt, spool_of(&rt, &[], &[]), server.as_bytes(), 0);
        let _talk = talks(&rt, talk, script);
    }
    for (server, script) in SESSIONS_BEHIND_POSTS {
        let talk = open(&rt, posted(&rt), server.as_bytes(), 1);
        let _talk = talks(&rt, talk, script);
    }
}

#[test]
fn the_last_newsgroup_counts(rt: HostRuntime) {
    let talk = open(&rt, posted(&rt), b"open:119", 1);
    let talk = talks(
        &rt,
        talk,
        "GROUP alt.test\r\nGROUP alt.bin\r\nOVER 2-3\r\n|200 ready\r\n211 2 1 3 alt.test\r\n211 2 1 2 alt.bin\r\n224 follows\r\n2\ttwo\tme@host\tnow\t<two@host>\t\t76\t0\r\n.\r\n|GROUP alt.none\r\nOVER 2-3\r\n|411 none\r\n224 follows\r\n2\ttwo\tme@host\tnow\t<two@host>\t\t76\t0\r\n.\r\n",
    );
    // on this link alone
    let other = open(&rt, talk.left(), b"open:119", 2);
    let _other = talks(&rt, other, "OVER 2-3\r\n|200 ready\r\n412 no group\r\n");
}

#[test]
fn an_overview_is_of_the_articles_at_its_last_byte(rt: HostRuntime) {
    let talk = open(&rt, spool_of(&rt, &[], &[]), b"open:119", 0);
    let talk = adds(&rt, talk, b"a@host", Ok(()));
    let script = "GROUP alt.test\r\nOVER 1-9\r|200 ready\r\n211 1 1 1 alt.test\r\n";
    let talk = talks(&rt, talk, script);
    let talk = adds(&rt, talk, b"b@host", Ok(()));
    let script =
        "\n|224 follows\r\n1\t\t\tnow\t<a@host>\t\t2\t0\r\n2\t\t\tnow\t<b@host>\t\t2\t0\r\n.\r\n";
    let _talk = talks(&rt, talk, script);
}

const ARTICLE_POSTED: &str =
    "From: me@host\r\nNewsgroups: alt.test,alt.bin\r\nSubject: one\r\nMessage-ID: <one@host>\r\n\r\nhello\r\n..dot\r\n.\r\n|240 posted\r\n";

const ARTICLE_REFUSED: &str =
    "From: me@host\r\nNewsgroups: alt.test,alt.bin\r\nSubject: one\r\nMessage-ID: <one@host>\r\n\r\nhello\r\n..dot\r\n.\r\n|441 refused\r\n";

#[test]
fn an_article_is_posted_once(rt: HostRuntime) {
    let talk = open(&rt, spool_of(&rt, &[], &[]), b"open:119", 0);
    let talk = talks(&rt, talk, "|200 ready\r\n|POST\r\n|340 send\r\n");
    let talk = holding(&rt, talk, 0);
    let talk = talks(&rt, talk, ARTICLE_POSTED);
    let talk = holding(&rt, talk, 1);
    let talk = talks(&rt, talk, "NOOP\r\n|500 what\r\n");
    // its message-id is known then
    let second = open(&rt, talk.left(), b"open:119", 1);
    let second = talks(&rt, second, "POST\r\n|200 ready\r\n340 send\r\n");
    let second = talks(&rt, second, ARTICLE_REFUSED);
    holds(&rt, second.left(), 1);
}

#[test]
fn articles_are_added(rt: HostRuntime) {
    let talk = open(&rt, spool_of(&rt, &[], &[]), b"open:119", 0);
    let talk = adds(&rt, talk, b"one@host", Ok(()));
    let talk = adds(&rt, talk, b"two@host", Ok(()));
    let talk = adds(&rt, talk, b"one@host", Err(SpoolError::Known));
    let talk = holding(&rt, talk, 2);
    let talk = talks(&rt, talk, "POST\r\n|200 ready\r\n340 send\r\n");
    let talk = talks(&rt, talk, ARTICLE_REFUSED);
    holds(&rt, talk.left(), 2);
}

// What is no article, since a field is missing or wrong, or the head doesn't end, with bars between.
const NO_ARTICLES: &str =
    "From: me\r\nNewsgroups: alt.test\r\nSubject: one\r\n\r\nMessage-ID: <one@host>\r\n.\r\n|From: me\r\nNewsgroups: alt.test\r\nMessage-ID: <one@host>\r\n\r\nhello\r\n.\r\n|From: me\r\nSubject: one\r\nMessage-ID: <one@host>\r\n\r\nhello\r\n.\r\n|Newsgroups: alt.test\r\nSubject: one\r\nMessage-ID: <one@host>\r\n\r\nhello\r\n.\r\n|From: me\r\nNewsgroups: alt.test,\r\nSubject: one\r\nMessage-ID: <one@host>\r\n\r\nhello\r\n.\r\n|From: me\r\nNewsgroups: alt.test\r\nSubject: one\r\nMessage-ID: one@host\r\n\r\nhello\r\n.\r\n|From: me\r\nNewsgroups: alt.test\r\nSubject: one\r\nMessage-ID: <>\r\nMessage-ID: <one@host>\r\n\r\n.\r\n|From: me\r\nNewsgroups: alt.test\r\nSubject: one\r\nMessage-ID: <one@host>\r\n.\r\n|.\r\n";

#[test]
fn what_lacks_a_field_is_no_article(rt: HostRuntime) {
    for article in NO_ARTICLES.split('|') {
        let talk = open(&rt, spool_of(&rt, &[], &[]), b"open:119", 0);
        let talk = talks(&rt, talk, "POST\r\n|200 ready\r\n340 send\r\n");
        let talk = send(&rt, talk, article.as_bytes());
        let talk = talks(&rt, talk, "|441 refused\r\n");
        let talk = holding(&rt, talk, 0);
        let _talk = talks(&rt, talk, "POST\r\n|340 send\r\n");
    }
}

// The pieces of three commands, the first with its article and the last behind the end, with bars between them.
const PIECES: &str =
    "PO|ST\r|\nFrom: me\r\nNewsgroups: a\r\nSubject: s\r\nMessage-ID: <x>\r\n\r|\n\r\n.|\r\nQUIT\r\nPOST\r\n";

#[test]
fn commands_may_come_in_any_pieces(rt: HostRuntime) {
    let mut talk = open(&rt, spool_of(&rt, &[], &[]), b"open:119", 0);
    for piece in PIECES.split('|') {
        talk = send(&rt, talk, piece.as_bytes());
    }
    let wanted = b"200 ready\r\n340 send\r\n240 posted\r\n205 bye\r\n";
    holds(&rt, ends(&rt, talk, wanted), 1);
}

#[test]
fn a_line_of_511_bytes_is_no_command(rt: HostRuntime) {
    let talk = open(&rt, spool_of(&rt, &[], &[]), b"login:119", 0);
    let talk = send(&rt, talk, &[b'x'; 510]);
    let talk = talks(&rt, talk, "\r\n|200 ready\r\n480 login\r\n");
    let talk = send(&rt, talk, &[b'x'; 511]);
    let _talk = talks(&rt, talk, "\r\n|500 what\r\n");
    // the same of a command that would be one
    let talk = open(&rt, spool_of(&rt, &[], &[]), b"open:119", 0);
    let talk = send(&rt, talk, b"GROUP ");
    let talk = send(&rt, talk, &[b'x'; 504]);
    let talk = talks(&rt, talk, "\r\n|200 ready\r\n411 none\r\n");
    let talk = send(&rt, talk, b"GROUP ");
    let talk = send(&rt, talk, &[b'x'; 505]);
    let _talk = talks(&rt, talk, "\r\n|500 what\r\n");
}
