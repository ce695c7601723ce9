// What stops `index`, on the top call over links that follow a script.
use crate::fixtures::{
    Talk, bytes_of, ended, ended_with, files_of, happened, links_of, quiet_links_of, run_linked,
};
use crate::index_fixtures::{GROUP, index, index_with, index_words, indexed};
use io_memory::ScriptLinks;
use row_fixtures::no_links;
use std::process::Abort;

const CHOSEN: &[u8] = b"211 1 1 1 alt.binaries.test\r\n";

const OVERVIEW: &[u8] = b"224 follows\r\n1\tone (1/1)\ta\t\t<i1@x>\t\t\t\r\n.\r\n";

const ONE_FILE: &[u8] = b"<file poster=\"a\" date=\"0\" subject=\"one (1/1)\">\n\
<groups>\n<group>alt.binaries.test</group>\n</groups>\n<segments>\n\
<segment bytes=\"0\" number=\"1\">i1@x</segment>\n</segments>\n</file>\n";

#[test]
fn the_end_of_the_link_is_told(rt: HostRuntime) {
    let rows: [(&[&[u8]], &str); 8] = [
        (&[b"502 no\r\n"], "usebin: link over greeting 502\n"),
        (&[], "usebin: link over ended\n"),
        (&[b"200 hi\r\n"], "usebin: link over ended\n"),
        (
            &[b"200 hi\r\n", b"211 1 1\r\n"],
            "usebin: link over noreply\n",
        ),
        (
            &[b"200 hi\r\n", b"340 go\r\n"],
            "usebin: link over odd 340\n",
        ),
        (&[b"200 hi\r\n", CHOSEN], "usebin: link over ended\n"),
        (
            &[b"200 hi\r\n", CHOSEN, b"224 follows\r\n1\t"],
            "usebin: link over ended\n",
        ),
        (
            &[b"200 hi\r\n", b"211 1 1 1 alt.binaries.test\r\nx"],
            "usebin: link over unasked\n",
        ),
    ];
    for (pieces, line) in rows {
        let links = links_of(&rt, pieces);
        let ran = index(&rt, "1", "1", links);
        ended(&rt, ran, 9, b"", line);
    }
}

#[test]
fn a_quiet_server_is_given_up(rt: HostRuntime) {
    let links = quiet_links_of(&rt, &[b"200 hi\r\n"]);
    let ran = index_with(&rt, "1", "1", &["--patience", "2"], b"", links);
    ended(&rt, ran, 9, b"", "usebin: link over quiet\n");
}

#[test]
fn a_refused_overview_is_told(rt: HostRuntime) {
    let links = links_of(&rt, &[b"200 hi\r\n", CHOSEN, b"500 what\r\n"]);
    let ran = index(&rt, "1", "1", links);
    let links = ended_with(&rt, ran, 8, b"", "usebin: refused 500\n");
    happened(
        &rt,
        links,
        &[
            (b'O', b"127.0.0.1:1190"),
            (b'H', b"200 hi\r\n"),
            (b'S', b"GROUP alt.binaries.test\r\n"),
            (b'H', CHOSEN),
            (b'S', b"OVER 1-1\r\n"),
            (b'H', b"500 what\r\n"),
            (b'S', b"QUIT\r\n"),
        ],
    );
}

#[test]
fn a_range_without_an_article_is_no_refusal(rt: HostRuntime) {
    let links = links_of(&rt, &[b"200 hi\r\n", CHOSEN, b"423 none\r\n"]);
    let ran = index(&rt, "1", "1", links);
    indexed(&rt, ran, b"", "skipped 0\n");
}

#[test]
fn bytes_behind_the_last_overview_change_nothing(rt: HostRuntime) {
    let mut overview = bytes_of(&rt, OVERVIEW);
    overview.push(b'x').expect(&rt, "bytes");
    let links = links_of(&rt, &[b"200 hi\r\n", CHOSEN, overview.as_slice()]);
    let ran = index(&rt, "1", "9", links);
    indexed(&rt, ran, ONE_FILE, "skipped 0\n");
}

#[test]
fn lines_that_are_no_overview_are_skipped(rt: HostRuntime) {
    let overview =
        b"224 follows\r\n0\tx (1/1)\ta\t\t<i0@x>\t\t\t\r\n1\tone (1/1)\ta\t\t<i1@x>\t\t\t\r\n\
2\tno count\ta\t\t<i2@x>\t\t\t\r\n\r\n.\r\n";
    let links = links_of(&rt, &[b"200 hi\r\n", CHOSEN, overview]);
    let ran = index(&rt, "1", "9", links);
    indexed(&rt, ran, ONE_FILE, "skipped 3\n");
}

#[test]
fn no_link_and_no_login_file_are_told(rt: HostRuntime) {
    let none = no_links(rt.alloc()).expect(&rt, "links");
    let ran = index(&rt, "1", "9", none);
    let none = ended_with(&rt, ran, 5, b"", "usebin: no link\n");
    let words = index_words(&rt, GROUP, "1", "9", &["--login", "none"]);
    let input = files_of(&rt, &[], &[]);
    let ran = run_linked(&rt, &words, input, none, &[], &[]);
    ended(&rt, ran, 3, b"", "usebin: input fault\n");
}

// Indexes over links that give one overview. The writes of these numbers fail.
fn index_failing<R: Abort + AllocGlobal>(
    rt: &R,
    failing: &[u64],
    failing_errors: &[u64],
) -> Talk<ScriptLinks> {
    let words = index_words(rt, GROUP, "1", "9", &[]);
    let links = links_of(rt, &[b"200 hi\r\n", CHOSEN, OVERVIEW]);
    run_linked(
        rt,
        &words,
        files_of(rt, &[], &[]),
        links,
        failing,
        failing_errors,
    )
}

#[test]
fn a_failed_write_is_told_behind_the_skipped_lines(rt: HostRuntime) {
    let ran = index_failing(&rt, &[1], &[]);
    ended(&rt, ran, 4, b"", "skipped 0\nusebin: output fault\n");
    let ran = index_failing(&rt, &[1], &[1]);
    ended(&rt, ran, 4, b"", "");
}
