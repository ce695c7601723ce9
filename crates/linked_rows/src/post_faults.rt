// What ends a `post` early, on the top call over objects in memory.
use crate::fixtures::{
    Talk, ended, ended_with, files_of, happened, links_of, quiet_links_of, run_linked, words_of,
};
use crate::post_fixtures::{
    D_INDEX, ONCE, REFUSED, SERVER, TAKEN, THRICE, post, post_from, post_words, session,
};
use io_memory::ScriptLinks;
use row_fixtures::{PartialInput, no_links};
use std::process::Abort;

#[test]
fn names_why_the_link_is_over(rt: HostRuntime) {
    let rows: [(&[&[u8]], &str); 9] = [
        (&[b"502 no\r\n"], "usebin: link over greeting 502\n"),
        (&[b"400 no\r\n"], "usebin: link over greeting 400\n"),
        (&[b"hello\r\n"], "usebin: link over noreply\n"),
        (&[b"200 hi\r\nx"], "usebin: link over unasked\n"),
        (&[], "usebin: link over ended\n"),
        (&[b"200 hi\r\n"], "usebin: link over ended\n"),
        (
            &[b"200 hi\r\n", b"400 no\r\n"],
            "usebin: link over odd 400\n",
        ),
        (
            &[b"200 hi\r\n", b"hello\r\n"],
            "usebin: link over noreply\n",
        ),
        (
            &[b"200 hi\r\n", b"340 go\r\nx"],
            "usebin: link over unasked\n",
        ),
    ];
    for (pieces, line) in rows {
        let ran = post(&rt, ONCE, &[], links_of(&rt, pieces));
        ended(&rt, ran, 9, b"", line);
    }
}

#[test]
fn sends_nothing_behind_a_greeting_that_refuses(rt: HostRuntime) {
    let links = links_of(&rt, &[b"502 no\r\n"]);
    let ran = post(&rt, ONCE, &[], links);
    let links = ended_with(&rt, ran, 9, b"", "usebin: link over greeting 502\n");
    happened(
        &rt,
        links,
        &[(b'O', b"127.0.0.1:1190"), (b'H', b"502 no\r\n")],
    );
}

#[test]
fn gives_a_quiet_server_up(rt: HostRuntime) {
    let more = ["--patience", "2"];
    let links = quiet_links_of(&rt, &[]);
    let ran = post(&rt, ONCE, &more, links);
    let links = ended_with(&rt, ran, 9, b"", "usebin: link over quiet\n");
    happened(
        &rt,
        links,
        &[(b'O', b"127.0.0.1:1190"), (b'Q', b""), (b'Q', b"")],
    );
    let links = quiet_links_of(&rt, &[b"200 hi\r\n"]);
    let ran = post(&rt, ONCE, &more, links);
    ended(&rt, ran, 9, b"", "usebin: link over quiet\n");
    let links = quiet_links_of(&rt, &[b"200 hi\r\n", b"340 go\r\n"]);
    let ran = post(&rt, ONCE, &more, links);
    ended(&rt, ran, 1, D_INDEX, "part 1 unsure\n");
}

#[test]
fn tells_that_no_link_was_opened(rt: HostRuntime) {
    let links = no_links(rt.alloc()).expect(&rt, "links");
    let ran = post(&rt, ONCE, &[], links);
    let links = ended_with(&rt, ran, 5, b"", "usebin: no link\n");
    happened(&rt, links, &[]);
}

#[test]
fn tells_a_fault_of_the_input(rt: HostRuntime) {
    let links = links_of(&rt, &TAKEN);
    let input = files_of(&rt, &[THRICE], &[]);
    let ran = post_from(&rt, "d", &[], input, links);
    let links = ended_with(&rt, ran, 3, b"", "usebin: input fault\n");
    // The second call reads the first part, which is done before a link is opened.
    let input = files_of(&rt, &[ONCE], &[2]);
    let ran = post_from(&rt, "d", &[], input, links);
    let links = ended_with(&rt, ran, 3, b"", "usebin: input fault\n");
    happened(&rt, links, &[]);
}

#[test]
fn says_quit_where_a_later_part_is_not_read(rt: HostRuntime) {
    let block = b"From: me@example.org\r\nNewsgroups: alt.binaries.test\r\n\
Subject: \"t\" yEnc (1/3)\r\nMessage-ID: <tok.1of3@example.org>\r\n\r\n\
=ybegin part=1 total=3 line=128 size=27 name=t\r\n=ypart begin=1 end=9\r\n\
[\\]^_`abc\r\n=yend size=9 part=1 pcrc32=cbf43926\r\n.\r\n";
    let links = links_of(&rt, &TAKEN);
    // The third call reads the second part.
    let input = files_of(&rt, &[THRICE], &[3]);
    let ran = post_from(&rt, "t", &["--part-size", "9"], input, links);
    let links = ended_with(&rt, ran, 3, b"", "usebin: input fault\n");
    session(&rt, links, TAKEN, block);
}

#[test]
fn names_the_place_of_a_short_read(rt: HostRuntime) {
    let links = links_of(&rt, &TAKEN);
    let ran = post_from(&rt, "d", &[], PartialInput::shrunk(9, 4), links);
    let links = ended_with(&rt, ran, 6, b"", "usebin: short 4\n");
    happened(&rt, links, &[]);
    let more = ["--part-size", "4"];
    let links = links_of(&rt, &TAKEN);
    let ran = post_from(&rt, "d", &more, PartialInput::shrunk(9, 6), links);
    ended(&rt, ran, 6, b"", "usebin: short 6\n");
}

#[test]
fn names_the_limit_that_is_passed(rt: HostRuntime) {
    let rows: [(u64, &str, &str); 3] = [
        (
            1_099_511_627_777,
            "16777216",
            "usebin: limit file 1099511627776\n",
        ),
        (1_099_511_627_777, "1", "usebin: limit file 1099511627776\n"),
        (262_145, "1", "usebin: limit segments 262144\n"),
    ];
    for (size, part_size, line) in rows {
        let links = links_of(&rt, &TAKEN);
        let more = ["--part-size", part_size];
        let ran = post_from(&rt, "d", &more, PartialInput::shrunk(size, 0), links);
        let links = ended_with(&rt, ran, 6, b"", line);
        happened(&rt, links, &[]);
    }
}

// Posts `d` over links that give these pieces. The writes of these numbers fail.
fn post_failing<R: Abort + AllocGlobal>(
    rt: &R,
    pieces: &[&[u8]],
    failing: &[u64],
    failing_errors: &[u64],
) -> Talk<ScriptLinks> {
    let words = post_words(rt, "d", &[]);
    let input = files_of(rt, &[ONCE], &[]);
    run_linked(
        rt,
        &words,
        input,
        links_of(rt, pieces),
        failing,
        failing_errors,
    )
}

#[test]
fn tells_a_fault_of_the_output_behind_the_parts(rt: HostRuntime) {
    let ran = post_failing(&rt, &REFUSED, &[1], &[]);
    ended(
        &rt,
        ran,
        4,
        b"",
        "part 1 refused 441\nusebin: output fault\n",
    );
    let ran = post_failing(&rt, &TAKEN, &[1], &[]);
    ended(&rt, ran, 4, b"", "usebin: output fault\n");
}

#[test]
fn a_fault_of_the_errors_changes_no_status(rt: HostRuntime) {
    let ran = post_failing(&rt, &REFUSED, &[], &[1]);
    ended(&rt, ran, 1, D_INDEX, "");
    let ran = post_failing(&rt, &REFUSED, &[1], &[1]);
    ended(&rt, ran, 4, b"", "");
}

#[test]
fn a_fault_of_the_errors_changes_no_status_of_the_link(rt: HostRuntime) {
    let ran = post_failing(&rt, &[b"200 hi\r\n", b"440 no\r\n"], &[], &[1]);
    ended(&rt, ran, 8, b"", "");
    let ran = post_failing(&rt, &[b"502 no\r\n"], &[], &[1]);
    ended(&rt, ran, 9, b"", "");
}

#[test]
fn asks_for_each_required_key(rt: HostRuntime) {
    let words = [
        "post",
        "--input",
        "d",
        "--server",
        SERVER,
        "--from",
        "me@example.org",
        "--group",
        "alt.binaries.test",
        "--token",
        "tok",
    ];
    let words = words_of(&rt, &words, &[]);
    let input = files_of(&rt, &[ONCE], &[]);
    let links = links_of(&rt, &TAKEN);
    let ran = run_linked(&rt, &words, input, links, &[], &[]);
    let links = ended_with(&rt, ran, 2, b"", "usebin: words 12\n");
    happened(&rt, links, &[]);
}
