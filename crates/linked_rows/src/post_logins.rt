// The login of `post`, on the top call over objects in memory.
use crate::fixtures::{
    Talk, ended, ended_with, files_of, happened, happened_behind, holding, holds, links_of,
};
use crate::post_fixtures::{
    D_BLOCK, D_INDEX, ONCE, SPOOL_TAKES, post, post_from, session, spool_of,
};
use io_traits::Links;
use lists::Bytes;
use news_spool::Spool;
use row_fixtures::{are_events, repeated};
use std::process::Abort;

// The login of the server, where it has one.
const LOGIN: Option<(&[u8], &[u8])> = Some((b"bob", b"secret"));

const WITH_LOGIN: [&str; 2] = ["--login", "l"];

// Posts `d` with this login file.
fn post_with<L: Links, R: Abort + AllocGlobal>(rt: &R, login: &[u8], links: L) -> Talk<L> {
    let input = files_of(rt, &[ONCE, ("l", login)], &[]);
    post_from(rt, "d", &WITH_LOGIN, input, links)
}

// Asserts that `post` of `d` with this login file is refused with this line, and opens no link.
fn refused<R: Abort + AllocGlobal>(rt: &R, login: &[u8], line: &str) {
    let talk = post_with(rt, login, links_of(rt, &[b"200 hi\r\n"]));
    let links = ended_with(rt, talk, 6, b"", line);
    happened(rt, links, &[]);
}

// What happens up to the question for a password.
const ASKED: [(u8, &[u8]); 4] = [
    (b'O', b"127.0.0.1:1190"),
    (b'H', b"200 ready\r\n"),
    (b'S', b"AUTHINFO USER bob\r\n"),
    (b'H', b"381 more\r\n"),
];

// Asserts that a password was asked for, and that this is all that happened behind the question.
fn happened_when_asked<R: Abort>(rt: &R, spool: Spool, wanted: &[(u8, &[u8])]) {
    let events = spool.events();
    let (asked, _) = events.split_at(ASKED.len().min(events.len()));
    assert!(rt; are_events(asked, &ASKED));
    happened_behind(rt, ASKED.len(), spool, wanted);
}

#[test]
fn logs_in_before_it_posts(rt: HostRuntime) {
    let spool = spool_of(&rt, LOGIN);
    let file: &[u8] = b"127.0.0.1:1190 bob secret";
    let ran = post_with(&rt, file, spool);
    let spool = ended_with(&rt, ran, 0, D_INDEX, "");
    let spool = holding(&rt, spool, 1);
    happened_when_asked(
        &rt,
        spool,
        &[
            (b'S', b"AUTHINFO PASS secret\r\n"),
            (b'H', b"281 in\r\n"),
            (b'S', b"POST\r\n"),
            (b'H', b"340 send\r\n"),
            (b'S', D_BLOCK),
            (b'H', b"240 posted\r\n"),
            (b'S', b"QUIT\r\n"),
        ],
    );
}

#[test]
fn a_wrong_password_ends_the_link(rt: HostRuntime) {
    let spool = spool_of(&rt, LOGIN);
    let file: &[u8] = b"127.0.0.1:1190 bob no";
    let ran = post_with(&rt, file, spool);
    // The password isn't told.
    let spool = ended_with(&rt, ran, 9, b"", "usebin: link over login 481\n");
    let spool = holding(&rt, spool, 0);
    happened_when_asked(
        &rt,
        spool,
        &[(b'S', b"AUTHINFO PASS no\r\n"), (b'H', b"481 refused\r\n")],
    );
}

#[test]
fn a_server_without_a_login_refuses_one(rt: HostRuntime) {
    let spool = spool_of(&rt, None);
    let file: &[u8] = b"127.0.0.1:1190 bob secret";
    let ran = post_with(&rt, file, spool);
    ended(&rt, ran, 9, b"", "usebin: link over login 502\n");
}

#[test]
fn a_server_with_a_login_takes_nothing_without_one(rt: HostRuntime) {
    let spool = spool_of(&rt, LOGIN);
    let ran = post(&rt, ONCE, &[], spool);
    let spool = ended_with(&rt, ran, 8, b"", "part 1 notsent\nusebin: refused 480\n");
    holds(&rt, spool, 0);
}

#[test]
fn a_login_is_for_its_server_alone(rt: HostRuntime) {
    let file: &[u8] = b"127.0.0.1:119 bob secret\n\n127.0.0.1:11901 bob secret\n";
    let spool = spool_of(&rt, None);
    let ran = post_with(&rt, file, spool);
    let spool = ended_with(&rt, ran, 0, D_INDEX, "");
    session(&rt, spool, SPOOL_TAKES, D_BLOCK);
}

#[test]
fn a_broken_line_of_the_login_file_is_named(rt: HostRuntime) {
    let rows: [(&[u8], &str); 6] = [
        (b"127.0.0.1:1190 bob secret\nx\n", "usebin: login 2\n"),
        (b"127.0.0.1:1190 bob secret\r\n\r\nx", "usebin: login 3\n"),
        (b"127.0.0.1:1190 bob  secret\n", "usebin: login 1\n"),
        (b"127.0.0.1:1190 bob\n", "usebin: login 1\n"),
        (b"127.0.0.1 bob secret\n", "usebin: login 1\n"),
        (
            b"127.0.0.1:1190 bob secret\n127.0.0.1:1190 bob other\n",
            "usebin: login 2\n",
        ),
    ];
    for (file, line) in rows {
        refused(&rt, file, line);
    }
}

// A login file of so many empty lines.
fn empty_lines<R: Abort + AllocGlobal>(rt: &R, count: u32) -> Bytes {
    repeated(rt.alloc(), b"", b"\n", count, b"").expect(rt, "a file")
}

#[test]
fn a_login_file_may_have_65536_bytes(rt: HostRuntime) {
    let longest = empty_lines(&rt, 65_536);
    let ran = post_with(&rt, longest.as_slice(), spool_of(&rt, None));
    ended(&rt, ran, 0, D_INDEX, "");
    let longer = empty_lines(&rt, 65_537);
    refused(&rt, longer.as_slice(), "usebin: limit login 65536\n");
}

#[test]
fn the_login_file_is_read_first(rt: HostRuntime) {
    let links = links_of(&rt, &[b"200 hi\r\n"]);
    let input = files_of(&rt, &[("l", b"x")], &[]);
    let ran = post_from(&rt, "d", &WITH_LOGIN, input, links);
    let links = ended_with(&rt, ran, 6, b"", "usebin: login 1\n");
    let input = files_of(&rt, &[ONCE], &[]);
    let ran = post_from(&rt, "d", &WITH_LOGIN, input, links);
    let links = ended_with(&rt, ran, 3, b"", "usebin: input fault\n");
    // The second call reads the login file.
    let input = files_of(&rt, &[ONCE, ("l", b"\n")], &[2]);
    let ran = post_from(&rt, "d", &WITH_LOGIN, input, links);
    let links = ended_with(&rt, ran, 3, b"", "usebin: input fault\n");
    happened(&rt, links, &[]);
}
