// An article posted on a link: the greeting, the login, the replies, and messages of which each send takes a part.
use crate::dialog_fixtures::{Stop, came_to, happened, links_of, posts};
use link_dialog::NotOpen;
use nntp_lines::Why;

// Dialogs that open no link: whether there is a login, the pieces that come with bars between them, the number of the call
// that fails (from 1, or 0), why there is no link, what goes out, and the kinds of all events, by their first letters.
const NOT_OPEN: [(bool, &str, u64, NotOpen, &str, &str); 11] = [
    (false, "", 1, NotOpen::NoLink, "", ""),
    (false, "", 0, NotOpen::Over(Why::Quiet), "", "OQQQ"),
    (
        false,
        "502 no\r\n",
        0,
        NotOpen::Over(Why::Greeting(502)),
        "",
        "OH",
    ),
    (
        false,
        "400 later\r\n",
        0,
        NotOpen::Over(Why::Greeting(400)),
        "",
        "OH",
    ),
    (false, "hello\r\n", 0, NotOpen::Over(Why::NoReply), "", "OH"),
    (
        false,
        "200\thi\r\n",
        0,
        NotOpen::Over(Why::NoReply),
        "",
        "OH",
    ),
    (
        false,
        "200 hi\r\nx",
        0,
        NotOpen::Over(Why::Unasked),
        "",
        "OH",
    ),
    (
        true,
        "200 hi\r\n|502 no\r\n",
        0,
        NotOpen::Over(Why::Login(502)),
        "AUTHINFO USER bob\r\n",
        "OHSH",
    ),
    (
        true,
        "200 hi\r\n|381 more\r\n|481 refused\r\n",
        0,
        NotOpen::Over(Why::Login(481)),
        "AUTHINFO USER bob\r\nAUTHINFO PASS secret\r\n",
        "OHSHSH",
    ),
    (
        true,
        "200 hi\r\n|381 more\r\n|381 more\r\n",
        0,
        NotOpen::Over(Why::Login(381)),
        "AUTHINFO USER bob\r\nAUTHINFO PASS secret\r\n",
        "OHSHSH",
    ),
    (
        true,
        "200 hi\r\n|281 in\r\n.",
        0,
        NotOpen::Over(Why::Unasked),
        "AUTHINFO USER bob\r\n",
        "OHSH",
    ),
];

#[test]
fn a_link_is_open_behind_its_greeting_and_its_login(rt: HostRuntime) {
    for (logs_in, pieces, failing, why, sent, kinds) in NOT_OPEN {
        let links = links_of(&rt, pieces, failing, &[]);
        let links = posts(&rt, links, logs_in, Err(Stop::NotOpen(why)));
        happened(&rt, links, sent, kinds);
    }
}

// Dialogs with a login that is taken: the pieces that come, the codes of the replies to `POST` and to the article, what goes
// out, and the kinds of all events.
const LOGINS: [(&str, (u16, u16), &str, &str); 2] = [
    (
        "200 hi\r\n|381 more\r\n|281 in\r\n|340 go\r\n|240 ok\r\n",
        (340, 240),
        "AUTHINFO USER bob\r\nAUTHINFO PASS secret\r\nPOST\r\nFrom: a\r\n\r\nx\r\n.\r\nQUIT\r\n",
        "OHSHSHSHSHS",
    ),
    // the password is sent only where it is asked for
    (
        "200 hi\r\n|281 in\r\n|340 go\r\n|441 no\r\n",
        (340, 441),
        "AUTHINFO USER bob\r\nPOST\r\nFrom: a\r\n\r\nx\r\n.\r\nQUIT\r\n",
        "OHSHSHSHS",
    ),
];

#[test]
fn a_login_sends_the_password_where_it_is_asked_for(rt: HostRuntime) {
    for (pieces, codes, sent, kinds) in LOGINS {
        let links = links_of(&rt, pieces, 0, &[]);
        let links = posts(&rt, links, true, Ok(codes));
        happened(&rt, links, sent, kinds);
    }
}

const POSTED: &str = "POST\r\nFrom: a\r\n\r\nx\r\n.\r\n";

const POSTED_AND_LEFT: &str = "POST\r\nFrom: a\r\n\r\nx\r\n.\r\nQUIT\r\n";

// Dialogs on open links without a login: the pieces that come, the number of the call that fails, the codes of
// the replies to `POST` and to the article, what goes out, and the kinds of all events.
const OPEN: [(&str, u64, Result<(u16, u16), Stop>, &str, &str); 11] = [
    (
        "200 hi\r\n|340 go\r\n|240 ok\r\n",
        0,
        Ok((340, 240)),
        POSTED_AND_LEFT,
        "OHSHSHS",
    ),
    (
        "200 hi\r\n|340 go\r\n|240\r\n",
        0,
        Ok((340, 240)),
        POSTED_AND_LEFT,
        "OHSHSHS",
    ),
    (
        "200 hi\r\n|440 no\r\n|441 no\r\n",
        0,
        Ok((440, 441)),
        POSTED_AND_LEFT,
        "OHSHSHS",
    ),
    (
        "200 hi\r\n|400 closing\r\n",
        0,
        Err(Stop::Over(Why::Odd(400))),
        "POST\r\n",
        "OHSH",
    ),
    (
        "200 hi\r\n|34\r\n",
        0,
        Err(Stop::Over(Why::NoReply)),
        "POST\r\n",
        "OHSH",
    ),
    (
        "200 hi\r\n|340 go\r\n240",
        0,
        Err(Stop::Unasked(340)),
        "POST\r\n",
        "OHSH",
    ),
    (
        "200 hi\r\n|340 go\r\n|205 bye\r\n",
        0,
        Err(Stop::Over(Why::Odd(205))),
        POSTED,
        "OHSHSH",
    ),
    (
        "200 hi\r\n|340 go\r\n|240 ok\r\n\r\n",
        0,
        Err(Stop::Unasked(240)),
        POSTED,
        "OHSHSH",
    ),
    (
        "200 hi\r\n|340 go\n\r|\n",
        0,
        Err(Stop::Over(Why::Quiet)),
        POSTED,
        "OHSHHSQQQ",
    ),
    // nothing is sent once the link has ended
    (
        "200 hi\r\n|340 go\r\n",
        5,
        Err(Stop::Cut(0)),
        "POST\r\n",
        "OHSHE",
    ),
    (
        "200 hi\r\n|340 go\r\n",
        6,
        Err(Stop::Over(Why::Ended)),
        POSTED,
        "OHSHSE",
    ),
];

#[test]
fn an_article_is_posted_on_an_open_link(rt: HostRuntime) {
    for (pieces, failing, wanted, sent, kinds) in OPEN {
        let links = links_of(&rt, pieces, failing, &[]);
        let links = posts(&rt, links, false, wanted);
        happened(&rt, links, sent, kinds);
    }
}

#[test]
fn a_greeting_may_be_cut_anywhere(rt: HostRuntime) {
    let greeting = b"201 hello\r\n";
    for i in 0..greeting.len() {
        let pieces: [&[u8]; 4] = [&greeting[..i], &greeting[i..], b"340 go\r\n", b"240 ok\r\n"];
        came_to(&rt, &pieces, Ok((340, 240)));
    }
}

#[test]
fn a_status_line_has_512_bytes_with_its_end_at_most(rt: HostRuntime) {
    let mut line = [b'a'; 513];
    line[..4].copy_from_slice(b"240 ");
    line[510] = b'\r';
    line[511] = b'\n';
    let pieces: [&[u8]; 3] = [b"200 hi\r\n", b"340 go\r\n", &line[..512]];
    came_to(&rt, &pieces, Ok((340, 240)));
    line[510] = b'a';
    line[511] = b'\r';
    line[512] = b'\n';
    let pieces: [&[u8]; 3] = [b"200 hi\r\n", b"340 go\r\n", &line];
    came_to(&rt, &pieces, Err(Stop::Over(Why::NoReply)));
}

#[test]
fn a_message_goes_out_in_as_many_sends_as_it_takes(rt: HostRuntime) {
    let pieces = "200 hi\r\n|340 go\r\n|240 ok\r\n";
    let links = links_of(&rt, pieces, 0, &[1, 2, 0, 1, 10, 3]);
    let links = posts(&rt, links, false, Ok((340, 240)));
    happened(&rt, links, POSTED_AND_LEFT, "OHSSSSSHSSHS");
    // The sixth call sends the rest of the article.
    let links = links_of(&rt, pieces, 6, &[6, 5]);
    let links = posts(&rt, links, false, Err(Stop::Cut(5)));
    happened(&rt, links, "POST\r\nFrom:", "OHSHSE");
}
