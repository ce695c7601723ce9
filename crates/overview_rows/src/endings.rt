// Sessions that end without an index.
use crate::index_fixtures::{Outcome, Session, come, comes, links_of};
use nntp_lines::Why;
use overview_index::IndexError;

const HELLO: &[u8] = b"200 hi\r\n";

const CHOSEN: &[u8] = b"211 1 1 9 a.b\r\n";

// Pieces that end within the reply to `OVER`.
const CUT: &[&[u8]] = &[
    HELLO,
    CHOSEN,
    b"224 x\r\n1\tfile (1/1)\tme\tnow\t<a@b>\t\t7\t9\r\n",
];

const OVER: &[u8] = b"GROUP a.b\r\nOVER 1-9\r\n";

const ENDED: Outcome<'_> = Err(IndexError::Over(Why::Ended));

const UNASKED: Outcome<'_> = Err(IndexError::Over(Why::Unasked));

const NO_REPLY: Outcome<'_> = Err(IndexError::Over(Why::NoReply));

const ENDINGS: [Session<'_>; 14] = [
    // a refusal ends the session with QUIT
    (
        &[HELLO, b"411 none\r\n"],
        (1, 9),
        Err(IndexError::Refused(411)),
        b"GROUP a.b\r\nQUIT\r\n",
    ),
    (
        &[HELLO, b"211 1 1 20000 a.b\r\n", b"500 what\r\n"],
        (1, 99_999),
        Err(IndexError::Refused(500)),
        b"GROUP a.b\r\nOVER 1-10000\r\nQUIT\r\n",
    ),
    // bytes behind a refusal do no harm
    (
        &[HELLO, b"411 none\r\n2"],
        (1, 9),
        Err(IndexError::Refused(411)),
        b"GROUP a.b\r\n",
    ),
    (
        &[HELLO, CHOSEN, b"500 what\r\n2"],
        (1, 9),
        Err(IndexError::Refused(500)),
        OVER,
    ),
    // bytes behind another reply end the link
    (
        &[HELLO, b"211 1 1 9 a.b\r\n2"],
        (1, 9),
        UNASKED,
        b"GROUP a.b\r\n",
    ),
    (
        &[HELLO, b"211 1 1 10001 a.b\r\n", b"224 x\r\n.\r\n2"],
        (1, 99_999),
        UNASKED,
        b"GROUP a.b\r\nOVER 1-10000\r\n",
    ),
    (
        &[HELLO, b"211 1 1 10001 a.b\r\n", b"423 none\r\n2"],
        (1, 99_999),
        UNASKED,
        b"GROUP a.b\r\nOVER 1-10000\r\n",
    ),
    // a link that ends is told
    (CUT, (1, 9), ENDED, OVER),
    (&[HELLO], (1, 9), ENDED, b"GROUP a.b\r\n"),
    // replies that answer nothing end the link
    (
        &[HELLO, b"340 go\r\n"],
        (1, 9),
        Err(IndexError::Over(Why::Odd(340))),
        b"GROUP a.b\r\n",
    ),
    (
        &[HELLO, b"211 3 7 a.b\r\n"],
        (1, 9),
        NO_REPLY,
        b"GROUP a.b\r\n",
    ),
    (&[HELLO, b"21\r\n"], (1, 9), NO_REPLY, b"GROUP a.b\r\n"),
    (
        &[HELLO, CHOSEN, b"222 body\r\n"],
        (1, 9),
        Err(IndexError::Over(Why::Odd(222))),
        OVER,
    ),
    // nothing is said where no link serves
    (
        &[b"502 no\r\n"],
        (1, 9),
        Err(IndexError::Over(Why::Greeting(502))),
        b"",
    ),
];

#[test]
fn a_session_ends_without_an_index(rt: HostRuntime) {
    come(&rt, &ENDINGS);
}

const NO_FILE: &[&[u8]] = &[HELLO, b"211 0 1 0 a.b\r\n"];

// Links that are quiet so often before these pieces, and of which the call of this number fails, if it isn't 0. Then how many
// quiet receives end the link, what the index comes to, and all bytes that go out.
const FAILING: [(u32, &[&[u8]], u64, u32, Outcome<'_>, &[u8]); 5] = [
    // the third call sends GROUP, and the fifth OVER
    (0, CUT, 3, 2, ENDED, b""),
    (0, CUT, 5, 2, ENDED, b"GROUP a.b\r\n"),
    // no link is opened
    (0, &[], 1, 2, Err(IndexError::NoLink), b""),
    // a quiet link is over after its patience
    (3, NO_FILE, 0, 3, Err(IndexError::Over(Why::Quiet)), b""),
    (3, NO_FILE, 0, 4, Ok((0, 0, &[])), b"GROUP a.b\r\nQUIT\r\n"),
];

#[test]
fn a_link_that_fails_or_is_quiet_is_told(rt: HostRuntime) {
    for (quiet, pieces, failing, patience, wanted, bytes) in &FAILING {
        let links = links_of(rt.alloc(), *quiet, pieces, *failing).expect(&rt, "links");
        comes(&rt, links, *patience, (1, 9), wanted, bytes);
    }
}
