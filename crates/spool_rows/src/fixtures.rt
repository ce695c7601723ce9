// Servers with four articles, and what their links say.
ghost use Rattle.std.specs.Prelude.{◌≡◌, Some, true, slice_get};
ghost use Rattle.news_spool.specs.Spool.{spool_live};

use io_traits::{Got, Links};
use lists::{Bytes, List, Memory};
use news_spool::{Spool, SpoolLink, SpoolPlan, SpoolServer};
use row_fixtures::{bytes_of, numbers_of};
use std::alloc::Global;
use std::process::Abort;

/// A server that lacks the second article.
pub(crate) const ONE: &[u8] = b"one:119";

/// A server that lacks the first article and the fourth one.
pub(crate) const TWO: &[u8] = b"two:119";

/// A server that lacks the third article, with the login `me` and `secret`.
pub(crate) const LOGIN: &[u8] = b"login:119";

/// The body of the first article, as it is sent and as it is given.
pub(crate) const FIRST_BODY: &[u8] = b"hello\r\n..dot\r\n\r\n....\r\n..\r\na.b\r\n.\r\n";

/// What is answered to BODY of it.
pub(crate) const FIRST: &[u8] = b"222 0 <a@x>\r\nhello\r\n..dot\r\n\r\n....\r\n..\r\na.b\r\n.\r\n";

const GREETING: &[u8] = b"200 ready\r\n";

// How many receives a case has at most.
const MOST: u32 = 400;

fn make_spool(alloc: Global, links: &[SpoolLink], pieces: &[u32]) -> Result<Spool, Memory> {
    let mut servers = List::new(alloc);
    servers.push(server(alloc, ONE, &[2], None)?)?;
    servers.push(server(alloc, TWO, &[4, 1], None)?)?;
    let login = (bytes_of(alloc, b"me")?, bytes_of(alloc, b"secret")?);
    servers.push(server(alloc, LOGIN, &[3], Some(login))?)?;
    let mut entries = List::new(alloc);
    for link in links {
        entries.push(*link)?;
    }
    let mut bounds = List::new(alloc);
    for piece in pieces {
        bounds.push(*piece)?;
    }
    let plan = SpoolPlan {
        servers,
        links: entries,
        pieces: bounds,
        date: bytes_of(alloc, b"now")?,
    };
    Spool::new(alloc, plan)
}

fn server(
    alloc: Global,
    address: &[u8],
    absent: &[u64],
    login: Option<(Bytes, Bytes)>,
) -> Result<SpoolServer, Memory> {
    Ok(SpoolServer {
        address: bytes_of(alloc, address)?,
        absent: numbers_of(alloc, absent)?,
        login,
    })
}

/// The servers, to which four articles were posted over link 0: `a@x` with lines that begin with dots, `b@x` with one line, `c@x`
/// with none, and `d@x` with one.
pub(crate) fn posted<R: Abort + AllocGlobal>(rt: &R, links: &[SpoolLink], pieces: &[u32]) -> Spool {
    let spool = make_spool(rt.alloc(), links, pieces).expect(rt, "a spool");
    let talk = post(rt, open(rt, spool, ONE), b"a@x", FIRST_BODY);
    let talk = post(rt, talk, b"b@x", b"b\r\n.\r\n");
    let talk = post(rt, talk, b"c@x", b".\r\n");
    let talk = post(rt, talk, b"d@x", b"d\r\n.\r\n");
    let Talk { spool, link: _ } = talk;
    assert!(rt; spool.articles() == 4);
    spool
}

fn post<R: Abort>(rt: &R, talk: Talk, id: &[u8], body: &[u8]) -> Talk {
    let talk = send(
        rt,
        talk,
        b"POST\r\nFrom: me\r\nNewsgroups: alt.test\r\nSubject: s\r\n",
    );
    let talk = send(rt, talk, b"Message-ID: <");
    let talk = send(rt, talk, id);
    let talk = send(rt, talk, b">\r\n\r\n");
    send(rt, talk, body)
}

/// A spool, and a link to it that goes on.
#[derive(Drop)]
pub(crate) struct Talk {
    spool: Spool,
    link: u32,
    ghost live: { slice_get (spool_live spool) link ≡ Some true },
}

/// Opens a link.
pub(crate) fn open<R: Abort>(rt: &R, mut spool: Spool, address: &[u8]) -> Talk {
    match spool.open(address) {
        Ok(link) => Talk { spool, link },
        Err(_) => rt.panic("the server is listed"),
    }
}

// Sends all of a text, and the link goes on.
fn send<R: Abort>(rt: &R, talk: Talk, text: &[u8]) -> Talk {
    let Talk { mut spool, link } = talk;
    if text.is_empty() {
        return Talk { spool, link };
    }
    match spool.send(link, text) {
        Ok(n) => {
            assert!(rt; n == text.len());
            Talk { spool, link }
        }
        Err(_) => rt.panic("the link goes on"),
    }
}

// What a receive leaves.
#[derive(Drop)]
enum Step {
    // It gave bytes, and the link goes on.
    Heard(Talk),
    // It was quiet.
    Quiet(Spool),
    // It found the link's end.
    Ended(Spool),
}

// One receive of so many bytes at most.
fn receive<R: Abort>(rt: &R, talk: Talk, room: usize, heard: &mut Bytes) -> Step {
    let mut buf = [0; 64];
    let Talk { mut spool, link } = talk;
    match spool.receive(link, &mut buf[..room.min(63) + 1]) {
        Got::Bytes(n) => {
            heard.extend(&buf[..n]).expect(rt, "bytes");
            Step::Heard(Talk { spool, link })
        }
        Got::Quiet => Step::Quiet(spool),
        Got::Closed => Step::Ended(spool),
        Got::Failed => rt.panic("the link goes on"),
    }
}

// Receives while bytes come.
fn receive_all<R: Abort>(rt: &R, talk: Talk, room: usize, heard: &mut Bytes) -> Step {
    let mut step = Step::Heard(talk);
    for _ in 0..MOST {
        step = match step {
            Step::Heard(talk) => receive(rt, talk, room, heard),
            other => other,
        };
    }
    step
}

/// Asserts that a new link to an address says the greeting and exactly this after a text was sent, and then is quiet or ends, as
/// it is told.
pub(crate) fn says<R: Abort + AllocGlobal>(
    rt: &R,
    spool: Spool,
    address: &[u8],
    text: &[u8],
    wanted: &[u8],
    ends: bool,
) -> Spool {
    let talk = send(rt, open(rt, spool, address), text);
    let mut heard = Bytes::new(rt.alloc());
    match receive_all(rt, talk, 63, &mut heard) {
        Step::Heard(_) => rt.panic("it is quiet in the end"),
        Step::Quiet(spool) => {
            assert!(rt; !ends && is_said(heard.as_slice(), wanted));
            spool
        }
        Step::Ended(spool) => {
            assert!(rt; ends && is_said(heard.as_slice(), wanted));
            spool
        }
    }
}

/// Asserts that a new link to the first server says so many bytes of the greeting and of an answer after a text was sent, and
/// then is quiet or ends, as it is told.
pub(crate) fn cut<R: Abort + AllocGlobal>(
    rt: &R,
    spool: Spool,
    text: &[u8],
    answer: &[u8],
    place: u64,
    ends: bool,
) -> Spool {
    let mut whole = bytes_of(rt.alloc(), GREETING).expect(rt, "bytes");
    whole.extend(answer).expect(rt, "bytes");
    assert!(rt; place <= whole.len() as u64);
    let talk = send(rt, open(rt, spool, ONE), text);
    let mut heard = Bytes::new(rt.alloc());
    match receive_all(rt, talk, 63, &mut heard) {
        Step::Heard(_) => rt.panic("it is quiet in the end"),
        Step::Quiet(spool) => {
            assert!(rt; !ends && is_front(heard.as_slice(), place, whole.as_slice()));
            spool
        }
        Step::Ended(spool) => {
            assert!(rt; ends && is_front(heard.as_slice(), place, whole.as_slice()));
            spool
        }
    }
}

// Whether these are the first bytes of all, so many.
fn is_front(heard: &[u8], len: u64, whole: &[u8]) -> bool {
    heard.len() as u64 == len && whole.starts_with(heard)
}

/// Asserts what two new links say that are open at once, one to each server without a login: each is sent a text, and they are
/// heard by turns.
pub(crate) fn say_by_turns<R: Abort + AllocGlobal>(
    rt: &R,
    spool: Spool,
    one: (&[u8], &[u8]),
    two: (&[u8], &[u8]),
) -> Spool {
    let mut pair = send_both(rt, open_second(rt, open(rt, spool, ONE)), one.0, two.0);
    let mut heard = Bytes::new(rt.alloc());
    let mut other_heard = Bytes::new(rt.alloc());
    for _ in 0..100u32 {
        pair = receive_both(rt, pair, &mut heard, &mut other_heard);
    }
    assert!(rt; is_said(heard.as_slice(), one.1) && is_said(other_heard.as_slice(), two.1));
    let Pair {
        spool,
        link: _,
        other: _,
    } = pair;
    spool
}

// A spool, and two links to it that go on.
#[derive(Drop)]
struct Pair {
    spool: Spool,
    link: u32,
    other: u32,
    ghost live: { slice_get (spool_live spool) link ≡ Some true },
    ghost other_live: { slice_get (spool_live spool) other ≡ Some true },
}

// Opens a second link, to the second server.
fn open_second<R: Abort>(rt: &R, talk: Talk) -> Pair {
    let Talk { mut spool, link } = talk;
    match spool.open(TWO) {
        Ok(other) => Pair { spool, link, other },
        Err(_) => rt.panic("the server is listed"),
    }
}

fn send_both<R: Abort>(rt: &R, pair: Pair, text: &[u8], other_text: &[u8]) -> Pair {
    let Pair {
        mut spool,
        link,
        other,
    } = pair;
    assert!(rt; !text.is_empty() && !other_text.is_empty());
    if spool.send(link, text).is_err() {
        rt.panic("the link goes on");
    }
    if spool.send(other, other_text).is_err() {
        rt.panic("the link goes on");
    }
    Pair { spool, link, other }
}

// One receive on each.
fn receive_both<R: Abort>(rt: &R, pair: Pair, heard: &mut Bytes, other_heard: &mut Bytes) -> Pair {
    let Pair {
        mut spool,
        link,
        other,
    } = pair;
    let mut buf = [0; 16];
    match spool.receive(link, &mut buf) {
        Got::Bytes(n) => heard.extend(&buf[..n]).expect(rt, "bytes"),
        Got::Quiet => {}
        Got::Closed | Got::Failed => rt.panic("the link goes on"),
    }
    match spool.receive(other, &mut buf) {
        Got::Bytes(n) => other_heard.extend(&buf[..n]).expect(rt, "bytes"),
        Got::Quiet => {}
        Got::Closed | Got::Failed => rt.panic("the link goes on"),
    }
    Pair { spool, link, other }
}

// Whether the greeting was said, and then this.
fn is_said(heard: &[u8], wanted: &[u8]) -> bool {
    match heard.strip_prefix(GREETING) {
        Some(replies) => replies == wanted,
        None => false,
    }
}
