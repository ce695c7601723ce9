// What the tests hand in, and the talk with a spool.
ghost use Rattle.std.specs.Prelude.{◌≡◌, Some, true, false, slice_get, IfOk, OnOk};
ghost use Rattle.news_spool.specs.Spool.{spool_live};

use io_traits::{Got, Links};
use lists::{Bytes, Lines, List, Memory};
use news_spool::{Spool, SpoolError, SpoolLink, SpoolPlan, SpoolServer};
use nntp_lines::{GroupName, MessageId};
use row_fixtures::bytes_of;
use std::alloc::Global;
use std::process::Abort;

/// A spool of the server `open:119`, which asks for no login, and of `login:119`, with the login `me` and `secret`. The date
/// of its articles is `now`.
pub(crate) fn spool_of<R: Abort + AllocGlobal>(
    rt: &R,
    links: &[SpoolLink],
    pieces: &[u32],
) -> Spool {
    make_spool(rt.alloc(), links, pieces).expect(rt, "a spool")
}

fn make_spool(alloc: Global, links: &[SpoolLink], pieces: &[u32]) -> Result<Spool, Memory> {
    let mut servers = List::new(alloc);
    servers.push(SpoolServer {
        address: bytes_of(alloc, b"open:119")?,
        absent: List::new(alloc),
        login: None,
    })?;
    servers.push(SpoolServer {
        address: bytes_of(alloc, b"login:119")?,
        absent: List::new(alloc),
        login: Some((bytes_of(alloc, b"me")?, bytes_of(alloc, b"secret")?)),
    })?;
    let mut entries = List::new(alloc);
    for link in links {
        entries.push(*link)?;
    }
    let mut bounds = List::new(alloc);
    for piece in pieces {
        bounds.push(*piece)?;
    }
    let plan = SpoolPlan {
        servers,
        links: entries,
        pieces: bounds,
        date: bytes_of(alloc, b"now")?,
    };
    Spool::new(alloc, plan)
}

/// A spool, and a link to it that goes on.
#[derive(Drop)]
pub(crate) struct Talk {
    spool: Spool,
    link: u32,
    ghost live: { slice_get (spool_live spool) link ≡ Some true },
}

impl Talk {
    /// The spool, whatever becomes of the link.
    pub(crate) fn left(self) -> Spool {
        let Talk { spool, link: _ } = self;
        spool
    }
}

/// Opens a link, which is the one of this number.
pub(crate) fn open<R: Abort>(rt: &R, mut spool: Spool, address: &[u8], number: u32) -> Talk {
    match spool.open(address) {
        Ok(link) => {
            assert!(rt; link == number);
            Talk { spool, link }
        }
        Err(_) => rt.panic("the server is listed"),
    }
}

/// Sends all of a text, and the link goes on.
pub(crate) fn send<R: Abort>(rt: &R, talk: Talk, text: &[u8]) -> Talk {
    let Talk { mut spool, link } = talk;
    if text.is_empty() {
        return Talk { spool, link };
    }
    match spool.send(link, text) {
        Ok(n) => {
            assert!(rt; n == text.len());
            Talk { spool, link }
        }
        Err(_) => rt.panic("the link goes on"),
    }
}

/// Asserts that one receive of so many bytes at most gives these, and that the link goes on. No byte is one that is quiet.
pub(crate) fn gets<R: Abort>(rt: &R, talk: Talk, room: usize, wanted: &[u8]) -> Talk {
    let mut buf = [0; 512];
    let Talk { mut spool, link } = talk;
    match spool.receive(link, &mut buf[..room.min(511) + 1]) {
        Got::Bytes(n) => {
            assert!(rt; &buf[..n] == wanted);
            Talk { spool, link }
        }
        Got::Quiet => {
            assert!(rt; wanted.is_empty());
            Talk { spool, link }
        }
        Got::Closed | Got::Failed => rt.panic("the link goes on"),
    }
}

/// Sends texts and asserts what the link says after each: the texts and the replies stand in turn, with bars between them. Behind
/// each reply the link is quiet and goes on.
pub(crate) fn talks<R: Abort>(rt: &R, mut talk: Talk, script: &str) -> Talk {
    let mut is_reply = false;
    for text in script.split('|') {
        talk = if is_reply {
            hears(rt, talk, text)
        } else {
            send(rt, talk, text.as_bytes())
        };
        is_reply = !is_reply;
    }
    talk
}

fn hears<R: Abort>(rt: &R, talk: Talk, wanted: &str) -> Talk {
    let talk = gets(rt, talk, 511, wanted.as_bytes());
    gets(rt, talk, 511, b"")
}

/// Asserts that the link gives exactly this and then its end, and gives the spool back.
pub(crate) fn ends<R: Abort>(rt: &R, talk: Talk, wanted: &[u8]) -> Spool {
    let mut buf = [0; 512];
    let Talk { mut spool, link } = gets(rt, talk, 511, wanted);
    assert!(rt; spool.receive(link, &mut buf) == Got::Closed);
    spool
}

/// Asserts that a spool has so many articles, and the link goes on.
pub(crate) fn holding<R: Abort>(rt: &R, talk: Talk, articles: usize) -> Talk {
    assert!(rt; talk.spool.articles() == articles);
    talk
}

/// Asserts that a spool has so many articles.
pub(crate) fn holds<R: Abort>(rt: &R, spool: Spool, articles: usize) {
    assert!(rt; spool.articles() == articles);
}

/// Adds an article of no line to `alt.test`, which is answered so, and the link goes on.
pub(crate) fn adds<R: Abort + AllocGlobal>(
    rt: &R,
    talk: Talk,
    id: &[u8],
    wanted: Result<(), SpoolError>,
) -> Talk {
    let Talk { mut spool, link } = talk;
    let id = MessageId::new(id).expect(rt, "an id");
    let group = GroupName::new(b"alt.test").expect(rt, "a group");
    let added = spool.add(id, group, Lines::new(rt.alloc()), Lines::new(rt.alloc()));
    assert!(rt; added == wanted);
    Talk { spool, link }
}

// The posting of three articles: the first in both newsgroups, the second in one, and the third with TABs and control bytes in its
// head.
const POSTS: &str =
    "|200 ready\r\n|POST\r\n|340 send\r\n|From: me@host\r\nNewsgroups: alt.test,alt.bin\r\nSubject: one\r\nMessage-ID: <one@host>\r\n\r\nhello\r\n..dot\r\n.\r\n|240 posted\r\n|POST\r\n|340 send\r\n|From: me@host\r\nNewsgroups: alt.bin\r\nSubject: two\r\nMessage-ID: <two@host>\r\n\r\n.\r\n|240 posted\r\n|POST\r\n|340 send\r\n|Subject: a\tb\x01\x1fc \r\nFrom: you\t<you@host>\r\nNewsgroups: alt.test\r\nMessage-ID: <three@host>\r\n\r\nx\r\n\r\ny\tz\r\n.\r\n|240 posted\r\n";

/// A spool to which three articles were posted, the first to both newsgroups.
pub(crate) fn posted<R: Abort + AllocGlobal>(rt: &R) -> Spool {
    let talk = open(rt, spool_of(rt, &[], &[]), b"open:119", 0);
    talks(rt, talk, POSTS).left()
}
