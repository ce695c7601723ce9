// What the tests of `post` hand in, and what they await.
ghost use Rattle.std.specs.Prelude.{◌≤◌, All, IfOk};

use crate::fixtures::{Talk, Told, files_of, happened, run_linked, words_of};
use io_traits::{Input, Links};
use lists::{Bytes, List, Memory};
use news_spool::{Spool, SpoolPlan, SpoolServer};
use row_fixtures::bytes_of;
use std::alloc::Global;
use std::process::Abort;

/// The address of the server.
pub(crate) const SERVER: &str = "127.0.0.1:1190";

/// The file `d`.
pub(crate) const ONCE: (&str, &[u8]) = ("d", b"123456789");

/// The file `t`.
pub(crate) const THRICE: (&str, &[u8]) = ("t", b"123456789123456789123456789");

/// What a spool says where it takes an article.
pub(crate) const SPOOL_TAKES: [&[u8]; 3] = [b"200 ready\r\n", b"340 send\r\n", b"240 posted\r\n"];

/// What a server says that takes an article.
pub(crate) const TAKEN: [&[u8]; 3] = [b"200 hi\r\n", b"340 go\r\n", b"240 ok\r\n"];

/// What a server says that refuses an article.
pub(crate) const REFUSED: [&[u8]; 3] = [b"200 hi\r\n", b"340 go\r\n", b"441 no\r\n"];

/// The article of `d`, as it is sent.
pub(crate) const D_BLOCK: &[u8] = b"From: me@example.org\r\nNewsgroups: alt.binaries.test\r\n\
Subject: \"d\" yEnc (1/1)\r\nMessage-ID: <tok.1of1@example.org>\r\n\r\n\
=ybegin line=128 size=9 name=d\r\n[\\]^_`abc\r\n=yend size=9 crc32=cbf43926\r\n.\r\n";

/// The index of `d`.
pub(crate) const D_INDEX: &[u8] = b"<?xml version=\"1.0\" encoding=\"UTF-8\"?>\n\
<!DOCTYPE nzb PUBLIC \"-//newzBin//DTD NZB 1.1//EN\" \"http://www.newzbin.com/DTD/nzb/nzb-1.1.dtd\">\n\
<nzb xmlns=\"http://www.newzbin.com/DTD/2003/nzb\">\n\
<file poster=\"me@example.org\" date=\"1000000000\" subject=\"&quot;d&quot; yEnc (1/1)\">\n\
<groups>\n<group>alt.binaries.test</group>\n</groups>\n<segments>\n\
<segment bytes=\"188\" number=\"1\">tok.1of1@example.org</segment>\n\
</segments>\n</file>\n</nzb>\n";

/// A spool of the one server, with this login or without.
pub(crate) fn spool_of<R: Abort + AllocGlobal>(rt: &R, login: Option<(&[u8], &[u8])>) -> Spool {
    spool_with(rt.alloc(), login).expect(rt, "a spool")
}

fn spool_with(alloc: Global, login: Option<(&[u8], &[u8])>) -> Result<Spool, Memory> {
    let login = match login {
        Some((user, pass)) => Some((bytes_of(alloc, user)?, bytes_of(alloc, pass)?)),
        None => None,
    };
    let mut servers = List::new(alloc);
    servers.push(SpoolServer {
        address: bytes_of(alloc, SERVER.as_bytes())?,
        absent: List::new(alloc),
        login,
    })?;
    let plan = SpoolPlan {
        servers,
        links: List::new(alloc),
        pieces: List::new(alloc),
        date: articles_date(alloc)?,
    };
    Spool::new(alloc, plan)
}

// The date that the server gives its articles.
fn articles_date(alloc: Global) -> Result<Bytes, Memory>
    ensures { IfOk result (λ date. All (λ byte. 32 ≤ byte) date) }
{
    let date: &[u8] = b"Thu, 01 Jan 1970 02:00:10 +0200 (EET)";
    if date.iter().any(|byte| *byte < 32) {
        return Err(Memory);
    }
    bytes_of(alloc, date)
}

/// The words that post a file, and these behind them.
pub(crate) fn post_words<R: Abort + AllocGlobal>(rt: &R, path: &str, more: &[&str]) -> Vec<String> {
    let required = [
        "post",
        "--input",
        path,
        "--server",
        SERVER,
        "--from",
        "me@example.org",
        "--group",
        "alt.binaries.test",
        "--token",
        "tok",
        "--domain",
        "example.org",
    ];
    words_of(rt, &required, more)
}

/// Posts a file of an input, with these words behind the required ones.
pub(crate) fn post_from<I: Input + Drop, L: Links, R: Abort + AllocGlobal>(
    rt: &R,
    path: &str,
    more: &[&str],
    input: I,
    links: L,
) -> Talk<L> {
    let words = post_words(rt, path, more);
    run_linked(rt, &words, input, links, &[], &[])
}

/// Posts one file, with these words behind the required ones.
pub(crate) fn post<L: Links, R: Abort + AllocGlobal>(
    rt: &R,
    file: (&str, &[u8]),
    more: &[&str],
    links: L,
) -> Talk<L> {
    post_from(rt, file.0, more, files_of(rt, &[file], &[]), links)
}

/// Asserts that one article was posted in a session with these replies, which are the greeting, that to `POST` and that to
/// the article, and that `QUIT` was said behind it.
pub(crate) fn session<'x, L: Told + Drop, R: Abort>(
    rt: &R,
    links: L,
    replies: [&'x [u8]; 3],
    block: &'x [u8],
) {
    let [greeting, go_on, answer] = replies;
    let wanted: [(u8, &[u8]); 7] = [
        (b'O', b"127.0.0.1:1190"),
        (b'H', greeting),
        (b'S', b"POST\r\n"),
        (b'H', go_on),
        (b'S', block),
        (b'H', answer),
        (b'S', b"QUIT\r\n"),
    ];
    happened(rt, links, &wanted);
}
