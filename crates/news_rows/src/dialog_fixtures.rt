// A dialog of one article over links in memory, and what is asserted of it.
ghost use Rattle.std.specs.Prelude.{◌≡◌, ◌<◌, Some, true, length, slice_get, OnOk};
ghost use Rattle.io_memory.specs.ScriptLinks.{links_live};
ghost use Rattle.link_dialog.specs.Talk.{HasNoBlock, link_of_dialog};

use io_memory::ScriptLinks;
use link_dialog::{Answer, Awaited, Cut, Dialog, NotOpen};
use lists::Memory;
use nntp_lines::{Login, LoginWord, Why};
use row_fixtures::{are_kinds, bytes_sent, quiet_links_of, taking_links_of};
use std::alloc::Global;
use std::process::Abort;

/// Links of which the first gives these pieces, with bars between them, and then is quiet. The call of this number, from 1,
/// fails, and the sends take at most so many bytes each.
pub(crate) fn links_of<R: Abort + AllocGlobal>(
    rt: &R,
    pieces: &str,
    failing: u64,
    takes: &[usize],
) -> ScriptLinks {
    cut_links_of(rt.alloc(), pieces, failing, takes).expect(rt, "links")
}

fn cut_links_of(
    alloc: Global,
    text: &str,
    failing: u64,
    takes: &[usize],
) -> Result<ScriptLinks, Memory> {
    let mut pieces = Vec::new(alloc);
    for piece in text.split('|') {
        pieces.push(piece.as_bytes())?;
    }
    taking_links_of(alloc, pieces.as_slice(), &[failing], takes)
}

// The login of the user bob.
fn login_of<R: Abort>(rt: &R) -> Login {
    Login {
        user: LoginWord::new(b"bob").expect(rt, "a name"),
        pass: LoginWord::new(b"secret").expect(rt, "a password"),
    }
}

/// Why a dialog of one article stopped.
#[derive(Clone, Copy, Debug, PartialEq, Eq)]
pub(crate) enum Stop {
    NotOpen(NotOpen),
    Cut(usize),
    Unasked(u16),
    Over(Why),
}

/// Opens a link, with the login of bob or with none, posts one article and quits, with a patience of three, and asserts what
/// that came to: the codes are those of the replies to `POST` and to the article.
pub(crate) fn posts<R: Abort>(
    rt: &R,
    mut links: ScriptLinks,
    logs_in: bool,
    wanted: Result<(u16, u16), Stop>,
) -> ScriptLinks {
    let login = login_of(rt);
    let login = if logs_in { Some(&login) } else { None };
    assert!(rt; talk(&mut links, login, 3) == wanted, "{wanted:?}");
    links
}

/// The same without a login, where these pieces come.
pub(crate) fn came_to<R: Abort + AllocGlobal>(
    rt: &R,
    pieces: &[&[u8]],
    wanted: Result<(u16, u16), Stop>,
) {
    let links = quiet_links_of(rt.alloc(), pieces, &[]).expect(rt, "links");
    posts(rt, links, false, wanted);
}

// Opens a link, posts one article and quits. The codes are those of the replies to `POST` and to the article.
fn talk(links: &mut ScriptLinks, login: Option<&Login>, patience: u32) -> Result<(u16, u16), Stop>
    requires { 0 < patience }
{
    let dialog = match Dialog::open(links, b"host:119", login, patience) {
        Ok(dialog) => dialog,
        Err(why) => return Err(Stop::NotOpen(why)),
    };
    let first = ask(&dialog, links, b"POST\r\n", Awaited::Post)?;
    let second = ask(
        &dialog,
        links,
        b"From: a\r\n\r\nx\r\n.\r\n",
        Awaited::Article,
    )?;
    dialog.quit(links);
    Ok((first, second))
}

// Says a message and hears its reply.
fn ask(dialog: &Dialog, links: &mut ScriptLinks, message: &[u8], kind: Awaited) -> Result<u16, Stop>
    requires live { slice_get (links_live links.old) (link_of_dialog dialog.now) ≡ Some true }
    requires some { 0 < length message.now }
    requires plain { HasNoBlock kind }
    ensures { OnOk result (links_live links.new ≡ links_live links.old) }
{
    match dialog.say(links, message) {
        Ok(()) => {}
        Err(Cut { sent }) => return Err(Stop::Cut(sent)),
    }
    match dialog.hear(links, kind) {
        Answer::Code(code) => Ok(code),
        Answer::Unasked(code) => Err(Stop::Unasked(code)),
        Answer::Over(why) => Err(Stop::Over(why)),
    }
}

/// Asserts that these bytes went out, and that these are the kinds of all events, by their first letters.
pub(crate) fn happened<R: Abort + AllocGlobal>(
    rt: &R,
    links: ScriptLinks,
    sent: &str,
    kinds: &str,
) {
    let bytes = bytes_sent(rt.alloc(), links.events()).expect(rt, "bytes");
    assert!(rt; bytes.as_slice() == sent.as_bytes(), "{sent:?}");
    assert!(rt; are_kinds(links.events(), kinds.as_bytes()), "{kinds:?}");
}
