// The line of an end, read back. What a line says is read word by word; that it holds nothing else is seen by writing
// it again.
ghost use Rattle.std.specs.Prelude.{◌≡◌, IfSome, Some, None, []};
ghost use Rattle.run_ends.specs.Line.{line_of};
ghost use Rattle.run_ends.specs.Lined.{HasLine};
ghost use Rattle.run_ends.specs.Reading.{end_told, fault_told, lack_told, limit_told, line_told, place_told, reply_told};

use crate::reasons::{read_nzb_reason, read_reason, read_why};
use crate::words::{cut, read_code, read_long, read_short};
use crate::{End, Limit, ReplyFault, write_line};
use yenc_body::Fault;

/// Reads an end back from its line, with the line's `\n`, as `write_line` writes it. `None` for what is the line of no end.
#[tactic(auto, using(crate::proofs::ReadBack::line_back, crate::proofs::ReadBack::differs_never, crate::proofs::ReadBack::empty_told))]
pub fn read_line(line: &[u8]) -> Option<End>
    ensures sound { IfSome result (λ end. line.now ≡ line_of end) }
    ensures whole { (end : End) → HasLine end → line.now ≡ line_of end → result ≡ Some end }
    ensures empty { line.now ≡ [] → result ≡ None }
{
    let end = read_told(line)?;
    let mut again = [0; 160];
    let len = write_line(&end, &mut again);
    if line == &again[..len] {
        Some(end)
    } else {
        None
    }
}

// What a line tells.
#[tactic(auto, unfolding(crate::specs::Reading::line_told))]
fn read_told(line: &[u8]) -> Option<End>
    ensures { result ≡ line_told line.now }
{
    let (word, rest) = cut(line);
    if word == b"usebin:".as_slice() {
        read_end(rest)
    } else {
        None
    }
}

// The end that the words behind the first one tell.
#[tactic(auto, unfolding(crate::specs::Reading::end_told))]
fn read_end(text: &[u8]) -> Option<End>
    ensures { result ≡ end_told text.now }
{
    let (word, rest) = cut(text);
    if word == b"words".as_slice() {
        Some(End::WordsRefused(read_long(rest)?))
    } else if word == b"input".as_slice() {
        Some(End::InputFault)
    } else if word == b"output".as_slice() {
        Some(End::OutputFault)
    } else if word == b"no".as_slice() {
        read_lack(rest)
    } else if word == b"short".as_slice() {
        Some(End::Short(read_long(rest)?))
    } else if word == b"limit".as_slice() {
        Some(End::Limit(read_limit(rest)?))
    } else if word == b"line".as_slice() {
        Some(End::NoBody(read_fault(rest)?))
    } else if word == b"reply".as_slice() {
        Some(End::NoReply(read_reply(rest)?))
    } else if word == b"place".as_slice() {
        read_place(rest)
    } else if word == b"login".as_slice() {
        Some(End::LoginBroken(read_long(rest)?))
    } else if word == b"refused".as_slice() {
        Some(End::Refused(read_code(rest)?))
    } else if word == b"link".as_slice() {
        Some(End::Over(read_why(cut(rest).1)?))
    } else {
        None
    }
}

// What was lacking.
#[tactic(auto, unfolding(crate::specs::Reading::lack_told))]
fn read_lack(text: &[u8]) -> Option<End>
    ensures { result ≡ lack_told text.now }
{
    let (word, _) = cut(text);
    if word == b"link".as_slice() {
        Some(End::NoLink)
    } else if word == b"memory".as_slice() {
        Some(End::NoMemory)
    } else {
        None
    }
}

// A limit that is passed.
#[tactic(auto, unfolding(crate::specs::Reading::limit_told))]
fn read_limit(text: &[u8]) -> Option<Limit>
    ensures { result ≡ limit_told text.now }
{
    let (word, rest) = cut(text);
    if word == b"file".as_slice() {
        Some(Limit::File)
    } else if word == b"segments".as_slice() {
        Some(Limit::Segments)
    } else if word == b"part".as_slice() {
        Some(Limit::Part(read_short(rest)?))
    } else if word == b"text".as_slice() {
        Some(Limit::Text)
    } else if word == b"files".as_slice() {
        Some(Limit::Files)
    } else if word == b"login".as_slice() {
        Some(Limit::Login)
    } else {
        None
    }
}

// The place of a fault of lines, and what is wrong there.
#[tactic(auto, unfolding(crate::specs::Reading::fault_told))]
fn read_fault(text: &[u8]) -> Option<Fault>
    ensures { result ≡ fault_told text.now }
{
    let line = read_long(text)?;
    let (_, behind) = cut(text);
    let (_, rest) = cut(behind);
    let column = read_long(rest)?;
    let reason = read_reason(cut(rest).1)?;
    Some(Fault {
        line,
        column,
        reason,
    })
}

// What is wrong with a reply.
#[tactic(auto, unfolding(crate::specs::Reading::reply_told))]
fn read_reply(text: &[u8]) -> Option<ReplyFault>
    ensures { result ≡ reply_told text.now }
{
    let (word, rest) = cut(text);
    if word == b"NoReply".as_slice() {
        Some(ReplyFault::NoReply)
    } else if word == b"Code".as_slice() {
        Some(ReplyFault::Code(read_code(rest)?))
    } else if word == b"Unfinished".as_slice() {
        Some(ReplyFault::Unfinished)
    } else if word == b"Rest".as_slice() {
        Some(ReplyFault::Rest)
    } else {
        None
    }
}

// A place in a text, and why the text is refused there.
#[tactic(auto, unfolding(crate::specs::Reading::place_told))]
fn read_place(text: &[u8]) -> Option<End>
    ensures { result ≡ place_told text.now }
{
    let place = read_long(text)? as usize;
    let reason = read_nzb_reason(cut(text).1)?;
    Some(End::NoNzb { place, reason })
}
