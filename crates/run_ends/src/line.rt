// The line of an end on standard error.
ghost use Rattle.std.specs.Prelude.{◌≡◌, ◌≤◌, ◌+◌, ◌++◌, ◌∷◌, [], length, take, codes};
ghost use Rattle.run_ends.specs.Line.{fault_text, limit_text, line_of, over_text, place_text, reply_text};

use crate::printed::{put_code, put_nzb_reason, put_reason, put_valued, put_why};
use crate::{End, Limit, ReplyFault};
use limits::{MOST_FILE_BYTES, MOST_FILES, MOST_LOGIN_BYTES, MOST_SEGMENTS, MOST_TEXT_BYTES};
use nntp_lines::Why;
use numbers::put;
use nzb_index::NzbReason;
use yenc_body::Fault;

/// A buffer for one line.
pub type LineBuffer = [u8; 160];

/// Writes the line of an end to the front of a buffer, and answers its length. `Done` and `NotAllPosted` have none.
pub fn write_line(end: &End, out: &mut LineBuffer) -> usize
    ensures text { take result out.new ≡ line_of end.now }
    ensures room { result ≤ 160 }
{
    let at = put(out, 0, b"usebin: ");
    match *end {
        End::Done | End::NotAllPosted => 0,
        End::WordsRefused(number) => close(put_valued(out, at, b"words", number), out),
        End::InputFault => close(put(out, at, b"input fault"), out),
        End::OutputFault => close(put(out, at, b"output fault"), out),
        End::NoLink => close(put(out, at, b"no link"), out),
        End::Short(place) => close(put_valued(out, at, b"short", place), out),
        End::Limit(limit) => close(put_limit(out, at, limit), out),
        End::NoBody(fault) => close(put_fault(out, at, fault), out),
        End::NoReply(fault) => close(put_reply(out, at, fault), out),
        End::NoNzb { place, reason } => close(put_place(out, at, place, reason), out),
        End::LoginBroken(number) => close(put_valued(out, at, b"login", number), out),
        End::NoMemory => close(put(out, at, b"no memory"), out),
        End::Refused(code) => close(put_code(out, at, b"refused", code), out),
        End::Over(why) => close(put_over(out, at, why), out),
    }
}

// Puts the end of a line.
fn close(at: usize, out: &mut LineBuffer) -> usize
    requires { at + 1 ≤ 160 }
    ensures text { take result out.new ≡ take at out.old ++ 10 ∷ [] }
    ensures end { result ≡ at + 1 }
{
    put(out, at, b"\n")
}

// Puts a limit, with the most that it allows, or how many parts there are.
fn put_limit(out: &mut LineBuffer, at: usize, limit: Limit) -> usize
    requires { at + 64 ≤ 160 }
    ensures text { take result out.new ≡ take at out.old ++ limit_text limit }
    ensures end { result ≤ at + 64 }
{
    match limit {
        Limit::File => put_valued(out, at, b"limit file", MOST_FILE_BYTES),
        Limit::Segments => put_valued(out, at, b"limit segments", MOST_SEGMENTS as u64),
        Limit::Part(total) => put_valued(out, at, b"limit part", u64::from(total)),
        Limit::Text => put_valued(out, at, b"limit text", MOST_TEXT_BYTES as u64),
        Limit::Files => put_valued(out, at, b"limit files", MOST_FILES as u64),
        Limit::Login => put_valued(out, at, b"limit login", MOST_LOGIN_BYTES as u64),
    }
}

// Puts the place of a fault of lines, and what is wrong there.
fn put_fault(out: &mut LineBuffer, at: usize, fault: Fault) -> usize
    requires { at + 130 ≤ 160 }
    ensures text { take result out.new ≡ take at out.old ++ fault_text fault }
    ensures end { result ≤ at + 130 }
{
    let at = put_valued(out, at, b"line", fault.line);
    let at = put(out, at, b" ");
    let at = put_valued(out, at, b"column", fault.column);
    let at = put(out, at, b" ");
    put_reason(out, at, fault.reason)
}

// Puts what is wrong with a reply.
fn put_reply(out: &mut LineBuffer, at: usize, fault: ReplyFault) -> usize
    requires { at + 64 ≤ 160 }
    ensures text { take result out.new ≡ take at out.old ++ reply_text fault }
    ensures end { result ≤ at + 64 }
{
    match fault {
        ReplyFault::NoReply => put(out, at, b"reply NoReply"),
        ReplyFault::Code(code) => put_code(out, at, b"reply Code", code),
        ReplyFault::Unfinished => put(out, at, b"reply Unfinished"),
        ReplyFault::Rest => put(out, at, b"reply Rest"),
    }
}

// Puts a place in a text, and why the text is refused there.
fn put_place(out: &mut LineBuffer, at: usize, place: usize, reason: NzbReason) -> usize
    requires { at + 100 ≤ 160 }
    ensures text { take result out.new ≡ take at out.old ++ place_text place reason }
    ensures end { result ≤ at + 100 }
{
    let at = put_valued(out, at, b"place", place as u64);
    let at = put(out, at, b" ");
    put_nzb_reason(out, at, reason)
}

// Puts why a link is over.
fn put_over(out: &mut LineBuffer, at: usize, why: Why) -> usize
    requires { at + 80 ≤ 160 }
    ensures text { take result out.new ≡ take at out.old ++ over_text why }
    ensures end { result ≤ at + 80 }
{
    let at = put(out, at, b"link over ");
    put_why(out, at, why)
}
