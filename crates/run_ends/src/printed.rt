// The words and values of lines, each put behind the others in one buffer.
ghost use Rattle.std.specs.Prelude.{◌≡◌, ◌≤◌, ◌+◌, ◌++◌, length, take, codes};
ghost use Rattle.std.specs.Fmt.{decimal};
ghost use Rattle.crc_field.specs.Hex.{hex_digits};
ghost use Rattle.yenc_lines.specs.Keywords.{key_name};
ghost use Rattle.run_ends.specs.Printed.{key_fault_text, nzb_reason_text, reason_text, why_text, with_value, with_values};

use crate::LineBuffer;
use crc_field::write_hex;
use nntp_lines::Why;
use numbers::{put, put_number};
use nzb_index::NzbReason;
use yenc_body::Reason;
use yenc_lines::{Key, KeyFault};

// Puts a reason's name and its values.
pub(crate) fn put_reason(out: &mut LineBuffer, at: usize, reason: Reason) -> usize
    requires { at + 64 ≤ 160 }
    ensures text { take result out.new ≡ take at out.old ++ reason_text reason }
    ensures end { result ≤ at + 64 }
{
    match reason {
        Reason::NoBegin => put(out, at, b"NoBegin"),
        Reason::BadBegin(fault) => put_keyword(out, at, b"BadBegin", fault),
        Reason::PartRange => put(out, at, b"PartRange"),
        Reason::NoPart => put(out, at, b"NoPart"),
        Reason::BadPart(fault) => put_keyword(out, at, b"BadPart", fault),
        Reason::Stray => put(out, at, b"Stray"),
        Reason::LoneEscape => put(out, at, b"LoneEscape"),
        Reason::TooMany => put(out, at, b"TooMany"),
        Reason::Keyword => put(out, at, b"Keyword"),
        Reason::KeywordTooLong => put(out, at, b"KeywordTooLong"),
        Reason::NoEnd => put(out, at, b"NoEnd"),
        Reason::BadEnd(fault) => put_keyword(out, at, b"BadEnd", fault),
        Reason::EndPart(there, here) => {
            put_numbers(out, at, b"EndPart", u64::from(there), u64::from(here))
        }
        Reason::EndSize(there, here) => put_numbers(out, at, b"EndSize", there, here),
        Reason::TooFew(count, wanted) => put_numbers(out, at, b"TooFew", count, wanted),
        Reason::CrcDiffers(said, crc) => put_crcs(out, at, said, crc),
    }
}

// Puts the name of a reason.
pub(crate) fn put_nzb_reason(out: &mut LineBuffer, at: usize, reason: NzbReason) -> usize
    requires { at + 64 ≤ 160 }
    ensures text { take result out.new ≡ take at out.old ++ nzb_reason_text reason }
    ensures end { result ≤ at + 64 }
{
    match reason {
        NzbReason::Ended => put(out, at, b"Ended"),
        NzbReason::Unexpected => put(out, at, b"Unexpected"),
        NzbReason::BadReference => put(out, at, b"BadReference"),
        NzbReason::WrongTag => put(out, at, b"WrongTag"),
        NzbReason::DoubleAttribute => put(out, at, b"DoubleAttribute"),
        NzbReason::NoNumber => put(out, at, b"NoNumber"),
        NzbReason::BadNumber => put(out, at, b"BadNumber"),
        NzbReason::BadId => put(out, at, b"BadId"),
        NzbReason::Subset => put(out, at, b"Subset"),
    }
}

// Puts a reason's name and what is wrong with a keyword line.
fn put_keyword(out: &mut LineBuffer, at: usize, name: &[u8], fault: KeyFault) -> usize
    requires { at + length name.now + 24 ≤ 160 }
    ensures text { take result out.new ≡ take at out.old ++ with_value name.now (key_fault_text fault) }
    ensures end { result ≤ at + length name.now + 24 }
{
    let at = put(out, at, name);
    let at = put(out, at, b" ");
    match fault {
        KeyFault::NotIt => put(out, at, b"NotIt"),
        KeyFault::NoItem(key) => put_key(out, at, b"NoItem ", key),
        KeyFault::BadNumber(key) => put_key(out, at, b"BadNumber ", key),
        KeyFault::Repeated(key) => put_key(out, at, b"Repeated ", key),
        KeyFault::BadName => put(out, at, b"BadName"),
    }
}

// Puts a text and a key.
fn put_key(out: &mut LineBuffer, at: usize, text: &[u8], key: Key) -> usize
    requires { at + length text.now + 6 ≤ 160 }
    ensures text { take result out.new ≡ take at out.old ++ (text.now ++ key_name key) }
    ensures end { result ≤ at + length text.now + 6 }
{
    let at = put(out, at, text);
    put(out, at, key.as_bytes())
}

// Puts a reason's name and two numbers.
fn put_numbers(out: &mut LineBuffer, at: usize, name: &[u8], first: u64, second: u64) -> usize
    requires { at + length name.now + 42 ≤ 160 }
    ensures text { take result out.new ≡ take at out.old ++ with_values name.now (decimal first) (decimal second) }
    ensures end { result ≤ at + length name.now + 42 }
{
    let at = put(out, at, name);
    let at = put(out, at, b" ");
    let at = put_number(out, at, first);
    let at = put(out, at, b" ");
    put_number(out, at, second)
}

// Puts the CRCs that differ.
fn put_crcs(out: &mut LineBuffer, at: usize, said: u32, crc: u32) -> usize
    requires { at + 28 ≤ 160 }
    ensures text { take result out.new ≡ take at out.old ++ with_values (codes "CrcDiffers") (hex_digits 8 said) (hex_digits 8 crc) }
    ensures end { result ≡ at + 28 }
{
    let at = put(out, at, b"CrcDiffers ");
    let at = put(out, at, &write_hex(said));
    let at = put(out, at, b" ");
    put(out, at, &write_hex(crc))
}

// Puts why a link is over.
pub(crate) fn put_why(out: &mut LineBuffer, at: usize, why: Why) -> usize
    requires { at + 64 ≤ 160 }
    ensures text { take result out.new ≡ take at out.old ++ why_text why }
    ensures end { result ≤ at + 64 }
{
    match why {
        Why::Ended => put(out, at, b"ended"),
        Why::Quiet => put(out, at, b"quiet"),
        Why::Greeting(code) => put_code(out, at, b"greeting", code),
        Why::Login(code) => put_code(out, at, b"login", code),
        Why::Odd(code) => put_code(out, at, b"odd", code),
        Why::NoReply => put(out, at, b"noreply"),
        Why::TooLong => put(out, at, b"toolong"),
        Why::Unasked => put(out, at, b"unasked"),
    }
}

/// Puts a name and a code behind it, with a space between, and answers where they end.
pub fn put_code(out: &mut LineBuffer, at: usize, name: &[u8], code: u16) -> usize
    requires room { at + 64 ≤ 160 }
    requires name { length name.now ≤ 16 }
    ensures text { take result out.new ≡ take at out.old ++ with_value name.now (decimal code) }
    ensures end { result ≤ at + 64 }
{
    let at = put(out, at, name);
    let at = put(out, at, b" ");
    put_number(out, at, u64::from(code))
}

// Puts a name and a number behind it, with a space between.
pub(crate) fn put_valued(out: &mut LineBuffer, at: usize, name: &[u8], value: u64) -> usize
    requires { at + length name.now + 21 ≤ 160 }
    ensures text { take result out.new ≡ take at out.old ++ with_value name.now (decimal value) }
    ensures end { result ≤ at + length name.now + 21 }
{
    let at = put(out, at, name);
    let at = put(out, at, b" ");
    put_number(out, at, value)
}
