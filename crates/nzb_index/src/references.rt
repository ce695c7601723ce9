// Reading the references of an NZB text (XML 1.0, 4.1 and 4.6).
ghost use Rattle.std.specs.Prelude.{◌≡◌, ◌≢◌, ◌<◌, ◌≤◌, ◌+◌, ◌*◌, ◌⊎◌, length, drop, codes, find, nat_eq, IsTrue};
ghost use Rattle.std.specs.List.{list_any, starts_with};
ghost use Rattle.std.specs.Char.{digit_value, is_ascii_hexdigit};
ghost use Rattle.nzb_writer.specs.Markup.{is_character};
ghost use Rattle.nzb_index.specs.MarkupReading.{digits_at, named, reference_at, references};
ghost use Rattle.nzb_index.specs.Readers.{ReadsReference, capped, is_digit_of};

use crate::scan::starts_at;
use crate::{NzbError, NzbReason};

// The first number above that of every character.
const NO_CHARACTER: u32 = 0x11_0000;

/// The character that the reference at a place stands for, and the place behind it.
pub(crate) fn reference_end(text: &[u8], from: usize) -> Result<(u32, usize), NzbError>
    requires { from < length text.now }
    ensures { ReadsReference text.now from result (reference_at (drop from text.now) (drop (from + 1) text.now)) }
{
    let at = from + 1;
    if starts_at(text, at, b"#x") {
        return digits_end(text, from, at + 2, 16);
    }
    if starts_at(text, at, b"#") {
        return digits_end(text, from, at + 1, 10);
    }
    named_end(text, from)
}

// The character whose number stands at a place, up to its `;`.
fn digits_end(text: &[u8], from: usize, at: usize, radix: u32) -> Result<(u32, usize), NzbError>
    requires before { from < at }
    requires within { at ≤ length text.now }
    requires radix { (radix ≡ 10) ⊎ (radix ≡ 16) }
    ensures { ReadsReference text.now from result (digits_at (is_digit_of radix) radix (drop from text.now) (drop at text.now)) }
{
    let mut end = at;
    let mut value = 0;
    while end < text.len() && is_digit(text[end], radix) {
        value = with_digit(value, digit_value(text[end]), radix);
        end += 1;
    }
    if end == text.len() {
        return Err(NzbError::Refused {
            place: end,
            reason: NzbReason::Ended,
        });
    }
    if end == at || text[end] != b';' || !is_character(value) {
        return Err(NzbError::Refused {
            place: from,
            reason: NzbReason::BadReference,
        });
    }
    Ok((value, end + 1))
}

fn is_digit(byte: u8, radix: u32) -> bool
    ensures { result ≡ is_digit_of radix byte }
{
    if radix == 16 {
        byte.is_ascii_hexdigit()
    } else {
        byte.is_ascii_digit()
    }
}

fn digit_value(byte: u8) -> u32
    requires { IsTrue (is_ascii_hexdigit byte) }
    ensures value { result ≡ digit_value byte }
    ensures small { result < 16 }
{
    match byte {
        b'0'..=b'9' => u32::from(byte - b'0'),
        b'a'..=b'f' => u32::from(byte - b'a') + 10,
        _ => u32::from(byte - b'A') + 10,
    }
}

// One digit more, up to the first number above that of every character.
fn with_digit(value: u32, digit: u32, radix: u32) -> u32
    requires value { value ≤ 0x110000 }
    requires digit { digit < 16 }
    requires radix { (radix ≡ 10) ⊎ (radix ≡ 16) }
    ensures { result ≡ capped (value * radix + digit) }
{
    (value * radix + digit).min(NO_CHARACTER)
}

fn is_character(number: u32) -> bool
    ensures { result ≡ is_character number }
{
    matches!(number, 9 | 10 | 13 | 0x20..=0xD7FF | 0xE000..=0xFFFD | 0x1_0000..=0x10_FFFF)
}

// The character of the name at a place.
fn named_end(text: &[u8], from: usize) -> Result<(u32, usize), NzbError>
    requires { from < length text.now }
    ensures { ReadsReference text.now from result (named (drop from text.now) (drop (from + 1) text.now) (find (λ r. starts_with nat_eq (drop (from + 1) text.now) r.0) references)) }
{
    let at = from + 1;
    if starts_at(text, at, b"amp;") {
        return Ok((38, at + 4));
    }
    if starts_at(text, at, b"lt;") {
        return Ok((60, at + 3));
    }
    if starts_at(text, at, b"gt;") {
        return Ok((62, at + 3));
    }
    if starts_at(text, at, b"quot;") {
        return Ok((34, at + 5));
    }
    if starts_at(text, at, b"apos;") {
        return Ok((39, at + 5));
    }
    if begins_name(&text[at..]) {
        return Err(NzbError::Refused {
            place: text.len(),
            reason: NzbReason::Ended,
        });
    }
    Err(NzbError::Refused {
        place: from,
        reason: NzbReason::BadReference,
    })
}

// Whether the name of a reference, with its `;`, begins so.
fn begins_name(front: &[u8]) -> bool
    ensures { result ≡ list_any (λ r. starts_with nat_eq r.0 front.now) references }
{
    b"amp;".starts_with(front)
        || b"lt;".starts_with(front)
        || b"gt;".starts_with(front)
        || b"quot;".starts_with(front)
        || b"apos;".starts_with(front)
}
