// Reading the small forms of an NZB text over a slice: white, words, names, comments.
ghost use Rattle.std.specs.Prelude.{◌≡◌, ◌≤◌, ◌⊎◌, Ok, length, drop, codes, nat_eq};
ghost use Rattle.std.specs.List.{starts_with};
ghost use Rattle.nzb_writer.specs.Markup.{is_control, is_name_byte, is_white};
ghost use Rattle.nzb_index.specs.MarkupReading.{behind_white, between, name_at, up_to, word};
ghost use Rattle.nzb_index.specs.Readers.{EndsBetween, ReadsName, ReadsTo, unexpected_at};

use crate::{NzbError, NzbReason};

/// What stands behind white and comments.
pub(crate) enum Between {
    /// Another byte, or the text's end, at this place.
    Other(usize),
    /// `<!` that begins no comment, in front of this place.
    Declaration(usize),
}

pub(crate) fn is_white(byte: u8) -> bool
    ensures { result ≡ is_white byte }
{
    matches!(byte, b'\t' | b'\n' | b'\r' | b' ')
}

/// A byte that can stand nowhere in an NZB text.
pub(crate) fn is_control(byte: u8) -> bool
    ensures { result ≡ is_control byte }
{
    byte < 32 && !is_white(byte)
}

fn is_name_byte(byte: u8) -> bool
    ensures { result ≡ is_name_byte byte }
{
    matches!(byte, b'0'..=b'9' | b':' | b'A'..=b'Z' | b'a'..=b'z' | b'_' | b'-' | b'.')
        || byte > 127
}

/// Whether this word stands at a place.
pub(crate) fn starts_at(text: &[u8], at: usize, word: &[u8]) -> bool
    requires { at ≤ length text.now }
    ensures { result ≡ starts_with nat_eq (drop at text.now) word.now }
{
    text[at..].starts_with(word)
}

/// The refusal at a place where no byte, or not this one, can stand.
pub(crate) fn unexpected(text: &[u8], at: usize) -> NzbError
    requires { at ≤ length text.now }
    ensures { result ≡ unexpected_at text.now at }
{
    let reason = if at == text.len() {
        NzbReason::Ended
    } else {
        NzbReason::Unexpected
    };
    NzbError::Refused { place: at, reason }
}

/// The place behind white.
pub(crate) fn white_end(text: &[u8], at: usize) -> usize
    requires { at ≤ length text.now }
    ensures behind { at ≤ result }
    ensures within { result ≤ length text.now }
    ensures white { drop result text.now ≡ behind_white (drop at text.now) }
{
    let mut end = at;
    while end < text.len() && is_white(text[end]) {
        end += 1;
    }
    end
}

/// The place behind this word, which stands at a place.
pub(crate) fn word_end(text: &[u8], at: usize, expected: &[u8]) -> Result<usize, NzbError>
    requires { at ≤ length text.now }
    ensures { ReadsTo text.now at result (word expected.now (drop at text.now)) }
{
    let mut end = at;
    for byte in expected {
        if end == text.len() || text[end] != *byte {
            return Err(unexpected(text, end));
        }
        end += 1;
    }
    Ok(end)
}

/// The end of the name at a place. A name has ended once another byte follows.
pub(crate) fn name_end(text: &[u8], at: usize) -> Result<usize, NzbError>
    requires { at ≤ length text.now }
    ensures { ReadsName text.now at result (name_at (drop at text.now)) }
{
    let mut end = at;
    while end < text.len() && is_name_byte(text[end]) {
        end += 1;
    }
    if end == text.len() || end == at {
        return Err(unexpected(text, end));
    }
    Ok(end)
}

/// The place behind the first of this word at or after a place.
pub(crate) fn until(text: &[u8], at: usize, last: &[u8]) -> Result<usize, NzbError>
    requires { at ≤ length text.now }
    ensures { ReadsTo text.now at result (up_to last.now (drop at text.now)) }
{
    let mut end = at;
    while end < text.len() {
        if is_control(text[end]) {
            return Err(unexpected(text, end));
        }
        if starts_at(text, end, last) {
            return Ok(end + last.len());
        }
        end += 1;
    }
    Err(unexpected(text, end))
}

/// Where white and comments end.
pub(crate) fn pieces_end(text: &[u8], at: usize) -> Result<Between, NzbError>
    requires { at ≤ length text.now }
    ensures { EndsBetween text.now at result }
{
    let mut end = white_end(text, at);
    'pieces: while starts_at(text, end, b"<!-") {
        let inside = word_end(text, end, b"<!--")?;
        let behind = until(text, inside, b"-->")?;
        end = white_end(text, behind);
    }
    if starts_at(text, end, b"<!") {
        return Ok(Between::Declaration(end + 2));
    }
    Ok(Between::Other(end))
}

/// The place behind white and comments.
pub(crate) fn between_end(text: &[u8], at: usize) -> Result<usize, NzbError>
    requires { at ≤ length text.now }
    ensures { ReadsTo text.now at result (between (drop at text.now)) }
{
    match pieces_end(text, at)? {
        Between::Other(end) => Ok(end),
        Between::Declaration(end) => Err(unexpected(text, end)),
    }
}
