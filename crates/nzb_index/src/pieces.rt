// Reading the values and texts of an NZB text, a piece at a time.
ghost use Rattle.std.specs.Prelude.{◌≡◌, ◌≤◌, ◌<◌, ◌+◌, [], length, drop, slice_index, ◌++◌, OnOk, OnErr, Err};
ghost use Rattle.std.specs.List.{prefix_len};
ghost use Rattle.nzb_index.specs.MarkupReading.{reference_at, text_at, value_at};
ghost use Rattle.nzb_index.specs.declared.error.NzbError.TheVariants.{Memory};
ghost use Rattle.nzb_index.specs.Readers.{ReadsMore, ReadsPiece, ReadsValue, stands_in_text, stands_in_value};

use crate::references::reference_end;
use crate::scan::{is_control, is_white, name_end, starts_at, unexpected, until, word_end};
use crate::{NzbError, NzbReason};
use lists::Bytes;

/// Where a piece of a value or text ends.
pub(crate) enum Piece {
    /// Another piece may stand at this place.
    Goes(usize),
    /// The whole has ended, in front of this place.
    Ends(usize),
}

/// Reads a value, up to and with its closing quote.
pub(crate) fn value_end(
    text: &[u8],
    at: usize,
    quote: u8,
    out: &mut Bytes,
) -> Result<usize, NzbError>
    requires { at ≤ length text.now }
    ensures { ReadsValue text.now at out.new result (value_at quote (length (drop at text.now)) (drop at text.now)) }
{
    out.clear();
    let mut end = at;
    while end < text.len() {
        match value_piece(text, end, quote, out)? {
            Piece::Goes(next) => end = next,
            Piece::Ends(last) => return Ok(last),
        }
    }
    Err(unexpected(text, end))
}

/// Reads an element's text, up to its end tag. White at its ends is not cut.
pub(crate) fn text_end(text: &[u8], at: usize, out: &mut Bytes) -> Result<usize, NzbError>
    requires { at ≤ length text.now }
    ensures { ReadsValue text.now at out.new result (text_at (length (drop at text.now)) (drop at text.now)) }
{
    out.clear();
    let mut end = at;
    while end < text.len() {
        match text_piece(text, end, out)? {
            Piece::Goes(next) => end = next,
            Piece::Ends(last) => return Ok(last),
        }
    }
    Err(unexpected(text, end))
}

fn value_piece(text: &[u8], at: usize, quote: u8, out: &mut Bytes) -> Result<Piece, NzbError>
    requires { at < length text.now }
    ensures { ReadsPiece (value_at quote) text.now at out.old out.new result }
{
    let byte = text[at];
    if byte == quote {
        return Ok(Piece::Ends(at + 1));
    }
    if byte == b'<' || is_control(byte) {
        return Err(unexpected(text, at));
    }
    if byte == b'&' {
        let end = push_reference(text, at, out)?;
        return Ok(Piece::Goes(end));
    }
    if byte == b'\r' && starts_at(text, at + 1, b"\n") {
        return Ok(Piece::Goes(at + 1));
    }
    if is_white(byte) {
        push(b" ", out)?;
        return Ok(Piece::Goes(at + 1));
    }
    let end = value_run(text, at, quote);
    push(&text[at..end], out)?;
    Ok(Piece::Goes(end))
}

fn text_piece(text: &[u8], at: usize, out: &mut Bytes) -> Result<Piece, NzbError>
    requires { at < length text.now }
    ensures { ReadsPiece text_at text.now at out.old out.new result }
{
    let byte = text[at];
    if byte == b'&' {
        let end = push_reference(text, at, out)?;
        return Ok(Piece::Goes(end));
    }
    if byte == b'<' {
        return markup_end(text, at);
    }
    if is_control(byte) {
        return Err(unexpected(text, at));
    }
    let end = text_run(text, at);
    push(&text[at..end], out)?;
    Ok(Piece::Goes(end))
}

// A comment in a text is passed over, an end tag ends the text, and any other tag is wrong there.
fn markup_end(text: &[u8], at: usize) -> Result<Piece, NzbError>
    requires within { at < length text.now }
    requires opens { slice_index text.now at ≡ 60 }
    ensures { ReadsPiece text_at text.now at [] [] result }
{
    if starts_at(text, at + 1, b"/") {
        return Ok(Piece::Ends(at));
    }
    if starts_at(text, at + 1, b"!") {
        let inside = word_end(text, at + 1, b"!--")?;
        let end = until(text, inside, b"-->")?;
        return Ok(Piece::Goes(end));
    }
    let _end = name_end(text, at + 1)?;
    Err(NzbError::Refused {
        place: at,
        reason: NzbReason::WrongTag,
    })
}

// Appends the character of the reference at a place, and answers the place behind it.
fn push_reference(text: &[u8], from: usize, out: &mut Bytes) -> Result<usize, NzbError>
    requires { from < length text.now }
    ensures { ReadsMore text.now from out.old out.new result (reference_at (drop from text.now) (drop (from + 1) text.now)) }
{
    let (number, end) = reference_end(text, from)?;
    let Some(character) = char::from_u32(number) else {
        unreachable!();
    };
    let mut bytes = [0; 4];
    push(character.encode_utf8(&mut bytes).as_bytes(), out)?;
    Ok(end)
}

fn push(bytes: &[u8], out: &mut Bytes) -> Result<(), NzbError>
    ensures ok { OnOk result (out.new ≡ out.old ++ bytes.now) }
    ensures err { OnErr result (result ≡ Err Memory) }
{
    match out.extend(bytes) {
        Ok(()) => Ok(()),
        Err(_) => Err(NzbError::Memory),
    }
}

// The end of the bytes at a place that stand for themselves in a value with this quote.
fn value_run(text: &[u8], at: usize, quote: u8) -> usize
    requires { at ≤ length text.now }
    ensures behind { at ≤ result }
    ensures within { result ≤ length text.now }
    ensures run { result ≡ at + prefix_len (stands_in_value quote) (drop at text.now) }
{
    let mut end = at;
    while end < text.len() && stands_in_value(text[end], quote) {
        end += 1;
    }
    end
}

fn stands_in_value(byte: u8, quote: u8) -> bool
    ensures { result ≡ stands_in_value quote byte }
{
    byte > b' ' && byte != quote && byte != b'<' && byte != b'&'
}

// The same in a text.
fn text_run(text: &[u8], at: usize) -> usize
    requires { at ≤ length text.now }
    ensures behind { at ≤ result }
    ensures within { result ≤ length text.now }
    ensures run { result ≡ at + prefix_len stands_in_text (drop at text.now) }
{
    let mut end = at;
    while end < text.len() && stands_in_text(text[end]) {
        end += 1;
    }
    end
}

fn stands_in_text(byte: u8) -> bool
    ensures { result ≡ stands_in_text byte }
{
    byte != b'&' && byte != b'<' && !is_control(byte)
}
