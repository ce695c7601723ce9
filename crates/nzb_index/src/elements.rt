// Reading what stands between the tags of an NZB text.
ghost use Rattle.std.specs.Prelude.{◌≡◌, ◌≤◌, length, drop, codes};
ghost use Rattle.std.specs.List.{list_all};
ghost use Rattle.nzb_writer.specs.Markup.{is_id_byte, is_message_id, trimmed};
ghost use Rattle.nzb_index.specs.MarkupReading.{end_tag, leaf, no_fault};
ghost use Rattle.nzb_index.specs.NzbReading.{bad_id};
ghost use Rattle.nzb_index.specs.Readers.{ReadsTo, ReadsValue};
ghost use Rattle.nzb_index.specs.Elements.{IsWithin, ReadsNext, bare, known_at, next_at};

use crate::pieces::text_end;
use crate::scan::{between_end, is_white, name_end, starts_at, white_end, word_end};
use crate::tags::refused;
use crate::{NzbError, NzbReason};
use lists::Bytes;

/// What stands next between the tags of an element.
pub(crate) enum Child {
    /// Its end tag, in front of this place.
    Ended(usize),
    /// A tag whose `<` stands at the first place, and whose name ends in front of the second.
    Opened(usize, usize),
}

/// What stands next between the tags of the element of a name.
pub(crate) fn child_end(text: &[u8], at: usize, name: &[u8]) -> Result<Child, NzbError>
    requires { at ≤ length text.now }
    ensures { ReadsNext text.now at result (next_at name.now (drop at text.now)) }
{
    let here = between_end(text, at)?;
    if starts_at(text, here, b"</") {
        let end = end_tag(text, here, name, None)?;
        return Ok(Child::Ended(end));
    }
    let inside = word_end(text, here, b"<")?;
    let end = name_end(text, inside)?;
    Ok(Child::Opened(here, end))
}

// The place behind the end tag of this name. With `bad_id` the segment at that place is refused once the name has ended.
fn end_tag(text: &[u8], at: usize, name: &[u8], bad_id: Option<usize>) -> Result<usize, NzbError>
    requires within { at ≤ length text.now }
    requires id { IsWithin text.now bad_id }
    ensures { ReadsTo text.now at result (end_tag name.now (known_at text.now bad_id) (drop at text.now)) }
{
    let inside = word_end(text, at, b"</")?;
    let end = name_end(text, inside)?;
    if &text[inside..end] != name {
        return Err(refused(at, NzbReason::WrongTag));
    }
    if let Some(from) = bad_id {
        return Err(refused(from, NzbReason::BadId));
    }
    word_end(text, white_end(text, end), b">")
}

/// Reads the text of an element, whose start tag ends at a place, and its end tag. White at the text's ends is not cut.
pub(crate) fn leaf_end(
    text: &[u8],
    at: usize,
    closed: bool,
    name: &[u8],
    out: &mut Bytes,
) -> Result<usize, NzbError>
    requires { at ≤ length text.now }
    ensures { ReadsValue text.now at (trimmed out.new) result (leaf name.now no_fault (bare closed) (drop at text.now)) }
{
    out.clear();
    if closed {
        return Ok(at);
    }
    let end = text_end(text, at, out)?;
    end_tag(text, end, name, None)
}

/// The same of a segment whose `<` stands at a place, which is refused where its text is no message-id.
pub(crate) fn id_end(
    text: &[u8],
    at: usize,
    closed: bool,
    from: usize,
    out: &mut Bytes,
) -> Result<usize, NzbError>
    requires within { at ≤ length text.now }
    requires id { from ≤ length text.now }
    ensures { ReadsValue text.now at (trimmed out.new) result (leaf (codes "segment") (bad_id (drop from text.now)) (bare closed) (drop at text.now)) }
{
    out.clear();
    if closed {
        return Err(refused(from, NzbReason::BadId));
    }
    let end = text_end(text, at, out)?;
    let bad_id = if is_message_id(trimmed(out.as_slice())) {
        None
    } else {
        Some(from)
    };
    end_tag(text, end, b"segment", bad_id)
}

fn is_message_id(id: &[u8]) -> bool
    ensures { result ≡ is_message_id id.now }
{
    !id.is_empty() && id.len() <= 248 && are_id_bytes(id)
}

fn are_id_bytes(id: &[u8]) -> bool
    ensures { result ≡ list_all is_id_byte id.now }
{
    id.iter().all(|byte| is_id_byte(*byte))
}

fn is_id_byte(byte: u8) -> bool
    ensures { result ≡ is_id_byte byte }
{
    byte >= 33 && byte <= 126 && byte != b'>'
}

/// These bytes without the white at both ends.
pub(crate) fn trimmed(bytes: &[u8]) -> &[u8]
    ensures { result.now ≡ trimmed bytes.now }
{
    let start = white_end(bytes, 0);
    let mut end = bytes.len();
    while end > start && is_white(bytes[end - 1]) {
        end -= 1;
    }
    &bytes[start..end]
}
