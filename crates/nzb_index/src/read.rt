// Reading an NZB text.
ghost use Rattle.std.specs.Prelude.{◌≡◌, ◌≤◌, ◌⊎◌, Ok, Err, IfOk, length, drop};
ghost use Rattle.nzb_index.specs.declared.error.NzbError.TheVariants.{Memory as NoMemory};
ghost use Rattle.nzb_writer.specs.declared.index.Index.{Index};
ghost use Rattle.nzb_writer.specs.Canonical.{IsValidIndex};
ghost use Rattle.nzb_index.specs.MarkupReading.{one_white};
ghost use Rattle.nzb_writer.specs.Nzb.{IsNzb};
ghost use Rattle.nzb_index.specs.NzbReading.{Refusal, behind_declaration, behind_mark, behind_type, index_at, type_end};
ghost use Rattle.nzb_index.specs.Readers.{ReadsTo};
ghost use Rattle.nzb_index.specs.Refusal.{IsTextRefused};
ghost use Rattle.nzb_index.specs.ReadNzb.{NzbAnswers, IsError, ReadsEnd, FindsIndex, ReadsRoot, ReadsRootName, behind_root};

use crate::entries::entries_end;
use crate::scan::{
    Between, between_end, is_control, is_white, name_end, pieces_end, starts_at, unexpected, until,
    word_end,
};
use crate::tags::{Element, Scratch, refused, tag_end};
use crate::{NzbError, NzbLimit, NzbReason};
use limits::MOST_TEXT_BYTES;
use lists::List;
use nzb_writer::Index;
use std::alloc::Global;

/// Reads the index of an NZB text (NZB 1.1), once from left to right. A text that is none is refused for the reason that is
/// known first, with its place, or for a limit that is passed before any reason is known. Only what the index keeps takes
/// memory, beside room for one start tag.
pub fn read_nzb(alloc: Global, text: &[u8]) -> Result<Index, NzbError>
    ensures answer { NzbAnswers text.now result }
    ensures valid { IfOk result IsValidIndex }

    // No text with an index is refused, and none without is read to one, but for want of memory.
    ensures each_index { (index : Index) → IsNzb text.now index → (result ≡ Ok index) ⊎ (result ≡ Err NoMemory) }
    ensures each_refusal { (refusal : Refusal) → IsTextRefused text.now refusal → IsError refusal result ⊎ (result ≡ Err NoMemory) }
{
    read_text(alloc, text)
}

fn read_text(alloc: Global, text: &[u8]) -> Result<Index, NzbError>
    ensures { NzbAnswers text.now result }
{
    if text.len() > MOST_TEXT_BYTES as usize {
        return Err(NzbError::Limit(NzbLimit::TextBytes));
    }
    read_index(alloc, text)
}

fn read_index(alloc: Global, text: &[u8]) -> Result<Index, NzbError>
    ensures { FindsIndex text.now result (index_at text.now) }
{
    let name = root_name_end(text)?;
    let mut scratch = Scratch::new(alloc);
    let (closed, at) = tag_end(text, name, Element::Plain, &mut scratch)?;
    let mut index = Index {
        metas: List::new(alloc),
        files: List::new(alloc),
    };
    let end = entries_end(alloc, text, at, closed, &mut index, &mut scratch)?;
    match text_ended(text, end) {
        Ok(()) => Ok(index),
        Err(error) => Err(error),
    }
}

// The place behind the root's name.
fn root_name_end(text: &[u8]) -> Result<usize, NzbError>
    ensures { ReadsRootName text.now result (index_at text.now) }
{
    let marked = mark_end(text)?;
    let declared = declaration_end(text, marked)?;
    let here = root_start(text, declared)?;
    let inside = word_end(text, here, b"<")?;
    let name = name_end(text, inside)?;
    if &text[inside..name] != b"nzb".as_slice() {
        return Err(refused(here, NzbReason::WrongTag));
    }
    Ok(name)
}

// White and comments alone stand from a place on.
fn text_ended(text: &[u8], at: usize) -> Result<(), NzbError>
    requires { at ≤ length text.now }
    ensures { ReadsEnd text.now result (behind_root (drop at text.now)) }
{
    let behind = between_end(text, at)?;
    if behind == text.len() {
        return Ok(());
    }
    let after = word_end(text, behind, b"<!--")?;
    Err(unexpected(text, after))
}

// The place behind the byte order mark, if its first byte is there.
fn mark_end(text: &[u8]) -> Result<usize, NzbError>
    ensures { ReadsTo text.now 0 result (behind_mark text.now) }
{
    if starts_at(text, 0, &[0xEF]) {
        return word_end(text, 0, &[0xEF, 0xBB, 0xBF]);
    }
    Ok(0)
}

// The place behind the XML declaration, if there is one.
fn declaration_end(text: &[u8], at: usize) -> Result<usize, NzbError>
    requires { at ≤ length text.now }
    ensures { ReadsTo text.now at result (behind_declaration (drop at text.now)) }
{
    if !starts_at(text, at, b"<?") {
        return Ok(at);
    }
    let name = word_end(text, at, b"<?xml")?;
    let inside = one_white(text, name)?;
    until(text, inside, b"?>")
}

// The place of the root's `<`, behind white, comments and a document type.
fn root_start(text: &[u8], at: usize) -> Result<usize, NzbError>
    requires { at ≤ length text.now }
    ensures { ReadsRoot text.now at result }
{
    match pieces_end(text, at)? {
        Between::Other(end) => Ok(end),
        Between::Declaration(end) => document_type_end(text, end),
    }
}

// The place behind a document type, from behind its `<!` on, and behind the white and comments that follow it.
fn document_type_end(text: &[u8], at: usize) -> Result<usize, NzbError>
    requires { at ≤ length text.now }
    ensures { ReadsTo text.now at result (behind_type (drop at text.now)) }
{
    let name = word_end(text, at, b"DOCTYPE")?;
    let inside = one_white(text, name)?;
    let behind = type_end(text, inside)?;
    between_end(text, behind)
}

fn type_end(text: &[u8], at: usize) -> Result<usize, NzbError>
    requires { at ≤ length text.now }
    ensures { ReadsTo text.now at result (type_end (drop at text.now)) }
{
    let mut end = at;
    while end < text.len() {
        let byte = text[end];
        if byte == b'>' {
            return Ok(end + 1);
        }
        if byte == b'[' {
            return Err(refused(end, NzbReason::Subset));
        }
        if is_control(byte) {
            return Err(unexpected(text, end));
        }
        end += 1;
    }
    Err(unexpected(text, end))
}

fn one_white(text: &[u8], at: usize) -> Result<usize, NzbError>
    requires { at ≤ length text.now }
    ensures { ReadsTo text.now at result (one_white (drop at text.now)) }
{
    if at == text.len() || !is_white(text[at]) {
        return Err(unexpected(text, at));
    }
    Ok(at + 1)
}
