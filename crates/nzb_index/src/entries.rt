// Reading the elements of an NZB text, each in a function of its own, so that none calls itself.
ghost use Rattle.std.specs.Prelude.{◌≡◌, ◌≤◌, ◌<◌, ◌+◌, ◌-◌, length, take, drop, codes, IfOk, OnOk, OnErr, Err, ◌++◌, ◌∷◌, []};
ghost use Rattle.nzb_index.specs.declared.error.NzbError.TheVariants.{Memory};
ghost use Rattle.nzb_index.specs.MarkupReading.{parent};
ghost use Rattle.nzb_index.specs.NzbReading.{entry_item, file_part, group_item, meta_item, segment_item};
ghost use Rattle.nzb_writer.specs.Nzb.{segment_count};
ghost use Rattle.nzb_index.specs.Readers.{ReadsValue};
ghost use Rattle.nzb_index.specs.Elements.{bare};
ghost use Rattle.nzb_index.specs.Entries.{ReadsEntry, ReadsFile, file_at};
ghost use Rattle.limits.specs.declared.TheConstants.{MOST_SEGMENTS};

use crate::elements::{Child, child_end, id_end, leaf_end, trimmed};
use crate::scan::unexpected;
use crate::tags::{Element, Scratch, refused, tag_end};
use crate::{NzbError, NzbLimit, NzbReason};
use limits::{LAST_MOMENT, MOST_FILES, MOST_OCTETS, MOST_SEGMENTS};
use lists::{Bytes, List};
use nntp_lines::MessageId;
use nzb_writer::{FileEntry, Index, Meta, Segment};
use std::alloc::Global;

// ---- the head

/// Reads what stands in a head behind its start tag.
fn metas_end(
    alloc: Global,
    text: &[u8],
    at: usize,
    closed: bool,
    metas: &mut List<Meta>,
    scratch: &mut Scratch,
) -> Result<usize, NzbError>
    requires within { at ≤ length text.now }
    ensures { ReadsValue text.now at metas.new result (parent meta_item (codes "head") (bare closed) metas.old (drop at text.now)) }
{
    if closed {
        return Ok(at);
    }
    let mut end = at;
    'children: while end < text.len() {
        match child_end(text, end, b"head")? {
            Child::Ended(last) => return Ok(last),
            Child::Opened(from, behind) => end = meta_end(
                alloc, text, from, behind, metas, scratch,
            )?,
        }
    }
    Err(unexpected(text, end))
}

fn meta_end(
    alloc: Global,
    text: &[u8],
    from: usize,
    behind: usize,
    metas: &mut List<Meta>,
    scratch: &mut Scratch,
) -> Result<usize, NzbError>
    requires name { from + 1 < behind }
    requires within { behind ≤ length text.now }
    ensures { ReadsValue text.now behind metas.new result (meta_item metas.old (take (behind - (from + 1)) (drop (from + 1) text.now)) (drop from text.now) (drop behind text.now)) }
{
    if &text[from + 1..behind] != b"meta".as_slice() {
        return Err(refused(from, NzbReason::WrongTag));
    }
    let (closed, at) = tag_end(text, behind, Element::Plain, scratch)?;
    let kind = copy(alloc, scratch.value(b"type"))?;
    let end = leaf_end(text, at, closed, b"meta", &mut scratch.bytes)?;
    let inside = copy(alloc, trimmed(scratch.bytes.as_slice()))?;
    add(metas, Meta { kind, text: inside })?;
    Ok(end)
}

// ---- files

fn groups_end(
    alloc: Global,
    text: &[u8],
    at: usize,
    closed: bool,
    groups: &mut List<Bytes>,
    scratch: &mut Scratch,
) -> Result<usize, NzbError>
    requires within { at ≤ length text.now }
    ensures { ReadsValue text.now at groups.new result (parent group_item (codes "groups") (bare closed) groups.old (drop at text.now)) }
{
    if closed {
        return Ok(at);
    }
    let mut end = at;
    'children: while end < text.len() {
        match child_end(text, end, b"groups")? {
            Child::Ended(last) => return Ok(last),
            Child::Opened(from, behind) => end = group_end(
                alloc, text, from, behind, groups, scratch,
            )?,
        }
    }
    Err(unexpected(text, end))
}

fn group_end(
    alloc: Global,
    text: &[u8],
    from: usize,
    behind: usize,
    groups: &mut List<Bytes>,
    scratch: &mut Scratch,
) -> Result<usize, NzbError>
    requires name { from + 1 < behind }
    requires within { behind ≤ length text.now }
    ensures { ReadsValue text.now behind groups.new result (group_item groups.old (take (behind - (from + 1)) (drop (from + 1) text.now)) (drop from text.now) (drop behind text.now)) }
{
    if &text[from + 1..behind] != b"group".as_slice() {
        return Err(refused(from, NzbReason::WrongTag));
    }
    let (closed, at) = tag_end(text, behind, Element::Plain, scratch)?;
    let end = leaf_end(text, at, closed, b"group", &mut scratch.bytes)?;
    let group = copy(alloc, trimmed(scratch.bytes.as_slice()))?;
    add(groups, group)?;
    Ok(end)
}

// Files before this one have `earlier` segments.
fn segments_end(
    text: &[u8],
    at: usize,
    closed: bool,
    earlier: usize,
    segments: &mut List<Segment>,
    scratch: &mut Scratch,
) -> Result<usize, NzbError>
    requires within { at ≤ length text.now }
    requires few { earlier ≤ MOST_SEGMENTS }
    ensures { ReadsValue text.now at segments.new result (parent (segment_item earlier) (codes "segments") (bare closed) segments.old (drop at text.now)) }
{
    if closed {
        return Ok(at);
    }
    let mut end = at;
    'children: while end < text.len() {
        match child_end(text, end, b"segments")? {
            Child::Ended(last) => return Ok(last),
            Child::Opened(from, behind) => end = segment_end(
                text, from, behind, earlier, segments, scratch,
            )?,
        }
    }
    Err(unexpected(text, end))
}

fn segment_end(
    text: &[u8],
    from: usize,
    behind: usize,
    earlier: usize,
    segments: &mut List<Segment>,
    scratch: &mut Scratch,
) -> Result<usize, NzbError>
    requires name { from + 1 < behind }
    requires within { behind ≤ length text.now }
    requires few { earlier ≤ MOST_SEGMENTS }
    ensures { ReadsValue text.now behind segments.new result (segment_item earlier segments.old (take (behind - (from + 1)) (drop (from + 1) text.now)) (drop from text.now) (drop behind text.now)) }
{
    if &text[from + 1..behind] != b"segment".as_slice() {
        return Err(refused(from, NzbReason::WrongTag));
    }
    if segments.len() >= MOST_SEGMENTS as usize - earlier {
        return Err(NzbError::Limit(NzbLimit::Segments));
    }
    let (closed, at) = tag_end(text, behind, Element::Segment, scratch)?;
    if !scratch.has(b"number") {
        return Err(refused(from, NzbReason::NoNumber));
    }
    let number = scratch.number(b"number", u64::from(u32::MAX)) as u32;
    let bytes = scratch.number(b"bytes", MOST_OCTETS);
    let end = id_end(text, at, closed, from, &mut scratch.bytes)?;
    let Some(id) = MessageId::new(trimmed(scratch.bytes.as_slice())) else {
        unreachable!();
    };
    add(segments, Segment { number, bytes, id })?;
    Ok(end)
}

fn parts_end(
    alloc: Global,
    text: &[u8],
    at: usize,
    closed: bool,
    earlier: usize,
    file: &mut FileEntry,
    scratch: &mut Scratch,
) -> Result<usize, NzbError>
    requires within { at ≤ length text.now }
    requires few { earlier ≤ MOST_SEGMENTS }
    ensures { ReadsValue text.now at file.new result (parent (file_part earlier) (codes "file") (bare closed) file.old (drop at text.now)) }
{
    if closed {
        return Ok(at);
    }
    let mut end = at;
    'children: while end < text.len() {
        match child_end(text, end, b"file")? {
            Child::Ended(last) => return Ok(last),
            Child::Opened(from, behind) => end = part_end(
                alloc, text, from, behind, earlier, file, scratch,
            )?,
        }
    }
    Err(unexpected(text, end))
}

fn part_end(
    alloc: Global,
    text: &[u8],
    from: usize,
    behind: usize,
    earlier: usize,
    file: &mut FileEntry,
    scratch: &mut Scratch,
) -> Result<usize, NzbError>
    requires name { from + 1 < behind }
    requires within { behind ≤ length text.now }
    requires few { earlier ≤ MOST_SEGMENTS }
    ensures { ReadsValue text.now behind file.new result (file_part earlier file.old (take (behind - (from + 1)) (drop (from + 1) text.now)) (drop from text.now) (drop behind text.now)) }
{
    let name = &text[from + 1..behind];
    if name == b"groups".as_slice() {
        let (closed, at) = tag_end(text, behind, Element::Plain, scratch)?;
        return groups_end(alloc, text, at, closed, &mut file.groups, scratch);
    }
    if name == b"segments".as_slice() {
        let (closed, at) = tag_end(text, behind, Element::Plain, scratch)?;
        return segments_end(text, at, closed, earlier, &mut file.segments, scratch);
    }
    Err(refused(from, NzbReason::WrongTag))
}

// ---- the root

/// Reads what stands in the root behind its start tag, into an index that lists nothing yet.
pub(crate) fn entries_end(
    alloc: Global,
    text: &[u8],
    at: usize,
    closed: bool,
    index: &mut Index,
    scratch: &mut Scratch,
) -> Result<usize, NzbError>
    requires within { at ≤ length text.now }
    requires empty { index.old.files ≡ [] }
    ensures { ReadsValue text.now at index.new result (parent entry_item (codes "nzb") (bare closed) index.old (drop at text.now)) }
{
    if closed {
        return Ok(at);
    }
    let mut end = at;
    let mut count = 0;
    'children: while end < text.len() {
        match child_end(text, end, b"nzb")? {
            Child::Ended(last) => return Ok(last),
            Child::Opened(from, behind) => {
                let (next, more) = entry_end(alloc, text, from, behind, count, index, scratch)?;
                end = next;
                count = more;
            }
        }
    }
    Err(unexpected(text, end))
}

// Answers the place behind the entry, and how many segments all files have then.
fn entry_end(
    alloc: Global,
    text: &[u8],
    from: usize,
    behind: usize,
    count: usize,
    index: &mut Index,
    scratch: &mut Scratch,
) -> Result<(usize, usize), NzbError>
    requires name { from + 1 < behind }
    requires within { behind ≤ length text.now }
    requires count { count ≡ segment_count index.old }
    requires few { count ≤ MOST_SEGMENTS }
    ensures { ReadsEntry text.now behind index.new result (entry_item index.old (take (behind - (from + 1)) (drop (from + 1) text.now)) (drop from text.now) (drop behind text.now)) }
{
    let name = &text[from + 1..behind];
    if name == b"head".as_slice() {
        let (closed, at) = tag_end(text, behind, Element::Plain, scratch)?;
        let end = metas_end(alloc, text, at, closed, &mut index.metas, scratch)?;
        return Ok((end, count));
    }
    if name != b"file".as_slice() {
        return Err(refused(from, NzbReason::WrongTag));
    }
    if index.files.len() >= MOST_FILES as usize {
        return Err(NzbError::Limit(NzbLimit::Files));
    }
    let (file, end) = file_end(alloc, text, behind, count, scratch)?;
    let more = file.segments.len();
    add(&mut index.files, file)?;
    Ok((end, count + more))
}

// Reads a file from behind its tag's name on.
fn file_end(
    alloc: Global,
    text: &[u8],
    at: usize,
    earlier: usize,
    scratch: &mut Scratch,
) -> Result<(FileEntry, usize), NzbError>
    requires within { at ≤ length text.now }
    requires few { earlier ≤ MOST_SEGMENTS }
    ensures { ReadsFile text.now at earlier result (file_at earlier (drop at text.now)) }
{
    let (closed, behind) = tag_end(text, at, Element::File, scratch)?;
    let poster = copy(alloc, scratch.value(b"poster"))?;
    let subject = copy(alloc, scratch.value(b"subject"))?;
    let mut file = FileEntry {
        poster,
        date: scratch.number(b"date", LAST_MOMENT),
        subject,
        groups: List::new(alloc),
        segments: List::new(alloc),
    };
    let end = parts_end(alloc, text, behind, closed, earlier, &mut file, scratch)?;
    Ok((file, end))
}

// ---- lists

fn copy(alloc: Global, bytes: &[u8]) -> Result<Bytes, NzbError>
    ensures ok { IfOk result (λ b. b ≡ bytes.now) }
    ensures err { OnErr result (result ≡ Err Memory) }
{
    let mut own = Bytes::new(alloc);
    match own.extend(bytes) {
        Ok(()) => Ok(own),
        Err(_) => Err(NzbError::Memory),
    }
}

fn add<T: Drop>(list: &mut List<T>, item: T) -> Result<(), NzbError>
    ensures ok { OnOk result (list.new ≡ list.old ++ item ∷ []) }
    ensures err { OnErr result (result ≡ Err Memory) }
{
    match list.push(item) {
        Ok(()) => Ok(()),
        Err(_) => Err(NzbError::Memory),
    }
}
