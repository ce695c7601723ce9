// A file of an overview while its articles are taken together.
ghost use Rattle.std.specs.Prelude.{◌≡◌, [], ◌∷◌, IfOk};
ghost use Rattle.std.specs.BTreeMap.{values};
ghost use Rattle.overview_index.specs.Draft.{AddsArticle, IsBegunBy, article_in, entry_of};
ghost use Rattle.overview_index.specs.Group.{segment_of};

use crate::{Added, GroupError};
use limits::MOST_SEGMENTS;
use lists::{Bytes, List, Memory, bytes_of};
use nzb_writer::{FileEntry, Segment};
use overview_lines::{Count, OverLine, read_date};
use std::alloc::Global;
use std::collections::BTreeMap;

/// A file: what its first article says of it, and its segments by their numbers.
#[derive(Drop)]
pub(crate) struct Draft {
    poster: Bytes,
    date: u64,
    subject: Bytes,
    segments: BTreeMap<u32, Segment>,
}

impl Draft {
    /// The file that an article begins.
    pub(crate) fn new(alloc: Global, line: &OverLine<'_>, count: &Count) -> Result<Draft, Memory>
        ensures begun { IfOk result (IsBegunBy (article_in line.now count.now)) }
        ensures segments { IfOk result (λ draft. draft.segments.entries ≡ (count.now.part, segment_of (article_in line.now count.now)) ∷ []) }
    {
        let mut segments = BTreeMap::new(alloc);
        segments.insert(count.part, segment_of(line, count)?)?;
        Ok(Draft {
            poster: bytes_of(alloc, line.from)?,
            date: read_date(line.date).unwrap_or(0),
            subject: bytes_of(alloc, line.subject)?,
            segments,
        })
    }

    /// Adds an article, where so many segments are in all files. On an error the file is as it was.
    pub(crate) fn add(
        &mut self,
        line: &OverLine<'_>,
        count: &Count,
        so_far: u32,
    ) -> Result<Added, GroupError>
        ensures { AddsArticle (article_in line.now count.now) so_far self.old self.new result }
    {
        if self.segments.contains_key(&count.part) {
            return Ok(Added::Repeat);
        }
        if so_far >= MOST_SEGMENTS {
            return Err(GroupError::Segments);
        }
        match self.segments.insert(count.part, segment_of(line, count)?) {
            Ok(_) => Ok(Added::New),
            Err(_) => Err(GroupError::Memory),
        }
    }

    /// The file as it is in an index, of the newsgroup of this name.
    pub(crate) fn into_entry(self, alloc: Global, group: &[u8]) -> Result<FileEntry, Memory>
        ensures { IfOk result (λ entry. entry ≡ entry_of group.now self) }
    {
        let Draft {
            poster,
            date,
            subject,
            segments,
        } = self;
        let mut groups = List::new(alloc);
        groups.push(bytes_of(alloc, group)?)?;
        Ok(FileEntry {
            poster,
            date,
            subject,
            groups,
            segments: segments_of(alloc, segments)?,
        })
    }
}

// The segment that an article makes.
fn segment_of(line: &OverLine<'_>, count: &Count) -> Result<Segment, Memory>
    ensures { IfOk result (λ segment. segment ≡ segment_of (article_in line.now count.now)) }
{
    Ok(Segment {
        number: count.part,
        bytes: line.bytes,
        id: line.id.clone()?,
    })
}

// The segments in ascending order of numbers.
fn segments_of(alloc: Global, segments: BTreeMap<u32, Segment>) -> Result<List<Segment>, Memory>
    ensures { IfOk result (λ list. list ≡ values segments) }
{
    let mut list = List::new(alloc);
    list.reserve(segments.len())?;
    for segment in segments.into_values() {
        list.push(segment)?;
    }
    Ok(list)
}
