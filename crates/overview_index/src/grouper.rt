// The files of a newsgroup's overview, taken together line by line.
ghost use Rattle.std.specs.Prelude.{◌≡◌, ◌≤◌, ◌<◌, [], length, IfOk, OnOk};
ghost use Rattle.std.specs.Map.{lookup};
ghost use Rattle.overview_lines.specs.OverLine.{IsReadLine, over_in};
ghost use Rattle.overview_index.specs.Draft.{article_in};
ghost use Rattle.overview_index.specs.Group.{key_of};
ghost use Rattle.overview_index.specs.Grouper.{AddsFile, Answers, IsIndexOfGrouper, IsValidIndexOf, PutsArticle, HasGrouped, count_behind, is_spelled, spelled};
ghost use Rattle.limits.specs.declared.TheConstants.{MOST_SEGMENTS};

use crate::draft::Draft;
use crate::{Added, GroupError};
use indexmap::IndexMap;
use limits::{MOST_FILES, MOST_SEGMENTS};
use lists::{Bytes, List, Memory};
use nntp_lines::GroupName;
use nzb_writer::Index;
use overview_lines::{Count, OverLine, count_of};
use std::alloc::Global;

/// The files of a newsgroup whose articles came so far, line by line.
#[derive(Drop)]
pub struct Grouper {
    alloc: Global,
    group: GroupName,
    // The files in the order of their first articles, by their keys, each spelled as one text.
    files: IndexMap<Vec<u8>, Draft>,
    // How many segments they have.
    count: u32,
    // Where the key of a line is spelled.
    key: Bytes,
}

impl Grouper {
    /// No files yet, of this newsgroup. It takes no memory.
    pub fn new(alloc: Global, group: GroupName) -> Grouper
        ensures { HasGrouped result group [] }
    {
        Grouper {
            alloc,
            group,
            files: IndexMap::new(alloc),
            count: 0,
            key: Bytes::new(alloc),
        }
    }

    /// Adds a line behind those that were added. On an error nothing was added.
    pub fn add(&mut self, line: &OverLine<'_>) -> Result<Added, GroupError>
        requires { IsReadLine (over_in line.now) }
        ensures { Answers self.old self.new (over_in line.now) result }
    {
        let Some(count) = count_of(line.subject) else {
            return Ok(Added::NoCount);
        };
        spell_key(line, &count, &mut self.key)?;
        let added = self.put(line, &count)?;
        self.count = count_behind(self.count, added);
        Ok(added)
    }

    // Adds an article, whose key is spelled, to its file, or begins the file.
    fn put(&mut self, line: &OverLine<'_>, count: &Count) -> Result<Added, GroupError>
        ensures files { PutsArticle (article_in line.now count.now) self.old.key self.old.count self.old.files.entries self.new.files.entries result }
        ensures group { self.new.group ≡ self.old.group }
        ensures count { self.new.count ≡ self.old.count }
    {
        match self.files.get_mut(self.key.as_slice()) {
            Some(draft) => draft.add(line, count, self.count),
            None => self.begin_file(line, count),
        }
    }

    // Begins the file of an article, which has the key that is spelled.
    fn begin_file(&mut self, line: &OverLine<'_>, count: &Count) -> Result<Added, GroupError>
        requires { lookup (is_spelled self.old.key) self.old.files.entries ≡ None }
        ensures files { AddsFile (article_in line.now count.now) self.old.key self.old.count self.old.files.entries self.new.files.entries result }
        ensures group { self.new.group ≡ self.old.group }
        ensures count { self.new.count ≡ self.old.count }
    {
        if self.count >= MOST_SEGMENTS {
            return Err(GroupError::Segments);
        }
        if self.files.len() >= MOST_FILES as usize {
            return Err(GroupError::Files);
        }
        let draft = Draft::new(self.alloc, line, count)?;
        let Ok(key) = self.key.as_slice().to_vec(self.alloc) else {
            return Err(GroupError::Memory);
        };
        match self.files.insert(key, draft) {
            Ok(_) => Ok(Added::New),
            Err(_) => Err(GroupError::Memory),
        }
    }

    /// The index of the lines that were added.
    pub fn finish(self) -> Result<Index, Memory>
        ensures index { IfOk result (IsIndexOfGrouper self) }
        ensures valid { IfOk result (IsValidIndexOf self) }
    {
        let Grouper {
            alloc,
            group,
            files,
            count: _,
            key: _,
        } = self;
        let mut entries = List::new(alloc);
        entries.reserve(files.len())?;
        let name = group.as_slice();
        for draft in files.into_values() {
            entries.push(draft.into_entry(alloc, name)?)?;
        }
        Ok(Index {
            metas: List::new(alloc),
            files: entries,
        })
    }
}

// How many segments there are, once a line has brought this.
fn count_behind(count: u32, added: Added) -> u32
    requires { added ≡ Added.New → count < MOST_SEGMENTS }
    ensures { result ≡ count_behind count added }
{
    match added {
        Added::New => count + 1,
        Added::Repeat | Added::NoCount => count,
    }
}

// Spells the key of a line with this count: who posted it, a zero byte, and its subject without the count.
fn spell_key(line: &OverLine<'_>, count: &Count, out: &mut Bytes) -> Result<(), Memory>
    requires order { count.now.start ≤ count.now.end }
    requires within { count.now.end ≤ length line.now.subject.now }
    ensures { OnOk result (out.new ≡ spelled (key_of (article_in line.now count.now))) }
{
    out.clear();
    out.extend(line.from)?;
    out.push(0)?;
    out.extend(&line.subject[..count.start])?;
    out.extend(&line.subject[count.end..])?;
    Ok(())
}
