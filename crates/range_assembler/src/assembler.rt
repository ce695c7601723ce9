// One entry for each segment of all files, an order of the ranges that they have, and one of the ranges that are missing.
ghost use Rattle.std.specs.Prelude.{◌≡◌, ◌<◌, ◌≤◌, ◌+◌, ◌^◌, [], ℕ, true, false, length, sum, Some, Option, IfOk, IfErr, OnOk, OnErr, IsTrue, ◌↔◌, slice_get};
ghost use Rattle.range_assembler.specs.Entries.{entries_of, least_clash, kept_size, with_claim, with_accept, with_release};
ghost use Rattle.range_assembler.specs.Claims.{file_at, last_at, claim_answer, other_size, accept_answer, is_free_at, is_held_at};
ghost use Rattle.range_assembler.specs.Missing.{missing_of, is_complete};
ghost use Rattle.range_assembler.specs.Accepted.{IsKthPart};
ghost use Rattle.range_assembler.specs.Sets.{ShareNothing, IsApart, NamesLeast, IsWholeFile};
ghost use Rattle.range_assembler.specs.Bare.{first_gaps};
ghost use Rattle.range_assembler.specs.Order.{size_read};
ghost use Rattle.range_assembler.specs.Sound.{AreSoundRanges};
ghost use Rattle.limits.specs.declared.TheConstants.{MOST_FILES, MOST_FILE_BYTES, MOST_SEGMENTS};

use crate::accepted::kth_from;
use crate::gap_list::{carve, fill, gap_at};
use crate::order::{Order, clash_with, put, take_out};
use crate::scans::{add_file, add_sizes};
use crate::sequence::Range;
use lists::Memory;
use std::alloc::Global;
use std::marker::Model;

/// A held or accepted range of the same file that shares an offset with the one that was claimed: of all such ranges the one with
/// the least first offset.
#[derive(Clone, Copy, Debug, PartialEq, Eq, Drop)]
pub struct Clash {
    /// The segment that has it.
    pub other: u32,
    /// Its first offset, from 1.
    pub first: u64,
    /// Its last offset.
    pub last: u64,
}

/// The accepted parts of the file have another size than the one that was to be accepted.
#[derive(Clone, Copy, Debug, PartialEq, Eq, Drop)]
pub struct OtherSize {
    /// The size of the file by the accepted parts, in bytes.
    pub kept: u64,
}

/// What a segment has: no range, a range that is held, or a range of a part that was accepted with a size of its file.
#[derive(Clone, Copy, Debug, PartialEq, Eq, Drop)]
pub enum Hold {
    /// No range.
    Free,
    /// A range that was claimed.
    Held,
    /// A range that was accepted, with the size of the file.
    Accepted(u64),
}

/// A segment of a file, and its range.
#[derive(Clone, Copy, Drop)]
pub struct Entry {
    /// The number of its file, from 0.
    pub file: u32,
    /// Whether it has a range, and whether that is accepted.
    pub hold: Hold,
    /// The first offset of its range, from 1, or of its last one.
    pub first: u64,
    /// The last offset of it, one below the first where it is empty.
    pub last: u64,
}

/// The ranges of offsets that the segments of some files have. Segments are numbered through all files in order, from 0. Contracts
/// see an entry for each segment. No call but `new` takes memory.
#[derive(Drop)]
pub struct Assembler {
    entries: Vec<Entry>,
    // The ranges that are held or accepted and aren't empty.
    order: Order,
    // The ranges of each file that no accepted range has.
    gaps: Order,
    // The size of each file of which a part is accepted.
    sizes: Vec<Option<u64>>,
}

impl Model for Assembler {
    ghost use Rattle.std.specs.Prelude.{List, length};
    ghost use Rattle.range_assembler.specs.declared.assembler.Entry.{Entry};
    ghost use Rattle.range_assembler.specs.Bare.{IsGapped};
    ghost use Rattle.range_assembler.specs.Order.{IsIndexed};

    ghost Value = { List Entry };

    ghost view = { λ a. a.entries.items };

    ghost invariant = { λ a. IsIndexed a.entries.items a.order a.sizes.items × IsGapped a.entries.items a.gaps (length a.sizes.items) };
}

impl Assembler {
    /// No segment has a range. `parts` has the number of segments of each file: at most `MOST_FILES` files, and `MOST_SEGMENTS`
    /// segments in all.
    pub fn new(alloc: Global, parts: &[u32]) -> Result<Self, Memory>
        requires files { length parts.now ≤ MOST_FILES }
        requires segments { sum parts.now ≤ MOST_SEGMENTS }
        ensures { IfOk result (λ assembler. assembler ≡ entries_of 0 parts.now) }
    {
        let mut entries = Vec::new(alloc);
        for file in 0..parts.len() {
            add_file(&mut entries, file as u32, parts[file])?;
        }
        let mut sizes = Vec::new(alloc);
        add_sizes(&mut sizes, parts.len())?;
        let order = order_of(alloc, &entries)?;
        let gaps = gaps_of(alloc, &entries, parts.len())?;
        Ok(Assembler {
            entries,
            order,
            gaps,
            sizes,
        })
    }

    /// Holds a range for a segment that has none. `Clash` comes exactly where a held or accepted range of its file shares an offset
    /// with it, and nothing changes then. An empty range, whose last offset is one below its first, clashes with nothing.
    pub fn claim(&mut self, segment: u32, first: u64, last: u64) -> Result<(), Clash>
        requires free { is_free_at self.old segment ≡ true }
        requires first { 1 ≤ first }
        requires range { first ≤ last + 1 }
        requires small { last ≤ MOST_FILE_BYTES }
        ensures answer { result ≡ claim_answer (least_clash 0 (file_at self.old segment) first last self.old) }
        ensures apart { OnOk result (IsApart (file_at self.old segment) first last self.old) }
        ensures clash { IfErr result (λ clash. NamesLeast (file_at self.old segment) first last self.old clash) }
        ensures ok { OnOk result (self.new ≡ with_claim segment first last self.old) }
        ensures err { OnErr result (self.new ≡ self.old) }
    {
        let file = self.entries[segment as usize].file;
        let place = self.order.place(file, first);
        match clash_with(self.order.get(place), file, first, last) {
            Some(clash) => Err(clash),
            None => {
                let range = Range {
                    file,
                    segment,
                    first,
                    last,
                };
                put(&mut self.order, place, range);
                self.entries[segment as usize] = Entry {
                    file,
                    hold: Hold::Held,
                    first,
                    last,
                };
                Ok(())
            }
        }
    }

    /// Makes a held range an accepted one, of a file of this size. `OtherSize` comes exactly where the file has accepted parts of
    /// another size, and the range stays held then.
    pub fn accept(&mut self, segment: u32, size: u64) -> Result<(), OtherSize>
        requires held { is_held_at self.old segment ≡ true }
        requires size { last_at self.old segment ≤ size }
        ensures answer { result ≡ accept_answer size (kept_size (file_at self.old segment) self.old) }
        ensures ok { OnOk result (self.new ≡ with_accept segment size self.old) }
        ensures err { OnErr result (self.new ≡ self.old) }
    {
        let entry = self.entries[segment as usize];
        match other_size(self.sizes[entry.file as usize], size) {
            Some(kept) => Err(OtherSize { kept }),
            None => {
                self.sizes[entry.file as usize] = Some(size);
                self.entries[segment as usize] = Entry {
                    file: entry.file,
                    hold: Hold::Accepted(size),
                    first: entry.first,
                    last: entry.last,
                };
                let place = self.gaps.place(entry.file, entry.first);
                let range = Range {
                    file: entry.file,
                    segment,
                    first: entry.first,
                    last: entry.last,
                };
                let gap = self.gaps.get(place);
                carve(&mut self.gaps, place, gap, range);
                Ok(())
            }
        }
    }

    /// Gives up a held range.
    pub fn release(&mut self, segment: u32)
        requires { is_held_at self.old segment ≡ true }
        ensures { self.new ≡ with_release segment self.old }
    {
        let entry = self.entries[segment as usize];
        self.entries[segment as usize] = Entry {
            file: entry.file,
            hold: Hold::Free,
            first: entry.first,
            last: entry.last,
        };
        let place = self.order.place(entry.file, entry.first);
        take_out(&mut self.order, place, entry.first <= entry.last);
    }

    /// What a segment has, or nothing where there is no such segment.
    pub fn entry(&self, segment: u32) -> Option<Entry>
        ensures { result ≡ slice_get self.now segment }
    {
        self.entries.get(segment as usize).copied()
    }

    /// The size of the accepted parts of a file, or nothing where none of its parts is accepted.
    pub fn size(&self, file: u32) -> Option<u64>
        ensures size { result ≡ kept_size file self.now }
        ensures sound { AreSoundRanges self.now }
        ensures disjoint { ShareNothing self.now }
    {
        size_at(&self.sizes, file)
    }

    /// Whether a part of a file is accepted, and each offset from 1 to the size is in an accepted range.
    pub fn complete(&self, file: u32) -> bool
        ensures answer { result ≡ is_complete file self.now }
        ensures whole { IsTrue result ↔ IsWholeFile file self.now }
    {
        self.is_whole(file)
    }

    fn is_whole(&self, file: u32) -> bool
        ensures { result ≡ is_complete file self.now }
    {
        self.size(file).is_some() && self.missing(file, 0).is_none()
    }

    /// The segment with the k-th, from 0 in ascending order, of the accepted ranges of a file that aren't empty. Nothing where there
    /// are at most k of them.
    pub fn accepted(&self, file: u32, k: usize) -> Option<u32>
        ensures { IsKthPart file k self.now result }
    {
        let place = self.order.place(file, 1);
        kth_from(&self.order, &self.entries, file, place, k)
    }

    /// The k-th, from 0 in ascending order, of the greatest ranges of offsets from 1 to the size that are in no accepted range.
    /// Nothing where no part is accepted, or there are at most k of them.
    pub fn missing(&self, file: u32, k: usize) -> Option<(u64, u64)>
        ensures { result ≡ missing_of file k self.now }
    {
        match self.size(file) {
            Some(size) => {
                let place = self.gaps.place(file, 1);
                gap_at(&self.gaps, place, k, file, size)
            }
            None => None,
        }
    }
}

// An order with room for each entry's range.
fn order_of(alloc: Global, entries: &[Entry]) -> Result<Order, Memory>
    ensures { IfOk result (λ order. order ≡ ([], length entries.now)) }
{
    Order::new(alloc, entries.len())
}

// The gaps of so many files, with room for what each entry may cut off.
fn gaps_of(alloc: Global, entries: &[Entry], files: usize) -> Result<Order, Memory>
    requires few { length entries.now ≤ MOST_SEGMENTS }
    requires files { files ≤ MOST_FILES }
    ensures ranges { IfOk result (λ gaps. gaps.0 ≡ first_gaps (length entries.now) 0 files) }
    ensures sides { IfOk result (λ gaps. gaps.1 ≡ length entries.now + files) }
{
    let mut gaps = Order::new(alloc, entries.len() + files)?;
    fill(&mut gaps, entries.len() as u32, files as u32);
    Ok(gaps)
}

// The size of a file, if there is such a file and its size is known.
fn size_at(sizes: &[Option<u64>], file: u32) -> Option<u64>
    ensures { result ≡ size_read (slice_get sizes.now file) }
{
    match sizes.get(file as usize) {
        Some(size) => *size,
        None => None,
    }
}

// The kept size, if there is one and it is another.
fn other_size(kept: Option<u64>, size: u64) -> Option<u64>
    ensures { result ≡ other_size size kept }
{
    match kept {
        Some(kept) => { if kept == size { None } else { Some(kept) } }
        None => None,
    }
}
