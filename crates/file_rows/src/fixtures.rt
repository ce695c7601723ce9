// Two files of a fetch, over a store in memory.
ghost use Rattle.std.specs.Prelude.{◌≡◌, ◌+◌, ◌≤◌, IfOk, length};
ghost use Rattle.fetch_files.specs.Calls.{AreCreated};
ghost use Rattle.io_memory.specs.MemStore.{store_created};
ghost use Rattle.limits.specs.declared.TheConstants.{MOST_FILE_BYTES};

use fetch_files::{clear, create_files, set_lengths};
use io_memory::MemStore;
use io_traits::{Failed, Store};
use lists::{Bytes, List, Memory};
use nzb_writer::{FileEntry, Index};
use range_assembler::Assembler;
use row_fixtures::{bytes_of, numbers_of};
use std::alloc::Global;

fn file_of(alloc: Global, subject: &[u8]) -> Result<FileEntry, Memory> {
    Ok(FileEntry {
        poster: Bytes::new(alloc),
        date: 0,
        subject: bytes_of(alloc, subject)?,
        groups: List::new(alloc),
        segments: List::new(alloc),
    })
}

// An index of two files with these subjects, and no segments.
fn index_of(alloc: Global, first: &[u8], second: &[u8]) -> Result<Index, Memory>
    ensures { IfOk result (λ index. length index.files ≡ 2) }
{
    let mut files = List::new(alloc);
    files.push(file_of(alloc, first)?)?;
    files.push(file_of(alloc, second)?)?;
    Ok(Index {
        metas: List::new(alloc),
        files,
    })
}

/// Two files that were made.
#[derive(Drop)]
pub(crate) struct Made {
    store: MemStore,
    ghost made: { AreCreated 2 (store_created store) },
}

/// Two files that were made, or the store, where the making failed.
#[derive(Drop)]
pub(crate) enum Making {
    Whole(Made),
    Failing(MemStore),
}

/// Makes two files with these subjects. The calls of these numbers fail, of which making takes the first two.
pub(crate) fn make(
    alloc: Global,
    first: &[u8],
    second: &[u8],
    failing: &[u64],
) -> Result<Making, Memory> {
    let index = index_of(alloc, first, second)?;
    let mut store = MemStore::new(alloc, numbers_of(alloc, failing)?)?;
    match create_files(&mut store, &index) {
        Ok(()) => Ok(Making::Whole(Made { store })),
        Err(Failed) => Ok(Making::Failing(store)),
    }
}

/// Whether the store holds a file of these bytes.
pub(crate) fn holds(store: &MemStore, file: u32, bytes: &[u8]) -> bool {
    match store.file(file) {
        Some(held) => held == bytes,
        None => false,
    }
}

impl Made {
    pub(crate) fn holds(&self, file: u32, bytes: &[u8]) -> bool {
        holds(&self.store, file, bytes)
    }

    /// How many bytes the first file has.
    pub(crate) fn len(&self) -> usize {
        match self.store.file(0) {
            Some(held) => held.len(),
            None => 0,
        }
    }

    /// Whether the file of this number has this name.
    pub(crate) fn is_named(&mut self, file: u32, name: &str) -> bool {
        self.store.keep(file, name).is_ok()
    }

    /// Writes to the front of the first file.
    pub(crate) fn write(&mut self, bytes: &[u8]) -> Result<(), Failed> {
        self.store.write_at(0, 0, bytes)
    }

    /// Clears bytes of the first file.
    pub(crate) fn clear(&mut self, place: u64, count: u64) -> Result<(), Failed>
        requires { place + count ≤ MOST_FILE_BYTES }
    {
        clear(&mut self.store, 0, place, count)
    }

    pub(crate) fn set_lengths(&mut self, ranges: &Assembler) -> Result<(), Failed> {
        set_lengths(&mut self.store, ranges, 2)
    }
}

/// The ranges of two files, of which the first has a part of three bytes, accepted, of a file of five.
pub(crate) fn ranges_of(alloc: Global) -> Result<Assembler, Memory> {
    let mut ranges = Assembler::new(alloc, &[2, 1])?;
    match ranges.claim(0, 1, 3) {
        Ok(()) => {
            let _accepted = ranges.accept(0, 5);
        }
        Err(_) => {}
    }
    Ok(ranges)
}
