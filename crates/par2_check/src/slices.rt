// The slices of a file, judged as its bytes come.
ghost use Rattle.std.specs.Prelude.{◌≡◌, ◌≤◌, ◌<◌, ◌+◌, ◌-◌, ◌++◌, ℕ, List, [], length, replicate, OnOk};
ghost use Rattle.md5.specs.Md5.{Holds};
ghost use Rattle.par2_check.specs.Bodies.{slice_count};
ghost use Rattle.par2_check.specs.Checking.{IsCounted, IsCutShort, IsNextPiece, StandsFor, judged};
ghost use Rattle.par2_check.specs.Damage.{is_damaged};
ghost use Rattle.par2_check.specs.Runs.{AreRuns};
ghost use Rattle.par2_check.specs.declared.set.ParFile.{ParFile as File};

use crate::runs::add_number;
use crate::set::ParFile;
use lists::{List, Memory};
use md5::{Digest, Md5};
use std::alloc::Global;

/// What is known of the slices of a file after its first bytes.
#[derive(Drop)]
pub struct Slices {
    /// How many bytes came.
    pub taken: u64,
    /// How many slices came whole.
    pub closed: usize,
    /// How many bytes came of the next one.
    pub filled: u64,
    /// These bytes.
    pub part: Md5,
    /// Which of the slices that came whole are damaged.
    pub damaged: List<(u64, u64)>,
}

impl Slices {
    /// No byte came.
    pub fn new(alloc: Global) -> Slices
        ensures counted { (slice : ℕ) → 0 < slice → IsCounted slice result }
        ensures taken { result.taken ≡ 0 }
        ensures stands { (slice : ℕ) (file : File) (content : List ℕ) → StandsFor slice file content result }
    {
        Slices {
            taken: 0,
            closed: 0,
            filled: 0,
            part: Md5::new(),
            damaged: List::new(alloc),
        }
    }

    /// Takes the next bytes of a file.
    pub fn take(&mut self, slice: u64, file: &ParFile, piece: &[u8]) -> Result<(), Memory>
        requires counted { IsCounted slice self.old }
        requires fits { self.old.taken + length piece.now ≤ file.now.size }
        requires entries { length file.now.slices ≡ slice_count slice file.now.size }
        ensures counted { OnOk result (IsCounted slice self.new) }
        ensures taken { OnOk result (self.new.taken ≡ self.old.taken + length piece.now) }
        ensures stands { OnOk result ((content : List ℕ) → IsNextPiece content self.old.taken piece.now → StandsFor slice file.now content self.old → StandsFor slice file.now content self.new) }
    {
        let mut at = 0;
        while at < piece.len() {
            let room = (slice - self.filled).min((piece.len() - at) as u64) as usize;
            self.fill(slice, file, &piece[at..at + room])?;
            at += room;
        }
        Ok(())
    }

    // Takes bytes of one slice.
    fn fill(&mut self, slice: u64, file: &ParFile, bytes: &[u8]) -> Result<(), Memory>
        requires counted { IsCounted slice self.old }
        requires fits { self.old.taken + length bytes.now ≤ file.now.size }
        requires room { self.old.filled + length bytes.now ≤ slice }
        requires entries { length file.now.slices ≡ slice_count slice file.now.size }
        ensures counted { OnOk result (IsCounted slice self.new) }
        ensures taken { OnOk result (self.new.taken ≡ self.old.taken + length bytes.now) }
        ensures stands { OnOk result ((content : List ℕ) → IsNextPiece content self.old.taken bytes.now → StandsFor slice file.now content self.old → StandsFor slice file.now content self.new) }
    {
        self.part.update(bytes);
        self.taken += bytes.len() as u64;
        self.filled += bytes.len() as u64;
        if self.filled < slice {
            return Ok(());
        }
        self.close(file)
    }

    // Judges the next slice by the bytes that came.
    fn close(&mut self, file: &ParFile) -> Result<(), Memory>
        requires { self.old.closed < length file.now.slices }
        ensures taken { self.new.taken ≡ self.old.taken }
        ensures closed { self.new.closed ≡ self.old.closed + 1 }
        ensures filled { self.new.filled ≡ 0 }
        ensures part { Holds self.new.part [] }
        ensures damaged { OnOk result ((bytes : List ℕ) → Holds self.old.part bytes → self.new.damaged ≡ judged file.now.slices self.old.closed bytes self.old.damaged) }
    {
        let digest = self.part.finalize_reset();
        let entry = file.slices.as_slice()[self.closed];
        self.filled = 0;
        self.closed += 1;
        if digest == entry {
            return Ok(());
        }
        add_number(self.closed as u64, &mut self.damaged)
    }

    /// Judges the last slice, where it is shorter than the others, once all bytes of the file came.
    pub fn finish(&mut self, slice: u64, file: &ParFile) -> Result<(), Memory>
        requires counted { IsCounted slice self.old }
        requires all { self.old.taken ≡ file.now.size }
        requires entries { length file.now.slices ≡ slice_count slice file.now.size }
        ensures { OnOk result ((content : List ℕ) → StandsFor slice file.now content self.old → AreRuns (is_damaged slice file.now content) (length file.now.slices) self.new.damaged) }
    {
        if self.filled == 0 {
            return Ok(());
        }
        add_zeros(slice - self.filled, &mut self.part);
        self.close(file)
    }

    /// Judges all slices damaged that didn't come whole, as the contents have no more bytes.
    pub fn lose(&mut self, file: &ParFile) -> Result<(), Memory>
        ensures { OnOk result ((slice : ℕ) (content : List ℕ) → IsCutShort slice file.now content self.old → StandsFor slice file.now content self.old → AreRuns (is_damaged slice file.now content) (length file.now.slices) self.new.damaged) }
    {
        for i in self.closed..file.slices.len() {
            add_number(i as u64 + 1, &mut self.damaged)?;
        }
        Ok(())
    }
}

// Adds so many zeros to the bytes of a slice.
fn add_zeros(count: u64, part: &mut Md5)
    ensures { (bytes : List ℕ) → Holds part.old bytes → Holds part.new (bytes ++ replicate count 0) }
{
    let mut left = count;
    while left > 0 {
        let room = left.min(4_096);
        add_few_zeros(room as usize, part);
        left -= room;
    }
}

// The same, of zeros that fit into a small buffer.
fn add_few_zeros(count: usize, part: &mut Md5)
    requires { count ≤ 4096 }
    ensures { (bytes : List ℕ) → Holds part.old bytes → Holds part.new (bytes ++ replicate count 0) }
{
    let zeros = [0; 4_096];
    part.update(&zeros[..count]);
}
