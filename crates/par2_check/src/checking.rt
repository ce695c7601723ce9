// A check under way.
ghost use Rattle.std.specs.Prelude.{◌≡◌, ◌≤◌, ◌<◌, ◌+◌, ℕ, List, length, min, OnOk, IfOk, IfSome, IsSomeAnd, IsTrue, ◌↔◌};
ghost use Rattle.input_files.specs.Reading.{reading};
ghost use Rattle.par2_check.specs.Bodies.{slice_count};
ghost use Rattle.par2_check.specs.Checking.{CheckEnds, IsCounted, IsNextPiece, Knows};
ghost use Rattle.par2_check.specs.Damage.{IsChecked};
ghost use Rattle.par2_check.specs.declared.set.ParFile.{ParFile as File};

use crate::check::{CheckError, Checked};
use crate::set::ParFile;
use crate::slices::Slices;
use io_traits::{Failed, Input};
use lists::Memory;
use md5::{Digest, Md5};
use std::alloc::Global;

// How many bytes are asked of the input at once.
const PIECE: usize = 65_536;

/// What is known of a file after its first bytes.
#[derive(Drop)]
pub struct Checking {
    /// Its slices.
    pub slices: Slices,
    /// All its bytes.
    pub whole: Md5,
}

impl Checking {
    /// No byte came.
    pub fn new(alloc: Global) -> Checking
        ensures counted { (slice : ℕ) → 0 < slice → IsCounted slice result.slices }
        ensures taken { result.slices.taken ≡ 0 }
        ensures knows { (slice : ℕ) (file : File) (content : List ℕ) → Knows slice file result content }
    {
        Checking {
            slices: Slices::new(alloc),
            whole: Md5::new(),
        }
    }

    /// Reads so many bytes of the current file, from its first one on.
    pub fn read<I: Input>(
        &mut self,
        slice: u64,
        file: &ParFile,
        end: u64,
        input: &mut I,
    ) -> Result<(), CheckError>
        requires counted { IsCounted slice self.old.slices }
        requires less { self.old.slices.taken ≤ end }
        requires inside { IsSomeAnd (I.current input.old) (λ len. end ≤ len) }
        requires most { end ≤ file.now.size }
        requires entries { length file.now.slices ≡ slice_count slice file.now.size }
        ensures counted { OnOk result (IsCounted slice self.new.slices) }
        ensures all { OnOk result (self.new.slices.taken ≡ end) }
        ensures knows { OnOk result (IfSome (I.content input.old) (Knows slice file.now self.old) → IfSome (I.content input.old) (Knows slice file.now self.new)) }
        ensures current { I.current input.new ≡ I.current input.old }
        ensures files { I.files input.new ≡ I.files input.old }
        ensures content { I.content input.new ≡ I.content input.old }
        ensures ends { CheckEnds end (reading I.Input input.old input.new) result }
    {
        let mut buffer = [0; PIECE];
        while self.slices.taken < end {
            self.read_piece(slice, file, end, input, &mut buffer)?;
        }
        Ok(())
    }

    // Reads the next bytes, through a buffer.
    fn read_piece<I: Input>(
        &mut self,
        slice: u64,
        file: &ParFile,
        end: u64,
        input: &mut I,
        buffer: &mut [u8; PIECE],
    ) -> Result<(), CheckError>
        requires counted { IsCounted slice self.old.slices }
        requires less { self.old.slices.taken < end }
        requires inside { IsSomeAnd (I.current input.old) (λ len. end ≤ len) }
        requires most { end ≤ file.now.size }
        requires entries { length file.now.slices ≡ slice_count slice file.now.size }
        ensures counted { OnOk result (IsCounted slice self.new.slices) }
        ensures more { OnOk result (self.old.slices.taken < self.new.slices.taken) }
        ensures most { OnOk result (self.new.slices.taken ≤ end) }
        ensures knows { OnOk result (IfSome (I.content input.old) (Knows slice file.now self.old) → IfSome (I.content input.old) (Knows slice file.now self.new)) }
        ensures current { I.current input.new ≡ I.current input.old }
        ensures files { I.files input.new ≡ I.files input.old }
        ensures content { I.content input.new ≡ I.content input.old }
        ensures ends { CheckEnds end (reading I.Input input.old input.new) result }
    {
        let place = self.slices.taken;
        let room = (end - place).min(PIECE as u64) as usize;
        let piece = &mut buffer[..room];
        match input.read_at(place, piece) {
            Ok(0) => Err(CheckError::Short(place)),
            Ok(n) => match self.take(slice, file, &piece[..n]) {
                Ok(()) => Ok(()),
                Err(Memory) => Err(CheckError::Memory),
            },
            Err(Failed) => Err(CheckError::Input),
        }
    }

    // Takes the next bytes.
    fn take(&mut self, slice: u64, file: &ParFile, piece: &[u8]) -> Result<(), Memory>
        requires counted { IsCounted slice self.old.slices }
        requires fits { self.old.slices.taken + length piece.now ≤ file.now.size }
        requires entries { length file.now.slices ≡ slice_count slice file.now.size }
        ensures counted { OnOk result (IsCounted slice self.new.slices) }
        ensures taken { OnOk result (self.new.slices.taken ≡ self.old.slices.taken + length piece.now) }
        ensures knows { OnOk result ((content : List ℕ) → IsNextPiece content self.old.slices.taken piece.now → Knows slice file.now self.old content → Knows slice file.now self.new content) }
    {
        self.whole.update(piece);
        self.slices.take(slice, file, piece)
    }

    /// Judges contents of so many bytes, of which all came that the file has.
    pub fn judge(self, slice: u64, file: &ParFile, len: u64) -> Result<Checked, Memory>
        requires counted { IsCounted slice self.slices }
        requires all { self.slices.taken ≡ min len file.now.size }
        requires entries { length file.now.slices ≡ slice_count slice file.now.size }
        ensures { IfOk result (λ checked. (content : List ℕ) → length content ≡ len → Knows slice file.now self content → IsChecked slice file.now content checked) }
    {
        let Checking { slices, whole } = self;
        let mut slices = slices;
        let digest = whole.finalize();
        if len < file.size {
            slices.lose(file)?;
            return Ok(Checked {
                damaged: slices.damaged,
                whole: false,
            });
        }
        slices.finish(slice, file)?;
        Ok(Checked {
            damaged: slices.damaged,
            whole: is_whole(file, len, &digest),
        })
    }
}

// Whether a file has this length and this MD5.
fn is_whole(file: &ParFile, len: u64, digest: &[u8; 16]) -> bool
    ensures { IsTrue result ↔ ((len ≡ file.now.size) × (digest.now ≡ file.now.md5)) }
{
    len == file.size && *digest == file.md5
}
