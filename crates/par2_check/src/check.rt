// A file, checked against its slices.
ghost use Rattle.std.specs.Prelude.{◌≡◌, length, true, Some, IfOk, IfSome};
ghost use Rattle.input_files.specs.Reading.{reading};
ghost use Rattle.par2_check.specs.Bodies.{is_slice_size, slice_count};
ghost use Rattle.par2_check.specs.Checking.{CheckEnds};
ghost use Rattle.par2_check.specs.Damage.{IsChecked};

use crate::checking::Checking;
use crate::set::ParFile;
use io_traits::Input;
use lists::{List, Memory};
use std::alloc::Global;

/// Why a file isn't checked.
#[derive(Clone, Copy, Debug, PartialEq, Eq)]
pub enum CheckError {
    /// No memory was left.
    Memory,
    /// A call on the input failed.
    Input,
    /// A read gave no byte at this place, below the file's length.
    Short(u64),
}

/// What is found of a file.
#[derive(Drop)]
pub struct Checked {
    /// The damaged slices, counted from 1, as the first and the last of each run, ascending.
    pub damaged: List<(u64, u64)>,
    /// Whether the file has the length and the MD5 that it should have.
    pub whole: bool,
}

/// Checks the current file of an input, which has `len` bytes, against a file of a set. It is read once, and what stands behind
/// the length that it should have isn't read.
pub fn check_file<I: Input>(
    alloc: Global,
    slice: u64,
    file: &ParFile,
    len: u64,
    input: &mut I,
) -> Result<Checked, CheckError>
    requires slice { is_slice_size slice ≡ true }
    requires entries { length file.now.slices ≡ slice_count slice file.now.size }
    requires current { I.current input.old ≡ Some len }
    requires told { IfSome (I.content input.old) (λ content. length content ≡ len) }
    ensures checked { IfOk result (λ checked. IfSome (I.content input.old) (λ content. IsChecked slice file.now content checked)) }
    ensures current { I.current input.new ≡ I.current input.old }
    ensures files { I.files input.new ≡ I.files input.old }
    ensures content { I.content input.new ≡ I.content input.old }
    ensures ends { CheckEnds len (reading I.Input input.old input.new) result }
{
    let mut checking = Checking::new(alloc);
    let end = len.min(file.size);
    match checking.read(slice, file, end, input) {
        Ok(()) => match checking.judge(slice, file, len) {
            Ok(checked) => Ok(checked),
            Err(Memory) => Err(CheckError::Memory),
        },
        Err(error) => Err(error),
    }
}
