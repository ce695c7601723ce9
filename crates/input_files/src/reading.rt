// Reading a file, or a part of it.
ghost use Rattle.std.specs.Prelude.{◌≡◌, ◌≤◌, ◌<◌, ◌+◌, ◌^◌, length, OnOk, IfOk, IsSomeAnd};
ghost use Rattle.input_files.specs.Reading.{reading, IsFileAt, IsPiece, IsReadOrOpen, ReadEnds, PieceEnds};

use io_traits::{Failed, Input};
use lists::{Bytes, Memory};
use std::alloc::Global;

// How many bytes are asked of the input at once.
const PIECE: usize = 65_536;

/// Why a file, or a part of it, was not read.
#[derive(Clone, Copy, Debug, PartialEq, Eq)]
pub enum ReadError {
    /// No memory was left.
    Memory,
    /// A call on the input failed.
    Fault,
    /// A read gave no byte at this place, below the file's length.
    Short(u64),
    /// The file has more bytes than are read.
    TooLong,
}

/// Reads the file at a path, of at most `most` bytes, to the length that its opening answers.
pub fn read_file<I: Input>(
    alloc: Global,
    path: &str,
    most: u64,
    input: &mut I,
) -> Result<Bytes, ReadError>
    requires { most < 2 ^ 62 }
    ensures content { IfOk result (IsFileAt path.now (I.files input.old)) }
    ensures files { I.files input.new ≡ I.files input.old }
    ensures ends { ReadEnds most (IsReadOrOpen path.now) (reading I.Input input.old input.new) result }
{
    let Ok(len) = input.open(path) else {
        return Err(ReadError::Fault);
    };
    if len > most {
        return Err(ReadError::TooLong);
    }
    read_part(alloc, 0, len as usize, input)
}

/// Reads so many bytes of the current file, from a place on, counted from 0.
pub fn read_part<I: Input>(
    alloc: Global,
    place: u64,
    len: usize,
    input: &mut I,
) -> Result<Bytes, ReadError>
    requires inside { IsSomeAnd (I.current input.old) (λ size. place + len ≤ size) }
    requires most { place + len < 2 ^ 62 }
    ensures piece { IfOk result (IsPiece (I.content input.old) place) }
    ensures length { IfOk result (λ bytes. length bytes ≡ len) }
    ensures current { I.current input.new ≡ I.current input.old }
    ensures files { I.files input.new ≡ I.files input.old }
    ensures ends { PieceEnds place len (reading I.Input input.old input.new) result }
{
    let mut bytes = Bytes::new(alloc);
    match read_part_into(place, len, input, &mut bytes) {
        Ok(()) => Ok(bytes),
        Err(error) => Err(error),
    }
}

/// Reads so many bytes of the current file, from a place on, counted from 0, into a list whose bytes are dropped before. Its
/// room serves again, so that parts that are read one after another take no memory but the first. After an error the list
/// may hold anything.
pub fn read_part_into<I: Input>(
    place: u64,
    len: usize,
    input: &mut I,
    bytes: &mut Bytes,
) -> Result<(), ReadError>
    requires inside { IsSomeAnd (I.current input.old) (λ size. place + len ≤ size) }
    requires most { place + len < 2 ^ 62 }
    ensures piece { OnOk result (IsPiece (I.content input.old) place bytes.new) }
    ensures length { OnOk result (length bytes.new ≡ len) }
    ensures current { I.current input.new ≡ I.current input.old }
    ensures files { I.files input.new ≡ I.files input.old }
    ensures content { I.content input.new ≡ I.content input.old }
    ensures ends { PieceEnds place len (reading I.Input input.old input.new) result }
{
    bytes.clear();
    let Ok(()) = bytes.reserve(len) else {
        return Err(ReadError::Memory);
    };
    let mut buffer = [0; PIECE];
    while bytes.len() < len {
        read_piece(place, len, input, bytes, &mut buffer)?;
    }
    Ok(())
}

// Reads the next bytes of a part, through a buffer.
fn read_piece<I: Input>(
    place: u64,
    len: usize,
    input: &mut I,
    bytes: &mut Bytes,
    buffer: &mut [u8; PIECE],
) -> Result<(), ReadError>
    requires inside { IsSomeAnd (I.current input.old) (λ size. place + len ≤ size) }
    requires most { place + len < 2 ^ 62 }
    requires less { length bytes.old < len }
    ensures piece { OnOk result (IsPiece (I.content input.old) place bytes.old → IsPiece (I.content input.old) place bytes.new) }
    ensures more { OnOk result (length bytes.old < length bytes.new) }
    ensures most { OnOk result (length bytes.new ≤ len) }
    ensures current { I.current input.new ≡ I.current input.old }
    ensures files { I.files input.new ≡ I.files input.old }
    ensures content { I.content input.new ≡ I.content input.old }
    ensures ends { PieceEnds place len (reading I.Input input.old input.new) result }
{
    let at = bytes.len();
    let room = (len - at).min(PIECE);
    let piece = &mut buffer[..room];
    let next = place + at as u64;
    match input.read_at(next, piece) {
        Ok(0) => Err(ReadError::Short(next)),
        Ok(n) => match bytes.extend(&piece[..n]) {
            Ok(()) => Ok(()),
            Err(Memory) => Err(ReadError::Memory),
        },
        Err(Failed) => Err(ReadError::Fault),
    }
}
