// Where files are read from.
ghost use Rattle.std.specs.Prelude.{◌≡◌, ◌≤◌, ◌<◌, ℕ, List, length, Option, IfOk, IsSomeAnd};
ghost use Rattle.io_traits.specs.Causes.{HasCause, BlamesNamed, blame_after};
ghost use Rattle.io_traits.specs.Input.{Opens, OpensFile, GivesAt, CountsShorts};

use crate::Failed;

/// A source of files by name. One file at a time is the current one.
pub trait Input {
    ghost use Rattle.io_traits.specs.declared.blame.Blame.{Blame};

    /// A count that rises at each call that fails, up to the greatest `u64`.
    ghost faults: { Self → ℕ };

    /// A count that rises at each read that gives no byte, up to the greatest `u64`.
    ghost shorts: { Self → ℕ };

    /// The place of the last read that gave no byte.
    ghost short_place: { Self → ℕ };

    /// The length of the current file, where there is one.
    ghost current: { Self → Option ℕ };

    /// The bytes of the current file, where the files are told.
    ghost content: { Self → Option (List ℕ) };

    /// The names and bytes of all files, where they are told.
    ghost files: { Self → Option (List (List ℕ × List ℕ)) };

    /// The last call that failed, where that is told.
    ghost blame: { Self → Option (Option Blame) };

    /// Makes the named file the current one, and answers its length in bytes. After `Failed` no file is.
    fn open(&mut self, name: &str) -> Result<u64, Failed>
        // A failed opening has raised the count of faults, and no other has.
        ensures cause { HasCause (faults self.old) (faults self.new) result }
        ensures blame { BlamesNamed (blame self.old) (blame self.new) (Blame.Open name.now) result }

        // The current file is the named one, with its length and its bytes.
        ensures current { Opens (current self.new) result }
        ensures content { OpensFile name.now (files self.old) (content self.new) result }

        // An opening changes no file, and is no read.
        ensures files { files self.new ≡ files self.old }
        ensures shorts { shorts self.new ≡ shorts self.old }
        ensures short_place { short_place self.new ≡ short_place self.old };

    /// Reads the current file's bytes from the place `pos`, counted from 0, to the front of a buffer, and answers how
    /// many. 0 says that the file has no byte there any more. Behind those bytes the buffer may hold anything, and after
    /// `Failed` all of it.
    fn read_at(&mut self, pos: u64, buf: &mut [u8]) -> Result<usize, Failed>
        requires inside { IsSomeAnd (current self.old) (λ len. pos < len) }
        requires room { 0 < length buf.old }

        // A failed read has raised the count of faults, and no other has.
        ensures cause { HasCause (faults self.old) (faults self.new) result }
        ensures blame { blame self.new ≡ blame_after (blame self.old) (Blame.Read pos) result }

        // The buffer begins with bytes of the file, at least one where the content is told.
        ensures bound { IfOk result (λ n. n ≤ length buf.old) }
        ensures bytes { IfOk result (GivesAt (content self.old) pos buf.new) }

        // A read that gave no byte is counted, and its place is kept.
        ensures shorts { CountsShorts (shorts self.old) (shorts self.new) (short_place self.old) (short_place self.new) pos result }

        // A read changes no file, and which one is current.
        ensures current { current self.new ≡ current self.old }
        ensures content { content self.new ≡ content self.old }
        ensures files { files self.new ≡ files self.old };
}
