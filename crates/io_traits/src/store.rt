// Where files are written to.
ghost use Rattle.std.specs.Prelude.{◌≡◌, ℕ, Bool, List, length, Option, IsTrue, OnOk, is_err};
ghost use Rattle.io_traits.specs.Causes.{HasCause, BlamesNamed, blame_after};
ghost use Rattle.io_traits.specs.Store.{Shelf, LeavesMade, LeavesChanged, is_created, Creates, HoldsNamed, Keeps, written_at, resized};

use crate::Failed;

/// Files that are written, by numbers that the caller gives them.
pub trait Store {
    ghost use Rattle.io_traits.specs.declared.blame.Blame.{Blame};

    /// A count that rises at each call that fails, up to the greatest `u64`.
    ghost faults: { Self → ℕ };

    /// The numbers of the files that were created.
    ghost created: { Self → List ℕ };

    /// Whether the last call failed.
    ghost last_failed: { Self → Bool };

    /// The files by their numbers, where they are told.
    ghost told: { Self → Option Shelf };

    /// The last call that failed, where that is told.
    ghost blame: { Self → Option (Option Blame) };

    /// Makes the file of this number, with this name and no byte, also in place of an earlier one of that number. After
    /// `Failed` it counts as not created.
    fn create(&mut self, file: u32, name: &str) -> Result<(), Failed>
        // A failed call has raised the count of faults, and no other has. Whether it failed can be seen afterwards.
        ensures cause { HasCause (faults self.old) (faults self.new) result }
        ensures blame { BlamesNamed (blame self.old) (blame self.new) (Blame.Create file name.now) result }
        ensures last { last_failed self.new ≡ is_err result }

        // The file is there with its name and no byte, or after `Failed` isn't there. The others are as they were.
        ensures created { Creates (created self.old) (created self.new) file result }
        ensures told { LeavesMade (told self.old) (told self.new) file name.now result };

    /// Takes over the file of this number, which is there under this name, with the bytes that it has. `Failed` where there is
    /// none.
    fn keep(&mut self, file: u32, name: &str) -> Result<(), Failed>
        // A failed call has raised the count of faults, and no other has. Whether it failed can be seen afterwards.
        ensures cause { HasCause (faults self.old) (faults self.new) result }
        ensures blame { BlamesNamed (blame self.old) (blame self.new) (Blame.Keep file name.now) result }
        ensures last { last_failed self.new ≡ is_err result }

        // A file that was kept counts as created. All files are as they were, and one of that number and name is there.
        ensures created { Keeps (created self.old) (created self.new) file result }
        ensures told { told self.new ≡ told self.old }
        ensures held { OnOk result (HoldsNamed (told self.old) file name.now) };

    /// Writes a piece at a place, counted from 0, with zeros in a gap before it. After `Failed` the file may hold any
    /// bytes.
    fn write_at(&mut self, file: u32, pos: u64, bytes: &[u8]) -> Result<(), Failed>
        requires created { IsTrue (is_created (created self.old) file) }

        // A failed call has raised the count of faults, and no other has. Whether it failed can be seen afterwards.
        ensures cause { HasCause (faults self.old) (faults self.new) result }
        ensures blame { blame self.new ≡ blame_after (blame self.old) (Blame.Write file pos (length bytes.now)) result }
        ensures last { last_failed self.new ≡ is_err result }

        // The file has its name and the changed bytes, or after `Failed` any bytes. The others are as they were.
        ensures created { created self.new ≡ created self.old }
        ensures told { LeavesChanged (told self.old) (told self.new) file (written_at pos bytes.now) result };

    /// Cuts a file to a length in bytes, or fills it up with zeros. After `Failed` the file may hold any bytes.
    fn set_len(&mut self, file: u32, len: u64) -> Result<(), Failed>
        requires created { IsTrue (is_created (created self.old) file) }

        // A failed call has raised the count of faults, and no other has. Whether it failed can be seen afterwards.
        ensures cause { HasCause (faults self.old) (faults self.new) result }
        ensures blame { blame self.new ≡ blame_after (blame self.old) (Blame.SetLen file len) result }
        ensures last { last_failed self.new ≡ is_err result }

        // The file has its name and the changed bytes, or after `Failed` any bytes. The others are as they were.
        ensures created { created self.new ≡ created self.old }
        ensures told { LeavesChanged (told self.old) (told self.new) file (resized len) result };
}
