// Where text is written to.
ghost use Rattle.std.specs.Prelude.{◌≡◌, ◌≤◌, ◌<◌, ℕ, List, length, Option, IfOk};
ghost use Rattle.io_traits.specs.Causes.{HasCause};
ghost use Rattle.io_traits.specs.Sink.{told_after};

use crate::Failed;

/// A sink of bytes.
pub trait Sink {
    /// A count that rises at each write that fails, up to the greatest `u64`.
    ghost faults: { Self → ℕ };

    /// All that was written, where it is told.
    ghost told: { Self → Option (List ℕ) };

    /// Writes a front of the piece, and answers how many bytes: at least 1, unless the piece is empty.
    fn write(&mut self, bytes: &[u8]) -> Result<usize, Failed>
        // A failed write has raised the count of faults, and no other has.
        ensures cause { HasCause (faults self.old) (faults self.new) result }

        ensures bound { IfOk result (λ n. n ≤ length bytes.now) }
        ensures some { IfOk result (λ n. 0 < length bytes.now → 0 < n) }

        // What was written goes on by as many bytes as the answer says, and after a failure by none.
        ensures told { told self.new ≡ told_after (told self.old) bytes.now result };
}
