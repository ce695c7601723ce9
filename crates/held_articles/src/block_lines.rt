// Lines that a block can have.
ghost use Rattle.std.specs.Prelude.{◌≡◌, [], ◌∷◌, ◌++◌, length, All, OnOk, OnErr};
ghost use Rattle.dot_blocks.specs.Blocks.{HoldsNoLineEnd, IsBlock, stuffed};

use dot_blocks::stuff;
use lists::{Bytes, Lines, Memory};
use std::alloc::Global;
use std::marker::Model;

/// Lines that a multi-line block can have: CR followed by LF stands in none of them (RFC 3977, 3.1.1). Contracts see a list of
/// byte lists.
#[derive(Drop)]
pub struct BlockLines {
    lines: Lines,
}

impl Model for BlockLines {
    ghost use Rattle.std.specs.Prelude.{List, ℕ, All};
    ghost use Rattle.dot_blocks.specs.Blocks.{HoldsNoLineEnd};

    ghost Value = { List (List ℕ) };

    ghost view = { λ block. block.lines };

    ghost invariant = { λ block. All HoldsNoLineEnd block.lines };
}

impl BlockLines {
    /// No line. It takes no memory yet.
    pub fn new(alloc: Global) -> Self
        ensures { result ≡ [] }
    {
        BlockLines {
            lines: Lines::new(alloc),
        }
    }

    /// These lines.
    pub fn from_lines(lines: Lines) -> Self
        requires { All HoldsNoLineEnd lines }
        ensures { result ≡ lines }
    {
        BlockLines { lines }
    }

    /// The lines, in order.
    pub fn as_lines(&self) -> &Lines
        ensures lines { result.now ≡ self.now }
        ensures rule { All HoldsNoLineEnd self.now }
    {
        &self.lines
    }

    /// Appends a line, or changes nothing.
    pub fn push(&mut self, line: &[u8]) -> Result<(), Memory>
        requires { HoldsNoLineEnd line.now }
        ensures ok { OnOk result (self.new ≡ self.old ++ line.now ∷ []) }
        ensures err { OnErr result (self.new ≡ self.old) }
    {
        self.lines.push(line)
    }

    /// Appends the block of the lines (RFC 3977, 3.1.1), or changes nothing.
    pub fn stuff(&self, out: &mut Bytes) -> Result<(), Memory>
        ensures ok { OnOk result (out.new ≡ out.old ++ stuffed self.now) }
        ensures err { OnErr result (out.new ≡ out.old) }
        ensures block { IsBlock self.now (stuffed self.now) }
    {
        stuff(&self.lines, out)
    }
}
