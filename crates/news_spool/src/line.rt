// Lines as they come.
ghost use Rattle.std.specs.Prelude.{◌≡◌, [], ◌∷◌, ◌++◌, if◌then◌else◌, IfOk};
ghost use Rattle.dot_blocks.specs.Blocks.{HoldsNoLineEnd};
ghost use Rattle.news_spool.specs.Lines.{is_whole, without_end};

use lists::{Bytes, Memory};
use std::alloc::Global;
use std::marker::Model;

/// What has come of a line, which CRLF ends (RFC 3977, 3.1). Contracts see the list of its bytes.
#[derive(Drop)]
pub(crate) struct BegunLine {
    bytes: Bytes,
}

impl Model for BegunLine {
    ghost use Rattle.std.specs.Prelude.{List, ℕ};
    ghost use Rattle.dot_blocks.specs.Blocks.{HoldsNoLineEnd};

    ghost Value = { List ℕ };

    ghost view = { λ line. line.bytes };

    ghost invariant = { λ line. HoldsNoLineEnd line.bytes };
}

impl BegunLine {
    // Nothing. It takes no memory yet.
    pub(crate) fn new(alloc: Global) -> Self
        ensures { result ≡ [] }
    {
        BegunLine {
            bytes: Bytes::new(alloc),
        }
    }

    // All bytes, in order.
    pub(crate) fn as_slice(&self) -> &[u8]
        ensures bytes { result.now ≡ self.now }
        ensures rule { HoldsNoLineEnd self.now }
    {
        self.bytes.as_slice()
    }

    // Begins the next line.
    pub(crate) fn clear(&mut self)
        ensures { self.new ≡ [] }
    {
        self.bytes.clear();
    }

    // One byte more. Answers whether it ends the line, which is then left without its CRLF.
    #[tactic(auto, using(crate::proofs::LineEnds::goes_on, crate::proofs::LineEnds::cut))]
    pub(crate) fn push(&mut self, byte: u8) -> Result<bool, Memory>
        ensures whole { IfOk result (λ ended. ended ≡ is_whole (self.old ++ byte ∷ [])) }
        ensures line { IfOk result (λ ended. self.new ≡ (if ended then without_end (self.old ++ byte ∷ []) else self.old ++ byte ∷ [])) }
    {
        self.bytes.push(byte)?;
        if !self.bytes.as_slice().ends_with(b"\r\n") {
            return Ok(false);
        }
        let end = self.bytes.len() - 2;
        self.bytes.truncate(end);
        Ok(true)
    }
}
