// The lines of a whole block.
ghost use Rattle.std.specs.Prelude.{◌≡◌, ◌≢◌, [], ◌∷◌, ◌++◌, ℕ, List, All, IfOk, IfErr, IsTrue, ◌↔◌};
ghost use Rattle.dot_blocks.specs.Blocks.{HoldsNoLineEnd, IsBlock, IsNoBlockFor, IsWireForm, Splits};

use crate::line_end::line_len;
use lists::{Lines, Memory};
use std::alloc::Global;

/// Why bytes aren't split into the lines of a block.
#[derive(Clone, Copy, Debug, PartialEq, Eq)]
pub enum BlockError {
    /// No memory was left.
    Memory,
    /// No block stands at their front.
    Unfinished,
    /// A block of so many bytes stands at their front, and more bytes follow it.
    Rest(usize),
}

impl From<Memory> for BlockError {
    ghost use Rattle.dot_blocks.specs.declared.split.BlockError.TheVariants as errors;

    ghost from_gives = { λ _ error. error ≡ errors.Memory };

    fn from(_: Memory) -> Self {
        BlockError::Memory
    }
}

/// The lines of a block, without the dots that were put before them (RFC 3977, section 3.1.1). Only CR followed by LF ends
/// a line: a NUL, a lone CR and a lone LF are content. The bytes are `Unfinished` where no block stands at their front, and
/// have a `Rest` where more follows the block, unless memory is wanting.
pub fn split_block(alloc: Global, block: &[u8]) -> Result<Lines, BlockError>
    ensures lines { IfOk result (λ lines. IsBlock lines block.now) }
    ensures each_line { IfOk result (All HoldsNoLineEnd) }
    ensures refused { IfErr result (IsNoBlockFor block.now) }

    // No block is refused but for memory, and none at the front is missed.
    ensures each_block { (lines : List (List ℕ)) (front rest : List ℕ) → IsBlock lines front →
        block.now ≡ front ++ rest → Splits lines front rest result }
{
    let mut lines = Lines::new(alloc);
    lines.reserve_bytes(block.len())?;
    let mut at = 0;
    while let Some(len) = line_len(&block[at..]) {
        let wire = &block[at..at + len];
        at += len + 2;
        if is_dot(wire) {
            return if at == block.len() {
                Ok(lines)
            } else {
                Err(BlockError::Rest(at))
            };
        }
        lines.push(without_dot(wire))?;
    }
    Err(BlockError::Unfinished)
}

fn is_dot(wire: &[u8]) -> bool
    ensures { IsTrue result ↔ (wire.now ≡ 46 ∷ []) }
{
    wire.len() == 1 && wire[0] == b'.'
}

// A line without the dot at its front, if it has one.
fn without_dot(wire: &[u8]) -> &[u8]
    ensures { HoldsNoLineEnd wire.now → wire.now ≢ 46 ∷ [] → IsWireForm result.now wire.now }
{
    if !wire.is_empty() && wire[0] == b'.' {
        &wire[1..]
    } else {
        wire
    }
}
