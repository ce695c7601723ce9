// The block behind a status line, in pieces.
ghost use Rattle.std.specs.Prelude.{◌≡◌, ◌≤◌, ◌<◌, ◌++◌, ◌∷◌, [], ℕ, List, true, length, take, IfSome, IfNone};
ghost use Rattle.link_dialog.specs.Block.{IsInBlock, IsBlockOf, IsKept};
ghost use Rattle.limits.specs.declared.TheConstants.{MOST_TEXT_BYTES};

use dot_blocks::{Frame, Framer};
use limits::MOST_TEXT_BYTES;
use lists::{Bytes, Memory};

/// What a piece of a block did.
#[derive(Clone, Copy)]
pub(crate) enum BlockStep {
    /// The block goes on.
    More,
    /// It ended with the last of so many bytes.
    End(usize),
    /// The reply has too many bytes.
    TooLong,
}

/// What was heard of a block.
#[derive(Clone, Copy)]
pub(crate) struct BlockReader {
    framer: Framer,
    // How many bytes the reply has so far, its status line with them.
    heard: usize,
    // Whether there was room for all bytes of the block so far.
    kept: bool,
    ghost within: { heard ≤ MOST_TEXT_BYTES },
}

impl BlockReader {
    ghost use Rattle.link_dialog.specs.BlockReader.{BlockSteps, BlockBegins, Grows};

    /// Stands before a block, behind a status line of so many bytes.
    pub(crate) fn new(line: usize) -> Self
        requires { line ≤ 512 }
        ensures { BlockBegins result line }
    {
        BlockReader {
            framer: Framer::new(),
            heard: line,
            kept: true,
        }
    }

    /// Whether there was room for all bytes.
    pub(crate) fn is_kept(&self) -> bool
        ensures { result ≡ self.now.kept }
    {
        self.kept
    }

    /// Takes a piece of what is heard, up to the end of the block, and appends it, or drops all where there is no room.
    pub(crate) fn step(&mut self, piece: &[u8], block: &mut Bytes) -> BlockStep
        ensures grows { Grows self.old self.new piece.now result }
        ensures steps { (heard : List ℕ) → BlockSteps self.old block.old self.new block.new heard piece.now result }
    {
        let room = MOST_TEXT_BYTES as usize - self.heard;
        let front = &piece[..piece.len().min(room)];
        match find_end(&mut self.framer, front) {
            Some(used) => {
                self.kept = keep(self.kept, &front[..used], block);
                self.heard += used;
                BlockStep::End(used)
            }
            None => {
                self.kept = keep(self.kept, front, block);
                self.heard += front.len();
                if front.len() < piece.len() {
                    BlockStep::TooLong
                } else {
                    BlockStep::More
                }
            }
        }
    }
}

// How many bytes there are up to the end of the block, where they have it.
fn find_end(framer: &mut Framer, piece: &[u8]) -> Option<usize>
    ensures some { IfSome result (λ used. 0 < used) }
    ensures fits { IfSome result (λ used. used ≤ length piece.now) }
    ensures block { IfSome result (λ used. (heard : List ℕ) → IsInBlock framer.old heard → IsBlockOf (heard ++ take used piece.now)) }
    ensures more { IfNone result ((heard : List ℕ) → IsInBlock framer.old heard → IsInBlock framer.new (heard ++ piece.now)) }
{
    let mut at = 0;
    while at < piece.len() {
        let (used, frame) = framer.step(&piece[at..]);
        at += used;
        match frame {
            Frame::End => return Some(at),
            Frame::More => {}
            Frame::LineEnd => {}
        }
    }
    None
}

// Appends the bytes, and answers whether all were kept so far. Where there is no room, nothing is kept.
fn keep(kept: bool, bytes: &[u8], block: &mut Bytes) -> bool
    ensures { (heard : List ℕ) → IsKept kept block.old heard → IsKept result block.new (heard ++ bytes.now) }
{
    if !kept {
        return false;
    }
    match block.extend(bytes) {
        Ok(()) => true,
        Err(Memory) => {
            block.clear();
            false
        }
    }
}
