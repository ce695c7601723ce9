// The end of each line of a block, and of the block, in bytes that come in pieces.
ghost use Rattle.std.specs.Prelude.{◌≡◌, ◌<◌, ◌≤◌, ◌++◌, [], ◌∷◌, List, ℕ, length, take, IfSome, IfNone, IsTrue, ◌↔◌};
ghost use Rattle.dot_blocks.specs.Blocks.{HoldsNoLineEnd};
ghost use Rattle.dot_blocks.specs.Heard.{IsAt, HasFramed, StepsOver, IsEnded};

use crate::line_end::line_len;
use crate::place::Place;
use std::marker::Model;

/// What the bytes did that a step used.
#[derive(Clone, Copy, Debug, PartialEq, Eq)]
pub enum Frame {
    /// They were all there were, and neither a line nor the block ended.
    More,
    /// A line ended with the last of them.
    LineEnd,
    /// The block ended with the last of them.
    End,
}

/// Finds the ends of lines and of the block, however the bytes are cut into pieces (RFC 3977, section 3.1.1). It holds no
/// memory.
///
/// Contracts see where the line stands that has begun, which `HasFramed` ties to the bytes heard of the block so far.
#[derive(Clone, Copy, Debug, PartialEq, Eq)]
pub struct Framer {
    place: Place,
}

impl Model for Framer {
    ghost use Rattle.dot_blocks.specs.declared.place.Place.{Place};

    ghost Value = { Place };

    ghost view = { λ framer. framer.place };

    ghost inverse = { λ place. record { place = place } };
}

impl Framer {
    /// Stands before a block.
    pub fn new() -> Self
        ensures { HasFramed result [] [] [] }
    {
        Framer {
            place: Place::Start,
        }
    }

    /// Uses bytes up to and with the LF of the first CRLF that ends a line, or the block, and answers how many, and what
    /// they did. Where none does, it uses them all. After `End` it stands before another block.
    pub fn step(&mut self, bytes: &[u8]) -> (usize, Frame)
        ensures used { result.0 ≤ length bytes.now }
        ensures some { 0 < length bytes.now → 0 < result.0 }
        ensures more { result.1 ≡ Frame.More → result.0 ≡ length bytes.now }
        ensures steps { (heard : List ℕ) (lines : List (List ℕ)) (begun : List ℕ) →
            HasFramed self.old heard lines begun →
            StepsOver self.new heard lines begun (take result.0 bytes.now) result.1 }
    {
        let place = self.place;
        match end_in(place, bytes) {
            None => {
                self.place = place.after(bytes);
                (bytes.len(), Frame::More)
            }
            Some(used) => {
                self.place = Place::Start;
                if is_dot_line(place, &bytes[..used]) {
                    (used, Frame::End)
                } else {
                    (used, Frame::LineEnd)
                }
            }
        }
    }
}

impl Default for Framer {
    ghost is_default = { λ framer. HasFramed framer [] [] [] };

    fn default() -> Self {
        Framer::new()
    }
}

// How many of the bytes there are up to and with the CRLF of the line that has begun, where they have it.
fn end_in(place: Place, bytes: &[u8]) -> Option<usize>
    ensures inside { IfSome result (λ used. (0 < used) × (used ≤ length bytes.now)) }
    ensures some { IfSome result (λ used. (begun : List ℕ) → IsAt place begun → HoldsNoLineEnd begun →
        IsEnded (begun ++ take used bytes.now)) }
    ensures none { IfNone result ((begun : List ℕ) → IsAt place begun → HoldsNoLineEnd begun →
        HoldsNoLineEnd (begun ++ bytes.now)) }
{
    if place.is_returned() && !bytes.is_empty() && bytes[0] == b'\n' {
        return Some(1);
    }
    match line_len(bytes) {
        Some(len) => Some(len + 2),
        None => None,
    }
}

// Whether the line is a dot alone, with its CRLF, once its last bytes have come.
fn is_dot_line(place: Place, bytes: &[u8]) -> bool
    ensures { (begun : List ℕ) → IsAt place begun → HoldsNoLineEnd begun → IsEnded (begun ++ bytes.now) →
        (IsTrue result ↔ (begun ++ bytes.now ≡ 46 ∷ 13 ∷ 10 ∷ [])) }
{
    match place {
        Place::Start => bytes.len() == 3 && bytes[0] == b'.',
        Place::Dot => bytes.len() == 2,
        Place::DotReturn => bytes.len() == 1,
        Place::Return | Place::Middle => false,
    }
}
