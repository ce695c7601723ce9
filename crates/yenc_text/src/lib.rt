//! The text of a yEnc body (yEnc draft 1.3) in pieces: what stands before the data lines, the data lines themselves, so many
//! at a time as a piece has room for, and the trailer. The pieces take no memory.
#![tactic(auto)]

mod around;
mod laws;
mod pieces;

pub use around::{closing_of, opening_of, push_closing, push_opening};
pub use laws::{each_part_has_text, text_of_three};
pub use pieces::{PIECE, fill_piece};
