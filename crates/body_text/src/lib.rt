//! The body in a saved text (yEnc draft 1.3), decoded in the text's own memory.
#![tactic(auto)]

mod data_line;
mod decoding;
mod line_ends;
mod opening;

pub use decoding::decode_text;
