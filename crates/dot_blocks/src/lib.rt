//! Multi-line data blocks (RFC 3977, section 3.1.1): lines put into a block, the end of a block found in bytes that come in
//! pieces, and a whole block split into its lines.
#![tactic(auto)]

mod framer;
mod laws;
mod line_end;
mod place;
mod split;
mod stuffing;

pub use framer::{Frame, Framer};
pub use laws::{
    block_or_heard, each_block_is_read, no_block_begins_another, one_list_of_lines,
    stuffed_is_block,
};
pub use line_end::line_len;
pub use split::{BlockError, split_block};
pub use stuffing::stuff;
