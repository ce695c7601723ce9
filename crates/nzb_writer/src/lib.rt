//! The index that an NZB text lists (NZB 1.1), the grammar of the text, and how it is written.
#![tactic(auto)]

mod index;
mod write;

pub use index::{FileEntry, Index, Meta, Segment};
pub use write::write_nzb;
