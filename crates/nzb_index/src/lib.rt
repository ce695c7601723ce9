//! The index of an NZB text (NZB 1.1), read with the reason that a text is refused for. What `nzb_writer` has is reachable here too.
#![tactic(auto)]

mod elements;
mod entries;
mod error;
mod laws;
mod pieces;
mod read;
mod references;
mod scan;
mod tags;

pub use error::{NzbError, NzbLimit, NzbReason};
pub use laws::{
    index_is_valid, known_first, nzb_reads_back, one_answer, reasons_are_had, reasons_are_told,
};
pub use nzb_writer::{FileEntry, Index, Meta, Segment, write_nzb};
pub use read::read_nzb;
