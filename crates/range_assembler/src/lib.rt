//! The ranges of a file's parts: which are held, which are accepted, and which offsets are missing.
#![tactic(auto)]

mod accepted;
mod assembler;
mod gap_list;
mod order;
mod scans;
mod sequence;

pub use assembler::{Assembler, Clash, Entry, Hold, OtherSize};
