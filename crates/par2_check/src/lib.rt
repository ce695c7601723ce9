//! Which slices of a file are damaged, by the packets of a PAR 2.0 text.
#![tactic(auto)]

mod bodies;
mod check;
mod checking;
mod fields;
mod firsts;
mod laws;
mod packets;
mod runs;
mod set;
mod slices;

pub use check::{CheckError, Checked, check_file};
pub use laws::{one_list_of_packets, one_list_of_runs, one_set_or_none};
pub use set::{ParError, ParFile, ParSet, read_par};
