//! Reading files of an input, whole or a part of them.
#![tactic(auto)]

mod reading;

pub use reading::{ReadError, read_file, read_part, read_part_into};
