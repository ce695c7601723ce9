//! The index of a newsgroup: its overview heard over one link, and the files that its articles are parts of.
#![tactic(auto)]

mod added;
mod adding;
mod asking;
mod draft;
mod grouper;
mod laws;
mod session;

pub use added::{Added, GroupError};
pub use grouper::Grouper;
pub use laws::one_index_of_lines;
pub use session::{IndexError, Indexed, run_index};
