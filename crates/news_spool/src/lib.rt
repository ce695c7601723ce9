//! The servers in memory (RFC 3977, and RFC 4643 for the login): links on which they answer by the articles that they
//! hold, for tests and for a rehearsal.
#![tactic(auto)]

mod body;
mod command;
mod count;
mod error;
mod group;
mod laws;
mod line;
mod link_state;
mod overview;
mod owed;
mod pieces;
mod plan;
mod range;
mod reply;
mod spool;
mod talk;

pub use error::SpoolError;
pub use laws::{group_line_says_counts, overview_is_one_line};
pub use plan::{SpoolLink, SpoolPlan, SpoolServer};
pub use spool::Spool;
