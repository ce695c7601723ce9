//! What the overview of a newsgroup says of its articles (RFC 3977, 8.3): the lines, the counts in subjects, and dates.
#![tactic(auto)]

mod count;
mod date;
mod date_parts;
mod laws;
mod over;

pub use count::{Count, count_of};
pub use date::read_date;
pub use laws::{one_date, one_last_count, over_or_fault};
pub use over::{OverFault, OverLine, read_over};
