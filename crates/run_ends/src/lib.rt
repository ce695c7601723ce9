//! How a run of any command ends: the status of each end, and its line on standard error, which is also read back.
#![tactic(auto)]

mod end;
mod line;
mod printed;
mod reading;
mod reasons;
mod words;

pub use end::{End, Limit, ReplyFault, status};
pub use line::{LineBuffer, write_line};
pub use printed::put_code;
pub use reading::read_line;
