//! Who asks for what: which segment each link asks for next, and what has become of each segment.
#![tactic(auto)]

mod core_state;
mod laws;
mod link;
mod places;
mod scans;
mod segment;
mod state;

pub use core_state::Core;
pub use laws::{full_stays, lost_before_sent, someone_is_awaited};
pub use state::{Outcome, SegmentState};
