//! The outside as traits: where files are read from and written to, links to servers, and where text goes; with what
//! their events mean.
#![tactic(auto)]

mod blame;
mod count;
mod failed;
mod input;
mod links;
mod sink;
mod store;

pub use blame::{Blame, opening};
pub use count::raised;
pub use failed::Failed;
pub use input::Input;
pub use links::{Got, LinkEvent, Links};
pub use sink::Sink;
pub use store::Store;
