//! What the worked cases hand in, as files, sinks and links in memory, and what they look at: lines, runs, and events of links.
#![tactic(auto)]

mod events;
mod inputs;
mod lines;
mod objects;
mod ran;

pub use events::{are_events, are_kinds, bytes_sent};
pub use inputs::PartialInput;
pub use lines::are_lines;
pub use objects::{
    bytes_of, files_of, links_of, no_links, numbers_of, quiet_links_of, repeated, sink_failing,
    slow_links_of, taking_links_of, words_of,
};
pub use ran::Ran;
