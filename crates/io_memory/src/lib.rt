//! Objects of the outside in memory, for tests: files, a sink, and links that follow a script.
#![tactic(auto)]

mod log;
mod mem_files;
mod mem_input;
mod mem_sink;
mod mem_store;
mod script;
mod script_links;
mod takes;

pub use log::LinkLog;
pub use mem_input::MemInput;
pub use mem_sink::MemSink;
pub use mem_store::{MOST_STORED_BYTES, MemStore};
pub use script::Turn;
pub use script_links::ScriptLinks;
