//! The objects of the outside that the system gives: files, the standard streams, and links over TCP.
#![tactic(auto)]

mod file_input;
mod folder;
mod folder_store;
mod open_files;
mod opening;
mod standard;
mod tcp_links;
mod turns;

pub use file_input::FileInput;
pub use folder_store::FolderStore;
pub use standard::{ErrSink, OutSink, StreamSink};
pub use tcp_links::TcpLinks;
