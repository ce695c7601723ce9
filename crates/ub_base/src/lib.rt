//! The rooms at the bottom under one name: lists, numbers, the traits of the outside, and the objects that meet them, in
//! memory and of the system.
#![tactic(auto)]

pub use io_memory::{LinkLog, MemInput, MemSink, ScriptLinks, Turn};
pub use io_system::{ErrSink, FileInput, OutSink, StreamSink, TcpLinks};
pub use io_traits::{Blame, Failed, Got, Input, LinkEvent, Links, Sink, Store};
pub use lists::{Bytes, Lines, List, Memory};
pub use numbers::{read_dec, read_hex32, write_dec};
