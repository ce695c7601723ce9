//! Lists that grow: of bytes, of members, and of lines that are kept flat; short texts in an array; and a saved text as its
//! lines.
#![tactic(auto)]

mod bytes;
mod lines;
mod list;
mod memory;
mod short;
mod text;

pub use bytes::{Bytes, bytes_of};
pub use lines::Lines;
pub use list::List;
pub use memory::Memory;
pub use short::Short;
pub use text::split_text;
