//! Keyword lines of a yEnc body (yEnc draft 1.3): the header line, the part line and the trailer line.
#![tactic(auto)]

mod header;
mod item;
mod items;
mod key;
mod keyword;
mod laws;
mod name;
mod put;
mod read;
mod trim;
mod write;

pub use key::{Key, KeyFault};
pub use keyword::{Begin, EndLine, PartLine};
pub use laws::written_lines_are_read;
pub use name::Name;
pub use read::{read_begin, read_end, read_part};
pub use write::{write_begin, write_end, write_part};
