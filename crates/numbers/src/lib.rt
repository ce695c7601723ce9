//! Numbers and their texts, and texts that are put into a buffer.
#![tactic(auto)]

mod buffer;
mod decimal;
mod number;

pub use buffer::{put, put_number};
pub use decimal::write_dec;
pub use number::{read_dec, read_hex32};
