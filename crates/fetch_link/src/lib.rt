//! One link of a fetch, as a machine over the bytes that are heard on it (RFC 3977, 3.1, 3.2 and 6.2.3): status lines, and the
//! decoder of the article that hasn't ended (yEnc draft 1.3). It calls nothing outside and takes no memory.
#![tactic(auto)]

mod connection;
mod laws;
mod taking;

pub use connection::Connection;
pub use laws::{
    all_given_fits, ending_is_verdict, given_fits, head_is_a_range, last_byte_moves,
    silence_moves_hearing,
};
pub use taking::{Took, What};
