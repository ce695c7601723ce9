//! Addresses and logins: where a news server is, and who logs in there.
#![tactic(auto)]

mod cut;
mod laws;
mod line;
mod logins;
mod server;

pub use cut::{Cut, cut_at};
pub use laws::{logins_are_one, logins_or_broken};
pub use logins::{LoginError, Logins, ServerLogin, read_logins};
pub use server::is_server;
