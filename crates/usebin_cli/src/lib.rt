//! The commands of usebin, over the traits of the outside.
#![tactic(auto)]

mod body;
mod check;
mod decode;
mod encode;
mod ended;
mod index;
mod login;
mod nothing;
mod post;
mod printed;
mod reply;
mod top;
mod writing;

pub use nothing::{NoLinks, NoStore};
pub use top::usebin;
