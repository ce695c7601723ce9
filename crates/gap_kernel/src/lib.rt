//! A kernel of the yEnc decoder: runs of characters with escapes in them, whole blocks at once.
#![tactic(auto)]

mod block;
mod lanes;
mod run;

pub use block::{Landed, are_bytes};
pub use run::land_spellings;
