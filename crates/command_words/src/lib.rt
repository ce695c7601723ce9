//! The words of the command line: what each command takes, and what the words ask for.
#![tactic(auto)]

mod fetch;
mod index;
mod keys;
mod laws;
mod post;
mod servers;
mod words;

pub use fetch::{FetchWords, read_fetch};
pub use index::{IndexWords, read_index};
pub use keys::Form;
pub use laws::server_words_are_read;
pub use post::{PostWords, read_post};
pub use servers::{ServerWords, Servers};
pub use words::{CheckWords, Command, DecodeWords, EncodeWords, read_words, refused_word};
