//! What is said and heard on one link to a news server (RFC 3977, and RFC 4643 for the login): the replies in what was
//! heard, why a link is over, and a dialog of messages, each sent once the one before has its reply.
#![tactic(auto)]

mod answer;
mod awaited;
mod block;
mod dialog;
mod greeting;
mod hearing;
mod laws;
mod long_reply;
mod reader;
mod sending;

pub use answer::{Answer, BlockAnswer, GroupAnswer};
pub use awaited::Awaited;
pub use dialog::{Cut, Dialog, NotOpen};
pub use laws::{
    greatest_number_of_replies, no_reply_begins_another, one_list_of_replies, reading_goes_on,
};
pub use reader::{Fed, Reader, Step};
pub use sending::send_whole;
