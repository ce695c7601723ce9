//! What is said to a news server and heard from it (RFC 3977): commands, message-ids, names of newsgroups, words of
//! a login, status lines, and why a link is over.
#![tactic(auto)]

mod command;
mod group;
mod group_name;
mod laws;
mod login;
mod login_word;
mod message_id;
mod status;
mod why;

pub use command::{Command, write_command};
pub use group::{GroupReply, read_group};
pub use group_name::GroupName;
pub use laws::{group_line_is_read, status_or_fault};
pub use login::Login;
pub use login_word::LoginWord;
pub use message_id::MessageId;
pub use status::{StatusFault, read_status};
pub use why::Why;
