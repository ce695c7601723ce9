//! What stands at the head of an article (RFC 5536): the lines that a post sends before the body, its subject and its
//! message-id; and the name that a subject gives, as that of the file that is written.
#![tactic(auto)]

mod field;
mod files;
mod head;
mod id;
mod laws;
mod quoted;
mod subject;

pub use field::{is_comment, is_file_name, is_from, is_newsgroups};
pub use files::{OutName, out_name};
pub use head::{Head, write_head};
pub use id::{is_domain, is_token, part_id};
pub use laws::{
    head_lines_are_fields, newsgroups_are_one, out_names_differ, part_ids_are_valid,
    part_ids_differ,
};
pub use quoted::quoted_name;
pub use subject::write_subject;
