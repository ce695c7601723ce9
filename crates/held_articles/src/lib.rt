//! The articles that a news server in memory holds (RFC 5536, 3.1): what of the lines that are posted makes one, and which one
//! has a message-id.
#![tactic(auto)]

mod article;
mod block_lines;
mod field;
mod held;

pub use article::Article;
pub use block_lines::BlockLines;
pub use field::{field_of, id_in};
pub use held::{AddError, HeldArticles};
