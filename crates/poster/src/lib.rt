//! A file as it is posted: the plan of its parts, the article of each part, the session in which the articles are posted,
//! and the index of what was posted.
#![tactic(auto)]

mod article;
mod desk;
mod index;
mod laws;
mod parts;
mod planning;
mod posting;
mod room;
mod session;
mod session_laws;
mod settings;
mod wire;

pub use article::write_article;
pub use index::{PartEnd, Sent, post_index};
pub use laws::{
    articles_hold_no_line_end, ids_differ, one_list_of_articles, parts_are_the_file,
    parts_hold_each_offset,
};
pub use parts::{Plan, PlanError, PlanPart};
pub use planning::plan;
pub use session::{PostError, run_post};
pub use session_laws::{each_article_once, made_articles_are_the_files};
pub use settings::Settings;
