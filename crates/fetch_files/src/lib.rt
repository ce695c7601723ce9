//! The files of a fetch: they are made, parts are written where they belong, a part that is given up is overwritten with zeros, and at the
//! end each file gets its size.
#![tactic(auto)]

mod ends;
mod laws;
mod zeros;

pub use ends::{create_files, set_lengths};
pub use laws::{
    accept_fills, claim_fills, cleared_has_room, files_are_final, files_are_made, first_has_room,
    free_gave_nothing, part_is_cleared, piece_has_room, piece_is_written, release_fills,
    shelf_is_final,
};
pub use zeros::clear;
