//! What a trace of several links says of the segments of a fetch (RFC 3977, and yEnc draft 1.3): which events are lawful, which
//! answers were heard, which ranges are held, and what a fetch gives at its end. Definitions, and laws over them.
#![tactic(auto)]

mod laws;

pub use laws::{
    byte_is_a_call, cut_is_completed, cut_is_posted, each_is_asked_once, end_is_a_call,
    end_is_computed, ends_once, fronts_are_posted, headline, lawful_is_busy, lawful_is_computed,
    links_are_told, links_are_valid, nothing_follows_over, one_event_leaves_others,
    one_event_moves, one_link_moves, piece_is_a_call, quiet_is_a_call, quiets_are_few,
    ranges_are_held, resumed_headline, turns_are_computed,
};
