//! Laws of expressions, for machines that run them: steps within layers, environments, matches and rows under bindings, and cursors.
#![tactic(auto)]

mod bindings;
mod cursors;
mod environments;
mod layers;

pub use bindings::{
    all_match_under, each_match_under, match_under, pick_under, put_nothing, put_twice, rows_under,
    segments_under,
};
pub use cursors::{bit_cursor, enough_looks, list_cursor};
pub use environments::{chosen_is_picked, gives_alike, opens_alike};
pub use layers::{form_acts, giving_next, next_under, opening_next, runs_under, step_under};
