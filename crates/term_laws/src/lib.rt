//! Laws of the definitions of values, contraction and the copying machine, and what they compute for worked programs.
#![tactic(auto)]

mod inside;
mod laws;
mod reads;
mod rows;
mod runs;
mod scoped;

pub use inside::{bounds_are_kept, orders_keep_bounds, start_is_bounded};
pub use laws::{
    ask_reached, calls_are_read, character_reads_back, complete_is_last, cost_is_paid, each_asks,
    equal_is_same, free_shrinks, guards_contract, integer_reads_back, legal_is_short,
    names_by_characters, order_is_total, outcome_reports, parcel_starts,
};
pub use scoped::{
    guards_have_values, known_has_value, match_names, next_stays_scoped, none_unbound,
    open_has_value, orders_stay_scoped, put_stays_scoped, run_stays_scoped, shape_is_scoped,
    sizes_have_values, tests_have_none,
};
