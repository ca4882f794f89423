//! The texts of orders and of reports, and the entries that an order's text spells.
#![tactic(auto)]

mod entries;
mod fields;
mod laws;
mod lines;
mod reports;

pub use laws::{entry_is_line, one_order, order_or_fault};
pub use lines::{OrderFault, order, read_order};
pub use reports::report;
