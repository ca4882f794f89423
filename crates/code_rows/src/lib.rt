//! What a comprehension has collected, and the rows that its generators have still to give.
#![tactic(auto)]

mod bounded_items;
mod cursors;
mod gathered;
mod rows;

pub use bounded_items::BoundedItems;
pub use cursors::{BitRows, ListRows, PlainItems};
pub use gathered::{Collecting, Gathered};
pub use rows::{RowFound, Rows};
