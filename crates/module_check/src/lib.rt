//! Whether a module is accepted (Erlang Reference Manual, "Modules", "Functions", "Expressions").
#![tactic(auto)]

mod built_ins;
mod calls;
mod checking;
mod forms;
mod index;
mod joins;
mod laws;
mod names;
mod numbers;
mod order;
mod own;
mod places;
mod scopes;
mod targets;
mod tasks;
mod trees;
mod walk;

pub use built_ins::built_in;
pub use calls::is_spelled;
pub use checking::{Checked, check};
pub use laws::{one_list_of_uses, one_numbering, reads_have_values};
pub use names::{has_function, is_before, is_exported};
pub use order::first_of;
