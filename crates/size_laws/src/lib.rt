//! Laws of the sizes in the patterns of accepted modules that were read from a text.
#![tactic(auto)]

mod calls;
mod forms;

pub use calls::guard_calls_are_built_in;
pub use forms::{
    forms_admit_more, put_in_keeps, put_in_keeps_sizes, size_forms_are_tests, sizes_have_form,
};
