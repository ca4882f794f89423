use erl_syntax::Text;
use std::alloc::Global;

/// What a built-in function looks up beside its arguments.
#[derive(Drop)]
pub struct Caller<'a> {
    pub alloc: Global,
    /// The name of each atom of the module, by its number.
    pub names: &'a [Text],
    /// The number of the process.
    pub pid: u32,
}
