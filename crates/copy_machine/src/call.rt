use code_tree::PlainTerm;

/// The call with which a process begins.
#[derive(Drop)]
pub struct Call {
    /// The number of the atom.
    pub module_name: u32,
    /// The number of the atom.
    pub function: u32,
    /// The list of the arguments.
    pub arguments: PlainTerm,
}
