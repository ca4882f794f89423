use code_tree::PlainTerm;

/// What a process asks for.
#[derive(Drop)]
pub enum Asking {
    /// To send the message to the process of this pid. The answer is the message.
    Send(u32, PlainTerm),
    /// To display the value. The answer is `true`.
    Show(PlainTerm),
    /// To start a process: the module's name and the function's, by the numbers of their atoms, and the list of the arguments. The answer is
    /// the new pid.
    Start {
        module: u32,
        function: u32,
        arguments: PlainTerm,
    },
    /// More messages.
    More,
    /// It ended normally.
    Done,
    /// It ended with this reason.
    Raised(PlainTerm),
}

/// How a turn of a process ends.
#[derive(Drop)]
pub enum Turn {
    /// It could go on.
    Yields,
    Asks(Asking),
}
