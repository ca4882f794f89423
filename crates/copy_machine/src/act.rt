use crate::ending::Ending;
use code_tree::PlainTerm;

/// What an entry does beside what becomes of its process.
#[derive(Drop)]
pub enum Effect<P> {
    Nothing,
    /// The message goes to the process of this pid.
    Delivers(u32, PlainTerm),
    /// The value is displayed.
    Shows(PlainTerm),
    /// The process is the next one.
    Starts(P),
}

/// What an entry does to a process that runs.
#[derive(Drop)]
pub enum Act<P> {
    /// It isn't the process's own next step.
    Refused,
    /// The process goes on.
    Goes(Effect<P>),
    /// The process ends.
    Ends(Ending),
}
