use erl_syntax::Text;
use off_heap::Parcel;
use std::collections::VecDeque;

/// How a slice ends: what the actor asks for, or that it could go on.
#[derive(Drop)]
pub enum Ask {
    /// The slice has used its reductions, and the actor could go on.
    Yielded,
    /// To send the message to the process of this pid.
    Send { to: u32, parcel: Parcel },
    /// To display a value, of which this is the text.
    Show { text: Text },
    /// To start a process by this call: the list of the function's name and the arguments, or `[[]]` where the module is another.
    Spawn { first: Parcel },
    /// More messages.
    More,
    /// It ended normally.
    Done,
    /// It ended with another reason, of which this is the text.
    Raised { reason: Text },
    /// Memory was wanting.
    NoMemory,
}

/// The answer to an ask.
#[derive(Drop)]
pub enum Answer {
    /// What was sent is under way, or what was displayed is displayed.
    Went,
    /// The pid of the process that was started.
    Pid(u32),
    /// No more processes may be started.
    Full,
    /// The messages that came, the oldest first.
    Batch(VecDeque<Parcel>),
}

/// What a process counted up to its end.
#[derive(Debug, Clone, Copy, PartialEq, Eq, Drop)]
pub struct Account {
    /// Shared buffers that it made.
    pub births: u64,
    /// Shared buffers of which it dropped the last handle.
    pub drops: u64,
    /// Bits that it moved.
    pub moved: u64,
}
