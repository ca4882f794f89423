use crate::inbox::Inbox;
use plain_moves::{Focus, Frame, Stack, Stop};

/// How far a process is: what is open within its frames, or how it fell.
#[derive(Drop)]
pub enum Course<'a> {
    At(Focus<'a>, Stack<Frame<'a>>),
    Fell(Stop),
}

/// Where a process stands.
#[derive(Drop)]
pub struct Standing<'a> {
    pub course: Course<'a>,
    pub seen: Inbox,
    /// The reductions left.
    pub left: u32,
}

/// What a process has round what is open.
#[derive(Drop)]
pub struct Round<'a> {
    pub frames: Stack<Frame<'a>>,
    pub seen: Inbox,
    /// The reductions left.
    pub left: u32,
}
