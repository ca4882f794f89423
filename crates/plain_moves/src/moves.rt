use crate::focus::{Focus, Open, Stop};
use crate::frame::Frame;

/// What an open part comes to, or a frame with a value.
#[derive(Drop)]
pub enum Move<'a> {
    /// Its first part opens within this frame. The expression stays as it is.
    Enters(Frame<'a>, Open<'a>),
    /// It is this. The expression stays as it is.
    Becomes(Focus<'a>),
    /// It becomes this, at so many reductions.
    Goes(u32, Focus<'a>),
    /// It ends without a value, at so many reductions.
    Falls(u32, Stop),
}
