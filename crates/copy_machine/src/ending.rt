use erl_syntax::Text;

/// How a process came to its end.
#[derive(Drop)]
pub enum Ending {
    Normal,
    /// With the text of its reason.
    Exit(Text),
    /// It was stopped, while all processes waited.
    Waiting,
}
