/// A place in a module's text.
///
/// Both numbers count from 1. A column counts characters, and a tab is one character.
#[derive(Clone, Copy, Debug, PartialEq, Eq)]
pub struct Span {
    pub line: u32,
    pub column: u32,
}
