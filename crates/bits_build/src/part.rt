use erl_syntax::Typed;
use term_value::Term;

/// A segment of a bit expression: its type, with the values of its parts.
#[derive(Debug, Drop)]
pub struct Part<R> {
    pub typed: Typed,
    pub value: Term<R>,
    /// The value of the size, where one is written.
    pub size: Option<Term<R>>,
}
