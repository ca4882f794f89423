/// Where an expression stands. In a guard stand no `!`, `case`, `if`, `receive` and comprehensions
/// (Erlang Reference Manual, "Guard Sequences").
#[derive(Clone, Copy, Debug, PartialEq, Eq)]
pub enum Site {
    Body,
    Guard,
}
