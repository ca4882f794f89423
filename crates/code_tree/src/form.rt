use erl_syntax::{BuiltIn, Listed, Op, Prefix, Typed};

/// What the values of all parts alone determine.
#[derive(Drop)]
pub enum Primitive {
    Tuple,
    List,
    /// `[A, B | T]`: the last part is the tail.
    ListOn,
    /// A bit expression: the parts are the segments' values, each before its size where one is written.
    Build(Listed<Typed>),
    Operator(Op),
    Prefix(Prefix),
    /// A built-in function but `erlang:display/1` and `spawn/3`.
    BuiltIn(BuiltIn),
}

/// What becomes of the values of all parts.
#[derive(Drop)]
pub enum Form {
    Table(Primitive),
    /// A call of the function at this place of the module.
    Call(u32),
    /// `P ! V`.
    Send,
    /// `erlang:display(V)`.
    Display,
    /// `spawn(M, F, Args)`.
    Spawn,
}
