use erl_syntax::Typed;

/// What a value is compared with.
#[derive(Clone, Copy, Debug, PartialEq, Eq, Drop)]
pub enum Want {
    Literal(i128),
    /// The value of the variable of this number, which is bound before or further left.
    Var(u32),
}

/// What a segment of a pattern wants of its value.
#[derive(Clone, Copy, Debug, PartialEq, Eq, Drop)]
pub enum Target {
    /// The variable of this number, which is bound to the value.
    Bind(u32),
    /// An equal value.
    Same(Want),
    /// Any value.
    Any,
}

/// The size of a segment, in units.
#[derive(Clone, Copy, Debug, PartialEq, Eq, Drop)]
pub enum SizeForm {
    Fixed(u32),
    /// The value of the size expression of this number.
    Given(u32),
}

/// A segment of a bit pattern.
#[derive(Clone, Copy, Debug, PartialEq, Eq, Drop)]
pub struct PatSegment {
    pub typed: Typed,
    pub target: Target,
    /// The size, where one is written.
    pub size: Option<SizeForm>,
    /// Whether a size further right in the same pattern uses the variable that the target binds.
    pub used: bool,
}
