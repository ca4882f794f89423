/// What a size expression comes to.
#[derive(Clone, Copy, Debug, PartialEq, Eq, Drop)]
pub enum Sized128 {
    /// A number that isn't negative.
    Size(i128),
    /// It raises, or its value is no such number: the segment doesn't match.
    Bad,
    /// A bound is passed.
    Limit,
    /// No memory was left.
    NoMemory,
}
