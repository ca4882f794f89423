/// The value of a segment that was cut off.
#[derive(Debug, Drop)]
pub enum CutValue<R> {
    /// A number, or a character's.
    Number(i128),
    /// A number outside -2^127 to 2^127 - 1.
    LongNumber,
    /// A reference to the segment's bits.
    Part(R),
}

/// What was cut off.
#[derive(Debug, Drop)]
pub struct CutOff<R> {
    pub value: CutValue<R>,
    /// The bit at which the bits behind the segment begin.
    pub next: u32,
}
