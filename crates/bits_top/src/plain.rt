/// A command that waits for nothing.
#[derive(Clone, Copy, Debug, PartialEq, Eq)]
pub enum Plain {
    /// Whether a module is accepted.
    Check,
    /// The report of a module in an order that is read, each process of the module with so many reductions.
    Copy { reductions: u32 },
    /// The text of the generated module for a seed and a size.
    Gen { seed: u32, size: u32 },
}
