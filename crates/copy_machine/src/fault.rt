use thiserror::Error;

/// Why an order isn't replayed.
#[derive(Clone, Copy, Debug, Drop, PartialEq, Eq, Error)]
pub enum CopyFault {
    /// The first entry that isn't legal, counted from 1.
    #[error("entry {0}: not legal")]
    Illegal(u64),
    /// All entries are legal, and some process isn't gone.
    #[error("incomplete")]
    Incomplete,
    #[error("no memory left")]
    NoMemory,
}
