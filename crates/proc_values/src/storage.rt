use bits_value::Steps;

/// A store of bitstrings, with the ledger of the bits that were moved in it.
#[derive(Drop)]
pub struct Storage<S> {
    pub store: S,
    pub steps: Steps,
}
