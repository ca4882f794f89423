// Places of a run at which a test may hold a worker back.

/// A place of a run: a worker took up a process, or entered an act of one.
#[derive(Clone, Copy, Debug, PartialEq, Eq)]
pub enum Place {
    Took { worker: u32, pid: u32 },
    Acted { worker: u32, pid: u32 },
}

/// What is told of each place. No clause speaks of it.
pub trait Gate {
    fn at(&self, place: Place);
}

/// Holds nothing back.
#[derive(Clone, Copy, Debug)]
pub struct NoGate;

impl Gate for NoGate {
    fn at(&self, _place: Place) {}
}
