use crate::actor::PROCESS_BOUND;
use process_acts::Asking;
use std::alloc::AllocError;
use term_value::Entry;

/// What a process wants next.
pub enum Want {
    /// It doesn't run, or isn't there.
    Nothing,
    /// It could go on by itself.
    Turn,
    /// Another message: it has seen all.
    Message,
    /// Its next entry.
    Enters(Entry),
}

// The entry of a process that starts another, where so many were started.
fn start(pid: u32, started: usize) -> Result<Entry, AllocError> {
    if started >= PROCESS_BOUND {
        return Ok(Entry::Full { pid });
    }
    match u32::try_from(started + 1) {
        Ok(child) => Ok(Entry::Started { pid, child }),
        Err(_) => Err(AllocError),
    }
}

// What a process wants that asks for more messages, where it hasn't seen so many.
fn more(pid: u32, unseen: usize) -> Result<Want, AllocError> {
    if unseen == 0 {
        return Ok(Want::Message);
    }
    match u32::try_from(unseen) {
        Ok(count) => Ok(Want::Enters(Entry::Saw { pid, count })),
        Err(_) => Err(AllocError),
    }
}

impl Want {
    /// What the process of this pid wants at its ask, where so many processes were started and it hasn't seen so many messages.
    pub fn of(
        ask: &Option<Asking>,
        pid: u32,
        started: usize,
        unseen: usize,
    ) -> Result<Want, AllocError> {
        match ask {
            None => Ok(Want::Turn),
            Some(Asking::Send(to, _)) => Ok(Want::Enters(Entry::Sent { from: pid, to: *to })),
            Some(Asking::Show(_)) => Ok(Want::Enters(Entry::Shown { pid })),
            Some(Asking::Start { .. }) => Ok(Want::Enters(start(pid, started)?)),
            Some(Asking::More) => Ok(more(pid, unseen)?),
            Some(Asking::Done | Asking::Raised(_)) => Ok(Want::Enters(Entry::Ended { pid })),
        }
    }
}
