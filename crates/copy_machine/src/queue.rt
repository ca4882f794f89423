use std::alloc::{AllocError, Global};
use std::collections::VecDeque;
use term_value::Entry;

/// Which processes go on, and which wait for a message.
#[derive(Drop)]
pub struct Queue {
    /// The pids of those that go on, the next one first.
    ready: VecDeque<u32>,
    /// Whether each process waits; that of pid p stands at p - 1.
    waits: Vec<bool>,
}

impl Queue {
    /// Process 1 alone goes on.
    pub fn new(alloc: Global) -> Result<Queue, AllocError> {
        let mut queue = Queue {
            ready: VecDeque::new(alloc),
            waits: Vec::new(alloc),
        };
        queue.start(1)?;
        Ok(queue)
    }

    /// The process whose turn it is.
    pub fn next(&mut self) -> Option<u32> {
        self.ready.pop_front()
    }

    /// The process goes on, behind all others.
    pub fn add(&mut self, pid: u32) -> Result<(), AllocError> {
        self.ready.push_back(pid)?;
        Ok(())
    }

    // The process of the next pid, which this is, goes on.
    fn start(&mut self, pid: u32) -> Result<(), AllocError> {
        self.waits.push(false)?;
        self.add(pid)
    }

    /// The process waits for a message.
    pub fn rest(&mut self, pid: u32) {
        if pid == 0 {
            return;
        }
        if let Some(waits) = self.waits.get_mut(pid as usize - 1) {
            *waits = true;
        }
    }

    // The process got a message.
    fn wake(&mut self, pid: u32) -> Result<(), AllocError> {
        if pid == 0 {
            return Ok(());
        }
        match self.waits.get_mut(pid as usize - 1) {
            Some(waits) if *waits => *waits = false,
            _ => return Ok(()),
        }
        self.add(pid)
    }

    /// Goes on behind an entry.
    pub fn follow(&mut self, entry: Entry) -> Result<(), AllocError> {
        match entry {
            Entry::Sent { from, to } => {
                self.add(from)?;
                self.wake(to)
            }
            Entry::Started { pid, child } => {
                self.add(pid)?;
                self.start(child)
            }
            Entry::Saw { pid, count: _ } => self.add(pid),
            Entry::Shown { pid } => self.add(pid),
            Entry::Full { pid } => self.add(pid),
            Entry::Ended { .. } | Entry::Stopped { .. } | Entry::Gone { .. } => Ok(()),
        }
    }

    /// Whether each process waits; that of pid p stands at p - 1.
    pub fn waits(self) -> Vec<bool> {
        self.waits
    }
}
