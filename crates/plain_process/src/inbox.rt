//! The messages that a process has seen.
ghost use Rattle.std.specs.Prelude.{◌≡◌, ◌<◌, ◌++◌, [], length, remove, Some, slice_get, ◌≤◌, MatchOption, IfOk};

use code_tree::PlainTerm;
use std::alloc::{AllocError, Global};
use std::collections::VecDeque;
use std::marker::Model;

/// The messages that a process has seen, the oldest first, which contracts see as a list.
#[derive(Drop)]
pub struct Inbox {
    messages: VecDeque<PlainTerm>,
}

impl Model for Inbox {
    ghost use Rattle.std.specs.Prelude.{List, Bool};
    ghost use Rattle.std.specs.Coded.{coded_list, coded_bool};
    ghost use Rattle.term_value.specs.Seen.{Seen};
    ghost use Rattle.term_value.specs.Codes.{coded_seen};

    ghost Value = { List (Seen (List Bool)) };

    ghost coded = { coded_list (coded_seen (coded_list coded_bool)) };

    ghost view = { λ i. i.messages.items };
}

impl Inbox {
    pub fn new(alloc: Global) -> Inbox
        ensures { result ≡ [] }
    {
        Inbox {
            messages: VecDeque::new(alloc),
        }
    }

    pub fn len(&self) -> usize
        ensures { result ≡ length self.now }
    {
        self.messages.len()
    }

    /// The message at this place.
    pub fn get(&self, index: usize) -> Option<&PlainTerm>
        ensures { MatchOption result (length self.now ≤ index) (λ message. slice_get self.now index ≡ Some message.now) }
    {
        self.messages.get(index)
    }

    /// The others, without the message at this place.
    pub fn without(self, index: usize) -> Inbox
        requires { index < length self }
        ensures { result ≡ remove self index }
    {
        let Inbox { mut messages } = self;
        let _ = messages.remove(index);
        Inbox { messages }
    }

    /// These and then more messages. The error says that no memory was left.
    pub fn with(self, more: Vec<PlainTerm>) -> Result<Inbox, AllocError>
        ensures { IfOk result (λ all. all ≡ self ++ more.items) }
    {
        let Inbox { mut messages } = self;
        for message in more {
            messages.push_back(message)?;
        }
        Ok(Inbox { messages })
    }
}
