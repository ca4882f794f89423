ghost use Rattle.std.specs.Prelude.{◌≡◌};
ghost use Rattle.copy_machine.specs.Entering.{is_stop, pid_of};

use term_value::Entry;

/// The process of an entry.
pub fn pid_of(entry: Entry) -> u32
    ensures { result ≡ pid_of entry }
{
    match entry {
        Entry::Sent { from, to: _ } => from,
        Entry::Saw { pid, count: _ } => pid,
        Entry::Shown { pid } => pid,
        Entry::Started { pid, child: _ } => pid,
        Entry::Full { pid } => pid,
        Entry::Ended { pid } => pid,
        Entry::Stopped { pid } => pid,
        Entry::Gone { pid, .. } => pid,
    }
}

/// Whether the entry says that its process is stopped.
pub fn is_stop(entry: Entry) -> bool
    ensures { result ≡ is_stop entry }
{
    match entry {
        Entry::Stopped { .. } => true,
        _ => false,
    }
}
