// The entry of a line.
ghost use Rattle.std.specs.Prelude.{◌≡◌, ℕ, codes, MatchOption};
ghost use Rattle.term_value.specs.Orders.{IsNoEntry, IsPid};
ghost use Rattle.term_value.specs.declared.entry.Entry.{Entry};
ghost use Rattle.report_text.specs.Entries.{HasFields, IsEntryLine, IsOne, IsTwo};

use crate::fields::{is_same, numbers, word_len};
use term_value::Entry;

// The most processes that may be started in a run.
const PROCESS_BOUND: u64 = 1_024;

// The pid that a number is, if it is one.
fn pid_of(number: u64) -> Option<u32>
    ensures { MatchOption result (IsPid number → ⊥) (λ pid. (pid ≡ number) × IsPid pid) }
{
    if number < 1 || number > PROCESS_BOUND {
        return None;
    }
    Some(number as u32)
}

// The one pid that the numbers are, if they are one.
fn one_pid(numbers: &[u64]) -> Option<u32>
    ensures { MatchOption result ((pid : ℕ) → IsOne numbers.now pid → ⊥) (λ pid. IsOne numbers.now pid) }
{
    let [pid] = numbers else {
        return None;
    };
    pid_of(*pid)
}

#[derive(Clone, Copy, Debug)]
struct Pair {
    first: u32,
    second: u32,
}

// The two pids that the numbers are, if they are two.
fn two_pids(numbers: &[u64]) -> Option<Pair>
    ensures { MatchOption result ((p q : ℕ) → IsTwo numbers.now p q → ⊥) (λ pids. IsTwo numbers.now pids.first pids.second) }
{
    let [first, second] = numbers else {
        return None;
    };
    let Some(first) = pid_of(*first) else {
        return None;
    };
    let Some(second) = pid_of(*second) else {
        return None;
    };
    Some(Pair { first, second })
}

// The entries of each word, where the numbers are theirs.

fn sent(numbers: &[u64]) -> Option<Entry>
    ensures { MatchOption result ((e : Entry) → HasFields e (codes "sent") numbers.now → ⊥) (λ e. HasFields e (codes "sent") numbers.now) }
{
    let Some(pids) = two_pids(numbers) else {
        return None;
    };
    Some(Entry::Sent {
        from: pids.first,
        to: pids.second,
    })
}

fn saw(numbers: &[u64]) -> Option<Entry>
    ensures { MatchOption result ((e : Entry) → HasFields e (codes "saw") numbers.now → ⊥) (λ e. HasFields e (codes "saw") numbers.now) }
{
    let [pid, count] = numbers else {
        return None;
    };
    let Some(pid) = pid_of(*pid) else {
        return None;
    };
    if *count < 1 || *count > u32::MAX as u64 {
        return None;
    }
    Some(Entry::Saw {
        pid,
        count: *count as u32,
    })
}

fn shown(numbers: &[u64]) -> Option<Entry>
    ensures { MatchOption result ((e : Entry) → HasFields e (codes "shown") numbers.now → ⊥) (λ e. HasFields e (codes "shown") numbers.now) }
{
    let Some(pid) = one_pid(numbers) else {
        return None;
    };
    Some(Entry::Shown { pid })
}

fn started(numbers: &[u64]) -> Option<Entry>
    ensures { MatchOption result ((e : Entry) → HasFields e (codes "started") numbers.now → ⊥) (λ e. HasFields e (codes "started") numbers.now) }
{
    let Some(pids) = two_pids(numbers) else {
        return None;
    };
    Some(Entry::Started {
        pid: pids.first,
        child: pids.second,
    })
}

fn full(numbers: &[u64]) -> Option<Entry>
    ensures { MatchOption result ((e : Entry) → HasFields e (codes "full") numbers.now → ⊥) (λ e. HasFields e (codes "full") numbers.now) }
{
    let Some(pid) = one_pid(numbers) else {
        return None;
    };
    Some(Entry::Full { pid })
}

fn ended(numbers: &[u64]) -> Option<Entry>
    ensures { MatchOption result ((e : Entry) → HasFields e (codes "ended") numbers.now → ⊥) (λ e. HasFields e (codes "ended") numbers.now) }
{
    let Some(pid) = one_pid(numbers) else {
        return None;
    };
    Some(Entry::Ended { pid })
}

fn stopped(numbers: &[u64]) -> Option<Entry>
    ensures { MatchOption result ((e : Entry) → HasFields e (codes "stopped") numbers.now → ⊥) (λ e. HasFields e (codes "stopped") numbers.now) }
{
    let Some(pid) = one_pid(numbers) else {
        return None;
    };
    Some(Entry::Stopped { pid })
}

fn gone(numbers: &[u64]) -> Option<Entry>
    ensures { MatchOption result ((e : Entry) → HasFields e (codes "gone") numbers.now → ⊥) (λ e. HasFields e (codes "gone") numbers.now) }
{
    let [pid, births, drops, moved] = numbers else {
        return None;
    };
    let Some(pid) = pid_of(*pid) else {
        return None;
    };
    Some(Entry::Gone {
        pid,
        births: *births,
        drops: *drops,
        moved: *moved,
    })
}

// The entry with this word and these numbers, if there is one.
fn entry(word: &[u8], numbers: &[u64]) -> Option<Entry>
    ensures { MatchOption result ((e : Entry) → HasFields e word.now numbers.now → ⊥) (λ e. HasFields e word.now numbers.now) }
{
    if is_same(word, b"sent") {
        return sent(numbers);
    }
    if is_same(word, b"saw") {
        return saw(numbers);
    }
    if is_same(word, b"shown") {
        return shown(numbers);
    }
    if is_same(word, b"started") {
        return started(numbers);
    }
    if is_same(word, b"full") {
        return full(numbers);
    }
    if is_same(word, b"ended") {
        return ended(numbers);
    }
    if is_same(word, b"stopped") {
        return stopped(numbers);
    }
    if is_same(word, b"gone") {
        return gone(numbers);
    }
    None
}

// The entry that a line spells, with its line feed, if it spells one.
pub(crate) fn entry_of(line: &[u8]) -> Option<Entry>
    ensures { MatchOption result (IsNoEntry line.now) (λ e. IsEntryLine e line.now) }
{
    let (word, rest) = line.split_at(word_len(line));
    let Some(numbers) = numbers(rest) else {
        return None;
    };
    entry(word, &numbers)
}
