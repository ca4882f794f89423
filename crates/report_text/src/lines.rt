// The text of an order, and the entries that it spells.
ghost use Rattle.std.specs.Prelude.{◌≡◌, ◌<◌, ◌++◌, length, codes, decimal, IfOk, IfErr, OnOk};
ghost use Rattle.std.specs.List.{flat_map};
ghost use Rattle.term_value.specs.Orders.{IsOrderText, entry_text, order_text};
ghost use Rattle.report_text.specs.Reading.{HasFault, StartsWithLine};

use crate::entries::entry_of;
use itoa::Buffer;
use std::alloc::{AllocError, Global};
use term_value::Entry;

/// Why no order was read.
#[derive(Clone, Copy, Debug, PartialEq, Eq)]
pub enum OrderFault {
    /// The line, counted from 1, is the first that is no entry.
    NoEntry { line: u64 },
    /// No memory was left.
    Memory,
}

// Adds a line: a word and its numbers, with a space before each.
fn push_line(text: &mut Vec<u8>, word: &[u8], numbers: &[u64]) -> Result<(), AllocError>
    ensures { OnOk result (text.new.items ≡ text.old.items ++ (word.now ++ flat_map (λ number. codes " " ++ decimal number) numbers.now ++ codes "\n")) }
{
    text.extend_from_slice(word)?;
    for number in numbers {
        let mut buffer = Buffer::new();
        text.push(b' ')?;
        text.extend_from_slice(buffer.format(*number).as_bytes())?;
    }
    text.push(b'\n')?;
    Ok(())
}

// Adds an entry's line.
fn push_entry(text: &mut Vec<u8>, entry: Entry) -> Result<(), AllocError>
    ensures { OnOk result (text.new.items ≡ text.old.items ++ entry_text entry) }
{
    match entry {
        Entry::Sent { from, to } => push_line(text, b"sent", &[from.into(), to.into()]),
        Entry::Saw { pid, count } => push_line(text, b"saw", &[pid.into(), count.into()]),
        Entry::Shown { pid } => push_line(text, b"shown", &[pid.into()]),
        Entry::Started { pid, child } => push_line(text, b"started", &[pid.into(), child.into()]),
        Entry::Full { pid } => push_line(text, b"full", &[pid.into()]),
        Entry::Ended { pid } => push_line(text, b"ended", &[pid.into()]),
        Entry::Stopped { pid } => push_line(text, b"stopped", &[pid.into()]),
        Entry::Gone {
            pid,
            births,
            drops,
            moved,
        } => push_line(text, b"gone", &[pid.into(), births, drops, moved]),
    }
}

/// The text of an order: a line for each entry, its word and its numbers in decimal.
///
/// The error says that no memory was left. It takes time linear in the text.
pub fn order(alloc: Global, entries: &[Entry]) -> Result<Vec<u8>, AllocError>
    ensures { IfOk result (λ text. text.items ≡ order_text entries.now) }
{
    let mut text = Vec::new(alloc);
    for entry in entries {
        push_entry(&mut text, *entry)?;
    }
    Ok(text)
}

// How many bytes the first line has, with its line feed where it has one.
fn line_len(text: &[u8]) -> usize
    requires { 0 < length text.now }
    ensures { StartsWithLine text.now result }
{
    for (index, byte) in text.iter().enumerate() {
        if *byte == b'\n' {
            return index + 1;
        }
    }
    text.len()
}

/// The entries that an order's text spells, a line each.
///
/// It takes time linear in the text.
///
/// # Errors
///
/// `NoEntry` comes exactly where some line is no entry, with the first such line, counted from 1: it has another form, a
/// number with a leading zero or outside its range, or no line feed. `Memory` says that no memory was left.
pub fn read_order(alloc: Global, text: &[u8]) -> Result<Vec<Entry>, OrderFault>
    ensures spelled { IfOk result (λ entries. IsOrderText text.now entries.items) }
    ensures fault { IfErr result (λ fault. HasFault text.now fault) }
{
    let mut entries = Vec::new(alloc);
    let mut rest = text;
    while !rest.is_empty() {
        let (line, after) = rest.split_at(line_len(rest));
        let Some(entry) = entry_of(line) else {
            return Err(OrderFault::NoEntry {
                line: entries.len() as u64 + 1,
            });
        };
        if entries.push(entry).is_err() {
            return Err(OrderFault::Memory);
        }
        rest = after;
    }
    Ok(entries)
}
