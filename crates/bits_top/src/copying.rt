// Replaying an order of an accepted module.
ghost use Rattle.std.specs.Prelude.{◌≡◌, ◌≤◌, ◌+◌, ℕ, List, length, IfOk};
ghost use Rattle.bits_top.specs.Copying.{IsCopyOf, IsFaultLine, code_of};
ghost use Rattle.command_answers.specs.Answer.{AnswersCopied, AnswersCopy, port};
ghost use Rattle.command_answers.specs.Stream.{ConsumesAtMost};
ghost use Rattle.erl_syntax.specs.Reading.{longest_text};
ghost use Rattle.term_value.specs.Orders.{IsOrderText, order_bound, order_line};

use command_answers::{ReadError, Status, open, read_all, reported};
use copy_machine::CopyFault;
use copy_run::replay_module;
use erl_syntax::Text;
use io_ports::{Sink, Source};
use itoa::Buffer;
use module_check::Checked;
use report_text::{OrderFault, read_order};
use std::alloc::{AllocError, Global};
use term_laws::outcome_reports;
use term_value::Entry;

// The most bytes that an order's text may have.
const LONGEST_ORDER: u32 = 268_435_456;

// What an order's text comes to.
#[derive(Debug, Drop)]
enum Copied {
    // The report in this order.
    Report(Text),
    // The line of the text's first fault.
    Fault(Text),
}

// The line of a fault at a place of an order.
fn line_of(alloc: Global, place: u64, cause: &[u8]) -> Result<Text, AllocError>
    ensures { IfOk result (λ line. line ≡ order_line place cause.now) }
{
    let mut buffer = Buffer::new();
    let mut line = Vec::from_slice(alloc, b"order ")?;
    line.extend_from_slice(buffer.format(place).as_bytes())?;
    line.extend_from_slice(b": ")?;
    line.extend_from_slice(cause)?;
    line.push(b'\n')?;
    Ok(Text::of(line))
}

// The line of an order that isn't legal and complete.
fn fault_line(alloc: Global, fault: CopyFault) -> Result<Text, AllocError>
    ensures { IfOk result (λ line. IsFaultLine fault line) }
{
    match fault {
        CopyFault::Illegal(place) => line_of(alloc, place, b"not legal"),
        CopyFault::Incomplete => Ok(Text::of(Vec::from_slice(alloc, b"order: incomplete\n")?)),
        CopyFault::NoMemory => Err(AllocError),
    }
}

// What the entries of an order's text come to.
fn entries_copied(
    alloc: Global,
    checked: &Checked,
    reductions: u32,
    entries: Vec<Entry>,
) -> Result<Copied, AllocError>
    ensures { IfOk result (λ copied. (text : List ℕ) → length text ≤ order_bound → IsOrderText text entries.items → IsCopyOf (code_of checked.now) reductions text copied) }
{
    outcome_reports();
    match replay_module(alloc, checked, reductions, entries) {
        Ok(outcome) => Ok(Copied::Report(Text::of(report_text::report(alloc, &outcome)?))),
        Err(fault) => Ok(Copied::Fault(fault_line(alloc, fault)?)),
    }
}

// What an order's text comes to.
fn text_copied(
    alloc: Global,
    checked: &Checked,
    reductions: u32,
    text: &[u8],
) -> Result<Copied, AllocError>
    requires { length text.now ≤ order_bound }
    ensures { IfOk result (λ copied. IsCopyOf (code_of checked.now) reductions text.now copied) }
{
    match read_order(alloc, text) {
        Ok(entries) => entries_copied(alloc, checked, reductions, entries),
        Err(OrderFault::NoEntry { line }) => {
            Ok(Copied::Fault(line_of(alloc, line, b"not an entry")?))
        }
        Err(OrderFault::Memory) => Err(AllocError),
    }
}

// Reads the order and replays it: the report is the module's in this order, or the line of its text's first fault.
fn copy_checked<T: Source, A: Sink>(
    alloc: Global,
    checked: &Checked,
    reductions: u32,
    order: &mut T,
    report: &mut A,
) -> Status
    ensures answer { AnswersCopied reductions result
        (port T.left T.faults order.old order.new)
        (port A.written A.faults report.old report.new)
        (code_of checked.now) }
    ensures takes { ConsumesAtMost (T.left order.old) (T.left order.new) (order_bound + 1) }
{
    let text = match read_all(alloc, order, LONGEST_ORDER) {
        Ok(text) => text,
        Err(ReadError::Fault) => return Status::ReadFault,
        Err(ReadError::Memory) => return Status::NoMemory,
    };
    if text.len() > LONGEST_ORDER as usize {
        return reported(report, b"order: too long\n", Status::BadOrder);
    }
    match text_copied(alloc, checked, reductions, &text) {
        Ok(Copied::Report(due)) => reported(report, due.bytes(), Status::Done),
        Ok(Copied::Fault(line)) => reported(report, line.bytes(), Status::BadOrder),
        Err(_) => Status::NoMemory,
    }
}

// Reads the module and replays the order, or refuses the module's text.
pub(crate) fn copy<S: Source, T: Source, A: Sink>(
    alloc: Global,
    reductions: u32,
    source: &mut S,
    order: &mut T,
    report: &mut A,
) -> Status
    ensures answer { AnswersCopy reductions result
        (port S.left S.faults source.old source.new)
        (port T.left T.faults order.old order.new)
        (port A.written A.faults report.old report.new) }
    ensures takes { ConsumesAtMost (S.left source.old) (S.left source.new) (longest_text + 1) }
    ensures takes_order { ConsumesAtMost (T.left order.old) (T.left order.new) (order_bound + 1) }
{
    match open(alloc, source, report) {
        Ok(checked) => copy_checked(alloc, &checked, reductions, order, report),
        Err(status) => status,
    }
}
