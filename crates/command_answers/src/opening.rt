// The module of a command: its text is read and accepted, or refused. It is the same for all commands.
ghost use Rattle.std.specs.Prelude.{◌+◌, ◌≡◌, List, ℕ, IfErr, IfOk, OnOk};
ghost use Rattle.command_answers.specs.Answer.{AnswersUnopened, IsOpened, Reports, port, source_of};
ghost use Rattle.command_answers.specs.Stream.{ConsumesAtMost};
ghost use Rattle.erl_syntax.specs.Reading.{longest_text};

use crate::status::Status;
use crate::streams::{ReadError, read_all, write_all};
use erl_syntax::LONGEST_TEXT;
use io_ports::{Sink, Source};
use module_accept::{Refusal, accept};
use module_check::Checked;
use std::alloc::Global;

/// The accepted module whose text the source holds.
///
/// # Errors
///
/// What the command answers without a module: the text is refused, and the line of its first fault is the report; a port failed; or
/// memory was wanting.
pub fn open<S: Source, A: Sink>(
    alloc: Global,
    source: &mut S,
    report: &mut A,
) -> Result<Checked, Status>
    ensures opened { IfOk result (λ checked. IsOpened (port S.left S.faults source.old source.new) checked.tree checked.vars.items) }
    ensures kept { OnOk result (report.new ≡ report.old) }
    ensures unopened { IfErr result (λ status. AnswersUnopened status
        (port S.left S.faults source.old source.new)
        (port A.written A.faults report.old report.new)) }
    ensures takes { ConsumesAtMost (S.left source.old) (S.left source.new) (longest_text + 1) }
{
    let text = match read_all(alloc, source, LONGEST_TEXT as u32) {
        Ok(text) => text,
        Err(ReadError::Fault) => return Err(Status::ReadFault),
        Err(ReadError::Memory) => return Err(Status::NoMemory),
    };
    open_text(alloc, &text, report)
}

/// The accepted module of a text.
///
/// # Errors
///
/// What the command answers without a module, as of a source that holds the text: the text is refused, and the line of its first
/// fault is the report; the report failed; or memory was wanting.
pub fn open_text<A: Sink>(alloc: Global, text: &[u8], report: &mut A) -> Result<Checked, Status>
    ensures opened { IfOk result (λ checked. IsOpened (source_of text.now) checked.tree checked.vars.items) }
    ensures kept { OnOk result (report.new ≡ report.old) }
    ensures unopened { IfErr result (λ status. AnswersUnopened status
        (source_of text.now)
        (port A.written A.faults report.old report.new)) }
{
    if text.len() > LONGEST_TEXT {
        return Err(reported(report, b"1:1: text too long\n", Status::Refused));
    }
    match accept(alloc, text) {
        Ok(checked) => Ok(checked),
        Err(Refusal::Line(line)) => Err(reported(report, &line, Status::Refused)),
        Err(Refusal::Memory) => Err(Status::NoMemory),
    }
}

/// Writes the text that is due to the report, and answers this status, or that the report failed.
pub fn reported<A: Sink>(report: &mut A, due: &[u8], good: Status) -> Status
    ensures { Reports good due.now result (port A.written A.faults report.old report.new) }
{
    match write_all(report, due) {
        Ok(()) => good,
        Err(_) => Status::ReportFault,
    }
}
