// Running an accepted module, which is read or generated.
ghost use Rattle.std.specs.Prelude.{◌+◌, IfOk};
ghost use Rattle.bits_top.specs.Answer.{AnswersLoad};
ghost use Rattle.bits_top.specs.Copying.{code_of};
ghost use Rattle.command_answers.specs.Answer.{AnswersRan, AnswersRun, port};
ghost use Rattle.command_answers.specs.Stream.{ConsumesAtMost};
ghost use Rattle.command_answers.specs.Whole.{IsRunOf};
ghost use Rattle.erl_syntax.specs.Reading.{longest_text};

use crate::command::{Generated, MOST_REDUCTIONS};
use command_answers::{Status, open, open_text, reported, write_all};
use copy_run::run_module;
use io_ports::{Sink, Source};
use module_check::Checked;
use module_gen::generate;
use std::alloc::{AllocError, Global};
use term_laws::outcome_reports;

// The texts of a run.
#[derive(Debug, Drop)]
struct Texts {
    order: Vec<u8>,
    report: Vec<u8>,
}

// Runs the module.
fn texts_of(alloc: Global, checked: &Checked, reductions: u32) -> Result<Texts, AllocError>
    ensures { IfOk result (λ texts. IsRunOf (code_of checked.now) reductions texts.order.items texts.report.items) }
{
    outcome_reports();
    let outcome = run_module(alloc, checked, reductions)?;
    let order = report_text::order(alloc, outcome.entries.items())?;
    let report = report_text::report(alloc, &outcome)?;
    Ok(Texts { order, report })
}

// Runs the module, and writes the order whole before the report.
fn run_checked<A: Sink, B: Sink>(
    alloc: Global,
    checked: &Checked,
    reductions: u32,
    report: &mut A,
    order: &mut B,
) -> Status
    ensures { AnswersRan reductions result
        (port A.written A.faults report.old report.new)
        (port B.written B.faults order.old order.new)
        (code_of checked.now) }
{
    let Ok(texts) = texts_of(alloc, checked, reductions) else {
        return Status::NoMemory;
    };
    if write_all(order, &texts.order).is_err() {
        return Status::OrderFault;
    }
    reported(report, &texts.report, Status::Done)
}

// Reads the module and runs it, or refuses its text.
pub(crate) fn run<S: Source, A: Sink, B: Sink>(
    alloc: Global,
    reductions: u32,
    source: &mut S,
    report: &mut A,
    order: &mut B,
) -> Status
    ensures answer { AnswersRun reductions result
        (port S.left S.faults source.old source.new)
        (port A.written A.faults report.old report.new)
        (port B.written B.faults order.old order.new) }
    ensures takes { ConsumesAtMost (S.left source.old) (S.left source.new) (longest_text + 1) }
{
    match open(alloc, source, report) {
        Ok(checked) => run_checked(alloc, &checked, reductions, report, order),
        Err(status) => status,
    }
}

// Runs the generated module with the most reductions.
pub(crate) fn load<A: Sink, B: Sink>(
    alloc: Global,
    input: Generated,
    report: &mut A,
    order: &mut B,
) -> Status
    ensures { AnswersLoad input result
        (port A.written A.faults report.old report.new)
        (port B.written B.faults order.old order.new) }
{
    let Ok(text) = generate(alloc, input.seed, input.size) else {
        return Status::NoMemory;
    };
    match open_text(alloc, &text, report) {
        Ok(checked) => run_checked(alloc, &checked, MOST_REDUCTIONS, report, order),
        Err(status) => status,
    }
}
