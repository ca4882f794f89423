// The top call: the words of a command line, the ports, the answer.
ghost use Rattle.std.specs.Prelude.{◌≡◌, ◌↔◌, ◌+◌, List, map, string_bytes};
ghost use Rattle.bits_top.specs.Answer.{AnswersCommand, AnswersPlain, DoesWell, PlainDoesWell};
ghost use Rattle.bits_top.specs.Command.{SpellsCommand};
ghost use Rattle.bits_top.specs.declared.command.Command.{Command};
ghost use Rattle.command_answers.specs.Answer.{AnswersCheck, AnswersGen, Untouched, port};
ghost use Rattle.command_answers.specs.Stream.{ConsumesAtMost};
ghost use Rattle.erl_syntax.specs.Reading.{longest_text};
ghost use Rattle.module_gen.specs.Generated.{generated};
ghost use Rattle.term_value.specs.Orders.{order_bound};

use crate::command::{Command, command_of};
use crate::copying::copy;
use crate::running::{load, run};
use crate::{Plain, Status};
use command_answers::{checks_well, copies_well, gens_well, open, reported, runs_well};
use io_ports::{Gate, Place, Sink, Source};
use module_gen::generate;
use std::alloc::Global;
use std::sync::Wait;
use std::thread::Threads;

/// Does what the words of a command line ask for, over these ports, and answers how it ended.
///
/// The words are those after the program's own name. The file names stand in them for the caller, who opens the files.
///
/// - `run MODULE ORDER SCHEDULERS REDUCTIONS` reads the module's text from `module`, writes the order of the visible acts to
///   `order_out`, and then the report to `report`. One thread serves for every number of schedulers.
/// - `load SEED SIZE SCHEDULERS` does so with the text of the generated module and 4,000,000 reductions, and reads nothing.
/// - `check MODULE` reads the module's text and writes `ok` to `report`.
/// - `copy MODULE ORDER REDUCTIONS` reads the module's text and an order from `order_in`, and writes the report of the module in
///   that order to `report`, or the line of the order's first fault.
/// - `gen SEED SIZE` writes the text of the generated module to `report`.
///
/// A text that isn't accepted is refused by all that check it, with the line of its first fault as the report. A port that the command
/// doesn't name here isn't used.
pub fn top<R: Threads + Wait + Sync, S: Source, T: Source, A: Sink, B: Sink, G: Gate + Sync>(
    _rt: &R,
    alloc: Global,
    words: &[String],
    module: &mut S,
    order_in: &mut T,
    report: &mut A,
    order_out: &mut B,
    gate: &G,
) -> Status
    ensures usage { result ≡ Status.Usage ↔ ((command : Command) → SpellsCommand (map string_bytes words.now) command → ⊥) }
    ensures idle { result ≡ Status.Usage →
        Untouched (port S.left S.faults «module».old «module».new)
        × Untouched (port T.left T.faults order_in.old order_in.new)
        × Untouched (port A.written A.faults report.old report.new)
        × Untouched (port B.written B.faults order_out.old order_out.new) }
    ensures answers { (command : Command) → SpellsCommand (map string_bytes words.now) command → AnswersCommand command result
        (port S.left S.faults «module».old «module».new)
        (port T.left T.faults order_in.old order_in.new)
        (port A.written A.faults report.old report.new)
        (port B.written B.faults order_out.old order_out.new) }
    ensures complete { (command : Command) → SpellsCommand (map string_bytes words.now) command → DoesWell command result
        (port S.left S.faults «module».old «module».new)
        (port T.left T.faults order_in.old order_in.new)
        (port A.written A.faults report.old report.new)
        (port B.written B.faults order_out.old order_out.new) }
    ensures takes { ConsumesAtMost (S.left «module».old) (S.left «module».new) (longest_text + 1) }
    ensures takes_order { ConsumesAtMost (T.left order_in.old) (T.left order_in.new) (order_bound + 1) }
{
    runs_well();
    match command_of(words) {
        None => Status::Usage,
        Some(Command::Run(asked)) => {
            gate.at(Place::Took { worker: 0, pid: 1 });
            run(alloc, asked.reductions, module, report, order_out)
        }
        Some(Command::Load(asked)) => {
            gate.at(Place::Took { worker: 0, pid: 1 });
            load(alloc, asked.input, report, order_out)
        }
        Some(Command::Plain(plain)) => top_plain(alloc, &plain, module, order_in, report),
    }
}

/// Does what a command that waits for nothing asks for, over these ports, and answers how it ended.
///
/// `Check` reads the module's text from `module` and writes `ok` to `report`, and doesn't use `order_in`. `Copy` reads the module's
/// text and the order, and writes the report of the module in that order, or the line of the order's first fault. Both write the
/// line of the first fault of a text that isn't accepted. `Gen` writes the text of the generated module, and uses `report` alone.
pub fn top_plain<S: Source, T: Source, A: Sink>(
    alloc: Global,
    command: &Plain,
    module: &mut S,
    order_in: &mut T,
    report: &mut A,
) -> Status
    ensures answers { AnswersPlain command.now result
        (port S.left S.faults «module».old «module».new)
        (port T.left T.faults order_in.old order_in.new)
        (port A.written A.faults report.old report.new) }
    ensures complete { PlainDoesWell command.now result
        (port S.left S.faults «module».old «module».new)
        (port T.left T.faults order_in.old order_in.new)
        (port A.written A.faults report.old report.new) }
    ensures takes { ConsumesAtMost (S.left «module».old) (S.left «module».new) (longest_text + 1) }
    ensures takes_order { ConsumesAtMost (T.left order_in.old) (T.left order_in.new) (order_bound + 1) }
{
    checks_well();
    copies_well();
    gens_well();
    match command {
        Plain::Check => check(alloc, module, report),
        Plain::Copy { reductions } => copy(alloc, *reductions, module, order_in, report),
        Plain::Gen { seed, size } => write_generated(alloc, *seed, *size, report),
    }
}

// Reads the module, and finds it accepted or refuses its text.
fn check<S: Source, A: Sink>(alloc: Global, source: &mut S, report: &mut A) -> Status
    ensures answer { AnswersCheck result
        (port S.left S.faults source.old source.new)
        (port A.written A.faults report.old report.new) }
    ensures takes { ConsumesAtMost (S.left source.old) (S.left source.new) (longest_text + 1) }
{
    match open(alloc, source, report) {
        Ok(_) => reported(report, b"ok\n", Status::Done),
        Err(status) => status,
    }
}

// Writes the text of the generated module.
fn write_generated<A: Sink>(alloc: Global, seed: u32, size: u32, report: &mut A) -> Status
    ensures { AnswersGen (generated seed size) result (port A.written A.faults report.old report.new) }
{
    match generate(alloc, seed, size) {
        Ok(text) => reported(report, &text, Status::Done),
        Err(_) => Status::NoMemory,
    }
}
