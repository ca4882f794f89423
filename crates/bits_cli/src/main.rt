//! The command line of the program: it makes the real ports and calls the top call.
#![tactic(auto)]

use bits_top::{Status, top};
use io_ports::{FileSink, FileSource, NoGate, OutSink};
use std::alloc::{AllocError, Global};
use std::env;
use std::process::ExitCode;
use std::rt::Files;
use std::sync::Wait;
use std::thread::Threads;

// The exit status of an answer.
fn exit_status(status: Status) -> u8 {
    match status {
        Status::Done => 0,
        Status::Refused => 1,
        Status::Usage => 2,
        Status::ReadFault => 3,
        Status::ReportFault => 4,
        Status::OrderFault => 5,
        Status::NoMemory => 6,
        Status::BadOrder => 7,
    }
}

// The word at a place, or no text. No port is opened unless the command uses it.
fn word(alloc: Global, words: &[String], at: usize) -> Result<String, AllocError> {
    match words.get(at) {
        Some(word) => word.clone(),
        None => Ok(String::new(alloc)),
    }
}

// The file that the order is written to.
fn order_path(alloc: Global, words: &[String]) -> Result<String, AllocError> {
    match words.first() {
        Some(name) if name.as_str() == "load" => String::from_str(alloc, "load.order"),
        _ => word(alloc, words, 2),
    }
}

fn answer<R: Files + Print + Threads + Wait + Sync>(
    rt: &R,
    alloc: Global,
    words: &[String],
) -> Result<Status, AllocError> {
    let mut module = FileSource::of(rt, word(alloc, words, 1)?);
    let mut order_in = FileSource::of(rt, word(alloc, words, 2)?);
    let mut report = OutSink::of(rt);
    let mut order_out = FileSink::of(rt, order_path(alloc, words)?);
    Ok(top(
        rt,
        alloc,
        words,
        &mut module,
        &mut order_in,
        &mut report,
        &mut order_out,
        &NoGate,
    ))
}

fn main(rt: HostRuntime) -> ExitCode {
    // A word that isn't UTF-8 is a faulty command line.
    let Ok(mut args) = env::args(&rt) else {
        return ExitCode::from(exit_status(Status::Usage));
    };
    let _name = args.next();
    let Ok(words) = args.collect::<Vec<String>>(rt.alloc()) else {
        return ExitCode::from(exit_status(Status::NoMemory));
    };
    let status = answer(&rt, rt.alloc(), &words).unwrap_or(Status::NoMemory);
    ExitCode::from(exit_status(status))
}
