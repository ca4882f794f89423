// Calls of the top call over ports in memory.
use bits_top::{Status, top};
use io_ports::{MemSink, MemSource, NoGate, Source};
use std::alloc::{AllocError, Global};
use std::process::Abort;
use std::sync::Wait;
use std::test::Fail;
use std::thread::Threads;

// What a call answered and wrote, and how many of its reads failed.
#[derive(Debug, Drop)]
pub(crate) struct Answer {
    pub status: Status,
    pub report: Vec<u8>,
    pub order: Vec<u8>,
    pub reads_failed: u64,
}

// What the sources hold.
#[derive(Clone, Copy)]
pub(crate) struct Held<'a> {
    pub module: &'a [u8],
    pub order: &'a [u8],
}

// The number of each port's call that fails; no call has the number 0.
#[derive(Clone, Copy)]
pub(crate) struct Fails {
    pub module: u64,
    pub order_in: u64,
    pub report: u64,
    pub order_out: u64,
}

pub(crate) const NONE_FAILS: Fails = Fails {
    module: 0,
    order_in: 0,
    report: 0,
    order_out: 0,
};

const ROOM: u32 = 2_000_000;

fn words(alloc: Global, texts: &[&str]) -> Result<Vec<String>, AllocError> {
    let mut words = Vec::new(alloc);
    for text in texts {
        words.push(String::from_str(alloc, text)?)?;
    }
    Ok(words)
}

// Calls `top` with these words.
pub(crate) fn call(
    rt: &(impl Abort + Threads + Wait + Sync),
    alloc: Global,
    texts: &[&str],
    held: Held<'_>,
    fails: Fails,
) -> Result<Answer, Fail> {
    let words = words(alloc, texts)?;
    let mut module = MemSource::of(
        Vec::from_slice(alloc, held.module)?,
        [fails.module].to_vec(alloc)?,
    );
    let mut order_in = MemSource::of(
        Vec::from_slice(alloc, held.order)?,
        [fails.order_in].to_vec(alloc)?,
    );
    let mut report = MemSink::of(alloc, ROOM, [fails.report].to_vec(alloc)?)?;
    let mut order_out = MemSink::of(alloc, ROOM, [fails.order_out].to_vec(alloc)?)?;
    let status = top(
        rt,
        alloc,
        &words,
        &mut module,
        &mut order_in,
        &mut report,
        &mut order_out,
        &NoGate,
    );
    Ok(Answer {
        status,
        report: Vec::from_slice(alloc, report.bytes())?,
        order: Vec::from_slice(alloc, order_out.bytes())?,
        reads_failed: module.faults().saturating_add(order_in.faults()),
    })
}

// The text of the module `m` whose forms behind the first two lines are these.
pub(crate) fn module(alloc: Global, forms: &str) -> Result<String, AllocError> {
    format!(in alloc; "-module(m).\n-export([main/0]).\n{forms}\n")
}
