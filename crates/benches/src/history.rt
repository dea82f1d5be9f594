//! Records histories: clients and flushers of one engine over a tree that all share, with each call's begin, end and answer by a
//! clock that all share.
//!
//! `benches history SEED CALLS` makes about that many calls, and prints a line for each; without numbers it makes a few, and prints
//! how many there were. `tests/history/run` checks whether one order explains them.
use crate::flushers::Turns;
use crate::history::log::Log;
use crate::history::names::{AREAS, SNAPSHOTS};
use crate::history::run::{CLIENTS, FLUSHERS, Outcome, run};
use crate::history::work::Course;
use std::alloc::Global;
use std::io;
use std::io::{BufWriter, Write};
use std::sync::Wait;
use std::sync::atomic::AtomicU64;
use std::thread::Threads;

pub mod call;
pub mod draw;
pub mod log;
pub mod names;
pub mod run;
pub mod work;

/// The number of calls of each client if the words are not two numbers.
const FEW: u64 = 200;

/// Makes about that many calls that a seed chooses; a few if the words are not two numbers.
pub fn do_work<R: Threads + Wait + Print + Sync>(
    rt: &R,
    alloc: Global,
    seed: &str,
    calls: &str,
) -> anyhow::Result<()> {
    match (number(seed), number(calls)) {
        (Some(seed), Some(calls)) => show(rt, alloc, &new_course(seed, calls), io::writer(rt)),
        _ => few_calls(rt, alloc),
    }
}

/// The number in a word.
fn number(word: &str) -> Option<u64> {
    word.parse::<u64>().ok()
}

/// A workload of about that many calls of all clients together.
fn new_course(seed: u64, calls: u64) -> Course {
    Course {
        seed: (seed % 65_536) as u32,
        calls: calls.div_ceil(CLIENTS as u64),
        clock: AtomicU64::new(0),
    }
}

/// Makes a few calls, and prints how many were logged.
fn few_calls<R: Threads + Wait + Print + Sync>(rt: &R, alloc: Global) -> anyhow::Result<()> {
    let course = new_course(1, FEW * CLIENTS as u64);
    let logged = match run(rt, alloc, &course) {
        Some(outcome) => logged(outcome.logs.as_slice()),
        None => 0,
    };
    println!(rt; "{logged} calls of {CLIENTS} clients beside {FLUSHERS} flushers")?;
    Ok(())
}

/// The number of calls in the logs.
fn logged(logs: &[Log]) -> usize {
    let mut logged = 0usize;
    for log in logs {
        logged = logged.wrapping_add(log.made);
    }
    logged
}

/// Makes the calls of a workload, and prints the result: nothing if an allocation fails.
fn show<R: Threads + Wait + Sync, W: Write + Drop>(
    rt: &R,
    alloc: Global,
    course: &Course,
    out: W,
) -> anyhow::Result<()> {
    match run(rt, alloc, course) {
        Some(outcome) => print_outcome(alloc, &outcome, out),
        None => Ok(()),
    }
}

/// Prints the result of a workload, buffered into large writes.
fn print_outcome<W: Write + Drop>(alloc: Global, outcome: &Outcome, out: W) -> anyhow::Result<()> {
    let mut out = BufWriter::new(alloc, out)?;
    print_whole(&mut out, outcome)?;
    Ok(())
}

/// Prints the whole result of a workload.
fn print_whole<W: Write>(out: &mut W, outcome: &Outcome) -> io::Result<()> {
    print_all(out, outcome.logs.as_slice(), outcome.turns)?;
    out.flush()
}

/// Prints a line with the parameters, the lines of all calls, and one of what flushers did.
fn print_all<W: Write>(out: &mut W, logs: &[Log], turns: Turns) -> io::Result<()> {
    writeln!(out, "history {CLIENTS} {AREAS} {SNAPSHOTS}")?;
    for log in logs {
        out.write_all(log.text.as_bytes())?;
    }
    let (made, installed, stale) = (turns.made, turns.installed, turns.stale);
    writeln!(out, "turns {made} {installed} {stale}")
}
