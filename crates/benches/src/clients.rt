//! Measures clients of an engine, against a volume alone and a map of std under a lock.
//!
//! Without a word it does a little of the work and prints how many rows had the expected replies. `benches clients measure` prints
//! nanoseconds a call for each row, the least of five runs; `benches clients growth` those of one client with one flusher for more
//! and more files. `benches clients volume`, `relieved`, `client`, `flusher` and `map` do the work of one row once, for an external
//! measurement.
use crate::clients::table::{Row, few_calls, measure, measure_growth, show_once};
use std::alloc::Global;
use std::rt::Clock;
use std::sync::Wait;
use std::thread::Threads;

pub mod map;
pub mod measure;
pub mod table;
pub mod work;

/// The work that a word names.
pub fn do_work<R: Threads + Wait + Clock + Print + Eprint + Sync>(
    rt: &R,
    alloc: Global,
    word: &str,
) -> anyhow::Result<()> {
    match word {
        "" => few_calls(rt, alloc),
        "measure" => measure(rt, alloc),
        "growth" => measure_growth(rt, alloc),
        "volume" => show_once(rt, alloc, Row::Volume),
        "relieved" => show_once(rt, alloc, Row::Relieved),
        "client" => show_once(rt, alloc, Row::Engine(1, 0)),
        "flusher" => show_once(rt, alloc, Row::Engine(1, 1)),
        "map" => show_once(rt, alloc, Row::Map(1)),
        _ => {
            eprintln!(rt; "benches clients: no such work: {word}")?;
            Ok(())
        }
    }
}
