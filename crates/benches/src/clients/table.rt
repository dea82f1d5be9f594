//! The table of figures, and a little of the work.
use crate::clients::measure::{Figures, engine_shared, map_shared, volume_alone};
use std::alloc::Global;
use std::rt::Clock;
use std::sync::Wait;
use std::thread::Threads;

/// The total number of files: a power of two.
const FILES: u64 = 65_536;

/// The number of runs of each row.
const RUNS: u32 = 5;

/// The number of files if only a little of the work is done.
const FEW: u64 = 64;

/// A row of the table.
#[derive(Clone, Copy)]
pub enum Row {
    /// A volume alone.
    Volume,
    /// A volume alone, with one step after each call.
    Relieved,
    /// That many threads on a map under a lock.
    Map(usize),
    /// That many clients of an engine, with that many flushers.
    Engine(usize, u8),
}

/// The rows.
const ROWS: &[Row] = &[
    Row::Volume,
    Row::Relieved,
    Row::Engine(1, 0),
    Row::Engine(2, 0),
    Row::Engine(4, 0),
    Row::Engine(1, 1),
    Row::Engine(2, 1),
    Row::Engine(4, 1),
    Row::Engine(1, 2),
    Row::Engine(2, 2),
    Row::Engine(4, 2),
    Row::Map(1),
    Row::Map(2),
    Row::Map(4),
];

/// The figures of a row, of one run.
fn figures_of<R: Threads + Wait + Clock + Sync>(
    rt: &R,
    alloc: Global,
    row: Row,
    files: u64,
) -> Option<Figures> {
    match row {
        Row::Volume => volume_alone(rt, alloc, files, false),
        Row::Relieved => volume_alone(rt, alloc, files, true),
        Row::Map(threads) => map_shared(rt, alloc, files, threads),
        Row::Engine(clients, flushers) => {
            engine_shared(rt, alloc, files, clients.clamp(1, 64), flushers)
        }
    }
}

/// The least figures of all runs.
fn least_of<R: Threads + Wait + Clock + Sync>(
    rt: &R,
    alloc: Global,
    row: Row,
    files: u64,
) -> Option<Figures> {
    let mut least = figures_of(rt, alloc, row, files)?;
    for _ in 1..RUNS {
        least = least.least(figures_of(rt, alloc, row, files)?);
    }
    Some(least)
}

/// Prints the name of a row.
fn show_name(rt: &impl Print, row: Row) -> anyhow::Result<()> {
    match row {
        Row::Volume => print!(rt; "volume alone: ")?,
        Row::Relieved => print!(rt; "volume, one step after each call: ")?,
        Row::Map(threads) => print!(rt; "map, threads {threads}: ")?,
        Row::Engine(clients, flushers) => {
            print!(rt; "clients {clients}, flushers {flushers}: ")?
        }
    }
    Ok(())
}

/// Nanoseconds for each of that many files.
fn each(time: u64, files: u64) -> u64 {
    time.checked_div(files).unwrap_or(0)
}

/// Prints the figures of a row.
fn show_figures(rt: &impl Print, figures: Figures, files: u64) -> anyhow::Result<()> {
    let all = figures
        .create
        .saturating_add(figures.write)
        .saturating_add(figures.stat);
    let create = each(figures.create, files);
    let write = each(figures.write, files);
    let stat = each(figures.stat, files);
    let rate = files
        .saturating_mul(3_000_000)
        .checked_div(all)
        .unwrap_or(0);
    let turns = figures.turns;
    println!(rt;
        "create {create} ns, write {write} ns, stat {stat} ns; {rate} thousand calls a second; {turns} turns"
    )?;
    Ok(())
}

/// Prints a row.
fn show(rt: &impl Print, row: Row, figures: Option<Figures>, files: u64) -> anyhow::Result<()> {
    show_name(rt, row)?;
    match figures {
        Some(figures) => show_figures(rt, figures, files),
        None => {
            println!(rt; "not all calls were answered as they have to be")?;
            Ok(())
        }
    }
}

/// Prints all rows.
pub fn measure<R: Threads + Wait + Clock + Print + Sync>(
    rt: &R,
    alloc: Global,
) -> anyhow::Result<()> {
    for row in ROWS {
        show(rt, *row, least_of(rt, alloc, *row, FILES), FILES)?;
    }
    Ok(())
}

/// Prints the row of one client with one flusher for twice and four times as many files.
pub fn measure_growth<R: Threads + Wait + Clock + Print + Sync>(
    rt: &R,
    alloc: Global,
) -> anyhow::Result<()> {
    let row = Row::Engine(1, 1);
    for files in [FILES / 2, FILES, 2 * FILES] {
        print!(rt; "{files} files, ")?;
        show(rt, row, least_of(rt, alloc, row, files), files)?;
    }
    Ok(())
}

/// Prints one run of a row.
pub fn show_once<R: Threads + Wait + Clock + Print + Sync>(
    rt: &R,
    alloc: Global,
    row: Row,
) -> anyhow::Result<()> {
    show(rt, row, figures_of(rt, alloc, row, FILES), FILES)
}

/// A little of the work.
pub fn few_calls<R: Threads + Wait + Clock + Print + Sync>(
    rt: &R,
    alloc: Global,
) -> anyhow::Result<()> {
    let mut right = 0u64;
    for row in ROWS {
        let is_right = figures_of(rt, alloc, *row, FEW).is_some();
        right = right.wrapping_add(u64::from(is_right));
    }
    let rows = ROWS.len();
    println!(rt; "{right} of {rows} rows answered as they have to be")?;
    Ok(())
}
