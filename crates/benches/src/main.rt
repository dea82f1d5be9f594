//! `benches`: times against a map of std, in one run, and histories for an external checker; what scripts can measure is in `bench/`.
//!
//! The first word chooses what: `benches tree` measures a tree (`tree.rt`), `benches clients` clients of an engine and a volume alone
//! (`clients.rt`), `benches history` records the answers of clients (`history.rt`). The next words choose the work. Without them a
//! little is done of clients' work, and without the first a little of both.
#![tactic(auto)]

use std::alloc::Global;
use std::rt::Clock;
use std::sync::Wait;
use std::thread::Threads;

pub mod clients;
pub mod flushers;
pub mod history;
pub mod paths;
pub mod tree;

fn main(rt: HostRuntime) -> anyhow::Result<()> {
    let words: Vec<String> = std::env::args(&rt)?.collect(rt.alloc())?;
    do_work(&rt, rt.alloc(), words.as_slice())
}

/// Does the work that the words choose.
fn do_work<R: Threads + Wait + Clock + Print + Eprint + Sync>(
    rt: &R,
    alloc: Global,
    words: &[String],
) -> anyhow::Result<()> {
    let work = word_at(words, 2);
    let calls = word_at(words, 3);
    match word_at(words, 1) {
        "" => {
            clients::do_work(rt, alloc, work)?;
            history::do_work(rt, alloc, work, calls)
        }
        "tree" => tree::do_work(rt, alloc, work),
        "clients" => clients::do_work(rt, alloc, work),
        "history" => history::do_work(rt, alloc, work, calls),
        word => {
            eprintln!(rt; "benches: no such work: {word}")?;
            Ok(())
        }
    }
}

/// The word at an index, or an empty one if there is none.
fn word_at(words: &[String], place: usize) -> &str {
    match words.get(place) {
        Some(word) => word.as_str(),
        None => "",
    }
}
