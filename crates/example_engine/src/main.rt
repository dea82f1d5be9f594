//! `example_engine`: two clients of an engine, each in a thread of its own, beside a flusher.
#![tactic(auto)]

use engine::{Client, ClientTask, EngineBuilder, EngineId, Path, Reply, Report, Shape, Volume};
use std::alloc::Global;
use std::sync::Wait;
use std::thread::Threads;

/// Each client makes a directory of its own, and both one that both want.
#[derive(Drop)]
struct Makers;

impl ClientTask for Makers {
    fn run<J: EngineId, R: Wait>(
        &self,
        rt: &R,
        alloc: Global,
        number: usize,
        client: &mut Client<J>,
    ) {
        let name = if number == 0 { "/one" } else { "/two" };
        for name in [name, "/both"] {
            if let Ok(path) = Path::parse(alloc, name.as_bytes()) {
                let _ = client.mkdir(rt, alloc, &path, 0);
            }
        }
    }
}

/// What is left of an engine over a new volume.
fn served<R: Threads + Wait + Sync>(rt: &R, alloc: Global) -> Option<Report> {
    let volume = Volume::new(alloc, Shape::USUAL).ok()?;
    let room = EngineBuilder::new(alloc, volume).ok()?;
    room.serve(rt, alloc, 2, 1, &Makers).ok()
}

/// Whether a path stands in the tree at the end.
fn stands(alloc: Global, report: &Report, name: &str) -> bool {
    match Path::parse(alloc, name.as_bytes()) {
        Ok(path) => matches!(report.tree.stat(alloc, &path), Reply::Stat(_, _, _)),
        Err(_) => false,
    }
}

fn main(rt: HostRuntime) -> std::io::Result<()> {
    let Some(report) = served(&rt, rt.alloc()) else {
        return println!(rt; "no memory");
    };
    let is_there = stands(rt.alloc(), &report, "/both");
    let calls = report.calls;
    println!(rt; "{calls} calls; /both is there: {is_there}")
}
