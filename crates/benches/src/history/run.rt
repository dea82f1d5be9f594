//! Runs clients of one engine, each in a thread of its own, with flushers.
ghost use Rattle.std.specs.Prelude.{◌≡◌};

use crate::flushers::{Pace, Turns, Watch, start};
use crate::history::log::Log;
use crate::history::names::new_volume;
use crate::history::work::{Course, work};
use engine::{Client, Engine, EngineBuilder, EngineId};
use std::alloc::Global;
use std::marker::Brand;
use std::sync::{Mutex, Wait};
use std::thread::{Threads, for_each_mut, scope, scope_env};

/// The number of clients.
pub const CLIENTS: usize = 8;

/// The number of flushers.
pub const FLUSHERS: usize = 8;

/// Runs the clients. The order of their logs is arbitrary.
fn work_all<J: EngineId + Send + Sync, R: Threads + Wait + Sync>(
    rt: &R,
    alloc: Global,
    clients: &mut [Client<J>],
    course: &Course,
    logs: &Mutex<Vec<Log>>,
) {
    for_each_mut(
        rt,
        clients,
        CLIENTS,
        &|number, client| {
            let log = work(rt, alloc, client, number, course);
            let _ = logs.lock(rt).push(log);
        },
    );
}

/// Runs the clients while flushers run turns; returns the turns.
fn beside<J: EngineId + Send + Sync, R: Threads + Wait + Sync>(
    rt: &R,
    alloc: Global,
    engine: &mut Engine<J>,
    clients: &mut [Client<J>],
    course: &Course,
    logs: &Mutex<Vec<Log>>,
) -> Turns {
    let watch = Watch::new(Pace::Rests);
    scope(scope_env(), rt, |scope| {
        for _ in 0..FLUSHERS {
            if let Ok(flusher) = engine.flusher() {
                start(scope, rt, alloc, flusher, &watch);
            }
        }
        work_all(rt, alloc, clients, course, logs);
        watch.end();
    });
    watch.turns()
}

/// Runs the clients of an engine of the builder with flushers; returns the turns, and `None` if an allocation fails.
fn in_room<J: EngineId + Send + Sync, R: Threads + Wait + Sync>(
    rt: &R,
    alloc: Global,
    room: EngineBuilder,
    course: &Course,
    logs: &Mutex<Vec<Log>>,
) -> Option<Turns>
    requires names { (room.0 ≡ J.table) × (room.1 ≡ J.opening) × (J.clients ≡ 8) }
{
    match Engine::<J>::open(alloc, room, CLIENTS) {
        Ok((mut engine, mut clients)) => {
            let turns = beside(rt, alloc, &mut engine, clients.as_mut_slice(), course, logs);
            Some(turns)
        }
        Err(_) => None,
    }
}

/// An engine builder with a new volume.
fn new_room(alloc: Global) -> Option<EngineBuilder> {
    match new_volume(alloc) {
        Some(volume) => EngineBuilder::new(alloc, volume).ok(),
        None => None,
    }
}

/// The result of a workload.
#[derive(Drop)]
pub struct Outcome {
    /// The logs of the clients, in any order.
    pub logs: Vec<Log>,
    /// The turns of the flushers meanwhile.
    pub turns: Turns,
}

/// Makes the calls of a workload on an engine over a new volume; `None` if an allocation fails before the first.
pub fn run<R: Threads + Wait + Sync>(rt: &R, alloc: Global, course: &Course) -> Option<Outcome> {
    let logs: Mutex<Vec<Log>> = Mutex::new(Vec::new(alloc));
    match in_room::<Brand, R>(rt, alloc, new_room(alloc)?, course, &logs) {
        Some(turns) => Some(Outcome {
            logs: logs.into_inner(),
            turns,
        }),
        None => None,
    }
}
