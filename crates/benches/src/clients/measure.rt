//! Times the work of a number of threads, on each store.
ghost use Rattle.std.specs.Prelude.{◌≡◌, ◌≤◌};

use crate::clients::map::Files;
use crate::clients::work::{Alone, Kind, Share, Store, calls_of, do_share};
use crate::flushers::{Pace, Watch, start};
use engine::{Client, Engine, EngineBuilder, EngineId};
use node::Shape;
use std::alloc::Global;
use std::collections::BTreeMap;
use std::marker::Brand;
use std::rt::Clock;
use std::sync::atomic::{AtomicU64, Ordering};
use std::sync::{Mutex, Wait};
use std::thread::{Threads, for_each_mut, scope, scope_env};
use std::time::Instant;
use volume::Volume;

/// The shape of the trees.
const SHAPE: Shape = Shape::USUAL;

/// Nanoseconds of all calls of a kind, and the number of turns of flushers meanwhile.
#[derive(Clone, Copy)]
pub struct Figures {
    /// Of all creates.
    pub create: u64,
    /// Of all writes.
    pub write: u64,
    /// Of all stats.
    pub stat: u64,
    /// The number of turns.
    pub turns: u64,
}

impl Figures {
    /// The lesser times of both, and the greater number of turns.
    pub fn least(self, other: Figures) -> Figures {
        Figures {
            create: self.create.min(other.create),
            write: self.write.min(other.write),
            stat: self.stat.min(other.stat),
            turns: self.turns.max(other.turns),
        }
    }
}

/// Makes the calls of a kind with one thread for each store, which share the files. Returns the time; `None` if a call
/// had an unexpected reply.
fn time<S: Store + Send, R: Threads + Wait + Clock + Sync>(
    rt: &R,
    alloc: Global,
    stores: &mut [S],
    files: u64,
    kind: Kind,
) -> Option<u64> {
    let count = stores.len().max(1);
    let files = files.checked_div(count as u64)?;
    let wanted = calls_of(kind, files).wrapping_mul(count as u64);
    let done = AtomicU64::new(0);
    let start = Instant::now(rt).ok()?;
    for_each_mut(
        rt,
        stores,
        count,
        &|client, store| {
            let share = Share { client, files };
            done.fetch_add(do_share(rt, alloc, store, share, kind), Ordering::Relaxed);
        },
    );
    let time = u64::try_from(start.elapsed(rt).ok()?.as_nanos()).ok()?;
    (done.load(Ordering::Relaxed) == wanted).then_some(time)
}

/// Does all the work, one kind of call after the other.
fn time_all<S: Store + Send, R: Threads + Wait + Clock + Sync>(
    rt: &R,
    alloc: Global,
    stores: &mut [S],
    files: u64,
) -> Option<Figures> {
    time(rt, alloc, stores, files, Kind::Mkdir)?;
    Some(Figures {
        create: time(rt, alloc, stores, files, Kind::Create)?,
        write: time(rt, alloc, stores, files, Kind::Write)?,
        stat: time(rt, alloc, stores, files, Kind::Stat)?,
        turns: 0,
    })
}

/// A store that one thread calls.
fn alone<S: Store + Send + Drop, R: Threads + Wait + Clock + Sync>(
    rt: &R,
    alloc: Global,
    store: S,
    files: u64,
) -> Option<Figures> {
    let mut stores = Vec::new(alloc);
    match stores.push(store) {
        Ok(()) => time_all(rt, alloc, stores.as_mut_slice(), files),
        Err(_) => None,
    }
}

/// A new volume.
fn new_volume(alloc: Global) -> Option<Volume> {
    Volume::new(alloc, SHAPE).ok()
}

/// A volume that one thread calls, which may do one step after each call.
pub fn volume_alone<R: Threads + Wait + Clock + Sync>(
    rt: &R,
    alloc: Global,
    files: u64,
    is_relieved: bool,
) -> Option<Figures> {
    match new_volume(alloc) {
        Some(volume) => alone(
            rt,
            alloc,
            Alone {
                volume,
                is_relieved,
            },
            files,
        ),
        None => None,
    }
}

/// A map that is shared by that many threads.
fn share_map<R: Threads + Wait + Clock + Sync>(
    rt: &R,
    alloc: Global,
    map: &Mutex<Files>,
    files: u64,
    threads: usize,
) -> Option<Figures> {
    let mut stores = Vec::new(alloc);
    for _ in 0..threads {
        stores.push(map).ok()?;
    }
    time_all(rt, alloc, stores.as_mut_slice(), files)
}

/// A map under a lock, which that many threads call.
pub fn map_shared<R: Threads + Wait + Clock + Sync>(
    rt: &R,
    alloc: Global,
    files: u64,
    threads: usize,
) -> Option<Figures> {
    let map: Mutex<Files> = Mutex::new(BTreeMap::new(alloc));
    share_map(rt, alloc, &map, files, threads)
}

/// Clients do the work while flushers run turns.
fn beside<J: EngineId + Send + Sync, R: Threads + Wait + Clock + Sync>(
    rt: &R,
    alloc: Global,
    engine: &mut Engine<J>,
    clients: &mut [Client<J>],
    files: u64,
    flushers: u8,
) -> Option<Figures> {
    let watch = Watch::new(Pace::Many);
    let figures = scope(scope_env(), rt, |scope| {
        for _ in 0..flushers {
            if let Ok(flusher) = engine.flusher() {
                start(scope, rt, alloc, flusher, &watch);
            }
        }
        let figures = time_all(rt, alloc, clients, files);
        watch.end();
        figures
    })?;
    Some(Figures {
        turns: watch.turns().made,
        ..figures
    })
}

/// An engine of the builder, which that many clients call.
fn in_room<J: EngineId + Send + Sync, R: Threads + Wait + Clock + Sync>(
    rt: &R,
    alloc: Global,
    room: EngineBuilder,
    files: u64,
    clients: usize,
    flushers: u8,
) -> Option<Figures>
    requires names { (room.0 ≡ J.table) × (room.1 ≡ J.opening) × (J.clients ≡ clients) }
    requires few { (1 ≤ clients) × (clients ≤ 64) }
{
    match Engine::<J>::open(alloc, room, clients) {
        Ok((mut engine, mut clients)) => beside(
            rt,
            alloc,
            &mut engine,
            clients.as_mut_slice(),
            files,
            flushers,
        ),
        Err(_) => None,
    }
}

/// An engine builder with a new volume.
fn new_room(alloc: Global) -> Option<EngineBuilder> {
    match new_volume(alloc) {
        Some(volume) => EngineBuilder::new(alloc, volume).ok(),
        None => None,
    }
}

/// An engine which that many clients call while that many flushers run turns.
pub fn engine_shared<R: Threads + Wait + Clock + Sync>(
    rt: &R,
    alloc: Global,
    files: u64,
    clients: usize,
    flushers: u8,
) -> Option<Figures>
    requires { (1 ≤ clients) × (clients ≤ 64) }
{
    match new_room(alloc) {
        Some(room) => in_room::<Brand, R>(rt, alloc, room, files, clients, flushers),
        None => None,
    }
}
