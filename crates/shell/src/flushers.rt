//! Runs a script by one client of an engine, while flushers compact the trees in threads of their own.
ghost use Rattle.std.specs.Prelude.{◌≡◌};

use crate::client::run_watched;
use crate::script::{Ending, ScriptFault};
use crate::watch::Watch;
use engine::{Client, Clients, Engine, EngineBuilder, EngineId, Flusher};
use std::alloc::Global;
use std::io::{Read, Write};
use std::marker::Brand;
use std::sync::Wait;
use std::thread::{Scope, Threads, scope, scope_env};
use volume::{Frozen, Volume};

/// The number of turns of each flusher.
const TURNS: u32 = 1_000;

/// Runs the lines of the reader on the volume by one client, as `run_watched` does. Meanwhile the given number of flushers
/// run 1,000 turns each in threads of their own. All of them have ended when it returns. A flusher is left out if its thread
/// or an allocation fails.
///
/// Returns the tree that is live at the end. Also fails with `Memory` if another reference to its nodes cannot be taken.
pub fn run_with_flushers<H: Threads + Wait + Sync, R: Read, W: Write, V: Watch>(
    rt: &H,
    alloc: Global,
    volume: Volume,
    flushers: u8,
    reader: &mut R,
    writer: &mut W,
    watch: &mut V,
) -> Result<Frozen, Ending> {
    match EngineBuilder::new(alloc, volume) {
        Ok(room) => run_in::<Brand, H, R, W, V>(rt, alloc, room, flushers, reader, writer, watch),
        Err(volume) => {
            // Dropped by a call, so that the proof costs less.
            drop(volume);
            Err(Ending::Failed(ScriptFault::Memory))
        }
    }
}

/// Runs the lines, beside flushers, by the one client of an engine over the volume of the builder.
fn run_in<J: EngineId + Send + Sync, H: Threads + Wait + Sync, R: Read, W: Write, V: Watch>(
    rt: &H,
    alloc: Global,
    room: EngineBuilder,
    flushers: u8,
    reader: &mut R,
    writer: &mut W,
    watch: &mut V,
) -> Result<Frozen, Ending>
    requires { (room.0 ≡ J.table) × (room.1 ≡ J.opening) × (J.clients ≡ 1) }
{
    match Engine::<J>::open(alloc, room, 1) {
        Ok((engine, clients)) => {
            run_first(rt, alloc, engine, clients, flushers, reader, writer, watch)
        }
        Err(volume) => {
            // Dropped by a call, so that the proof costs less.
            drop(volume);
            Err(Ending::Failed(ScriptFault::Memory))
        }
    }
}

/// Runs the lines, beside flushers, by the client of an engine that has one.
fn run_first<J: EngineId + Send + Sync, H: Threads + Wait + Sync, R: Read, W: Write, V: Watch>(
    rt: &H,
    alloc: Global,
    mut engine: Engine<J>,
    mut clients: Clients<J>,
    flushers: u8,
    reader: &mut R,
    writer: &mut W,
    watch: &mut V,
) -> Result<Frozen, Ending> {
    let tree = match clients.pop() {
        Some(client) => run_by(
            rt,
            alloc,
            &mut engine,
            client,
            flushers,
            reader,
            writer,
            watch,
        ),
        // Unreachable: the engine was opened with one client.
        None => Err(Ending::Failed(ScriptFault::Memory)),
    };
    // Dropped by calls, so that the proof costs less.
    drop(clients);
    drop(engine);
    tree
}

/// Runs the lines, beside flushers, by this client. Returns the tree that is then live.
fn run_by<J: EngineId + Send + Sync, H: Threads + Wait + Sync, R: Read, W: Write, V: Watch>(
    rt: &H,
    alloc: Global,
    engine: &mut Engine<J>,
    mut client: Client<J>,
    flushers: u8,
    reader: &mut R,
    writer: &mut W,
    watch: &mut V,
) -> Result<Frozen, Ending> {
    let tree = match run_all(
        rt,
        alloc,
        engine,
        &mut client,
        flushers,
        reader,
        writer,
        watch,
    ) {
        Ok(()) => live_tree(rt, &mut client),
        Err(fault) => Err(fault),
    };
    // Dropped by a call, so that the proof costs less.
    drop(client);
    tree
}

/// Returns the live tree.
fn live_tree<J: EngineId, H: Wait>(rt: &H, client: &mut Client<J>) -> Result<Frozen, Ending> {
    match client.freeze(rt) {
        Ok(tree) => Ok(tree),
        Err(_) => Err(Ending::Failed(ScriptFault::Memory)),
    }
}

/// Starts the flushers, and runs the lines. All threads have ended when it returns.
fn run_all<J: EngineId + Send + Sync, H: Threads + Wait + Sync, R: Read, W: Write, V: Watch>(
    rt: &H,
    alloc: Global,
    engine: &mut Engine<J>,
    client: &mut Client<J>,
    flushers: u8,
    reader: &mut R,
    writer: &mut W,
    watch: &mut V,
) -> Result<(), Ending> {
    scope(scope_env(), rt, |scope| {
        for _ in 0..flushers {
            if let Ok(flusher) = engine.flusher() {
                start(scope, rt, alloc, flusher);
            }
        }
        run_watched(rt, alloc, client, reader, writer, watch)
    })
}

/// Starts a flusher in a thread of its own, if a thread can be started.
fn start<'s, E, J: EngineId + Send + Sync + 's, H: Wait + Sync>(
    scope: &Scope<'s, E>,
    rt: &'s H,
    alloc: Global,
    flusher: Flusher<J>,
) {
    let _ = scope.spawn(move || flush(rt, alloc, flusher));
}

/// Runs all turns of a flusher.
fn flush<J: EngineId, H: Wait>(rt: &H, alloc: Global, mut flusher: Flusher<J>) {
    flusher.run_flusher(rt, alloc, TURNS);
}
