//! Scenes of engines: opening and closing them, what their clients do, and turns of their flushers.
ghost use Rattle.std.specs.Prelude.{◌≡◌};

use crate::clients::{OnClient, Served, Wish, make_turn};
use crate::harness::{ask, put, put_no_memory};
use crate::standing::{put_image, show_volume};
use crate::window;
use engine::{Client, Clients, CloseFault, Engine, EngineBuilder, EngineId, Flusher, Report};
use pathkey::SnapName;
use std::alloc::Global;
use std::io::Write;
use std::marker::Brand;
use std::sync::Wait;
use volume::Volume;

/// A scene of an engine.
#[derive(Clone, Copy)]
pub enum Scene<'a> {
    /// An engine builder is made for a volume between the two lines.
    Room,
    /// An engine is opened between the two lines.
    Open,
    /// What a client does.
    Client(Wish<'a>),
    /// A flusher is made between the two lines.
    Flusher,
    /// A turn of a flusher, after the given number of turns. A snapshot may be restored between its two critical sections.
    Turn(u32, Option<&'a SnapName>),
    /// The engine is closed between the two lines.
    Close,
}

/// What a client does.
fn by_client<J: EngineId, R: Wait + Print>(
    rt: &R,
    alloc: Global,
    client: Client<J>,
    wish: Wish<'_>,
    out: &mut Vec<u8>,
) {
    let served = Served { rt, client };
    ask(rt, alloc, &mut OnClient { served, wish }, out);
}

/// A flusher of an engine. It has no postcondition, so that other proofs do not unfold what an engine is.
fn flusher_of<J: EngineId>(engine: &mut Engine<J>) -> Option<Flusher<J>> {
    engine.flusher().ok()
}

/// A turn of a flusher.
fn by_flusher<J: EngineId, R: Wait + Print>(
    rt: &R,
    alloc: Global,
    engine: &mut Engine<J>,
    client: Client<J>,
    turns: u32,
    restored: Option<&SnapName>,
    out: &mut Vec<u8>,
) {
    match flusher_of(engine) {
        Some(flusher) => make_turn(rt, alloc, client, flusher, restored, turns, out),
        None => {}
    }
}

/// A flusher is made between the two lines.
fn make_flusher<J: EngineId, R: Print>(rt: &R, engine: &mut Engine<J>, out: &mut Vec<u8>) {
    window::open(rt);
    let made = flusher_of(engine);
    window::close(rt);
    put(out, "== answer\n");
    match made {
        Some(_) => put(out, "made\n"),
        None => put_no_memory(out),
    }
}

/// What is done with an engine of one client.
fn play<J: EngineId, R: Wait + Print>(
    rt: &R,
    alloc: Global,
    engine: &mut Engine<J>,
    client: Client<J>,
    scene: Scene<'_>,
    out: &mut Vec<u8>,
) {
    match scene {
        Scene::Client(wish) => by_client(rt, alloc, client, wish, out),
        Scene::Turn(turns, restored) => by_flusher(rt, alloc, engine, client, turns, restored, out),
        Scene::Flusher => make_flusher(rt, engine, out),
        Scene::Room | Scene::Open | Scene::Close => {}
    }
}

/// Prints what is left of an engine.
fn put_report(alloc: Global, report: &Report, out: &mut Vec<u8>) {
    let calls = report.calls;
    let _ = writeln!(out, "closed\ncalls {calls}");
    put_image(alloc, &report.tree, out);
}

/// Prints how closing an engine for the second time ended.
fn put_second<J: EngineId>(alloc: Global, ended: Result<Report, CloseFault<J>>, out: &mut Vec<u8>) {
    put(out, "== answer again\n");
    match ended {
        Ok(report) => put_report(alloc, &report, out),
        Err(_) => put(out, "not closed\n"),
    }
}

/// Closes an engine that could not be closed.
fn close_again<J: EngineId, R: Wait>(
    rt: &R,
    alloc: Global,
    engine: Engine<J>,
    clients: Clients<J>,
    out: &mut Vec<u8>,
) {
    put_no_memory(out);
    let ended = engine.close(rt, clients);
    put_second(alloc, ended, out);
}

/// Closes an engine between the two lines.
fn close_asked<J: EngineId, R: Wait + Print>(
    rt: &R,
    engine: Engine<J>,
    clients: Clients<J>,
) -> Result<Report, CloseFault<J>> {
    window::open(rt);
    let ended = engine.close(rt, clients);
    window::close(rt);
    ended
}

/// Prints why an engine was not closed; if an allocation failed, closes it again.
fn close_refused<J: EngineId, R: Wait>(
    rt: &R,
    alloc: Global,
    fault: CloseFault<J>,
    out: &mut Vec<u8>,
) {
    match fault {
        CloseFault::NoMemory(engine, clients) => close_again(rt, alloc, engine, clients, out),
        CloseFault::Missing(_engine, _clients) => put(out, "missing\n"),
    }
}

/// Closes an engine, and again if an allocation fails.
fn close<J: EngineId, R: Wait + Print>(
    rt: &R,
    alloc: Global,
    engine: Engine<J>,
    clients: Clients<J>,
    out: &mut Vec<u8>,
) {
    let ended = close_asked(rt, engine, clients);
    put(out, "== answer\n");
    match ended {
        Ok(report) => put_report(alloc, &report, out),
        Err(fault) => close_refused(rt, alloc, fault, out),
    }
}

/// What is done with an engine and its clients.
fn with<J: EngineId, R: Wait + Print>(
    rt: &R,
    alloc: Global,
    mut engine: Engine<J>,
    mut clients: Clients<J>,
    scene: Scene<'_>,
    out: &mut Vec<u8>,
) -> bool {
    if let Scene::Close = scene {
        close(rt, alloc, engine, clients, out);
        return true;
    }
    match clients.pop() {
        Some(client) => {
            play(rt, alloc, &mut engine, client, scene, out);
            true
        }
        None => false,
    }
}

/// Prints that an allocation failed, and the volume.
fn put_back(alloc: Global, volume: &Volume, out: &mut Vec<u8>) {
    put_no_memory(out);
    put(out, "== after\n");
    show_volume(alloc, volume, out);
}

/// An engine and its clients, or the volume.
type Opened<J> = Result<(Engine<J>, Clients<J>), Volume>;

/// Prints how opening an engine ended.
fn put_opened<J: EngineId>(alloc: Global, opened: Opened<J>, out: &mut Vec<u8>) {
    put(out, "== answer\n");
    match opened {
        Ok((_, clients)) => {
            let count = clients.len();
            let _ = writeln!(out, "opened\nclients {count}");
        }
        Err(volume) => put_back(alloc, &volume, out),
    }
}

/// Opens an engine with the volume of a builder between the two lines, and prints the result.
fn open_in<J: EngineId, R: Wait + Print>(
    rt: &R,
    alloc: Global,
    room: EngineBuilder,
    out: &mut Vec<u8>,
) -> bool
    requires { (room.0 ≡ J.table) × (room.1 ≡ J.opening) × (J.clients ≡ 1) }
{
    window::open(rt);
    let opened = Engine::<J>::open(alloc, room, 1);
    window::close(rt);
    put_opened(alloc, opened, out);
    true
}

/// Runs a scene on an engine with the volume of a builder.
fn in_room<J: EngineId, R: Wait + Print>(
    rt: &R,
    alloc: Global,
    room: EngineBuilder,
    scene: Scene<'_>,
    out: &mut Vec<u8>,
) -> bool
    requires { (room.0 ≡ J.table) × (room.1 ≡ J.opening) × (J.clients ≡ 1) }
{
    if let Scene::Open = scene {
        return open_in::<J, R>(rt, alloc, room, out);
    }
    match Engine::<J>::open(alloc, room, 1) {
        Ok((engine, clients)) => with(rt, alloc, engine, clients, scene, out),
        Err(_) => false,
    }
}

/// Runs a scene on an engine with the volume of a builder, with an identity of its own.
fn named<R: Wait + Print>(
    rt: &R,
    alloc: Global,
    room: EngineBuilder,
    scene: Scene<'_>,
    out: &mut Vec<u8>,
) -> bool {
    in_room::<Brand, R>(rt, alloc, room, scene, out)
}

/// Makes an engine builder for a volume between the two lines.
fn room_asked<R: Print>(rt: &R, alloc: Global, volume: Volume) -> Result<EngineBuilder, Volume> {
    window::open(rt);
    let made = EngineBuilder::new(alloc, volume);
    window::close(rt);
    made
}

/// Prints the result of making an engine builder.
fn put_room(alloc: Global, made: Result<EngineBuilder, Volume>, out: &mut Vec<u8>) {
    put(out, "== answer\n");
    match made {
        Ok(_) => put(out, "made\n"),
        Err(volume) => put_back(alloc, &volume, out),
    }
}

/// Makes an engine builder for a volume, and runs a scene on an engine with it, if that is not the scene; whether it came to its end.
pub fn over<R: Wait + Print>(
    rt: &R,
    alloc: Global,
    volume: Volume,
    scene: Scene<'_>,
    out: &mut Vec<u8>,
) -> bool {
    put(out, "== before\n");
    show_volume(alloc, &volume, out);
    if let Scene::Room = scene {
        put_room(alloc, room_asked(rt, alloc, volume), out);
        return true;
    }
    match EngineBuilder::new(alloc, volume) {
        Ok(room) => named(rt, alloc, room, scene, out),
        Err(_) => false,
    }
}
