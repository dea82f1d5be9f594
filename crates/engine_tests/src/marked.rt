//! Tests that an engine that is opened with a volume that has marks has none.
ghost use Rattle.std.specs.Prelude.{◌≡◌};

use crate::between::Nothing;
use crate::filled::marked_room;
use engine::{Engine, EngineBuilder, EngineId, Flusher, TurnReply};
use std::alloc::Global;
use std::marker::Brand;
use std::sync::Wait;

/// Whether a turn takes a job and installs it.
fn installs<J: EngineId, R: Wait>(rt: &R, alloc: Global, mut flusher: Flusher<J>) -> bool {
    flusher.turn(rt, alloc, &mut Nothing) == TurnReply::Installed
}

/// Whether a turn of a flusher of this engine takes a job and installs it.
fn installs_with<J: EngineId, R: Wait>(rt: &R, alloc: Global, engine: &mut Engine<J>) -> bool {
    match engine.flusher() {
        Ok(flusher) => installs(rt, alloc, flusher),
        Err(_) => false,
    }
}

/// Whether a turn of a flusher of an engine of this builder takes a job and installs it.
fn installs_in<J: EngineId, R: Wait>(rt: &R, alloc: Global, room: EngineBuilder) -> bool
    requires { (room.0 ≡ J.table) × (room.1 ≡ J.opening) × (J.clients ≡ 1) }
{
    match Engine::<J>::open(alloc, room, 1) {
        Ok((mut engine, _clients)) => installs_with(rt, alloc, &mut engine),
        Err(_) => false,
    }
}

/// An engine of this builder.
fn run<R: Wait>(rt: &R, alloc: Global, room: EngineBuilder) -> bool {
    installs_in::<Brand, R>(rt, alloc, room)
}

/// Whether the first turn takes a job, in a volume in which all slots with messages were marked.
fn takes_at_first<R: Wait>(rt: &R, alloc: Global) -> bool {
    match marked_room(alloc) {
        Some(room) => run(rt, alloc, room),
        None => false,
    }
}

#[test]
fn an_engine_opens_without_marks(rt: HostRuntime) {
    assert!(rt; takes_at_first(&rt, rt.alloc()));
}
