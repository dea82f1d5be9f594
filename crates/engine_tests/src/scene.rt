//! Tests of an engine with one client and one flusher.
ghost use Rattle.std.specs.Prelude.{◌≡◌};

use crate::between::{Interference, gives_back, interferes};
use crate::depth::{sinks, sinks_beside, takes_of_the_other};
use crate::requests::{SMALL, new_room};
use crate::unlocked::writes_meanwhile;
use engine::{Client, Engine, EngineBuilder, EngineId, Flusher};
use std::alloc::Global;
use std::marker::Brand;
use std::sync::Wait;
use std::thread::Threads;

/// A test.
#[derive(Clone, Copy)]
enum Scene {
    /// Many files are flushed.
    Sinks,
    /// That many files are created and flushed, with a turn after each.
    SinksBeside(u32),
    /// A job of the index with fewer pending messages is taken.
    TakesOfTheOther,
    /// A client does this between the two critical sections of a turn.
    GoesOn(Interference),
    /// A job is returned unbuilt.
    GivesBack,
    /// A client writes while a flusher builds.
    WritesMeanwhile,
}

/// Whether the test passes with this client and this flusher.
fn plays<J: EngineId + Send + Sync, R: Threads + Wait + Sync>(
    rt: &R,
    alloc: Global,
    client: Client<J>,
    flusher: Flusher<J>,
    scene: Scene,
) -> bool {
    match scene {
        Scene::Sinks => sinks(rt, alloc, client, flusher),
        Scene::SinksBeside(files) => sinks_beside(rt, alloc, client, flusher, files),
        Scene::TakesOfTheOther => takes_of_the_other(rt, alloc, client, flusher),
        Scene::GoesOn(interference) => interferes(rt, alloc, client, flusher, interference),
        Scene::GivesBack => gives_back(rt, alloc, client, flusher),
        Scene::WritesMeanwhile => writes_meanwhile(rt, alloc, client, flusher),
    }
}

/// Whether the test passes with the client and a flusher of this engine.
fn plays_with<J: EngineId + Send + Sync, R: Threads + Wait + Sync>(
    rt: &R,
    alloc: Global,
    engine: &mut Engine<J>,
    client: Option<Client<J>>,
    scene: Scene,
) -> bool {
    let Some(client) = client else {
        return false;
    };
    match engine.flusher() {
        Ok(flusher) => plays(rt, alloc, client, flusher, scene),
        Err(_) => false,
    }
}

/// Whether the test passes in an engine of one client.
fn plays_in<J: EngineId + Send + Sync, R: Threads + Wait + Sync>(
    rt: &R,
    alloc: Global,
    room: EngineBuilder,
    scene: Scene,
) -> bool
    requires { (room.0 ≡ J.table) × (room.1 ≡ J.opening) × (J.clients ≡ 1) }
{
    match Engine::<J>::open(alloc, room, 1) {
        Ok((mut engine, mut clients)) => {
            plays_with(rt, alloc, &mut engine, clients.pop(), scene)
        }
        Err(_) => false,
    }
}

/// Whether the test passes with this builder.
fn run<R: Threads + Wait + Sync>(rt: &R, alloc: Global, room: EngineBuilder, scene: Scene) -> bool {
    plays_in::<Brand, R>(rt, alloc, room, scene)
}

/// Whether the test passes.
fn is_seen<R: Threads + Wait + Sync>(rt: &R, alloc: Global, scene: Scene) -> bool {
    match new_room(alloc, SMALL) {
        Some(room) => run(rt, alloc, room, scene),
        None => false,
    }
}

#[test]
fn turns_make_a_deep_tree(rt: HostRuntime) {
    assert!(rt; is_seen(&rt, rt.alloc(), Scene::Sinks));
}

#[test]
fn each_turn_does_something_while_a_message_waits(rt: HostRuntime) {
    for files in [0, 1, 40, 300] {
        assert!(rt;
            is_seen(&rt, rt.alloc(), Scene::SinksBeside(files)),
            "at {files}"
        );
    }
}

#[test]
fn a_job_of_the_other_index_is_taken(rt: HostRuntime) {
    assert!(rt; is_seen(&rt, rt.alloc(), Scene::TakesOfTheOther));
}

#[test]
fn a_restore_makes_the_job_stale(rt: HostRuntime) {
    assert!(rt; is_seen(&rt, rt.alloc(), Scene::GoesOn(Interference::Restore)));
}

#[test]
fn a_write_stays_beside_the_job(rt: HostRuntime) {
    assert!(rt; is_seen(&rt, rt.alloc(), Scene::GoesOn(Interference::Write)));
}

#[test]
fn a_refused_job_leaves_no_mark(rt: HostRuntime) {
    assert!(rt; is_seen(&rt, rt.alloc(), Scene::GivesBack));
}

#[test]
fn a_client_writes_while_a_flusher_builds(rt: HostRuntime) {
    assert!(rt; is_seen(&rt, rt.alloc(), Scene::WritesMeanwhile));
}
