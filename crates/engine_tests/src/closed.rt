//! Tests of an engine that ends between the two critical sections of a turn.
ghost use Rattle.std.specs.Prelude.{◌≡◌};

use crate::between::prepares;
use crate::requests::{SMALL, new_room};
use engine::{Between, Clients, Engine, EngineBuilder, EngineId, Flusher, TurnReply};
use std::alloc::Global;
use std::marker::Brand;
use std::sync::Wait;

/// Closes the engine between taking and installing.
#[derive(Drop)]
struct Closes<'a, J: EngineId, R: Wait> {
    rt: &'a R,
    whole: Option<(Engine<J>, Clients<J>)>,
    is_ended: bool,
}

impl<'a, J: EngineId, R: Wait> Between for Closes<'a, J, R> {
    fn between(&mut self) {
        if let Some((engine, clients)) = self.whole.take() {
            self.is_ended = engine.close(self.rt, clients).is_ok();
        }
    }
}

/// Whether a job can be taken after the one client has made its calls.
fn is_ready<J: EngineId, R: Wait>(
    rt: &R,
    alloc: Global,
    clients: &mut Clients<J>,
    flusher: &mut Flusher<J>,
) -> bool {
    match clients.pop() {
        Some(mut client) => {
            let is_ready = prepares(rt, alloc, &mut client, flusher);
            clients.push(client).is_ok() && is_ready
        }
        None => false,
    }
}

/// The reply of the turn during which the engine ends, and that of the next one.
fn last_turns<J: EngineId, R: Wait>(
    rt: &R,
    alloc: Global,
    engine: Engine<J>,
    clients: Clients<J>,
    flusher: &mut Flusher<J>,
) -> Option<(TurnReply, TurnReply)> {
    let mut between = Closes {
        rt,
        whole: Some((engine, clients)),
        is_ended: false,
    };
    let first = flusher.turn(rt, alloc, &mut between);
    let second = flusher.turn(rt, alloc, &mut between);
    between.is_ended.then_some((first, second))
}

/// The reply of the turn during which an engine with one client and this builder ends, and that of the next one.
fn ends_in<J: EngineId, R: Wait>(
    rt: &R,
    alloc: Global,
    room: EngineBuilder,
) -> Option<(TurnReply, TurnReply)>
    requires { (room.0 ≡ J.table) × (room.1 ≡ J.opening) × (J.clients ≡ 1) }
{
    let (mut engine, mut clients) = Engine::<J>::open(alloc, room, 1).ok()?;
    let mut flusher = engine.flusher().ok()?;
    if !is_ready(rt, alloc, &mut clients, &mut flusher) {
        return None;
    }
    last_turns(rt, alloc, engine, clients, &mut flusher)
}

/// An engine of this builder.
fn run<R: Wait>(rt: &R, alloc: Global, room: EngineBuilder) -> Option<(TurnReply, TurnReply)> {
    ends_in::<Brand, R>(rt, alloc, room)
}

/// Whether the turn is stale, and the next one idle.
fn is_stale_then_idle<R: Wait>(rt: &R, alloc: Global) -> bool {
    match new_room(alloc, SMALL) {
        Some(room) => run(rt, alloc, room) == Some((TurnReply::Stale, TurnReply::Idle)),
        None => false,
    }
}

#[test]
fn a_turn_in_whose_middle_the_engine_ends_is_stale(rt: HostRuntime) {
    assert!(rt; is_stale_then_idle(&rt, rt.alloc()));
}
