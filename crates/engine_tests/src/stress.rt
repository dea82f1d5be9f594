//! Tests of eight clients and four flushers at once, in a tree that is deep enough for jobs, with snapshots and
//! restores between.
ghost use Rattle.std.specs.Prelude.{◌≡◌};

use crate::filled::{FIRST, kept_room};
use crate::own::{CLIENTS, LATER, Own, rest, work};
use crate::requests::name_of;
use crate::tally::{Course, Tally};
use engine::{Between, Client, Clients, Engine, EngineBuilder, EngineId, Flusher, TurnReply};
use std::alloc::Global;
use std::marker::Brand;
use std::sync::Wait;
use std::thread::{Scope, Threads, for_each_mut, scope, scope_env};
use volume::{Done, Job};

/// The number of flushers, each with a client of its own, which restores.
const FLUSHERS: usize = 4;

/// The number of turns of a flusher between two checks of the clients if nothing is restored.
const TURNS: u32 = 64;

/// The maximal number of turns of a flusher after the clients are done.
const LEFT: u32 = 10_000;

/// A flusher's client. If the flusher's turn has taken a job and the next restore is due, it restores a snapshot, so
/// that the job is stale. Otherwise it sleeps, so that clients can run between.
#[derive(Drop)]
struct Restorer<'a, J: EngineId, R: Wait> {
    rt: &'a R,
    alloc: Global,
    client: Client<J>,
    tally: &'a Tally,
    is_taken: bool,
}

impl<'a, J: EngineId, R: Wait> Between for Restorer<'a, J, R> {
    fn build(&mut self, alloc: Global, job: Job) -> Result<Done, Job> {
        self.is_taken = true;
        job.build(alloc)
    }

    fn between(&mut self) {
        if self.is_taken && self.tally.wants_restore() {
            restores(self.rt, self.alloc, &mut self.client, self.tally);
        } else {
            rest(self.rt);
        }
    }
}

/// Whether the snapshot of a name is restored.
fn restores_one<J: EngineId, R: Wait>(
    rt: &R,
    alloc: Global,
    client: &mut Client<J>,
    text: &str,
) -> bool {
    match name_of(alloc, text) {
        Some(name) => client.restore(rt, &name).is_ok(),
        None => false,
    }
}

/// Restores a snapshot, and reports when it begins and ends.
fn restores<J: EngineId, R: Wait>(rt: &R, alloc: Global, client: &mut Client<J>, tally: &Tally) {
    tally.begin_restore();
    let is_later = matches!(tally.course, Course::Later) && restores_one(rt, alloc, client, LATER);
    let is_done = is_later || restores_one(rt, alloc, client, FIRST);
    tally.end_restore(is_done);
}

/// A turn with a restore or a sleep in it. If nothing is pending any more, a restore follows, so that there is more to
/// do.
fn turn<J: EngineId, R: Wait>(
    rt: &R,
    alloc: Global,
    flusher: &mut Flusher<J>,
    restorer: &mut Restorer<'_, J, R>,
) {
    restorer.is_taken = false;
    let reply = flusher.turn(rt, alloc, restorer);
    restorer.tally.note_turn(reply);
    if reply == TurnReply::Idle {
        restores(rt, alloc, &mut restorer.client, restorer.tally);
    }
}

/// A turn or, if nothing is restored, many with the flusher's own sleeps between them.
fn turns<J: EngineId, R: Wait>(
    rt: &R,
    alloc: Global,
    flusher: &mut Flusher<J>,
    restorer: &mut Restorer<'_, J, R>,
) {
    if restorer.tally.has_restores() {
        turn(rt, alloc, flusher, restorer);
    } else {
        flusher.run_flusher(rt, alloc, TURNS);
    }
}

/// Runs turns until the clients are done, and enough jobs were installed and stale.
fn flush<J: EngineId, R: Wait>(
    rt: &R,
    alloc: Global,
    mut flusher: Flusher<J>,
    mut restorer: Restorer<'_, J, R>,
) {
    let mut left = LEFT;
    for _ in 0..u64::MAX {
        if restorer.tally.is_done() {
            if restorer.tally.is_enough() || left == 0 {
                return;
            }
            left -= 1;
        }
        turns(rt, alloc, &mut flusher, &mut restorer);
    }
}

/// Starts a flusher with its client in a thread of its own.
fn start<'s, E, J: EngineId + Send + Sync + 's, R: Wait + Sync>(
    scope: &Scope<'s, E>,
    rt: &'s R,
    alloc: Global,
    flusher: Flusher<J>,
    client: Client<J>,
    tally: &'s Tally,
) {
    let _ = scope.spawn(move || {
        let restorer = Restorer {
            rt,
            alloc,
            client,
            tally,
            is_taken: false,
        };
        flush(rt, alloc, flusher, restorer)
    });
}

/// Starts a flusher of the engine with this client, if both exist.
fn hire<'s, E, J: EngineId + Send + Sync + 's, R: Wait + Sync>(
    scope: &Scope<'s, E>,
    rt: &'s R,
    alloc: Global,
    engine: &mut Engine<J>,
    client: Option<Client<J>>,
    tally: &'s Tally,
) {
    let Some(client) = client else {
        return;
    };
    if let Ok(flusher) = engine.flusher() {
        start(scope, rt, alloc, flusher, client, tally);
    }
}

/// Runs the clients, each in a thread of its own.
fn work_all<J: EngineId + Send + Sync, R: Threads + Wait + Sync>(
    rt: &R,
    alloc: Global,
    clients: &mut [Client<J>],
    tally: &Tally,
) {
    for_each_mut(
        rt,
        clients,
        CLIENTS,
        &|number, client| {
            let is_right = work(rt, alloc, client, Own::new(number), tally);
            tally.note(is_right);
        },
    );
}

/// Runs the clients while flushers run turns. Returns whether each client had possible replies, each of its calls was
/// recorded once, and enough jobs were installed and stale.
fn beside<J: EngineId + Send + Sync, R: Threads + Wait + Sync>(
    rt: &R,
    alloc: Global,
    engine: &mut Engine<J>,
    clients: &mut Clients<J>,
    course: Course,
) -> bool {
    let tally = Tally::new(course);
    scope(scope_env(), rt, |scope| {
        for _ in 0..FLUSHERS {
            hire(scope, rt, alloc, engine, clients.pop(), &tally);
        }
        work_all(rt, alloc, clients.as_mut_slice(), &tally);
        tally.end();
    });
    tally.is_right(CLIENTS as u64)
}

/// Whether the clients of an engine of the builder have possible replies with flushers running, and enough jobs are installed and
/// stale.
fn in_room<J: EngineId + Send + Sync, R: Threads + Wait + Sync>(
    rt: &R,
    alloc: Global,
    room: EngineBuilder,
    course: Course,
) -> bool
    requires { (room.0 ≡ J.table) × (room.1 ≡ J.opening) × (J.clients ≡ 12) }
{
    match Engine::<J>::open(alloc, room, CLIENTS + FLUSHERS) {
        Ok((mut engine, mut clients)) => beside(rt, alloc, &mut engine, &mut clients, course),
        Err(_) => false,
    }
}

/// Whether the clients of an engine of the builder, with an identity of its own, have possible replies with flushers
/// running.
fn run<R: Threads + Wait + Sync>(
    rt: &R,
    alloc: Global,
    room: EngineBuilder,
    course: Course,
) -> bool {
    in_room::<Brand, R>(rt, alloc, room, course)
}

/// Whether the clients of an engine over many files, which are in the first snapshot, have possible replies with flushers
/// running.
fn is_right<R: Threads + Wait + Sync>(rt: &R, alloc: Global, course: Course) -> bool {
    match kept_room(alloc) {
        Some(room) => run(rt, alloc, room, course),
        None => false,
    }
}

#[test]
fn eight_clients_and_four_flushers_that_rest(rt: HostRuntime) {
    assert!(rt; is_right(&rt, rt.alloc(), Course::Rests));
}

#[test]
fn eight_clients_and_four_flushers_that_restore(rt: HostRuntime) {
    assert!(rt; is_right(&rt, rt.alloc(), Course::First));
}

#[test]
fn eight_clients_and_four_flushers_that_restore_what_clients_kept(rt: HostRuntime) {
    assert!(rt; is_right(&rt, rt.alloc(), Course::Later));
}
