//! Flushers that run turns until they are stopped, and count them; one that sleeps also counts what each turn did.
use engine::{Between, EngineId, Flusher, TurnReply};
use std::alloc::Global;
use std::sync::Wait;
use std::sync::atomic::{AtomicBool, AtomicU64, Ordering};
use std::thread::{Parker, Scope};
use std::time::Duration;

/// The length of a sleep in microseconds, or somewhat more.
const REST: u64 = 20;

/// The number of turns after which a flusher that does not sleep checks whether it has to stop.
const TURNS: u32 = 64;

/// The turns of flushers.
#[derive(Clone, Copy)]
pub struct Turns {
    /// All of them.
    pub made: u64,
    /// Those of flushers that sleep in which a job was installed.
    pub installed: u64,
    /// Those of flushers that sleep in which the job was stale, since a restore was done between.
    pub stale: u64,
}

/// How flushers run turns.
#[derive(Clone, Copy)]
pub enum Pace {
    /// Many in a row, by `run_flusher`.
    Many,
    /// One by one: with a sleep in the middle of each, and one after it.
    Rests,
}

/// The state that the flushers share: whether they have to stop, and their turns.
#[derive(Drop)]
pub struct Watch {
    pace: Pace,
    /// Whether they have to stop.
    stop: AtomicBool,
    turns: AtomicU64,
    installed: AtomicU64,
    stale: AtomicU64,
}

impl Watch {
    /// The initial state.
    pub fn new(pace: Pace) -> Watch {
        Watch {
            pace,
            stop: AtomicBool::new(false),
            turns: AtomicU64::new(0),
            installed: AtomicU64::new(0),
            stale: AtomicU64::new(0),
        }
    }

    /// Signals them to stop.
    pub fn end(&self) {
        self.stop.store(true, Ordering::SeqCst);
    }

    /// The turns so far.
    pub fn turns(&self) -> Turns {
        Turns {
            made: self.turns.load(Ordering::SeqCst),
            installed: self.installed.load(Ordering::SeqCst),
            stale: self.stale.load(Ordering::SeqCst),
        }
    }

    /// Records that many turns.
    fn note_all(&self, turns: u32) {
        self.turns.fetch_add(u64::from(turns), Ordering::SeqCst);
    }

    /// Records what a turn did.
    fn note(&self, reply: TurnReply) {
        self.note_all(1);
        match reply {
            TurnReply::Installed => {
                self.installed.fetch_add(1, Ordering::SeqCst);
            }
            TurnReply::Stale => {
                self.stale.fetch_add(1, Ordering::SeqCst);
            }
            _ => {}
        }
    }
}

/// A sleep between the two critical sections of a turn, so that calls can be made between.
#[derive(Drop)]
struct Rests<'a, R: Wait> {
    rt: &'a R,
}

impl<'a, R: Wait> Between for Rests<'a, R> {
    fn between(&mut self) {
        rest(self.rt);
    }
}

/// Sleeps, so that others get the lock.
pub fn rest<R: Wait>(rt: &R) {
    Parker::new().park_timeout(rt, Duration::from_micros(REST));
}

/// A turn with its sleeps.
fn turn<J: EngineId, H: Wait>(rt: &H, alloc: Global, flusher: &mut Flusher<J>, watch: &Watch) {
    watch.note(flusher.turn(rt, alloc, &mut Rests { rt }));
    rest(rt);
}

/// Starts a flusher in a thread of its own, if there is one.
pub fn start<'s, E, J: EngineId + Send + Sync + 's, H: Wait + Sync>(
    scope: &Scope<'s, E>,
    rt: &'s H,
    alloc: Global,
    flusher: Flusher<J>,
    watch: &'s Watch,
) {
    let _ = scope.spawn(move || flush(rt, alloc, flusher, watch));
}

/// Runs turns until it has to stop.
fn flush<J: EngineId, H: Wait>(rt: &H, alloc: Global, mut flusher: Flusher<J>, watch: &Watch) {
    for _ in 0..u64::MAX {
        if watch.stop.load(Ordering::SeqCst) {
            return;
        }
        match watch.pace {
            Pace::Many => {
                flusher.run_flusher(rt, alloc, TURNS);
                watch.note_all(TURNS);
            }
            Pace::Rests => turn(rt, alloc, &mut flusher, watch),
        }
    }
}
