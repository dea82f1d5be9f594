//! The state that clients and flushers of a stress test share.
use engine::TurnReply;
use std::sync::atomic::{AtomicBool, AtomicU64, Ordering};

/// The number of calls of a client if nothing is restored.
const MANY: u64 = 10_000;

/// The number of calls of a client with restores.
const CALLS: u64 = 3_000;

/// The maximal number of calls with restores until enough jobs were installed and stale.
const MOST: u64 = 10_000;

/// The least number of jobs that are installed.
const INSTALLED: u64 = 1_000;

/// The least number of jobs that are stale.
const STALE: u64 = 100;

/// The least number of jobs that are installed for each restore.
const APART: u64 = 8;

/// What flushers do while the clients run.
#[derive(Clone, Copy)]
pub enum Course {
    /// They sleep between their turns, as `run_flusher` does, and nothing is restored.
    Rests,
    /// From time to time one of them restores the first snapshot, between taking a job and installing it.
    First,
    /// From time to time one of them restores a snapshot that a client has taken meanwhile, or otherwise the first, between
    /// taking a job and installing it.
    Later,
}

/// The shared state.
#[derive(Drop)]
pub struct Tally {
    /// What flushers do.
    pub course: Course,
    /// Whether the clients are done.
    done: AtomicBool,
    /// The number of clients whose replies were possible.
    right: AtomicU64,
    /// The number of restores that have begun.
    begun: AtomicU64,
    /// The number of restores that have ended, all of them successfully.
    ended: AtomicU64,
    /// The number of jobs that were installed.
    installed: AtomicU64,
    /// The number of jobs that were stale.
    stale: AtomicU64,
}

impl Tally {
    /// The initial state.
    pub fn new(course: Course) -> Tally {
        Tally {
            course,
            done: AtomicBool::new(false),
            right: AtomicU64::new(0),
            begun: AtomicU64::new(0),
            ended: AtomicU64::new(0),
            installed: AtomicU64::new(0),
            stale: AtomicU64::new(0),
        }
    }

    /// Records that a client is done, and whether its replies were possible.
    pub fn note(&self, is_right: bool) {
        self.right.fetch_add(u64::from(is_right), Ordering::SeqCst);
    }

    /// Records a turn that has ended.
    pub fn note_turn(&self, reply: TurnReply) {
        match reply {
            TurnReply::Installed => {
                self.installed.fetch_add(1, Ordering::SeqCst);
            }
            TurnReply::Stale => {
                self.stale.fetch_add(1, Ordering::SeqCst);
            }
            _ => {}
        }
    }

    /// Records that a restore begins.
    pub fn begin_restore(&self) {
        self.begun.fetch_add(1, Ordering::SeqCst);
    }

    /// Records that a restore has ended, and whether it succeeded.
    pub fn end_restore(&self, is_done: bool) {
        self.ended.fetch_add(u64::from(is_done), Ordering::SeqCst);
    }

    /// The number of restores that have begun.
    pub fn begun(&self) -> u64 {
        self.begun.load(Ordering::SeqCst)
    }

    /// The number of restores that have ended.
    pub fn ended(&self) -> u64 {
        self.ended.load(Ordering::SeqCst)
    }

    /// Records that all clients are done.
    pub fn end(&self) {
        self.done.store(true, Ordering::SeqCst);
    }

    /// Whether all clients are done.
    pub fn is_done(&self) -> bool {
        self.done.load(Ordering::SeqCst)
    }

    /// Whether there are restores.
    pub fn has_restores(&self) -> bool {
        !matches!(self.course, Course::Rests)
    }

    /// Whether enough jobs were installed, and enough were stale.
    pub fn is_enough(&self) -> bool {
        !self.has_restores()
            || (self.installed.load(Ordering::SeqCst) >= INSTALLED
                && self.stale.load(Ordering::SeqCst) >= STALE)
    }

    /// Whether enough jobs were installed for the next restore.
    pub fn wants_restore(&self) -> bool {
        self.installed.load(Ordering::SeqCst) / APART > self.begun()
    }

    /// Whether a client that made that many calls makes more.
    pub fn wants(&self, made: u64) -> bool {
        if self.has_restores() {
            made < CALLS || (made < MOST && !self.is_enough())
        } else {
            made < MANY
        }
    }

    /// Whether a client that made that many calls sleeps, so that flushers get the lock.
    pub fn wants_rest(&self, made: u64) -> bool {
        self.has_restores() && made % 4 == 0
    }

    /// Whether that many clients had possible replies, each restore succeeded, and enough jobs were installed and
    /// stale.
    pub fn is_right(&self, clients: u64) -> bool {
        self.right.load(Ordering::SeqCst) == clients
            && self.begun() == self.ended()
            && self.is_enough()
    }
}
