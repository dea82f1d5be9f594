//! Tests that a job is built without the lock: a client's write returns while a flusher builds.
ghost use Rattle.std.specs.Prelude.{◌≡◌};

use crate::depth::{FILES, makes_all, shapes, turns_until_idle};
use crate::requests::answers;
use engine::{Between, Client, EngineId, Flusher, TurnReply};
use std::alloc::Global;
use std::sync::Wait;
use std::sync::atomic::{AtomicBool, Ordering};
use std::thread::{Parker, Threads, join};
use std::time::Duration;
use test_support::{ExpectedReply, SampleCall, file_name};
use volume::{Done, Job};

/// How often a flusher polls for a flag.
const LOOKS: u32 = 10_000;

/// The flags that a flusher and a client share.
#[derive(Drop)]
struct Flags {
    /// The flusher has begun to build.
    began: AtomicBool,
    /// A write that began after that has returned.
    wrote: AtomicBool,
    /// The turn has ended.
    ended: AtomicBool,
}

impl Flags {
    fn new() -> Flags {
        Flags {
            began: AtomicBool::new(false),
            wrote: AtomicBool::new(false),
            ended: AtomicBool::new(false),
        }
    }
}

/// Sleeps for a millisecond.
fn rest<R: Wait>(rt: &R) {
    Parker::new().park_timeout(rt, Duration::from_millis(1));
}

/// Whether a write returned before that many polls.
fn sees_write<R: Wait>(rt: &R, flags: &Flags) -> bool {
    for _ in 0..LOOKS {
        if flags.wrote.load(Ordering::SeqCst) {
            return true;
        }
        rest(rt);
    }
    false
}

/// Polls until the flusher builds, or its turn has ended; returns whether it builds.
fn sees_build<R: Wait>(rt: &R, flags: &Flags) -> bool {
    for _ in 0..u64::MAX {
        if flags.began.load(Ordering::SeqCst) {
            return true;
        }
        if flags.ended.load(Ordering::SeqCst) {
            return false;
        }
        rest(rt);
    }
    false
}

/// Polls until the turn has ended.
fn sees_end<R: Wait>(rt: &R, flags: &Flags) {
    for _ in 0..u64::MAX {
        if flags.ended.load(Ordering::SeqCst) {
            return;
        }
        rest(rt);
    }
}

/// Builds only after a client has written.
#[derive(Drop)]
struct Waits<'a, R: Wait> {
    rt: &'a R,
    flags: &'a Flags,
    is_seen: bool,
}

impl<'a, R: Wait> Between for Waits<'a, R> {
    fn build(&mut self, alloc: Global, job: Job) -> Result<Done, Job> {
        self.flags.began.store(true, Ordering::SeqCst);
        self.is_seen = sees_write(self.rt, self.flags);
        job.build(alloc)
    }

    fn between(&mut self) {}
}

/// One turn; returns whether it installed a job, and saw a write while it built.
fn builds<J: EngineId, R: Wait>(
    rt: &R,
    alloc: Global,
    mut flusher: Flusher<J>,
    flags: &Flags,
) -> bool {
    let mut between = Waits {
        rt,
        flags,
        is_seen: false,
    };
    let reply = flusher.turn(rt, alloc, &mut between);
    flags.ended.store(true, Ordering::SeqCst);
    between.is_seen && reply == TurnReply::Installed
}

/// Writes while the flusher builds, and reads the bytes back after its turn has ended.
fn writes<J: EngineId, R: Wait>(
    rt: &R,
    alloc: Global,
    mut client: Client<J>,
    flags: &Flags,
) -> bool {
    let is_built = sees_build(rt, flags);
    let wrote = answers(
        rt,
        alloc,
        &mut client,
        SampleCall::Write("/z", 0, &[0xaa]),
        ExpectedReply::Count(1),
    );
    flags.wrote.store(is_built && wrote, Ordering::SeqCst);
    sees_end(rt, flags);
    answers(
        rt,
        alloc,
        &mut client,
        SampleCall::Read("/z", 0, 2),
        ExpectedReply::Data(&[0xaa]),
    )
}

/// Writes a byte to the file with a number.
fn fills_one<J: EngineId, R: Wait>(
    rt: &R,
    alloc: Global,
    client: &mut Client<J>,
    number: u32,
) -> bool {
    match file_name(alloc, number) {
        Some(text) => answers(
            rt,
            alloc,
            client,
            SampleCall::Write(text.as_str(), 0, b"a"),
            ExpectedReply::Count(1),
        ),
        None => false,
    }
}

/// Creates many files with a byte each, and then runs turns until nothing is pending.
fn fills<J: EngineId, R: Wait>(
    rt: &R,
    alloc: Global,
    client: &mut Client<J>,
    flusher: &mut Flusher<J>,
) -> bool {
    let mut is_right = makes_all(rt, alloc, client);
    for number in 0..FILES {
        is_right &= fills_one(rt, alloc, client, number);
    }
    is_right && turns_until_idle(rt, alloc, flusher).is_some()
}

/// Whether both trees have two inner levels or more, and one more file is pending.
fn is_ready<J: EngineId, R: Wait>(rt: &R, alloc: Global, client: &mut Client<J>) -> bool {
    match shapes(rt, client) {
        Some((meta, block)) => {
            meta.levels >= 2
                && block.levels >= 2
                && answers(
                    rt,
                    alloc,
                    client,
                    SampleCall::Create("/z"),
                    ExpectedReply::Done,
                )
        }
        None => false,
    }
}

/// A turn beside a client; returns whether a write returned while it built.
pub fn writes_meanwhile<J: EngineId + Send + Sync, R: Threads + Wait + Sync>(
    rt: &R,
    alloc: Global,
    mut client: Client<J>,
    mut flusher: Flusher<J>,
) -> bool {
    let is_ready = fills(rt, alloc, &mut client, &mut flusher) && is_ready(rt, alloc, &mut client);
    let flags = Flags::new();
    let shared = &flags;
    let (built, read) = join(
        rt,
        move || builds(rt, alloc, flusher, shared),
        move || writes(rt, alloc, client, shared),
    );
    is_ready && built && read
}
