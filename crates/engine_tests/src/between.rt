//! Tests of a turn that takes a job, while a client does something between taking and installing.
ghost use Rattle.std.specs.Prelude.{◌≡◌};

use crate::depth::{makes_all, turns_until_idle};
use crate::ends::{Snap, fault_of};
use crate::requests::answers;
use engine::{Between, Client, EngineId, Flusher, TurnReply};
use pathkey::Errno;
use std::alloc::Global;
use std::sync::Wait;
use test_support::{ExpectedReply, SampleCall};
use volume::{Done, Job};

/// What a client does between taking and installing.
#[derive(Clone, Copy)]
pub enum Interference {
    /// It restores the snapshot, which does not have the later file.
    Restore,
    /// It writes to the later file.
    Write,
}

impl Interference {
    /// The expected reply of the turn.
    fn wanted(self) -> TurnReply {
        match self {
            Interference::Restore => TurnReply::Stale,
            Interference::Write => TurnReply::Installed,
        }
    }
}

/// Whether it succeeds.
fn does<J: EngineId, R: Wait>(
    rt: &R,
    alloc: Global,
    client: &mut Client<J>,
    interference: Interference,
) -> bool {
    match interference {
        Interference::Restore => fault_of(rt, alloc, client, Snap::Restore, "s").is_none(),
        Interference::Write => answers(
            rt,
            alloc,
            client,
            SampleCall::Write("/z", 0, &[0xaa]),
            ExpectedReply::Count(1),
        ),
    }
}

/// Whether the client then finds the later file as expected.
fn finds<J: EngineId, R: Wait>(
    rt: &R,
    alloc: Global,
    client: &mut Client<J>,
    interference: Interference,
) -> bool {
    match interference {
        Interference::Restore => answers(
            rt,
            alloc,
            client,
            SampleCall::Stat("/z"),
            ExpectedReply::Fault(Errno::ENOENT),
        ),
        Interference::Write => {
            answers(
                rt,
                alloc,
                client,
                SampleCall::Read("/z", 0, 2),
                ExpectedReply::Data(&[0xaa]),
            ) && answers(
                rt,
                alloc,
                client,
                SampleCall::Stat("/z"),
                ExpectedReply::File(1),
            )
        }
    }
}

/// A client that does something between taking and installing.
#[derive(Drop)]
struct Meanwhile<'a, J: EngineId, R: Wait> {
    rt: &'a R,
    alloc: Global,
    client: Client<J>,
    interference: Interference,
    is_done: bool,
}

impl<'a, J: EngineId, R: Wait> Between for Meanwhile<'a, J, R> {
    fn between(&mut self) {
        self.is_done = does(self.rt, self.alloc, &mut self.client, self.interference);
    }
}

/// Returns the job unbuilt, as if an allocation failed.
#[derive(Drop)]
struct Refuses;

impl Between for Refuses {
    fn build(&mut self, _alloc: Global, job: Job) -> Result<Done, Job> {
        Err(job)
    }

    fn between(&mut self) {}
}

/// Builds the job, and does nothing else.
#[derive(Drop)]
pub struct Nothing;

impl Between for Nothing {
    fn between(&mut self) {}
}

/// Creates many files and flushes everything; then takes a snapshot and creates one more file. Only that file is pending in the
/// metadata, since its directory already has its mtime.
pub fn prepares<J: EngineId, R: Wait>(
    rt: &R,
    alloc: Global,
    client: &mut Client<J>,
    flusher: &mut Flusher<J>,
) -> bool {
    makes_all(rt, alloc, client)
        && turns_until_idle(rt, alloc, flusher).is_some()
        && fault_of(rt, alloc, client, Snap::Keep, "s").is_none()
        && answers(
            rt,
            alloc,
            client,
            SampleCall::Create("/z"),
            ExpectedReply::Done,
        )
}

/// A turn during which the client does this between taking and installing: whether turn and client have the expected
/// replies.
pub fn interferes<J: EngineId, R: Wait>(
    rt: &R,
    alloc: Global,
    mut client: Client<J>,
    mut flusher: Flusher<J>,
    interference: Interference,
) -> bool {
    let is_ready = prepares(rt, alloc, &mut client, &mut flusher);
    let mut between = Meanwhile {
        rt,
        alloc,
        client,
        interference,
        is_done: false,
    };
    let reply = flusher.turn(rt, alloc, &mut between);
    let is_found = finds(rt, alloc, &mut between.client, interference);
    is_ready && reply == interference.wanted() && between.is_done && is_found
}

/// Whether a turn whose job is returned unbuilt reports that, and the next turn takes the slot again.
pub fn gives_back<J: EngineId, R: Wait>(
    rt: &R,
    alloc: Global,
    mut client: Client<J>,
    mut flusher: Flusher<J>,
) -> bool {
    let is_ready = prepares(rt, alloc, &mut client, &mut flusher);
    let first = flusher.turn(rt, alloc, &mut Refuses);
    let second = flusher.turn(rt, alloc, &mut Nothing);
    is_ready && first == TurnReply::NoMemory && second == TurnReply::Installed
}
