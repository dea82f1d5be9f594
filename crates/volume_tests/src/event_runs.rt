//! Tests of runs of random events of every kind, with jobs taken and finished among them, against the reference
//! program.
use crate::look_alike::{is_reply, look_alike};
use crate::requests::{SMALL, new_volume};
use crate::runs::{Act, add, run};
use crate::some_events::{some_ask, some_index, some_snap, some_step, some_timestamp};
use node::{Place, Shape, StepKind, StepReply, TreeStep};
use pathkey::{Errno, NoMemory, SnapName};
use reference::plain::World;
use reference::{Call, Reply};
use std::alloc::Global;
use test_support::{Random, SampleCall};
use volume::{Answer, Event, FinishAnswer, Index, Step, TakeAnswer, Volume};

/// A shape with nodes twice as wide as the smallest.
const WIDER: Shape = Shape {
    fanout: 8,
    pending: 16,
    leaf: 8,
};

/// Small nodes with space for many messages.
const ROOMY: Shape = Shape {
    fanout: 4,
    pending: 64,
    leaf: 4,
};

/// How many events a run has.
const EVENTS: u32 = 400;

/// How many runs there are.
const RUNS: u32 = 50;

/// The number of compaction steps between two runs.
const STEPS: u32 = 10;

/// A job that is finished is one of this many first tickets of a run: a run takes about as many.
const NEAR: u32 = 6;

/// The number of blocks of one file that each run begins with.
const BLOCKS: u64 = 64;

/// The outcomes of the events.
#[derive(Clone, Copy, Debug, Default)]
struct Tally {
    /// Jobs taken from the metadata and from the blocks.
    taken: [u32; 2],
    /// Jobs installed.
    installed: u32,
    /// Jobs whose mark was removed.
    stale: u32,
    /// Steps done in the metadata and in the blocks.
    steps: [u32; 2],
    /// The maximal number of levels of each tree.
    levels: [u128; 2],
}

/// Increments a count.
fn next(count: &mut u32) {
    *count = count.saturating_add(1);
}

impl Tally {
    /// The number of tickets that were given.
    fn tickets(&self) -> u32 {
        self.taken[0].saturating_add(self.taken[1])
    }

    /// Counts the answer to taking a job; `false` if an allocation failed.
    fn take(&mut self, index: Index, answer: TakeAnswer) -> bool {
        if matches!(answer, TakeAnswer::Taken(_)) {
            next(&mut self.taken[index as usize]);
        }
        answer != TakeAnswer::NoMemory
    }

    /// Counts the answer to finishing a job; `false` if an allocation failed.
    fn finish(&mut self, answer: FinishAnswer) -> bool {
        match answer {
            FinishAnswer::Installed => next(&mut self.installed),
            FinishAnswer::Stale => next(&mut self.stale),
            FinishAnswer::NotThere => {}
            FinishAnswer::NoMemory => return false,
        }
        true
    }

    /// Counts the answer to a step; `false` if an allocation failed.
    fn step(&mut self, index: Index, reply: StepReply) -> bool {
        if matches!(reply, StepReply::Did(_)) {
            next(&mut self.steps[index as usize]);
        }
        reply != StepReply::NoMemory
    }

    /// Updates the maximal numbers of levels.
    fn look(&mut self, volume: &Volume) {
        let (meta, block) = (
            volume.shape_report(Index::Meta),
            volume.shape_report(Index::Block),
        );
        self.levels = [
            self.levels[0].max(meta.levels),
            self.levels[1].max(block.levels),
        ];
    }

    /// The least of the numbers of jobs that were installed, stale, and left.
    fn rarest(&self) -> u32 {
        let left = self
            .tickets()
            .saturating_sub(self.installed)
            .saturating_sub(self.stale);
        self.installed.min(self.stale).min(left)
    }
}

/// A new root above the old one.
fn root_up(index: Index) -> Act<'static> {
    let step = TreeStep {
        kind: StepKind::RootUp,
        at: Place::root(),
        slot: 0,
    };
    Act::Step(Step { index, step })
}

/// Takes a job of some slot of a root, mostly one of the first.
fn some_taking(random: &mut Random) -> Act<'static> {
    let slot = random.below(4).min(random.below(4)) as u8;
    Act::Take(some_index(random), slot)
}

/// Finishes a job with a ticket from this one on, or the one before.
fn some_finishing(random: &mut Random, first: u32) -> Act<'static> {
    let number = first.saturating_add(random.below(NEAR)).saturating_sub(1);
    Act::Finish(number as u64)
}

/// A random operation: of ten two are jobs, and two are steps.
fn some_act(random: &mut Random, first: u32) -> Act<'static> {
    match random.below(10) {
        0 => some_taking(random),
        1 => some_finishing(random, first),
        2 | 3 => Act::Step(some_step(random)),
        _ if random.below(8) == 0 => Act::Snap(some_snap(random)),
        _ => Act::Live(some_ask(random), some_timestamp(random)),
    }
}

/// Adds a new root for each tree whose root has leaves as children, since no job is taken there.
fn add_roots(alloc: Global, events: &mut Vec<Event>, volume: &Volume) -> bool {
    for index in [Index::Meta, Index::Block] {
        if volume.shape_report(index).levels < 2 && !add(alloc, events, root_up(index)) {
            return false;
        }
    }
    true
}

/// Adds random events.
fn add_all(alloc: Global, events: &mut Vec<Event>, random: &mut Random, first: u32) -> bool {
    for _ in 0..EVENTS {
        if !add(alloc, events, some_act(random, first)) {
            return false;
        }
    }
    true
}

/// The reply of the reference program to a call; `None` if an allocation fails. It has no postcondition, so that the proofs of the
/// tests do not unfold what a call does; nor do the next functions.
fn plain_call(alloc: Global, plain: &mut World, call: &Call, at: u64) -> Option<Reply> {
    plain.call(alloc, call, at).ok()
}

/// Its reply to taking a snapshot.
fn plain_snapshot(alloc: Global, plain: &mut World, name: &SnapName) -> Result<(), Errno> {
    plain.snapshot(alloc, name)
}

/// Its reply to dropping a snapshot.
fn plain_drop(plain: &mut World, name: &SnapName) -> Result<(), Errno> {
    plain.drop_snapshot(name)
}

/// Its reply to restoring a snapshot.
fn plain_restore(alloc: Global, plain: &mut World, name: &SnapName) -> Result<(), Errno> {
    plain.restore(alloc, name)
}

/// Whether the reference program has this reply to a call.
fn replies(alloc: Global, plain: &mut World, call: &Call, at: u64, reply: &Reply) -> bool {
    match plain_call(alloc, plain, call, at) {
        Some(wanted) => is_reply(reply, &wanted),
        None => false,
    }
}

/// Whether this is the answer to an event: that of the reference program, if it has such events. The other answers are
/// counted.
fn is_answer(
    alloc: Global,
    plain: &mut World,
    tally: &mut Tally,
    event: &Event,
    answer: &Answer,
) -> bool {
    match (event, answer) {
        (Event::Call(call, at), Answer::Call(reply)) => replies(alloc, plain, call, *at, reply),
        (Event::Snapshot(name), Answer::Snap(reported)) => plain_snapshot(alloc, plain, name)
            == *reported,
        (Event::DropSnapshot(name), Answer::Snap(reported)) => plain_drop(plain, name) == *reported,
        (Event::Restore(name), Answer::Snap(reported)) => plain_restore(alloc, plain, name)
            == *reported,
        (Event::Step(step), Answer::Step(reply)) => tally.step(step.index, *reply),
        (Event::Take(index, _), Answer::Take(answer)) => tally.take(*index, *answer),
        (Event::Finish(_), Answer::Finish(answer)) => tally.finish(*answer),
        _ => false,
    }
}

/// Whether these are the answers to the events.
fn are_answers(
    alloc: Global,
    plain: &mut World,
    tally: &mut Tally,
    events: &[Event],
    answers: &[Answer],
) -> bool {
    for (event, answer) in events.iter().zip(answers.iter()) {
        if !is_answer(alloc, plain, tally, event, answer) {
            return false;
        }
    }
    events.len() == answers.len()
}

/// Adds a write of one byte to each of many blocks of a file.
fn add_blocks(alloc: Global, events: &mut Vec<Event>) -> bool {
    let mut are_added = add(alloc, events, Act::Live(SampleCall::Create("/k"), 0));
    for number in 0..BLOCKS {
        are_added &= add(
            alloc,
            events,
            Act::Live(SampleCall::Write("/k", number * 4_096, b"k"), number),
        );
    }
    are_added
}

/// Whether the volume answers the events as the reference program does.
fn answer_alike(
    alloc: Global,
    volume: &mut Volume,
    plain: &mut World,
    tally: &mut Tally,
    events: &[Event],
) -> bool {
    match run(alloc, volume, events) {
        Some(answers) => are_answers(alloc, plain, tally, events, answers.as_slice()),
        None => false,
    }
}

/// Whether both answer the same to random events.
fn run_alike(
    alloc: Global,
    random: &mut Random,
    volume: &mut Volume,
    plain: &mut World,
    tally: &mut Tally,
) -> bool {
    let mut events = Vec::new(alloc);
    add_roots(alloc, &mut events, volume)
        && add_blocks(alloc, &mut events)
        && add_all(alloc, &mut events, random, tally.tickets())
        && answer_alike(alloc, volume, plain, tally, events.as_slice())
}

/// Does that many compaction steps; `false` if an allocation fails.
fn relieve(alloc: Global, volume: &mut Volume) -> bool {
    for _ in 0..STEPS {
        if matches!(volume.compact_step(alloc), Some(relief) if relief.reply == StepReply::NoMemory)
        {
            return false;
        }
    }
    true
}

/// The number of runs that are answered the same and give the same tree, before the first that is not.
fn count_alike(
    alloc: Global,
    seed: u32,
    volume: &mut Volume,
    plain: &mut World,
    tally: &mut Tally,
) -> u32 {
    let mut random = Random(seed);
    for count in 0..RUNS {
        if !run_alike(alloc, &mut random, volume, plain, tally)
            || !look_alike(alloc, volume, plain)
            || !relieve(alloc, volume)
        {
            return count;
        }
        tally.look(volume);
    }
    RUNS
}

/// The number of runs that are answered the same, and their outcomes.
type Seen = (u32, Tally);

/// The result for a volume against a reference program created here.
fn see_beside(alloc: Global, seed: u32, volume: &mut Volume) -> Seen {
    let mut tally = Tally::default();
    match World::new(alloc) {
        Ok(mut plain) => {
            let alike = count_alike(alloc, seed, volume, &mut plain, &mut tally);
            (alike, tally)
        }
        Err(_) => (0, tally),
    }
}

/// The result for a volume created here, against a reference program.
fn see(alloc: Global, seed: u32, shape: Shape) -> Seen {
    match new_volume(alloc, shape) {
        Ok(mut volume) => see_beside(alloc, seed, &mut volume),
        Err(_) => (0, Tally::default()),
    }
}

/// Whether all runs were answered the same, with enough outcomes: that many jobs of each index at least.
fn is_enough(seen: &Seen, jobs: u32) -> bool {
    let (alike, tally) = seen;
    *alike == RUNS
        && tally.rarest() >= 10
        && tally.taken[0].min(tally.taken[1]) >= jobs
        && tally.steps[0].min(tally.steps[1]) >= 20
        && tally.levels[0].max(tally.levels[1]) >= 2
}

#[test]
fn runs_of_small_nodes_answer_as_the_plain_program(rt: HostRuntime) {
    let seen = see(rt.alloc(), 17, SMALL);
    assert!(rt; is_enough(&seen, 1), "{seen:?}");
}

#[test]
fn runs_of_wider_nodes_answer_as_the_plain_program(rt: HostRuntime) {
    let seen = see(rt.alloc(), 21, WIDER);
    assert!(rt; is_enough(&seen, 10), "{seen:?}");
}

#[test]
fn runs_of_roomy_nodes_answer_as_the_plain_program(rt: HostRuntime) {
    let seen = see(rt.alloc(), 19, ROOMY);
    assert!(rt; is_enough(&seen, 10), "{seen:?}");
}
