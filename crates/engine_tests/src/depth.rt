//! Tests of the effect of a flusher's turns on the trees: each turn does something while a message is pending, everything
//! pending is flushed, the tree becomes as deep as it must, and then there is nothing to do.
ghost use Rattle.std.specs.Prelude.{◌≡◌};

use crate::requests::answers;
use engine::{Between, Client, EngineId, Flusher, TurnReply};
use node::{ShapeReport, StepReply};
use std::alloc::Global;
use std::sync::Wait;
use test_support::{ExpectedReply, SampleCall, file_name};
use volume::Frozen;

/// The number of files.
pub const FILES: u32 = 300;

/// The maximal number of turns.
const TURNS: u32 = 10_000;

/// The number of turns.
#[derive(Drop)]
struct Count {
    turns: u32,
}

impl Between for Count {
    fn between(&mut self) {
        self.turns = self.turns.saturating_add(1);
    }
}

/// Whether a file is created.
fn makes<J: EngineId, R: Wait>(rt: &R, alloc: Global, client: &mut Client<J>, number: u32) -> bool {
    match file_name(alloc, number) {
        Some(text) => answers(
            rt,
            alloc,
            client,
            SampleCall::Create(text.as_str()),
            ExpectedReply::Done,
        ),
        None => false,
    }
}

/// Whether all files are created.
pub fn makes_all<J: EngineId, R: Wait>(rt: &R, alloc: Global, client: &mut Client<J>) -> bool {
    let mut is_right = true;
    for number in 0..FILES {
        is_right &= makes(rt, alloc, client, number);
    }
    is_right
}

/// Whether a turn did a step or installed a job.
fn did(reply: TurnReply) -> bool {
    matches!(
        reply,
        TurnReply::Installed | TurnReply::Stepped(StepReply::Did(_))
    )
}

/// The reply of one turn; `None` if it does not call `between` exactly once.
fn turn<J: EngineId, R: Wait>(
    rt: &R,
    alloc: Global,
    flusher: &mut Flusher<J>,
) -> Option<TurnReply> {
    let mut count = Count { turns: 0 };
    let reply = flusher.turn(rt, alloc, &mut count);
    (count.turns == 1).then_some(reply)
}

/// Whether one turn does a step or installs a job.
fn turn_does<J: EngineId, R: Wait>(rt: &R, alloc: Global, flusher: &mut Flusher<J>) -> bool {
    match turn(rt, alloc, flusher) {
        Some(reply) => did(reply),
        None => false,
    }
}

/// Runs turns until one is idle; returns how many did a step or installed a job. `None` if one of them did neither, or there
/// are more than the maximum.
pub fn turns_until_idle<J: EngineId, R: Wait>(
    rt: &R,
    alloc: Global,
    flusher: &mut Flusher<J>,
) -> Option<u32> {
    for done in 0..TURNS {
        match turn(rt, alloc, flusher) {
            Some(TurnReply::Idle) => return Some(done),
            Some(reply) if did(reply) => {}
            _ => return None,
        }
    }
    None
}

/// Creates files with a turn after each; returns how many of the turns did a step or installed a job.
fn turns_beside<J: EngineId, R: Wait>(
    rt: &R,
    alloc: Global,
    client: &mut Client<J>,
    flusher: &mut Flusher<J>,
    files: u32,
) -> u32 {
    let mut done: u32 = 0;
    for number in 0..files {
        if makes(rt, alloc, client, number) && turn_does(rt, alloc, flusher) {
            done = done.saturating_add(1);
        }
    }
    done
}

/// The shapes of the trees of the metadata and of the blocks.
fn shapes_of(tree: &Frozen) -> (ShapeReport, ShapeReport) {
    let indexes = tree.indexes();
    (
        indexes.meta.tree.shape_report(),
        indexes.block.tree.shape_report(),
    )
}

/// The shapes of the live trees; `None` if an allocation fails.
pub fn shapes<J: EngineId, R: Wait>(
    rt: &R,
    client: &mut Client<J>,
) -> Option<(ShapeReport, ShapeReport)> {
    match client.freeze(rt) {
        Ok(tree) => Some(shapes_of(&tree)),
        Err(_) => None,
    }
}

/// Whether the metadata has all files, nothing is pending there, and it is as deep as it must be.
fn is_deep<J: EngineId, R: Wait>(rt: &R, client: &mut Client<J>) -> bool {
    match shapes(rt, client) {
        Some((meta, _)) => meta.levels >= 4 && meta.entries == 301 && meta.pending == 0,
        None => false,
    }
}

/// Creates many files, and then runs turns. Each does something until one is idle, and no turn moves more than four messages out
/// of the root, so there are at least a quarter as many as files.
pub fn sinks<J: EngineId, R: Wait>(
    rt: &R,
    alloc: Global,
    mut client: Client<J>,
    mut flusher: Flusher<J>,
) -> bool {
    let made = makes_all(rt, alloc, &mut client);
    let turns = turns_until_idle(rt, alloc, &mut flusher);
    let is_idle = turns_until_idle(rt, alloc, &mut flusher) == Some(0);
    let are_enough = matches!(turns, Some(turns) if turns >= FILES / 4);
    made && are_enough && is_idle && is_deep(rt, &mut client)
}

/// Runs turns until nothing is pending in a new volume, then creates files with a turn after each, of which each does
/// something, and then runs turns until one is idle, each of which does something.
pub fn sinks_beside<J: EngineId, R: Wait>(
    rt: &R,
    alloc: Global,
    mut client: Client<J>,
    mut flusher: Flusher<J>,
    files: u32,
) -> bool {
    let before = turns_until_idle(rt, alloc, &mut flusher);
    let beside = turns_beside(rt, alloc, &mut client, &mut flusher, files);
    let after = turns_until_idle(rt, alloc, &mut flusher);
    let is_deep = files < FILES || is_deep(rt, &mut client);
    before == Some(1) && beside == files && after.is_some() && is_deep
}

/// Whether a byte is written to each of these blocks of a file.
fn writes_blocks<J: EngineId, R: Wait>(
    rt: &R,
    alloc: Global,
    client: &mut Client<J>,
    blocks: u32,
) -> bool {
    let mut is_right = true;
    for number in 0..blocks {
        is_right &= answers(
            rt,
            alloc,
            client,
            SampleCall::Write("/blocks", u64::from(number) * 4_096, b"x"),
            ExpectedReply::Count(1),
        );
    }
    is_right
}

/// Whether the root of the metadata has leaves as children, and the tree of the blocks has more levels.
fn are_unequal<J: EngineId, R: Wait>(rt: &R, client: &mut Client<J>) -> bool {
    match shapes(rt, client) {
        Some((meta, block)) => meta.levels <= 2 && block.levels >= 3,
        None => false,
    }
}

/// Creates one file of many blocks, flushes everything, and then creates many files and writes a few blocks. No job can be
/// taken of the metadata, where more messages are pending: the next turn takes one of the blocks.
pub fn takes_of_the_other<J: EngineId, R: Wait>(
    rt: &R,
    alloc: Global,
    mut client: Client<J>,
    mut flusher: Flusher<J>,
) -> bool {
    let ask = SampleCall::Create("/blocks");
    let created = answers(rt, alloc, &mut client, ask, ExpectedReply::Done);
    let filled = writes_blocks(rt, alloc, &mut client, 100);
    let flushed = turns_until_idle(rt, alloc, &mut flusher).is_some();
    let is_ready = are_unequal(rt, &mut client);
    let written = writes_blocks(rt, alloc, &mut client, 4);
    let made = makes_all(rt, alloc, &mut client);
    let reply = turn(rt, alloc, &mut flusher);
    created
        && filled
        && flushed
        && is_ready
        && written
        && made
        && reply == Some(TurnReply::Installed)
}
