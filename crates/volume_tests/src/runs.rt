//! Tests of runs of events, in a form that constant tables can contain.
use crate::requests::{SMALL, Snap, new_volume, snap_name};
use jobs::Ticket;
use node::{Place, StepKind, StepReply, TreeStep};
use pathkey::{Errno, SnapName};
use std::alloc::Global;
use test_support::{ExpectedReply, SampleCall};
use volume::{Answer, Event, FinishAnswer, Index, Step, TakeAnswer, Volume};

/// An event, in terms of numbers and texts.
#[derive(Clone, Copy)]
pub enum Act<'a> {
    /// A file call at a timestamp.
    Live(SampleCall<'a>, u64),
    /// A snapshot call.
    Snap(Snap<'a>),
    /// A tree step.
    Step(Step),
    /// Takes a job at this slot of an index's root.
    Take(Index, u8),
    /// Finishes the job with this ticket.
    Finish(u64),
}

/// An event, and its answer.
#[derive(Clone, Copy)]
pub enum Turn<'a> {
    /// A file call.
    Live(SampleCall<'a>, ExpectedReply<'a>),
    /// A snapshot call, and its error, if it fails.
    Snap(Snap<'a>, Option<Errno>),
    /// The flush of the leaf below the root's first slot, and whether it is done.
    Flush(Index, bool),
    /// A step at the root's first slot, which is done, and the least and greatest number of messages that it moves.
    Step(Index, StepKind, u32, u32),
    /// Takes a job at this slot of an index's root.
    Take(Index, u8, TakeAnswer),
    /// Finishes the job with this ticket.
    Finish(u64, FinishAnswer),
}

/// A step of this kind at the root's first slot.
fn at_first_slot(index: Index, kind: StepKind) -> Step {
    let at = Place::root();
    Step {
        index,
        step: TreeStep { kind, at, slot: 0 },
    }
}

/// The event of a snapshot call.
fn snap_event(snap: Snap<'_>, name: SnapName) -> Event {
    match snap {
        Snap::Keep(_) => Event::Snapshot(name),
        Snap::Drop(_) => Event::DropSnapshot(name),
        Snap::Restore(_) => Event::Restore(name),
    }
}

/// The event of a file call at a timestamp.
fn call_event(alloc: Global, ask: SampleCall<'_>, at: u64) -> Option<Event> {
    match ask.call(alloc) {
        Ok(call) => Some(Event::Call(call, at)),
        Err(_) => None,
    }
}

/// The event of a snapshot call.
fn named_event(alloc: Global, snap: Snap<'_>) -> Option<Event> {
    match snap_name(alloc, snap.text()) {
        Ok(name) => Some(snap_event(snap, name)),
        Err(_) => None,
    }
}

/// The event; `None` if an allocation fails.
fn event_of(alloc: Global, act: Act<'_>) -> Option<Event> {
    match act {
        Act::Live(ask, at) => call_event(alloc, ask, at),
        Act::Snap(snap) => named_event(alloc, snap),
        Act::Step(step) => Some(Event::Step(step)),
        Act::Take(index, slot) => Some(Event::Take(index, slot)),
        Act::Finish(number) => Some(Event::Finish(Ticket::of(number))),
    }
}

impl<'a> Turn<'a> {
    /// The event of a turn.
    fn act(&self) -> Act<'a> {
        match self {
            Turn::Live(ask, _) => Act::Live(*ask, 0),
            Turn::Snap(snap, _) => Act::Snap(*snap),
            Turn::Flush(index, _) => Act::Step(at_first_slot(*index, StepKind::FlushLeaf)),
            Turn::Step(index, kind, _, _) => Act::Step(at_first_slot(*index, *kind)),
            Turn::Take(index, slot, _) => Act::Take(*index, *slot),
            Turn::Finish(number, _) => Act::Finish(*number),
        }
    }
}

/// Whether a snapshot call has this result.
fn is_settled(fault: Option<Errno>, settled: &Result<(), Errno>) -> bool {
    match settled {
        Ok(()) => fault.is_none(),
        Err(reported) => fault == Some(*reported),
    }
}

/// Whether a step was done, and moved a number of messages within the bounds.
fn is_done(least: u32, most: u32, reply: StepReply) -> bool {
    match reply {
        StepReply::Did(count) => least <= count && count <= most,
        _ => false,
    }
}

/// Whether this is the answer of a turn.
pub fn is_answer(turn: &Turn<'_>, answer: &Answer) -> bool {
    match (turn, answer) {
        (Turn::Live(_, reported), Answer::Call(reply)) => reported.is(reply),
        (Turn::Snap(_, fault), Answer::Snap(settled)) => is_settled(*fault, settled),
        (Turn::Flush(_, done), Answer::Step(reply)) => matches!(reply, StepReply::Did(_)) == *done,
        (Turn::Step(_, _, least, most), Answer::Step(reply)) => is_done(*least, *most, *reply),
        (Turn::Take(_, _, wanted), Answer::Take(answer)) => wanted == answer,
        (Turn::Finish(_, wanted), Answer::Finish(answer)) => wanted == answer,
        _ => false,
    }
}

/// Appends the event to the others, and returns whether that succeeded.
pub fn add(alloc: Global, events: &mut Vec<Event>, act: Act<'_>) -> bool {
    match event_of(alloc, act) {
        Some(event) => events.push(event).is_ok(),
        None => false,
    }
}

/// The events of turns, in order, up to the first that has none.
pub fn events_of(alloc: Global, turns: &[Turn<'_>]) -> Vec<Event> {
    let mut events = Vec::new(alloc);
    for turn in turns {
        if !add(alloc, &mut events, turn.act()) {
            return events;
        }
    }
    events
}

/// The answers of a volume to events; none if an allocation fails. It has no postcondition, so that the proofs of the tests do
/// not unfold what a run does.
pub fn run(alloc: Global, volume: &mut Volume, events: &[Event]) -> Option<Vec<Answer>> {
    volume.run(alloc, events).ok()
}

/// The number of answers that are those of the turns, before the first that is not.
fn count_answers(turns: &[Turn<'_>], answers: &[Answer]) -> usize {
    let mut count = 0usize;
    for (turn, answer) in turns.iter().zip(answers.iter()) {
        if !is_answer(turn, answer) {
            return count;
        }
        count = count.saturating_add(1);
    }
    count
}

/// The number of answers of a run, and how many of them are those of the turns, before the first that is not.
fn answered_in(alloc: Global, volume: &mut Volume, turns: &[Turn<'_>]) -> (usize, usize) {
    let events = events_of(alloc, turns);
    match run(alloc, volume, events.as_slice()) {
        Some(answers) => (answers.len(), count_answers(turns, answers.as_slice())),
        None => (usize::MAX, 0),
    }
}

/// The number of answers of a run in a new volume, and how many of them are those of the turns, before the first that is
/// not.
fn answered(alloc: Global, turns: &[Turn<'_>]) -> (usize, usize) {
    match new_volume(alloc, SMALL) {
        Ok(mut volume) => answered_in(alloc, &mut volume, turns),
        Err(_) => (usize::MAX, 0),
    }
}

/// Whether a run has the answers of the turns.
pub fn follows(alloc: Global, volume: &mut Volume, turns: &[Turn<'_>]) -> bool {
    answered_in(alloc, volume, turns) == (turns.len(), turns.len())
}

const TURNS: &[Turn<'static>] = &[
    Turn::Flush(Index::Block, false),
    Turn::Live(SampleCall::Mkdir("/a"), ExpectedReply::Done),
    Turn::Flush(Index::Meta, true),
    Turn::Live(SampleCall::Stat("/a"), ExpectedReply::Dir),
    Turn::Snap(Snap::Keep("s"), None),
    Turn::Snap(Snap::Keep("s"), Some(Errno::EEXIST)),
    Turn::Live(SampleCall::Rmdir("/a"), ExpectedReply::Done),
    Turn::Flush(Index::Meta, true),
    Turn::Live(SampleCall::Stat("/a"), ExpectedReply::Fault(Errno::ENOENT)),
    Turn::Snap(Snap::Restore("s"), None),
    Turn::Live(SampleCall::Stat("/a"), ExpectedReply::Dir),
    Turn::Live(SampleCall::Create("/a/f"), ExpectedReply::Done),
    Turn::Live(
        SampleCall::Write("/a/f", 0, b"\xaa"),
        ExpectedReply::Count(1),
    ),
    Turn::Flush(Index::Block, true),
    Turn::Live(SampleCall::Read("/a/f", 0, 9), ExpectedReply::Data(b"\xaa")),
    Turn::Snap(Snap::Drop("s"), None),
    Turn::Snap(Snap::Restore("s"), Some(Errno::ENOENT)),
];

/// A message is flushed, and none is pending in the other index.
const FLUSHED: &[Turn<'static>] = &[
    Turn::Live(SampleCall::Mkdir("/a"), ExpectedReply::Done),
    Turn::Step(Index::Meta, StepKind::FlushLeaf, 1, u32::MAX),
    Turn::Flush(Index::Block, false),
    Turn::Live(SampleCall::Stat("/a"), ExpectedReply::Dir),
];

/// Events are executed in order; without events there are no answers.
const RUNS: &[(&str, &[Turn<'static>])] = &[
    ("turns", TURNS),
    ("flushed", FLUSHED),
    ("no events", &[]),
];

#[test]
fn events_are_done_in_their_order(rt: HostRuntime) {
    for (name, turns) in RUNS {
        assert!(rt;
            answered(rt.alloc(), turns) == (turns.len(), turns.len()),
            "{name}"
        );
    }
}
