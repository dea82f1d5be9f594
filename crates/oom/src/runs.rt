//! Runs of events of all kinds, by their names.
use crate::harness::put_no_memory;
use crate::window;
use jobs::Ticket;
use node::{Place, StepKind, TreeStep};
use pathkey::{NoMemory, SnapName};
use std::alloc::Global;
use std::io::Write;
use test_support::SampleCall;
use volume::{Answer, Event, Index, Step, Volume};

/// The timestamp of calls and of planted entries, after an opening at timestamp 0.
pub const AT: u64 = 7;

/// An event.
#[derive(Clone, Copy)]
enum Act {
    /// A file call.
    Live(SampleCall<'static>),
    /// Takes a snapshot.
    Keep(&'static str),
    /// Removes a snapshot.
    Drop(&'static str),
    /// Restores a snapshot.
    Restore(&'static str),
    /// A step of an index: at the node to which slots lead, and at its slot.
    Step(Index, StepKind, &'static [u8], u8),
    /// Takes a job of a slot of an index's root.
    Take(Index, u8),
    /// Builds and installs the job of a ticket.
    Finish(u64),
}

/// Bytes over three blocks.
const LONG: &[u8] = &[97; 10_000];

/// A slot that no node has.
const NO_SLOT: u8 = 200;

/// The names of events.
const ACTS: &[(&str, Act)] = &[
    ("mkdir /x", Act::Live(SampleCall::Mkdir("/x"))),
    ("create /x/y", Act::Live(SampleCall::Create("/x/y"))),
    (
        "write /x/y",
        Act::Live(SampleCall::Write("/x/y", 4_090, b"0123456789")),
    ),
    ("rmtree /x", Act::Live(SampleCall::Rmtree("/x"))),
    ("write /f", Act::Live(SampleCall::Write("/f", 2_000, LONG))),
    ("truncate /f", Act::Live(SampleCall::Truncate("/f", 5_000))),
    ("rename /f /h", Act::Live(SampleCall::Rename("/f", "/h"))),
    ("rename /e /g", Act::Live(SampleCall::Rename("/e", "/g"))),
    ("rmtree /e", Act::Live(SampleCall::Rmtree("/e"))),
    ("unlink /h", Act::Live(SampleCall::Unlink("/h"))),
    ("mkdir /d", Act::Live(SampleCall::Mkdir("/d"))),
    ("snapshot u", Act::Keep("u")),
    ("drop s", Act::Drop("s")),
    ("restore s", Act::Restore("s")),
    ("restore t", Act::Restore("t")),
    ("take meta 0", Act::Take(Index::Meta, 0)),
    ("take block 0", Act::Take(Index::Block, 0)),
    ("take meta none", Act::Take(Index::Meta, NO_SLOT)),
    ("take block none", Act::Take(Index::Block, NO_SLOT)),
    ("finish 0", Act::Finish(0)),
    (
        "meta flush_inner",
        Act::Step(Index::Meta, StepKind::FlushInner, &[], 0),
    ),
    (
        "block flush_inner",
        Act::Step(Index::Block, StepKind::FlushInner, &[], 0),
    ),
    (
        "block flush_leaf",
        Act::Step(Index::Block, StepKind::FlushLeaf, &[], 0),
    ),
    (
        "meta split_inner",
        Act::Step(Index::Meta, StepKind::SplitInner, &[], 1),
    ),
    (
        "block merge_leaves",
        Act::Step(Index::Block, StepKind::MergeLeaves, &[0, 0, 0], 0),
    ),
    (
        "meta merge_inner",
        Act::Step(Index::Meta, StepKind::MergeInner, &[0], 0),
    ),
    (
        "meta root_up",
        Act::Step(Index::Meta, StepKind::RootUp, &[], 0),
    ),
    (
        "block root_up",
        Act::Step(Index::Block, StepKind::RootUp, &[], 0),
    ),
    (
        "meta root_down",
        Act::Step(Index::Meta, StepKind::RootDown, &[], 0),
    ),
    (
        "block root_down",
        Act::Step(Index::Block, StepKind::RootDown, &[], 0),
    ),
    (
        "meta drop_covered",
        Act::Step(Index::Meta, StepKind::DropCovered, &[1, 0], 0),
    ),
    (
        "meta flush_inner none",
        Act::Step(Index::Meta, StepKind::FlushInner, &[], NO_SLOT),
    ),
    (
        "block flush_inner none",
        Act::Step(Index::Block, StepKind::FlushInner, &[], NO_SLOT),
    ),
    (
        "meta flush_leaf none",
        Act::Step(Index::Meta, StepKind::FlushLeaf, &[], NO_SLOT),
    ),
    (
        "block flush_leaf none",
        Act::Step(Index::Block, StepKind::FlushLeaf, &[], NO_SLOT),
    ),
    (
        "meta split_inner none",
        Act::Step(Index::Meta, StepKind::SplitInner, &[], NO_SLOT),
    ),
    (
        "block split_inner none",
        Act::Step(Index::Block, StepKind::SplitInner, &[], NO_SLOT),
    ),
    (
        "meta merge_leaves none",
        Act::Step(Index::Meta, StepKind::MergeLeaves, &[], NO_SLOT),
    ),
    (
        "block merge_leaves none",
        Act::Step(Index::Block, StepKind::MergeLeaves, &[], NO_SLOT),
    ),
    (
        "meta merge_inner none",
        Act::Step(Index::Meta, StepKind::MergeInner, &[], NO_SLOT),
    ),
    (
        "block merge_inner none",
        Act::Step(Index::Block, StepKind::MergeInner, &[], NO_SLOT),
    ),
    (
        "meta drop_covered none",
        Act::Step(Index::Meta, StepKind::DropCovered, &[], NO_SLOT),
    ),
    (
        "block drop_covered none",
        Act::Step(Index::Block, StepKind::DropCovered, &[], NO_SLOT),
    ),
];

/// The event of a name.
fn act_named(name: &str) -> Option<Act> {
    for (word, act) in ACTS {
        if name == *word {
            return Some(*act);
        }
    }
    None
}

/// The event of a file call.
fn call_event(alloc: Global, ask: SampleCall<'static>) -> Option<Event> {
    match ask.call(alloc) {
        Ok(call) => Some(Event::Call(call, AT)),
        Err(_) => None,
    }
}

/// The name of a snapshot.
fn name_of(alloc: Global, text: &str) -> Option<SnapName> {
    SnapName::parse(alloc, text.as_bytes()).ok()
}

/// A step at the node to which slots lead.
fn step_event(index: Index, kind: StepKind, slots: &[u8], slot: u8) -> Option<Event> {
    let mut at = Place::root();
    for number in slots {
        at = at.under(*number)?;
    }
    let step = TreeStep { kind, at, slot };
    Some(Event::Step(Step { index, step }))
}

/// The event of a row.
fn event_of(alloc: Global, act: Act) -> Option<Event> {
    match act {
        Act::Live(ask) => call_event(alloc, ask),
        Act::Keep(text) => Some(Event::Snapshot(name_of(alloc, text)?)),
        Act::Drop(text) => Some(Event::DropSnapshot(name_of(alloc, text)?)),
        Act::Restore(text) => Some(Event::Restore(name_of(alloc, text)?)),
        Act::Step(index, kind, slots, slot) => step_event(index, kind, slots, slot),
        Act::Take(index, slot) => Some(Event::Take(index, slot)),
        Act::Finish(number) => Some(Event::Finish(Ticket::of(number))),
    }
}

/// Adds the event of a name; returns whether there is one.
fn add(alloc: Global, events: &mut Vec<Event>, name: &str) -> bool {
    let Some(act) = act_named(name) else {
        return false;
    };
    match event_of(alloc, act) {
        Some(event) => events.push(event).is_ok(),
        None => false,
    }
}

/// The events of these names; `None` if there is none of a name.
pub fn events_of(alloc: Global, names: &[&str]) -> Option<Vec<Event>> {
    let mut events = Vec::new(alloc);
    for name in names {
        if !add(alloc, &mut events, name) {
            return None;
        }
    }
    Some(events)
}

/// Prints the answer to an event.
fn put_answer(out: &mut Vec<u8>, answer: &Answer) {
    let _ = match answer {
        Answer::Call(reply) => writeln!(out, "{reply:?}"),
        Answer::Snap(settled) => writeln!(out, "{settled:?}"),
        Answer::Step(reply) => writeln!(out, "{reply:?}"),
        Answer::Take(answer) => writeln!(out, "{answer:?}"),
        Answer::Finish(answer) => writeln!(out, "{answer:?}"),
    };
}

/// Prints the answers to events.
fn put_answers(out: &mut Vec<u8>, answers: &[Answer]) {
    for answer in answers {
        put_answer(out, answer);
    }
}

/// Runs events between the two lines. It ensures nothing, so that other proofs do not unfold what a run is.
fn run_asked<R: Print>(
    rt: &R,
    alloc: Global,
    volume: &mut Volume,
    events: &[Event],
) -> Result<Vec<Answer>, NoMemory> {
    window::open(rt);
    let told = volume.run(alloc, events);
    window::close(rt);
    told
}

/// Runs events between the two lines, and prints their answers.
pub fn run<R: Print>(
    rt: &R,
    alloc: Global,
    volume: &mut Volume,
    events: &[Event],
    out: &mut Vec<u8>,
) {
    match run_asked(rt, alloc, volume, events) {
        Ok(answers) => put_answers(out, answers.as_slice()),
        Err(NoMemory) => put_no_memory(out),
    }
}
