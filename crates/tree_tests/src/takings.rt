//! Tests of jobs of small trees, in tables of what is appended, which jobs are taken, built and installed, and the tree's size
//! then.
//!
//! Installing requires that what was built has the content of its mark. So the functions here have as their contract what a
//! caller of jobs has to maintain from taking to installing: each remaining job fits the tree's marks (`AreHeld`).
ghost use Rattle.std.specs.Prelude.{IfOk};
ghost use Rattle.tree_tests.specs.Held.{AreHeld, IsHeld};

use jobs::{InstallOutcome, Job, MarkedTree, TakeOutcome, Ticket};
use message::{Msg, Update, UpdateTarget};
use node::{Place, Shape, StepKind, StepReply, Tree, TreeStep};
use pathkey::NoMemory;
use std::alloc::Global;
use std::collections::VecDeque;
use test_support::{Digit, Plain, batch};

const SMALL: Shape = Shape {
    fanout: 4,
    pending: 4,
    leaf: 4,
};

/// An update whose messages are made from plain ones.
trait Numbered: Update {
    /// The messages, in order.
    fn batch(alloc: Global, msgs: &[Plain]) -> Result<Vec<Msg<Self>>, NoMemory>;
}

impl Numbered for Digit {
    fn batch(alloc: Global, msgs: &[Plain]) -> Result<Vec<Msg<Digit>>, NoMemory> {
        batch(alloc, msgs)
    }
}

/// A tree with marks, and the jobs that were taken from it and not yet installed.
#[derive(Drop)]
struct Bench<U: UpdateTarget> {
    marked: MarkedTree<U>,
    jobs: VecDeque<Job<U>>,
}

/// The reply to taking a job.
#[derive(Clone, Copy, PartialEq, Eq)]
enum Took {
    Taken(u64),
    NotThere,
    NoRoom,
    NoMemory,
}

/// The reply to installing, or that no job was left.
#[derive(Clone, Copy, PartialEq, Eq)]
enum Ended {
    Installed,
    Stale,
    NoMemory,
    NoJob,
}

/// A turn of a test.
#[derive(Clone, Copy)]
enum Turn {
    /// Messages are appended.
    Append(&'static [Plain]),
    /// A step of this kind at this slot of the root has this reply.
    Step(StepKind, u8, StepReply),
    /// Taking a job at this slot has this reply.
    Take(u8, Took),
    /// The oldest remaining job is built and installed, with this reply.
    Finish(Ended),
    /// The mark of this ticket is removed; without a ticket, all marks.
    Cancel(Option<u64>),
}

/// A turn, and the numbers of levels, slots, pending pieces and entries of the tree then.
type Row = (Turn, [u128; 4]);

/// The numbers of levels, slots, pending pieces and entries.
fn counts<U: Update>(tree: &Tree<U>) -> [u128; 4] {
    let report = tree.shape_report();
    [report.levels, report.slots, report.pending, report.entries]
}

/// Appends messages.
fn append<U: Numbered>(alloc: Global, bench: &mut Bench<U>, msgs: &[Plain]) -> bool
    requires { AreHeld U.means bench.old.marked bench.old.jobs.items }
    ensures { AreHeld U.means bench.new.marked bench.new.jobs.items }
{
    match U::batch(alloc, msgs) {
        Ok(msgs) => bench.marked.append(alloc, msgs).is_ok(),
        Err(_) => false,
    }
}

/// The reply to a step at a slot of the root.
fn step<U: Update>(alloc: Global, bench: &mut Bench<U>, kind: StepKind, slot: u8) -> StepReply
    requires { AreHeld U.means bench.old.marked bench.old.jobs.items }
    ensures { AreHeld U.means bench.new.marked bench.new.jobs.items }
{
    let at = Place::root();
    bench.marked.step(alloc, TreeStep { kind, at, slot })
}

/// Keeps a job.
fn keep<U: Update>(bench: &mut Bench<U>, job: Job<U>) -> Took
    requires held { AreHeld U.means bench.old.marked bench.old.jobs.items }
    requires job { IsHeld U.means bench.old.marked job }
    ensures { AreHeld U.means bench.new.marked bench.new.jobs.items }
{
    let ticket = job.ticket();
    match bench.jobs.push_back(job) {
        Ok(()) => Took::Taken(ticket.number),
        Err(_) => Took::NoMemory,
    }
}

/// The reply to taking a job; a job that is taken is kept.
fn take<U: Update>(alloc: Global, bench: &mut Bench<U>, slot: u8) -> Took
    requires { AreHeld U.means bench.old.marked bench.old.jobs.items }
    ensures { AreHeld U.means bench.new.marked bench.new.jobs.items }
{
    match bench.marked.take_job(alloc, slot) {
        TakeOutcome::Taken(job) => keep(bench, job),
        TakeOutcome::NotThere => Took::NotThere,
        TakeOutcome::NoRoom => Took::NoRoom,
        TakeOutcome::NoMemory => Took::NoMemory,
    }
}

/// The reply to building and installing a job.
fn end<U: Update>(alloc: Global, bench: &mut Bench<U>, job: Job<U>) -> Ended
    requires held { AreHeld U.means bench.old.marked bench.old.jobs.items }
    requires job { IsHeld U.means bench.old.marked job }
    ensures { AreHeld U.means bench.new.marked bench.new.jobs.items }
{
    let Ok(done) = job.build(alloc) else {
        return Ended::NoMemory;
    };
    match bench.marked.install(done) {
        InstallOutcome::Installed => Ended::Installed,
        InstallOutcome::Stale => Ended::Stale,
        InstallOutcome::NoMemory(_) => Ended::NoMemory,
    }
}

/// The reply to building and installing the oldest remaining job.
fn finish<U: Update>(alloc: Global, bench: &mut Bench<U>) -> Ended
    requires { AreHeld U.means bench.old.marked bench.old.jobs.items }
    ensures { AreHeld U.means bench.new.marked bench.new.jobs.items }
{
    match bench.jobs.pop_front() {
        None => Ended::NoJob,
        Some(job) => end(alloc, bench, job),
    }
}

/// Removes marks: that of the ticket, or all.
fn cancel<U: Update>(bench: &mut Bench<U>, ticket: Option<u64>)
    requires { AreHeld U.means bench.old.marked bench.old.jobs.items }
    ensures { AreHeld U.means bench.new.marked bench.new.jobs.items }
{
    match ticket {
        None => bench.marked.cancel_all(),
        Some(number) => bench.marked.cancel(Ticket::of(number)),
    }
}

/// Whether the turn has the expected reply.
fn is_answered<U: Numbered>(alloc: Global, bench: &mut Bench<U>, turn: Turn) -> bool
    requires { AreHeld U.means bench.old.marked bench.old.jobs.items }
    ensures { AreHeld U.means bench.new.marked bench.new.jobs.items }
{
    match turn {
        Turn::Append(msgs) => append(alloc, bench, msgs),
        Turn::Step(kind, slot, wanted) => step(alloc, bench, kind, slot) == wanted,
        Turn::Take(slot, wanted) => take(alloc, bench, slot) == wanted,
        Turn::Finish(wanted) => finish(alloc, bench) == wanted,
        Turn::Cancel(ticket) => {
            cancel(bench, ticket);
            true
        }
    }
}

/// Runs the rows on a tree; otherwise the index of the first that fails.
fn follow_in<U: Numbered>(alloc: Global, bench: &mut Bench<U>, rows: &[Row]) -> Result<(), usize>
    requires { AreHeld U.means bench.old.marked bench.old.jobs.items }
    ensures { AreHeld U.means bench.new.marked bench.new.jobs.items }
{
    let mut number = 0usize;
    for (turn, wanted) in rows {
        if !is_answered(alloc, bench, *turn) || counts(bench.marked.tree()) != *wanted {
            return Err(number);
        }
        number = number.saturating_add(1);
    }
    Ok(())
}

/// A new tree without jobs.
fn new_bench<U: Update>(alloc: Global) -> Result<Bench<U>, NoMemory>
    ensures { IfOk result (λ bench. AreHeld U.means bench.marked bench.jobs.items) }
{
    Ok(Bench {
        marked: MarkedTree::new(alloc, Tree::new(alloc, SMALL)?),
        jobs: VecDeque::new(alloc),
    })
}

/// rows to a root over one node with two leaves, of 1, 2 and of 5, 6, 7; no job is taken if the child is a leaf
const TWO_LEVELS: &[Row] = &[
    (Turn::Take(0, Took::NotThere), [1, 1, 0, 0]),
    (
        Turn::Append(&[
            Plain::Put(7, 0),
            Plain::Put(1, 0),
            Plain::Put(6, 0),
            Plain::Put(2, 0),
            Plain::Put(5, 0),
        ]),
        [1, 1, 5, 0],
    ),
    (Turn::Take(0, Took::NotThere), [1, 1, 5, 0]),
    (
        Turn::Step(StepKind::FlushLeaf, 0, StepReply::Did(4)),
        [1, 1, 1, 4],
    ),
    (
        Turn::Step(StepKind::FlushLeaf, 0, StepReply::Did(1)),
        [1, 2, 0, 5],
    ),
    (
        Turn::Step(StepKind::RootUp, 0, StepReply::Did(0)),
        [2, 3, 0, 5],
    ),
    (Turn::Take(0, Took::NotThere), [2, 3, 0, 5]),
    (Turn::Take(1, Took::NotThere), [2, 3, 0, 5]),
];

/// Runs these rows on a tree, and then the others.
fn follow_behind<U: Numbered>(
    alloc: Global,
    bench: &mut Bench<U>,
    rows: &[Row],
) -> Result<(), usize>
    requires { AreHeld U.means bench.old.marked bench.old.jobs.items }
{
    if follow_in(alloc, bench, TWO_LEVELS).is_err() {
        return Err(usize::MAX);
    }
    follow_in(alloc, bench, rows)
}

/// Runs these rows on a new tree, and then the others.
fn follow_new<U: Numbered>(alloc: Global, rows: &[Row]) -> Result<(), usize> {
    match new_bench::<U>(alloc) {
        Ok(mut bench) => follow_behind(alloc, &mut bench, rows),
        Err(_) => Err(usize::MAX),
    }
}

/// Runs these rows on a new tree of numbers, and then the others.
fn follow_two_levels(alloc: Global, rows: &[Row]) -> Result<(), usize> {
    follow_new::<Digit>(alloc, rows)
}

/// Two messages are taken and flushed to the leaves, and a third that was appended later remains pending; the next job finds a
/// full leaf and splits it.
const INSTALLED: &[Row] = &[
    (
        Turn::Append(&[Plain::Put(8, 1), Plain::Put(3, 1)]),
        [2, 3, 2, 5],
    ),
    (Turn::Take(0, Took::Taken(0)), [2, 3, 2, 5]),
    (Turn::Take(0, Took::NotThere), [2, 3, 2, 5]),
    (Turn::Append(&[Plain::Put(9, 2)]), [2, 3, 3, 5]),
    (Turn::Finish(Ended::Installed), [2, 3, 1, 7]),
    (Turn::Take(0, Took::Taken(1)), [2, 3, 1, 7]),
    (Turn::Finish(Ended::Installed), [2, 4, 0, 8]),
    (Turn::Finish(Ended::NoJob), [2, 4, 0, 8]),
];

#[test]
fn messages_after_the_taking_stay_pending(rt: HostRuntime) -> Result<(), usize> {
    follow_two_levels(rt.alloc(), INSTALLED)
}

/// A delete makes an older put of its key redundant, but not one that was taken: the put is installed, and the delete
/// remains pending.
const NOT_CONDENSED: &[Row] = &[
    (
        Turn::Append(&[Plain::Put(3, 1), Plain::Del(3)]),
        [2, 3, 1, 5],
    ),
    (
        Turn::Step(StepKind::FlushInner, 0, StepReply::Did(1)),
        [2, 3, 1, 5],
    ),
    (Turn::Append(&[Plain::Put(4, 1)]), [2, 3, 2, 5]),
    (Turn::Take(0, Took::Taken(0)), [2, 3, 2, 5]),
    (Turn::Append(&[Plain::Del(4)]), [2, 3, 3, 5]),
    (Turn::Finish(Ended::Installed), [2, 3, 1, 6]),
];

#[test]
fn a_marked_list_does_not_condense(rt: HostRuntime) -> Result<(), usize> {
    follow_two_levels(rt.alloc(), NOT_CONDENSED)
}

/// A step at the marked slot, a new root, a cancelled ticket and the removal of all marks make a job stale. The last job is installed; of
/// its messages for the second leaf one fits there.
const STALE: &[Row] = &[
    (
        Turn::Append(&[Plain::Put(8, 1), Plain::Put(3, 1)]),
        [2, 3, 2, 5],
    ),
    (Turn::Take(0, Took::Taken(0)), [2, 3, 2, 5]),
    (
        Turn::Step(StepKind::FlushInner, 0, StepReply::Did(2)),
        [2, 3, 2, 5],
    ),
    (Turn::Finish(Ended::Stale), [2, 3, 2, 5]),
    (Turn::Append(&[Plain::Put(9, 2)]), [2, 3, 3, 5]),
    (Turn::Take(0, Took::Taken(1)), [2, 3, 3, 5]),
    (
        Turn::Step(StepKind::RootDown, 0, StepReply::Did(0)),
        [1, 2, 3, 5],
    ),
    (
        Turn::Step(StepKind::RootUp, 0, StepReply::Did(0)),
        [2, 3, 3, 5],
    ),
    (Turn::Finish(Ended::Stale), [2, 3, 3, 5]),
    (Turn::Take(0, Took::Taken(2)), [2, 3, 3, 5]),
    (Turn::Cancel(Some(2)), [2, 3, 3, 5]),
    (Turn::Take(0, Took::Taken(3)), [2, 3, 3, 5]),
    (Turn::Finish(Ended::Stale), [2, 3, 3, 5]),
    (Turn::Take(0, Took::NotThere), [2, 3, 3, 5]),
    (Turn::Cancel(Some(2)), [2, 3, 3, 5]),
    (Turn::Take(0, Took::NotThere), [2, 3, 3, 5]),
    (Turn::Cancel(None), [2, 3, 3, 5]),
    (Turn::Take(0, Took::Taken(4)), [2, 3, 3, 5]),
    (Turn::Finish(Ended::Stale), [2, 3, 3, 5]),
    (Turn::Finish(Ended::Installed), [2, 3, 1, 7]),
];

#[test]
fn a_job_without_its_mark_is_stale(rt: HostRuntime) -> Result<(), usize> {
    follow_two_levels(rt.alloc(), STALE)
}

/// A step at another slot preserves the mark, and a merge with its slot does not.
const BESIDE: &[Row] = &[
    (
        Turn::Step(StepKind::SplitInner, 0, StepReply::Did(0)),
        [2, 4, 0, 5],
    ),
    (
        Turn::Append(&[Plain::Put(8, 1), Plain::Put(3, 1)]),
        [2, 4, 2, 5],
    ),
    (Turn::Take(1, Took::Taken(0)), [2, 4, 2, 5]),
    (
        Turn::Step(StepKind::FlushInner, 0, StepReply::Did(1)),
        [2, 4, 2, 5],
    ),
    (Turn::Finish(Ended::Installed), [2, 4, 1, 6]),
    (Turn::Append(&[Plain::Put(8, 2)]), [2, 4, 2, 6]),
    (Turn::Take(1, Took::Taken(1)), [2, 4, 2, 6]),
    (
        Turn::Step(StepKind::MergeInner, 0, StepReply::Did(0)),
        [2, 3, 2, 6],
    ),
    (Turn::Finish(Ended::Stale), [2, 3, 2, 6]),
];

#[test]
fn a_step_beside_the_mark_leaves_it(rt: HostRuntime) -> Result<(), usize> {
    follow_two_levels(rt.alloc(), BESIDE)
}

/// The child is full, so no message of a job fits there.
const FULL: &[Row] = &[
    (
        Turn::Append(&[
            Plain::Put(1, 1),
            Plain::Put(2, 1),
            Plain::Put(5, 1),
            Plain::Put(6, 1),
        ]),
        [2, 3, 4, 5],
    ),
    (
        Turn::Step(StepKind::FlushInner, 0, StepReply::Did(4)),
        [2, 3, 4, 5],
    ),
    (Turn::Append(&[Plain::Put(8, 1)]), [2, 3, 5, 5]),
    (Turn::Take(0, Took::NoRoom), [2, 3, 5, 5]),
];

#[test]
fn a_full_child_has_no_room_for_a_job(rt: HostRuntime) -> Result<(), usize> {
    follow_two_levels(rt.alloc(), FULL)
}
