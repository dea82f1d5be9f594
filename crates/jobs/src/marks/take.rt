//! Takes a job from a slot of the root, and adds its mark.
//!
//! The tree itself does not change: the job shares the child and copies the messages, which stay in the slot until the subtree is
//! installed. If an allocation fails, no mark is added.
ghost use Rattle.std.specs.Prelude.{◌≡◌, ◌^◌, ◌+◌, ◌↔◌, ◌≤◌, ◌<◌, ◌++◌, ◌∷◌, [], List, true, false, None, length, IfOk, OnOk, OnErr, MatchOption};
ghost use Rattle.jobs.specs.Content.{job_content};
ghost use Rattle.jobs.specs.Job.{FitBelow, IsJob};
ghost use Rattle.jobs.specs.Taking.{AreOldest, AreRootSlots, CanBeTaken};
ghost use Rattle.jobs.specs.Marks.{AreMarks, MarkHas};
ghost use Rattle.jobs.specs.Replies.{can_take_at, can_take_first, Fits, IfTaken, IsJobOf, IsOf, IsSlotFull, LacksRoom, mark_of, UnlessTaken};
ghost use Rattle.jobs.specs.declared.mark.Mark.{Mark};
ghost use Rattle.jobs.specs.declared.outcome.TakeOutcome.TheVariants.{NotThere, NoRoom};
ghost use Rattle.node.specs.Grafts.{AtSlot};
ghost use Rattle.node.specs.Pure.{PSlots, more};
ghost use Rattle.node.specs.StepRows.{can_flush_inner, IsFullBelow};
ghost use Rattle.node.specs.See.{seen_slots};
ghost use Rattle.node.specs.Site.{slots_from};

use super::{MOST_MARKS, Marks, kept_at};
use crate::job::Job;
use crate::mark::Mark;
use crate::outcome::TakeOutcome;
use flush::inner::{count_fitting, few_oldest, free_pieces, is_flushable};
use message::ends::copy_end;
use message::{Msg, Update};
use node::search::end_of;
use node::{Body, Node, Shape, Slot, Tree};
use pathkey::{KeyRange, NoMemory};
use std::alloc::Global;
use std::sync::Arc;

/// Whether the slot with index `i` has a message, an inner node below it and no mark. It does not allocate.
fn is_free<U: Update>(marks: &[Mark], slots: &[Slot<U>], i: usize) -> bool
    ensures { result ≡ can_take_first marks.now (slots_from i (seen_slots slots.now)) }
{
    if i >= slots.len() {
        return false;
    }
    is_flushable(slots, i) && kept_at(marks, &slots[i].lo) == 0
}

/// Whether the root's slot with index `i` has a message, an inner node below it and no mark. It does not allocate.
fn can_take<U: Update>(marks: &[Mark], root: &Node<U>, i: usize) -> bool
    ensures { result ≡ can_take_at i marks.now root.now }
{
    let Body::Inner(slots) = root.body() else {
        // Unreachable for the root of a tree, which is an inner node.
        return false;
    };
    is_free(marks, slots.as_slice(), i)
}

/// Copies of the slot's oldest messages, as many as have room in the node below: it has room for `most` pieces.
fn fitting_front<U: Update>(
    alloc: Global,
    slot: &Slot<U>,
    most: u16,
) -> Result<Vec<Msg<U>>, NoMemory>
    ensures oldest { IfOk result (λ v. AreOldest v.items slot.now.pending.0) }
    ensures fits { IfOk result (λ v. 0 < length v.items → FitBelow most v.items slot.now.child.value) }
    ensures full { IfOk result (λ v. v.items ≡ [] → (later : PSlots U U.Value) → can_flush_inner (more slot.now.lo slot.now.pending.0 slot.now.child.value later) ≡ true → IsFullBelow most (more slot.now.lo slot.now.pending.0 slot.now.child.value later)) }
{
    let few = few_oldest(&slot.pending, free_pieces(&slot.child, most));
    let mut front = slot.pending.copy_front(alloc, few)?;
    let Body::Inner(below) = slot.child.body() else {
        // Unreachable: `can_take` has found an inner node.
        return Ok(Vec::new(alloc));
    };
    let count = count_fitting(below.as_slice(), front.as_slice(), most as usize);
    front.truncate(count);
    Ok(front)
}

/// The job with these messages, the slot's oldest, which have room below.
fn slot_job<U: Update>(
    alloc: Global,
    ticket: u64,
    shape: Shape,
    slots: &[Slot<U>],
    i: usize,
    msgs: Vec<Msg<U>>,
) -> Result<Job<U>, NoMemory>
    requires lawful { AreRootSlots shape (seen_slots slots.now) }
    requires fits { AtSlot (CanBeTaken shape msgs.items) i None (seen_slots slots.now) }
    ensures ticket { IfOk result (λ job. job.ticket ≡ ticket) }
    ensures shape { IfOk result (λ job. job.shape ≡ shape) }
    ensures slot { IfOk result (λ job. AtSlot (IsOf job) i None (seen_slots slots.now)) }
{
    if i >= slots.len() {
        // Unreachable: there is a slot with this index.
        return Err(NoMemory);
    }
    let slot = &slots[i];
    let lo = slot.lo.copy(alloc)?;
    let hi = copy_end(alloc, end_of(slots, i, None))?;
    let child = Arc::try_clone(&slot.child)?;
    Ok(Job {
        ticket,
        shape,
        range: KeyRange { lo, hi },
        msgs,
        child,
    })
}

/// A job from the slot with index `i`; `None` if the pieces of its first message have no room below.
fn job_at<U: Update>(
    alloc: Global,
    ticket: u64,
    shape: Shape,
    slots: &[Slot<U>],
    i: usize,
) -> Result<Option<Job<U>>, NoMemory>
    requires lawful { AreRootSlots shape (seen_slots slots.now) }
    requires free { can_flush_inner (slots_from i (seen_slots slots.now)) ≡ true }
    ensures { IfOk result (λ o. MatchOption o (IsFullBelow shape.pending (slots_from i (seen_slots slots.now))) (λ job. (job.ticket ≡ ticket) × (job.shape ≡ shape) × AtSlot (IsOf job) i None (seen_slots slots.now))) }
{
    if i >= slots.len() {
        // Unreachable: `can_take` has found the slot.
        return Ok(None);
    }
    let msgs = fitting_front(alloc, &slots[i], shape.pending)?;
    if msgs.is_empty() {
        return Ok(None);
    }
    let job = slot_job(alloc, ticket, shape, slots, i, msgs)?;
    Ok(Some(job))
}

/// A job from the slot with index `i` of a tree's root; `None` if the pieces of its first message have no room below.
fn job_of<U: Update>(
    alloc: Global,
    ticket: u64,
    tree: &Tree<U>,
    i: usize,
) -> Result<Option<Job<U>>, NoMemory>
    requires { (ms : List Mark) × (can_take_at i ms tree.now.root ≡ true) }
    ensures { IfOk result (λ o. MatchOption o (IsSlotFull tree.now.shape.pending i tree.now.root) (λ job. IsJobOf i ticket tree.now job)) }
{
    let shape = tree.shape();
    let root = tree.root();
    let Body::Inner(slots) = root.body() else {
        // Unreachable: a root is an inner node.
        return Err(NoMemory);
    };
    job_at(alloc, ticket, shape, slots.as_slice(), i)
}

/// The mark of a job.
fn mark_of<U: Update>(alloc: Global, job: &Job<U>) -> Result<Mark, NoMemory>
    ensures mark { IfOk result (λ m. m ≡ mark_of job.now) }
    ensures job { IsJob job.now.shape job.now.range job.now.msgs job.now.child }
{
    let range = job.range.copy(alloc)?;
    Ok(Mark {
        ticket: job.ticket,
        range,
        count: job.msgs.len() as u32,
    })
}

/// Appends the mark of a job.
fn push_mark<U: Update>(alloc: Global, marks: &mut Vec<Mark>, job: &Job<U>) -> Result<(), NoMemory>
    ensures ok { OnOk result (marks.new.items ≡ marks.old.items ++ mark_of job.now ∷ []) }
    ensures err { OnErr result (marks.new.items ≡ marks.old.items) }
    ensures job { IsJob job.now.shape job.now.range job.now.msgs job.now.child }
{
    let mark = mark_of(alloc, job)?;
    marks.push(mark)?;
    Ok(())
}

impl Marks {
    /// Takes a job from the root's slot with this index: it shares the slot's child and has the slot's oldest messages, as many
    /// as have room in the child. `given` jobs were taken before it, and there are `all` marks, also in other lists.
    ///
    /// It returns `NotThere`, without allocating, if the slot is missing, its child is a leaf, nothing is pending there or it has
    /// a mark; and `NoRoom` if the first message has no room in the child, there are 64 marks, or no ticket is left.
    pub fn take_job<U: Update>(
        &mut self,
        alloc: Global,
        tree: &Tree<U>,
        given: u128,
        all: usize,
        slot: u8,
    ) -> TakeOutcome<U>
        requires { given ≤ 2 ^ 64 }
        ensures taken { IfTaken result (λ job. IsJobOf slot given tree.now job × (self.new ≡ self.old ++ mark_of job ∷ [])) }
        ensures few { IfTaken result (λ job. (all < 64) × (given < 2 ^ 64)) }
        ensures job { IfTaken result (λ job. IsJob job.shape job.range job.msgs job.child) }
        ensures content { IfTaken result (λ job. MarkHas U.means (mark_of job) (job_content U.means job) tree.now) }
        ensures not_there { (result ≡ NotThere) ↔ (can_take_at slot self.old tree.now.root ≡ false) }
        ensures no_room { result ≡ NoRoom → LacksRoom slot given all tree.now }
        ensures fits { IfTaken result (λ job. AreMarks tree.now.root 0 self.old given → Fits U.means job.ticket (job_content U.means job) tree.now self.new) }
        ensures marks { IfTaken result (λ job. AreMarks tree.now.root 0 self.old given → AreMarks tree.now.root 0 self.new (given + 1)) }
        ensures unchanged { UnlessTaken result (self.new ≡ self.old) }
    {
        let i = slot as usize;
        if !can_take(self.list.as_slice(), tree.root(), i) {
            return TakeOutcome::NotThere;
        }
        if all >= MOST_MARKS || given > u64::MAX as u128 {
            return TakeOutcome::NoRoom;
        }
        match job_of(alloc, given as u64, tree, i) {
            Err(NoMemory) => TakeOutcome::NoMemory,
            Ok(None) => TakeOutcome::NoRoom,
            Ok(Some(job)) => {
                let Ok(()) = push_mark(alloc, &mut self.list, &job) else {
                    // The job is dropped: nothing has changed yet.
                    return TakeOutcome::NoMemory;
                };
                TakeOutcome::Taken(job)
            }
        }
    }
}
