//! The live indexes of a volume, with the marks of the jobs taken from their trees.
//!
//! Invariant (`AreMarked`): each mark has a slot of its own in the root of its tree, there are at most 64 marks in both
//! together, and no ticket is given twice.
ghost use Rattle.std.specs.Prelude.{◌≡◌, ◌↔◌, ℕ, [], None, IfOk, IfNone, IfSome, OnErr, OnOk};
ghost use Rattle.call_compiler.specs.Compiled.{messages};
ghost use Rattle.call_compiler.specs.Laws.{HaveTaken};
ghost use Rattle.volume.specs.Changes.{StepsLive};
ghost use Rattle.volume.specs.Jobs.{AnswersTaking, AnswersInstalling, BacklogIn, DoneFits, SameValues, mark_count};
ghost use Rattle.volume.specs.Marked.{KeepMarkedLists, KeepsMarks, Stands, no_marks, without_mark};
ghost use Rattle.volume.specs.HistoryOf.{HeaviestIn, pending_in};

use crate::event::{CompactStep, Index, Step, in_tree};
use crate::job::{Done, InstallReply, Job, TakeReply};
use call_compiler::{Batch, Indexes};
use flush::heaviest;
use jobs::{Backlog, Marks, Ticket};
use node::{StepReply, TreeStep, append_both_kept};
use pathkey::NoMemory;
use std::alloc::Global;
use std::marker::Model;
use steps::{CompactTarget, compact_in, make_room, preemptive_split};

// The updates of the two indexes differ in type, so no function can take the tree of either. What is the same for both is written
// once, as a macro. If a tree is only read, `in_tree` selects the tree of an index; `step`, `backlog` and `take_job` select it
// with its marks.

/// Takes a job of the slot of an index's root, and counts it.
macro_rules! take_in {
    ($live:expr, $alloc:expr, $slot:expr, $all:expr, $index:ident, $marks:ident, $job:path) => {
        match $live.$marks.take_job($alloc, &$live.indexes.$index.tree, $live.given, $all, $slot) {
            jobs::TakeOutcome::Taken(job) => {
                $live.given += 1;
                TakeReply::Taken($job(job))
            }
            jobs::TakeOutcome::NotThere => TakeReply::NotThere,
            jobs::TakeOutcome::NoRoom => TakeReply::NoRoom,
            jobs::TakeOutcome::NoMemory => TakeReply::NoMemory,
        }
    };
}

/// Installs what was built of a job in an index's tree.
macro_rules! install_in {
    ($live:expr, $built:expr, $index:ident, $marks:ident, $done:path) => {
        match $live.$marks.install(&mut $live.indexes.$index.tree, $built) {
            jobs::InstallOutcome::Installed => InstallReply::Installed,
            jobs::InstallOutcome::Stale => InstallReply::Stale,
            jobs::InstallOutcome::NoMemory(done) => InstallReply::NoMemory($done(done)),
        }
    };
}

/// Indexes, and the marks of the jobs taken from them: these are stored beside the trees, so that no share of a tree has any.
pub struct LiveIndexes {
    indexes: Indexes,
    meta_marks: Marks,
    block_marks: Marks,
    given: u128,
}

// Written out, as that of `pathkey::Key`.
impl Drop for LiveIndexes {
    fn drop(self) {
        let LiveIndexes {
            indexes: _,
            meta_marks: _,
            block_marks: _,
            given: _,
        } = self;
    }
}

impl Model for LiveIndexes {
    ghost use Rattle.volume.specs.Codes.{coded_live};
    ghost use Rattle.volume.specs.Marked.{PLive, AreMarked};

    ghost Value = { PLive };

    ghost coded = { coded_live };

    ghost view = { λ l. record { indexes = l.indexes; marks = record { meta = l.meta_marks; block = l.block_marks; given = l.given } } };

    ghost invariant = { λ l. AreMarked (record { indexes = l.indexes; marks = record { meta = l.meta_marks; block = l.block_marks; given = l.given } }) };
}

impl LiveIndexes {
    /// These indexes without marks. It allocates nothing.
    pub fn new(alloc: Global, indexes: Indexes) -> LiveIndexes
        ensures indexes { result.indexes ≡ indexes }
        ensures marks { result.marks ≡ no_marks 0 }
    {
        LiveIndexes {
            indexes,
            meta_marks: Marks::new(alloc),
            block_marks: Marks::new(alloc),
            given: 0,
        }
    }

    /// The indexes.
    pub fn indexes(&self) -> &Indexes
        ensures { result.now ≡ self.now.indexes }
    {
        &self.indexes
    }

    /// States the invariant of the type: both trees are lawful, each mark has a slot of its own, there are at most 64 marks,
    /// and no ticket was given twice. Does nothing at run time.
    pub fn assert_invariant(&self)
        ensures { Stands self.now }
    {
        let _ = self.indexes.meta.tree.root();
        let _ = self.indexes.block.tree.root();
    }

    /// Replaces these indexes by others. All marks are removed; no ticket is given again.
    pub fn replace(&mut self, indexes: Indexes)
        ensures indexes { self.new.indexes ≡ indexes }
        ensures marks { self.new.marks ≡ no_marks self.old.marks.given }
        ensures kept { KeepsMarks self.old self.new }
    {
        self.indexes = indexes;
        self.meta_marks.cancel_all();
        self.block_marks.cancel_all();
    }

    /// Replaces these indexes by others that the same marks fit. It allocates nothing.
    pub fn put_back(&mut self, before: Indexes)
        requires { Stands (record { indexes = before; marks = self.old.marks }) }
        ensures { self.new ≡ record { indexes = before; marks = self.old.marks } }
    {
        self.indexes = before;
    }

    /// Appends the messages of a batch to both trees, all or none. The list of a marked slot stays as it was, with the new pieces
    /// after it.
    pub fn append(&mut self, alloc: Global, batch: Batch) -> Result<(), NoMemory>
        ensures done { OnOk result (HaveTaken (messages batch) self.old.indexes self.new.indexes) }
        ensures lists { OnOk result (KeepMarkedLists (messages batch) self.old self.new) }
        ensures no_meta { batch.meta.items ≡ [] → self.new.indexes.meta ≡ self.old.indexes.meta }
        ensures no_block { batch.block.items ≡ [] → self.new.indexes.block ≡ self.old.indexes.block }
        ensures err { OnErr result (self.new ≡ self.old) }
        ensures marks { self.new.marks ≡ self.old.marks }
        ensures kept { KeepsMarks self.old self.new }
    {
        let Batch { meta, block } = batch;
        if meta.is_empty() && block.is_empty() {
            // The postcondition brings into the proof that a lawful tree without new messages is unchanged.
            self.assert_invariant();
            return Ok(());
        }
        if self.meta_marks.len() == 0 && self.block_marks.len() == 0 {
            return append_both_kept(
                alloc,
                &mut self.indexes.meta.tree,
                meta,
                &[],
                &mut self.indexes.block.tree,
                block,
                &[],
            );
        }
        let meta_kept = self.meta_marks.kept(alloc, self.indexes.meta.tree.root())?;
        let block_kept = self
            .block_marks
            .kept(alloc, self.indexes.block.tree.root())?;
        append_both_kept(
            alloc,
            &mut self.indexes.meta.tree,
            meta,
            meta_kept.as_slice(),
            &mut self.indexes.block.tree,
            block,
            block_kept.as_slice(),
        )
    }

    /// Prepares for shares of both trees, as `Tree::make_sharable` does.
    pub fn make_sharable(&mut self)
        ensures { self.new ≡ self.old }
    {
        self.indexes.meta.tree.make_sharable();
        self.indexes.block.tree.make_sharable();
    }

    /// Sorts in the messages that waited while other trees shared lists of the roots, unless a root is shared or memory for the
    /// numbers of marked messages is refused. The list of a marked slot stays as it is.
    pub fn condense(&mut self, alloc: Global)
        ensures values { SameValues self.old.indexes self.new.indexes }
        ensures marks { self.new.marks ≡ self.old.marks }
        ensures kept { KeepsMarks self.old self.new }
    {
        let Ok(meta_kept) = self.meta_marks.kept(alloc, self.indexes.meta.tree.root()) else {
            return;
        };
        let Ok(block_kept) = self.block_marks.kept(alloc, self.indexes.block.tree.root()) else {
            return;
        };
        self.indexes.meta.tree.condense(meta_kept.as_slice());
        self.indexes.block.tree.condense(block_kept.as_slice());
    }

    /// Does a tree step in the index that it names. If it is done, the marks that do not outlive it are removed.
    pub fn step(&mut self, alloc: Global, step: Step) -> StepReply
        ensures { StepsLive step result self.old self.new }
    {
        match step.index {
            Index::Meta => self
                .meta_marks
                .step(alloc, &mut self.indexes.meta.tree, step.step),
            Index::Block => self
                .block_marks
                .step(alloc, &mut self.indexes.block.tree, step.step),
        }
    }

    /// The flush of the fullest slot of an index; `None` if no message is pending.
    pub fn heaviest(&self, index: Index) -> Option<TreeStep>
        ensures { HeaviestIn index result self.now.indexes }
    {
        in_tree!(self.indexes, index, tree => heaviest(tree))
    }

    /// The slot of an index's root of which a job would move the most messages, the first of several; `None` if no job would
    /// move any.
    pub fn backlog(&self, index: Index) -> Option<Backlog>
        ensures { BacklogIn index result self.now }
    {
        match index {
            Index::Meta => self.meta_marks.heaviest(&self.indexes.meta.tree),
            Index::Block => self.block_marks.heaviest(&self.indexes.block.tree),
        }
    }

    /// Another step of the same index to try if this one does not fit; `None` if none is known.
    pub fn make_room(&self, step: Step) -> Option<Step>
        ensures { IfSome result (λ other. other.index ≡ step.index) }
    {
        let index = step.index;
        let step = LiveTarget(index).make_room(self, step.step)?;
        Some(Step { index, step })
    }

    /// Flushes the fullest slot of an index or, if that flush does not fit, does a step that makes space for it; `None` if no
    /// message is pending. If a full leaf cannot be split because its node has the maximal number of slots, the node is split
    /// first.
    pub fn compact_step(&mut self, alloc: Global, index: Index) -> Option<CompactStep>
        ensures nothing { (result ≡ None) ↔ (pending_in index self.old.indexes ≡ 0) }
        ensures unchanged { IfNone result (self.new ≡ self.old) }
        ensures index { IfSome result (λ r. r.step.index ≡ index) }
        ensures stepped { IfSome result (λ r. StepsLive r.step r.reply self.old self.new) }
    {
        let turn = compact_in(alloc, LiveTarget(index), self)?;
        let step = Step {
            index,
            step: turn.step,
        };
        Some(CompactStep {
            step,
            reply: turn.reply,
        })
    }

    /// The number of marks. It allocates nothing.
    fn mark_count(&self) -> usize
        ensures { result ≡ mark_count self.now.marks }
    {
        self.meta_marks.len() + self.block_marks.len()
    }

    /// Takes a job of the slot with this number of an index's root, under the next ticket.
    pub fn take_job(&mut self, alloc: Global, index: Index, slot: u8) -> TakeReply
        ensures { AnswersTaking index slot result self.old self.new }
    {
        let all = self.mark_count();
        match index {
            Index::Meta => take_in!(self, alloc, slot, all, meta, meta_marks, Job::Meta),
            Index::Block => take_in!(self, alloc, slot, all, block, block_marks, Job::Block),
        }
    }

    /// Replaces the child of the mark's slot by what was built of a job.
    pub fn install(&mut self, done: Done) -> InstallReply
        requires { DoneFits done self.old }
        ensures { AnswersInstalling done result self.old self.new }
    {
        match done {
            Done::Meta(done) => install_in!(self, done, meta, meta_marks, Done::Meta),
            Done::Block(done) => install_in!(self, done, block, block_marks, Done::Block),
        }
    }

    /// Removes the mark with the ticket, if there is one. It allocates nothing.
    pub fn cancel(&mut self, ticket: Ticket)
        ensures indexes { self.new.indexes ≡ self.old.indexes }
        ensures marks { self.new.marks ≡ without_mark ticket.number self.old.marks }
        ensures kept { KeepsMarks self.old self.new }
    {
        self.meta_marks.cancel(ticket);
        self.block_marks.cancel(ticket);
    }

    /// Removes all marks. It allocates nothing.
    pub fn cancel_all(&mut self)
        ensures indexes { self.new.indexes ≡ self.old.indexes }
        ensures marks { self.new.marks ≡ no_marks self.old.marks.given }
        ensures kept { KeepsMarks self.old self.new }
    {
        self.meta_marks.cancel_all();
        self.block_marks.cancel_all();
    }
}

/// The live tree of an index, with the marks of its jobs, as compaction sees it.
#[derive(Clone, Copy)]
struct LiveTarget(Index);

impl CompactTarget<LiveIndexes> for LiveTarget {
    ghost use Rattle.volume.specs.Changes.{StepsLive};
    ghost use Rattle.volume.specs.HistoryOf.{pending_in};

    ghost answers = { λ t s r a b. StepsLive (record { index = t.0; step = s }) r a b };

    ghost waiting = { λ t l. pending_in t.0 l.indexes };

    fn heaviest(self, on: &LiveIndexes) -> Option<TreeStep> {
        on.heaviest(self.0)
    }

    fn make_room(self, on: &LiveIndexes, step: TreeStep) -> Option<TreeStep> {
        in_tree!(on.indexes, self.0, tree => make_room(tree, step))
    }

    fn preemptive_split(self, on: &LiveIndexes, flush: TreeStep) -> Option<TreeStep> {
        in_tree!(on.indexes, self.0, tree => preemptive_split(tree, flush))
    }

    fn try_step(self, alloc: Global, on: &mut LiveIndexes, step: TreeStep) -> StepReply {
        let index = self.0;
        on.step(alloc, Step { index, step })
    }
}
