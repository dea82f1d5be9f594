//! A tree with the marks of the jobs taken from it.
//!
//! Invariant: each mark's slot exists, is over an inner node and has at least the mark's messages; no two marks share a slot; tickets
//! rise, and there are at most 64 marks.
ghost use Rattle.std.specs.Prelude.{◌≡◌, ◌↔◌, [], ℕ, List, None, false, OnOk, OnErr};
ghost use Rattle.jobs.specs.Content.{job_content};
ghost use Rattle.jobs.specs.Job.{IsJob};
ghost use Rattle.jobs.specs.Marks.{Each, KeepsContent, MarkHas, position, without};
ghost use Rattle.jobs.specs.Replies.{can_take_at, Fits, FitsMark, IfGivenBack, IfInstalled, IfTaken, IsInstalled, IsTaken, KeepsFits, LacksRoomIn, mark_of, UnlessInstalled, UnlessTaken};
ghost use Rattle.jobs.specs.Survive.{survives, left_by};
ghost use Rattle.jobs.specs.declared.outcome.InstallOutcome.TheVariants.{Stale};
ghost use Rattle.jobs.specs.declared.outcome.TakeOutcome.TheVariants.{NotThere, NoRoom};
ghost use Rattle.node.specs.Appended.{Appended};
ghost use Rattle.node.specs.Meaning.{value};
ghost use Rattle.node.specs.Places.{way};
ghost use Rattle.node.specs.RootSteps.{StepAnswers};

use crate::job::Done;
use crate::marks::Marks;
use crate::outcome::{InstallOutcome, TakeOutcome};
use crate::ticket::Ticket;
use message::{Msg, Update, UpdateTarget};
use node::{StepReply, Tree, TreeStep};
use pathkey::NoMemory;
use std::alloc::Global;
use std::marker::Model;

/// A tree and its marks, at most one for each slot of the root and at most 64.
#[derive(Drop)]
pub struct MarkedTree<U: UpdateTarget> {
    tree: Tree<U>,
    marks: Marks,
    given: u128,
}

impl<U: UpdateTarget> Model for MarkedTree<U> {
    ghost use Rattle.jobs.specs.Codes.{coded_marked};
    ghost use Rattle.jobs.specs.Marks.{PMarked, AreMarks};
    ghost use Rattle.std.specs.Prelude.{◌≤◌, ◌^◌, length};

    ghost Value = { PMarked U U.Value };

    ghost coded = { coded_marked U.code U.Value.code };

    ghost view = { λ m. record { tree = m.tree; marks = m.marks; given = m.given } };

    ghost invariant = { λ m. AreMarks m.tree.root 0 m.marks m.given × (m.given ≤ 2 ^ 64) × (length m.marks ≤ 64) };
}

impl<U: Update> MarkedTree<U> {
    /// The tree without marks.
    pub fn new(alloc: Global, tree: Tree<U>) -> MarkedTree<U>
        ensures tree { result.tree ≡ tree }
        ensures marks { result.marks ≡ [] }
        ensures given { result.given ≡ 0 }
    {
        MarkedTree {
            tree,
            marks: Marks::new(alloc),
            given: 0,
        }
    }

    /// The tree.
    pub fn tree(&self) -> &Tree<U>
        ensures { result.now ≡ self.now.tree }
    {
        &self.tree
    }

    /// Removes the mark with the ticket, if there is one. It does not allocate.
    pub fn cancel(&mut self, ticket: Ticket)
        ensures tree { self.new.tree ≡ self.old.tree }
        ensures marks { self.new.marks ≡ without ticket.number self.old.marks }
        ensures given { self.new.given ≡ self.old.given }
        ensures fits { KeepsFits U.means self.old self.new }
    {
        self.marks.cancel(ticket);
    }

    /// Removes all marks. It does not allocate.
    pub fn cancel_all(&mut self)
        ensures tree { self.new.tree ≡ self.old.tree }
        ensures marks { self.new.marks ≡ [] }
        ensures given { self.new.given ≡ self.old.given }
        ensures fits { KeepsFits U.means self.old self.new }
    {
        self.marks.cancel_all();
    }

    /// Appends messages to the root's slots, atomically. The list of a marked slot stays as it was, with the new pieces after
    /// it.
    pub fn append(&mut self, alloc: Global, msgs: Vec<Msg<U>>) -> Result<(), NoMemory>
        ensures ok { OnOk result (Appended U.means msgs.items self.old.tree self.new.tree) }
        ensures marks { self.new.marks ≡ self.old.marks }
        ensures given { self.new.given ≡ self.old.given }
        ensures content { Each (KeepsContent U.means self.old.tree self.new.tree) self.new.marks }
        ensures fits { KeepsFits U.means self.old self.new }
        ensures err { OnErr result (self.new ≡ self.old) }
    {
        let kept = self.marks.kept(alloc, self.tree.root())?;
        self.tree.append_kept(alloc, msgs, kept.as_slice())
    }

    /// Does a step of the tree and, if it is done, removes the marks that do not survive it.
    pub fn step(&mut self, alloc: Global, step: TreeStep) -> StepReply
        ensures answers { StepAnswers U.means step.kind (way step.at) step.slot result self.old.tree self.new.tree }
        ensures marks { self.new.marks ≡ left_by result (survives step.kind (way step.at) step.slot self.old.tree.root) self.old.marks }
        ensures given { self.new.given ≡ self.old.given }
        ensures content { Each (KeepsContent U.means self.old.tree self.new.tree) self.new.marks }
        ensures fits { KeepsFits U.means self.old self.new }
    {
        self.marks.step(alloc, &mut self.tree, step)
    }

    /// Takes a job from the root's slot with this index, as `Marks::take_job` does, and counts it.
    pub fn take_job(&mut self, alloc: Global, slot: u8) -> TakeOutcome<U>
        ensures taken { IfTaken result (λ job. IsTaken slot job self.old self.new) }
        ensures job { IfTaken result (λ job. IsJob job.shape job.range job.msgs job.child) }
        ensures content { IfTaken result (λ job. MarkHas U.means (mark_of job) (job_content U.means job) self.new.tree) }
        ensures job_fits { IfTaken result (λ job. Fits U.means job.ticket (job_content U.means job) self.new.tree self.new.marks) }
        ensures not_there { (result ≡ NotThere) ↔ (can_take_at slot self.old.marks self.old.tree.root ≡ false) }
        ensures no_room { result ≡ NoRoom → LacksRoomIn slot self.old }
        ensures fits { KeepsFits U.means self.old self.new }
        ensures unchanged { UnlessTaken result (self.new ≡ self.old) }
    {
        let all = self.marks.len();
        match self
            .marks
            .take_job(alloc, &self.tree, self.given, all, slot)
        {
            TakeOutcome::Taken(job) => {
                self.given += 1;
                TakeOutcome::Taken(job)
            }
            TakeOutcome::NotThere => TakeOutcome::NotThere,
            TakeOutcome::NoRoom => TakeOutcome::NoRoom,
            TakeOutcome::NoMemory => TakeOutcome::NoMemory,
        }
    }

    /// Replaces the child of the mark's slot by the result of its job, as `Marks::install` does.
    pub fn install(&mut self, done: Done<U>) -> InstallOutcome<U>
        requires { FitsMark U.means done self.old.tree self.old.marks }
        ensures installed { IfInstalled result (IsInstalled U.means done self.old self.new) }
        ensures stale { (result ≡ Stale) ↔ (position done.ticket self.old.marks ≡ None) }
        ensures back { IfGivenBack result (λ d. d ≡ done) }
        ensures unchanged { UnlessInstalled result (self.new ≡ self.old) }
        ensures given { self.new.given ≡ self.old.given }
        ensures value { (k : List ℕ) → value U.means self.new.tree.root k ≡ value U.means self.old.tree.root k }
        ensures content { Each (KeepsContent U.means self.old.tree self.new.tree) self.new.marks }
        ensures fits { KeepsFits U.means self.old self.new }
    {
        self.marks.install(&mut self.tree, done)
    }
}
