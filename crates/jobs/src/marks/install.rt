//! Installs the subtree that was built from a job.
//!
//! It removes exactly the job's messages and its mark. If the mark no longer exists, the tree may have changed below the slot, and
//! nothing is installed.
ghost use Rattle.std.specs.Prelude.{◌≡◌, ◌↔◌, None, List, ℕ};
ghost use Rattle.jobs.specs.Marks.{AllKept, AreMarks, position, without};
ghost use Rattle.jobs.specs.Replies.{FitsMark, IsPlaced, IfInstalled, UnlessInstalled, IfGivenBack};
ghost use Rattle.jobs.specs.declared.outcome.InstallOutcome.TheVariants.{Stale};
ghost use Rattle.node.specs.Meaning.{value};

use super::{Marks, position, remove_mark};
use crate::job::Done;
use crate::outcome::InstallOutcome;
use message::Update;
use node::Tree;

impl Marks {
    /// Replaces the child of the mark's slot by the result of its job, and removes the messages that the result contains from
    /// the slot, and the mark. Messages that are newer than the job stay in the slot.
    ///
    /// It returns `Stale`, without allocating, if the mark was removed.
    pub fn install<U: Update>(&mut self, tree: &mut Tree<U>, done: Done<U>) -> InstallOutcome<U>
        requires { FitsMark U.means done tree.old self.old }
        ensures installed { IfInstalled result ((self.new ≡ without done.ticket self.old) × IsPlaced U.means done tree.old tree.new) }
        ensures stale { (result ≡ Stale) ↔ (position done.ticket self.old ≡ None) }
        ensures back { IfGivenBack result (λ d. d ≡ done) }
        ensures unchanged { UnlessInstalled result ((self.new ≡ self.old) × (tree.new ≡ tree.old)) }
        ensures value { (k : List ℕ) → value U.means tree.new.root k ≡ value U.means tree.old.root k }
        ensures kept { (given : ℕ) → AreMarks tree.old.root 0 self.old given → AllKept U.means tree.old tree.new self.new given }
    {
        let Some(at) = position(self.list.as_slice(), done.ticket) else {
            return InstallOutcome::Stale;
        };
        match done.place(tree, &self.list[at]) {
            Err(done) => InstallOutcome::NoMemory(done),
            Ok(()) => {
                remove_mark(&mut self.list, at);
                InstallOutcome::Installed
            }
        }
    }
}
