//! Runs a step of a tree with marks.
//!
//! A mark survives if its slot is neither named by the step nor above the step's node; a step that replaces the root removes all
//! marks.
ghost use Rattle.std.specs.Prelude.{◌≡◌, ◌<◌, ◌+◌, ◌++◌, ℕ, length, take, drop};
ghost use Rattle.jobs.specs.Marks.{AllKept, AreMarks};
ghost use Rattle.jobs.specs.Survive.{is_outside, survives, left_by, removed_by};
ghost use Rattle.node.specs.Lawful.{IsLawful};
ghost use Rattle.node.specs.Places.{way};
ghost use Rattle.node.specs.Searchable.{IsRoot};
ghost use Rattle.node.specs.RootSteps.{StepAnswers};
ghost use Rattle.node.specs.Steps.{root_slot, root_width, width};

use super::{Marks, number_in, remove_mark};
use crate::mark::Mark;
use message::Update;
use node::{Node, StepKind, StepReply, Tree, TreeStep};
use std::alloc::Global;
use steps::do_step;

/// How many slots of a node a step names. It does not allocate.
fn width(kind: StepKind) -> usize
    ensures { result ≡ width kind }
{
    match kind {
        StepKind::MergeLeaves | StepKind::MergeInner => 2,
        StepKind::FlushInner
        | StepKind::FlushLeaf
        | StepKind::SplitInner
        | StepKind::RootUp
        | StepKind::RootDown
        | StepKind::DropCovered => 1,
    }
}

/// Whether a number is none of the `count` from `first` on. It does not allocate.
fn is_outside(first: usize, count: usize, number: usize) -> bool
    requires { first + count < 65536 }
    ensures { result ≡ is_outside first count number }
{
    number < first || first + count <= number
}

/// Whether the index is that of a root slot that a step does not name and whose subtree it does not change. It does not allocate.
fn is_elsewhere(kind: StepKind, numbers: &[u8], slot: u8, number: usize) -> bool
    ensures { result ≡ is_outside (root_slot numbers.now slot) (root_width kind numbers.now) number }
{
    match numbers.first() {
        None => is_outside(slot as usize, width(kind), number),
        Some(first) => is_outside(*first as usize, 1, number),
    }
}

/// Whether a mark survives a step that is done. It does not allocate.
fn survives<U: Update>(step: TreeStep, root: &Node<U>, mark: &Mark) -> bool
    requires { IsRoot root.now }
    ensures { result ≡ survives step.kind (way step.at) step.slot root.now mark.now }
{
    if step.kind == StepKind::RootUp || step.kind == StepKind::RootDown {
        return false;
    }
    let number = number_in(root, &mark.range.lo);
    is_elsewhere(step.kind, step.at.numbers(), step.slot, number)
}

/// Does a step, and removes the marks from index `k` on that do not survive it.
///
/// Which marks survive is decided by the root before the step, but they are removed only if it is done. So each call keeps the
/// decision for one mark while the recursion does the rest, and no list of decisions has to be allocated. There are at most 64
/// marks.
fn do_step_from<U: Update>(
    alloc: Global,
    tree: &mut Tree<U>,
    marks: &mut Vec<Mark>,
    k: usize,
    step: TreeStep,
) -> StepReply
    ensures answers { StepAnswers U.means step.kind (way step.at) step.slot result tree.old tree.new }
    ensures left { marks.new.items ≡ take k marks.old.items ++ left_by result (survives step.kind (way step.at) step.slot tree.old.root) (drop k marks.old.items) }
{
    if k >= marks.len() {
        return do_step(alloc, tree, step);
    }
    let stays = survives(step, tree.root(), &marks[k]);
    let reply = do_step_from(alloc, tree, marks, k + 1, step);
    if !stays {
        remove_if_done(reply, marks, k);
    }
    reply
}

/// Removes the mark at the index if the step was done.
fn remove_if_done(reply: StepReply, marks: &mut Vec<Mark>, k: usize)
    requires { k < length marks.old.items }
    ensures { marks.new.items ≡ removed_by reply k marks.old.items }
{
    if let StepReply::Did(_) = reply {
        remove_mark(marks, k);
    }
}

/// Brings the invariant of a tree, that it is lawful, into a proof. It does nothing at run time.
fn assert_tree_invariant<U: Update>(tree: &Tree<U>)
    ensures { IsLawful tree.now }
{
    tree.root();
}

impl Marks {
    /// Does a step of the tree and, if it is done, removes the marks that do not survive it.
    pub fn step<U: Update>(
        &mut self,
        alloc: Global,
        tree: &mut Tree<U>,
        step: TreeStep,
    ) -> StepReply
        ensures answers { StepAnswers U.means step.kind (way step.at) step.slot result tree.old tree.new }
        ensures marks { self.new ≡ left_by result (survives step.kind (way step.at) step.slot tree.old.root) self.old }
        ensures kept { (given : ℕ) → AreMarks tree.old.root 0 self.old given → AllKept U.means tree.old tree.new self.new given }
    {
        assert_tree_invariant(tree);
        do_step_from(alloc, tree, &mut self.list, 0, step)
    }
}
