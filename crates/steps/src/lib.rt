//! Every step of a tree by its name, and what to do next: the heaviest flush, or what makes room for it.
//!
//! `do_step` runs the step that a `TreeStep` names, for a scheduler that chooses steps itself. `compaction` chooses a useful step
//! and `room` the step that has to come first.
#![tactic(auto)]

ghost use Rattle.node.specs.Places.{way};
ghost use Rattle.node.specs.RootSteps.{StepAnswers};

use flush::{flush_inner, flush_leaf};
use message::Update;
use node::{StepKind, StepReply, Tree, TreeStep};
use split_merge::{drop_covered, merge_inner, merge_leaves, root_down, root_up, split_inner};
use std::alloc::Global;

pub mod compaction;
pub mod room;

pub use compaction::{
    CompactTarget, MAX_ATTEMPTS, SingleTree, TriedStep, compact_in, compact_step,
};
pub use room::{make_room, preemptive_split};

/// Does the step. Whatever the reply, the tree means what it meant.
///
/// `NotThere`, `NoRoom` and `NoMemory` are returned if the step of that kind returns them, and leave the tree as it was.
pub fn do_step<U: Update>(alloc: Global, tree: &mut Tree<U>, step: TreeStep) -> StepReply
    ensures { StepAnswers U.means step.kind (way step.at) step.slot result tree.old tree.new }
{
    let TreeStep { kind, at, slot } = step;
    match kind {
        StepKind::FlushInner => flush_inner(alloc, tree, at, slot),
        StepKind::FlushLeaf => flush_leaf(alloc, tree, at, slot),
        StepKind::SplitInner => split_inner(alloc, tree, at, slot),
        StepKind::MergeLeaves => merge_leaves(alloc, tree, at, slot),
        StepKind::MergeInner => merge_inner(alloc, tree, at, slot),
        StepKind::RootUp => root_up(alloc, tree),
        StepKind::RootDown => root_down(alloc, tree),
        StepKind::DropCovered => drop_covered(alloc, tree, at, slot),
    }
}
