//! Compaction: the fullest slot's flush, unless a step that reshapes the path to it comes first or, if it has no room, one that makes
//! room for it.
//!
//! It is written once, for a tree by itself and for the live trees of a volume, whose steps also report which marks they
//! leave.
ghost use Rattle.std.specs.Prelude.{◌≡◌, ◌↔◌, None, IfSome, IfNone};
ghost use Rattle.node.specs.Places.{way};
ghost use Rattle.node.specs.Report.{total};
ghost use Rattle.node.specs.RootSteps.{StepAnswers};
ghost use Rattle.node.specs.Steps.{UnlessDid};
ghost use Rattle.node.specs.declared.report.Quantity.TheVariants.{Pending};

use crate::do_step;
use crate::room::{make_room, preemptive_split};
use flush::heaviest;
use message::Update;
use node::{StepReply, Tree, TreeStep};
use std::alloc::Global;

/// How many steps without room are replaced by another before a turn ends.
pub const MAX_ATTEMPTS: u8 = 64;

/// A step that was tried, and its reply.
#[derive(Clone, Copy)]
pub struct TriedStep {
    /// The step.
    pub step: TreeStep,
    /// Its reply.
    pub reply: StepReply,
}

/// Which tree of a `T` is meant, and how steps are tried there.
pub trait CompactTarget<T> {
    ghost use Rattle.std.specs.Prelude.{◌≡◌, ◌↔◌, ℕ, None};
    ghost use Rattle.node.specs.Steps.{UnlessDid};
    ghost use Rattle.node.specs.declared.place.TreeStep.{TreeStep};
    ghost use Rattle.node.specs.declared.step.StepReply.{StepReply};

    /// What a step with that reply says of `T` before and after it.
    ghost answers: { Self → TreeStep → StepReply → T → T → Type 0 };

    /// How many pieces are pending in the tree.
    ghost waiting: { Self → T → ℕ };

    /// The flush of the slot than which none has more pending messages; `None` if nothing is pending.
    fn heaviest(self, on: &T) -> Option<TreeStep>
        ensures { (result ≡ None) ↔ (waiting self on.now ≡ 0) };

    /// A step to try if this one has no room; `None` if none is known.
    fn make_room(self, on: &T, step: TreeStep) -> Option<TreeStep>;

    /// The step that reshapes the path to a flush before the flush is tried: a lower root, a merge, or a split of the flush's node;
    /// `None` if the flush is to be tried at once.
    fn preemptive_split(self, on: &T, flush: TreeStep) -> Option<TreeStep>;

    /// Tries the step.
    fn try_step(self, alloc: Global, on: &mut T, step: TreeStep) -> StepReply
        ensures answers { answers self step result on.old on.new }
        ensures refused { UnlessDid result (on.new ≡ on.old) };
}

/// The tree by itself.
#[derive(Clone, Copy)]
pub struct SingleTree;

impl<U: Update> CompactTarget<Tree<U>> for SingleTree {
    ghost use Rattle.node.specs.Places.{way};
    ghost use Rattle.node.specs.Report.{total};
    ghost use Rattle.node.specs.RootSteps.{StepAnswers};
    ghost use Rattle.node.specs.declared.report.Quantity.TheVariants.{Pending};

    ghost answers = { λ l s r a b. StepAnswers U.means s.kind (way s.at) s.slot r a b };

    ghost waiting = { λ l t. total Pending t.root };

    fn heaviest(self, on: &Tree<U>) -> Option<TreeStep> {
        heaviest(on)
    }

    fn make_room(self, on: &Tree<U>, step: TreeStep) -> Option<TreeStep> {
        make_room(on, step)
    }

    fn preemptive_split(self, on: &Tree<U>, flush: TreeStep) -> Option<TreeStep> {
        preemptive_split(on, flush)
    }

    fn try_step(self, alloc: Global, on: &mut Tree<U>, step: TreeStep) -> StepReply {
        do_step(alloc, on, step)
    }
}

/// Does the step or, if it has no room, a step that makes room for it; returns the step that was tried last.
fn do_with_room<T, L: CompactTarget<T> + Copy>(
    alloc: Global,
    target: L,
    on: &mut T,
    step: TreeStep,
    tries: u8,
) -> TriedStep
    ensures answers { L.answers target result.step result.reply on.old on.new }
    ensures refused { UnlessDid result.reply (on.new ≡ on.old) }
{
    let reply = target.try_step(alloc, on, step);
    if reply != StepReply::NoRoom || tries == 0 {
        return TriedStep { step, reply };
    }
    let Some(other) = target.make_room(on, step) else {
        return TriedStep { step, reply };
    };
    do_with_room(alloc, target, on, other, tries - 1)
}

/// Does what `preemptive_split` names, or what makes room for that; `None` if it names none or none of these steps is done, and
/// nothing has changed.
fn prepare<T, L: CompactTarget<T> + Copy>(
    alloc: Global,
    target: L,
    on: &mut T,
    flush: TreeStep,
) -> Option<TriedStep>
    ensures unchanged { IfNone result (on.new ≡ on.old) }
    ensures answers { IfSome result (λ tried. L.answers target tried.step tried.reply on.old on.new) }
{
    let first = target.preemptive_split(on, flush)?;
    let tried = do_with_room(alloc, target, on, first, MAX_ATTEMPTS);
    match tried.reply {
        StepReply::Did(_) => Some(tried),
        _ => None,
    }
}

/// Flushes the fullest slot of the tree or, if its flush has no room, does what makes room for it; `None` if nothing is
/// pending. First it lowers the root, merges nearly empty neighbours on the path, or splits a full node (`preemptive_split`).
///
/// The reply is `NoRoom` only if no step that makes room was found, or if [`MAX_ATTEMPTS`] of them had none either.
pub fn compact_in<T, L: CompactTarget<T> + Copy>(
    alloc: Global,
    target: L,
    on: &mut T,
) -> Option<TriedStep>
    ensures nothing { (result ≡ None) ↔ (L.waiting target on.old ≡ 0) }
    ensures unchanged { IfNone result (on.new ≡ on.old) }
    ensures answers { IfSome result (λ tried. L.answers target tried.step tried.reply on.old on.new) }
{
    let step = target.heaviest(on)?;
    if let Some(tried) = prepare(alloc, target, on, step) {
        return Some(tried);
    }
    Some(do_with_room(alloc, target, on, step, MAX_ATTEMPTS))
}

/// What `compact_in` does, for a tree by itself.
pub fn compact_step<U: Update>(alloc: Global, tree: &mut Tree<U>) -> Option<TriedStep>
    ensures nothing { (result ≡ None) ↔ (total Pending tree.old.root ≡ 0) }
    ensures unchanged { IfNone result (tree.new ≡ tree.old) }
    ensures answers { IfSome result (λ tried. StepAnswers U.means tried.step.kind (way tried.step.at) tried.step.slot tried.reply tree.old tree.new) }
{
    compact_in(alloc, SingleTree, tree)
}
