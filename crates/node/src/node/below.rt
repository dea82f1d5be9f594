//! A step in a subtree that is not part of a tree, as a job builds it.
//!
//! Invariant: the subtree stays lawful for its range, and means what it meant at each key of the range.
ghost use Rattle.std.specs.Prelude.{◌≡◌, IsTrue, ℕ, List, false};
ghost use Rattle.std.specs.Option.{option_copied};
ghost use Rattle.node.specs.Lawful.{IsLawfulNode};
ghost use Rattle.node.specs.Places.{way};
ghost use Rattle.node.specs.Shapes.{is_shape};
ghost use Rattle.node.specs.Steps.{UnlessDid, there};
ghost use Rattle.node.specs.Subtrees.{StaysSubtree};
ghost use Rattle.node.specs.declared.step.StepReply.TheVariants.{NotThere};

use super::Node;
use super::change::SlotStep;
use super::descend::{descend, precheck};
use crate::place::Place;
use crate::shape::Shape;
use crate::step::StepReply;
use message::Update;
use pathkey::Key;
use std::alloc::Global;
use std::sync::Arc;

/// Does a change at the slot with index `slot` of the node at `at`, a path that begins at the top of a subtree that is not
/// a whole tree and ends at `hi`.
///
/// Whatever the reply, the subtree stays lawful if it was and means what it meant at each key of its range. The nodes on
/// the path are copied if they are shared, one level each.
pub fn step_subtree<U: Update, C: SlotStep<U>>(
    alloc: Global,
    change: &C,
    shape: Shape,
    top: &mut Arc<Node<U>>,
    hi: Option<&Key>,
    at: Place,
    slot: u8,
) -> StepReply
    requires shape { IsTrue (is_shape shape) }
    requires lawful { (h : ℕ) × (lo : List ℕ) × IsLawfulNode shape top.old.value h lo (option_copied hi) }
    ensures stays { StaysSubtree U.means shape (option_copied hi.entry) top.old.value top.new.value }
    ensures unchanged { UnlessDid result (top.new.value ≡ top.old.value) }
    ensures not_there { result ≡ NotThere → there C.kind slot (way at) (option_copied hi.entry) top.old.value ≡ false }
{
    step_below(alloc, change, shape, top, hi, at.numbers(), slot as usize)
}

/// Does a change at the slot with index `slot` of the node that these slot indexes lead to, in a subtree that ends at `hi`.
fn step_below<U: Update, C: SlotStep<U>>(
    alloc: Global,
    change: &C,
    shape: Shape,
    top: &mut Arc<Node<U>>,
    hi: Option<&Key>,
    numbers: &[u8],
    slot: usize,
) -> StepReply
    requires shape { IsTrue (is_shape shape) }
    requires lawful { (h : ℕ) × (lo : List ℕ) × IsLawfulNode shape top.old.value h lo (option_copied hi) }
    ensures stays { StaysSubtree U.means shape (option_copied hi.entry) top.old.value top.new.value }
    ensures unchanged { UnlessDid result (top.new.value ≡ top.old.value) }
    ensures not_there { result ≡ NotThere → there C.kind slot numbers.now (option_copied hi.entry) top.old.value ≡ false }
{
    if let Some(reply) = precheck(change, shape, false, top, numbers, slot, hi) {
        return reply;
    }
    descend(alloc, change, shape, false, top, numbers, slot)
}
