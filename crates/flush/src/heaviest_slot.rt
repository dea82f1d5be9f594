//! The slot with the most pending messages, whose flush moves the most.
//!
//! Invariant of the descent: the longest list of the tree is in the current node or below it, as the stored weights say.
ghost use Rattle.std.specs.Prelude.{◌≡◌, ◌+◌, ◌≤◌, ◌<◌, ◌++◌, ◌∷◌, ◌↔◌, [], true, false, IfSome, MatchOption, length};
ghost use Rattle.flush.specs.Heaviest.{AreLight, FlushesHeaviest, IsFirst, IsFirstOf, IsWalkable, loads};
ghost use Rattle.node.specs.Places.{way};
ghost use Rattle.node.specs.Report.{total};
ghost use Rattle.node.specs.See.{seen_slots};
ghost use Rattle.node.specs.Steps.{there};
ghost use Rattle.node.specs.Weights.{longest, longest_in};
ghost use Rattle.node.specs.declared.report.Quantity.TheVariants.{Pending};
ghost use Rattle.node.specs.declared.step.StepKind.TheVariants.{FlushInner, FlushLeaf};

use message::Update;
use node::count::height;
use node::{Body, Node, Place, Slot, StepKind, Tree, TreeStep};

/// Whether a node that is `levels` levels above the leaves has leaves below it.
fn is_lowest(levels: usize) -> bool
    ensures yes { result ≡ true → levels ≤ 1 }
    ensures no { result ≡ false → 1 < levels }
{
    levels <= 1
}

/// The flush of a slot of a node that is `levels` levels above the leaves.
fn flush_at(levels: usize) -> StepKind
    ensures leaf { levels ≤ 1 → result ≡ FlushLeaf }
    ensures inner { 1 < levels → result ≡ FlushInner }
{
    if is_lowest(levels) {
        StepKind::FlushLeaf
    } else {
        StepKind::FlushInner
    }
}

/// The step at slot index `i` of the node at the place.
fn step_at(kind: StepKind, at: Place, i: usize) -> TreeStep
    requires { i < 256 }
    ensures { result ≡ record { kind = kind; at = at; slot = i } }
{
    TreeStep {
        kind,
        at,
        slot: i as u8,
    }
}

/// The place of the node below slot index `i`.
fn below(at: Place, i: usize) -> Place
    requires few { i < 256 }
    requires short { length (way at) < 15 }
    ensures { way result ≡ way at ++ i ∷ [] }
{
    let Some(under) = at.under(i as u8) else {
        // The path has fewer than 15 indexes, so there is space for one more.
        unreachable!()
    };
    under
}

/// The index of the first of these slots with at least `least` pending messages.
fn own_slot<U: Update>(slots: &[Slot<U>], least: usize) -> Option<usize>
    ensures bound { IfSome result (λ i. i < length slots.now) }
    ensures first { MatchOption result (AreLight (λ ms n. length ms) least (seen_slots slots.now)) (IsFirst (λ ms n. length ms) least (seen_slots slots.now)) }
{
    let Some((slot, later)) = slots.split_first() else {
        return None;
    };
    if slot.pending.len() >= least {
        return Some(0);
    }
    Some(own_slot(later, least)? + 1)
}

/// The index of the first of these slots below whose child `least` messages are pending in one slot, if none of their own
/// lists has that many.
fn slot_above<U: Update>(slots: &[Slot<U>], least: usize) -> usize
    requires some { 0 < least }
    requires light { AreLight (λ ms n. length ms) least (seen_slots slots.now) }
    requires reached { least ≤ longest_in (seen_slots slots.now) }
    ensures bound { result < length slots.now }
    ensures first { IsFirst (λ ms n. longest n) least (seen_slots slots.now) result }
{
    let Some((slot, later)) = slots.split_first() else {
        // Unreachable: below one of the slots `least` messages are pending in one list.
        unreachable!()
    };
    if slot.child.weight().longest >= least {
        return 0;
    }
    slot_above(later, least) + 1
}

/// The flush of the first slot with at least `least` messages, in the walk of this node and all below it, if there is one.
///
/// It goes down one path, guided by the weights that the nodes store.
fn first_heavy<U: Update>(node: &Node<U>, levels: usize, at: Place, least: usize) -> TreeStep
    requires even { IsWalkable levels node.now }
    requires short { length (way at) + levels ≤ 16 }
    requires some { 0 < least }
    requires reached { least ≤ longest node.now }
    ensures { IsFirstOf least result (loads (way at) node.now) }
{
    let Body::Inner(slots) = node.body() else {
        // In a leaf nothing is pending, and here something is.
        unreachable!()
    };
    let slots = slots.as_slice();
    if let Some(i) = own_slot(slots, least) {
        return step_at(flush_at(levels), at, i);
    }
    let i = slot_above(slots, least);
    first_heavy(&slots[i].child, levels - 1, below(at, i), least)
}

/// The flush of a slot than which no slot has more pending messages; `None` if nothing is pending.
///
/// Of equally full slots it is the first in the walk from the root that takes a node before its children. The reply to the
/// flush is never `NotThere`. It reads the slots of the nodes on the path to that slot and the weights that their children
/// store, and for the tree's height the first nodes of each level.
pub fn heaviest<U: Update>(tree: &Tree<U>) -> Option<TreeStep>
    ensures nothing { (result ≡ None) ↔ (total Pending tree.now.root ≡ 0) }
    ensures first { IfSome result (FlushesHeaviest (loads [] tree.now.root)) }
    ensures can_be_done { IfSome result (λ step. there step.kind step.slot (way step.at) None tree.now.root ≡ true) }
{
    let root = tree.root();
    let most = root.weight().longest;
    if most == 0 {
        return None;
    }
    let levels = height(root) as usize;
    Some(first_heavy(root, levels, Place::root(), most))
}
