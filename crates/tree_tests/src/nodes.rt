//! Tests of appending messages, at keys of one byte, and of the slots in which they are then pending.
use crate::trees::{SMALL, TreeTest, all_pass, append, has, new_tree, passes_on_new_tree};
use flush::flush_leaf;
use message::Msg;
use node::{Body, Node, Place, Shape, Slot, StepReply, Tree, append_both};
use std::alloc::Global;
use test_support::{Digit, Holds, Plain, all_hold, batch, waits};

fn slot_count(node: &Node<Digit>) -> usize {
    match node.body() {
        Body::Leaf(_) => 0,
        Body::Inner(slots) => slots.len(),
    }
}

fn slot_at<'a>(node: &'a Node<Digit>, number: usize) -> Option<&'a Slot<Digit>> {
    match node.body() {
        Body::Leaf(_) => None,
        Body::Inner(slots) => slots.get(number),
    }
}

/// Whether exactly these messages are pending in a slot.
fn wait(alloc: Global, node: &Node<Digit>, slot: usize, msgs: &[Plain]) -> bool {
    match slot_at(node, slot) {
        None => false,
        Some(slot) => waits(alloc, &slot.pending, msgs),
    }
}

fn is_empty_leaf(node: &Node<Digit>) -> bool {
    match node.body() {
        Body::Leaf(entries) => entries.is_empty(),
        Body::Inner(_) => false,
    }
}

/// Three limits, and whether a shape may have them.
struct Limits(u16, u16, u16, bool);

impl Holds for Limits {
    fn holds(&self, _alloc: Global) -> bool {
        let shape = Shape {
            fanout: self.0,
            pending: self.1,
            leaf: self.2,
        };
        shape.ok() == self.3
    }
}

const LIMITS: &[Limits] = &[
    Limits(3, 1024, 4, false),
    Limits(4, 1024, 4, true),
    Limits(64, 1024, 4, true),
    Limits(65, 1024, 4, false),
    Limits(8, 7, 4, false),
    Limits(8, 8, 4, true),
    Limits(8, 1025, 4, false),
    Limits(8, 1024, 3, false),
    Limits(8, 1024, 1024, true),
    Limits(8, 1024, 1025, false),
];

#[test]
fn allows_each_limit_and_nothing_past_it(rt: HostRuntime) -> Result<(), usize> {
    all_hold(rt.alloc(), LIMITS)
}

/// Whether a slot of all keys is over an empty leaf, with nothing pending.
fn is_first(slot: &Slot<Digit>) -> bool {
    slot.lo.as_bytes().is_empty() && slot.pending.len() == 0 && is_empty_leaf(&slot.child)
}

/// Whether a node has one slot, over an empty leaf.
fn has_first_alone(node: &Node<Digit>) -> bool {
    slot_count(node) == 1 && matches!(slot_at(node, 0), Some(slot) if is_first(slot))
}

/// A new tree has its shape, and one slot over an empty leaf.
struct Beginning;

impl TreeTest for Beginning {
    fn passes(&self, _alloc: Global, tree: &mut Tree<Digit>) -> bool {
        tree.shape() == SMALL && has_first_alone(tree.root())
    }
}

#[test]
fn begins_with_one_slot_over_an_empty_leaf(rt: HostRuntime) {
    assert!(rt; passes_on_new_tree(rt.alloc(), SMALL, &Beginning));
}

/// Whether exactly these messages are pending in a node's first slot, over an empty leaf.
fn wait_above_nothing(alloc: Global, node: &Node<Digit>, msgs: &[Plain]) -> bool {
    wait(alloc, node, 0, msgs)
        && matches!(slot_at(node, 0), Some(slot) if is_empty_leaf(&slot.child))
}

/// Appends messages one by one; `false` if an allocation fails.
fn append_in_turn(alloc: Global, tree: &mut Tree<Digit>, msgs: &[Plain]) -> bool {
    for msg in msgs {
        if !append(alloc, tree, &[*msg]) {
            return false;
        }
    }
    true
}

/// Messages that are appended one by one, and those that are pending then.
#[derive(Drop)]
struct InTurn(&'static [Plain], &'static [Plain]);

impl TreeTest for InTurn {
    fn passes(&self, alloc: Global, tree: &mut Tree<Digit>) -> bool {
        append_in_turn(alloc, tree, self.0) && wait_above_nothing(alloc, tree.root(), self.1)
    }
}

/// Messages that are appended in one batch, and one by one to a new tree, and those that are pending then.
struct Kept(&'static [Plain], &'static [Plain]);

impl TreeTest for Kept {
    fn passes(&self, alloc: Global, tree: &mut Tree<Digit>) -> bool {
        append(alloc, tree, self.0)
            && wait_above_nothing(alloc, tree.root(), self.1)
            && passes_on_new_tree(alloc, SMALL, &InTurn(self.0, self.1))
    }
}

const KEPT: &[Kept] = &[
    // a message that becomes redundant is removed
    Kept(&[Plain::Put(3, 1), Plain::Edit(3, 2)], &[Plain::Put(3, 12)]),
    Kept(&[Plain::Edit(3, 2), Plain::Put(3, 1)], &[Plain::Put(3, 1)]),
    Kept(&[Plain::Put(3, 1), Plain::Del(3)], &[Plain::Del(3)]),
    Kept(&[Plain::Del(3), Plain::Edit(3, 2)], &[Plain::Put(3, 2)]),
    Kept(
        &[Plain::Del(7), Plain::DelRange(0, Some(9))],
        &[Plain::DelRange(0, Some(9))],
    ),
    Kept(
        &[
            Plain::DelRange(3, Some(5)),
            Plain::Put(1, 1),
            Plain::DelRange(2, Some(8)),
        ],
        &[Plain::DelRange(2, Some(8)), Plain::Put(1, 1)],
    ),
    // a range-delete does not remove newer messages
    Kept(
        &[Plain::DelRange(2, None), Plain::Put(200, 1)],
        &[Plain::DelRange(2, None), Plain::Put(200, 1)],
    ),
    Kept(
        &[Plain::DelRange(2, None), Plain::Edit(3, 1)],
        &[Plain::DelRange(2, None), Plain::Edit(3, 1)],
    ),
    // edits that cannot be joined keep their order, and keys are in order
    Kept(
        &[Plain::Put(9, 1), Plain::Edit(3, 2), Plain::Edit(3, 4)],
        &[Plain::Edit(3, 2), Plain::Edit(3, 4), Plain::Put(9, 1)],
    ),
    // overlapping range-deletes are joined
    Kept(
        &[Plain::DelRange(2, Some(5)), Plain::DelRange(4, Some(8))],
        &[Plain::DelRange(2, Some(8))],
    ),
    Kept(
        &[Plain::DelRange(4, None), Plain::DelRange(2, Some(5))],
        &[Plain::DelRange(2, None)],
    ),
];

#[test]
fn keeps_in_the_root_what_messages_mean(rt: HostRuntime) -> Result<(), usize> {
    all_pass(rt.alloc(), SMALL, KEPT)
}

/// Whether two trees with the same message each keep the next one that is appended only to them.
fn part(alloc: Global, tree: &mut Tree<Digit>, shared: &mut Tree<Digit>) -> bool {
    append(alloc, tree, &[Plain::Del(3)])
        && append(alloc, shared, &[Plain::Edit(3, 2)])
        && wait(alloc, tree.root(), 0, &[Plain::Del(3)])
        && wait(alloc, shared.root(), 0, &[Plain::Put(3, 12)])
}

/// Whether a tree with one message and a share of it become independent.
fn parts_from_its_share(alloc: Global, tree: &mut Tree<Digit>) -> bool {
    match tree.share() {
        Ok(mut shared) => part(alloc, tree, &mut shared),
        Err(_) => false,
    }
}

/// A tree with one message and a share of it become independent.
struct Parting;

impl TreeTest for Parting {
    fn passes(&self, alloc: Global, tree: &mut Tree<Digit>) -> bool {
        append(alloc, tree, &[Plain::Put(3, 1)]) && parts_from_its_share(alloc, tree)
    }
}

#[test]
fn leaves_the_other_owner_of_a_shared_root_alone(rt: HostRuntime) {
    assert!(rt; passes_on_new_tree(rt.alloc(), SMALL, &Parting));
}

/// Appends a batch to one tree and messages to another, both or neither.
fn append_beside(
    alloc: Global,
    first: &mut Tree<Digit>,
    batch_of_first: Vec<Msg<Digit>>,
    second: &mut Tree<Digit>,
    two: &[Plain],
) -> bool {
    match batch(alloc, two) {
        Ok(batch_of_second) => {
            append_both(alloc, first, batch_of_first, second, batch_of_second).is_ok()
        }
        Err(_) => false,
    }
}

/// Whether each of two new trees has its own half of a batch for both.
fn have_halves(
    alloc: Global,
    first: &mut Tree<Digit>,
    one: &[Plain],
    second: &mut Tree<Digit>,
    two: &[Plain],
) -> bool {
    let appended = match batch(alloc, one) {
        Ok(batch_of_first) => append_beside(alloc, first, batch_of_first, second, two),
        Err(_) => false,
    };
    appended && wait(alloc, first.root(), 0, one) && wait(alloc, second.root(), 0, two)
}

/// The two halves of a batch for two trees.
struct Halves(&'static [Plain], &'static [Plain]);

/// Each of two new trees has its own half of a batch for both.
impl TreeTest for Halves {
    fn passes(&self, alloc: Global, tree: &mut Tree<Digit>) -> bool {
        match new_tree(alloc, SMALL) {
            Ok(mut second) => have_halves(alloc, tree, self.0, &mut second, self.1),
            Err(_) => false,
        }
    }
}

const HALVES: &[Halves] = &[
    Halves(&[Plain::Put(3, 1), Plain::Edit(4, 2)], &[Plain::Del(4)]),
    Halves(&[Plain::Put(3, 1), Plain::Edit(4, 2)], &[]),
    Halves(&[], &[Plain::Del(4)]),
    Halves(&[], &[]),
];

#[test]
fn gives_each_tree_its_half_of_a_batch(rt: HostRuntime) -> Result<(), usize> {
    all_pass(rt.alloc(), SMALL, HALVES)
}

/// The reply to a flush of the root's first slot.
fn flushed(alloc: Global, tree: &mut Tree<Digit>) -> StepReply {
    flush_leaf(alloc, tree, Place::root(), 0)
}

/// Whether each of five keys is flushed at once, and the root then has two slots, of which the second begins at the key
/// 5.
fn has_two_slots(alloc: Global, tree: &mut Tree<Digit>) -> bool {
    for at in [1, 2, 5, 6, 7] {
        let has_sunk = append(alloc, tree, &[Plain::Put(at, 0)])
            && flushed(alloc, tree) == StepReply::Did(1);
        if !has_sunk {
            return false;
        }
    }
    slot_count(tree.root()) == 2
}

const ACROSS: &[Plain] = &[
    Plain::Put(4, 1),
    Plain::DelRange(2, Some(8)),
    Plain::Put(5, 2),
    Plain::DelRange(5, None),
    Plain::Edit(4, 3),
    Plain::DelRange(3, Some(5)),
    Plain::Del(255),
];

/// the last range-delete is within the first, which removed the put, and it removes the edit
const BEFORE_FIVE: &[Plain] = &[Plain::DelRange(2, Some(5))];

/// the second range-delete contains the first, and it removed the put
const FROM_FIVE: &[Plain] = &[Plain::DelRange(5, None), Plain::Del(255)];

/// Messages are split at the pivot 5.
struct Cutting;

impl TreeTest for Cutting {
    fn passes(&self, alloc: Global, tree: &mut Tree<Digit>) -> bool {
        has_two_slots(alloc, tree)
            && append(alloc, tree, ACROSS)
            && wait(alloc, tree.root(), 0, BEFORE_FIVE)
            && wait(alloc, tree.root(), 1, FROM_FIVE)
    }
}

#[test]
fn cuts_messages_at_the_pivots(rt: HostRuntime) {
    assert!(rt; passes_on_new_tree(rt.alloc(), SMALL, &Cutting));
}

/// Messages, each for one key, in one batch for a root with two slots.
struct Points {
    /// The indexes of slots, above 0, that keep their lists uncondensed.
    kept: &'static [u32],
    msgs: &'static [Plain],
    /// The messages that are pending in the first slot then, and in the second.
    waiting: (&'static [Plain], &'static [Plain]),
    /// The values of keys in the tree then.
    values: &'static [(u8, Option<u64>)],
}

fn append_beside_kept(alloc: Global, tree: &mut Tree<Digit>, points: &Points) -> bool {
    match batch(alloc, points.msgs) {
        Ok(msgs) => tree.append_kept(alloc, msgs, points.kept).is_ok(),
        Err(_) => false,
    }
}

fn has_each(alloc: Global, tree: &Tree<Digit>, values: &[(u8, Option<u64>)]) -> bool {
    for (at, wanted) in values {
        if !has(alloc, tree, *at, *wanted) {
            return false;
        }
    }
    true
}

impl TreeTest for Points {
    fn passes(&self, alloc: Global, tree: &mut Tree<Digit>) -> bool {
        has_two_slots(alloc, tree)
            && append_beside_kept(alloc, tree, self)
            && wait(alloc, tree.root(), 0, self.waiting.0)
            && wait(alloc, tree.root(), 1, self.waiting.1)
            && has_each(alloc, tree, self.values)
    }
}

const POINTS: &[Points] = &[
    // into one slot
    Points {
        kept: &[],
        msgs: &[Plain::Put(6, 1), Plain::Edit(7, 2)],
        waiting: (&[], &[Plain::Put(6, 1), Plain::Edit(7, 2)]),
        values: &[(1, Some(0)), (6, Some(1)), (7, Some(2))],
    },
    Points {
        kept: &[],
        msgs: &[Plain::Put(2, 1), Plain::Edit(2, 2)],
        waiting: (&[Plain::Put(2, 12)], &[]),
        values: &[(2, Some(12)), (5, Some(0))],
    },
    // into two, in either order
    Points {
        kept: &[],
        msgs: &[Plain::Put(4, 3), Plain::Edit(5, 4)],
        waiting: (&[Plain::Put(4, 3)], &[Plain::Edit(5, 4)]),
        values: &[(4, Some(3)), (5, Some(4))],
    },
    Points {
        kept: &[],
        msgs: &[Plain::Del(255), Plain::Del(1)],
        waiting: (&[Plain::Del(1)], &[Plain::Del(255)]),
        values: &[(1, None), (2, Some(0)), (7, Some(0)), (255, None)],
    },
    // alternating
    Points {
        kept: &[],
        msgs: &[
            Plain::Put(6, 1),
            Plain::Put(1, 2),
            Plain::Edit(6, 3),
            Plain::Edit(1, 4),
        ],
        waiting: (&[Plain::Put(1, 24)], &[Plain::Put(6, 13)]),
        values: &[(1, Some(24)), (6, Some(13))],
    },
    // into slots that keep their lists, and beside one
    Points {
        kept: &[0, 1],
        msgs: &[Plain::Put(6, 1), Plain::Edit(6, 2)],
        waiting: (&[], &[Plain::Put(6, 1), Plain::Edit(6, 2)]),
        values: &[(6, Some(12))],
    },
    Points {
        kept: &[0, 1],
        msgs: &[
            Plain::Put(1, 1),
            Plain::Put(6, 2),
            Plain::Edit(1, 3),
            Plain::Edit(6, 4),
        ],
        waiting: (&[Plain::Put(1, 13)], &[Plain::Put(6, 2), Plain::Edit(6, 4)]),
        values: &[(1, Some(13)), (6, Some(24))],
    },
    // more than a few
    Points {
        kept: &[1],
        msgs: &[
            Plain::Put(1, 1),
            Plain::Put(6, 2),
            Plain::Edit(1, 3),
            Plain::Edit(6, 4),
            Plain::Edit(2, 5),
        ],
        waiting: (
            &[Plain::Put(1, 1), Plain::Edit(1, 3), Plain::Edit(2, 5)],
            &[Plain::Put(6, 24)],
        ),
        values: &[(1, Some(13)), (2, Some(5)), (6, Some(24))],
    },
];

#[test]
fn brings_messages_for_one_key_each_to_their_slots(rt: HostRuntime) -> Result<(), usize> {
    all_pass(rt.alloc(), SMALL, POINTS)
}
