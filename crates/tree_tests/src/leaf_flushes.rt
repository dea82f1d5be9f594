//! Tests of flushes of several messages into a leaf, at keys of one byte.
use crate::trees::{TreeTest, all_pass, append};
use flush::flush_leaf;
use node::{Body, Node, Place, Shape, Slot, StepReply, Tree};
use pathkey::Key;
use std::alloc::Global;
use test_support::{Digit, Plain, are_numbered};

/// Whether these entries are before the twelve.
fn begin_so(entries: &[(Key, u64)], wanted: &[(u8, u64)]) -> bool {
    match entries.len().checked_sub(12) {
        Some(count) => are_numbered(&entries[..count], wanted),
        None => false,
    }
}

/// Whether the slot's child is a leaf with these entries before the twelve.
fn holds(slot: &Slot<Digit>, wanted: &[(u8, u64)]) -> bool {
    match slot.child.body() {
        Body::Leaf(entries) => begin_so(entries, wanted),
        Body::Inner(_) => false,
    }
}

/// Whether the leaf of the root's first slot has these entries before the twelve.
fn is_numbered(root: &Node<Digit>, wanted: &[(u8, u64)]) -> bool {
    match root.body() {
        Body::Leaf(_) => false,
        Body::Inner(slots) => match slots.get(0) {
            None => false,
            Some(slot) => holds(slot, wanted),
        },
    }
}

/// Whether one flush moves the given number of messages down.
fn are_flushed(alloc: Global, tree: &mut Tree<Digit>, msgs: &[Plain], number: u32) -> bool {
    append(alloc, tree, msgs) && flush_leaf(alloc, tree, Place::root(), 0) == StepReply::Did(number)
}

/// Leaves of 16 entries.
const SHAPE: Shape = Shape {
    fanout: 4,
    pending: 64,
    leaf: 16,
};

/// The first entries; the value of each is ten times its key.
const THREE: &[Plain] = &[Plain::Put(2, 20), Plain::Put(4, 40), Plain::Put(6, 60)];

/// Twelve entries after them, which leave space for one more.
const TWELVE: &[Plain] = &[
    Plain::Put(200, 0),
    Plain::Put(201, 0),
    Plain::Put(202, 0),
    Plain::Put(203, 0),
    Plain::Put(204, 0),
    Plain::Put(205, 0),
    Plain::Put(206, 0),
    Plain::Put(207, 0),
    Plain::Put(208, 0),
    Plain::Put(209, 0),
    Plain::Put(210, 0),
    Plain::Put(211, 0),
];

/// Sixteen messages for keys between, which have no entry, so that there are enough messages for a pass over the leaf.
const SIXTEEN: &[Plain] = &[
    Plain::Del(100),
    Plain::Del(101),
    Plain::Del(102),
    Plain::Del(103),
    Plain::Del(104),
    Plain::Del(105),
    Plain::Del(106),
    Plain::Del(107),
    Plain::Del(108),
    Plain::Del(109),
    Plain::Del(110),
    Plain::Del(111),
    Plain::Del(112),
    Plain::Del(113),
    Plain::Del(114),
    Plain::Del(115),
];

/// Messages for the leaf, before the sixteen; how many of all are moved down; and the entries before the twelve then.
struct Row(&'static [Plain], u32, &'static [(u8, u64)]);

const ROWS: &[Row] = &[
    // keys without entries: before the entries, between them and after them
    Row(
        &[
            Plain::Del(1),
            Plain::Put(3, 3),
            Plain::Del(5),
            Plain::Del(7),
        ],
        20,
        &[(2, 20), (3, 3), (4, 40), (6, 60)],
    ),
    Row(
        &[Plain::Put(1, 1), Plain::Del(9)],
        18,
        &[(1, 1), (2, 20), (4, 40), (6, 60)],
    ),
    Row(
        &[Plain::Edit(2, 1), Plain::Put(9, 9)],
        18,
        &[(2, 201), (4, 40), (6, 60), (9, 9)],
    ),
    // entries that are removed make space for others
    Row(
        &[
            Plain::Del(2),
            Plain::Del(4),
            Plain::Put(5, 5),
            Plain::Put(7, 7),
            Plain::Put(8, 8),
        ],
        21,
        &[(5, 5), (6, 60), (7, 7), (8, 8)],
    ),
    // several updates of one key
    Row(
        &[
            Plain::Edit(4, 1),
            Plain::Edit(4, 2),
            Plain::Edit(5, 3),
            Plain::Edit(5, 4),
        ],
        20,
        &[(2, 20), (4, 12), (5, 34), (6, 60)],
    ),
    Row(
        &[Plain::Edit(2, 9), Plain::Edit(2, 5), Plain::Del(6)],
        19,
        &[(2, 5), (4, 40)],
    ),
    // a range-delete before the messages of keys
    Row(
        &[
            Plain::DelRange(2, Some(5)),
            Plain::Put(1, 1),
            Plain::Put(3, 3),
            Plain::Edit(6, 1),
        ],
        20,
        &[(1, 1), (3, 3), (6, 601)],
    ),
    Row(&[Plain::Put(3, 3), Plain::DelRange(0, Some(99))], 17, &[]),
    // the leaf becomes full in the middle
    Row(
        &[Plain::Put(1, 1), Plain::Put(3, 3), Plain::Put(6, 6)],
        1,
        &[(1, 1), (2, 20), (4, 40), (6, 60)],
    ),
    Row(
        &[
            Plain::Put(3, 3),
            Plain::Edit(4, 1),
            Plain::Put(6, 7),
            Plain::Put(8, 8),
        ],
        3,
        &[(2, 20), (3, 3), (4, 401), (6, 7)],
    ),
    Row(
        &[
            Plain::Put(5, 5),
            Plain::Del(5),
            Plain::Edit(7, 1),
            Plain::Edit(8, 9),
        ],
        2,
        &[(2, 20), (4, 40), (6, 60), (7, 1)],
    ),
];

/// A tree's first leaf receives its entries, and is then as the row says.
impl TreeTest for Row {
    fn passes(&self, alloc: Global, tree: &mut Tree<Digit>) -> bool {
        are_flushed(alloc, tree, THREE, 3)
            && are_flushed(alloc, tree, TWELVE, 12)
            && append(alloc, tree, self.0)
            && are_flushed(alloc, tree, SIXTEEN, self.1)
            && is_numbered(tree.root(), self.2)
    }
}

#[test]
fn takes_several_messages_at_once(rt: HostRuntime) -> Result<(), usize> {
    all_pass(rt.alloc(), SHAPE, ROWS)
}
