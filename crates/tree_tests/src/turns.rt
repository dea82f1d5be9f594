//! Tests of steps on small trees, in tables of what is appended, which steps are done, and the tree's size then.
use crate::trees::{SMALLEST, TreeTest, append, new_tree, passes_on_new_tree};
use flush::heaviest;
use node::{Place, StepKind, StepReply, Tree, TreeStep};
use std::alloc::Global;
use steps::do_step;
use test_support::{Digit, Plain};

/// A turn of a test.
#[derive(Clone, Copy)]
pub enum Turn {
    /// Messages are appended.
    Append(&'static [Plain]),
    /// A step of this kind at this slot of the root has this reply.
    Step(StepKind, u8, StepReply),
}

/// A turn, and the numbers of levels, slots, pending pieces and entries of the tree then.
pub type Row = (Turn, [u128; 4]);

/// The numbers of levels, slots, pending pieces and entries.
pub fn counts(tree: &Tree<Digit>) -> [u128; 4] {
    let report = tree.shape_report();
    [report.levels, report.slots, report.pending, report.entries]
}

/// The reply to a step at a slot of the root.
pub fn take(alloc: Global, tree: &mut Tree<Digit>, kind: StepKind, slot: u8) -> StepReply {
    let at = Place::root();
    do_step(alloc, tree, TreeStep { kind, at, slot })
}

/// Whether the turn has the expected reply.
fn is_answered(alloc: Global, tree: &mut Tree<Digit>, turn: Turn) -> bool {
    match turn {
        Turn::Append(msgs) => append(alloc, tree, msgs),
        Turn::Step(kind, slot, wanted) => take(alloc, tree, kind, slot) == wanted,
    }
}

/// Runs the rows on a tree; otherwise the index of the first that fails.
fn follow_in(alloc: Global, tree: &mut Tree<Digit>, rows: &[Row]) -> Result<(), usize> {
    let mut number = 0usize;
    for (turn, wanted) in rows {
        if !is_answered(alloc, tree, *turn) || counts(tree) != *wanted {
            return Err(number);
        }
        number = number.saturating_add(1);
    }
    Ok(())
}

/// Runs the first rows on a tree, and then the others; otherwise the index of the first of these that fails.
fn follow_both(
    alloc: Global,
    tree: &mut Tree<Digit>,
    first: &[Row],
    rows: &[Row],
) -> Result<(), usize> {
    if follow_in(alloc, tree, first).is_err() {
        return Err(usize::MAX);
    }
    follow_in(alloc, tree, rows)
}

/// Runs the first rows on a new tree, and then the others; otherwise the index of the first of these that fails.
fn follow_behind(alloc: Global, first: &[Row], rows: &[Row]) -> Result<(), usize> {
    match new_tree(alloc, SMALLEST) {
        Ok(mut tree) => follow_both(alloc, &mut tree, first, rows),
        Err(_) => Err(usize::MAX),
    }
}

/// Rows to a tree with two slots over leaves, of 1, 2 and of 5, 6, 7: the fifth key splits the full leaf.
const TWO_LEAVES: &[Row] = &[
    (
        Turn::Append(&[
            Plain::Put(7, 0),
            Plain::Put(1, 0),
            Plain::Put(6, 0),
            Plain::Put(2, 0),
            Plain::Put(5, 0),
        ]),
        [1, 1, 5, 0],
    ),
    (
        Turn::Step(StepKind::FlushLeaf, 0, StepReply::Did(4)),
        [1, 1, 1, 4],
    ),
    (
        Turn::Step(StepKind::FlushLeaf, 0, StepReply::Did(1)),
        [1, 2, 0, 5],
    ),
    (
        Turn::Step(StepKind::FlushLeaf, 0, StepReply::NotThere),
        [1, 2, 0, 5],
    ),
];

/// Runs these rows on a new tree, and then the others.
fn follow_two_leaves(alloc: Global, rows: &[Row]) -> Result<(), usize> {
    follow_behind(alloc, TWO_LEAVES, rows)
}

/// Messages for the first key, for all from it on, and for the last two. Three of them are pending, since the second makes the
/// first redundant.
const ACROSS: &[Plain] = &[
    Plain::Put(1, 1),
    Plain::DelRange(1, None),
    Plain::Put(8, 1),
    Plain::Put(9, 2),
];

/// Rows to a tree with one slot over a full leaf.
const TO_FULL_LEAF: &[Row] = &[
    (
        Turn::Append(&[
            Plain::Put(1, 0),
            Plain::Put(2, 0),
            Plain::Put(3, 0),
            Plain::Put(4, 0),
        ]),
        [1, 1, 4, 0],
    ),
    (
        Turn::Step(StepKind::FlushLeaf, 0, StepReply::Did(4)),
        [1, 1, 0, 4],
    ),
];

/// Takes a new tree to this leaf and then through the rows.
fn follow_full_leaf(alloc: Global, rows: &[Row]) -> Result<(), usize> {
    follow_behind(alloc, TO_FULL_LEAF, rows)
}

const SAME_KEYS: &[Row] = &[
    (
        Turn::Append(&[Plain::Put(1, 1), Plain::Put(2, 1), Plain::Del(9)]),
        [1, 1, 3, 4],
    ),
    (
        Turn::Step(StepKind::FlushLeaf, 0, StepReply::Did(3)),
        [1, 1, 0, 4],
    ),
];

#[test]
fn a_full_leaf_takes_what_adds_nothing(rt: HostRuntime) -> Result<(), usize> {
    follow_full_leaf(rt.alloc(), SAME_KEYS)
}

const CUT_LEAF: &[Row] = &[
    (
        Turn::Append(&[Plain::Put(5, 0), Plain::Put(6, 0)]),
        [1, 1, 2, 4],
    ),
    (
        Turn::Step(StepKind::FlushLeaf, 0, StepReply::Did(1)),
        [1, 2, 1, 5],
    ),
];

#[test]
fn a_full_leaf_is_cut_for_the_oldest_message(rt: HostRuntime) -> Result<(), usize> {
    follow_full_leaf(rt.alloc(), CUT_LEAF)
}

/// Two messages for keys in the full leaf precede the first for a key that is not in it: all three are flushed at once.
const TOUCHED_LEAF: &[Row] = &[
    (
        Turn::Append(&[
            Plain::Edit(1, 5),
            Plain::Put(4, 1),
            Plain::Put(5, 0),
            Plain::Put(6, 0),
        ]),
        [1, 1, 4, 4],
    ),
    (
        Turn::Step(StepKind::FlushLeaf, 0, StepReply::Did(3)),
        [1, 2, 1, 5],
    ),
];

#[test]
fn a_full_leaf_is_cut_behind_messages_for_its_own_keys(rt: HostRuntime) -> Result<(), usize> {
    follow_full_leaf(rt.alloc(), TOUCHED_LEAF)
}

/// Puts a value and flushes the last slot; returns the reply to the flush, and `None` if an allocation fails.
fn put_and_flush(alloc: Global, tree: &mut Tree<Digit>, at: u8) -> Option<StepReply> {
    if !append(alloc, tree, &[Plain::Put(at, 0)]) {
        return None;
    }
    let slot = tree.shape_report().slots.saturating_sub(1).min(3) as u8;
    Some(take(alloc, tree, StepKind::FlushLeaf, slot))
}

/// Each of ten keys is flushed, and the eleventh does not fit; an update of a key in the leaf is flushed alone.
struct FillingUp;

impl TreeTest for FillingUp {
    fn passes(&self, alloc: Global, tree: &mut Tree<Digit>) -> bool {
        for at in 1..11 {
            if put_and_flush(alloc, tree, at) != Some(StepReply::Did(1)) {
                return false;
            }
        }
        put_and_flush(alloc, tree, 11) == Some(StepReply::NoRoom)
            && counts(tree) == [1, 4, 1, 10]
            && append(alloc, tree, &[Plain::Edit(7, 1)])
            && take(alloc, tree, StepKind::FlushLeaf, 3) == StepReply::Did(1)
            && counts(tree) == [1, 4, 1, 10]
    }
}

#[test]
fn a_full_node_has_no_room_for_a_cut(rt: HostRuntime) {
    assert!(rt; passes_on_new_tree(rt.alloc(), SMALLEST, &FillingUp));
}

const BOTH_SIDES: &[Row] = &[
    (
        Turn::Step(StepKind::RootUp, 0, StepReply::Did(0)),
        [2, 3, 0, 5],
    ),
    (Turn::Append(ACROSS), [2, 3, 3, 5]),
    (
        Turn::Step(StepKind::FlushInner, 0, StepReply::Did(3)),
        [2, 3, 4, 5],
    ),
    (Turn::Append(&[Plain::Put(7, 3)]), [2, 3, 5, 5]),
    (
        Turn::Step(StepKind::FlushInner, 0, StepReply::NoRoom),
        [2, 3, 5, 5],
    ),
    (
        Turn::Step(StepKind::FlushLeaf, 0, StepReply::NotThere),
        [2, 3, 5, 5],
    ),
    (
        Turn::Step(StepKind::RootDown, 0, StepReply::Did(0)),
        [1, 2, 5, 5],
    ),
];

#[test]
fn messages_are_split_at_a_pivot(rt: HostRuntime) -> Result<(), usize> {
    follow_two_leaves(rt.alloc(), BOTH_SIDES)
}

const SPLIT: &[Row] = &[
    (
        Turn::Step(StepKind::RootUp, 0, StepReply::Did(0)),
        [2, 3, 0, 5],
    ),
    (Turn::Append(ACROSS), [2, 3, 3, 5]),
    (
        Turn::Step(StepKind::SplitInner, 0, StepReply::Did(0)),
        [2, 4, 4, 5],
    ),
    (
        Turn::Step(StepKind::SplitInner, 0, StepReply::NotThere),
        [2, 4, 4, 5],
    ),
    (
        Turn::Step(StepKind::RootDown, 0, StepReply::NotThere),
        [2, 4, 4, 5],
    ),
    (
        Turn::Step(StepKind::MergeLeaves, 0, StepReply::NotThere),
        [2, 4, 4, 5],
    ),
    (
        // the two parts of the range-delete are adjacent, and are joined again
        Turn::Step(StepKind::MergeInner, 0, StepReply::Did(0)),
        [2, 3, 3, 5],
    ),
    (
        Turn::Step(StepKind::MergeInner, 0, StepReply::NotThere),
        [2, 3, 3, 5],
    ),
];

#[test]
fn only_the_range_delete_is_on_both_sides_of_a_split(rt: HostRuntime) -> Result<(), usize> {
    follow_two_leaves(rt.alloc(), SPLIT)
}

const FIVE_MESSAGES: &[Row] = &[
    (
        Turn::Step(StepKind::RootUp, 0, StepReply::Did(0)),
        [2, 3, 0, 5],
    ),
    (
        Turn::Step(StepKind::SplitInner, 0, StepReply::Did(0)),
        [2, 4, 0, 5],
    ),
    (Turn::Append(ACROSS), [2, 4, 4, 5]),
    (
        Turn::Step(StepKind::FlushInner, 0, StepReply::Did(1)),
        [2, 4, 4, 5],
    ),
    (
        Turn::Step(StepKind::FlushInner, 1, StepReply::Did(3)),
        [2, 4, 4, 5],
    ),
    (Turn::Append(&[Plain::Put(7, 3)]), [2, 4, 5, 5]),
    (
        Turn::Step(StepKind::FlushInner, 1, StepReply::Did(1)),
        [2, 4, 5, 5],
    ),
    (
        Turn::Step(StepKind::MergeInner, 0, StepReply::NoRoom),
        [2, 4, 5, 5],
    ),
];

#[test]
fn five_messages_are_too_many_for_one_node(rt: HostRuntime) -> Result<(), usize> {
    follow_two_leaves(rt.alloc(), FIVE_MESSAGES)
}

/// Whether a new root and a split below it give this many levels.
fn grows_to(alloc: Global, tree: &mut Tree<Digit>, levels: u128) -> bool {
    take(alloc, tree, StepKind::RootUp, 0) == StepReply::Did(0)
        && take(alloc, tree, StepKind::SplitInner, 0) == StepReply::Did(0)
        && tree.shape_report().levels == levels
}

/// Whether a tree grows from one level to sixteen, and not further.
fn grows_to_sixteen(alloc: Global, tree: &mut Tree<Digit>) -> bool {
    for levels in 2u32..17 {
        if !grows_to(alloc, tree, levels as u128) {
            return false;
        }
    }
    take(alloc, tree, StepKind::RootUp, 0) == StepReply::NoRoom
}

/// A tree with two leaves grows to sixteen levels, and not further.
struct Growing;

impl TreeTest for Growing {
    fn passes(&self, alloc: Global, tree: &mut Tree<Digit>) -> bool {
        follow_in(alloc, tree, TWO_LEAVES).is_ok() && grows_to_sixteen(alloc, tree)
    }
}

#[test]
fn a_tree_has_at_most_sixteen_levels(rt: HostRuntime) {
    assert!(rt; passes_on_new_tree(rt.alloc(), SMALLEST, &Growing));
}

const FIVE_ENTRIES: &[Row] = &[
    (
        Turn::Step(StepKind::MergeLeaves, 0, StepReply::NoRoom),
        [1, 2, 0, 5],
    ),
    (
        Turn::Append(&[Plain::Del(7), Plain::Put(2, 1)]),
        [1, 2, 2, 5],
    ),
    (
        Turn::Step(StepKind::FlushLeaf, 1, StepReply::Did(1)),
        [1, 2, 1, 4],
    ),
    (
        Turn::Step(StepKind::MergeLeaves, 1, StepReply::NotThere),
        [1, 2, 1, 4],
    ),
    (
        Turn::Step(StepKind::MergeLeaves, 0, StepReply::Did(0)),
        [1, 1, 1, 4],
    ),
];

#[test]
fn five_entries_are_too_many_for_one_leaf_of_four(rt: HostRuntime) -> Result<(), usize> {
    follow_two_leaves(rt.alloc(), FIVE_ENTRIES)
}

const COVERED: &[Row] = &[
    (Turn::Append(&[Plain::DelRange(6, None)]), [1, 2, 1, 5]),
    (
        Turn::Step(StepKind::DropCovered, 1, StepReply::NotThere),
        [1, 2, 1, 5],
    ),
    (
        Turn::Step(StepKind::FlushLeaf, 1, StepReply::Did(1)),
        [1, 2, 0, 3],
    ),
    (
        Turn::Append(&[Plain::DelRange(5, None), Plain::Put(9, 1)]),
        [1, 2, 2, 3],
    ),
    (
        Turn::Step(StepKind::DropCovered, 0, StepReply::NotThere),
        [1, 2, 2, 3],
    ),
    (
        Turn::Step(StepKind::DropCovered, 1, StepReply::Did(1)),
        [1, 2, 1, 2],
    ),
];

#[test]
fn a_covered_leaf_is_dropped(rt: HostRuntime) -> Result<(), usize> {
    follow_two_leaves(rt.alloc(), COVERED)
}

/// The slot of the root that is flushed into its leaf next, if there is one.
fn heaviest_slot(tree: &Tree<Digit>) -> Option<u8> {
    let step = heaviest(tree)?;
    if step.kind == StepKind::FlushLeaf {
        Some(step.slot)
    } else {
        None
    }
}

/// Whether appending messages makes this slot the heaviest.
fn make_heaviest(alloc: Global, tree: &mut Tree<Digit>, msgs: &[Plain], slot: u8) -> bool {
    append(alloc, tree, msgs) && heaviest_slot(tree) == Some(slot)
}

/// Does the step of the heaviest slot, if there is one.
pub fn relieve_heaviest(alloc: Global, tree: &mut Tree<Digit>) {
    if let Some(step) = heaviest(tree) {
        do_step(alloc, tree, step);
    }
}

/// Whether each of five keys makes the first slot the heaviest, and is flushed.
fn sinks_from_first(alloc: Global, tree: &mut Tree<Digit>) -> bool {
    for at in [1, 2, 5, 6, 7] {
        if !make_heaviest(alloc, tree, &[Plain::Put(at, 0)], 0) {
            return false;
        }
        relieve_heaviest(alloc, tree);
    }
    true
}

/// No slot of a new tree is the heaviest; of two slots of equal weight the first is.
struct Naming;

impl TreeTest for Naming {
    fn passes(&self, alloc: Global, tree: &mut Tree<Digit>) -> bool {
        heaviest(tree).is_none()
            && sinks_from_first(alloc, tree)
            && make_heaviest(alloc, tree, &[Plain::Put(7, 1), Plain::Put(1, 1)], 0)
            && make_heaviest(alloc, tree, &[Plain::Put(6, 1), Plain::Put(5, 1)], 1)
    }
}

#[test]
fn the_first_of_equally_heavy_slots_is_named(rt: HostRuntime) {
    assert!(rt; passes_on_new_tree(rt.alloc(), SMALLEST, &Naming));
}

/// The node at which fifteen slot indexes lead, if so many are allowed.
fn deepest() -> Option<Place> {
    let mut place = Some(Place::root());
    for slot in 0..15 {
        place = match place {
            None => None,
            Some(above) => above.under(slot),
        };
    }
    place
}

/// Whether a node's position has fifteen slot indexes, and it has no child.
fn is_deepest(place: Option<Place>) -> bool {
    match place {
        Some(place) => place.numbers().len() == 15 && place.under(15).is_none(),
        None => false,
    }
}

#[test]
fn places_have_at_most_fifteen_numbers(rt: HostRuntime) {
    assert!(rt; is_deepest(deepest()));
}
