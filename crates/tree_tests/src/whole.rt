//! Tests of whole trees: steps of every kind are done between messages, and each look-up is compared with a reference
//! array of numbers.
use crate::pair::Pair;
use crate::some_steps::{Done, try_step};
use crate::trees::{SMALLEST, TreeTest, append, has, passes_on_new_tree};
use crate::turns::{relieve_heaviest, take};
use flush::heaviest;
use node::{StepKind, StepReply, Tree};
use std::alloc::Global;
use test_support::{Digit, Plain, Random};

/// Does a step at the root's first slot.
fn take_first(alloc: Global, tree: &mut Tree<Digit>, kind: StepKind) -> StepReply {
    take(alloc, tree, kind, 0)
}

/// Whether steps of these kinds at the root's first slot all have this reply.
fn are_answered(
    alloc: Global,
    tree: &mut Tree<Digit>,
    kinds: &[StepKind],
    wanted: StepReply,
) -> bool {
    for kind in kinds {
        if take_first(alloc, tree, *kind) != wanted {
            return false;
        }
    }
    true
}

const KINDS: &[StepKind] = &[
    StepKind::FlushInner,
    StepKind::FlushLeaf,
    StepKind::SplitInner,
    StepKind::MergeLeaves,
    StepKind::MergeInner,
    StepKind::RootUp,
    StepKind::RootDown,
    StepKind::DropCovered,
];

/// A new tree has no step to do.
struct NoStep;

impl TreeTest for NoStep {
    fn passes(&self, alloc: Global, tree: &mut Tree<Digit>) -> bool {
        are_answered(alloc, tree, KINDS, StepReply::NotThere) && heaviest(tree).is_none()
    }
}

#[test]
fn new_tree_has_no_step_to_do(rt: HostRuntime) {
    assert!(rt; passes_on_new_tree(rt.alloc(), SMALLEST, &NoStep));
}

/// Whether a tree has at each of the five keys the key's number; or no value at any.
fn has_five(alloc: Global, tree: &Tree<Digit>, are_there: bool) -> bool {
    for name in *b"abcde" {
        let wanted = if are_there { Some(name as u64) } else { None };
        if !has(alloc, tree, name, wanted) {
            return false;
        }
    }
    true
}

/// Puts five keys of one byte, or deletes them, with a message each.
fn send_five(alloc: Global, tree: &mut Tree<Digit>, is_put: bool) -> bool {
    for name in *b"abcde" {
        let message = if is_put {
            Plain::Put(name, name as u64)
        } else {
            Plain::Del(name)
        };
        if !append(alloc, tree, &[message]) {
            return false;
        }
    }
    true
}

/// Does as many steps of the heaviest slot as there are messages; returns whether none is left to do.
fn sink(alloc: Global, tree: &mut Tree<Digit>) -> bool {
    for _ in 0..5 {
        relieve_heaviest(alloc, tree);
    }
    heaviest(tree).is_none()
}

/// Flushes five messages; returns whether no step is left to do, and the five keys have their values before each step and after
/// the last.
fn sink_unseen(alloc: Global, tree: &mut Tree<Digit>) -> bool {
    for _ in 0..5 {
        if !has_five(alloc, tree, true) {
            return false;
        }
        relieve_heaviest(alloc, tree);
    }
    heaviest(tree).is_none() && has_five(alloc, tree, true)
}

/// Whether the heaviest slot is the root's first, over a leaf.
fn is_first_heaviest(tree: &Tree<Digit>) -> bool {
    match heaviest(tree) {
        Some(step) => {
            step.kind == StepKind::FlushLeaf && step.at.numbers().is_empty() && step.slot == 0
        }
        None => false,
    }
}

/// Whether five entries are in two slots or more, and nothing is pending.
fn holds_five(tree: &Tree<Digit>) -> bool {
    let report = tree.shape_report();
    report.entries == 5 && report.pending == 0 && report.slots >= 2
}

/// Five keys of a new tree are flushed into two leaves.
struct Sinking;

impl TreeTest for Sinking {
    fn passes(&self, alloc: Global, tree: &mut Tree<Digit>) -> bool {
        send_five(alloc, tree, true)
            && is_first_heaviest(tree)
            && sink_unseen(alloc, tree)
            && holds_five(tree)
    }
}

#[test]
fn five_keys_sink_into_two_leaves(rt: HostRuntime) {
    assert!(rt; passes_on_new_tree(rt.alloc(), SMALLEST, &Sinking));
}

const UP_AND_DOWN: &[StepKind] = &[
    StepKind::RootUp,
    StepKind::SplitInner,
    StepKind::MergeInner,
    StepKind::RootDown,
];

/// Whether each of these steps is done and changes no value.
fn is_raised_and_lowered(alloc: Global, tree: &mut Tree<Digit>) -> bool {
    for kind in UP_AND_DOWN {
        if take_first(alloc, tree, *kind) != StepReply::Did(0) || !has_five(alloc, tree, true) {
            return false;
        }
    }
    true
}

/// The height of a tree whose five keys were flushed is raised and lowered, and no value changes.
struct UpAndDown;

impl TreeTest for UpAndDown {
    fn passes(&self, alloc: Global, tree: &mut Tree<Digit>) -> bool {
        send_five(alloc, tree, true) && sink(alloc, tree) && is_raised_and_lowered(alloc, tree)
    }
}

#[test]
fn root_is_raised_and_lowered_again(rt: HostRuntime) {
    assert!(rt; passes_on_new_tree(rt.alloc(), SMALLEST, &UpAndDown));
}

/// Whether the leaves are merged into one by one merge less than there are slots, and not by more.
fn merge_all(alloc: Global, tree: &mut Tree<Digit>) -> bool {
    for _ in 1..tree.shape_report().slots {
        if take_first(alloc, tree, StepKind::MergeLeaves) != StepReply::Did(0) {
            return false;
        }
    }
    tree.shape_report().slots == 1
        && take_first(alloc, tree, StepKind::MergeLeaves) == StepReply::NotThere
}

/// The leaves of a tree whose five keys were flushed and deleted are merged.
struct Leaving;

impl TreeTest for Leaving {
    fn passes(&self, alloc: Global, tree: &mut Tree<Digit>) -> bool {
        send_five(alloc, tree, true)
            && sink(alloc, tree)
            && send_five(alloc, tree, false)
            && sink(alloc, tree)
            && merge_all(alloc, tree)
            && has_five(alloc, tree, false)
    }
}

#[test]
fn empty_leaves_become_one(rt: HostRuntime) {
    assert!(rt; passes_on_new_tree(rt.alloc(), SMALLEST, &Leaving));
}

/// The number of changes, each followed by a step, after which scans find what the array has, before the first that
/// fails.
fn count_found(alloc: Global, pair: &mut Pair) -> u32 {
    let mut random = Random(3);
    let mut done = Done::new();
    for round in 0..10_000 {
        if !pair.change(alloc, &mut random)
            || !try_step(alloc, &mut random, &mut pair.tree, &mut done)
            || !pair.finds_alike(alloc, &mut random)
        {
            return round;
        }
    }
    10_000
}

/// A test of a tree with its reference array.
#[derive(Clone, Copy)]
enum Way {
    Found,
    Alike,
    Kept,
}

/// The number of rounds of the test that pass, before the first that fails.
fn count(alloc: Global, pair: &mut Pair, way: Way) -> u32 {
    match way {
        Way::Found => count_found(alloc, pair),
        Way::Alike => count_alike(alloc, pair),
        Way::Kept => count_kept(alloc, pair),
    }
}

/// The number of rounds of the test that pass with a new tree and a new array, before the first that fails.
fn count_in_new_tree(alloc: Global, way: Way) -> u32 {
    match Pair::new(alloc) {
        Ok(mut pair) => count(alloc, &mut pair, way),
        Err(_) => 0,
    }
}

#[test]
fn searches_find_the_pairs_of_the_row(rt: HostRuntime) {
    assert_eq!(rt; count_in_new_tree(rt.alloc(), Way::Found), 10_000);
}

/// Whether a tree and an array agree at some key after a change and three steps.
fn agrees_after_steps(
    alloc: Global,
    random: &mut Random,
    pair: &mut Pair,
    done: &mut Done,
) -> bool {
    if !pair.change(alloc, random) {
        return false;
    }
    for _ in 0..3 {
        if !try_step(alloc, random, &mut pair.tree, done) {
            return false;
        }
    }
    pair.agrees_at(alloc, random.byte())
}

/// The number of rounds of changes and steps after which they agree, before the first after which they do not; `None` if they do
/// not agree at each key at the end, or too few steps of some kind were done.
fn count_alike(alloc: Global, pair: &mut Pair) -> u32 {
    let mut random = Random(11);
    let mut done = Done::new();
    for round in 0..20_000 {
        if !agrees_after_steps(alloc, &mut random, pair, &mut done) {
            return round;
        }
    }
    if pair.agrees(alloc) && done.has(10_000, 5) {
        20_000
    } else {
        0
    }
}

#[test]
fn no_step_changes_a_value(rt: HostRuntime) {
    assert_eq!(rt; count_in_new_tree(rt.alloc(), Way::Alike), 20_000);
}

/// Stores a share of a tree with a copy of its array.
fn keep(kept: &mut Vec<Pair>, pair: &Pair) -> bool {
    match pair.share() {
        Ok(pair) => kept.push(pair).is_ok(),
        Err(_) => false,
    }
}

/// Changes a tree, with a step after each change, and stores a share after each hundredth.
fn change_and_keep(alloc: Global, pair: &mut Pair, kept: &mut Vec<Pair>) -> bool {
    let mut random = Random(23);
    let mut done = Done::new();
    for round in 0..10_000u32 {
        if !pair.change(alloc, &mut random)
            || !try_step(alloc, &mut random, &mut pair.tree, &mut done)
            || round % 100 == 0 && !keep(kept, pair)
        {
            return false;
        }
    }
    true
}

/// How many of the shares still agree with their arrays.
fn count_unchanged(alloc: Global, kept: &[Pair]) -> u32 {
    let mut count = 0u32;
    for old in kept {
        if old.agrees(alloc) {
            count = count.saturating_add(1);
        }
    }
    count
}

/// How many of the shares of a tree still agree with their arrays after the tree has changed.
fn count_kept(alloc: Global, pair: &mut Pair) -> u32 {
    let mut kept = Vec::new(alloc);
    if !change_and_keep(alloc, pair, &mut kept) {
        return 0;
    }
    count_unchanged(alloc, kept.as_slice())
}

#[test]
fn shared_trees_never_change(rt: HostRuntime) {
    assert_eq!(rt; count_in_new_tree(rt.alloc(), Way::Kept), 100);
}
