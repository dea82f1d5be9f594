//! Tests of look-ups through messages that are pending in the root.
use crate::trees::{SMALL, TreeTest, all_pass, append, has, passes_on_new_tree};
use node::Tree;
use std::alloc::Global;
use test_support::{Digit, Plain};

/// Messages, and the value at the key 3 after them.
struct Row(&'static [Plain], Option<u64>);

impl TreeTest for Row {
    fn passes(&self, alloc: Global, tree: &mut Tree<Digit>) -> bool {
        append(alloc, tree, self.0) && has(alloc, tree, 3, self.1)
    }
}

const ROWS: &[Row] = &[
    Row(&[Plain::Put(3, 1), Plain::Edit(3, 2)], Some(12)),
    Row(&[Plain::Edit(3, 2), Plain::Put(3, 1)], Some(1)),
    Row(&[Plain::Edit(3, 2), Plain::Edit(3, 4)], Some(24)),
    Row(&[Plain::Put(3, 1), Plain::Edit(3, 9)], None),
    Row(&[Plain::Put(3, 1), Plain::Del(3)], None),
    Row(&[Plain::Put(3, 1), Plain::DelRange(0, Some(3))], Some(1)),
    Row(&[Plain::Put(3, 1), Plain::DelRange(3, Some(4))], None),
    Row(&[Plain::DelRange(2, None), Plain::Edit(3, 4)], Some(4)),
    Row(&[Plain::Put(2, 7), Plain::Put(4, 8)], None),
];

#[test]
fn finds_what_all_messages_make_of_a_key(rt: HostRuntime) -> Result<(), usize> {
    all_pass(rt.alloc(), SMALL, ROWS)
}

/// Whether a message to one tree leaves the other without a value.
fn is_alone(alloc: Global, tree: &mut Tree<Digit>, shared: &Tree<Digit>) -> bool {
    append(alloc, tree, &[Plain::Put(3, 5)])
        && has(alloc, tree, 3, Some(5))
        && has(alloc, shared, 3, None)
}

/// Whether a tree without a value and a share of it become independent.
fn parts_from_its_share(alloc: Global, tree: &mut Tree<Digit>) -> bool {
    match tree.share() {
        Ok(shared) => is_alone(alloc, tree, &shared),
        Err(_) => false,
    }
}

/// A look-up finds nothing in a new tree, and the tree and its share become independent.
struct Parting;

impl TreeTest for Parting {
    fn passes(&self, alloc: Global, tree: &mut Tree<Digit>) -> bool {
        has(alloc, tree, 3, None) && parts_from_its_share(alloc, tree)
    }
}

#[test]
fn finds_nothing_in_a_new_tree_and_each_value_in_its_own_tree(rt: HostRuntime) {
    assert!(rt; passes_on_new_tree(rt.alloc(), SMALL, &Parting));
}
