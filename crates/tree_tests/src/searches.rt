//! Tests of scans through many messages, against the same messages applied to a reference array of numbers.
use crate::trees::{SMALL, TreeTest, append, new_tree, passes_on_new_tree};
use node::Tree;
use pathkey::KeyRange;
use scan::{first_in, scan};
use std::alloc::Global;
use test_support::{Digit, Plain, Random, Row, are_numbered, number, range};

/// Whether a scan of a range returns these pairs, if it is limited to that many.
fn holds(
    alloc: Global,
    tree: &Tree<Digit>,
    range: &KeyRange,
    limit: usize,
    wanted: &[(u8, u64)],
) -> bool {
    match scan(alloc, tree, range, limit) {
        Ok(pairs) => are_numbered(&pairs, wanted),
        Err(_) => false,
    }
}

/// Whether a range of a tree has this first pair.
fn begins_with(
    alloc: Global,
    tree: &Tree<Digit>,
    range: &KeyRange,
    wanted: Option<&(u8, u64)>,
) -> bool {
    match (first_in(alloc, tree, range), wanted) {
        (Ok(Some(pair)), Some(numbers)) => number(&pair.0) == numbers.0 && pair.1 == numbers.1,
        (Ok(None), None) => true,
        _ => false,
    }
}

/// The limits of the scans.
const LIMITS: &[usize] = &[0, 1, 2, 7, 50, 256, usize::MAX];

/// A part of the keys: the first one, and the end.
pub type Part = (u8, Option<u8>);

/// Whether a scan and a search in a part of the tree find what the array has there.
fn agrees(
    alloc: Global,
    tree: &Tree<Digit>,
    row: &Row,
    part: Part,
    range: &KeyRange,
    limit: usize,
) -> bool {
    match row.pairs(alloc, part.0, part.1, limit) {
        Ok(wanted) => holds(alloc, tree, range, limit, &wanted)
            && (limit == 0 || begins_with(alloc, tree, range, wanted.first())),
        Err(_) => false,
    }
}

/// Whether a scan and a search in a part of the tree find what the array has in that part.
pub fn agrees_where(
    alloc: Global,
    tree: &Tree<Digit>,
    row: &Row,
    part: Part,
    limit: usize,
) -> bool {
    match range(alloc, part.0, part.1) {
        Ok(range) => agrees(alloc, tree, row, part, &range, limit),
        Err(_) => false,
    }
}

/// Whether the tree agrees with the array in a part of the keys, for each limit.
fn agrees_on(alloc: Global, tree: &Tree<Digit>, row: &Row, part: Part) -> bool {
    for limit in LIMITS {
        if !agrees_where(alloc, tree, row, part, *limit) {
            return false;
        }
    }
    true
}

/// Applies 300 messages to both; `false` if an allocation fails.
fn fill(alloc: Global, tree: &mut Tree<Digit>, row: &mut Row) -> bool {
    let mut random = Random(7);
    for _ in 0..300 {
        let message = Plain::random(&mut random);
        row.lay(message);
        if !append(alloc, tree, &[message]) {
            return false;
        }
    }
    true
}

const PARTS: &[Part] = &[
    (0, None),
    (0, Some(128)),
    (11, Some(12)),
    (20, Some(20)),
    (130, Some(10)),
    (13, Some(241)),
    (255, None),
];

/// Whether the tree agrees with the array in each part of the keys after the messages; otherwise the index of the first in which
/// it does not.
fn agrees_filled(alloc: Global, tree: &mut Tree<Digit>, row: &mut Row) -> Result<(), usize> {
    if !fill(alloc, tree, row) {
        return Err(usize::MAX);
    }
    let mut number = 0usize;
    for part in PARTS {
        if !agrees_on(alloc, tree, row, *part) {
            return Err(number);
        }
        number = number.saturating_add(1);
    }
    Ok(())
}

/// Whether a new tree agrees with a new array in each part of the keys after the messages; otherwise the index of the first in which
/// it does not.
fn agrees_in_new_tree(alloc: Global) -> Result<(), usize> {
    match new_tree(alloc, SMALL) {
        Ok(mut tree) => agrees_filled(alloc, &mut tree, &mut Row::new()),
        Err(_) => Err(usize::MAX),
    }
}

#[test]
fn finds_the_pairs_that_all_messages_make(rt: HostRuntime) -> Result<(), usize> {
    agrees_in_new_tree(rt.alloc())
}

/// Whether a range of a tree is empty.
fn is_empty(alloc: Global, tree: &Tree<Digit>, range: &KeyRange) -> bool {
    begins_with(alloc, tree, range, None) && holds(alloc, tree, range, 9, &[])
}

/// Nothing is found in a new tree.
struct Nothing;

impl TreeTest for Nothing {
    fn passes(&self, alloc: Global, tree: &mut Tree<Digit>) -> bool {
        match range(alloc, 0, None) {
            Ok(all) => is_empty(alloc, tree, &all),
            Err(_) => false,
        }
    }
}

#[test]
fn finds_nothing_in_a_new_tree(rt: HostRuntime) {
    assert!(rt; passes_on_new_tree(rt.alloc(), SMALL, &Nothing));
}

/// Puts 50 values, deletes those from 5 to 39 and edits 20; `false` if an allocation fails.
fn cover(alloc: Global, tree: &mut Tree<Digit>) -> bool {
    for at in 0..50 {
        if !append(alloc, tree, &[Plain::Put(at, 3)]) {
            return false;
        }
    }
    append(
        alloc,
        tree,
        &[Plain::DelRange(5, Some(40)), Plain::Edit(20, 4)],
    )
}

/// Whether the first four pairs from the key 3 on are these.
fn has_four(alloc: Global, tree: &Tree<Digit>, wanted: &[(u8, u64)]) -> bool {
    match range(alloc, 3, None) {
        Ok(range) => holds(alloc, tree, &range, 4, wanted),
        Err(_) => false,
    }
}

/// A search skips what a range-delete covers.
struct Past;

impl TreeTest for Past {
    fn passes(&self, alloc: Global, tree: &mut Tree<Digit>) -> bool {
        cover(alloc, tree) && has_four(alloc, tree, &[(3, 3), (4, 3), (20, 4), (40, 3)])
    }
}

#[test]
fn skips_what_a_range_delete_covers(rt: HostRuntime) {
    assert!(rt; passes_on_new_tree(rt.alloc(), SMALL, &Past));
}
