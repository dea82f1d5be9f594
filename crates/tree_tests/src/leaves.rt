//! Tests of messages that are applied to leaves, at keys of one byte.
ghost use Rattle.std.specs.Prelude.{None, [], IfOk};
ghost use Rattle.node.specs.Lawful.{Rises};

use node::node::leaf::{applied, position, split_half};
use pathkey::{Key, NoMemory};
use std::alloc::Global;
use test_support::{Digit, Holds, Plain, all_hold, are_numbered, batch, key, number};

/// The entries after the messages.
fn after(
    alloc: Global,
    entries: &[(Key, u64)],
    plain: &[Plain],
) -> Result<Vec<(Key, u64)>, NoMemory>
    requires { Rises [] None entries.now }
    ensures { IfOk result (λ v. Rises [] None v.items) }
{
    match batch(alloc, plain) {
        Ok(msgs) => applied::<Digit>(alloc, entries, msgs.as_slice()),
        Err(fault) => Err(fault),
    }
}

/// The entries with keys 2, 4, 6 and 8; the value of each is ten times its key.
fn even(alloc: Global) -> Result<Vec<(Key, u64)>, NoMemory>
    ensures { IfOk result (λ v. Rises [] None v.items) }
{
    let puts = [
        Plain::Put(6, 60),
        Plain::Put(2, 20),
        Plain::Put(8, 80),
        Plain::Put(4, 40),
    ];
    after(alloc, &[], &puts)
}

/// Two messages, and the four entries after them.
struct Row([Plain; 2], &'static [(u8, u64)]);

/// Whether the entries become those of the row.
fn becomes(alloc: Global, entries: &[(Key, u64)], row: &Row) -> bool
    requires { Rises [] None entries.now }
{
    match after(alloc, entries, &row.0) {
        Ok(new) => are_numbered(&new, row.1),
        Err(_) => false,
    }
}

impl Holds for Row {
    fn holds(&self, alloc: Global) -> bool {
        match even(alloc) {
            Ok(entries) => becomes(alloc, &entries, self),
            Err(_) => false,
        }
    }
}

const ROWS: &[Row] = &[
    Row(
        [Plain::Put(4, 1), Plain::Put(5, 2)],
        &[(2, 20), (4, 1), (5, 2), (6, 60), (8, 80)],
    ),
    Row(
        [Plain::Put(1, 1), Plain::Put(9, 2)],
        &[(1, 1), (2, 20), (4, 40), (6, 60), (8, 80), (9, 2)],
    ),
    Row([Plain::Del(2), Plain::Del(3)], &[(4, 40), (6, 60), (8, 80)]),
    Row(
        [Plain::DelRange(4, Some(8)), Plain::DelRange(9, Some(1))],
        &[(2, 20), (8, 80)],
    ),
    Row(
        [Plain::DelRange(5, None), Plain::Edit(4, 3)],
        &[(2, 20), (4, 403)],
    ),
    Row([Plain::DelRange(0, None), Plain::Edit(6, 7)], &[(6, 7)]),
    Row(
        [Plain::Edit(2, 1), Plain::Edit(2, 2)],
        &[(2, 12), (4, 40), (6, 60), (8, 80)],
    ),
    Row(
        [Plain::Edit(8, 9), Plain::Edit(3, 9)],
        &[(2, 20), (4, 40), (6, 60)],
    ),
    Row(
        [Plain::Del(6), Plain::Put(6, 5)],
        &[(2, 20), (4, 40), (6, 5), (8, 80)],
    ),
];

#[test]
fn applies_each_form_of_message(rt: HostRuntime) -> Result<(), usize> {
    all_hold(rt.alloc(), ROWS)
}

/// The index of a key's entry among the entries, or the index where it would be inserted; `None` if an allocation
/// fails.
fn place_of(alloc: Global, entries: &[(Key, u64)], at: u8) -> Option<Result<usize, usize>>
    requires { Rises [] None entries.now }
{
    match key(alloc, at) {
        Ok(at) => Some(position(entries, &at)),
        Err(_) => None,
    }
}

/// A key, and the result of a binary search for it among the four entries.
struct Position(u8, Result<usize, usize>);

impl Holds for Position {
    fn holds(&self, alloc: Global) -> bool {
        match even(alloc) {
            Ok(entries) => place_of(alloc, &entries, self.0) == Some(self.1),
            Err(_) => false,
        }
    }
}

const PLACES: &[Position] = &[
    Position(1, Err(0)),
    Position(2, Ok(0)),
    Position(3, Err(1)),
    Position(6, Ok(2)),
    Position(8, Ok(3)),
    Position(9, Err(4)),
];

#[test]
fn finds_entries_and_the_gaps_between(rt: HostRuntime) -> Result<(), usize> {
    all_hold(rt.alloc(), PLACES)
}

/// Whether five entries are split at the key 4.
fn divides(alloc: Global, front: &mut Vec<(Key, u64)>) -> bool
    requires { Rises [] None front.old.items }
{
    if front.len() < 2 {
        return false;
    }
    match split_half(alloc, front) {
        Ok((pivot, back)) => {
            number(&pivot) == 4
                && pivot.as_bytes().len() == 1
                && are_numbered(front, &[(2, 20), (3, 30)])
                && are_numbered(&back, &[(4, 40), (6, 60), (8, 80)])
        }
        Err(_) => false,
    }
}

/// Whether the entries, and one more with the key 3, are split at the key 4.
fn divides_after(alloc: Global, entries: &[(Key, u64)]) -> bool
    requires { Rises [] None entries.now }
{
    match after(alloc, entries, &[Plain::Put(3, 30)]) {
        Ok(mut front) => divides(alloc, &mut front),
        Err(_) => false,
    }
}

/// Whether the four entries, and one more with the key 3, are split at the key 4.
fn divides_even(alloc: Global) -> bool {
    match even(alloc) {
        Ok(entries) => divides_after(alloc, &entries),
        Err(_) => false,
    }
}

#[test]
fn divides_a_leaf_at_its_middle(rt: HostRuntime) {
    assert!(rt; divides_even(rt.alloc()));
}
