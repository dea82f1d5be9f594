//! Tests of range sets.
use crate::spans::{Span, cut, has, insert, inserted, joined};
use pathkey::NoMemory;
use range_set::RangeSet;
use std::alloc::Global;
use test_support::{Holds, all_hold};

/// Whether inserting ranges one after the other gives these.
fn leaves(alloc: Global, spans: &[Span], wanted: &[Span]) -> bool {
    match inserted(alloc, spans) {
        Ok(list) => has(alloc, &list, wanted),
        Err(NoMemory) => false,
    }
}

/// Ranges that are inserted one after the other, and the resulting set.
struct Insertions(&'static [Span], &'static [Span]);

impl Holds for Insertions {
    fn holds(&self, alloc: Global) -> bool {
        leaves(alloc, self.0, self.1)
    }
}

const LAID: &[Insertions] = &[
    Insertions(&[(2, Some(4)), (6, Some(8))], &[(2, Some(4)), (6, Some(8))]),
    Insertions(&[(6, Some(8)), (2, Some(4))], &[(2, Some(4)), (6, Some(8))]),
    Insertions(&[(2, Some(4)), (4, Some(6))], &[(2, Some(6))]),
    Insertions(&[(4, Some(6)), (2, Some(4))], &[(2, Some(6))]),
    Insertions(&[(2, Some(4)), (6, Some(8)), (3, Some(7))], &[(2, Some(8))]),
    Insertions(&[(2, Some(4)), (6, Some(8)), (1, Some(9))], &[(1, Some(9))]),
    Insertions(
        &[(2, Some(4)), (6, Some(8)), (7, None)],
        &[(2, Some(4)), (6, None)],
    ),
    Insertions(
        &[(2, Some(4)), (6, Some(8)), (6, Some(7))],
        &[(2, Some(4)), (6, Some(8))],
    ),
    Insertions(
        &[(2, Some(4)), (6, Some(8)), (5, Some(5))],
        &[(2, Some(4)), (6, Some(8))],
    ),
];

#[test]
fn ranges_are_inserted(rt: HostRuntime) -> Result<(), usize> {
    all_hold(rt.alloc(), LAID)
}

/// The set that is split.
const TWO: &[Span] = &[(2, Some(6)), (8, None)];

/// A number at which the set is split, and the resulting parts.
struct Parted(u8, &'static [Span], &'static [Span]);

impl Parted {
    /// Whether these are the parts.
    fn are_apart(&self, alloc: Global, front: &RangeSet, back: &RangeSet) -> bool {
        has(alloc, front, self.1) && has(alloc, back, self.2)
    }

    /// Whether a set has these parts when it is split, and is the same again when they are merged.
    fn parts(&self, alloc: Global, list: RangeSet) -> bool {
        match cut(alloc, list, self.0) {
            Ok((front, back)) => {
                self.are_apart(alloc, &front, &back)
                    && is_whole(alloc, joined(alloc, front, back, self.0))
            }
            Err(NoMemory) => false,
        }
    }
}

impl Holds for Parted {
    fn holds(&self, alloc: Global) -> bool {
        match inserted(alloc, TWO) {
            Ok(list) => self.parts(alloc, list),
            Err(NoMemory) => false,
        }
    }
}

/// Whether the parts were merged to the set that was split.
fn is_whole(alloc: Global, joined: Result<RangeSet, NoMemory>) -> bool {
    match joined {
        Ok(list) => has(alloc, &list, TWO),
        Err(NoMemory) => false,
    }
}

const PARTED: &[Parted] = &[
    Parted(1, &[], TWO),
    Parted(2, &[], TWO),
    Parted(4, &[(2, Some(4))], &[(4, Some(6)), (8, None)]),
    Parted(6, &[(2, Some(6))], &[(8, None)]),
    Parted(9, &[(2, Some(6)), (8, Some(9))], &[(9, None)]),
];

#[test]
fn lists_are_cut_and_joined(rt: HostRuntime) -> Result<(), usize> {
    all_hold(rt.alloc(), PARTED)
}

/// Moves the first range of a set into another, which must be short.
fn take(alloc: Global, list: &mut RangeSet, from: &mut RangeSet) -> Result<(), NoMemory> {
    if list.len() > 1000 || from.len() == 0 {
        return Err(NoMemory);
    }
    list.take_first(alloc, from)
}

/// Whether the first range of another set moves into a set of one range, while a copy of that is unchanged.
fn moves_beside(alloc: Global, list: &mut RangeSet, kept: &RangeSet, from: &mut RangeSet) -> bool {
    take(alloc, list, from).is_ok()
        && has(alloc, list, &[(2, Some(6))])
        && has(alloc, from, &[(8, Some(9))])
        && has(alloc, kept, &[(4, Some(6))])
}

/// Whether the first range of another set moves into a set, while a copy made before is unchanged.
fn moves_into(alloc: Global, list: &mut RangeSet, from: &mut RangeSet) -> bool {
    match list.copy() {
        Ok(kept) => moves_beside(alloc, list, &kept, from),
        Err(NoMemory) => false,
    }
}

/// Whether the first of two ranges that are inserted here moves into a set, while a copy of that is unchanged.
fn first_moves_into(alloc: Global, list: &mut RangeSet) -> bool {
    match inserted(alloc, &[(2, Some(4)), (8, Some(9))]) {
        Ok(mut from) => moves_into(alloc, list, &mut from),
        Err(NoMemory) => false,
    }
}

/// Whether the first of two ranges moves into a new set of one range, while a copy of that is unchanged.
fn first_moves(alloc: Global) -> bool {
    match inserted(alloc, &[(4, Some(6))]) {
        Ok(mut list) => first_moves_into(alloc, &mut list),
        Err(NoMemory) => false,
    }
}

#[test]
fn the_first_range_moves(rt: HostRuntime) {
    assert!(rt; first_moves(rt.alloc()));
}

/// A set of 120 ranges, each of one key, at the even numbers.
fn of_even_numbers(alloc: Global) -> Result<RangeSet, NoMemory> {
    let mut list = RangeSet::new(alloc);
    for number in 0..120u8 {
        insert(alloc, &mut list, &(number * 2, Some(number * 2 + 1)))?;
    }
    Ok(list)
}

/// Whether a range replaces 95 ranges within it, and is joined with another that begins at its end, while a copy is unchanged.
fn give_way(alloc: Global, list: &mut RangeSet, kept: &RangeSet) -> bool {
    list.len() == 120
        && insert(alloc, list, &(10, Some(200))).is_ok()
        && list.len() == 25
        && kept.len() == 120
}

/// Whether 95 ranges of a set are replaced by one, and a copy made before keeps all 120.
fn give_way_beside_a_copy(alloc: Global, list: &mut RangeSet) -> bool {
    match list.copy() {
        Ok(kept) => give_way(alloc, list, &kept),
        Err(NoMemory) => false,
    }
}

/// Whether 95 ranges of a new set of 120 are replaced by one, and a copy keeps all.
fn many(alloc: Global) -> bool {
    match of_even_numbers(alloc) {
        Ok(mut list) => give_way_beside_a_copy(alloc, &mut list),
        Err(NoMemory) => false,
    }
}

#[test]
fn many_ranges_give_way(rt: HostRuntime) {
    assert!(rt; many(rt.alloc()));
}
