//! Tests of each operation on a copy-on-write map whose chunks are not shared.
use crate::numbers::{
    Number, Replace, at, drop_some, has, is_put, is_rejoined, key, numbers, put, scattered,
};
use cow_map::{CowMap, Edited};
use pathkey::{Key, KeyRange, NoMemory};
use std::alloc::Global;

/// Whether iterating over a thousand numbers of a map is in order.
fn are_in_order(list: Result<CowMap<Number>, NoMemory>) -> bool {
    match list {
        Ok(list) => has(&list, 0, 1000) && !list.is_empty(),
        Err(NoMemory) => false,
    }
}

#[test]
fn entries_rise(rt: HostRuntime) {
    let alloc = rt.alloc();
    assert!(rt; are_in_order(numbers(alloc, 1000)));
    assert!(rt; are_in_order(scattered(alloc)));
}

/// Whether a put, an edit and an edit of an absent key return what they should, and change no other number.
fn answer_in_turn(alloc: Global, list: &mut CowMap<Number>) -> bool {
    is_put(alloc, list, 7, 70, Some(7))
        && edited(alloc, list, 7, 71) == Some(70)
        && is_absent(alloc, list, 300)
        && at(alloc, list, 8) == Ok(Some(8))
        && at(alloc, list, 7) == Ok(Some(71))
}

/// The old number at a key that an edit replaces; `None` if there is none or an allocation fails.
fn edited(alloc: Global, list: &mut CowMap<Number>, at: u16, number: u64) -> Option<u64> {
    match key(alloc, at) {
        Ok(at) => match list.edit(&at, Replace(number)) {
            Edited::Done(old) => Some(old),
            _ => None,
        },
        Err(NoMemory) => None,
    }
}

/// Whether an edit of an absent key is returned.
fn is_absent(alloc: Global, list: &mut CowMap<Number>, at: u16) -> bool {
    match key(alloc, at) {
        Ok(at) => matches!(list.edit(&at, Replace(0)), Edited::Absent(Replace(0))),
        Err(NoMemory) => false,
    }
}

/// Whether puts and edits return what they should in a new map of 300 numbers.
fn answers(alloc: Global) -> bool {
    match numbers(alloc, 300) {
        Ok(mut list) => answer_in_turn(alloc, &mut list),
        Err(NoMemory) => false,
    }
}

#[test]
fn puts_and_edits_answer(rt: HostRuntime) {
    assert!(rt; answers(rt.alloc()));
}

/// Whether the numbers of a range are removed from the map, and the others remain.
fn leave(alloc: Global, list: &mut CowMap<Number>, range: &KeyRange, from: u16, to: u16) -> bool {
    takes_out(list, range, from, to)
        && at(alloc, list, 999) == Ok(Some(999))
        && at(alloc, list, from) == Ok(None)
}

/// Whether exactly the numbers of a range are extracted, with the map split and merged after them.
fn takes_out(list: &mut CowMap<Number>, range: &KeyRange, from: u16, to: u16) -> bool {
    match list.extract_range(range) {
        Ok(out) => is_rejoined(list, &range.lo, from, to) && has(&out, from as u64, to as u64),
        Err(NoMemory) => false,
    }
}

/// The keys of the numbers from one up to another.
fn range(alloc: Global, from: u16, to: u16) -> Result<KeyRange, NoMemory> {
    let lo = key(alloc, from)?;
    let hi = key(alloc, to)?;
    Ok(KeyRange { lo, hi: Some(hi) })
}

/// Whether the numbers from one up to another are removed from the map, and the others remain.
fn range_leaves(alloc: Global, list: &mut CowMap<Number>, from: u16, to: u16) -> bool {
    match range(alloc, from, to) {
        Ok(range) => leave(alloc, list, &range, from, to),
        Err(NoMemory) => false,
    }
}

/// Whether the numbers from one up to another are removed from a new map of a thousand, and the others remain.
fn ranges_leave_from(alloc: Global, from: u16, to: u16) -> bool {
    match scattered(alloc) {
        Ok(mut list) => range_leaves(alloc, &mut list, from, to),
        Err(NoMemory) => false,
    }
}

#[test]
fn ranges_leave(rt: HostRuntime) {
    let alloc = rt.alloc();
    assert!(rt; ranges_leave_from(alloc, 500, 501));
    assert!(rt; ranges_leave_from(alloc, 3, 900));
}

/// The neighbours of a number: the first at or after it, the first after it, the last before it, the last at or before it, and the
/// last of all.
fn next_to(list: &CowMap<Number>, at: &Key) -> [Option<u64>; 5] {
    [
        number(list.lower_bound(at).peek()),
        number(list.upper_bound(at).peek()),
        number(list.last_before(at)),
        number(list.last_at_or_before(at)),
        number(list.last()),
    ]
}

/// The number of an entry.
fn number(found: Option<(&Key, &Number)>) -> Option<u64> {
    match found {
        Some((_, found)) => Some(found.0),
        None => None,
    }
}

/// Whether these are the neighbours of a number.
fn has_next_to(alloc: Global, list: &CowMap<Number>, at: u16, wanted: &[Option<u64>; 5]) -> bool {
    match key(alloc, at) {
        Ok(at) => next_to(list, &at) == *wanted,
        Err(NoMemory) => false,
    }
}

const THERE: &[Option<u64>; 5] = &[Some(112), Some(113), Some(111), Some(112), Some(600)];

const ABSENT: &[Option<u64>; 5] = &[Some(600), Some(600), Some(499), Some(499), Some(600)];

/// The numbers up to 500, and 600.
fn with_a_gap(alloc: Global) -> Result<CowMap<Number>, NoMemory> {
    let mut list = numbers(alloc, 500)?;
    put(alloc, &mut list, 600)?;
    Ok(list)
}

/// Whether the neighbours of a number in the map are found, and those of one that is absent.
fn neighbours(alloc: Global) -> bool {
    match with_a_gap(alloc) {
        Ok(list) => {
            has_next_to(alloc, &list, 112, THERE) && has_next_to(alloc, &list, 550, ABSENT)
        }
        Err(NoMemory) => false,
    }
}

#[test]
fn neighbours_are_found(rt: HostRuntime) {
    assert!(rt; neighbours(rt.alloc()));
}

/// Whether numbers are removed from the front of a map, one by one and many at once, and those after them remain.
fn leave_in_front(alloc: Global, list: &mut CowMap<Number>) -> bool {
    drop_some(list, 150) && !list.is_empty() && leave_behind(alloc, list, 600)
}

/// Whether the numbers from one on are removed from the map, and those from 150 up to it remain.
fn leave_behind(alloc: Global, list: &mut CowMap<Number>, from: u16) -> bool {
    match parted_at(alloc, list, from) {
        Ok(back) => has(list, 150, from as u64) && has(&back, from as u64, 1000),
        Err(NoMemory) => false,
    }
}

/// Splits off the map's numbers from one on.
fn parted_at(
    alloc: Global,
    list: &mut CowMap<Number>,
    from: u16,
) -> Result<CowMap<Number>, NoMemory> {
    let from = key(alloc, from)?;
    list.split_off(&from)
}

/// Whether numbers are removed from the front of a new map of a thousand, and those after them remain.
fn front(alloc: Global) -> bool {
    match numbers(alloc, 1000) {
        Ok(mut list) => leave_in_front(alloc, &mut list),
        Err(NoMemory) => false,
    }
}

#[test]
fn numbers_leave_from_the_front(rt: HostRuntime) {
    assert!(rt; front(rt.alloc()));
}
