//! Tests of copy-on-write maps that share chunks. Copying a number outside 400 to 599 fails, so an operation that
//! succeeds copied none.
use crate::numbers::{Number, Replace, at, drop_some, has, is_put, is_rejoined, key, numbers};
use cow_map::{CowMap, Edited};
use pathkey::{Key, NoMemory};
use std::alloc::Global;

/// A check of a map of the numbers up to a thousand and another that shares its chunks.
#[derive(Clone, Copy)]
enum Check {
    /// Whether a change copies only the chunk that it changes.
    Changes,
    /// Whether a change that needs a failing copy fails, returns its argument, and changes nothing.
    Refuses,
    /// Whether the first entries are removed without a copy.
    Leaves,
    /// Whether the map is split between chunks and merged again without a copy.
    Joins,
}

/// Whether the check passes, and the other map is unchanged.
fn answers(alloc: Global, list: &mut CowMap<Number>, other: &CowMap<Number>, check: Check) -> bool {
    let is_so = match check {
        Check::Changes => changes(alloc, list),
        Check::Refuses => refuses(alloc, list),
        Check::Leaves => leaves(list),
        Check::Joins => joins(alloc, list),
    };
    is_so && has(other, 0, 1000)
}

/// Whether the check passes, and a map that shares the chunks of this one is unchanged.
fn answers_shared(alloc: Global, list: &mut CowMap<Number>, check: Check) -> bool {
    match list.share() {
        Ok(other) => answers(alloc, list, &other, check),
        Err(NoMemory) => false,
    }
}

/// Whether the check of a new map of a thousand numbers passes, and one that shares its chunks is unchanged.
fn answers_so(alloc: Global, check: Check) -> bool {
    match numbers(alloc, 1000) {
        Ok(mut list) => answers_shared(alloc, &mut list, check),
        Err(NoMemory) => false,
    }
}

/// Whether a number is replaced, and another is put after all.
fn changes(alloc: Global, list: &mut CowMap<Number>) -> bool {
    is_put(alloc, list, 400, 5, Some(400))
        && is_put(alloc, list, 1000, 1000, None)
        && at(alloc, list, 400) == Ok(Some(5))
}

#[test]
fn a_change_under_a_share_copies_one_number(rt: HostRuntime) {
    assert!(rt; answers_so(rt.alloc(), Check::Changes));
}

/// Whether a put and an edit that need a failing copy fail, and the map is unchanged.
fn refuses(alloc: Global, list: &mut CowMap<Number>) -> bool {
    refuses_put(alloc, list) && refuses_edit(alloc, list) && has(list, 0, 1000)
}

/// Whether a put fails, and the number is returned.
fn refuses_put(alloc: Global, list: &mut CowMap<Number>) -> bool {
    match key(alloc, 100) {
        Ok(at) => is_returned(&list.put(at, Number(5))),
        Err(NoMemory) => false,
    }
}

/// Whether this is the result of a put that failed.
fn is_returned(answer: &Result<Option<Number>, (Key, Number)>) -> bool {
    matches!(answer, Err((_, Number(5))))
}

/// Whether an edit fails, and is returned.
fn refuses_edit(alloc: Global, list: &mut CowMap<Number>) -> bool {
    match key(alloc, 100) {
        Ok(at) => matches!(list.edit(&at, Replace(5)), Edited::Refused(Replace(5))),
        Err(NoMemory) => false,
    }
}

#[test]
fn what_is_refused_changes_nothing(rt: HostRuntime) {
    assert!(rt; answers_so(rt.alloc(), Check::Refuses));
}

/// Whether the first entries are removed from the map, while one that shares its chunks still has them.
fn leaves(list: &mut CowMap<Number>) -> bool {
    drop_some(list, 150) && is_shared(list, 150)
}

/// Whether the map and one that shares its chunks have the numbers from one on.
fn is_shared(list: &CowMap<Number>, from: u64) -> bool {
    match list.share() {
        Ok(again) => has(list, from, 1000) && has(&again, from, 1000),
        Err(NoMemory) => false,
    }
}

#[test]
fn the_front_leaves_without_a_copy(rt: HostRuntime) {
    assert!(rt; answers_so(rt.alloc(), Check::Leaves));
}

/// Moves the first number of a list to another.
fn first_moved(
    list: &mut CowMap<Number>,
    from: &mut CowMap<Number>,
) -> Result<Option<Number>, NoMemory> {
    if from.is_empty() {
        return Err(NoMemory);
    }
    list.move_first_from(from)
}

/// Moves the first number of a map to another, and returns whether it moved to a key that was absent there.
fn moves_first(list: &mut CowMap<Number>, from: &mut CowMap<Number>) -> bool {
    matches!(first_moved(list, from), Ok(None))
}

/// Whether the first number moves to another map while a third map shares its chunk and keeps it, and whether it also
/// stays where it must.
fn moves_shared(list: &mut CowMap<Number>, later: &mut CowMap<Number>) -> bool {
    match later.share() {
        Ok(other) => moves_first(list, later) && stays(list) && has(&other, 11, 1000),
        Err(NoMemory) => false,
    }
}

/// Whether the first number stays if its move would replace a shared one that cannot be copied.
fn stays(list: &mut CowMap<Number>) -> bool {
    match list.share() {
        Ok(mut more) => !moves_first(list, &mut more) && has(&more, 0, 12),
        Err(NoMemory) => false,
    }
}

/// Whether the first entry of a map moves to another without a copy, also if it is shared, and stays if it cannot move.
fn first_moves(list: &mut CowMap<Number>, later: &mut CowMap<Number>) -> bool {
    drop_some(later, 10)
        && moves_first(list, later)
        && moves_shared(list, later)
        && has(list, 0, 12)
        && has(later, 12, 1000)
}

/// Whether the first of a map's numbers moves to a new map of ten without a copy, and stays if it cannot move.
fn first_moves_to_ten(alloc: Global, later: &mut CowMap<Number>) -> bool {
    match numbers(alloc, 10) {
        Ok(mut list) => first_moves(&mut list, later),
        Err(NoMemory) => false,
    }
}

/// Whether the first of a thousand numbers moves to a map of ten without a copy, and stays if it cannot move.
fn first_of_a_thousand_moves(alloc: Global) -> bool {
    match numbers(alloc, 1000) {
        Ok(mut later) => first_moves_to_ten(alloc, &mut later),
        Err(NoMemory) => false,
    }
}

#[test]
fn a_first_entry_moves_to_another_list(rt: HostRuntime) {
    assert!(rt; first_of_a_thousand_moves(rt.alloc()));
}

/// Whether the map is split between chunks and has all entries again when the parts are merged.
fn joins(alloc: Global, list: &mut CowMap<Number>) -> bool {
    match key(alloc, 500) {
        Ok(at) => is_rejoined(list, &at, 500, 500) && has(list, 0, 1000),
        Err(NoMemory) => false,
    }
}

#[test]
fn a_cut_copies_no_number(rt: HostRuntime) {
    assert!(rt; answers_so(rt.alloc(), Check::Joins));
}
