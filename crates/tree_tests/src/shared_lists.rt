//! Tests of pending lists that share their messages. Copying an update fails here, so an operation that succeeds copied
//! none.
ghost use Rattle.std.specs.Prelude.{Some};

use message::{Msg, Update, UpdateTarget};
use pathkey::{Key, NoMemory};
use pending::Pending;
use std::alloc::Global;
use test_support::{key, range};

/// An update of a number of which each copy fails, as if an allocation had failed.
#[derive(Drop)]
struct Lone(u64);

impl UpdateTarget for Lone {
    type Value = u64;
}

impl Update for Lone {
    ghost means = { λ lone old. Some lone.0 };

    fn apply(&self, _alloc: Global, _old: Option<&u64>) -> Result<Option<u64>, NoMemory> {
        Ok(Some(self.0))
    }

    fn join(&self, _alloc: Global, _later: &Lone) -> Result<Option<Lone>, NoMemory> {
        Ok(None)
    }

    fn copy(&self, _alloc: Global) -> Result<Lone, NoMemory> {
        Err(NoMemory)
    }

    fn copy_value(_alloc: Global, _value: &u64) -> Result<u64, NoMemory> {
        Err(NoMemory)
    }
}

/// The number of keys of a list.
const KEYS: u8 = 200;

/// An update of the key of a number.
fn update(alloc: Global, at: u8, number: u64) -> Result<Msg<Lone>, NoMemory> {
    let at = key(alloc, at)?;
    Ok(Msg::Edit(at, Lone(number)))
}

/// A range-delete from a number on.
fn deletion(alloc: Global, lo: u8, hi: Option<u8>) -> Result<Msg<Lone>, NoMemory> {
    let range = range(alloc, lo, hi)?;
    Ok(Msg::DelRange(range))
}

/// Appends a message to a list.
fn push(list: &mut Pending<Lone>, msg: Result<Msg<Lone>, NoMemory>) -> Result<(), NoMemory> {
    list.reserve(1)?;
    list.push_reserved(msg?);
    Ok(())
}

/// Appends a message to a list without condensing it.
fn keep(list: &mut Pending<Lone>, msg: Result<Msg<Lone>, NoMemory>) -> Result<(), NoMemory> {
    list.reserve(1)?;
    list.push_uncondensed(msg?);
    Ok(())
}

/// A list with two updates at each key.
fn list_of_lone(alloc: Global) -> Result<Pending<Lone>, NoMemory> {
    let mut list = Pending::new(alloc);
    for i in 0..2 * KEYS as u64 {
        push(&mut list, update(alloc, (i * 77 % KEYS as u64) as u8, i))?;
    }
    Ok(list)
}

/// A list with two updates at each key, and a range-delete after all keys.
fn with_a_range(alloc: Global) -> Result<Pending<Lone>, NoMemory> {
    let mut list = list_of_lone(alloc)?;
    push(&mut list, deletion(alloc, KEYS, None))?;
    Ok(list)
}

/// A list with two updates at each key, and one more that is not condensed.
fn with_a_tail(alloc: Global) -> Result<Pending<Lone>, NoMemory> {
    let mut list = list_of_lone(alloc)?;
    keep(&mut list, update(alloc, 5, 5))?;
    Ok(list)
}

/// A list with two updates at each key; one more, a range-delete over the key 100 and another update are not condensed.
fn with_a_range_in_the_tail(alloc: Global) -> Result<Pending<Lone>, NoMemory> {
    let mut list = with_a_tail(alloc)?;
    keep(&mut list, deletion(alloc, 50, Some(150)))?;
    keep(&mut list, update(alloc, 120, 6))?;
    Ok(list)
}

/// A list with two updates at each key, and a condensed range-delete over the key 100.
fn with_a_range_inside(alloc: Global) -> Result<Pending<Lone>, NoMemory> {
    let mut list = list_of_lone(alloc)?;
    push(&mut list, deletion(alloc, 50, Some(150)))?;
    Ok(list)
}

/// A list with two updates at each key, of which the very first is consumed.
fn half_consumed(alloc: Global) -> Result<Pending<Lone>, NoMemory> {
    let mut list = list_of_lone(alloc)?;
    if list.len() > 0 {
        list.drop_front(1);
    }
    Ok(list)
}

/// Whether copying the list succeeds and gives as many messages, though copies of messages fail.
fn is_shared(alloc: Global, list: Result<Pending<Lone>, NoMemory>) -> bool {
    match list {
        Ok(list) => has_a_copy(alloc, &list) && copied(alloc, &list).is_err(),
        Err(_) => false,
    }
}

/// Copies of all messages of the list.
fn copied(alloc: Global, list: &Pending<Lone>) -> Result<Vec<Msg<Lone>>, NoMemory> {
    list.copy_front(alloc, list.len())
}

/// Whether copying the list succeeds and gives as many messages.
fn has_a_copy(alloc: Global, list: &Pending<Lone>) -> bool {
    match list.copy(alloc) {
        Ok(copy) => copy.len() == list.len(),
        Err(_) => false,
    }
}

#[test]
fn copies_of_lists_copy_no_message(rt: HostRuntime) {
    let alloc = rt.alloc();
    assert!(rt; is_shared(alloc, list_of_lone(alloc)));
    assert!(rt; is_shared(alloc, with_a_range(alloc)));
    assert!(rt; is_shared(alloc, with_a_tail(alloc)));
    assert!(rt; is_shared(alloc, with_a_range_in_the_tail(alloc)));
    assert!(rt; is_shared(alloc, half_consumed(alloc)));
}

/// Whether the list is split at a key, and all its messages are in the parts.
fn is_cut(alloc: Global, list: Result<Pending<Lone>, NoMemory>, at: u8) -> bool {
    match list {
        Ok(mut list) => has_parts(alloc, &mut list, at),
        Err(_) => false,
    }
}

/// Splits off the list's messages from a key on.
fn parted_at(alloc: Global, list: &mut Pending<Lone>, at: u8) -> Result<Pending<Lone>, NoMemory> {
    let pivot = key(alloc, at)?;
    list.split_off(alloc, 0, &Key::new(alloc), &pivot)
}

/// Whether splitting the list succeeds, and all its messages are in the parts; a range-delete over the key is in both.
fn has_parts(alloc: Global, list: &mut Pending<Lone>, at: u8) -> bool {
    let all = list.len();
    let ranges = ranges_in(list);
    match parted_at(alloc, list, at) {
        Ok(back) => { back.len() > 0 && list.len() > 0 && have_all(list, &back, all, ranges) }
        Err(_) => false,
    }
}

/// The number of range-deletes of a list.
fn ranges_in(list: &Pending<Lone>) -> usize {
    list.range_deletes(0)
}

/// Whether both parts of a list have that many messages together, and at most one more for each of its range-deletes.
fn have_all(front: &Pending<Lone>, back: &Pending<Lone>, all: usize, ranges: usize) -> bool {
    let cut = ranges_in(front)
        .saturating_add(ranges_in(back))
        .saturating_sub(ranges);
    front.len().saturating_add(back.len()) == all.saturating_add(cut)
}

#[test]
fn cuts_copy_no_message_for_one_key(rt: HostRuntime) {
    let alloc = rt.alloc();
    assert!(rt; is_cut(alloc, list_of_lone(alloc), 100));
    assert!(rt; is_cut(alloc, with_a_range(alloc), 100));
    assert!(rt; is_cut(alloc, with_a_tail(alloc), 100));
    assert!(rt; is_cut(alloc, with_a_range_in_the_tail(alloc), 100));
    assert!(rt; is_cut(alloc, with_a_range_inside(alloc), 100));
    assert!(rt; is_cut(alloc, half_consumed(alloc), 100));
}

/// Whether the parts of a list before a key and from it on are merged again, and have as many messages as the parts.
fn rejoins(alloc: Global, list: Result<Pending<Lone>, NoMemory>, at: u8) -> bool {
    match list {
        Ok(list) => rejoined(alloc, list, at),
        Err(NoMemory) => false,
    }
}

/// Whether a list that is split at a key and merged again has as many messages as its parts had.
fn rejoined(alloc: Global, list: Pending<Lone>, at: u8) -> bool {
    let mut front = list;
    match parted_at(alloc, &mut front, at) {
        Ok(back) => is_as_long(front.len(), back.len(), joined_at(alloc, front, back, at)),
        Err(NoMemory) => false,
    }
}

/// Merges both lists, which are on both sides of a key.
fn joined_at(
    alloc: Global,
    front: Pending<Lone>,
    back: Pending<Lone>,
    at: u8,
) -> Result<Pending<Lone>, NoMemory> {
    match key(alloc, at) {
        Ok(at) => front.merged(alloc, back, &at),
        Err(NoMemory) => Err(NoMemory),
    }
}

/// Whether a list has as many messages as two others had.
fn is_as_long(front: usize, back: usize, all: Result<Pending<Lone>, NoMemory>) -> bool {
    match all {
        Ok(all) => all.len() == front.saturating_add(back),
        Err(NoMemory) => false,
    }
}

/// The list, split at a key and merged again.
fn halves_joined(alloc: Global, list: Pending<Lone>, at: u8) -> Result<Pending<Lone>, NoMemory> {
    let mut front = list;
    match parted_at(alloc, &mut front, at) {
        Ok(back) => joined_at(alloc, front, back, at),
        Err(NoMemory) => Err(NoMemory),
    }
}

/// Whether a list whose range-delete was split and merged again has as many messages as before.
fn is_whole_again(alloc: Global) -> bool {
    let Ok(list) = with_a_range_inside(alloc) else {
        return false;
    };
    let all = list.len();
    match halves_joined(alloc, list, 100) {
        Ok(again) => again.len() == all && ranges_in(&again) == 1,
        Err(NoMemory) => false,
    }
}

#[test]
fn a_range_delete_that_was_cut_is_one_again(rt: HostRuntime) {
    assert!(rt; is_whole_again(rt.alloc()));
}

#[test]
fn joins_copy_no_message_for_one_key(rt: HostRuntime) {
    let alloc = rt.alloc();
    assert!(rt; rejoins(alloc, list_of_lone(alloc), 100));
    assert!(rt; rejoins(alloc, with_a_range(alloc), 100));
    assert!(rt; rejoins(alloc, with_a_tail(alloc), 100));
    assert!(rt; rejoins(alloc, with_a_range_in_the_tail(alloc), 100));
    assert!(rt; rejoins(alloc, half_consumed(alloc), 100));
}

/// Whether all messages of a list move to the end of another.
fn moves(alloc: Global, list: Result<Pending<Lone>, NoMemory>) -> bool {
    let Ok(mut list) = list else {
        return false;
    };
    let mut to = Pending::new(alloc);
    let all = list.len();
    list.flush_all(&mut to).is_ok() && list.len() == 0 && to.len() == all
}

#[test]
fn a_list_moves_whole_without_copies(rt: HostRuntime) {
    let alloc = rt.alloc();
    assert!(rt; moves(alloc, with_a_range(alloc)));
    assert!(rt; moves(alloc, with_a_range_in_the_tail(alloc)));
}

/// How many operations a walk over the list has at its first keys, as many as a list of these tests has; `None` if the list has no
/// walk, or one over fewer keys.
fn walked(list: Result<Pending<Lone>, NoMemory>) -> Option<usize> {
    let Ok(list) = list else {
        return None;
    };
    let mut walk = list.walk_oldest()?;
    let mut passed: usize = 0;
    for _ in 0..KEYS {
        let (_, len) = walk.peek()?;
        passed = passed.saturating_add(len);
        walk.pass();
    }
    Some(passed)
}

#[test]
fn a_walk_passes_the_condensed_messages_of_each_key(rt: HostRuntime) {
    let alloc = rt.alloc();
    let all = 2 * KEYS as usize;
    assert!(rt; walked(list_of_lone(alloc)) == Some(all));
    assert!(rt; walked(with_a_tail(alloc)) == Some(all));
    assert!(rt; walked(with_a_range(alloc)).is_none());
    assert!(rt; walked(half_consumed(alloc)).is_none());
}

/// How many operations of the first key of `from` are shared by the other list; `None` if none are.
fn shared_first(
    to: Result<Pending<Lone>, NoMemory>,
    from: Result<Pending<Lone>, NoMemory>,
    most: usize,
) -> Option<usize> {
    let Ok(mut to) = to else {
        return None;
    };
    let Ok(from) = from else {
        return None;
    };
    let walk = from.walk_oldest()?;
    to.share_first_of(&walk, most)
}

#[test]
fn operations_of_a_key_are_shared_together_unless_they_follow_others(rt: HostRuntime) {
    let alloc = rt.alloc();
    assert!(rt; shared_first(Ok(Pending::new(alloc)), list_of_lone(alloc), 2) == Some(2));
    assert!(rt; shared_first(Ok(Pending::new(alloc)), list_of_lone(alloc), 1).is_none());
    assert!(rt; shared_first(list_of_lone(alloc), list_of_lone(alloc), 2).is_none());
    assert!(rt; shared_first(with_a_tail(alloc), list_of_lone(alloc), 2).is_none());
}
