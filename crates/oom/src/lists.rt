//! The lists on which the cases run.
use message::Msg;
use pathkey::{Key, KeyRange, NoMemory};
use pending::Pending;
use std::alloc::Global;
use test_support::Digit;

/// A list of messages whose keys are numbers.
pub type List = Pending<Digit>;

/// How often a key repeats the eight bytes of its number: a key of 48 bytes is not stored inline.
const TIMES: usize = 6;

/// The key of a number. Keys rise with their numbers.
pub fn key(alloc: Global, number: u64) -> Result<Key, NoMemory> {
    let mut bytes = Vec::new(alloc);
    for _ in 0..TIMES {
        bytes.extend_from_slice(&number.to_be_bytes())?;
    }
    Key::from_bytes(alloc, bytes.as_slice())
}

/// A message that puts a value at the key of a number.
fn put(alloc: Global, number: u64) -> Result<Msg<Digit>, NoMemory> {
    Ok(Msg::Put(key(alloc, number)?, number))
}

/// A range-delete from the key of a number up to that of another, exclusive.
fn range_delete(alloc: Global, from: u64, to: u64) -> Result<Msg<Digit>, NoMemory> {
    let lo = key(alloc, from)?;
    let hi = key(alloc, to)?;
    Ok(Msg::DelRange(KeyRange { lo, hi: Some(hi) }))
}

/// Adds a message, which condenses with the others if it can.
fn add(list: &mut List, msg: Msg<Digit>) -> Result<(), NoMemory> {
    list.reserve(1)?;
    list.push_reserved(msg);
    Ok(())
}

/// Adds a message, which is not condensed.
fn add_kept(list: &mut List, msg: Msg<Digit>) -> Result<(), NoMemory> {
    list.reserve(1)?;
    list.push_uncondensed(msg);
    Ok(())
}

/// A list with `count` range-deletes that are apart, and a put after each: of each four numbers the first two are deleted, and
/// the last one is put.
pub fn apart(alloc: Global, count: u32) -> Result<List, NoMemory> {
    let mut list = Pending::new(alloc);
    for i in 0..u64::from(count) {
        add(&mut list, range_delete(alloc, 4 * i, 4 * i + 2)?)?;
        add(&mut list, put(alloc, 4 * i + 3)?)?;
    }
    Ok(list)
}

/// The key of the second number that the middle one of these range-deletes holds.
pub fn middle_of_apart(alloc: Global, count: u32) -> Result<Key, NoMemory> {
    key(alloc, 4 * u64::from(count / 2) + 1)
}

/// A list whose messages are not condensed: `count` range-deletes inside one another, and a put after each, half of them before
/// the middle and half from it on.
pub fn nested(alloc: Global, count: u32) -> Result<List, NoMemory> {
    let end = 4 * u64::from(count);
    let mut list = Pending::new(alloc);
    for i in 0..u64::from(count) {
        add_kept(&mut list, range_delete(alloc, i, end - i)?)?;
        add_kept(&mut list, put(alloc, 4 * i)?)?;
    }
    Ok(list)
}

/// The key of the number in the middle, which all of these range-deletes hold.
pub fn middle_of_nested(alloc: Global, count: u32) -> Result<Key, NoMemory> {
    key(alloc, 2 * u64::from(count))
}

/// A list of eight messages that those of [`apart`] overlap: two range-deletes, over each of whose ends one of those reaches, and
/// puts at three numbers that those put and at three that they delete.
pub fn eight(alloc: Global) -> Result<List, NoMemory> {
    let mut list = Pending::new(alloc);
    for first in [0, 200] {
        add(&mut list, range_delete(alloc, first + 1, first + 5)?)?;
    }
    for first in [40, 80, 120] {
        add(&mut list, put(alloc, first + 3)?)?;
        add(&mut list, put(alloc, first)?)?;
    }
    Ok(list)
}

/// A list with `count` updates of one number, which do not join, and a put of the next number.
pub fn updates(alloc: Global, count: u32) -> Result<List, NoMemory> {
    let mut list = Pending::new(alloc);
    for i in 0..u64::from(count) {
        add(&mut list, Msg::Edit(key(alloc, 0)?, Digit(i)))?;
    }
    add(&mut list, put(alloc, 1)?)?;
    Ok(list)
}

/// A list with `count` puts, of ascending numbers.
pub fn puts(alloc: Global, count: u32) -> Result<List, NoMemory> {
    let mut list = Pending::new(alloc);
    for i in 0..u64::from(count) {
        add(&mut list, put(alloc, i)?)?;
    }
    Ok(list)
}
