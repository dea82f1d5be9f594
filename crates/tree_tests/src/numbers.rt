//! Numbers at keys of two bytes, as values of a copy-on-write map.
ghost use Rattle.std.specs.Prelude.{◌≡◌};

use cow_map::{CopyValue, CowMap, Edit};
use pathkey::{Key, NoMemory};
use std::alloc::Global;

/// A number that can be copied only if it is from 400 to 599: any other copy fails as if an allocation had failed.
#[derive(Drop)]
pub struct Number(pub u64);

impl CopyValue for Number {
    fn copy(&self, _alloc: Global) -> Result<Number, NoMemory> {
        if self.0 < 400 || 600 <= self.0 {
            return Err(NoMemory);
        }
        Ok(Number(self.0))
    }
}

/// An edit that replaces a number and returns the old one.
#[derive(Drop)]
pub struct Replace(pub u64);

impl Edit<Number> for Replace {
    type Answer = u64;

    ghost does = { λ with old new answer. (answer ≡ old.0) × (new.0 ≡ with.0) };

    fn edit(self, value: &mut Number) -> u64 {
        let old = value.0;
        value.0 = self.0;
        old
    }
}

/// The two bytes of a number.
pub fn bytes_of(number: u16) -> [u8; 2] {
    number.to_be_bytes()
}

/// The key of a number: its two bytes.
pub fn key(alloc: Global, number: u16) -> Result<Key, NoMemory> {
    Key::from_bytes(alloc, &bytes_of(number))
}

/// Puts a number at its own key.
pub fn put(alloc: Global, list: &mut CowMap<Number>, number: u16) -> Result<(), NoMemory> {
    let at = key(alloc, number)?;
    match list.put(at, Number(number as u64)) {
        Ok(_) => Ok(()),
        Err(_) => Err(NoMemory),
    }
}

/// The numbers up to this one, each at its own key, put in order.
pub fn numbers(alloc: Global, count: u16) -> Result<CowMap<Number>, NoMemory> {
    let mut list = CowMap::new(alloc);
    for number in 0..count {
        put(alloc, &mut list, number)?;
    }
    Ok(list)
}

/// The numbers below a thousand, each at its own key, put in steps of 77, which reach each of them.
pub fn scattered(alloc: Global) -> Result<CowMap<Number>, NoMemory> {
    let mut list = CowMap::new(alloc);
    for number in 0..1000u32 {
        put(alloc, &mut list, (number * 77 % 1000) as u16)?;
    }
    Ok(list)
}

/// Whether putting a number at the key of another returns the old one; `None` if the key was absent.
pub fn is_put(
    alloc: Global,
    list: &mut CowMap<Number>,
    at: u16,
    number: u64,
    old: Option<u64>,
) -> bool {
    match key(alloc, at) {
        Ok(at) => number_of(&list.put(at, Number(number))) == Some(old),
        Err(NoMemory) => false,
    }
}

/// The number that a put returned; `None` if an allocation failed.
fn number_of(answer: &Result<Option<Number>, (Key, Number)>) -> Option<Option<u64>> {
    match answer {
        Ok(Some(old)) => Some(Some(old.0)),
        Ok(None) => Some(None),
        Err(_) => None,
    }
}

/// The number at the key of a number.
pub fn at(alloc: Global, list: &CowMap<Number>, number: u16) -> Result<Option<u64>, NoMemory> {
    match key(alloc, number) {
        Ok(at) => Ok(at_key(list, &at)),
        Err(NoMemory) => Err(NoMemory),
    }
}

/// The number at a key.
fn at_key(list: &CowMap<Number>, at: &Key) -> Option<u64> {
    match list.get(at) {
        Some(found) => Some(found.0),
        None => None,
    }
}

/// Whether a list of the numbers up to a thousand, without those from `from` up to `to`, is split at a key into those before `from`
/// and those from `to` on, and is merged again.
pub fn is_rejoined(list: &mut CowMap<Number>, at: &Key, from: u16, to: u16) -> bool {
    list.assert_invariant();
    match list.split_off(at) {
        Ok(mut later) => {
            has(list, 0, from as u64)
                && has(&later, to as u64, 1000)
                && list.append(&mut later).is_ok()
                && later.is_empty()
        }
        Err(NoMemory) => false,
    }
}

/// Whether iterating over the list yields the numbers from one up to another, each once and in order, and no other.
pub fn has(list: &CowMap<Number>, from: u64, to: u64) -> bool {
    let mut walk = list.cursor();
    let mut next = from;
    for _ in from..to {
        match walk.next() {
            Some((_, found)) if found.0 == next => next = next.saturating_add(1),
            _ => return false,
        }
    }
    walk.peek().is_none()
}

/// Removes that many numbers from the front, one by one, and returns whether there were as many.
pub fn drop_some(list: &mut CowMap<Number>, count: u16) -> bool {
    for _ in 0..count {
        if list.is_empty() {
            return false;
        }
        list.drop_front(1);
    }
    true
}
