//! The same work on a tree and on a map of std.
use crate::tree::number::Set;
use lookup::get;
use message::Msg;
use node::count::pending_len;
use node::{Shape, StepReply, Tree};
use pathkey::{Key, NoMemory};
use std::alloc::Global;
use std::collections::BTreeMap;
use steps::compact_step;

/// The shape of the trees.
const SHAPE: Shape = Shape::USUAL;

/// The keys of an operation, in order.
#[derive(Clone, Copy)]
pub struct Numbers {
    /// The first number.
    pub first: u64,
    /// The number of different keys.
    pub keys: u64,
    /// The total number of keys; after the last key the first follows again.
    pub count: u64,
}

impl Numbers {
    /// The key at an index of the order.
    fn key(self, alloc: Global, place: u64) -> Result<Key, NoMemory> {
        let number = self
            .first
            .wrapping_add(place.checked_rem(self.keys).unwrap_or(0));
        // Eight bytes in which neighbours are far apart.
        let scattered = number.wrapping_mul(0x9E37_79B9_7F4A_7C15);
        Key::from_bytes(alloc, &scattered.to_be_bytes())
    }
}

/// Does a compaction step; returns whether one was done.
fn is_relieved(alloc: Global, tree: &mut Tree<Set>) -> bool {
    match compact_step(alloc, tree) {
        Some(turn) => matches!(turn.reply, StepReply::Did(_)),
        None => false,
    }
}

/// Does one compaction step if more than `limit` pieces are pending in the root.
fn relieve_above(alloc: Global, tree: &mut Tree<Set>, limit: usize) -> Result<(), NoMemory> {
    let waiting = match tree.root().slots() {
        Some(slots) => pending_len(slots),
        None => 0,
    };
    if waiting > limit as u128 && !is_relieved(alloc, tree) {
        return Err(NoMemory);
    }
    Ok(())
}

/// The message for a key.
#[derive(Clone, Copy)]
pub enum Appended {
    /// A put of its value.
    Put,
    /// An update that sets its value, and joins those before it.
    Edit,
}

impl Appended {
    /// The message that sets the value of the key.
    fn msg(self, key: Key, value: u64) -> Msg<Set> {
        match self {
            Appended::Put => Msg::Put(key, value),
            Appended::Edit => Msg::Edit(key, Set(value)),
        }
    }
}

/// Sets the values of the keys in order; flushes while more than `limit` pieces are pending in the root.
pub fn append(
    alloc: Global,
    tree: &mut Tree<Set>,
    what: Appended,
    numbers: Numbers,
    limit: usize,
) -> Result<(), NoMemory> {
    for i in 0..numbers.count {
        tree.append_one(alloc, what.msg(numbers.key(alloc, i)?, i))?;
        relieve_above(alloc, tree, limit)?;
    }
    Ok(())
}

/// A tree without messages.
pub fn new_tree(alloc: Global) -> Result<Tree<Set>, NoMemory> {
    Tree::new(alloc, SHAPE)
}

/// Flushes until nothing is pending; returns the number of steps.
pub fn settle(alloc: Global, tree: &mut Tree<Set>) -> u64 {
    for steps in 0..10_000_000 {
        if !is_relieved(alloc, tree) {
            return steps;
        }
    }
    10_000_000
}

/// Looks the keys up in order; returns how many were found.
pub fn look_up(alloc: Global, tree: &Tree<Set>, numbers: Numbers) -> Result<u64, NoMemory> {
    let mut found = 0u64;
    for i in 0..numbers.count {
        if get(alloc, tree, &numbers.key(alloc, i)?)?.is_some() {
            found = found.wrapping_add(1);
        }
    }
    Ok(found)
}

/// Puts the keys into a map in order.
pub fn insert(
    alloc: Global,
    map: &mut BTreeMap<Key, u64>,
    numbers: Numbers,
) -> Result<(), NoMemory> {
    for i in 0..numbers.count {
        if map.insert(numbers.key(alloc, i)?, i).is_err() {
            return Err(NoMemory);
        }
    }
    Ok(())
}

/// Looks the keys up in a map in order; returns how many were found.
pub fn look_up_map(
    alloc: Global,
    map: &BTreeMap<Key, u64>,
    numbers: Numbers,
) -> Result<u64, NoMemory> {
    let mut found = 0u64;
    for i in 0..numbers.count {
        if map.get(&numbers.key(alloc, i)?).is_some() {
            found = found.wrapping_add(1);
        }
    }
    Ok(found)
}
