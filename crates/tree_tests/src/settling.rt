//! Tests that compaction steps flush everything that is pending, in trees of several shapes.
use crate::some_steps::{Done, try_step};
use crate::trees::new_tree;
use message::Msg;
use node::{Shape, StepReply, Tree};
use pathkey::{Key, KeyRange, NoMemory};
use std::alloc::Global;
use steps::compact_step;
use test_support::{Digit, Holds, Random, all_hold};

/// Any key of two bytes.
fn some_key(alloc: Global, random: &mut Random) -> Result<Key, NoMemory> {
    Key::from_bytes(alloc, &[random.byte(), random.byte()])
}

/// A range-delete from a key on up to another; it is empty if that is the smaller one.
fn delete_from(alloc: Global, random: &mut Random, lo: Key) -> Option<Msg<Digit>> {
    match some_key(alloc, random) {
        Ok(hi) => Some(Msg::DelRange(KeyRange { lo, hi: Some(hi) })),
        Err(_) => None,
    }
}

/// A message of one of the other kinds at a key.
fn message_at(random: &mut Random, key: Key) -> Msg<Digit> {
    match random.below(8) {
        0 => Msg::Del(key),
        1 | 2 => Msg::Edit(key, Digit(random.below(10) as u64)),
        _ => Msg::Put(key, random.below(1000) as u64),
    }
}

/// A message of one of the four kinds; `ranges` percent of them are range-deletes.
fn some_message(alloc: Global, random: &mut Random, ranges: u32) -> Option<Msg<Digit>> {
    let is_range = random.below(100) < ranges;
    match some_key(alloc, random) {
        Ok(key) if is_range => delete_from(alloc, random, key),
        Ok(key) => Some(message_at(random, key)),
        Err(_) => None,
    }
}

/// A batch of one message.
fn batch_of(alloc: Global, msg: Msg<Digit>) -> Option<Vec<Msg<Digit>>> {
    Vec::from_array(alloc, [msg]).ok()
}

/// A batch of one random message.
fn some_batch(alloc: Global, random: &mut Random, ranges: u32) -> Option<Vec<Msg<Digit>>> {
    match some_message(alloc, random, ranges) {
        Some(msg) => batch_of(alloc, msg),
        None => None,
    }
}

/// Appends a random message.
fn append_some(alloc: Global, random: &mut Random, tree: &mut Tree<Digit>, ranges: u32) -> bool {
    match some_batch(alloc, random, ranges) {
        Some(batch) => tree.append(alloc, batch).is_ok(),
        None => false,
    }
}

/// Whether compaction steps are done until nothing is pending.
fn settle(alloc: Global, tree: &mut Tree<Digit>) -> bool {
    for _ in 0..1_000_000 {
        match compact_step(alloc, tree) {
            None => return tree.shape_report().pending == 0,
            Some(turn) if matches!(turn.reply, StepReply::Did(_)) => {}
            Some(_) => return false,
        }
    }
    false
}

/// The maximal numbers of slots, pending pieces and entries, and the percentage of range-deletes among the messages.
struct Workload([u16; 3], u32);

/// The number of messages that are appended to a tree.
const COUNT: u32 = 3_000;

/// Whether messages are appended to a tree, with steps of all kinds between them, and everything pending is flushed from time
/// to time and at the end.
fn fill_and_settle(alloc: Global, tree: &mut Tree<Digit>, ranges: u32) -> bool {
    let mut random = Random(ranges);
    let mut done = Done::new();
    for _ in 0..COUNT {
        if !append_some(alloc, &mut random, tree, ranges)
            || random.below(4) == 0 && !try_step(alloc, &mut random, tree, &mut done)
            || random.below(1000) == 0 && !settle(alloc, tree)
        {
            return false;
        }
    }
    settle(alloc, tree)
}

/// An empty tree with these limits of slots, pending pieces and entries.
fn tree_of(alloc: Global, limits: [u16; 3]) -> Result<Tree<Digit>, NoMemory> {
    let [fanout, pending, leaf] = limits;
    let shape = Shape {
        fanout,
        pending,
        leaf,
    };
    new_tree(alloc, shape)
}

impl Holds for Workload {
    fn holds(&self, alloc: Global) -> bool {
        match tree_of(alloc, self.0) {
            Ok(mut tree) => fill_and_settle(alloc, &mut tree, self.1),
            Err(_) => false,
        }
    }
}

const WITHOUT_RANGES: &[Workload] = &[
    Workload([4, 4, 4], 0),
    Workload([64, 64, 4], 0),
    Workload([4, 4, 1024], 0),
    Workload([16, 256, 256], 0),
];

#[test]
fn relief_ends_with_nothing_pending(rt: HostRuntime) -> Result<(), usize> {
    all_hold(rt.alloc(), WITHOUT_RANGES)
}

const WITH_RANGES: &[Workload] = &[
    Workload([4, 4, 1024], 1),
    Workload([4, 4, 1024], 20),
    Workload([4, 4, 1024], 60),
    Workload([16, 256, 256], 1),
    Workload([16, 256, 256], 20),
    Workload([16, 256, 256], 60),
];

#[test]
fn relief_ends_among_range_deletes(rt: HostRuntime) -> Result<(), usize> {
    all_hold(rt.alloc(), WITH_RANGES)
}

/// An update of the first key, and a number for another.
fn touch_and_put(alloc: Global, at: u16) -> Result<Vec<Msg<Digit>>, NoMemory> {
    let first = Key::from_bytes(alloc, &[0, 0])?;
    let other = Key::from_bytes(alloc, &at.to_be_bytes())?;
    match Vec::from_array(alloc, [Msg::Edit(first, Digit(1)), Msg::Put(other, 1)]) {
        Ok(batch) => Ok(batch),
        Err(_) => Err(NoMemory),
    }
}

/// Appends both.
fn append_with_touch(alloc: Global, tree: &mut Tree<Digit>, at: u16) -> bool {
    match touch_and_put(alloc, at) {
        Ok(batch) => tree.append(alloc, batch).is_ok(),
        Err(_) => false,
    }
}

/// A shape, and the maximal number of pieces that may be pending after each turn.
struct Touched([u16; 3], u128);

/// Each key is appended with an update of the first one, in descending order, each followed by one compaction step: few
/// messages remain pending, and all of them are flushed in the end.
impl Touched {
    fn stays_light(&self, alloc: Global, tree: &mut Tree<Digit>) -> bool {
        for at in (1..2_000).rev() {
            if !append_with_touch(alloc, tree, at)
                || compact_step(alloc, tree).is_none()
                || tree.shape_report().pending > self.1
            {
                return false;
            }
        }
        settle(alloc, tree)
    }
}

impl Holds for Touched {
    fn holds(&self, alloc: Global) -> bool {
        match tree_of(alloc, self.0) {
            Ok(mut tree) => self.stays_light(alloc, &mut tree),
            Err(_) => false,
        }
    }
}

const TOUCHED: &[Touched] = &[Touched([64, 1024, 16], 64), Touched([16, 256, 16], 64)];

#[test]
fn updates_of_the_first_key_hold_no_others_up(rt: HostRuntime) -> Result<(), usize> {
    all_hold(rt.alloc(), TOUCHED)
}
