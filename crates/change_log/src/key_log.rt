//! The log of the keys and ranges that the messages of one index touch.
//!
//! Invariant (`AreEnds`): each key ends where the next begins, and the last where the bytes end.
ghost use Rattle.std.specs.Prelude.{◌≡◌, ◌≤◌, ◌<◌, ◌++◌, ◌∷◌, [], drop, length, IfOk, OnOk};
ghost use Rattle.std.proofs.Common.{get_or};
ghost use Rattle.std.specs.List.Sorted.{IsSorted};
ghost use Rattle.pathkey.specs.Keys.{Key as Bytes};
ghost use Rattle.pathkey.specs.Order.{by_bytes};
ghost use Rattle.change_log.specs.KeyLogs.{AreEnds, end_of, keys_of, since, touched_of};
ghost use Rattle.change_log.specs.Touched.{is_touched, untouched, with_key, with_msg, with_msgs, with_range};

use crate::touched_keys::TouchedKeys;
use message::{Msg, Update};
use pathkey::{Key, KeyRange, NoMemory};
use std::alloc::Global;
use std::marker::Model;

/// The maximal number of bytes of the keys.
const MOST_BYTES: usize = 4_194_304;

/// The maximal number of ranges.
const MOST_RANGES: usize = 65_536;

/// A position in a log: how many keys and ranges it had.
#[derive(Clone, Copy)]
pub struct LogPosition {
    /// The number of keys.
    pub keys: usize,
    /// The number of ranges.
    pub ranges: usize,
}

/// Keys and ranges in the order in which they were touched. Contracts see the lists of both.
#[derive(Drop)]
pub struct KeyLog {
    bytes: Vec<u8>,
    ends: Vec<usize>,
    ranges: Vec<KeyRange>,
}

impl Model for KeyLog {
    ghost use Rattle.std.specs.Prelude.{length};
    ghost use Rattle.change_log.specs.Codes.{coded_touched};
    ghost use Rattle.change_log.specs.KeyLogs.{AreEnds, keys_of};
    ghost use Rattle.change_log.specs.Touched.{Touched};

    ghost Value = { Touched };

    ghost coded = { coded_touched };

    ghost view = { λ l. record { keys = keys_of 0 l.bytes.items l.ends.items; ranges = l.ranges.items } };

    ghost invariant = { λ l. AreEnds 0 (length l.bytes.items) l.ends.items };
}

impl KeyLog {
    /// An empty log. It allocates nothing.
    pub fn new(alloc: Global) -> KeyLog
        ensures { result ≡ untouched }
    {
        KeyLog {
            bytes: Vec::new(alloc),
            ends: Vec::new(alloc),
            ranges: Vec::new(alloc),
        }
    }

    /// Removes all keys and ranges. It allocates nothing.
    pub fn clear(&mut self)
        ensures { self.new ≡ untouched }
    {
        self.bytes.clear();
        self.ends.clear();
        self.ranges.clear();
    }

    /// The position at the end.
    pub fn end(&self) -> LogPosition
        ensures { result ≡ end_of self.now }
    {
        LogPosition {
            keys: self.ends.len(),
            ranges: self.ranges.len(),
        }
    }

    /// Appends what the messages touch. It fails if the log is full or an allocation fails; the log may then have some of it.
    pub fn note<U: Update>(&mut self, alloc: Global, msgs: &[Msg<U>]) -> Result<(), NoMemory>
        ensures { OnOk result (self.new ≡ with_msgs msgs.now self.old) }
    {
        for msg in msgs {
            self.note_msg(alloc, msg)?;
        }
        Ok(())
    }

    /// Appends what the message touches.
    fn note_msg<U: Update>(&mut self, alloc: Global, msg: &Msg<U>) -> Result<(), NoMemory>
        ensures { OnOk result (self.new ≡ with_msg msg.now self.old) }
    {
        match msg {
            Msg::DelRange(range) => self.note_range(alloc, range),
            Msg::Put(key, _) | Msg::Del(key) | Msg::Edit(key, _) => self.note_key(key),
        }
    }

    /// Appends a range.
    fn note_range(&mut self, alloc: Global, range: &KeyRange) -> Result<(), NoMemory>
        ensures { OnOk result (self.new ≡ with_range range.now self.old) }
    {
        if self.ranges.len() >= MOST_RANGES {
            return Err(NoMemory);
        }
        let copy = range.copy(alloc)?;
        self.ranges.push(copy)?;
        Ok(())
    }

    /// Appends a key.
    fn note_key(&mut self, key: &Key) -> Result<(), NoMemory>
        ensures { OnOk result (self.new ≡ with_key key.now self.old) }
    {
        if self.bytes.len() >= MOST_BYTES {
            return Err(NoMemory);
        }
        self.ends.reserve(1)?;
        self.bytes.extend_from_slice(key.as_bytes())?;
        self.ends.push_reserved(self.bytes.len());
        Ok(())
    }

    /// What was appended since the log was at the position, with the keys in ascending order.
    pub fn since(&self, alloc: Global, position: LogPosition) -> Result<TouchedKeys, NoMemory>
        ensures touched { IfOk result (λ t. (k : Bytes) → is_touched (touched_of t) k ≡ is_touched (since position self.now) k) }
        ensures sorted { IfOk result (λ t. IsSorted by_bytes t.keys.items) }
    {
        let mut keys = keys_from(
            alloc,
            self.bytes.as_slice(),
            self.ends.as_slice(),
            position.keys,
        )?;
        keys.sort()?;
        let ranges = ranges_from(alloc, self.ranges.as_slice(), position.ranges)?;
        Ok(TouchedKeys { keys, ranges })
    }
}

/// Copies the ranges from this index on.
fn ranges_from(alloc: Global, all: &[KeyRange], first: usize) -> Result<Vec<KeyRange>, NoMemory>
    ensures { IfOk result (λ ranges. ranges.items ≡ drop first all.now) }
{
    let mut ranges = Vec::new(alloc);
    for index in first..all.len() {
        ranges.push(all[index].copy(alloc)?)?;
    }
    Ok(ranges)
}

/// Copies the keys from this index on.
fn keys_from(
    alloc: Global,
    bytes: &[u8],
    ends: &[usize],
    first: usize,
) -> Result<Vec<Key>, NoMemory>
    requires { AreEnds 0 (length bytes.now) ends.now }
    ensures { IfOk result (λ keys. keys.items ≡ drop first (keys_of 0 bytes.now ends.now)) }
{
    let mut keys = Vec::new(alloc);
    for index in first..ends.len() {
        keys.push(key_at(alloc, bytes, ends, index)?)?;
    }
    Ok(keys)
}

/// Copies the key at the index.
fn key_at(alloc: Global, bytes: &[u8], ends: &[usize], index: usize) -> Result<Key, NoMemory>
    requires ends { AreEnds 0 (length bytes.now) ends.now }
    requires there { index < length ends.now }
    ensures { IfOk result (λ key. key ≡ get_or (keys_of 0 bytes.now ends.now) index []) }
{
    let from = begin_of(ends, index);
    let to = ends[index];
    Key::from_bytes(alloc, &bytes[from..to])
}

/// Where the key at the index begins.
fn begin_of(ends: &[usize], index: usize) -> usize
    requires { index < length ends.now }
    ensures { result ≡ get_or (0 ∷ ends.now) index 0 }
{
    if index == 0 { 0 } else { ends[index - 1] }
}
