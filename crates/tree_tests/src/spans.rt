//! Ranges in plain numbers: a number is the key of that one byte.
use message::Msg;
use pathkey::{Key, KeyRange, NoMemory};
use range_set::RangeSet;
use std::alloc::Global;
use test_support::{Digit, Plain, key, range};

/// The keys from the first up to but excluding the second; without a second, all from the first on.
pub type Span = (u8, Option<u8>);

/// Inserts a range into a set, which must be short.
pub fn insert(alloc: Global, list: &mut RangeSet, span: &Span) -> Result<(), NoMemory> {
    match range(alloc, span.0, span.1) {
        Ok(range) => insert_range(alloc, list, &range),
        Err(NoMemory) => Err(NoMemory),
    }
}

/// Inserts a range of keys into a set, which must be short.
fn insert_range(alloc: Global, list: &mut RangeSet, range: &KeyRange) -> Result<(), NoMemory> {
    if list.len() > 1000 {
        return Err(NoMemory);
    }
    list.insert(alloc, range)
}

/// A set into which these ranges were inserted, one after the other.
pub fn inserted(alloc: Global, spans: &[Span]) -> Result<RangeSet, NoMemory> {
    let mut list = RangeSet::new(alloc);
    for span in spans {
        insert(alloc, &mut list, span)?;
    }
    Ok(list)
}

/// Whether the set has exactly these ranges.
pub fn has(alloc: Global, list: &RangeSet, spans: &[Span]) -> bool {
    match messages(alloc, list) {
        Ok(msgs) => list.len() == spans.len() && are_spans(msgs.as_slice(), spans),
        Err(NoMemory) => false,
    }
}

/// Up to a thousand of the set's ranges, as messages.
fn messages(alloc: Global, list: &RangeSet) -> Result<Vec<Msg<Digit>>, NoMemory> {
    let mut msgs = Vec::new(alloc);
    list.copy_into(alloc, 1000, &mut msgs)?;
    Ok(msgs)
}

/// Whether the messages are these ranges, in order.
fn are_spans(msgs: &[Msg<Digit>], spans: &[Span]) -> bool {
    if msgs.len() != spans.len() {
        return false;
    }
    for (msg, span) in msgs.iter().zip(spans) {
        if Plain::of(msg) != Plain::DelRange(span.0, span.1) {
            return false;
        }
    }
    true
}

/// The set before a number and from it on.
pub fn cut(alloc: Global, list: RangeSet, pivot: u8) -> Result<(RangeSet, RangeSet), NoMemory> {
    match key(alloc, pivot) {
        Ok(pivot) => cut_at(alloc, list, &pivot),
        Err(NoMemory) => Err(NoMemory),
    }
}

/// Splits a set at a key, into the part before it and the part from it on.
fn cut_at(alloc: Global, list: RangeSet, pivot: &Key) -> Result<(RangeSet, RangeSet), NoMemory> {
    if list.len() > 1000 {
        return Err(NoMemory);
    }
    list.split_at::<Digit>(alloc, pivot)
}

/// Merges both sets, which are on both sides of a number.
pub fn joined(
    alloc: Global,
    front: RangeSet,
    back: RangeSet,
    pivot: u8,
) -> Result<RangeSet, NoMemory> {
    match key(alloc, pivot) {
        Ok(pivot) => joined_at(alloc, front, back, &pivot),
        Err(NoMemory) => Err(NoMemory),
    }
}

/// Merges both sets, which must be short and on both sides of a key.
fn joined_at(
    alloc: Global,
    front: RangeSet,
    back: RangeSet,
    pivot: &Key,
) -> Result<RangeSet, NoMemory> {
    if front.len() <= 1000
        && back.len() <= 1000
        && front.end_by::<Digit>(pivot)
        && back.begin_from::<Digit>(pivot)
    {
        return front.merged::<Digit>(alloc, back, pivot);
    }
    Err(NoMemory)
}
