//! Messages, keys and ranges in plain numbers: a number is the key of that one byte.
use crate::digit::{Digit, written_behind};
use crate::random::Random;
use message::Msg;
use pathkey::{Key, KeyRange, NoMemory};
use pending::Pending;
use std::alloc::Global;

/// A message in plain numbers.
#[derive(Clone, Copy, Debug, PartialEq, Eq)]
pub enum Plain {
    /// The key gets the value.
    Put(u8, u64),
    /// The key loses its value.
    Del(u8),
    /// The keys from the first up to and without the second lose theirs; without a second, all from the first on.
    DelRange(u8, Option<u8>),
    /// Appends a digit to the value.
    Edit(u8, u64),
}

impl Plain {
    /// One of the four forms.
    pub fn random(random: &mut Random) -> Plain {
        let at = random.byte();
        let number = random.below(1000) as u64;
        match random.below(16) {
            0 | 1 => Plain::Del(at),
            2 => Plain::DelRange(at, at.checked_add(random.below(12) as u8)),
            3 | 4 | 5 | 6 | 7 => Plain::Edit(at, number),
            _ => Plain::Put(at, number),
        }
    }

    /// The message.
    pub fn message(self, alloc: Global) -> Result<Msg<Digit>, NoMemory> {
        match self {
            Plain::Put(at, value) => Ok(Msg::Put(key(alloc, at)?, value)),
            Plain::Del(at) => Ok(Msg::Del(key(alloc, at)?)),
            Plain::DelRange(lo, hi) => Ok(Msg::DelRange(range(alloc, lo, hi)?)),
            Plain::Edit(at, digit) => Ok(Msg::Edit(key(alloc, at)?, Digit(digit))),
        }
    }

    /// The plain form of a message whose keys have one byte.
    pub fn of(msg: &Msg<Digit>) -> Plain {
        match msg {
            Msg::Put(at, value) => Plain::Put(number(at), *value),
            Msg::Del(at) => Plain::Del(number(at)),
            Msg::DelRange(range) => Plain::DelRange(
                number(&range.lo),
                range.hi.as_ref().map(number),
            ),
            Msg::Edit(at, digit) => Plain::Edit(number(at), digit.0),
        }
    }

    /// What the message makes of the value at a key.
    pub fn value_after(self, at: u8, old: Option<u64>) -> Option<u64> {
        match self {
            Plain::Put(k, value) if k == at => Some(value),
            Plain::Del(k) if k == at => None,
            Plain::DelRange(lo, hi) if lo <= at && is_before(at, hi) => None,
            Plain::Edit(k, digit) if k == at => written_behind(old, digit),
            _ => old,
        }
    }
}

/// Whether the key is before the end; without an end every key is.
pub fn is_before(at: u8, end: Option<u8>) -> bool {
    match end {
        None => true,
        Some(end) => at < end,
    }
}

/// The key of the one byte.
pub fn key(alloc: Global, number: u8) -> Result<Key, NoMemory> {
    Key::from_bytes(alloc, &[number])
}

/// The first byte of a key, or 0 if it is empty.
pub fn number(key: &Key) -> u8 {
    key.as_bytes().first().copied().unwrap_or(0)
}

/// The keys from the first up to and without the second; without a second, all from the first on.
pub fn range(alloc: Global, lo: u8, hi: Option<u8>) -> Result<KeyRange, NoMemory> {
    let hi = match hi {
        None => None,
        Some(hi) => Some(key(alloc, hi)?),
    };
    Ok(KeyRange {
        lo: key(alloc, lo)?,
        hi,
    })
}

/// The messages in their order.
pub fn batch(alloc: Global, plain: &[Plain]) -> Result<Vec<Msg<Digit>>, NoMemory> {
    let mut msgs = Vec::new(alloc);
    for msg in plain {
        msgs.push(msg.message(alloc)?)?;
    }
    Ok(msgs)
}

/// Whether the messages have these plain forms, in their order.
pub fn are(msgs: &[Msg<Digit>], plain: &[Plain]) -> bool {
    if msgs.len() != plain.len() {
        return false;
    }
    for (msg, wanted) in msgs.iter().zip(plain) {
        if Plain::of(msg) != *wanted {
            return false;
        }
    }
    true
}

/// Whether the list contains exactly these messages, the oldest first; `false` if an allocation fails.
pub fn waits(alloc: Global, list: &Pending<Digit>, plain: &[Plain]) -> bool {
    match list.copy_front(alloc, list.len()) {
        Ok(msgs) => are(msgs.as_slice(), plain),
        Err(NoMemory) => false,
    }
}

/// Whether the pairs are these, with numbers for their keys.
pub fn are_numbered(pairs: &[(Key, u64)], wanted: &[(u8, u64)]) -> bool {
    if pairs.len() != wanted.len() {
        return false;
    }
    for (pair, numbers) in pairs.iter().zip(wanted) {
        if number(&pair.0) != numbers.0 || pair.1 != numbers.1 {
            return false;
        }
    }
    true
}
