//! Keys: byte strings in lexicographic order.
//!
//! Invariant: the stored head of a key is its first eight bytes as a big-endian number, padded with zeros. So if the heads of two
//! keys differ, they decide the order.
ghost use Rattle.std.specs.Prelude.{◌≡◌, ◌≤◌, [], ◌∷◌, ◌++◌, length, take, IfOk, map, slice_index_or};
ghost use Rattle.std.specs.Cmp.{partial_order_from_agreeing_total};
ghost use Rattle.std.specs.Ordering.{as_partial_cmp, eq_by_cmp};
ghost use Rattle.std.proofs.Common.{refl};
ghost use Rattle.pathkey.specs.Texts.{null_for_slash};
ghost use Rattle.pathkey.specs.Keys.{next_key};
ghost use Rattle.pathkey.specs.Heads.{head_of, ShareHead, IsHeaded};
ghost use Rattle.pathkey.specs.Order.{by_bytes, by_bytes_total, by_bytes_equiv, by_bytes_partial_equiv};

use crate::errno::NoMemory;
use smallvec::SmallVec;
use std::alloc::Global;
use std::cmp::Ordering;
use std::marker::Model;

/// How many bytes of a key are stored inline; a longer key is allocated.
const INLINE: usize = 40;

/// The length of a key's head in bytes.
const HEAD: usize = 8;

/// A byte string, which contracts see as the list of its bytes.
///
/// Keys of usual paths are stored inline, so that a search through keys follows no pointer. The head, the first bytes as a
/// number, is stored too: it decides most comparisons.
pub struct Key {
    head: u64,
    bytes: SmallVec<u8, INLINE>,
}

// Drop is implemented by hand, so that it is proved here once: derived drop glue is proved again in each crate that drops a
// key.
impl Drop for Key {
    fn drop(self) {
        let Key { head: _, bytes: _ } = self;
    }
}

impl Model for Key {
    ghost use Rattle.std.specs.Prelude.{List, ℕ};
    ghost use Rattle.pathkey.specs.Heads.{IsHeaded};

    ghost Value = { List ℕ };

    ghost view = { λ k. k.bytes.items };

    ghost invariant = { λ k. IsHeaded k.head k.bytes.items };
}

impl Key {
    /// The empty key. It allocates nothing.
    pub fn new(alloc: Global) -> Key
        ensures { result ≡ [] }
    {
        Key::holding(SmallVec::new(alloc))
    }

    /// Copies the bytes into a key.
    pub fn from_bytes(alloc: Global, bytes: &[u8]) -> Result<Key, NoMemory>
        ensures { IfOk result (λ k. k ≡ bytes.now) }
    {
        let bytes = SmallVec::from_slice(alloc, bytes)?;
        Ok(Key::holding(bytes))
    }

    /// The key of these parts, concatenated.
    pub(crate) fn joined(alloc: Global, front: &[u8], back: &[u8]) -> Result<Key, NoMemory>
        ensures { IfOk result (λ k. k ≡ front.now ++ back.now) }
    {
        let mut bytes = SmallVec::with_capacity(alloc, front.len() + back.len())?;
        bytes.extend_from_slice(front)?;
        bytes.extend_from_slice(back)?;
        Ok(Key::holding(bytes))
    }

    /// The key of the path whose text is a slash followed by this text.
    pub(crate) fn of_text(alloc: Global, text: &[u8]) -> Result<Key, NoMemory>
        ensures { IfOk result (λ k. k ≡ map null_for_slash text.now ++ 0 ∷ []) }
    {
        let mut bytes = SmallVec::with_capacity(alloc, text.len() + 1)?;
        for byte in text {
            bytes.push(if *byte == b'/' { 0 } else { *byte })?;
        }
        bytes.push(0)?;
        Ok(Key::holding(bytes))
    }

    // The key with these bytes.
    fn holding(bytes: SmallVec<u8, INLINE>) -> Key
        ensures { result ≡ bytes.items }
    {
        Key {
            head: head_of(bytes.as_slice()),
            bytes,
        }
    }

    /// The key's bytes.
    pub fn as_bytes(&self) -> &[u8]
        ensures { result.now ≡ self.now }
    {
        self.bytes.as_slice()
    }

    /// The head: the first eight bytes as a big-endian number, padded with zeros. Of two keys, the one with the lesser head is
    /// less.
    pub fn head(&self) -> u64
        ensures { IsHeaded result self.now }
    {
        self.head
    }

    /// Compares with another key whose first `skip` bytes are the same, and returns the order and how many leading bytes were
    /// found equal. A search among keys with a common prefix can skip these bytes.
    #[inline]
    pub fn cmp_from(&self, other: &Key, skip: usize) -> (Ordering, usize)
        ensures order { take skip self.now ≡ take skip other.now → result.0 ≡ by_bytes self.now other.now }
        ensures same { take skip self.now ≡ take skip other.now → take result.1 self.now ≡ take result.1 other.now }
    {
        if skip < HEAD && self.head != other.head {
            return (self.head.cmp(&other.head), 0);
        }
        order_from(self.as_bytes(), other.as_bytes(), skip.max(HEAD))
    }

    /// Clones the key.
    pub fn copy(&self, alloc: Global) -> Result<Key, NoMemory>
        ensures { IfOk result (λ k. k ≡ self.now) }
    {
        let bytes = SmallVec::from_slice(alloc, self.as_bytes())?;
        Ok(Key {
            head: self.head,
            bytes,
        })
    }

    /// The successor: the least key greater than this one.
    pub fn next(&self, alloc: Global) -> Result<Key, NoMemory>
        ensures { IfOk result (λ k. k ≡ next_key self.now) }
    {
        Key::joined(alloc, self.as_bytes(), &[0])
    }
}

impl PartialEq for Key {
    ghost eq = { eq_by_cmp by_bytes };

    ghost laws = { by_bytes_partial_equiv };

    fn eq(&self, other: &Key) -> bool {
        self.head == other.head && self.as_bytes() == other.as_bytes()
    }
}

impl Eq for Key {
    ghost laws = { by_bytes_equiv };
}

impl PartialOrd for Key {
    ghost partial_cmp = { as_partial_cmp by_bytes };

    ghost laws = { partial_order_from_agreeing_total by_bytes by_bytes_total (λ x y. refl) (λ x y. refl) };

    fn partial_cmp(&self, other: &Key) -> Option<Ordering> {
        Some(self.cmp(other))
    }
}

impl Ord for Key {
    ghost cmp = { by_bytes };

    ghost total = { by_bytes_total };

    ghost matches_partial_cmp = { λ x y. refl };

    ghost matches_eq = { λ x y. refl };

    fn cmp(&self, other: &Key) -> Ordering {
        if self.head != other.head {
            return self.head.cmp(&other.head);
        }
        order_from(self.as_bytes(), other.as_bytes(), HEAD).0
    }
}

// The first bytes as a big-endian number, padded with zeros.
fn head_of(bytes: &[u8]) -> u64
    ensures { IsHeaded result bytes.now }
{
    if HEAD <= bytes.len() {
        return whole_head(bytes);
    }
    let mut head = 0;
    for index in 0..HEAD {
        head = head * 256 + byte_at(bytes, index) as u64;
    }
    head
}

// The first eight bytes as a number, if there are that many.
fn whole_head(bytes: &[u8]) -> u64
    requires { 8 ≤ length bytes.now }
    ensures { result ≡ head_of bytes.now }
{
    u64::from_be_bytes([
        bytes[0], bytes[1], bytes[2], bytes[3], bytes[4], bytes[5], bytes[6], bytes[7],
    ])
}

// The byte at the index, or 0 past the end.
fn byte_at(bytes: &[u8], index: usize) -> u8
    ensures { result ≡ slice_index_or bytes.now index 0 }
{
    if index < bytes.len() { bytes[index] } else { 0 }
}

// The order of byte strings whose first `skip` bytes are the same, each padded with zeros, and how many leading bytes were
// found equal: eight bytes at a time, of which the last eight may overlap those before.
#[inline]
fn order_from(left: &[u8], right: &[u8], skip: usize) -> (Ordering, usize)
    requires { 8 ≤ skip }
    ensures order { ShareHead skip left.now right.now → result.0 ≡ by_bytes left.now right.now }
    ensures same { ShareHead skip left.now right.now → take result.1 left.now ≡ take result.1 right.now }
{
    let both = left.len().min(right.len());
    let mut same = skip;
    while same < both {
        let at = same.min(both - HEAD);
        let (head, other) = (whole_head(&left[at..]), whole_head(&right[at..]));
        if head != other {
            return (head.cmp(&other), same);
        }
        same = at + HEAD;
    }
    (left.len().cmp(&right.len()), both)
}
