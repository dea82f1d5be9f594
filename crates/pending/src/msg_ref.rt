//! A borrowed message.
//!
//! Invariant: it consists of references to stored parts, so the operations on a message at a key, one of a tail and part of a
//! range-delete give the same results.
ghost use Rattle.std.specs.Prelude.{◌≡◌, ◌∷◌, [], is_some, not, true, Some, IfOk};
ghost use Rattle.std.specs.Option.{option_copied};
ghost use Rattle.message.specs.Cuts.{cut_to};
ghost use Rattle.message.specs.Effects.{touches as is_touched, effect, point_key as point_of};
ghost use Rattle.message.specs.Oldest.{put_at, given_at, covers_first};
ghost use Rattle.message.specs.PointKeys.{clears};
ghost use Rattle.message.specs.Stretches.{is_for};
ghost use Rattle.point_ops.specs.Changes.{msg_at};
ghost use Rattle.point_ops.specs.KeyOps.{borrowed_change};
ghost use Rattle.pending.specs.MsgRef.{borrowed_msg};

use message::ends::{copy_end, is_within};
use message::range_tests::{covers_range, is_within_range, overlaps};
use message::{Msg, Update, UpdateTarget, edited};
use pathkey::{Key, KeyRange, NoMemory};
use std::alloc::Global;

/// A message, borrowed from where it is stored.
#[derive(Drop)]
pub enum MsgRef<'a, U: UpdateTarget> {
    /// A put.
    Put(&'a Key, &'a U::Value),
    /// A delete.
    Del(&'a Key),
    /// A range-delete, by its ends.
    DelRange(&'a Key, Option<&'a Key>),
    /// An update of the value at the key.
    Edit(&'a Key, &'a U),
}

impl<'a, U: Update> MsgRef<'a, U> {
    /// A borrow of a message that is stored as a whole.
    pub(crate) fn of(msg: &'a Msg<U>) -> MsgRef<'a, U>
        ensures { borrowed_msg result ≡ msg.now }
    {
        match msg {
            Msg::Put(key, value) => MsgRef::Put(key, value),
            Msg::Del(key) => MsgRef::Del(key),
            Msg::DelRange(range) => MsgRef::DelRange(&range.lo, range.hi.as_ref()),
            Msg::Edit(key, update) => MsgRef::Edit(key, update),
        }
    }

    /// A borrow of a pending operation of the key.
    pub(crate) fn at(key: &'a Key, change: point_ops::KeyOpRef<'a, U>) -> MsgRef<'a, U>
        ensures { borrowed_msg result ≡ msg_at key.now (borrowed_change change.entry) }
    {
        match change {
            point_ops::KeyOpRef::Put(value) => MsgRef::Put(key, value),
            point_ops::KeyOpRef::Del => MsgRef::Del(key),
            point_ops::KeyOpRef::Edit(update) => MsgRef::Edit(key, update),
        }
    }

    /// The key to which it gives a value, if it is a put.
    pub(crate) fn put(&self) -> Option<&'a Key>
        ensures { option_copied result ≡ put_at (borrowed_msg self.now) }
    {
        match self {
            MsgRef::Put(key, _) => Some(key),
            _ => None,
        }
    }

    /// The key to which it may give a value, if it is a put or an edit.
    pub fn created_key(&self) -> Option<&'a Key>
        ensures { option_copied result ≡ given_at (borrowed_msg self.now) }
    {
        match self {
            MsgRef::Put(key, _) => Some(key),
            MsgRef::Edit(key, _) => Some(key),
            _ => None,
        }
    }

    /// The one key that it touches, if it is no range-delete.
    pub(crate) fn point_key(&self) -> Option<&'a Key>
        ensures { option_copied result ≡ point_of (borrowed_msg self.now) }
    {
        match self {
            MsgRef::Put(key, _) => Some(key),
            MsgRef::Del(key) => Some(key),
            MsgRef::DelRange(_, _) => None,
            MsgRef::Edit(key, _) => Some(key),
        }
    }

    /// Whether it has a part in the keys from `lo` up to, but excluding, `hi`; `None` means no upper bound.
    pub(crate) fn overlaps_range(&self, lo: &Key, hi: Option<&Key>) -> bool
        ensures { result ≡ is_some (cut_to lo.now (option_copied hi.entry) (borrowed_msg self.now)) }
    {
        match self {
            MsgRef::Put(key, _) => is_within(key, lo, hi),
            MsgRef::Del(key) => is_within(key, lo, hi),
            MsgRef::DelRange(low, high) => overlaps(low, *high, lo, hi),
            MsgRef::Edit(key, _) => is_within(key, lo, hi),
        }
    }

    /// Whether it is entirely within the keys from `lo` up to, but excluding, `hi`; `None` means no upper bound.
    pub(crate) fn lies_in(&self, lo: &Key, hi: Option<&Key>) -> bool
        ensures { result ≡ true → cut_to lo.now (option_copied hi.entry) (borrowed_msg self.now) ≡ Some (borrowed_msg self.now) }
    {
        match self {
            MsgRef::Put(key, _) => is_within(key, lo, hi),
            MsgRef::Del(key) => is_within(key, lo, hi),
            MsgRef::DelRange(low, high) => is_within_range(lo, hi, low, *high),
            MsgRef::Edit(key, _) => is_within(key, lo, hi),
        }
    }

    /// Whether it is a range-delete of every key from `lo` up to, but excluding, `hi`; `None` means no upper bound.
    pub(crate) fn covers(&self, lo: &Key, hi: Option<&Key>) -> bool
        ensures { result ≡ covers_first lo.now (option_copied hi.entry) (borrowed_msg self.now ∷ []) }
    {
        match self {
            MsgRef::DelRange(low, high) => covers_range(low, *high, lo, hi),
            _ => false,
        }
    }

    /// Whether it is a range-delete.
    pub(crate) fn is_range(&self) -> bool
        ensures { result ≡ not (is_some (point_of (borrowed_msg self.now))) }
    {
        match self {
            MsgRef::DelRange(_, _) => true,
            _ => false,
        }
    }

    /// Whether it is for this key alone.
    pub(crate) fn is_for(&self, key: &Key) -> bool
        ensures { result ≡ is_for (borrowed_msg self.now) key.now }
    {
        match self.point_key() {
            Some(at) => at == key,
            None => false,
        }
    }

    /// Whether it can change the value at the key.
    pub(crate) fn touches(&self, key: &Key) -> bool
        ensures { result ≡ is_touched (borrowed_msg self.now) key.now }
    {
        match self {
            MsgRef::Put(at, _) => *at == key,
            MsgRef::Del(at) => *at == key,
            MsgRef::DelRange(low, high) => is_within(key, low, *high),
            MsgRef::Edit(at, _) => *at == key,
        }
    }

    /// Whether it is a range-delete that covers the key.
    pub(crate) fn deletes_key(&self, key: &Key) -> bool
        ensures { result ≡ clears (borrowed_msg self.now) key.now }
    {
        match self {
            MsgRef::DelRange(low, high) => is_within(key, low, *high),
            _ => false,
        }
    }

    /// Applies it to `old`, the older value at `key`, and returns the resulting value.
    pub(crate) fn apply_msg(
        &self,
        alloc: Global,
        key: &Key,
        old: Option<U::Value>,
    ) -> Result<Option<U::Value>, NoMemory>
        ensures { IfOk result (λ v. v ≡ effect U.means (borrowed_msg self.now) key.now old) }
    {
        if !self.touches(key) {
            return Ok(old);
        }
        match self {
            MsgRef::Put(_, value) => Ok(Some(U::copy_value(alloc, *value)?)),
            MsgRef::Del(_) => Ok(None),
            MsgRef::DelRange(_, _) => Ok(None),
            MsgRef::Edit(_, update) => edited(alloc, *update, old),
        }
    }

    /// A copy of it.
    pub(crate) fn copy(&self, alloc: Global) -> Result<Msg<U>, NoMemory>
        ensures { IfOk result (λ m. m ≡ borrowed_msg self.now) }
    {
        match self {
            MsgRef::Put(key, value) => Ok(Msg::Put(
                key.copy(alloc)?,
                U::copy_value(alloc, *value)?,
            )),
            MsgRef::Del(key) => Ok(Msg::Del(key.copy(alloc)?)),
            MsgRef::DelRange(low, high) => Ok(Msg::DelRange(KeyRange {
                lo: low.copy(alloc)?,
                hi: copy_end(alloc, *high)?,
            })),
            MsgRef::Edit(key, update) => Ok(Msg::Edit(key.copy(alloc)?, update.copy(alloc)?)),
        }
    }
}
