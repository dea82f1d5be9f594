//! Messages: which keys they touch, what they make of a value, and the part of a message in a range.
//!
//! The part of a message in a range has the message's effect at each key of the range, and none at any other key. So a message can
//! be cut at the pivots of a node without changing what the tree means.
ghost use Rattle.std.specs.Prelude.{◌≡◌, IfOk};
ghost use Rattle.std.specs.Option.{option_copied};
ghost use Rattle.message.specs.Effects.{touches as is_touched, effect, point_key as point_of};
ghost use Rattle.message.specs.Cuts.{cut_range, cut_to, IsCut};
ghost use Rattle.message.specs.Oldest.{given_at};
ghost use Rattle.message.specs.Ranges.{earlier_end, later_key};

use crate::ends::{earlier_end, is_within, later_key};
use crate::range_tests::overlaps;
use crate::update::{Update, UpdateTarget};
use pathkey::{Key, KeyRange, NoMemory};
use std::alloc::Global;

/// A change of a map from keys to values.
#[derive(Drop)]
pub enum Msg<U: UpdateTarget> {
    /// The key gets the value.
    Put(Key, U::Value),
    /// The key's value is removed, if it has one.
    Del(Key),
    /// The values of all keys of the range are removed.
    DelRange(KeyRange),
    /// The key's value, or its absence, is changed by the update.
    Edit(Key, U),
}

impl<U: Update> Msg<U> {
    /// An equal message.
    pub fn copy(&self, alloc: Global) -> Result<Msg<U>, NoMemory>
        ensures { IfOk result (λ m. m ≡ self.now) }
    {
        match self {
            Msg::Put(key, value) => Ok(Msg::Put(key.copy(alloc)?, U::copy_value(alloc, value)?)),
            Msg::Del(key) => Ok(Msg::Del(key.copy(alloc)?)),
            Msg::DelRange(range) => Ok(Msg::DelRange(range.copy(alloc)?)),
            Msg::Edit(key, update) => Ok(Msg::Edit(key.copy(alloc)?, update.copy(alloc)?)),
        }
    }

    /// The one key that the message touches, if it is no range-delete.
    pub fn point_key(&self) -> Option<&Key>
        ensures { option_copied result ≡ point_of self.now }
    {
        match self {
            Msg::Put(key, _) | Msg::Del(key) | Msg::Edit(key, _) => Some(key),
            Msg::DelRange(_) => None,
        }
    }

    /// The key to which the message may give a value where it had none: that of a put or of an edit.
    pub fn created_key(&self) -> Option<&Key>
        ensures { option_copied result ≡ given_at self.now }
    {
        match self {
            Msg::Put(key, _) | Msg::Edit(key, _) => Some(key),
            Msg::Del(_) | Msg::DelRange(_) => None,
        }
    }

    /// The value at `key` after the message, if `old` was there.
    pub fn apply_msg(
        &self,
        alloc: Global,
        key: &Key,
        old: Option<U::Value>,
    ) -> Result<Option<U::Value>, NoMemory>
        ensures { IfOk result (λ v. v ≡ effect U.means self.now key.now old) }
    {
        if !touches(self, key) {
            return Ok(old);
        }
        match self {
            Msg::Put(_, value) => Ok(Some(U::copy_value(alloc, value)?)),
            Msg::Del(_) | Msg::DelRange(_) => Ok(None),
            Msg::Edit(_, update) => edited(alloc, update, old),
        }
    }

    /// The part of the message in the range from `lo` up to but excluding `hi`; `None` is no end.
    pub fn cut_between(
        &self,
        alloc: Global,
        lo: &Key,
        hi: Option<&Key>,
    ) -> Result<Option<Msg<U>>, NoMemory>
        ensures { IfOk result (λ m. m ≡ cut_to lo.now (option_copied hi.entry) self.now) }
    {
        match self {
            Msg::DelRange(range) => cut_range_delete(alloc, range, lo, hi),
            Msg::Put(key, _) | Msg::Del(key) | Msg::Edit(key, _) => {
                if is_within(key, lo, hi) {
                    Ok(Some(self.copy(alloc)?))
                } else {
                    Ok(None)
                }
            }
        }
    }
}

/// The value after the update, if `old` was there. It is changed in place if the update can.
pub fn edited<U: Update>(
    alloc: Global,
    update: &U,
    old: Option<U::Value>,
) -> Result<Option<U::Value>, NoMemory>
    ensures { IfOk result (λ v. v ≡ U.means update.now old) }
{
    let Some(mut value) = old else {
        return update.apply(alloc, old.as_ref());
    };
    if update.apply_in_place(alloc, &mut value)? {
        Ok(Some(value))
    } else {
        Ok(None)
    }
}

/// A range-delete of the part of a range from `lo` up to but excluding `hi`, if there can be a key there.
fn cut_range_delete<U: Update>(
    alloc: Global,
    range: &KeyRange,
    lo: &Key,
    hi: Option<&Key>,
) -> Result<Option<Msg<U>>, NoMemory>
    ensures { IfOk result (λ m. m ≡ cut_range (later_key lo.now range.now.lo) (earlier_end (option_copied hi.entry) range.now.hi)) }
{
    if !overlaps(&range.lo, range.hi.as_ref(), lo, hi) {
        return Ok(None);
    }
    let lo = later_key(alloc, lo, &range.lo)?;
    let hi = earlier_end(alloc, hi, range.hi.as_ref())?;
    Ok(Some(Msg::DelRange(KeyRange { lo, hi })))
}

/// Whether the message can change the value at the key.
pub fn touches<U: Update>(msg: &Msg<U>, key: &Key) -> bool
    ensures { result ≡ is_touched msg.now key.now }
{
    match msg {
        Msg::Put(at, _) | Msg::Del(at) | Msg::Edit(at, _) => at == key,
        Msg::DelRange(range) => range.contains(key),
    }
}

/// The part of the message inside the range: it has the message's effect at each key of the range, and none
/// at any other; `None` if no part is left.
pub fn cut<U: Update>(
    alloc: Global,
    msg: &Msg<U>,
    range: &KeyRange,
) -> Result<Option<Msg<U>>, NoMemory>
    ensures meaning { IfOk result (λ piece. IsCut U.means msg.now range.now piece) }
    ensures part { IfOk result (λ piece. piece ≡ cut_to range.now.lo range.now.hi msg.now) }
{
    msg.cut_between(alloc, &range.lo, range.hi.as_ref())
}
