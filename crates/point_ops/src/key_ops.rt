//! The operations of one key, the oldest first.
//!
//! Invariant: there is at least one. A put or a delete is the only operation of its key.
ghost use Rattle.std.specs.Prelude.{true, false, ◌≡◌, ◌+◌, ◌-◌, ◌<◌, [], ◌∷◌, ◌++◌, Option, None, Some, if◌then◌else◌, length, take, drop, OnOk, IfOk, IfSome, IfNone};
ghost use Rattle.std.specs.List.{slice_get};
ghost use Rattle.message.specs.declared.resolution.Resolution.TheVariants as resolution;
ghost use Rattle.point_ops.specs.Changes.{Put, Del, Edit, is_whole, run_effect, run_msgs};
ghost use Rattle.point_ops.specs.KeyOps.{borrowed_change, IsAppended, IsInserted, IsJoined, IsResolvedOf};

use crate::edits::{self, later, only};
use crate::key_op_ref::KeyOpRef;
use crate::key_ops_repr::KeyOpsRepr;
use cow_map::CopyValue;
use message::{Msg, Resolution, Update, UpdateTarget};
use pathkey::{Key, NoMemory};
use std::alloc::Global;
use std::marker::Model;

/// The pending operations of one key. Contracts see them as a list, the oldest first.
#[derive(Drop)]
pub struct KeyOps<U: UpdateTarget> {
    waits: KeyOpsRepr<U>,
}

impl<U: UpdateTarget> Model for KeyOps<U> {
    ghost use Rattle.std.specs.Prelude.{List, length, ◌<◌};
    ghost use Rattle.point_ops.specs.Changes.{KeyOp};

    ghost Value = { List (KeyOp U U.Value) };

    ghost use Rattle.point_ops.specs.KeyOps.{changes_in};

    ghost view = { λ r. changes_in r.waits };

    ghost invariant = { λ r. 0 < length (changes_in r.waits) };
}

impl<U: Update> CopyValue for KeyOps<U> {
    fn copy(&self, alloc: Global) -> Result<KeyOps<U>, NoMemory> {
        let waits = self.waits.copy(alloc)?;
        Ok(KeyOps { waits })
    }
}

impl<U: Update> KeyOps<U> {
    /// A put of the value.
    pub(crate) fn put(value: U::Value) -> KeyOps<U>
        ensures { result ≡ Put value ∷ [] }
    {
        KeyOps {
            waits: KeyOpsRepr::Put(value),
        }
    }

    /// A delete.
    pub(crate) fn del() -> KeyOps<U>
        ensures { result ≡ Del ∷ [] }
    {
        KeyOps {
            waits: KeyOpsRepr::Del,
        }
    }

    /// An update.
    pub(crate) fn of_edit(update: U) -> KeyOps<U>
        ensures { result ≡ Edit update ∷ [] }
    {
        KeyOps {
            waits: KeyOpsRepr::Edit(update),
        }
    }

    /// The number of operations.
    pub fn len(&self) -> usize
        ensures len { result ≡ length self.now }
        ensures some { 0 < result }
    {
        match &self.waits {
            KeyOpsRepr::Put(_) | KeyOpsRepr::Del | KeyOpsRepr::Edit(_) => 1,
            KeyOpsRepr::Edits(updates) => updates.len(),
        }
    }

    /// Whether it is a single operation that does not depend on the old value.
    pub fn is_whole(&self) -> bool
        ensures whole { result ≡ is_whole self.now }
        ensures alone { result ≡ true → length self.now ≡ 1 }
    {
        match &self.waits {
            KeyOpsRepr::Put(_) | KeyOpsRepr::Del => true,
            KeyOpsRepr::Edit(_) | KeyOpsRepr::Edits(_) => false,
        }
    }

    /// The operation with `older` operations before it.
    pub fn op_at(&self, older: usize) -> KeyOpRef<'_, U>
        requires { older < length self.now }
        ensures { Some (borrowed_change result) ≡ slice_get self.now older }
    {
        match &self.waits {
            KeyOpsRepr::Put(value) => KeyOpRef::Put(value),
            KeyOpsRepr::Del => KeyOpRef::Del,
            KeyOpsRepr::Edit(update) => KeyOpRef::Edit(update),
            KeyOpsRepr::Edits(updates) => KeyOpRef::Edit(&updates[older]),
        }
    }

    /// Applies the operations, without the `consumed` oldest, to `old`, and returns the resulting value.
    pub fn apply(
        &self,
        alloc: Global,
        consumed: usize,
        old: Option<U::Value>,
    ) -> Result<Option<U::Value>, NoMemory>
        requires { consumed < length self.now }
        ensures { IfOk result (λ v. v ≡ run_effect U.means (drop consumed self.now) old) }
    {
        match &self.waits {
            KeyOpsRepr::Put(value) => Ok(Some(U::copy_value(alloc, value)?)),
            KeyOpsRepr::Del => Ok(None),
            KeyOpsRepr::Edit(update) => update.apply(alloc, old.as_ref()),
            KeyOpsRepr::Edits(updates) => edits::apply_all(alloc, later(updates, consumed), old),
        }
    }

    /// What the operations, without the `consumed` oldest, say of the value at their key, given whether an older range-delete
    /// covers the key. They determine it unless they depend on an older value, which no range-delete covers.
    pub fn resolve(
        &self,
        alloc: Global,
        consumed: usize,
        is_covered: bool,
    ) -> Result<Resolution<U::Value>, NoMemory>
        requires { consumed < length self.now }
        ensures resolved { IfOk result (IsResolvedOf (λ o. run_effect U.means (drop consumed self.now) (if is_covered then None else o))) }
        ensures base { IfOk result (λ r. r ≡ resolution.NeedsBase → (is_whole self.now ≡ false) × (is_covered ≡ false)) }
    {
        match &self.waits {
            KeyOpsRepr::Put(value) => Ok(Resolution::Value(Some(U::copy_value(alloc, value)?))),
            KeyOpsRepr::Del => Ok(Resolution::Value(None)),
            KeyOpsRepr::Edit(_) | KeyOpsRepr::Edits(_) => {
                if !is_covered {
                    return Ok(Resolution::NeedsBase);
                }
                let value = self.apply(alloc, consumed, None)?;
                Ok(Resolution::Value(value))
            }
        }
    }

    /// Appends copies of the operations, without the `consumed` oldest, as messages at the key, to `front` until it holds
    /// `count` messages.
    pub fn copy_into(
        &self,
        alloc: Global,
        key: &Key,
        consumed: usize,
        count: usize,
        front: &mut Vec<Msg<U>>,
    ) -> Result<(), NoMemory>
        requires { consumed < length self.now }
        ensures { OnOk result (take count front.new.items ≡ take count (front.old.items ++ run_msgs key.now (drop consumed self.now))) }
    {
        match &self.waits {
            KeyOpsRepr::Put(value) => {
                let value = U::copy_value(alloc, value)?;
                front.push(Msg::Put(key.copy(alloc)?, value))?;
            }
            KeyOpsRepr::Del => front.push(Msg::Del(key.copy(alloc)?))?,
            KeyOpsRepr::Edit(update) => front.push(edits::msg_of(alloc, key, update)?)?,
            KeyOpsRepr::Edits(updates) => {
                return edits::copy_msgs(alloc, key, later(updates, consumed), count, front);
            }
        }
        Ok(())
    }

    /// Appends an update to the operations, and returns how many there were and how many there are now. On allocation failure
    /// the update is returned as the error.
    pub(crate) fn edit(&mut self, alloc: Global, update: U) -> Result<(usize, usize), U>
        ensures { IsInserted U.means update self.old self.new result }
    {
        let before = self.len();
        let waits = std::mem::replace(&mut self.waits, KeyOpsRepr::Del);
        let (waits, answer) = waits.edited(alloc, update);
        self.waits = waits;
        match answer {
            Ok(()) => Ok((before, self.len())),
            Err(update) => Err(update),
        }
    }

    /// Joins an update, in place, to the only operation, and returns whether it did.
    #[inline(always)]
    pub(crate) fn join(&mut self, alloc: Global, update: &U) -> bool
        ensures { IsJoined U.means update.now self.old self.new result }
    {
        self.waits.join(alloc, update)
    }

    /// Appends an update of another list, which is joined in place if possible, and otherwise copied. Returns how many operations
    /// there were and how many there are now. On allocation failure the operations are unchanged.
    pub(crate) fn append(&mut self, alloc: Global, update: &U) -> Option<(usize, usize)>
        ensures appended { IfSome result (λ n. IsAppended U.means (Edit update.now ∷ []) self.old self.new n) }
        ensures none { IfNone result (self.new ≡ self.old) }
    {
        if self.join(alloc, update) {
            return Some((1, 1));
        }
        let Ok(update) = update.copy(alloc) else {
            return None;
        };
        match self.edit(alloc, update) {
            Ok(counts) => Some(counts),
            Err(_) => None,
        }
    }

    /// Removes the `consumed` oldest operations. If there are no more than that, it keeps the newest.
    pub(crate) fn drop_oldest(&mut self, consumed: usize)
        ensures dropped { consumed < length self.old → self.new ≡ drop consumed self.old }
    {
        self.waits.drop_oldest(consumed);
    }

    /// The value of a put.
    pub(crate) fn into_value(self) -> U::Value
        requires { (v : U.Value) × (self ≡ Put v ∷ []) }
        ensures { self ≡ Put result ∷ [] }
    {
        match self.waits {
            KeyOpsRepr::Put(value) => value,
            _ => unreachable!(),
        }
    }

    /// The update that is the only operation.
    pub(crate) fn into_update(self) -> U
        requires { (u : U) × (self ≡ Edit u ∷ []) }
        ensures { self ≡ Edit result ∷ [] }
    {
        match self.waits {
            KeyOpsRepr::Edit(update) => update,
            KeyOpsRepr::Edits(updates) => only(updates),
            _ => unreachable!(),
        }
    }
}
