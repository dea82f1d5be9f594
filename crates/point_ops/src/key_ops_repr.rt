//! The in-memory representation of the operations of one key.
//!
//! Invariant: a put, a delete and a single update need no allocation of their own. Only updates that could not be joined are in
//! a vector, and it holds at least one.
ghost use Rattle.std.specs.Prelude.{◌≡◌, ◌∷◌, [], ◌+◌, ◌<◌, ◌≤◌, Option, None, Some, drop, length, OnOk, OnErr, IfOk, IfErr};
ghost use Rattle.point_ops.specs.Changes.{Put, Del, Edit, run_effect};
ghost use Rattle.point_ops.specs.KeyOps.{changes_in, edits_effect, IsJoined};

use crate::edits;
use message::{Update, UpdateTarget};
use pathkey::NoMemory;
use std::alloc::Global;

/// The pending operations of one key: a single one, or updates that could not be joined.
#[derive(Drop)]
pub enum KeyOpsRepr<U: UpdateTarget> {
    /// Sets the key's value.
    Put(U::Value),
    /// Removes the key's value.
    Del,
    /// Applies the update to the key's value, or to its absence.
    Edit(U),
    /// Applies the updates one after another, the oldest first.
    Edits(Vec<U>),
}

impl<U: Update> KeyOpsRepr<U> {
    /// The operation that gives the key this value, or removes its value if there is none.
    fn of_value(value: Option<U::Value>) -> KeyOpsRepr<U>
        ensures meaning { (o : Option U.Value) → run_effect U.means (changes_in result) o ≡ value }
        ensures len { length (changes_in result) ≡ 1 }
    {
        match value {
            Some(value) => KeyOpsRepr::Put(value),
            None => KeyOpsRepr::Del,
        }
    }

    /// Appends an update to the operations. On allocation failure they are unchanged, and the update is returned as the error.
    pub(crate) fn edited(self, alloc: Global, later: U) -> (KeyOpsRepr<U>, Result<(), U>)
        requires { 0 < length (changes_in self) }
        ensures meaning { OnOk result.1 ((o : Option U.Value) → run_effect U.means (changes_in result.0) o ≡ U.means later (run_effect U.means (changes_in self) o)) }
        ensures bound { length (changes_in result.0) ≤ length (changes_in self) + 1 }
        ensures some { 0 < length (changes_in result.0) }
        ensures unchanged { OnErr result.1 (changes_in result.0 ≡ changes_in self) }
        ensures back { IfErr result.1 (λ u. u ≡ later) }
    {
        match self {
            KeyOpsRepr::Put(value) => KeyOpsRepr::edited_put(alloc, value, later),
            KeyOpsRepr::Del => KeyOpsRepr::edited_del(alloc, later),
            KeyOpsRepr::Edit(first) => KeyOpsRepr::edited_edit(alloc, first, later),
            KeyOpsRepr::Edits(updates) => KeyOpsRepr::edited_edits(alloc, updates, later),
        }
    }

    /// Joins an update, in place, to the only operation, and returns whether it did.
    #[inline(always)]
    pub(crate) fn join(&mut self, alloc: Global, later: &U) -> bool
        ensures { IsJoined U.means later.now (changes_in self.old) (changes_in self.new) result }
    {
        match self {
            KeyOpsRepr::Edit(first) => first.join_in_place(alloc, later),
            KeyOpsRepr::Put(value) => match later.apply_in_place(alloc, value) {
                Ok(true) => true,
                Ok(false) => {
                    *self = KeyOpsRepr::Del;
                    true
                }
                Err(_) => false,
            },
            KeyOpsRepr::Del | KeyOpsRepr::Edits(_) => false,
        }
    }

    /// A put followed by an update, which is applied to the value in place.
    fn edited_put(alloc: Global, value: U::Value, later: U) -> (KeyOpsRepr<U>, Result<(), U>)
        ensures meaning { OnOk result.1 ((o : Option U.Value) → run_effect U.means (changes_in result.0) o ≡ U.means later (Some value)) }
        ensures len { length (changes_in result.0) ≡ 1 }
        ensures unchanged { OnErr result.1 (changes_in result.0 ≡ Put value ∷ []) }
        ensures back { IfErr result.1 (λ u. u ≡ later) }
    {
        let mut value = value;
        match later.apply_in_place(alloc, &mut value) {
            Ok(true) => (KeyOpsRepr::Put(value), Ok(())),
            Ok(false) => (KeyOpsRepr::Del, Ok(())),
            Err(_) => (KeyOpsRepr::Put(value), Err(later)),
        }
    }

    /// A delete followed by an update, which is applied to no value.
    fn edited_del(alloc: Global, later: U) -> (KeyOpsRepr<U>, Result<(), U>)
        ensures meaning { OnOk result.1 ((o : Option U.Value) → run_effect U.means (changes_in result.0) o ≡ U.means later None) }
        ensures len { length (changes_in result.0) ≡ 1 }
        ensures unchanged { OnErr result.1 (changes_in result.0 ≡ Del ∷ []) }
        ensures back { IfErr result.1 (λ u. u ≡ later) }
    {
        let nothing: Option<U::Value> = None;
        match later.apply(alloc, nothing.as_ref()) {
            Ok(value) => (KeyOpsRepr::of_value(value), Ok(())),
            Err(_) => (KeyOpsRepr::Del, Err(later)),
        }
    }

    /// One update followed by another: a single update if they can be joined, else both.
    fn edited_edit(alloc: Global, first: U, later: U) -> (KeyOpsRepr<U>, Result<(), U>)
        ensures meaning { OnOk result.1 ((o : Option U.Value) → run_effect U.means (changes_in result.0) o ≡ U.means later (U.means first o)) }
        ensures bound { length (changes_in result.0) ≤ 2 }
        ensures some { 0 < length (changes_in result.0) }
        ensures unchanged { OnErr result.1 (changes_in result.0 ≡ Edit first ∷ []) }
        ensures back { IfErr result.1 (λ u. u ≡ later) }
    {
        let mut first = first;
        if first.join_in_place(alloc, &later) {
            return (KeyOpsRepr::Edit(first), Ok(()));
        }
        match Vec::with_capacity(alloc, 2) {
            Ok(mut both) => {
                both.push_reserved(first);
                both.push_reserved(later);
                (KeyOpsRepr::Edits(both), Ok(()))
            }
            Err(_) => (KeyOpsRepr::Edit(first), Err(later)),
        }
    }

    /// Appends one more update to the updates.
    fn edited_edits(alloc: Global, updates: Vec<U>, later: U) -> (KeyOpsRepr<U>, Result<(), U>)
        requires { 0 < length updates.items }
        ensures meaning { OnOk result.1 ((o : Option U.Value) → run_effect U.means (changes_in result.0) o ≡ U.means later (edits_effect U.means updates.items o)) }
        ensures bound { length (changes_in result.0) ≤ length updates.items + 1 }
        ensures some { 0 < length (changes_in result.0) }
        ensures unchanged { OnErr result.1 (changes_in result.0 ≡ changes_in (KeyOpsRepr.Edits updates)) }
        ensures back { IfErr result.1 (λ u. u ≡ later) }
    {
        let mut updates = updates;
        let answer = edits::push(&mut updates, alloc, later);
        (KeyOpsRepr::Edits(updates), answer)
    }

    /// Removes the `consumed` oldest operations. If there are no more than that, it keeps the newest.
    pub(crate) fn drop_oldest(&mut self, consumed: usize)
        requires { 0 < length (changes_in self.old) }
        ensures dropped { consumed < length (changes_in self.old) → changes_in self.new ≡ drop consumed (changes_in self.old) }
        ensures some { 0 < length (changes_in self.new) }
    {
        let KeyOpsRepr::Edits(updates) = self else {
            return;
        };
        let count = consumed.min(updates.len() - 1);
        edits::drop_first(updates, count);
    }

    /// Copies the operations.
    pub(crate) fn copy(&self, alloc: Global) -> Result<KeyOpsRepr<U>, NoMemory>
        ensures { IfOk result (λ w. changes_in w ≡ changes_in self.now) }
    {
        match self {
            KeyOpsRepr::Put(value) => Ok(KeyOpsRepr::Put(U::copy_value(alloc, value)?)),
            KeyOpsRepr::Del => Ok(KeyOpsRepr::Del),
            KeyOpsRepr::Edit(update) => Ok(KeyOpsRepr::Edit(update.copy(alloc)?)),
            KeyOpsRepr::Edits(updates) => Ok(KeyOpsRepr::Edits(edits::copy_all(alloc, updates)?)),
        }
    }
}
