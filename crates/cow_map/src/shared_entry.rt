//! One entry behind a pointer, which several chunks may share.
//!
//! Invariant: the stored head is that of the entry's key. An entry is changed only by its sole owner; if it is shared, a change
//! works on a copy.
ghost use Rattle.std.specs.Prelude.{◌≡◌, take, OnOk, OnErr, IfOk, IfErr};
ghost use Rattle.std.specs.Ordering.{is_gt};
ghost use Rattle.pathkey.specs.Order.{by_bytes};
ghost use Rattle.pathkey.specs.Heads.{IsHeaded};

use crate::edit::Edit;
use crate::stored::CopyValue;
use pathkey::{Key, NoMemory};
use std::alloc::Global;
use std::cmp::Ordering;
use std::marker::Model;
use std::sync::Arc;

/// A shared pointer to an entry, and the head of the entry's key, so that a search seldom reads the entry itself. Contracts see
/// the entry.
#[derive(Drop)]
pub struct SharedEntry<T> {
    head: u64,
    entry: Arc<(Key, T)>,
}

impl<T> Model for SharedEntry<T> {
    ghost use Rattle.std.specs.Prelude.{List, ℕ};
    ghost use Rattle.pathkey.specs.Heads.{IsHeaded};

    ghost Value = { List ℕ × T };

    ghost view = { λ i. i.entry.value };

    ghost invariant = { λ i. IsHeaded i.head i.entry.value.0 };
}

impl<T: CopyValue> SharedEntry<T> {
    /// Allocates an entry. If the allocation fails the key and the value are returned.
    pub(crate) fn new(alloc: Global, key: Key, value: T) -> Result<SharedEntry<T>, (Key, T)>
        ensures ok { IfOk result (λ i. i ≡ (key, value)) }
        ensures back { IfErr result (λ p. p ≡ (key, value)) }
    {
        let head = key.head();
        match Arc::new(alloc, (key, value)) {
            Ok(entry) => Ok(SharedEntry { head, entry }),
            Err(refused) => Err(refused.value),
        }
    }

    /// The key of the entry.
    #[inline(always)]
    pub(crate) fn key(&self) -> &Key
        ensures { result.now ≡ self.now.0 }
    {
        &self.entry.0
    }

    /// The value of the entry.
    #[inline(always)]
    pub(crate) fn value(&self) -> &T
        ensures { result.now ≡ self.now.1 }
    {
        &self.entry.1
    }

    /// The head of the key.
    #[inline(always)]
    pub(crate) fn head(&self) -> u64
        ensures { IsHeaded result self.now.0 }
    {
        self.head
    }

    /// Whether the entry is before the key. Heads that differ decide without reading the entry.
    #[inline(always)]
    pub(crate) fn is_before(&self, key: &Key) -> bool
        ensures { result ≡ is_gt (by_bytes key.now self.now.0) }
    {
        let head = key.head();
        if self.head != head {
            return self.head < head;
        }
        key.cmp(self.key()).is_gt()
    }

    /// Compares with a key whose first `skip` bytes are the same, and returns the order and how many leading bytes were found
    /// equal. Heads that differ decide without reading the entry.
    #[inline(always)]
    pub(crate) fn cmp_from(&self, key: &Key, skip: usize) -> (Ordering, usize)
        ensures order { take skip self.now.0 ≡ take skip key.now → result.0 ≡ by_bytes self.now.0 key.now }
        ensures same { take skip self.now.0 ≡ take skip key.now → take result.1 self.now.0 ≡ take result.1 key.now }
    {
        let head = key.head();
        if self.head != head {
            return (self.head.cmp(&head), 0);
        }
        self.key().cmp_from(key, skip)
    }

    /// Clones the pointer; both then share the entry.
    pub(crate) fn share(&self) -> Result<SharedEntry<T>, NoMemory>
        ensures { IfOk result (λ i. i ≡ self.now) }
    {
        let entry = Arc::try_clone(&self.entry)?;
        Ok(SharedEntry {
            head: self.head,
            entry,
        })
    }

    /// Copies the entry to a new allocation.
    fn copy(&self, alloc: Global) -> Result<SharedEntry<T>, NoMemory>
        ensures { IfOk result (λ i. i ≡ self.now) }
    {
        let key = self.key().copy(alloc)?;
        let value = self.value().copy(alloc)?;
        match SharedEntry::new(alloc, key, value) {
            Ok(item) => Ok(item),
            Err(_) => Err(NoMemory),
        }
    }

    /// Edits the value. A shared entry is copied first. If an allocation fails the edit is returned.
    #[inline(always)]
    pub(crate) fn edit<E: Edit<T>>(&mut self, alloc: Global, edit: E) -> Result<E::Answer, E>
        ensures key { self.new.0 ≡ self.old.0 }
        ensures done { IfOk result (λ a. E.does edit self.old.1 self.new.1 a) }
        ensures err { OnErr result (self.new ≡ self.old) }
        ensures back { IfErr result (λ e. e ≡ edit) }
    {
        if self.own(alloc).is_err() {
            return Err(edit);
        }
        match Arc::get_mut(&mut self.entry) {
            Some(entry) => Ok(edit.edit(&mut entry.1)),
            None => Err(edit),
        }
    }

    /// Replaces the value, and returns the old one. A shared entry is copied first. If an allocation fails the new value is
    /// returned.
    #[inline(always)]
    pub(crate) fn replace(&mut self, alloc: Global, value: T) -> Result<T, T>
        ensures is { OnOk result (self.new ≡ (self.old.0, value)) }
        ensures was { IfOk result (λ v. v ≡ self.old.1) }
        ensures err { OnErr result (self.new ≡ self.old) }
        ensures back { IfErr result (λ v. v ≡ value) }
    {
        if self.own(alloc).is_err() {
            return Err(value);
        }
        match Arc::get_mut(&mut self.entry) {
            Some(entry) => Ok(std::mem::replace(&mut entry.1, value)),
            None => Err(value),
        }
    }

    /// Replaces a shared entry by a copy.
    #[inline(always)]
    fn own(&mut self, alloc: Global) -> Result<(), NoMemory>
        ensures { self.new ≡ self.old }
    {
        if Arc::strong_count(&self.entry) == 1 {
            return Ok(());
        }
        let own = self.copy(alloc)?;
        *self = own;
        Ok(())
    }

    /// Converts it into the value, which is copied if the entry is shared. If an allocation fails the entry is returned.
    pub(crate) fn into_value(self, alloc: Global) -> Result<T, SharedEntry<T>>
        ensures ok { IfOk result (λ v. v ≡ self.1) }
        ensures back { IfErr result (λ i. i ≡ self) }
    {
        let head = self.head;
        match Arc::try_unwrap(self.entry) {
            Ok(entry) => Ok(entry.1),
            Err(entry) => match entry.1.copy(alloc) {
                Ok(value) => Ok(value),
                Err(_) => Err(SharedEntry { head, entry }),
            },
        }
    }
}
