//! A chunk of entries, which several maps may share.
//!
//! Invariant: the stored head is that of the first remaining entry's key, and no more entries are consumed than there are. The
//! vector is changed only by its sole owner; if it is shared, a change works on a copy.
ghost use Rattle.std.specs.Prelude.{◌≡◌, ◌<◌, ◌≤◌, [], take, drop, length, OnOk, OnErr, IfOk, IfErr};
ghost use Rattle.pathkey.specs.Order.{by_bytes};
ghost use Rattle.cow_map.specs.Places.{BeginsHeaded};
ghost use Rattle.cow_map.specs.CowMap.{first_key};

use crate::chunk_edit::ChunkEdit;
use crate::shared_entry::SharedEntry;
use crate::stored::CopyValue;
use pathkey::{Key, NoMemory};
use std::alloc::Global;
use std::cmp::Ordering;
use std::marker::Model;
use std::sync::Arc;

/// A shared vector of entries, of which the first may already be consumed, and the head of the first remaining entry's key, so
/// that a search among chunks seldom reads more of a chunk. Contracts see the remaining entries.
#[derive(Drop)]
pub struct Chunk<T> {
    head: u64,
    consumed: usize,
    entries: Arc<Vec<SharedEntry<T>>>,
}

impl<T> Model for Chunk<T> {
    ghost use Rattle.std.specs.Prelude.{List, ℕ, drop, ◌≤◌, length};

    ghost Value = { List (List ℕ × T) };

    ghost use Rattle.cow_map.specs.Places.{BeginsHeaded};

    ghost view = { λ r. drop r.consumed r.entries.value.items };

    ghost invariant = { λ r. BeginsHeaded r.head (drop r.consumed r.entries.value.items) × (r.consumed ≤ length r.entries.value.items) };
}

impl<T: CopyValue> Chunk<T> {
    /// An empty chunk.
    pub(crate) fn new(alloc: Global) -> Result<Chunk<T>, NoMemory>
        ensures { IfOk result (λ r. r ≡ []) }
    {
        Ok(Chunk::of(Arc::new(alloc, Vec::new(alloc))?))
    }

    /// A chunk of these entries.
    pub(crate) fn of(entries: Arc<Vec<SharedEntry<T>>>) -> Chunk<T>
        ensures { result ≡ entries.value.items }
    {
        Chunk {
            head: first_head(entries.as_slice()),
            consumed: 0,
            entries,
        }
    }

    /// The entries.
    #[inline(always)]
    pub(crate) fn entries(&self) -> &[SharedEntry<T>]
        ensures entries { result.now ≡ self.now }
        ensures len { length result.now ≡ length self.now }
    {
        &self.entries.as_slice()[self.consumed..]
    }

    /// Compares the first entry's key with a key whose first `skip` bytes are the same, and returns the order and how many
    /// leading bytes were found equal. Heads that differ decide without reading the entry.
    #[inline(always)]
    pub(crate) fn cmp_from(&self, key: &Key, skip: usize) -> (Ordering, usize)
        requires { 0 < length self.now }
        ensures order { take skip (first_key self.now) ≡ take skip key.now → result.0 ≡ by_bytes (first_key self.now) key.now }
        ensures same { take skip (first_key self.now) ≡ take skip key.now → take result.1 (first_key self.now) ≡ take result.1 key.now }
    {
        let head = key.head();
        if self.head != head {
            return (self.head.cmp(&head), 0);
        }
        self.entries()[0].key().cmp_from(key, skip)
    }

    /// Clones the chunk; both then share the entries.
    pub(crate) fn share(&self) -> Result<Chunk<T>, NoMemory>
        ensures { IfOk result (λ r. r ≡ self.now) }
    {
        let entries = Arc::try_clone(&self.entries)?;
        Ok(Chunk {
            head: self.head,
            consumed: self.consumed,
            entries,
        })
    }

    /// Changes the entries, which are copied first if they are shared. If an allocation fails the change is returned.
    pub(crate) fn change<C: ChunkEdit<T>>(&mut self, change: C) -> Result<C::Answer, C>
        requires { C.fits change self.old }
        ensures done { IfOk result (λ a. C.does change self.old self.new a) }
        ensures err { OnErr result (self.new ≡ self.old) }
        ensures back { IfErr result (λ c. c ≡ change) }
    {
        if own(&mut self.entries, self.consumed).is_err() {
            return Err(change);
        }
        self.consumed = 0;
        match Arc::get_mut(&mut self.entries) {
            None => Err(change),
            Some(entries) => {
                let answer = change.change(entries);
                self.head = first_head(self.entries.as_slice());
                Ok(answer)
            }
        }
    }

    /// Drops the first entries. It allocates nothing.
    pub(crate) fn drop_front(&mut self, count: usize)
        requires { count ≤ length self.old }
        ensures { self.new ≡ drop count self.old }
    {
        self.consumed = drop_consumed(&mut self.entries, self.consumed + count);
        self.head = first_head(&self.entries.as_slice()[self.consumed..]);
    }
}

/// The head of the first entry's key; 0 if there are no entries.
#[inline(always)]
fn first_head<T: CopyValue>(entries: &[SharedEntry<T>]) -> u64
    ensures { BeginsHeaded result entries.now }
{
    match entries.first() {
        None => 0,
        Some(item) => item.head(),
    }
}

/// Drops the first entries if the vector is not shared. It returns how many are still to be skipped.
fn drop_consumed<T: CopyValue>(entries: &mut Arc<Vec<SharedEntry<T>>>, consumed: usize) -> usize
    requires { consumed ≤ length entries.old.value.items }
    ensures same { drop result entries.new.value.items ≡ drop consumed entries.old.value.items }
    ensures bound { result ≤ length entries.new.value.items }
{
    match Arc::get_mut(entries) {
        Some(own) => {
            drop_first(own, consumed);
            0
        }
        None => consumed,
    }
}

/// Replaces a shared vector by an own copy, without the first entries, which are consumed.
fn own<T: CopyValue>(
    entries: &mut Arc<Vec<SharedEntry<T>>>,
    consumed: usize,
) -> Result<(), NoMemory>
    requires { consumed ≤ length entries.old.value.items }
    ensures ok { OnOk result (entries.new.value.items ≡ drop consumed entries.old.value.items) }
    ensures err { OnErr result (entries.new.value.items ≡ entries.old.value.items) }
{
    if let Some(own) = Arc::get_mut(entries) {
        drop_first(own, consumed);
        return Ok(());
    }
    let alloc = *entries.allocator();
    let shared = share_items(alloc, &entries.as_slice()[consumed..])?;
    *entries = Arc::new(alloc, shared)?;
    Ok(())
}

/// Removes the first entries.
fn drop_first<T: CopyValue>(entries: &mut Vec<SharedEntry<T>>, count: usize)
    requires { count ≤ length entries.old.items }
    ensures { entries.new.items ≡ drop count entries.old.items }
{
    if count > 0 {
        entries.drain(..count);
    }
}

/// A copy of the vector; both then share the entries.
pub(crate) fn share_items<T: CopyValue>(
    alloc: Global,
    items: &[SharedEntry<T>],
) -> Result<Vec<SharedEntry<T>>, NoMemory>
    ensures { IfOk result (λ shared. shared.items ≡ items.now) }
{
    let mut shared = Vec::with_capacity(alloc, items.len())?;
    for item in items {
        shared.push(item.share()?)?;
    }
    Ok(shared)
}
