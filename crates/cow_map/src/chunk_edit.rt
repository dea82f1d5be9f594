//! Changes of the entries of one chunk, once it is not shared.
//!
//! Each change says what it applies to and what the entries are afterwards. If an allocation fails, the entries are unchanged, and
//! what the change was to add and owns is returned.
ghost use Rattle.std.specs.Prelude.{◌≡◌, ◌<◌, ◌≤◌, ◌+◌, ◌++◌, ℕ, List, Result, length, vec_len, vec_capacity, ⊤};
ghost use Rattle.std.specs.List.{insert};
ghost use Rattle.cow_map.specs.Places.{Rises, IsHolder};
ghost use Rattle.cow_map.specs.Changes.{IsPut, IsCutBetween, IsCutOff, IsEdited, IsEditedOrPut, IsJoined, AreTaken};

use crate::chunk::{Chunk, share_items};
use crate::edit::{Edit, Edited};
use crate::search::find;
use crate::shared_entry::SharedEntry;
use crate::stored::CopyValue;
use pathkey::{Key, NoMemory};
use std::sync::Arc;

/// A change of the entries of one chunk.
pub(crate) trait ChunkEdit<T> {
    /// The result.
    type Answer;

    /// The entries that it applies to.
    ghost fits: { Self → List (List ℕ × T) → Type 0 };

    /// The entries afterwards, and the result.
    ghost does: { Self → List (List ℕ × T) → List (List ℕ × T) → Self.Answer → Type 0 };

    /// Applies the change.
    fn change(self, entries: &mut Vec<SharedEntry<T>>) -> Self::Answer
        requires { fits self entries.old.items }
        ensures { does self entries.old.items entries.new.items result };
}

/// Puts a value at a key. It returns the previous value, or the pair if an allocation fails.
#[derive(Drop)]
pub(crate) struct Put<T> {
    pub(crate) key: Key,
    pub(crate) value: T,
}

impl<T: CopyValue> ChunkEdit<T> for Put<T> {
    type Answer = Result<Option<T>, (Key, T)>;

    ghost fits = { λ p es. Rises es };

    ghost does = { λ p es fs r. IsPut p.key p.value es fs r };

    fn change(self, entries: &mut Vec<SharedEntry<T>>) -> Result<Option<T>, (Key, T)> {
        let Put { key, value } = self;
        match find(entries.as_slice(), &key) {
            Ok(i) => {
                let alloc = *entries.allocator();
                let item = &mut entries[i];
                match item.replace(alloc, value) {
                    Ok(old) => Ok(Some(old)),
                    Err(value) => Err((key, value)),
                }
            }
            Err(i) => {
                if entries.reserve(1).is_err() {
                    return Err((key, value));
                }
                let item = SharedEntry::new(*entries.allocator(), key, value)?;
                let Ok(()) = entries.insert(i, item) else {
                    unreachable!()
                };
                Ok(None)
            }
        }
    }
}

/// Puts an entry of another map at its key. It returns the previous value, or the entry if an allocation fails.
#[derive(Drop)]
pub(crate) struct PutEntry<T> {
    pub(crate) item: SharedEntry<T>,
}

impl<T: CopyValue> ChunkEdit<T> for PutEntry<T> {
    type Answer = Result<Option<T>, SharedEntry<T>>;

    ghost fits = { λ p es. Rises es };

    ghost does = { λ p es fs r. IsPut p.item.0 p.item.1 es fs r };

    fn change(self, entries: &mut Vec<SharedEntry<T>>) -> Result<Option<T>, SharedEntry<T>> {
        let PutEntry { item } = self;
        match find(entries.as_slice(), item.key()) {
            Ok(i) => swap_item(entries, i, item),
            Err(i) => match entries.insert(i, item) {
                Ok(()) => Ok(None),
                Err(refused) => Err(refused.value),
            },
        }
    }
}

/// Edits the value at a key. If there is none, or an allocation fails, the edit is returned.
#[derive(Drop)]
pub(crate) struct EditEntry<'a, E> {
    pub(crate) key: &'a Key,
    pub(crate) edit: E,
}

impl<'a, T: CopyValue, E: Edit<T>> ChunkEdit<T> for EditEntry<'a, E> {
    type Answer = Edited<E::Answer, E>;

    ghost fits = { λ s es. Rises es };

    ghost does = { λ s es fs r. IsEdited (E.does s.edit) s.key.now s.edit es fs r };

    fn change(self, entries: &mut Vec<SharedEntry<T>>) -> Edited<E::Answer, E> {
        let EditEntry { key, edit } = self;
        match find(entries.as_slice(), key) {
            Ok(i) => {
                let alloc = *entries.allocator();
                let item = &mut entries[i];
                match item.edit(alloc, edit) {
                    Ok(answer) => Edited::Done(answer),
                    Err(edit) => Edited::Refused(edit),
                }
            }
            Err(_) => Edited::Absent(edit),
        }
    }
}

/// Edits the value at the key of an entry of another map, or puts that entry, which both maps then share, if the key is absent. It
/// returns the edit's answer, if there was one.
#[derive(Drop)]
pub(crate) struct EditOrShare<'a, T, E> {
    pub(crate) item: &'a SharedEntry<T>,
    pub(crate) edit: E,
}

impl<'a, T: CopyValue, E: Edit<T>> ChunkEdit<T> for EditOrShare<'a, T, E> {
    type Answer = Result<Option<E::Answer>, NoMemory>;

    ghost fits = { λ s es. Rises es };

    ghost does = { λ s es fs r. IsEditedOrPut (E.does s.edit) s.item.now.0 s.item.now.1 es fs r };

    fn change(self, entries: &mut Vec<SharedEntry<T>>) -> Result<Option<E::Answer>, NoMemory> {
        let EditOrShare { item, edit } = self;
        match find(entries.as_slice(), item.key()) {
            Ok(i) => {
                let alloc = *entries.allocator();
                let held = &mut entries[i];
                match held.edit(alloc, edit) {
                    Ok(answer) => Ok(Some(answer)),
                    Err(_) => Err(NoMemory),
                }
            }
            Err(i) => {
                let item = item.share()?;
                match entries.insert(i, item) {
                    Ok(()) => Ok(None),
                    Err(_) => Err(NoMemory),
                }
            }
        }
    }
}

/// Moves the entries from this index on to a new chunk.
#[derive(Drop)]
pub(crate) struct SplitOff {
    pub(crate) at: usize,
}

impl<T: CopyValue> ChunkEdit<T> for SplitOff {
    type Answer = Result<Chunk<T>, NoMemory>;

    ghost fits = { λ s es. s.at ≤ length es };

    ghost does = { λ s es fs r. IsCutOff s.at es fs r };

    fn change(self, entries: &mut Vec<SharedEntry<T>>) -> Result<Chunk<T>, NoMemory> {
        let back = entries.split_off(self.at)?;
        match Arc::new(*entries.allocator(), back) {
            Ok(back) => Ok(Chunk::of(back)),
            Err(refused) => {
                put_back(entries, refused.value);
                Err(NoMemory)
            }
        }
    }
}

/// Moves the entries from one index up to another to a new chunk.
#[derive(Drop)]
pub(crate) struct ExtractBetween {
    pub(crate) from: usize,
    pub(crate) to: usize,
}

impl<T: CopyValue> ChunkEdit<T> for ExtractBetween {
    type Answer = Result<Chunk<T>, NoMemory>;

    ghost fits = { λ s es. (s.from ≤ s.to) × (s.to ≤ length es) };

    ghost does = { λ s es fs r. IsCutBetween s.from s.to es fs r };

    fn change(self, entries: &mut Vec<SharedEntry<T>>) -> Result<Chunk<T>, NoMemory> {
        let ExtractBetween { from, to } = self;
        let alloc = *entries.allocator();
        let out = share_items(alloc, &entries.as_slice()[from..to])?;
        let out = Arc::new(alloc, out)?;
        entries.drain(from..to);
        Ok(Chunk::of(out))
    }
}

/// Removes all entries.
#[derive(Drop)]
pub(crate) struct TakeAll;

impl<T: CopyValue> ChunkEdit<T> for TakeAll {
    type Answer = Vec<SharedEntry<T>>;

    ghost fits = { λ s es. ⊤ };

    ghost does = { λ s es fs r. AreTaken es fs r.items };

    fn change(self, entries: &mut Vec<SharedEntry<T>>) -> Vec<SharedEntry<T>> {
        let empty = Vec::new(*entries.allocator());
        std::mem::replace(entries, empty)
    }
}

/// Appends the entries of another chunk. If an allocation fails that chunk is returned.
#[derive(Drop)]
pub(crate) struct MergeChunk<T> {
    pub(crate) row: Chunk<T>,
}

impl<T: CopyValue> ChunkEdit<T> for MergeChunk<T> {
    type Answer = Result<(), Chunk<T>>;

    ghost fits = { λ s es. ⊤ };

    ghost does = { λ s es fs r. IsJoined s.row es fs r };

    fn change(self, entries: &mut Vec<SharedEntry<T>>) -> Result<(), Chunk<T>> {
        let mut row = self.row;
        if entries.reserve(row.entries().len()).is_err() {
            return Err(row);
        }
        match row.change(TakeAll) {
            Ok(later) => {
                put_back(entries, later);
                Ok(())
            }
            Err(_) => Err(row),
        }
    }
}

/// Replaces the entry at the same key, and returns the value of the old one. If an allocation fails the new entry is returned.
fn swap_item<T: CopyValue>(
    entries: &mut Vec<SharedEntry<T>>,
    i: usize,
    item: SharedEntry<T>,
) -> Result<Option<T>, SharedEntry<T>>
    requires { IsHolder item.0 entries.old.items i }
    ensures { IsPut item.0 item.1 entries.old.items entries.new.items result }
{
    let alloc = *entries.allocator();
    let old = std::mem::replace(&mut entries[i], item);
    match old.into_value(alloc) {
        Ok(value) => Ok(Some(value)),
        Err(old) => Err(std::mem::replace(&mut entries[i], old)),
    }
}

/// Appends entries, for which there is capacity.
fn put_back<T: CopyValue>(entries: &mut Vec<SharedEntry<T>>, back: Vec<SharedEntry<T>>)
    requires { vec_len entries.old + vec_len back ≤ vec_capacity entries.old }
    ensures { entries.new.items ≡ entries.old.items ++ back.items }
{
    let mut back = back;
    let Ok(()) = entries.append(&mut back) else {
        unreachable!()
    };
}
