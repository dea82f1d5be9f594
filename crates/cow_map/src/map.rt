//! The map, as callers see it.
//!
//! A map has a list of chunks of its own, which a clone copies. [`CowMap::make_sharable`] puts the list where clones share it, so that
//! they take constant time, and the first change of either copies it.
//!
//! Invariant: that of its chunks (`chunks`), so the entries are sorted by key without duplicates.
ghost use Rattle.std.specs.Prelude.{◌≡◌, ◌+◌, ◌^◌, ◌<◌, ◌≤◌, ◌++◌, [], None, not, true, false, length, take, drop, OnOk, OnErr, IfOk, IfSome, IsSome};
ghost use Rattle.std.specs.Option.{option_copied, option_map};
ghost use Rattle.std.specs.List.{filter};
ghost use Rattle.pathkey.specs.Keys.{is_in};
ghost use Rattle.cow_map.specs.Places.{Rises, at_key, last_of, place, place_past, AreBefore, AreFrom};
ghost use Rattle.cow_map.specs.CowMap.{joined, behind, kept, AreRows, IsBehind};
ghost use Rattle.cow_map.specs.Changes.{IsPut, IsEdited};
ghost use Rattle.cow_map.specs.Moves.{IsFirstJoined, IsFirstMoved};

use crate::changes::{
    drop_among, edit_among, edit_or_share_among, move_first_among, put_among, put_shared_among,
};
use crate::chunk::Chunk;
use crate::chunks::{entries_in, has_none, share_rows, split_chunks_at};
use crate::cursor::Cursor;
use crate::edit::{Edit, Edited};
use crate::extract::extract_range;
use crate::neighbours::{
    last_before_among, last_by_among, last_in, value_among, walk_all, walk_from_among,
    walk_past_among,
};
use crate::shared_rows::SharedRows;
use crate::stored::CopyValue;
use pathkey::{Key, KeyRange, NoMemory};
use std::alloc::Global;
use std::marker::Model;

/// The least number of chunks in a list that clones share.
const LONG: usize = 2;

/// A sorted map in shared chunks. Contracts see the list of its entries, sorted by key.
#[derive(Drop)]
pub struct CowMap<T> {
    /// The chunks, unless they are in `shared`.
    rows: Vec<Chunk<T>>,
    /// The chunks, if clones share their list.
    shared: Option<SharedRows<T>>,
}

impl<T> Model for CowMap<T> {
    ghost use Rattle.std.specs.Prelude.{List, ℕ};

    ghost Value = { List (List ℕ × T) };

    ghost use Rattle.cow_map.specs.CowMap.{joined, kept, AreRows};

    ghost view = { λ r. joined (kept r.rows.items r.shared) };

    ghost invariant = { λ r. AreRows (kept r.rows.items r.shared) };
}

impl<T: CopyValue> CowMap<T> {
    /// An empty map. It allocates nothing.
    pub fn new(alloc: Global) -> CowMap<T>
        ensures { result ≡ [] }
    {
        CowMap {
            rows: Vec::new(alloc),
            shared: None,
        }
    }

    /// Its chunks, and how many entries of the first are dropped.
    #[inline(always)]
    fn chunks(&self) -> (&[Chunk<T>], usize)
        ensures rows { AreRows result.0.now }
        ensures left { IsBehind result.1 result.0.now }
        ensures entries { joined (behind result.1 result.0.now) ≡ self.now }
    {
        match &self.shared {
            None => (self.rows.as_slice(), 0),
            Some(shared) => shared.parts(),
        }
    }

    /// Whether a clone shares the list of chunks, which the next change then copies. No claim depends on it.
    #[inline(always)]
    pub fn is_shared(&self) -> bool {
        match &self.shared {
            None => false,
            Some(shared) => shared.is_shared(),
        }
    }

    /// Brings the invariant, that the entries are sorted by key, into a proof. It does nothing at run time.
    pub fn assert_invariant(&self)
        ensures { Rises self.now }
    {
        let _ = self.rows.len();
    }

    /// Whether the map is empty.
    pub fn is_empty(&self) -> bool
        ensures yes { result ≡ true → self.now ≡ [] }
        ensures no { result ≡ false → 0 < length self.now }
    {
        let (rows, left) = self.chunks();
        has_none(rows, left)
    }

    /// The number of entries, if it is known to fit in a `usize`. It visits each chunk.
    pub fn len(&self) -> usize
        requires { length self.now < 2 ^ 64 }
        ensures { result ≡ length self.now }
    {
        let (rows, left) = self.chunks();
        entries_in(rows, left)
    }

    /// The value at the key.
    pub fn get(&self, key: &Key) -> Option<&T>
        ensures { option_copied result ≡ at_key key.now self.now }
    {
        let (rows, left) = self.chunks();
        value_among(rows, left, key)
    }

    /// Puts a value at the key, and returns the previous one. If an allocation fails the key and the value are returned, and
    /// the map is unchanged.
    #[inline(always)]
    pub fn put(&mut self, key: Key, value: T) -> Result<Option<T>, (Key, T)>
        ensures { IsPut key value self.old self.new result }
    {
        let Ok(()) = own(&mut self.rows, &mut self.shared) else {
            return Err((key, value));
        };
        put_among(&mut self.rows, key, value)
    }

    /// Edits the value at the key in place.
    #[inline(always)]
    pub fn edit<E: Edit<T>>(&mut self, key: &Key, edit: E) -> Edited<E::Answer, E>
        ensures { IsEdited (E.does edit) key.now edit self.old self.new result }
    {
        let Ok(()) = own(&mut self.rows, &mut self.shared) else {
            return Edited::Refused(edit);
        };
        edit_among(&mut self.rows, key, edit)
    }

    /// All entries, in key order.
    pub fn cursor(&self) -> Cursor<'_, T>
        ensures { result ≡ self.now }
    {
        let (rows, left) = self.chunks();
        walk_all(rows, left)
    }

    /// The entries at or after the key.
    pub fn lower_bound(&self, key: &Key) -> Cursor<'_, T>
        ensures { result ≡ drop (place key.now self.now) self.now }
    {
        let (rows, left) = self.chunks();
        walk_from_among(rows, left, key)
    }

    /// The entries after the key.
    pub fn upper_bound(&self, key: &Key) -> Cursor<'_, T>
        ensures { result ≡ drop (place_past key.now self.now) self.now }
    {
        let (rows, left) = self.chunks();
        walk_past_among(rows, left, key)
    }

    /// The last entry.
    pub fn last(&self) -> Option<(&Key, &T)>
        ensures { option_map (λ p. (p.0.now, p.1.now)) result ≡ last_of self.now }
    {
        let (rows, left) = self.chunks();
        last_in(rows, left)
    }

    /// The last entry before the key.
    pub fn last_before(&self, key: &Key) -> Option<(&Key, &T)>
        ensures { option_map (λ p. (p.0.now, p.1.now)) result ≡ last_of (take (place key.now self.now) self.now) }
    {
        let (rows, left) = self.chunks();
        last_before_among(rows, left, key)
    }

    /// The last entry at or before the key.
    pub fn last_at_or_before(&self, key: &Key) -> Option<(&Key, &T)>
        ensures { option_map (λ p. (p.0.now, p.1.now)) result ≡ last_of (take (place_past key.now self.now) self.now) }
    {
        let (rows, left) = self.chunks();
        last_by_among(rows, left, key)
    }

    /// Splits off the entries at or after the key. If an allocation fails the map is unchanged.
    pub fn split_off(&mut self, key: &Key) -> Result<CowMap<T>, NoMemory>
        ensures parts { IfOk result (λ back. self.old ≡ self.new ++ back) }
        ensures front { OnOk result (AreBefore key.now self.new) }
        ensures back { IfOk result (λ back. AreFrom key.now back) }
        ensures err { OnErr result (self.new ≡ self.old) }
    {
        own(&mut self.rows, &mut self.shared)?;
        let rows = split_chunks_at(&mut self.rows, key)?;
        Ok(CowMap { rows, shared: None })
    }

    /// Extracts the entries in the range. If an allocation fails the map is unchanged.
    pub fn extract_range(&mut self, range: &KeyRange) -> Result<CowMap<T>, NoMemory>
        ensures kept { OnOk result (self.new ≡ filter (λ e. not (is_in range.now e.0)) self.old) }
        ensures taken { IfOk result (λ out. out ≡ filter (λ e. is_in range.now e.0) self.old) }
        ensures err { OnErr result (self.new ≡ self.old) }
    {
        own(&mut self.rows, &mut self.shared)?;
        let rows = extract_range(&mut self.rows, range)?;
        Ok(CowMap { rows, shared: None })
    }

    /// Moves all entries of another map, whose keys are all greater, to the end of this one. If an allocation fails both maps
    /// are unchanged.
    pub fn append(&mut self, later: &mut CowMap<T>) -> Result<(), NoMemory>
        requires { Rises (self.old ++ later.old) }
        ensures entries { OnOk result (self.new ≡ self.old ++ later.old) }
        ensures moved { OnOk result (later.new ≡ []) }
        ensures err { OnErr result (self.new ≡ self.old) }
        ensures kept { OnErr result (later.new ≡ later.old) }
    {
        own(&mut self.rows, &mut self.shared)?;
        own(&mut later.rows, &mut later.shared)?;
        self.rows.append(&mut later.rows)?;
        Ok(())
    }

    /// Drops the first entries. It needs no memory: if a clone shares the list of chunks, that is copied if memory is there, and
    /// otherwise the entries are skipped.
    pub fn drop_front(&mut self, count: usize)
        requires { count ≤ length self.old }
        ensures { self.new ≡ drop count self.old }
    {
        match own(&mut self.rows, &mut self.shared) {
            Ok(()) => drop_among(&mut self.rows, count),
            Err(NoMemory) => drop_shared(&mut self.shared, count),
        }
    }

    /// Moves the first entry of another map into this one, and returns the previous value at its key, cloned if its entry is
    /// shared. If an allocation fails both maps are unchanged.
    pub fn move_first_from(&mut self, from: &mut CowMap<T>) -> Result<Option<T>, NoMemory>
        requires { 0 < length from.old }
        ensures moved { IfOk result (λ was. IsFirstMoved was from.old self.old from.new self.new) }
        ensures err { OnErr result (self.new ≡ self.old) }
        ensures kept { OnErr result (from.new ≡ from.old) }
    {
        own(&mut self.rows, &mut self.shared)?;
        own(&mut from.rows, &mut from.shared)?;
        move_first_among(&mut self.rows, &mut from.rows)
    }

    /// Puts the next entry of a cursor of another map at its place, and returns the previous value at its key, cloned if its entry
    /// is shared. Both maps then share the entry. If an allocation fails this map is unchanged.
    pub fn share_first_of(&mut self, walk: &Cursor<'_, T>) -> Result<Option<T>, NoMemory>
        requires { 0 < length walk.now }
        ensures shared { IfOk result (λ was. IsFirstMoved was walk.now self.old (drop 1 walk.now) self.new) }
        ensures err { OnErr result (self.new ≡ self.old) }
    {
        own(&mut self.rows, &mut self.shared)?;
        let Some(item) = walk.first() else {
            unreachable!()
        };
        put_shared_among(&mut self.rows, item)
    }

    /// Edits the value at the key of the next entry of a cursor of another map in place, or puts that entry, which both maps then
    /// share, if the key is absent. It returns the edit's answer, if there was one. If an allocation fails this map is unchanged.
    pub fn edit_or_share_first_of<E: Edit<T>>(
        &mut self,
        walk: &Cursor<'_, T>,
        edit: E,
    ) -> Result<Option<E::Answer>, NoMemory>
        requires { 0 < length walk.now }
        ensures joined { IfOk result (λ answer. IsFirstJoined (E.does edit) answer walk.now self.old (drop 1 walk.now) self.new) }
        ensures err { OnErr result (self.new ≡ self.old) }
    {
        own(&mut self.rows, &mut self.shared)?;
        let Some(item) = walk.first() else {
            unreachable!()
        };
        edit_or_share_among(&mut self.rows, item, edit)
    }

    /// Puts the list of chunks where clones share it, unless it is short or an allocation fails: then the next clones take constant
    /// time, and the next change of the map copies the list if a clone still has it.
    pub fn make_sharable(&mut self)
        ensures { self.new ≡ self.old }
    {
        if self.shared.is_some() || self.rows.len() < LONG {
            return;
        }
        let alloc = *self.rows.allocator();
        match SharedRows::of(alloc, std::mem::replace(&mut self.rows, Vec::new(alloc))) {
            Ok(all) => self.shared = Some(all),
            Err(all) => self.rows = all,
        }
    }

    /// Clones the map; both then share the entries.
    pub fn share(&self) -> Result<CowMap<T>, NoMemory>
        ensures { IfOk result (λ shared. shared ≡ self.now) }
    {
        let alloc = *self.rows.allocator();
        match &self.shared {
            None => Ok(CowMap {
                rows: share_rows(self.rows.as_slice(), alloc)?,
                shared: None,
            }),
            Some(shared) => Ok(CowMap {
                rows: Vec::new(alloc),
                shared: Some(shared.share()?),
            }),
        }
    }
}

/// Makes the chunks of a map those in `rows`, without another owner. If an allocation fails the entries stay where they are.
#[inline(always)]
fn own<T: CopyValue>(
    rows: &mut Vec<Chunk<T>>,
    shared: &mut Option<SharedRows<T>>,
) -> Result<(), NoMemory>
    requires { AreRows (kept rows.old.items shared.old) }
    ensures own { OnOk result (shared.new ≡ None) }
    ensures shared { OnErr result (IsSome shared.new) }
    ensures rows { AreRows (kept rows.new.items shared.new) }
    ensures same { joined (kept rows.new.items shared.new) ≡ joined (kept rows.old.items shared.old) }
{
    if shared.is_none() {
        return Ok(());
    }
    take_back(rows, shared)
}

/// The same, where clones may share the list: most changes do not come here.
#[inline(never)]
fn take_back<T: CopyValue>(
    rows: &mut Vec<Chunk<T>>,
    shared: &mut Option<SharedRows<T>>,
) -> Result<(), NoMemory>
    requires { AreRows (kept rows.old.items shared.old) }
    ensures own { OnOk result (shared.new ≡ None) }
    ensures shared { OnErr result (IsSome shared.new) }
    ensures rows { AreRows (kept rows.new.items shared.new) }
    ensures same { joined (kept rows.new.items shared.new) ≡ joined (kept rows.old.items shared.old) }
{
    let Some(all) = shared.take() else {
        return Ok(());
    };
    match all.into_own(*rows.allocator()) {
        Ok(own) => {
            *rows = own;
            Ok(())
        }
        Err(all) => {
            *shared = Some(all);
            Err(NoMemory)
        }
    }
}

/// Drops the first entries of a shared list.
fn drop_shared<T: CopyValue>(shared: &mut Option<SharedRows<T>>, count: usize)
    requires there { IsSome shared.old }
    requires count { IfSome shared.old (λ rs. count ≤ length (joined rs)) }
    ensures there { IsSome shared.new }
    ensures rows { IfSome shared.new AreRows }
    ensures entries { IfSome shared.old (λ rs. IfSome shared.new (λ ss. joined ss ≡ drop count (joined rs))) }
{
    match shared {
        // Does not occur.
        None => (),
        Some(shared) => shared.drop_front(count),
    }
}
