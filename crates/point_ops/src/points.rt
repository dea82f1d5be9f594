//! The point messages of a slot: a map from each key to its operations, and the number of all operations.
//!
//! Invariant: the keys are in ascending order, each has at least one operation, and `count` is the number of operations of all
//! keys, at most 2^62. A call that fails to allocate leaves everything unchanged.
ghost use Rattle.std.specs.Prelude.{◌≡◌, ◌+◌, ◌≤◌, ◌<◌, ◌^◌, ◌++◌, ◌∷◌, [], not, true, false, None, length, drop, take, IfOk, IfErr, OnOk, OnErr, IfSome, IfNone};
ghost use Rattle.std.specs.BTreeMap.{insert_entry};
ghost use Rattle.std.specs.List.{filter, list_any, slice_get};
ghost use Rattle.std.specs.Option.{option_copied, option_map};
ghost use Rattle.pathkey.specs.Keys.{is_in};
ghost use Rattle.pathkey.specs.Order.{by_bytes};
ghost use Rattle.cow_map.specs.Places.{Rises, at_key, place, AreBefore, AreFrom};
ghost use Rattle.point_ops.specs.Changes.{Put, Del, Edit};
ghost use Rattle.point_ops.specs.PointOps.{left, point_count, point_msgs, first_from, last_below, AreRuns, IsLeft, AddsFirst, Inserts, JoinsAt, TakesFirst};

use crate::counts::{copy_msgs, count_of, whole_keys};
use crate::edits_in_place::{JoinOp, PushOp};
use crate::join_reply::JoinReply;
use crate::key_ops::KeyOps;
use crate::one_key::{len_of, move_first, share_first, shorten_first};
use cow_map::{CowMap, Cursor, Edited};
use message::ends::is_before_end;
use message::{Msg, Update, UpdateTarget};
use pathkey::{Key, KeyRange, NoMemory};
use std::alloc::Global;
use std::marker::Model;

/// The pending messages at single keys, grouped by key. Contracts see the keys in ascending order, each with its pending
/// operations.
#[derive(Drop)]
pub struct PointOps<U: UpdateTarget> {
    rows: CowMap<KeyOps<U>>,
    count: usize,
}

impl<U: UpdateTarget> Model for PointOps<U> {
    ghost use Rattle.std.specs.Prelude.{List, ℕ};
    ghost use Rattle.point_ops.specs.Changes.{KeyOp};

    ghost Value = { List (List ℕ × List (KeyOp U U.Value)) };

    ghost use Rattle.point_ops.specs.PointOps.{ArePoints};

    ghost view = { λ p. p.rows };

    ghost invariant = { λ p. ArePoints p.rows p.count };
}

// ---- queries

impl<U: Update> PointOps<U> {
    /// An empty list. It allocates no memory.
    pub fn new(alloc: Global) -> PointOps<U>
        ensures { result ≡ [] }
    {
        PointOps {
            rows: CowMap::new(alloc),
            count: 0,
        }
    }

    /// Asserts that the keys are in ascending order, that each has a pending operation, and that the total is within its bound.
    /// It does nothing at run time.
    pub fn assert_invariant(&self)
        ensures rises { Rises self.now }
        ensures runs { AreRuns self.now }
        ensures small { point_count self.now ≤ 2 ^ 62 }
    {
        self.rows.assert_invariant();
    }

    /// How many messages there are.
    pub fn len(&self) -> usize
        ensures len { result ≡ point_count self.now }
        ensures small { result ≤ 2 ^ 62 }
    {
        self.count
    }

    /// Whether a copy shares the list of chunks, which the next change then copies. No claim depends on it.
    #[inline(always)]
    pub fn is_shared(&self) -> bool {
        self.rows.is_shared()
    }

    /// The first key and its pending operations.
    pub fn first(&self) -> Option<(&Key, &KeyOps<U>)>
        ensures { option_map (λ p. (p.0.now, p.1.now)) result ≡ slice_get self.now 0 }
    {
        self.rows.cursor().peek()
    }

    /// The pending operations of the key.
    pub fn run_at(&self, key: &Key) -> Option<&KeyOps<U>>
        ensures { option_copied result ≡ at_key key.now self.now }
    {
        self.rows.get(key)
    }

    /// A cursor over the pending operations of all keys.
    pub fn walk(&self) -> Cursor<'_, KeyOps<U>>
        ensures list { result ≡ self.now }
        ensures rises { Rises self.now }
    {
        let rows = &self.rows;
        rows.assert_invariant();
        rows.cursor()
    }

    /// A cursor over the pending operations of the key and of the keys after it.
    pub fn walk_from(&self, key: &Key) -> Cursor<'_, KeyOps<U>>
        ensures { result ≡ drop (place key.now self.now) self.now }
    {
        self.rows.lower_bound(key)
    }

    /// The first key with messages, at or after `key`.
    pub fn first_from(&self, key: &Key) -> Option<&Key>
        ensures { option_copied result ≡ first_from key.now self.now }
    {
        key_of(self.rows.lower_bound(key).peek())
    }

    /// The last key with messages before `end`; `None` means no upper bound.
    pub fn last_before(&self, end: Option<&Key>) -> Option<&Key>
        ensures { option_copied result ≡ last_below (option_copied end.entry) self.now }
    {
        self.rows.assert_invariant();
        match end {
            None => key_of(self.rows.last()),
            Some(end) => key_of(self.rows.last_before(end)),
        }
    }

    /// Whether there is a key with messages from `lo` up to, but excluding, `hi`; `None` means no upper bound.
    pub fn has_within(&self, lo: &Key, hi: Option<&Key>) -> bool
        ensures { result ≡ list_any (λ e. is_in (record { lo = lo.now; hi = option_copied hi.entry }) e.0) self.now }
    {
        self.rows.assert_invariant();
        match self.first_from(lo) {
            None => false,
            Some(next) => is_before_end(next, hi),
        }
    }

    /// Whether no key is less than `lo`.
    pub fn begin_from(&self, lo: &Key) -> bool
        ensures yes { result ≡ true → AreFrom lo.now self.now }
        ensures no { result ≡ false → AreFrom lo.now self.now → ⊥ }
    {
        self.rows.assert_invariant();
        match self.rows.cursor().peek() {
            None => true,
            Some((first, _)) => lo.cmp(first).is_le(),
        }
    }

    /// Whether every key is less than the pivot.
    pub fn end_before(&self, pivot: &Key) -> bool
        ensures yes { result ≡ true → AreBefore pivot.now self.now }
        ensures no { result ≡ false → AreBefore pivot.now self.now → ⊥ }
    {
        self.rows.assert_invariant();
        match self.rows.last() {
            None => true,
            Some((last, _)) => last.cmp(pivot).is_lt(),
        }
    }

    /// Appends copies of the messages, without the `consumed` oldest of the first key, to `front` until it holds `count`
    /// messages.
    pub fn copy_into(
        &self,
        alloc: Global,
        consumed: usize,
        count: usize,
        front: &mut Vec<Msg<U>>,
    ) -> Result<(), NoMemory>
        requires { IsLeft consumed self.now }
        ensures { OnOk result (take count front.new.items ≡ take count (front.old.items ++ point_msgs (left consumed self.now))) }
    {
        copy_msgs(&self.rows, alloc, consumed, count, front)
    }

    /// Puts the list of chunks where copies share it, as [`CowMap::make_sharable`] does.
    pub fn make_sharable(&mut self)
        ensures { self.new ≡ self.old }
    {
        self.rows.make_sharable();
    }

    /// A copy that shares its messages with this list.
    pub fn copy(&self) -> Result<PointOps<U>, NoMemory>
        ensures { IfOk result (λ p. p ≡ self.now) }
    {
        let rows = self.rows.share()?;
        Ok(PointOps {
            rows,
            count: self.count,
        })
    }

    // ---- insertion

    /// Inserts a put, which replaces the pending operations of the key. On allocation failure it is returned as the error, and
    /// everything is unchanged.
    #[inline(always)]
    pub fn put(&mut self, key: Key, value: U::Value) -> Result<(), (Key, U::Value)>
        requires { point_count self.old < 2 ^ 62 }
        ensures entries { OnOk result (self.new ≡ insert_entry by_bytes self.old key (Put value ∷ [])) }
        ensures inserts { OnOk result (Inserts U.means key (λ o. Some value) self.old self.new) }
        ensures bound { OnOk result (point_count self.new ≤ point_count self.old + 1) }
        ensures unchanged { OnErr result (self.new ≡ self.old) }
        ensures back { IfErr result (λ p. p ≡ (key, value)) }
    {
        match self.overwrite(key, KeyOps::put(value)) {
            Ok(()) => Ok(()),
            Err((key, run)) => Err((key, run.into_value())),
        }
    }

    /// Inserts a delete, in the same way.
    #[inline(always)]
    pub fn del(&mut self, key: Key) -> Result<(), Key>
        requires { point_count self.old < 2 ^ 62 }
        ensures entries { OnOk result (self.new ≡ insert_entry by_bytes self.old key (Del ∷ [])) }
        ensures inserts { OnOk result (Inserts U.means key (λ o. None) self.old self.new) }
        ensures bound { OnOk result (point_count self.new ≤ point_count self.old + 1) }
        ensures unchanged { OnErr result (self.new ≡ self.old) }
        ensures back { IfErr result (λ k. k ≡ key) }
    {
        match self.overwrite(key, KeyOps::del()) {
            Ok(()) => Ok(()),
            Err((key, _)) => Err(key),
        }
    }

    /// Appends an update to the pending operations of the key. On allocation failure it is returned as the error, and
    /// everything is unchanged.
    #[inline(always)]
    pub fn edit(&mut self, alloc: Global, key: Key, update: U) -> Result<(), (Key, U)>
        requires { point_count self.old < 2 ^ 62 }
        ensures inserts { OnOk result (Inserts U.means key (U.means update) self.old self.new) }
        ensures bound { OnOk result (point_count self.new ≤ point_count self.old + 1) }
        ensures unchanged { OnErr result (self.new ≡ self.old) }
        ensures back { IfErr result (λ p. p ≡ (key, update)) }
    {
        self.rows.assert_invariant();
        match self.rows.edit(&key, PushOp { alloc, update }) {
            Edited::Done(Ok((before, after))) => {
                self.count = self.count - before + after;
                Ok(())
            }
            Edited::Done(Err(update)) => Err((key, update)),
            Edited::Refused(edit) => Err((key, edit.update)),
            Edited::Absent(edit) => self.edit_absent(key, edit.update),
        }
    }

    /// Inserts an update at a key that has no pending operation. On allocation failure it is returned as the error, and everything is
    /// unchanged.
    #[inline(always)]
    pub fn edit_absent(&mut self, key: Key, update: U) -> Result<(), (Key, U)>
        requires room { point_count self.old < 2 ^ 62 }
        requires absent { at_key key self.old ≡ None }
        ensures entries { OnOk result (self.new ≡ insert_entry by_bytes self.old key (Edit update ∷ [])) }
        ensures inserts { OnOk result (Inserts U.means key (U.means update) self.old self.new) }
        ensures bound { OnOk result (point_count self.new ≤ point_count self.old + 1) }
        ensures unchanged { OnErr result (self.new ≡ self.old) }
        ensures back { IfErr result (λ p. p ≡ (key, update)) }
    {
        match self.overwrite(key, KeyOps::of_edit(update)) {
            Ok(()) => Ok(()),
            Err((key, run)) => Err((key, run.into_update())),
        }
    }

    /// Joins an update, in place, to the only operation of the key. If it does not, everything is unchanged.
    #[inline(always)]
    pub fn join(&mut self, alloc: Global, key: &Key, update: &U) -> JoinReply
        ensures { JoinsAt U.means result key.now update.now self.old self.new }
    {
        self.rows.assert_invariant();
        match self.rows.edit(key, JoinOp { alloc, update }) {
            Edited::Done(true) => JoinReply::Joined,
            Edited::Done(false) => JoinReply::Apart,
            Edited::Refused(_) => JoinReply::Apart,
            Edited::Absent(_) => JoinReply::NoKey,
        }
    }

    /// Replaces the pending operations of the key by a single one.
    fn overwrite(&mut self, key: Key, run: KeyOps<U>) -> Result<(), (Key, KeyOps<U>)>
        requires room { point_count self.old < 2 ^ 62 }
        requires one { length run ≡ 1 }
        ensures entries { OnOk result (self.new ≡ insert_entry by_bytes self.old key run) }
        ensures bound { OnOk result (point_count self.new ≤ point_count self.old + 1) }
        ensures unchanged { OnErr result (self.new ≡ self.old) }
        ensures back { IfErr result (λ p. p ≡ (key, run)) }
    {
        self.rows.assert_invariant();
        let replaced = self.rows.put(key, run)?;
        self.count = self.count + 1 - len_of(&replaced);
        Ok(())
    }

    /// Moves the operations of the first key of `from`, which are newer than all messages here, into this list, and returns how
    /// many it moved. It moves nothing if `from` is empty, if the key has more than `most` operations, if updates would have to
    /// be applied to pending operations here, or on allocation failure.
    pub fn take_first(&mut self, from: &mut PointOps<U>, most: usize) -> Option<usize>
        requires { point_count self.old + most ≤ 2 ^ 62 }
        ensures moved { IfSome result (λ n. TakesFirst U.means n most from.old self.old from.new self.new) }
        ensures none { IfNone result ((self.new ≡ self.old) × (from.new ≡ from.old)) }
    {
        let (came, replaced) = move_first(&mut self.rows, &mut from.rows, most)?;
        self.count = self.count + came - replaced;
        from.count -= came;
        Some(came)
    }

    /// Adds the operations of the next key of a cursor of another list, which are newer than all messages here, and returns how many.
    /// Both lists then share them, or a copy of an only update is appended to the operations here. It adds none if the cursor is at its
    /// end, if the key has more than `most` operations or several updates that are to follow others here, or on allocation failure.
    pub fn share_first_of(
        &mut self,
        alloc: Global,
        walk: &Cursor<'_, KeyOps<U>>,
        most: usize,
    ) -> Option<usize>
        requires { point_count self.old + most ≤ 2 ^ 62 }
        ensures added { IfSome result (λ n. AddsFirst U.means n most walk.now self.old (drop 1 walk.now) self.new) }
        ensures none { IfNone result (self.new ≡ self.old) }
    {
        let (_, newer) = walk.peek()?;
        let came = newer.len();
        if came > most {
            return None;
        }
        let (before, after) = share_first(&mut self.rows, alloc, walk, newer)?;
        self.count += after;
        self.count -= before;
        Some(came)
    }

    // ---- removal

    /// Removes the pending operations of the keys in a range. On allocation failure everything is unchanged.
    pub fn clear(&mut self, range: &KeyRange) -> Result<(), NoMemory>
        ensures ok { OnOk result (self.new ≡ filter (λ e. not (is_in range.now e.0)) self.old) }
        ensures bound { point_count self.new ≤ point_count self.old }
        ensures err { OnErr result (self.new ≡ self.old) }
    {
        if !self.has_within(&range.lo, range.hi.as_ref()) {
            return Ok(());
        }
        let out = self.rows.extract_range(range)?;
        self.count -= count_of(&out);
        Ok(())
    }

    /// Removes the `count` oldest messages as far as they make up all operations of a key, and returns how many are still to be
    /// removed from the first remaining key. It needs no memory.
    pub fn drop_oldest(&mut self, count: usize) -> usize
        requires { count ≤ point_count self.old }
        ensures same { point_msgs (left result self.new) ≡ drop count (point_msgs self.old) }
        ensures left { IsLeft result self.new }
        ensures bound { point_count self.new ≤ point_count self.old }
    {
        let (keys, left) = whole_keys(&self.rows, count);
        self.rows.drop_front(keys);
        self.count -= count - left;
        left
    }

    /// Removes the `consumed` oldest messages of the first key. On allocation failure everything is unchanged.
    pub fn make_whole(&mut self, alloc: Global, consumed: usize) -> Result<(), NoMemory>
        requires { IsLeft consumed self.old }
        ensures ok { OnOk result (self.new ≡ left consumed self.old) }
        ensures err { OnErr result (self.new ≡ self.old) }
    {
        shorten_first(&mut self.rows, alloc, consumed)?;
        self.count -= consumed;
        Ok(())
    }

    /// Moves the messages at the pivot and after it into a new list. On allocation failure everything is unchanged.
    pub fn split_off(&mut self, pivot: &Key) -> Result<PointOps<U>, NoMemory>
        ensures parts { IfOk result (λ back. self.old ≡ self.new ++ back) }
        ensures front { OnOk result (AreBefore pivot.now self.new) }
        ensures back { IfOk result (λ back. AreFrom pivot.now back) }
        ensures err { OnErr result (self.new ≡ self.old) }
    {
        let rows = self.rows.split_off(pivot)?;
        let count = count_of(&rows);
        self.count -= count;
        Ok(PointOps { rows, count })
    }

    /// Merges both lists; all keys of the newer one must be greater than those of this one.
    pub fn merged(self, newer: PointOps<U>) -> Result<PointOps<U>, NoMemory>
        requires rises { Rises self → Rises newer → Rises (self ++ newer) }
        requires small { point_count self + point_count newer ≤ 2 ^ 62 }
        ensures { IfOk result (λ p. p ≡ self ++ newer) }
    {
        let mut rows = self.rows;
        let mut later = newer.rows;
        rows.assert_invariant();
        later.assert_invariant();
        rows.append(&mut later)?;
        Ok(PointOps {
            rows,
            count: self.count + newer.count,
        })
    }
}

/// The key of the entry, if there is one.
fn key_of<'a, T>(entry: Option<(&'a Key, &'a T)>) -> Option<&'a Key>
    ensures { option_copied result ≡ option_map (λ p. p.0.now) entry.entry }
{
    match entry {
        None => None,
        Some((key, _)) => Some(key),
    }
}
