//! The range set, as callers see it.
//!
//! Invariant (`AreRanges`): each range contains a key and ends before the next begins, and `count` is the number of ranges.
ghost use Rattle.std.specs.Prelude.{◌≡◌, ◌≢◌, ◌+◌, ◌≤◌, ◌<◌, ◌^◌, ◌++◌, List, ℕ, true, false, [], length, take, drop, Some, None, OnOk, OnErr, IfOk};
ghost use Rattle.std.specs.Option.{option_map, option_copied};
ghost use Rattle.std.specs.List.{slice_get};
ghost use Rattle.pathkey.specs.Keys.{is_below};
ghost use Rattle.message.specs.Cuts.{pieces, IsJoined, LieIn};
ghost use Rattle.message.specs.Stretches.{IsStretch};
ghost use Rattle.range_set.specs.Disjoint.{covered, range_msgs, AreApart, CoversMore, TakesFirst};
ghost use Rattle.range_set.specs.Ends.{spliced, EndBefore, FitsFirst, IsFree};

use crate::near::{is_covered, is_held, widened};
use crate::pivot::{merge, split};
use crate::replace_overlapped::{fits, replace_overlapped};
use crate::segment::segment_end;
use cow_map::CowMap;
use message::ends::{copy_end, ends_by, is_before_end};
use message::{Msg, Update};
use pathkey::{Key, KeyRange, NoMemory};
use std::alloc::Global;
use std::marker::Model;

/// A set of disjoint ranges: each low end with its high end; `None` is unbounded. Contracts see the list of them.
#[derive(Drop)]
pub struct RangeSet {
    rows: CowMap<Option<Key>>,
    count: usize,
}

impl Model for RangeSet {
    ghost use Rattle.std.specs.Prelude.{List, ℕ, Option};
    ghost use Rattle.range_set.specs.Disjoint.{AreRanges};

    ghost Value = { List (List ℕ × Option (List ℕ)) };

    ghost view = { λ r. r.rows };

    ghost invariant = { λ r. AreRanges r.rows r.count };
}

impl RangeSet {
    /// An empty set. It allocates nothing.
    pub fn new(alloc: Global) -> RangeSet
        ensures { result ≡ [] }
    {
        RangeSet {
            rows: CowMap::new(alloc),
            count: 0,
        }
    }

    /// Brings the invariant, that the ranges are disjoint, into a proof. It does nothing at run time.
    pub fn assert_invariant(&self)
        ensures { AreApart self.now }
    {
        let _ = &self.rows;
    }

    /// The number of ranges.
    pub fn len(&self) -> usize
        ensures { result ≡ length self.now }
    {
        self.count
    }

    /// The first range.
    pub fn first(&self) -> Option<(&Key, &Option<Key>)>
        ensures { option_map (λ p. (p.0.now, p.1.now)) result ≡ slice_get self.now 0 }
    {
        self.rows.cursor().peek()
    }

    /// Drops the first ranges. It needs no memory.
    pub fn drop_front(&mut self, count: usize)
        requires { count ≤ length self.old }
        ensures { self.new ≡ drop count self.old }
    {
        self.rows.drop_front(count);
        self.count -= count;
    }

    /// Whether one of the ranges contains the key.
    pub fn is_covered(&self, key: &Key) -> bool
        ensures { result ≡ covered self.now key.now }
    {
        if self.rows.is_empty() {
            return false;
        }
        is_covered(&self.rows, key)
    }

    /// The first key after `from` at which a range begins or ends, if it is before `end`; else `end`.
    pub fn segment_end<'a, U: Update>(&'a self, from: &Key, end: Option<&'a Key>) -> Option<&'a Key>
        requires { is_below from.now (option_copied end) ≡ true }
        ensures { IsStretch (range_msgs {U = U} {V = U.Value} self.now) from.now (option_copied end.entry) (option_copied result) }
    {
        segment_end::<U>(&self.rows, from, end)
    }

    /// Inserts a range: it replaces the ranges inside it and is merged with those that overlap its ends or touch it; nothing is
    /// inserted if another range contains it or it is empty. If an allocation fails the set is unchanged.
    pub fn insert(&mut self, alloc: Global, range: &KeyRange) -> Result<(), NoMemory>
        requires { length self.old < 2 ^ 63 }
        ensures covers { OnOk result (CoversMore range.now.lo range.now.hi self.old self.new) }
        ensures bound { OnOk result (length self.new ≤ length self.old + 1) }
        ensures err { OnErr result (self.new ≡ self.old) }
    {
        if !is_before_end(&range.lo, range.hi.as_ref()) {
            return Ok(());
        }
        self.insert_between(alloc, &range.lo, range.hi.as_ref())
    }

    /// Moves the first range of another set into this one. If it touches no range here, its entry is moved without a copy. If
    /// an allocation fails both sets are unchanged.
    pub fn take_first(&mut self, alloc: Global, from: &mut RangeSet) -> Result<(), NoMemory>
        requires some { from.old ≢ [] }
        requires few { length self.old < 2 ^ 63 }
        ensures taken { OnOk result (TakesFirst from.old from.new self.old self.new) }
        ensures err { OnErr result (self.new ≡ self.old) }
        ensures kept { OnErr result (from.new ≡ from.old) }
    {
        from.assert_invariant();
        let Some((lo, hi)) = from.first() else {
            unreachable!()
        };
        let hi = hi.as_ref();
        if fits(&self.rows, lo, hi) {
            return self.move_first(from);
        }
        self.insert_between(alloc, lo, hi)?;
        from.drop_front(1);
        Ok(())
    }

    /// `take_first`, if the first range needs no merge.
    fn move_first(&mut self, from: &mut RangeSet) -> Result<(), NoMemory>
        requires few { length self.old < 2 ^ 63 }
        requires fits { FitsFirst from.old self.old }
        ensures taken { OnOk result (TakesFirst from.old from.new self.old self.new) }
        ensures err { OnErr result (self.new ≡ self.old) }
        ensures kept { OnErr result (from.new ≡ from.old) }
    {
        let replaced = self.rows.move_first_from(&mut from.rows)?;
        from.count -= 1;
        self.count = self.count + 1 - replaced.is_some() as usize;
        Ok(())
    }

    /// Whether each range ends at or before the pivot.
    pub fn end_by<U: Update>(&self, pivot: &Key) -> bool
        ensures yes { result ≡ true → LieIn [] (Some pivot.now) (range_msgs {U = U} {V = U.Value} self.now) }
        ensures no { result ≡ false → LieIn [] (Some pivot.now) (range_msgs {U = U} {V = U.Value} self.now) → ⊥ }
    {
        match self.rows.last() {
            None => true,
            Some((_, high)) => ends_by(high.as_ref(), Some(pivot)),
        }
    }

    /// Whether each range begins at or after the pivot.
    pub fn begin_from<U: Update>(&self, pivot: &Key) -> bool
        ensures yes { result ≡ true → LieIn pivot.now None (range_msgs {U = U} {V = U.Value} self.now) }
        ensures no { result ≡ false → LieIn pivot.now None (range_msgs {U = U} {V = U.Value} self.now) → ⊥ }
    {
        match self.rows.cursor().peek() {
            None => true,
            Some((low, _)) => pivot.cmp(low).is_le(),
        }
    }

    /// Splits the set at the pivot: the ranges before it, and those from it on. A range that contains keys on both sides is
    /// split.
    pub fn split_at<U: Update>(
        self,
        alloc: Global,
        pivot: &Key,
    ) -> Result<(RangeSet, RangeSet), NoMemory>
        requires { length self < 2 ^ 63 }
        ensures front { IfOk result (λ r. range_msgs {U = U} {V = U.Value} r.0 ≡ pieces [] (Some pivot.now) (range_msgs self)) }
        ensures back { IfOk result (λ r. range_msgs {U = U} {V = U.Value} r.1 ≡ pieces pivot.now None (range_msgs self)) }
    {
        let (front, back) = split::<U>(self.rows, alloc, pivot)?;
        Ok((RangeSet::of(front), RangeSet::of(back)))
    }

    /// Merges two sets, this one before the pivot and the newer one from it on. Ranges that touch there are merged.
    pub fn merged<U: Update>(
        self,
        alloc: Global,
        newer: RangeSet,
        pivot: &Key,
    ) -> Result<RangeSet, NoMemory>
        requires before { LieIn [] (Some pivot.now) (range_msgs {U = U} {V = U.Value} self) }
        requires from { LieIn pivot.now None (range_msgs {U = U} {V = U.Value} newer) }
        requires few { length self + length newer < 2 ^ 64 }
        ensures { IfOk result (λ all. IsJoined pivot.now (range_msgs {U = U} {V = U.Value} self) (range_msgs newer) (range_msgs all)) }
    {
        let rows = merge::<U>(self.rows, alloc, newer.rows, pivot)?;
        Ok(RangeSet::of(rows))
    }

    /// Appends copies of the ranges, as range-deletes, to `front`, until it has `count` messages.
    pub fn copy_into<U: Update>(
        &self,
        alloc: Global,
        count: usize,
        front: &mut Vec<Msg<U>>,
    ) -> Result<(), NoMemory>
        ensures { OnOk result (take count front.new.items ≡ take count (front.old.items ++ range_msgs self.now)) }
    {
        let mut ranges = self.rows.cursor();
        while front.len() < count {
            let Some((lo, hi)) = ranges.next() else {
                return Ok(());
            };
            let lo = lo.copy(alloc)?;
            let hi = copy_end(alloc, hi.as_ref())?;
            front.push(Msg::DelRange(KeyRange { lo, hi }))?;
        }
        Ok(())
    }

    /// Clones the set; both then share the chunks.
    pub fn copy(&self) -> Result<RangeSet, NoMemory>
        ensures { IfOk result (λ r. r ≡ self.now) }
    {
        let rows = self.rows.share()?;
        Ok(RangeSet {
            rows,
            count: self.count,
        })
    }

    /// The set of these ranges.
    fn of(rows: CowMap<Option<Key>>) -> RangeSet
        requires apart { AreApart rows }
        requires few { length rows < 2 ^ 64 }
        ensures { result ≡ rows }
    {
        let count = rows.len();
        RangeSet { rows, count }
    }

    /// `insert`, by the ends of the range.
    fn insert_between(&mut self, alloc: Global, lo: &Key, hi: Option<&Key>) -> Result<(), NoMemory>
        requires some { is_below lo.now (option_copied hi) ≡ true }
        requires few { length self.old < 2 ^ 63 }
        ensures covers { OnOk result (CoversMore lo.now (option_copied hi.entry) self.old self.new) }
        ensures bound { OnOk result (length self.new ≤ length self.old + 1) }
        ensures err { OnErr result (self.new ≡ self.old) }
    {
        if is_held(&self.rows, lo, hi) {
            return Ok(());
        }
        let wide = widened(&self.rows, alloc, lo, hi)?;
        self.replace_overlapped(wide)
    }

    /// Inserts a range in place of those that begin within it, if no other overlaps its ends or touches it. If an allocation
    /// fails the set is unchanged.
    fn replace_overlapped(&mut self, range: KeyRange) -> Result<(), NoMemory>
        requires some { is_below range.lo range.hi ≡ true }
        requires low { EndBefore range.lo self.old }
        requires high { IsFree self.old range.hi }
        requires few { length self.old < 2 ^ 63 }
        ensures ok { OnOk result (self.new ≡ spliced range self.old) }
        ensures bound { OnOk result (length self.new ≤ length self.old + 1) }
        ensures err { OnErr result (self.new ≡ self.old) }
    {
        let gone = replace_overlapped(&mut self.rows, range)?;
        self.count = self.count + 1 - gone;
        Ok(())
    }
}
