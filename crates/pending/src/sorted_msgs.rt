//! The sorted part of a list: range-deletes by their low ends, and then point messages by their keys.
//!
//! Invariant: no range-delete is newer than a point message that it touches, so this order is the oldest first at every key. Of
//! the first key some of the oldest messages may be consumed (`consumed`), but never all. There are at most 2^62 messages in
//! all.
ghost use Rattle.std.specs.Prelude.{◌≡◌, ◌+◌, ◌^◌, ◌<◌, ◌≤◌, ◌++◌, [], ◌∷◌, true, false, length, take, drop, Some, None, if◌then◌else◌, IfOk, IfErr, IfNone, IfSome, OnOk, OnErr, MatchOption};
ghost use Rattle.std.specs.Option.{option_copied, option_map};
ghost use Rattle.std.specs.List.{All, slice_get};
ghost use Rattle.pathkey.specs.Keys.{is_below};
ghost use Rattle.message.specs.Cuts.{pieces, IsJoined, IsParted, LieIn};
ghost use Rattle.message.specs.Effects.{any_touches, effects, point_key, range_count, Takes};
ghost use Rattle.message.specs.Oldest.{first_point};
ghost use Rattle.message.specs.PointKeys.{is_cleared, IsPointStop, IsClearStretch};
ghost use Rattle.message.specs.Stretches.{EndsAhead, is_key};
ghost use Rattle.message.specs.Resolution.{IsResolved};
ghost use Rattle.message.specs.declared.resolution.Resolution.TheVariants as resolution;
ghost use Rattle.cow_map.specs.Places.{Rises, at_key};
ghost use Rattle.point_ops.specs.PointOps.{left, point_msgs, AreRuns, IsLeft};
ghost use Rattle.pending.specs.Ahead.{AreFrom};
ghost use Rattle.pending.specs.MsgRef.{borrowed_msg};
ghost use Rattle.pending.specs.OldestWalk.{first_len};
ghost use Rattle.pending.specs.SortedMsgs.{sorted_msgs, IsFirstEdit, JoinsMsg};
ghost use Rattle.pending.specs.LastPoint.{IsLastPoint};

use crate::insert::{insert, insert_first, join};
use crate::msg_ref::MsgRef;
use crate::oldest_walk::OldestWalk;
use crate::segment::{point_stop, point_within};
use cow_map::Cursor;
use message::ends::earlier;
use message::{Msg, Resolution, Update, UpdateTarget};
use pathkey::{Key, NoMemory};
use point_ops::{JoinReply, KeyOps, PointOps};
use range_set::RangeSet;
use std::alloc::Global;
use std::marker::Model;

/// The most messages of a sorted list.
const MOST: usize = 1 << 62;

/// A sorted list of messages, which are removed one by one from the front.
///
/// Contracts see the range-deletes by their low ends, and then the point messages by their keys without the `consumed` oldest
/// of the first key. An inserted range-delete removes each point message that it touches, so none in the list is newer than a
/// point message inside it. Chunks that other lists share are not changed: a counter records how many messages of the first key
/// are consumed.
#[derive(Drop)]
pub struct SortedMsgs<U: UpdateTarget> {
    ranges: RangeSet,
    points: PointOps<U>,
    consumed: usize,
}

impl<U: UpdateTarget> Model for SortedMsgs<U> {
    ghost use Rattle.std.specs.Prelude.{List};
    ghost use Rattle.message.specs.declared.msg.Msg.{Msg};

    ghost Value = { List (Msg U U.Value) };

    ghost use Rattle.point_ops.specs.PointOps.{left};
    ghost use Rattle.pending.specs.SortedMsgs.{sorted_msgs, IsSorted};

    ghost view = { λ p. sorted_msgs p.ranges (left p.consumed p.points) };

    ghost invariant = { λ p. IsSorted p.ranges p.points p.consumed };
}

impl<U: Update> SortedMsgs<U> {
    /// An empty list. It allocates no memory.
    pub(crate) fn new(alloc: Global) -> SortedMsgs<U>
        ensures { result ≡ [] }
    {
        SortedMsgs {
            ranges: RangeSet::new(alloc),
            points: PointOps::new(alloc),
            consumed: 0,
        }
    }

    /// Whether a copy shares the list of chunks, which the next change then copies. No claim depends on it.
    #[inline(always)]
    pub(crate) fn is_shared(&self) -> bool {
        self.points.is_shared()
    }

    /// How many messages the list holds.
    #[inline(always)]
    pub(crate) fn len(&self) -> usize
        ensures len { result ≡ length self.now }
        ensures small { result ≤ 2 ^ 62 }
    {
        self.ranges.len() + (self.points.len() - self.consumed)
    }

    /// How many of the messages are range-deletes, without the `consumed` oldest.
    pub(crate) fn range_deletes(&self, consumed: usize) -> usize
        ensures count { result ≡ range_count (drop consumed self.now) }
        ensures small { result ≤ 2 ^ 62 }
    {
        self.ranges.len().saturating_sub(consumed)
    }

    /// The oldest message, if there is one.
    #[inline(always)]
    pub(crate) fn oldest(&self) -> Option<MsgRef<'_, U>>
        ensures { option_map borrowed_msg result ≡ slice_get self.now 0 }
    {
        match self.ranges.first() {
            Some((low, high)) => Some(MsgRef::DelRange(low, high.as_ref())),
            None => match self.points.first() {
                Some((key, run)) => Some(MsgRef::at(key, run.op_at(self.consumed))),
                None => None,
            },
        }
    }

    // ---- insertion

    /// Adds a message, newer than all others. On allocation failure, or if the list holds [`MOST`] messages, it is returned as
    /// the error. The remaining list followed by the message then has the effect that it should have: a range-delete may
    /// already have removed what it touches.
    #[inline(always)]
    pub(crate) fn push(&mut self, alloc: Global, msg: Msg<U>) -> Result<(), Msg<U>>
        ensures takes { OnOk result (Takes U.means self.old (msg ∷ []) self.new) }
        ensures refused { OnErr result (Takes U.means self.old (msg ∷ []) (self.new ++ msg ∷ [])) }
        ensures back { IfErr result (λ m. m ≡ msg) }
    {
        if self.len() >= MOST {
            return Err(msg);
        }
        let Ok(()) = make_whole(&mut self.points, alloc, &mut self.consumed) else {
            return Err(msg);
        };
        let answer = insert(&mut self.ranges, &mut self.points, alloc, msg);
        self.points.assert_invariant();
        answer
    }

    /// Adds an update of a key that no message is for. On allocation failure, or if the list holds [`MOST`] messages or a message of
    /// the first key is consumed, it is returned as the error, and everything is unchanged.
    #[inline(always)]
    pub(crate) fn push_first(&mut self, msg: Msg<U>) -> Result<(), Msg<U>>
        requires { IsFirstEdit msg self.old }
        ensures takes { OnOk result (Takes U.means self.old (msg ∷ []) self.new) }
        ensures unchanged { OnErr result (self.new ≡ self.old) }
        ensures back { IfErr result (λ m. m ≡ msg) }
    {
        if self.consumed > 0 || self.len() >= MOST {
            return Err(msg);
        }
        let answer = insert_first(&mut self.points, msg);
        self.points.assert_invariant();
        answer
    }

    /// Joins an update, in place, to the only operation of its key, as [`PointOps::join`] does. If it does not, everything is unchanged.
    /// It does not if a message of the first key is consumed.
    #[inline(always)]
    pub(crate) fn join(&mut self, alloc: Global, msg: &Msg<U>) -> JoinReply
        ensures { JoinsMsg U.means result msg.now self.old self.new }
    {
        if self.consumed > 0 {
            return JoinReply::Apart;
        }
        let joined = join(&mut self.points, alloc, msg);
        self.points.assert_invariant();
        joined
    }

    /// Whether `most` is at least 1, and the list with as many more messages has fewer than [`MOST`].
    fn accepts(&self, most: usize) -> bool
        ensures { result ≡ true → (0 < most) × (length self.now + most ≤ 2 ^ 62) }
    {
        most > 0 && self.len() < MOST - most.min(MOST)
    }

    /// Moves the oldest messages of another list, a range-delete or those of one key and at most `most`, into this one, newer
    /// than all that are here, and returns how many. It moves none if [`SortedMsgs::take_range`] or [`PointOps::take_first`]
    /// moves none.
    pub(crate) fn take_first(
        &mut self,
        alloc: Global,
        from: &mut SortedMsgs<U>,
        most: usize,
    ) -> Option<usize>
        ensures takes { IfSome result (λ n. Takes U.means self.old (take n from.old) self.new) }
        ensures left { IfSome result (λ n. from.new ≡ drop n from.old) }
        ensures within { IfSome result (λ n. (0 < n) × (n ≤ most) × (n ≤ length from.old)) }
        ensures alike { IfSome result (λ n. All (λ m. point_key m ≡ first_point from.old) (take n from.old)) }
        ensures none { IfNone result ((self.new ≡ self.old) × (from.new ≡ from.old)) }
    {
        if !self.accepts(most) {
            return None;
        }
        if from.ranges.len() > 0 {
            return if self.take_range(alloc, from) {
                Some(1)
            } else {
                None
            };
        }
        let Ok(()) = make_whole(&mut self.points, alloc, &mut self.consumed) else {
            return None;
        };
        let Ok(()) = make_whole(&mut from.points, alloc, &mut from.consumed) else {
            return None;
        };
        let came = self.points.take_first(&mut from.points, most)?;
        self.points.assert_invariant();
        from.points.assert_invariant();
        Some(came)
    }

    /// A walk over all messages, if there is no range-delete and no message of the first key is consumed.
    pub(crate) fn walk_oldest(&self) -> Option<OldestWalk<'_, U>>
        ensures { IfSome result (λ w. point_msgs w ≡ self.now) }
    {
        if self.consumed > 0 || self.ranges.len() > 0 {
            return None;
        }
        let rest = self.points.walk();
        Some(OldestWalk { rest })
    }

    /// Adds the operations of a walk's next key, at most `most`, newer than all messages here, and returns how many. It adds none if
    /// [`PointOps::share_first_of`] does not, if the list is nearly full, or if the consumed messages find no memory to be dropped.
    pub(crate) fn share_first_of(
        &mut self,
        alloc: Global,
        walk: &OldestWalk<'_, U>,
        most: usize,
    ) -> Option<usize>
        ensures takes { IfSome result (λ n. Takes U.means self.old (take n (point_msgs walk.now)) self.new) }
        ensures within { IfSome result (λ n. (n ≡ first_len walk.now) × (0 < n) × (n ≤ most)) }
        ensures none { IfNone result (self.new ≡ self.old) }
    {
        if !self.accepts(most) {
            return None;
        }
        let Ok(()) = make_whole(&mut self.points, alloc, &mut self.consumed) else {
            return None;
        };
        let came = self.points.share_first_of(alloc, &walk.rest, most)?;
        self.points.assert_invariant();
        Some(came)
    }

    /// Moves the first range-delete of another list here, newer than all that are here, without copying it, and returns whether
    /// it did. It does not if there is none, if it covers a key that has messages here, or on allocation failure.
    fn take_range(&mut self, alloc: Global, from: &mut SortedMsgs<U>) -> bool
        requires { length self.old < 2 ^ 62 }
        ensures takes { result ≡ true → Takes U.means self.old (take 1 from.old) self.new }
        ensures left { result ≡ true → from.new ≡ drop 1 from.old }
        ensures some { result ≡ true → 1 ≤ length from.old }
        ensures alike { result ≡ true → All (λ m. point_key m ≡ first_point from.old) (take 1 from.old) }
        ensures no { result ≡ false → (self.new ≡ self.old) × (from.new ≡ from.old) }
    {
        let Some((low, high)) = from.ranges.first() else {
            return false;
        };
        if self.points.has_within(low, high.as_ref()) {
            return false;
        }
        self.points.assert_invariant();
        let Ok(()) = self.ranges.take_first(alloc, &mut from.ranges) else {
            return false;
        };
        true
    }

    // ---- removal and copies

    /// Removes the `count` oldest messages. It needs no memory.
    pub(crate) fn drop_front(&mut self, count: usize)
        requires { count ≤ length self.old }
        ensures { self.new ≡ drop count self.old }
    {
        // The postcondition of `len` shows that the sum below does not overflow.
        let _ = self.points.len();
        let first = count.min(self.ranges.len());
        self.ranges.drop_front(first);
        self.consumed = self.points.drop_oldest(self.consumed + (count - first));
    }

    /// Copies of the `count` oldest messages, or of all if there are fewer.
    pub(crate) fn copy_front(&self, alloc: Global, count: usize) -> Result<Vec<Msg<U>>, NoMemory>
        ensures { IfOk result (λ front. front.items ≡ take count self.now) }
    {
        let mut front = Vec::new(alloc);
        self.ranges.copy_into::<U>(alloc, count, &mut front)?;
        self.points
            .copy_into(alloc, self.consumed, count, &mut front)?;
        front.truncate(count);
        Ok(front)
    }

    /// Puts the list of chunks of the point messages where copies share it.
    pub(crate) fn make_sharable(&mut self)
        ensures { self.new ≡ self.old }
    {
        self.points.make_sharable();
    }

    /// A copy that shares its messages with this list.
    pub(crate) fn copy(&self) -> Result<SortedMsgs<U>, NoMemory>
        ensures { IfOk result (λ p. p ≡ self.now) }
    {
        let ranges = self.ranges.copy()?;
        let points = self.points.copy()?;
        Ok(SortedMsgs {
            ranges,
            points,
            consumed: self.consumed,
        })
    }

    // ---- splits and merges

    /// Moves the messages from the pivot on out of the list. It returns none if this is not possible: if there is a
    /// range-delete, or a message before `lo`.
    pub(crate) fn split_off(
        &mut self,
        alloc: Global,
        lo: &Key,
        pivot: &Key,
    ) -> Result<Option<SortedMsgs<U>>, NoMemory>
        ensures parted { IfOk result (λ o. MatchOption o (self.new ≡ self.old) (IsParted lo.now pivot.now self.old self.new)) }
        ensures err { OnErr result (self.new ≡ self.old) }
    {
        if self.ranges.len() > 0 || !self.points.begin_from(lo) {
            return Ok(None);
        }
        make_whole(&mut self.points, alloc, &mut self.consumed)?;
        let points = self.points.split_off(pivot)?;
        Ok(Some(SortedMsgs {
            ranges: RangeSet::new(alloc),
            points,
            consumed: 0,
        }))
    }

    /// The parts of the messages before the pivot, and those from it on. The messages are the same, but a range-delete across
    /// the pivot is split in two.
    pub(crate) fn split_at(
        self,
        alloc: Global,
        pivot: &Key,
    ) -> Result<(SortedMsgs<U>, SortedMsgs<U>), NoMemory>
        ensures front { IfOk result (λ r. r.0 ≡ pieces [] (Some pivot.now) self) }
        ensures back { IfOk result (λ r. r.1 ≡ pieces pivot.now None self) }
    {
        let mut points = whole(self.points, alloc, self.consumed)?;
        let later = points.split_off(pivot)?;
        let (ranges, behind) = self.ranges.split_at::<U>(alloc, pivot)?;
        let front = SortedMsgs {
            ranges,
            points,
            consumed: 0,
        };
        let back = SortedMsgs {
            ranges: behind,
            points: later,
            consumed: 0,
        };
        Ok((front, back))
    }

    /// Whether each message is entirely before the pivot.
    pub(crate) fn lies_before(&self, pivot: &Key) -> bool
        ensures { result ≡ true → LieIn [] (Some pivot.now) self.now }
    {
        self.ranges.end_by::<U>(pivot) && self.points.end_before(pivot)
    }

    /// Whether each message is entirely from the pivot on.
    pub(crate) fn lies_from(&self, pivot: &Key) -> bool
        ensures { result ≡ true → LieIn pivot.now None self.now }
    {
        self.ranges.begin_from::<U>(pivot) && self.points.begin_from(pivot)
    }

    /// Merges both lists, if one is before the pivot and the newer one from it on. It returns none if there are more than
    /// [`MOST`] messages.
    pub(crate) fn merged(
        self,
        alloc: Global,
        newer: SortedMsgs<U>,
        pivot: &Key,
    ) -> Result<SortedMsgs<U>, NoMemory>
        requires before { LieIn [] (Some pivot.now) self }
        requires from { LieIn pivot.now None newer }
        ensures { IfOk result (λ p. IsJoined pivot.now self newer p) }
    {
        if self.len() + newer.len() > MOST {
            return Err(NoMemory);
        }
        let points = whole(self.points, alloc, self.consumed)?;
        let later = whole(newer.points, alloc, newer.consumed)?;
        let ranges = self.ranges.merged::<U>(alloc, newer.ranges, pivot)?;
        let all = points.merged(later)?;
        Ok(SortedMsgs {
            ranges,
            points: all,
            consumed: 0,
        })
    }

    // ---- queries

    /// Applies the messages to `old`, the older value at the key, and returns the resulting value.
    pub(crate) fn value_after(
        &self,
        alloc: Global,
        key: &Key,
        old: Option<U::Value>,
    ) -> Result<Option<U::Value>, NoMemory>
        ensures { IfOk result (λ v. v ≡ effects U.means self.now key.now old) }
    {
        self.points.assert_invariant();
        let below = unless(self.ranges.is_covered(key), old);
        match self.points.run_at(key) {
            Some(run) => run.apply(alloc, consumed_at(&self.points, self.consumed, key), below),
            None => Ok(below),
        }
    }

    /// What the list says of the value at the key. It copies only a value that it determines. It needs the base only if a message
    /// touches the key.
    pub(crate) fn resolve(&self, alloc: Global, key: &Key) -> Result<Resolution<U::Value>, NoMemory>
        ensures resolved { IfOk result (IsResolved U.means self.now key.now) }
        ensures touched { IfOk result (λ r. r ≡ resolution.NeedsBase → any_touches self.now key.now ≡ true) }
    {
        self.points.assert_invariant();
        let is_covered = self.ranges.is_covered(key);
        match self.points.run_at(key) {
            Some(run) => run.resolve(
                alloc,
                consumed_at(&self.points, self.consumed, key),
                is_covered,
            ),
            None => Ok(untouched(is_covered)),
        }
    }

    /// The end of the segment of keys that begins at `from`, at `end` or before it; none if a message is for `from` alone.
    pub(crate) fn segment_end<'a>(
        &'a self,
        from: &Key,
        end: Option<&'a Key>,
    ) -> Option<Option<&'a Key>>
        requires { is_below from.now (option_copied end) ≡ true }
        ensures { EndsAhead self.now from.now (option_copied end.entry) (option_map option_copied result) }
    {
        self.points.assert_invariant();
        let next = self.points.first_from(from);
        if is_key(next, from) {
            return None;
        }
        let stop = self.ranges.segment_end::<U>(from, end);
        Some(earlier(stop, next))
    }

    /// The first key from `from` on that has a message for it alone, if it is before `end`; otherwise `end`.
    pub(crate) fn next_point<'a>(&'a self, from: &'a Key, end: Option<&'a Key>) -> Option<&'a Key>
        ensures { IsPointStop self.now from.now (option_copied end.entry) (option_copied result) }
    {
        self.points.assert_invariant();
        point_stop(self.points.first_from(from), from, end)
    }

    /// The last key from `lo` up to, but excluding, `hi` that has a message for it alone, if there is one.
    pub(crate) fn last_point(&self, lo: &Key, hi: Option<&Key>) -> Option<&Key>
        ensures { IsLastPoint self.now lo.now (option_copied hi.entry) (option_copied result) }
    {
        self.points.assert_invariant();
        point_within(self.points.last_before(hi), lo, hi)
    }

    /// The entries from the key on, if no message of the first key is consumed.
    pub(crate) fn walk_from(&self, from: &Key) -> Option<Cursor<'_, KeyOps<U>>>
        ensures { IfSome result (λ rest. AreFrom self.now from.now rest) }
    {
        if self.consumed > 0 {
            return None;
        }
        self.points.assert_invariant();
        Some(self.points.walk_from(from))
    }

    /// Whether a range-delete covers the key.
    pub(crate) fn is_range_deleted(&self, key: &Key) -> bool
        ensures { result ≡ is_cleared self.now key.now }
    {
        self.ranges.is_covered(key)
    }

    /// The key up to which the range-deletes cover either all keys from `from` on or none of them: at `end` or before it.
    pub(crate) fn range_deleted_until<'a>(
        &'a self,
        from: &Key,
        end: Option<&'a Key>,
    ) -> Option<&'a Key>
        requires { is_below from.now (option_copied end) ≡ true }
        ensures { IsClearStretch self.now from.now (option_copied end.entry) (option_copied result) }
    {
        self.ranges.segment_end::<U>(from, end)
    }
}

/// Removes the consumed messages of the first key from storage. On allocation failure everything is unchanged.
fn make_whole<U: Update>(
    points: &mut PointOps<U>,
    alloc: Global,
    consumed: &mut usize,
) -> Result<(), NoMemory>
    requires { IsLeft consumed.old points.old }
    ensures same { left consumed.new points.new ≡ left consumed.old points.old }
    ensures left { IsLeft consumed.new points.new }
    ensures whole { OnOk result (consumed.new ≡ 0) }
    ensures rises { OnOk result (Rises points.new) }
    ensures runs { OnOk result (AreRuns points.new) }
{
    points.make_whole(alloc, *consumed)?;
    *consumed = 0;
    points.assert_invariant();
    Ok(())
}

/// The messages without the consumed ones of the first key.
fn whole<U: Update>(
    points: PointOps<U>,
    alloc: Global,
    consumed: usize,
) -> Result<PointOps<U>, NoMemory>
    requires { IsLeft consumed points }
    ensures same { IfOk result (λ p. p ≡ left consumed points) }
    ensures rises { IfOk result Rises }
    ensures runs { IfOk result AreRuns }
{
    let mut points = points;
    points.make_whole(alloc, consumed)?;
    points.assert_invariant();
    Ok(points)
}

/// How many of the oldest messages at a key are consumed: only the first key may have consumed messages.
fn consumed_at<U: Update>(points: &PointOps<U>, consumed: usize, key: &Key) -> usize
    requires { IsLeft consumed points.now }
    ensures left { at_key key.now (left consumed points.now) ≡ option_map (λ cs. drop result cs) (at_key key.now points.now) }
    ensures some { IfSome (at_key key.now points.now) (λ cs. result < length cs) }
{
    points.assert_invariant();
    if consumed == 0 {
        return 0;
    }
    match points.first() {
        Some((first, _)) if first == key => consumed,
        _ => 0,
    }
}

/// Whether there is a key in `at` and it is this one.
fn is_key(at: Option<&Key>, key: &Key) -> bool
    ensures { result ≡ is_key (option_copied at.entry) key.now }
{
    match at {
        None => false,
        Some(at) => *at == *key,
    }
}

/// The value, or none if `is_gone`.
pub(crate) fn unless<V: Drop>(is_gone: bool, old: Option<V>) -> Option<V>
    ensures { result ≡ (if is_gone then None else old) }
{
    if is_gone { None } else { old }
}

/// The resolution of a key that no point message touches.
fn untouched<V>(is_covered: bool) -> Resolution<V>
    ensures { result ≡ (if is_covered then resolution.Value None else resolution.Untouched) }
{
    if is_covered {
        Resolution::Value(None)
    } else {
        Resolution::Untouched
    }
}
