//! The pending messages of one slot, the oldest first.
//!
//! Contracts see a list of messages and the number of messages for which capacity is reserved. An insertion promises only its
//! effect (`Takes`): the list is sorted and condensed, so that it holds fewer messages with the same effect, and callers that
//! rely on the contract do not notice. No call returns a reference to a message or takes the index of one.
ghost use Rattle.std.specs.Prelude.{◌≡◌, ◌+◌, ◌≤◌, ◌<◌, ◌++◌, [], ◌∷◌, true, false, length, take, drop, Some, None, IfOk, IfNone, IfSome, OnOk, OnErr, MatchOption};
ghost use Rattle.std.specs.Option.{option_copied, option_map};
ghost use Rattle.std.specs.List.{All, slice_get};
ghost use Rattle.message.specs.Cuts.{pieces, IsJoined, IsUpTo, LieIn};
ghost use Rattle.message.specs.Effects.{any_touches, effects, point_key, range_count, Takes};
ghost use Rattle.pending.specs.MsgRef.{borrowed_msg};
ghost use Rattle.pending.specs.OldestWalk.{first_len, IsWalk};
ghost use Rattle.point_ops.specs.PointOps.{point_msgs};
ghost use Rattle.message.specs.Oldest.{first_point, first_put, first_given, meets_first, covers_first};
ghost use Rattle.message.specs.PointKeys.{is_cleared, IsNextPoint, IsClearStretch};
ghost use Rattle.message.specs.Stretches.{IsStretch};
ghost use Rattle.message.specs.Resolution.{IsResolved};
ghost use Rattle.message.specs.declared.resolution.Resolution.TheVariants as resolution;
ghost use Rattle.pathkey.specs.Keys.{is_below};
ghost use Rattle.pending.specs.Ahead.{StandsAt};
ghost use Rattle.pending.specs.LastPoint.{IsLastPoint};
ghost use Rattle.pending.specs.SortedMsgs.{IsFirstEdit, JoinsMsg};

use crate::msg_ref::MsgRef;
use crate::oldest_walk::OldestWalk;
use crate::point_cursor::PointCursor;
use crate::segment::later;
use crate::sorted_msgs::SortedMsgs;
use crate::tail::Tail;
use message::ends::is_before_end;
use message::{Msg, MsgDrain, Resolution, Update, UpdateTarget};
use pathkey::{Key, NoMemory};
use point_ops::JoinReply;
use std::alloc::Global;
use std::marker::Model;

/// The most messages of a tail that are condensed in one call: as many as a node may hold.
const CONDENSE_AT: usize = 1024;

/// The most messages of a tail that wait while a change of the sorted part would copy the list of chunks that it shares: each search
/// passes them one by one.
const DEFER: usize = 64;

/// A pending list: a sorted part, and a tail of newer messages in the order of their arrival.
///
/// A message is appended to the tail if the slot has a mark, if inserting it into the sorted part failed to allocate, or if the
/// sorted part shares its list of chunks with a copy, and the tail is short: so the first changes after a copy copy none of it.
/// Otherwise the next message that is added without a mark first condenses the tail into the sorted part, so a list whose mark is
/// gone is condensed again.
pub struct Pending<U: UpdateTarget> {
    sorted: SortedMsgs<U>,
    tail_msgs: Tail<U>,
}

// Written out, as that of `pathkey::Key`.
impl<U: UpdateTarget + Drop> Drop for Pending<U> {
    fn drop(self) {
        let Pending {
            sorted: _,
            tail_msgs: _,
        } = self;
    }
}

impl<U: UpdateTarget> Model for Pending<U> {
    ghost use Rattle.std.specs.Prelude.{List, ℕ, ◌++◌};
    ghost use Rattle.message.specs.declared.msg.Msg.{Msg};

    ghost Value = { List (Msg U U.Value) × ℕ };

    ghost view = { λ p. (p.sorted ++ p.tail_msgs.0, p.tail_msgs.1) };
}

// ---- insertion

impl<U: Update> Pending<U> {
    /// An empty list. It allocates no memory.
    pub fn new(alloc: Global) -> Pending<U>
        ensures { result.0 ≡ [] }
    {
        Pending {
            sorted: SortedMsgs::new(alloc),
            tail_msgs: Tail::new(alloc),
        }
    }

    /// Reserves capacity for `more` more messages. The messages and the existing capacity stay, whatever it returns, and it
    /// fails only if it needed more capacity.
    pub fn reserve(&mut self, more: usize) -> Result<(), NoMemory>
        ensures messages { self.new.0 ≡ self.old.0 }
        ensures kept { self.old.1 ≤ self.new.1 }
        ensures room { OnOk result (more ≤ self.new.1) }
        ensures refused { OnErr result (self.old.1 < more) }
    {
        self.tail_msgs.reserve(more)
    }

    /// Adds a message, newer than all others, within the reserved capacity. It removes the messages that it makes redundant,
    /// and an update is joined to those of its key if possible.
    #[inline(always)]
    pub fn push_reserved(&mut self, msg: Msg<U>)
        requires { 0 < self.old.1 }
        ensures takes { Takes U.means self.old.0 (msg ∷ []) self.new.0 }
        ensures room { self.old.1 ≤ self.new.1 + 1 }
    {
        if self.defers() {
            self.push_uncondensed(msg);
            return;
        }
        match self.join(&msg) {
            JoinReply::Joined => (),
            JoinReply::NoKey => self.push_first(msg),
            JoinReply::Apart => self.push_condensed(msg),
        }
    }

    /// Joins an update, in place, to the only operation of its key, before the message is moved. If it does not, everything is
    /// unchanged. It does not if there is a tail.
    #[inline(always)]
    fn join(&mut self, msg: &Msg<U>) -> JoinReply
        ensures joined { JoinsMsg U.means result msg.now self.old.0 self.new.0 }
        ensures room { self.new.1 ≡ self.old.1 }
    {
        if self.tail_msgs.len() > 0 {
            return JoinReply::Apart;
        }
        let alloc = self.tail_msgs.allocator();
        self.sorted.join(alloc, msg)
    }

    /// Like [`Pending::push_reserved`], for an update of a key that no message is for: it is put without another attempt to
    /// join it.
    #[inline(always)]
    fn push_first(&mut self, msg: Msg<U>)
        requires room { 0 < self.old.1 }
        requires first { IsFirstEdit msg self.old.0 }
        ensures takes { Takes U.means self.old.0 (msg ∷ []) self.new.0 }
        ensures room { self.old.1 ≤ self.new.1 + 1 }
    {
        if self.tail_msgs.len() > 0 {
            self.push_uncondensed(msg);
            return;
        }
        if let Err(refused) = self.sorted.push_first(msg) {
            self.push_uncondensed(refused);
        }
    }

    /// Whether a new message is to wait in the tail. No claim depends on it.
    #[inline(always)]
    fn defers(&self) -> bool {
        self.tail_msgs.len() < DEFER && self.sorted.is_shared()
    }

    /// Like [`Pending::push_reserved`], and condenses the tail first.
    #[inline(always)]
    fn push_condensed(&mut self, msg: Msg<U>)
        requires { 0 < self.old.1 }
        ensures takes { Takes U.means self.old.0 (msg ∷ []) self.new.0 }
        ensures room { self.old.1 ≤ self.new.1 + 1 }
    {
        condense(&mut self.sorted, &mut self.tail_msgs, CONDENSE_AT);
        if self.tail_msgs.len() > 0 {
            self.push_uncondensed(msg);
            return;
        }
        if let Err(refused) = self.sorted.push(self.tail_msgs.allocator(), msg) {
            self.push_uncondensed(refused);
        }
    }

    /// Condenses the tail as far as memory is there, unless the sorted part shares its list of chunks, which that would copy.
    pub fn condense_tail(&mut self)
        ensures { Takes U.means self.old.0 [] self.new.0 }
    {
        if !self.sorted.is_shared() {
            condense(&mut self.sorted, &mut self.tail_msgs, CONDENSE_AT);
        }
    }

    /// Adds all messages of `newer`, in their order and newer than all others, within the reserved capacity, and leaves `newer`
    /// empty.
    pub fn append_reserved(&mut self, newer: &mut Vec<Msg<U>>)
        requires { length newer.old.items ≤ self.old.1 }
        ensures takes { Takes U.means self.old.0 newer.old.items self.new.0 }
        ensures moved { newer.new.items ≡ [] }
        ensures room { self.old.1 ≤ self.new.1 + length newer.old.items }
    {
        let empty = Vec::new(*newer.allocator());
        let mut taken = MsgDrain::of(std::mem::replace(newer, empty));
        while let Some(msg) = taken.next() {
            self.push_reserved(msg);
        }
    }

    /// Like [`Pending::append_reserved`], but leaves the old and the new messages as they are, for a slot with a mark.
    pub fn append_uncondensed(&mut self, newer: &mut Vec<Msg<U>>)
        requires { length newer.old.items ≤ self.old.1 }
        ensures messages { self.new.0 ≡ self.old.0 ++ newer.old.items }
        ensures moved { newer.new.items ≡ [] }
        ensures room { self.old.1 ≤ self.new.1 + length newer.old.items }
    {
        self.tail_msgs.append(newer);
    }

    /// Like [`Pending::push_reserved`], but leaves the old messages and the new one as they are.
    pub fn push_uncondensed(&mut self, msg: Msg<U>)
        requires { 0 < self.old.1 }
        ensures messages { self.new.0 ≡ self.old.0 ++ msg ∷ [] }
        ensures room { self.old.1 ≤ self.new.1 + 1 }
    {
        self.tail_msgs.push_reserved(msg);
    }

    // ---- counts

    /// How many messages the list holds.
    #[inline(always)]
    pub fn len(&self) -> usize
        ensures { result ≡ length self.now.0 }
    {
        self.sorted.len() + self.tail_msgs.len()
    }

    /// How many of the messages are range-deletes, without the `consumed` oldest.
    pub fn range_deletes(&self, consumed: usize) -> usize
        requires { consumed ≤ length self.now.0 }
        ensures { result ≡ range_count (drop consumed self.now.0) }
    {
        let sorted = consumed.min(self.sorted.len());
        self.sorted.range_deletes(sorted) + self.tail_msgs.count_ranges(consumed - sorted)
    }

    // ---- the oldest message

    /// The oldest message, if there is one.
    #[inline(always)]
    fn oldest(&self) -> Option<MsgRef<'_, U>>
        ensures { option_map borrowed_msg result ≡ slice_get self.now.0 0 }
    {
        match self.sorted.oldest() {
            Some(msg) => Some(msg),
            None => self.tail_msgs.oldest(),
        }
    }

    /// The key of the oldest message, if it is for one key.
    pub fn oldest_point(&self) -> Option<&Key>
        ensures { option_copied result ≡ first_point self.now.0 }
    {
        match self.oldest() {
            None => None,
            Some(msg) => msg.point_key(),
        }
    }

    /// The key to which the oldest message gives a value, if it is a put.
    pub fn oldest_put(&self) -> Option<&Key>
        ensures { option_copied result ≡ first_put self.now.0 }
    {
        match self.oldest() {
            None => None,
            Some(msg) => msg.put(),
        }
    }

    /// The key to which the oldest message may give a value, if it is a put or an edit.
    pub fn oldest_created_key(&self) -> Option<&Key>
        ensures { option_copied result ≡ first_given self.now.0 }
    {
        match self.oldest() {
            None => None,
            Some(msg) => msg.created_key(),
        }
    }

    /// Whether there is an oldest message and it has a part in the keys from `lo` up to, but excluding, `hi`.
    pub fn oldest_meets(&self, lo: &Key, hi: Option<&Key>) -> bool
        ensures { result ≡ meets_first lo.now (option_copied hi.entry) self.now.0 }
    {
        match self.oldest() {
            None => false,
            Some(msg) => msg.overlaps_range(lo, hi),
        }
    }

    /// Whether there is an oldest message and it is a range-delete of every key from `lo` up to, but excluding, `hi`.
    pub fn oldest_covers(&self, lo: &Key, hi: Option<&Key>) -> bool
        ensures { result ≡ covers_first lo.now (option_copied hi.entry) self.now.0 }
    {
        match self.oldest() {
            None => false,
            Some(msg) => msg.covers(lo, hi),
        }
    }

    // ---- copies, splits, moves and removal

    /// Copies of the `count` oldest messages.
    pub fn copy_front(&self, alloc: Global, count: usize) -> Result<Vec<Msg<U>>, NoMemory>
        requires { count ≤ length self.now.0 }
        ensures { IfOk result (λ front. front.items ≡ take count self.now.0) }
    {
        let mut front = self.sorted.copy_front(alloc, count)?;
        let sorted = count.min(self.sorted.len());
        self.tail_msgs
            .copy_oldest(alloc, count - sorted, &mut front)?;
        Ok(front)
    }

    /// Prepares for copies, which then take constant time but for the tail, and up to 64 new messages wait in the tail while a copy
    /// exists.
    pub fn make_sharable(&mut self)
        ensures { self.new ≡ self.old }
    {
        self.sorted.make_sharable();
    }

    /// A copy that shares its messages with this list.
    pub fn copy(&self, alloc: Global) -> Result<Pending<U>, NoMemory>
        ensures { IfOk result (λ p. p.0 ≡ self.now.0) }
    {
        let sorted = self.sorted.copy()?;
        let tail_msgs = self.tail_msgs.copy(alloc)?;
        Ok(Pending { sorted, tail_msgs })
    }

    /// A list of the messages without the `consumed` oldest, clipped to the keys from `lo` up to, but excluding, `hi`.
    pub fn copy_between(
        &self,
        alloc: Global,
        consumed: usize,
        lo: &Key,
        hi: Option<&Key>,
    ) -> Result<Pending<U>, NoMemory>
        requires { consumed ≤ length self.now.0 }
        ensures { IfOk result (λ p. Takes U.means [] (pieces lo.now (option_copied hi.entry) (drop consumed self.now.0)) p.0) }
    {
        let mut rest = self.copy(alloc)?;
        rest.drop_front(consumed);
        rest.keep_before(alloc, hi)?;
        let (_, list) = rest.split_at(alloc, lo)?;
        Ok(list)
    }

    /// Keeps only the parts of the messages before `end`, if it is given. On allocation failure any message may be lost.
    fn keep_before(&mut self, alloc: Global, end: Option<&Key>) -> Result<(), NoMemory>
        ensures { OnOk result (IsUpTo (option_copied end.entry) self.old.0 self.new.0) }
    {
        let Some(end) = end else {
            return Ok(());
        };
        let all = std::mem::replace(self, Pending::new(alloc));
        let (front, _) = all.split_at(alloc, end)?;
        *self = front;
        Ok(())
    }

    /// The parts of the messages before the pivot, and those from it on. No message is copied except a range-delete across the
    /// pivot.
    fn split_at(self, alloc: Global, pivot: &Key) -> Result<(Pending<U>, Pending<U>), NoMemory>
        ensures front { IfOk result (λ r. r.0.0 ≡ pieces [] (Some pivot.now) self.0) }
        ensures back { IfOk result (λ r. r.1.0 ≡ pieces pivot.now None self.0) }
    {
        let Pending { sorted, tail_msgs } = self;
        let (front, back) = sorted.split_at(alloc, pivot)?;
        let (before, behind) = tail_msgs.split_at(alloc, pivot)?;
        let front = Pending {
            sorted: front,
            tail_msgs: before,
        };
        let back = Pending {
            sorted: back,
            tail_msgs: behind,
        };
        Ok((front, back))
    }

    /// Splits the list at the pivot, without its `consumed` oldest messages: it keeps the parts from `lo` up to the pivot, and
    /// returns those from the pivot on. A range-delete across the pivot is split too. On allocation failure the list is
    /// unchanged.
    pub fn split_off(
        &mut self,
        alloc: Global,
        consumed: usize,
        lo: &Key,
        pivot: &Key,
    ) -> Result<Pending<U>, NoMemory>
        requires { consumed ≤ length self.old.0 }
        ensures front { OnOk result (Takes U.means [] (pieces lo.now (Some pivot.now) (drop consumed self.old.0)) self.new.0) }
        ensures back { IfOk result (λ p. Takes U.means [] (pieces pivot.now None (drop consumed self.old.0)) p.0) }
        ensures err { OnErr result (self.new ≡ self.old) }
    {
        if let Some(back) = self.move_tail_off(alloc, consumed, lo, pivot)? {
            return Ok(back);
        }
        let mut rest = self.copy(alloc)?;
        rest.drop_front(consumed);
        let (front, back) = rest.split_at(alloc, pivot)?;
        let (_, front) = front.split_at(alloc, lo)?;
        *self = front;
        Ok(back)
    }

    /// Does the same by moving messages, if possible: if the list has no tail and no range-delete, and no message is before
    /// `lo`.
    fn move_tail_off(
        &mut self,
        alloc: Global,
        consumed: usize,
        lo: &Key,
        pivot: &Key,
    ) -> Result<Option<Pending<U>>, NoMemory>
        requires { consumed ≤ length self.old.0 }
        ensures front { IfOk result (λ o. MatchOption o (self.new ≡ self.old) (λ _. self.new.0 ≡ pieces lo.now (Some pivot.now) (drop consumed self.old.0))) }
        ensures back { IfOk result (λ o. IfSome o (λ p. p.0 ≡ pieces pivot.now None (drop consumed self.old.0))) }
        ensures err { OnErr result (self.new ≡ self.old) }
    {
        if self.tail_msgs.len() > 0 {
            return Ok(None);
        }
        let Some(sorted) = self.sorted.split_off(alloc, lo, pivot)? else {
            return Ok(None);
        };
        let tail_msgs = Tail::new(alloc);
        let mut back = Pending { sorted, tail_msgs };
        let first = consumed.min(self.len());
        self.drop_front(first);
        back.drop_front(consumed - first);
        Ok(Some(back))
    }

    /// Moves the oldest messages to another list, in which they are newer than all others, and returns how many: all messages
    /// of one key without copying them, if there are at most `most` and this is possible, else only the oldest. On allocation
    /// failure both lists are unchanged.
    pub fn flush_oldest(&mut self, to: &mut Pending<U>, most: usize) -> Result<usize, NoMemory>
        ensures takes { IfOk result (λ n. Takes U.means to.old.0 (take n self.old.0) to.new.0) }
        ensures left { IfOk result (λ n. self.new.0 ≡ drop n self.old.0) }
        ensures within { IfOk result (λ n. (n ≤ most) × (n ≤ length self.old.0)) }
        ensures some { IfOk result (λ n. 0 < most → 0 < length self.old.0 → 0 < n) }
        ensures still { IfOk result (λ n. n ≡ 0 → to.new.0 ≡ to.old.0) }
        ensures alike { IfOk result (λ n. All (λ m. point_key m ≡ first_point self.old.0) (take n self.old.0)) }
        ensures err { OnErr result ((self.new.0 ≡ self.old.0) × (to.new.0 ≡ to.old.0)) }
    {
        if most == 0 {
            return Ok(0);
        }
        match self.flush_key(to, most) {
            Some(count) => Ok(count),
            None => self.flush_one(to),
        }
    }

    /// Moves the oldest messages, a range-delete or those of one key and at most `most`, without copying them, and returns how
    /// many. It moves none if the other list has a tail, or if its sorted part accepts none.
    fn flush_key(&mut self, to: &mut Pending<U>, most: usize) -> Option<usize>
        ensures takes { IfSome result (λ n. Takes U.means to.old.0 (take n self.old.0) to.new.0) }
        ensures left { IfSome result (λ n. self.new.0 ≡ drop n self.old.0) }
        ensures within { IfSome result (λ n. (0 < n) × (n ≤ most) × (n ≤ length self.old.0)) }
        ensures alike { IfSome result (λ n. All (λ m. point_key m ≡ first_point self.old.0) (take n self.old.0)) }
        ensures none { IfNone result ((self.new.0 ≡ self.old.0) × (to.new.0 ≡ to.old.0)) }
    {
        if to.tail_msgs.len() > 0 {
            return None;
        }
        let alloc = to.tail_msgs.allocator();
        let count = to.sorted.take_first(alloc, &mut self.sorted, most)?;
        Some(count)
    }

    /// A walk over the messages of the sorted part, if that has no range-delete and no message of its first key is consumed. It
    /// needs no memory.
    pub fn walk_oldest(&self) -> Option<OldestWalk<'_, U>>
        ensures { IfSome result (λ w. IsWalk w self.now.0) }
    {
        self.sorted.walk_oldest()
    }

    /// Adds the operations of a walk's next key, at most `most`, newer than all messages here, and returns how many. It adds none if
    /// there is a tail, if the walk has ended, if the key has more operations or several updates that are to follow others here, or on
    /// allocation failure.
    pub fn share_first_of(&mut self, walk: &OldestWalk<'_, U>, most: usize) -> Option<usize>
        ensures takes { IfSome result (λ n. Takes U.means self.old.0 (take n (point_msgs walk.now)) self.new.0) }
        ensures within { IfSome result (λ n. (n ≡ first_len walk.now) × (0 < n) × (n ≤ most)) }
        ensures none { IfNone result (self.new.0 ≡ self.old.0) }
    {
        if self.tail_msgs.len() > 0 {
            return None;
        }
        let alloc = self.tail_msgs.allocator();
        self.sorted.share_first_of(alloc, walk, most)
    }

    /// Moves the oldest message, if there is one, and returns how many were moved.
    fn flush_one(&mut self, to: &mut Pending<U>) -> Result<usize, NoMemory>
        ensures takes { IfOk result (λ n. Takes U.means to.old.0 (take n self.old.0) to.new.0) }
        ensures left { IfOk result (λ n. self.new.0 ≡ drop n self.old.0) }
        ensures within { IfOk result (λ n. (n ≤ 1) × (n ≤ length self.old.0)) }
        ensures some { IfOk result (λ n. 0 < length self.old.0 → 0 < n) }
        ensures still { IfOk result (λ n. n ≡ 0 → to.new.0 ≡ to.old.0) }
        ensures alike { IfOk result (λ n. All (λ m. point_key m ≡ first_point self.old.0) (take n self.old.0)) }
        ensures err { OnErr result ((self.new.0 ≡ self.old.0) × (to.new.0 ≡ to.old.0)) }
    {
        to.reserve(1)?;
        let Some(msg) = self.first_copy()? else {
            return Ok(0);
        };
        self.drop_front(1);
        to.push_reserved(msg);
        Ok(1)
    }

    /// A copy of the oldest message, if there is one.
    fn first_copy(&self) -> Result<Option<Msg<U>>, NoMemory>
        ensures { IfOk result (λ o. o ≡ slice_get self.now.0 0) }
    {
        match self.oldest() {
            None => Ok(None),
            Some(msg) => Ok(Some(msg.copy(self.tail_msgs.allocator())?)),
        }
    }

    /// Moves all messages to another list, in which they are newer than all that are there. On allocation failure some may have
    /// moved, and both lists together have the same effect.
    ///
    /// An empty list takes over the other as it is. Otherwise most messages move without being copied. The exceptions are those
    /// of the other list's tail that further lists share; those in rows that further lists share; updates of a key that has
    /// messages in the other list; and a range-delete that covers a key with messages there.
    pub fn flush_all(&mut self, to: &mut Pending<U>) -> Result<(), NoMemory>
        ensures ok { OnOk result (Takes U.means to.old.0 self.old.0 to.new.0) }
        ensures moved { OnOk result (self.new.0 ≡ []) }
        ensures some { OnErr result (Takes U.means (to.old.0 ++ self.old.0) [] (to.new.0 ++ self.new.0)) }
    {
        if to.len() == 0 {
            std::mem::swap(self, to);
            return Ok(());
        }
        let most = to.tail_msgs.len();
        condense(&mut to.sorted, &mut to.tail_msgs, most);
        while !self.flush_more(to)? {}
        Ok(())
    }

    /// Moves the oldest messages of the sorted part, or of the tail if the sorted part is empty, and returns whether that was
    /// all. On allocation failure both lists are unchanged.
    fn flush_more(&mut self, to: &mut Pending<U>) -> Result<bool, NoMemory>
        ensures same { OnOk result (Takes U.means (to.old.0 ++ self.old.0) [] (to.new.0 ++ self.new.0)) }
        ensures all { IfOk result (λ all. all ≡ true → self.new.0 ≡ []) }
        ensures fewer { IfOk result (λ all. all ≡ false → length self.new.0 < length self.old.0) }
        ensures err { OnErr result ((self.new.0 ≡ self.old.0) × (to.new.0 ≡ to.old.0)) }
    {
        let most = self.sorted.len();
        if most > 0 {
            self.flush_oldest(to, most)?;
            return Ok(false);
        }
        to.tail_msgs.join(&mut self.tail_msgs)?;
        Ok(true)
    }

    /// Merges both lists, with the messages of `newer` newer than all others. If one list is before the pivot and the newer one
    /// from it on, the messages are moved without being copied; otherwise they move as [`Pending::flush_all`] moves them.
    pub fn merged(
        self,
        alloc: Global,
        newer: Pending<U>,
        pivot: &Key,
    ) -> Result<Pending<U>, NoMemory>
        ensures { IfOk result (λ p. Takes U.means self.0 newer.0 p.0) }
    {
        if self.lies_before(alloc, pivot) && newer.lies_from(pivot) {
            return self.joined_at(alloc, newer, pivot);
        }
        let mut all = self;
        let mut rest = newer;
        rest.flush_all(&mut all)?;
        Ok(all)
    }

    /// Whether each message is entirely before the pivot.
    fn lies_before(&self, alloc: Global, pivot: &Key) -> bool
        ensures { result ≡ true → LieIn [] (Some pivot.now) self.now.0 }
    {
        self.sorted.lies_before(pivot) && self.tail_msgs.lies_before(alloc, pivot)
    }

    /// Whether each message is entirely from the pivot on.
    fn lies_from(&self, pivot: &Key) -> bool
        ensures { result ≡ true → LieIn pivot.now None self.now.0 }
    {
        self.sorted.lies_from(pivot) && self.tail_msgs.lies_from(pivot)
    }

    /// Merges both lists without copying their messages.
    fn joined_at(
        self,
        alloc: Global,
        newer: Pending<U>,
        pivot: &Key,
    ) -> Result<Pending<U>, NoMemory>
        requires before { LieIn [] (Some pivot.now) self.0 }
        requires from { LieIn pivot.now None newer.0 }
        ensures { IfOk result (λ p. IsJoined pivot.now self.0 newer.0 p.0) }
    {
        let Pending {
            sorted,
            mut tail_msgs,
        } = self;
        let Pending {
            sorted: later,
            tail_msgs: mut behind,
        } = newer;
        tail_msgs.join(&mut behind)?;
        let sorted = sorted.merged(alloc, later, pivot)?;
        Ok(Pending { sorted, tail_msgs })
    }

    /// Removes the `count` oldest messages.
    pub fn drop_front(&mut self, count: usize)
        requires { count ≤ length self.old.0 }
        ensures messages { self.new.0 ≡ drop count self.old.0 }
        ensures room { self.old.1 ≤ self.new.1 }
    {
        let sorted = count.min(self.sorted.len());
        self.sorted.drop_front(sorted);
        self.tail_msgs.drop_oldest(count - sorted);
    }

    // ---- queries

    /// What the list says of the value at the key. It copies only a value that it determines. If a message of the tail touches
    /// the key, it determines none. It needs the base only if a message touches the key.
    pub fn resolve(&self, alloc: Global, key: &Key) -> Result<Resolution<U::Value>, NoMemory>
        ensures resolved { IfOk result (IsResolved U.means self.now.0 key.now) }
        ensures touched { IfOk result (λ r. r ≡ resolution.NeedsBase → any_touches self.now.0 key.now ≡ true) }
    {
        if self.tail_msgs.is_touched(key) {
            return Ok(Resolution::NeedsBase);
        }
        self.sorted.resolve(alloc, key)
    }

    /// Applies the messages to `old`, the older value at `key`, and returns the resulting value.
    pub fn value_after(
        &self,
        alloc: Global,
        key: &Key,
        old: Option<U::Value>,
    ) -> Result<Option<U::Value>, NoMemory>
        ensures { IfOk result (λ v. v ≡ effects U.means self.now.0 key.now old) }
    {
        let value = self.sorted.value_after(alloc, key, old)?;
        self.tail_msgs.apply_msgs(alloc, key, value)
    }

    /// The end of the segment of keys that begins at `from`: from there to its end, which is at `end` or before it, each
    /// message touches all keys or none.
    pub fn segment_end(
        &self,
        alloc: Global,
        from: &Key,
        end: Option<&Key>,
    ) -> Result<Option<Key>, NoMemory>
        requires { is_below from.now (option_copied end) ≡ true }
        ensures { IfOk result (λ stop. IsStretch self.now.0 from.now (option_copied end.entry) stop) }
    {
        match self.sorted.segment_end(from, end) {
            None => Ok(Some(from.next(alloc)?)),
            Some(stop) => self.tail_msgs.stretch_stop(alloc, from, stop),
        }
    }

    /// The first key from `from` up to, but excluding, `end` that has a message for it alone, if there is one.
    pub fn next_point<'a>(&'a self, from: &'a Key, end: Option<&'a Key>) -> Option<&'a Key>
        ensures { IsNextPoint self.now.0 from.now (option_copied end.entry) (option_copied result) }
    {
        let stop = self.sorted.next_point(from, end);
        let Some(key) = self.tail_msgs.next_point(from, stop) else {
            return None;
        };
        if !is_before_end(key, end) {
            return None;
        }
        Some(key)
    }

    /// The last key from `lo` up to, but excluding, `hi` that has a message for it alone, if there is one.
    pub fn last_point(&self, lo: &Key, hi: Option<&Key>) -> Option<&Key>
        ensures { IsLastPoint self.now.0 lo.now (option_copied hi.entry) (option_copied result) }
    {
        let in_sorted = self.sorted.last_point(lo, hi);
        later(in_sorted, self.tail_msgs.last_point(lo, hi))
    }

    /// A cursor over the keys from `from` on that have messages for them alone.
    pub fn walk_points(&self, from: &Key) -> PointCursor<'_, U>
        ensures list { result.0 ≡ self.now.0 }
        ensures stands { StandsAt from.now result }
    {
        let rest = if self.tail_msgs.len() > 0 {
            None
        } else {
            self.sorted.walk_from(from)
        };
        PointCursor { list: self, rest }
    }

    /// Whether a range-delete covers the key: then no older value remains there.
    pub fn is_range_deleted(&self, key: &Key) -> bool
        ensures { result ≡ is_cleared self.now.0 key.now }
    {
        self.sorted.is_range_deleted(key) || self.tail_msgs.is_range_deleted(key)
    }

    /// The key up to which the range-deletes cover either all keys from `from` on or none of them: at `end` or before it.
    pub fn range_deleted_until(
        &self,
        alloc: Global,
        from: &Key,
        end: Option<&Key>,
    ) -> Result<Option<Key>, NoMemory>
        requires { is_below from.now (option_copied end) ≡ true }
        ensures { IfOk result (λ stop. IsClearStretch self.now.0 from.now (option_copied end.entry) stop) }
    {
        let first = self.sorted.range_deleted_until(from, end);
        self.tail_msgs.stretch_stop(alloc, from, first)
    }
}

/// Condenses the tail into the sorted part, the oldest message first, up to one that cannot be inserted there, and at most
/// `most` messages.
fn condense<U: Update>(sorted: &mut SortedMsgs<U>, tail_msgs: &mut Tail<U>, most: usize)
    ensures same { Takes U.means (sorted.old ++ tail_msgs.old.0) [] (sorted.new ++ tail_msgs.new.0) }
    ensures room { tail_msgs.old.1 ≤ tail_msgs.new.1 }
{
    if tail_msgs.len() == 0 {
        return;
    }
    let mut more = most;
    while more > 0 && condense_oldest(sorted, tail_msgs) {
        more -= 1;
    }
}

/// Inserts the oldest message of the tail into the sorted part, and returns whether it did; otherwise both are unchanged.
fn condense_oldest<U: Update>(sorted: &mut SortedMsgs<U>, tail_msgs: &mut Tail<U>) -> bool
    ensures same { Takes U.means (sorted.old ++ tail_msgs.old.0) [] (sorted.new ++ tail_msgs.new.0) }
    ensures room { tail_msgs.old.1 ≤ tail_msgs.new.1 }
    ensures fewer { result ≡ true → length tail_msgs.new.0 < length tail_msgs.old.0 }
{
    let Some(msg) = tail_msgs.pop() else {
        return false;
    };
    match sorted.push(tail_msgs.allocator(), msg) {
        Ok(()) => true,
        Err(msg) => {
            tail_msgs.push_front_reserved(msg);
            false
        }
    }
}
