//! The tail of a list: messages in the order of their arrival, the oldest first, which are removed from the front.
//!
//! Invariant: the order is that of arrival, and reserved capacity stays until it is used. The messages are in a queue, so that
//! the oldest can be removed without moving the others. Several tails may share a message.
ghost use Rattle.std.specs.Prelude.{◌≡◌, ◌+◌, ◌^◌, ◌≤◌, ◌<◌, ◌++◌, [], ◌∷◌, true, length, take, drop, Some, None, IfOk, IfNone, IfSome, OnOk, OnErr};
ghost use Rattle.std.specs.Option.{option_copied, option_map, option_to_list};
ghost use Rattle.std.specs.List.{slice_get};
ghost use Rattle.message.specs.Cuts.{pieces, LieIn};
ghost use Rattle.message.specs.Effects.{any_touches, effects, range_count};
ghost use Rattle.pending.specs.MsgRef.{borrowed_msg};
ghost use Rattle.message.specs.PointKeys.{is_cleared, IsPointStop};
ghost use Rattle.message.specs.Stretches.{IsStretch};
ghost use Rattle.pathkey.specs.Keys.{is_below};
ghost use Rattle.pending.specs.LastPoint.{IsLastPoint};

use crate::buffered_msg::BufferedMsg;
use crate::list::{
    apply_msgs, copy_behind, is_range_deleted, is_touched, lie_in, ranges_in, share_behind,
};
use crate::msg_ref::MsgRef;
use crate::segment::{last_point, later, next_point, segment_end};
use message::{Msg, MsgDrain, Update, UpdateTarget};
use pathkey::{Key, NoMemory};
use std::alloc::Global;
use std::collections::VecDeque;
use std::marker::Model;
use std::sync::Arc;

/// Messages in the order of their arrival, and capacity for more.
#[derive(Drop)]
pub struct Tail<U: UpdateTarget> {
    msgs: VecDeque<BufferedMsg<U>>,
}

impl<U: UpdateTarget> Model for Tail<U> {
    ghost use Rattle.std.specs.Prelude.{List, ℕ, ◌-◌};
    ghost use Rattle.std.specs.VecDeque.{deque_len, deque_capacity};
    ghost use Rattle.message.specs.declared.msg.Msg.{Msg};

    ghost Value = { List (Msg U U.Value) × ℕ };

    ghost view = { λ t. (t.msgs.items, deque_capacity t.msgs - deque_len t.msgs) };
}

impl<U: Update> Tail<U> {
    /// An empty tail. It allocates no memory.
    pub(crate) fn new(alloc: Global) -> Tail<U>
        ensures { result.0 ≡ [] }
    {
        Tail {
            msgs: VecDeque::new(alloc),
        }
    }

    /// The allocator of its buffer.
    pub(crate) fn allocator(&self) -> Global {
        *self.msgs.allocator()
    }

    /// The number of messages.
    #[inline(always)]
    pub(crate) fn len(&self) -> usize
        ensures len { result ≡ length self.now.0 }
        ensures small { result < 2 ^ 63 }
    {
        self.msgs.len()
    }

    /// Reserves capacity for `more` more messages; fails on allocation failure.
    pub(crate) fn reserve(&mut self, more: usize) -> Result<(), NoMemory>
        ensures messages { self.new.0 ≡ self.old.0 }
        ensures kept { self.old.1 ≤ self.new.1 }
        ensures room { OnOk result (more ≤ self.new.1) }
        ensures refused { OnErr result (self.old.1 < more) }
    {
        self.msgs.reserve(more)?;
        Ok(())
    }

    /// Appends a message within the reserved capacity.
    pub(crate) fn push_reserved(&mut self, msg: Msg<U>)
        requires { 0 < self.old.1 }
        ensures messages { self.new.0 ≡ self.old.0 ++ msg ∷ [] }
        ensures room { self.old.1 ≤ self.new.1 + 1 }
    {
        self.push_waiting(BufferedMsg::new(self.allocator(), msg));
    }

    /// Appends a stored message, without copying it, within the reserved capacity.
    fn push_waiting(&mut self, waiting: BufferedMsg<U>)
        requires { 0 < self.old.1 }
        ensures messages { self.new.0 ≡ self.old.0 ++ waiting ∷ [] }
        ensures room { self.old.1 ≤ self.new.1 + 1 }
    {
        self.msgs.push_back_reserved(waiting);
    }

    /// Prepends a message within the reserved capacity.
    pub(crate) fn push_front_reserved(&mut self, msg: Msg<U>)
        requires { 0 < self.old.1 }
        ensures messages { self.new.0 ≡ msg ∷ self.old.0 }
        ensures room { self.old.1 ≤ self.new.1 + 1 }
    {
        let waiting = BufferedMsg::new(self.allocator(), msg);
        self.msgs.push_front_reserved(waiting);
    }

    /// Appends all messages of `newer` within the reserved capacity.
    pub(crate) fn append(&mut self, newer: &mut Vec<Msg<U>>)
        requires { length newer.old.items ≤ self.old.1 }
        ensures messages { self.new.0 ≡ self.old.0 ++ newer.old.items }
        ensures moved { newer.new.items ≡ [] }
        ensures room { self.old.1 ≤ self.new.1 + length newer.old.items }
    {
        let empty = Vec::new(*newer.allocator());
        let mut come = MsgDrain::of(std::mem::replace(newer, empty));
        while let Some(msg) = come.next() {
            self.push_reserved(msg);
        }
    }

    /// Removes the oldest message and returns it as it is stored.
    fn take(&mut self) -> Option<BufferedMsg<U>>
        ensures moved { self.old.0 ≡ option_to_list result ++ self.new.0 }
        ensures end { IfNone result (self.old.0 ≡ []) }
        ensures room { self.old.1 ≤ self.new.1 }
        ensures more { IfSome result (λ _. self.old.1 < self.new.1) }
    {
        self.msgs.pop_front()
    }

    /// Removes the oldest message and returns it. It returns none if the tail is empty, or if other lists share the message and
    /// copying it fails to allocate.
    pub(crate) fn pop(&mut self) -> Option<Msg<U>>
        ensures moved { self.old.0 ≡ option_to_list result ++ self.new.0 }
        ensures room { self.old.1 ≤ self.new.1 }
        ensures more { IfSome result (λ _. self.old.1 < self.new.1) }
    {
        let waiting = self.take()?;
        match waiting.into_msg(self.allocator()) {
            Ok(msg) => Some(msg),
            Err(waiting) => {
                self.msgs.push_front_reserved(waiting);
                None
            }
        }
    }

    /// Removes the `count` oldest messages.
    pub(crate) fn drop_oldest(&mut self, count: usize)
        requires { count ≤ length self.old.0 }
        ensures messages { self.new.0 ≡ drop count self.old.0 }
        ensures room { self.old.1 ≤ self.new.1 }
    {
        for _ in 0..count {
            self.take();
        }
    }

    /// The oldest message, if there is one.
    pub(crate) fn oldest(&self) -> Option<MsgRef<'_, U>>
        ensures { option_map borrowed_msg result ≡ slice_get self.now.0 0 }
    {
        match self.msgs.front() {
            Some(waiting) => Some(waiting.as_msg()),
            None => None,
        }
    }

    /// How many of the messages are range-deletes, without the `consumed` oldest.
    pub(crate) fn count_ranges(&self, consumed: usize) -> usize
        requires { consumed ≤ length self.now.0 }
        ensures count { result ≡ range_count (drop consumed self.now.0) }
        ensures small { result < 2 ^ 63 }
    {
        let (near, far) = self.msgs.as_slices();
        let first = consumed.min(near.len());
        ranges_in(&near[first..]) + ranges_in(&far[consumed - first..])
    }

    /// Appends copies of the `count` oldest messages to `front`.
    pub(crate) fn copy_oldest(
        &self,
        alloc: Global,
        count: usize,
        front: &mut Vec<Msg<U>>,
    ) -> Result<(), NoMemory>
        requires { count ≤ length self.now.0 }
        ensures { OnOk result (front.new.items ≡ front.old.items ++ take count self.now.0) }
    {
        let (near, far) = self.msgs.as_slices();
        let first = count.min(near.len());
        copy_behind(alloc, &near[..first], front)?;
        copy_behind(alloc, &far[..count - first], front)?;
        Ok(())
    }

    /// A copy that shares its messages with this tail.
    pub(crate) fn copy(&self, alloc: Global) -> Result<Tail<U>, NoMemory>
        ensures { IfOk result (λ t. t.0 ≡ self.now.0) }
    {
        let (near, far) = self.msgs.as_slices();
        let mut msgs = Vec::new(alloc);
        share_behind(alloc, near, &mut msgs)?;
        share_behind(alloc, far, &mut msgs)?;
        Ok(Tail {
            msgs: VecDeque::from_vec(msgs),
        })
    }

    /// The parts of the messages before the pivot, and those from it on, as [`BufferedMsg::split_at`] makes them.
    pub(crate) fn split_at(self, alloc: Global, pivot: &Key) -> Result<(Tail<U>, Tail<U>), NoMemory>
        ensures front { IfOk result (λ r. r.0.0 ≡ pieces [] (Some pivot.now) self.0) }
        ensures back { IfOk result (λ r. r.1.0 ≡ pieces pivot.now None self.0) }
    {
        let pivot = Arc::new(alloc, pivot.copy(alloc)?)?;
        let mut front = Vec::new(alloc);
        let mut back = Vec::new(alloc);
        let mut rest = self;
        while let Some(waiting) = rest.take() {
            let (before, behind) = waiting.split_at(alloc, &pivot)?;
            push_some(&mut front, before)?;
            push_some(&mut back, behind)?;
        }
        Ok((Tail::of(front), Tail::of(back)))
    }

    /// A tail of these messages.
    fn of(msgs: Vec<BufferedMsg<U>>) -> Tail<U>
        ensures { result.0 ≡ msgs.items }
    {
        Tail {
            msgs: VecDeque::from_vec(msgs),
        }
    }

    /// Moves the messages of a newer tail to the end of this one. On allocation failure both are unchanged.
    pub(crate) fn join(&mut self, newer: &mut Tail<U>) -> Result<(), NoMemory>
        ensures ok { OnOk result (self.new.0 ≡ self.old.0 ++ newer.old.0) }
        ensures moved { OnOk result (newer.new.0 ≡ []) }
        ensures err { OnErr result ((self.new.0 ≡ self.old.0) × (newer.new.0 ≡ newer.old.0)) }
    {
        self.reserve(newer.len())?;
        while let Some(waiting) = newer.take() {
            self.push_waiting(waiting);
        }
        Ok(())
    }

    /// Whether each message is entirely before the pivot.
    pub(crate) fn lies_before(&self, alloc: Global, pivot: &Key) -> bool
        ensures { result ≡ true → LieIn [] (Some pivot.now) self.now.0 }
    {
        let (near, far) = self.msgs.as_slices();
        let first = Key::new(alloc);
        lie_in(near, &first, Some(pivot)) && lie_in(far, &first, Some(pivot))
    }

    /// Whether each message is entirely from the pivot on.
    pub(crate) fn lies_from(&self, pivot: &Key) -> bool
        ensures { result ≡ true → LieIn pivot.now None self.now.0 }
    {
        let (near, far) = self.msgs.as_slices();
        lie_in(near, pivot, None) && lie_in(far, pivot, None)
    }

    /// Whether a message touches the key.
    pub(crate) fn is_touched(&self, key: &Key) -> bool
        ensures { result ≡ any_touches self.now.0 key.now }
    {
        let (near, far) = self.msgs.as_slices();
        is_touched(near, key) || is_touched(far, key)
    }

    /// Applies the messages to `old`, the older value at `key`, and returns the resulting value.
    pub(crate) fn apply_msgs(
        &self,
        alloc: Global,
        key: &Key,
        old: Option<U::Value>,
    ) -> Result<Option<U::Value>, NoMemory>
        ensures { IfOk result (λ v. v ≡ effects U.means self.now.0 key.now old) }
    {
        let (near, far) = self.msgs.as_slices();
        let value = apply_msgs(alloc, near, key, old)?;
        apply_msgs(alloc, far, key, value)
    }

    /// The end of the segment that begins at `from`: at `end` or before it.
    pub(crate) fn stretch_stop(
        &self,
        alloc: Global,
        from: &Key,
        end: Option<&Key>,
    ) -> Result<Option<Key>, NoMemory>
        requires { is_below from.now (option_copied end) ≡ true }
        ensures { IfOk result (λ stop. IsStretch self.now.0 from.now (option_copied end.entry) stop) }
    {
        let (near, far) = self.msgs.as_slices();
        let stop = segment_end(alloc, near, from, end)?;
        segment_end(alloc, far, from, stop.as_ref())
    }

    /// The first key from `from` on that has a message for it alone, if it is before `end`; otherwise `end`.
    pub(crate) fn next_point<'a>(&'a self, from: &Key, end: Option<&'a Key>) -> Option<&'a Key>
        ensures { IsPointStop self.now.0 from.now (option_copied end.entry) (option_copied result) }
    {
        let (near, far) = self.msgs.as_slices();
        let stop = next_point(near, from, end);
        next_point(far, from, stop)
    }

    /// The last key from `lo` up to, but excluding, `hi` that has a message for it alone, if there is one.
    pub(crate) fn last_point(&self, lo: &Key, hi: Option<&Key>) -> Option<&Key>
        ensures { IsLastPoint self.now.0 lo.now (option_copied hi.entry) (option_copied result) }
    {
        let (near, far) = self.msgs.as_slices();
        let in_near = last_point(near, lo, hi);
        later(in_near, last_point(far, lo, hi))
    }

    /// Whether a range-delete covers the key.
    pub(crate) fn is_range_deleted(&self, key: &Key) -> bool
        ensures { result ≡ is_cleared self.now.0 key.now }
    {
        let (near, far) = self.msgs.as_slices();
        is_range_deleted(near, key) || is_range_deleted(far, key)
    }
}

/// Appends a message to others, if there is one.
fn push_some<U: Update>(
    msgs: &mut Vec<BufferedMsg<U>>,
    msg: Option<BufferedMsg<U>>,
) -> Result<(), NoMemory>
    ensures { OnOk result (msgs.new.items ≡ msgs.old.items ++ option_to_list msg) }
{
    if let Some(msg) = msg {
        msgs.push(msg)?;
    }
    Ok(())
}
