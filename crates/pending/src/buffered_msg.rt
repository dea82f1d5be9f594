//! One message of a tail, or a part of a message that was split.
//!
//! Invariant: however it is stored, in an allocation that several lists share or inline, it is the same message.
ghost use Rattle.std.specs.Prelude.{◌≡◌, true, is_some, [], Some, None, IfOk, MatchResult};
ghost use Rattle.message.specs.Cuts.{cut_to};
ghost use Rattle.pending.specs.MsgRef.{borrowed_msg};
ghost use Rattle.pending.specs.BufferedMsg.{msg_at};
ghost use Rattle.message.specs.declared.msg.Msg.TheVariants as msg;

use crate::msg_ref::MsgRef;
use crate::shared_range::SharedRange;
use message::{Msg, Update, UpdateTarget};
use pathkey::{Key, KeyRange, NoMemory};
use std::alloc::Global;
use std::marker::Model;
use std::sync::Arc;

/// A message as it was added, or a part of one that was split. Contracts see the message.
#[derive(Drop)]
pub struct BufferedMsg<U: UpdateTarget> {
    place: MsgStorage<U>,
}

/// How a message is stored.
#[derive(Drop)]
pub enum MsgStorage<U: UpdateTarget> {
    /// In an allocation of its own, which other lists may share.
    Shared(Arc<Msg<U>>),
    /// A range-delete, whose range other lists may share.
    Range(SharedRange),
    /// Inline, if an allocation of its own failed.
    Alone(Msg<U>),
}

impl<U: UpdateTarget> Model for BufferedMsg<U> {
    ghost use Rattle.message.specs.declared.msg.Msg.{Msg};

    ghost Value = { Msg U U.Value };

    ghost use Rattle.pending.specs.BufferedMsg.{msg_at};

    ghost view = { λ w. msg_at w.place };
}

impl<U: Update> BufferedMsg<U> {
    /// Stores the message in an allocation of its own if memory is available, else inline.
    pub(crate) fn new(alloc: Global, msg: Msg<U>) -> BufferedMsg<U>
        ensures { result ≡ msg }
    {
        let place = match msg {
            Msg::DelRange(range) => place_of_range(alloc, range),
            msg => position(alloc, msg),
        };
        BufferedMsg { place }
    }

    /// Borrows the message.
    pub(crate) fn as_msg(&self) -> MsgRef<'_, U>
        ensures { borrowed_msg result ≡ self.now }
    {
        match &self.place {
            MsgStorage::Shared(msg) => MsgRef::of(msg),
            MsgStorage::Range(part) => MsgRef::DelRange(part.lo(), part.hi()),
            MsgStorage::Alone(msg) => MsgRef::of(msg),
        }
    }

    /// Another reference to the message, for another list. It is copied only if it is stored inline.
    pub(crate) fn share(&self, alloc: Global) -> Result<BufferedMsg<U>, NoMemory>
        ensures { IfOk result (λ w. w ≡ self.now) }
    {
        let place = match &self.place {
            MsgStorage::Shared(msg) => MsgStorage::Shared(Arc::try_clone(msg)?),
            MsgStorage::Range(part) => MsgStorage::Range(part.share()?),
            MsgStorage::Alone(msg) => return Ok(BufferedMsg::new(alloc, msg.copy(alloc)?)),
        };
        Ok(BufferedMsg { place })
    }

    /// The parts of the message before the pivot, and from it on. A message for one key is moved to its side without being
    /// copied, and a range is shared by both. Only a range-delete across the pivot that is stored inline is copied.
    pub(crate) fn split_at(
        self,
        alloc: Global,
        pivot: &Arc<Key>,
    ) -> Result<(Option<BufferedMsg<U>>, Option<BufferedMsg<U>>), NoMemory>
        ensures before { IfOk result (λ r. r.0 ≡ cut_to [] (Some pivot.now.value) self) }
        ensures behind { IfOk result (λ r. r.1 ≡ cut_to pivot.now.value None self) }
    {
        let msg = self.as_msg();
        let is_before = msg.overlaps_range(&Key::new(alloc), Some(pivot));
        let is_behind = msg.overlaps_range(pivot, None);
        match (is_before, is_behind) {
            (false, false) => Ok((None, None)),
            (true, false) => Ok((Some(self), None)),
            (false, true) => Ok((None, Some(self))),
            (true, true) => self.split_msg(alloc, pivot),
        }
    }

    /// The two parts of a message that has keys on both sides of the pivot.
    fn split_msg(
        self,
        alloc: Global,
        pivot: &Arc<Key>,
    ) -> Result<(Option<BufferedMsg<U>>, Option<BufferedMsg<U>>), NoMemory>
        requires before { is_some (cut_to [] (Some pivot.now.value) self) ≡ true }
        requires behind { is_some (cut_to pivot.now.value None self) ≡ true }
        ensures before { IfOk result (λ r. r.0 ≡ cut_to [] (Some pivot.now.value) self) }
        ensures behind { IfOk result (λ r. r.1 ≡ cut_to pivot.now.value None self) }
    {
        match self.place {
            MsgStorage::Range(part) => {
                let before = part.share()?.truncate_to(pivot)?;
                let behind = part.truncate_from(pivot)?;
                Ok((
                    Some(BufferedMsg::of_part(before)),
                    Some(BufferedMsg::of_part(behind)),
                ))
            }
            MsgStorage::Shared(msg) => split_copies(alloc, &msg, pivot),
            MsgStorage::Alone(msg) => split_copies(alloc, &msg, pivot),
        }
    }

    /// A range-delete of this range.
    fn of_part(part: SharedRange) -> BufferedMsg<U>
        ensures { result ≡ msg.DelRange part }
    {
        BufferedMsg {
            place: MsgStorage::Range(part),
        }
    }

    /// Takes the message out of its allocation. If other lists share it, it is copied; if this fails to allocate, the buffered
    /// message is returned as the error.
    pub(crate) fn into_msg(self, alloc: Global) -> Result<Msg<U>, BufferedMsg<U>>
        ensures { MatchResult result (λ m. m ≡ self) (λ w. w ≡ self) }
    {
        match self.place {
            MsgStorage::Alone(msg) => Ok(msg),
            MsgStorage::Shared(shared) => out_of(alloc, shared),
            MsgStorage::Range(part) => match part.into_range(alloc) {
                Ok(range) => Ok(Msg::DelRange(range)),
                Err(part) => Err(BufferedMsg::of_part(part)),
            },
        }
    }
}

/// The storage of a message: an allocation of its own if memory is available, else inline.
fn position<U: Update>(alloc: Global, msg: Msg<U>) -> MsgStorage<U>
    ensures { msg_at result ≡ msg }
{
    match Arc::new(alloc, msg) {
        Ok(shared) => MsgStorage::Shared(shared),
        Err(refused) => MsgStorage::Alone(refused.value),
    }
}

/// The storage of a range-delete, likewise.
fn place_of_range<U: Update>(alloc: Global, range: KeyRange) -> MsgStorage<U>
    ensures { msg_at result ≡ msg.DelRange range }
{
    match SharedRange::new(alloc, range) {
        Ok(part) => MsgStorage::Range(part),
        Err(range) => MsgStorage::Alone(Msg::DelRange(range)),
    }
}

/// Copies of the parts of a message before the pivot, and from it on.
fn split_copies<U: Update>(
    alloc: Global,
    msg: &Msg<U>,
    pivot: &Key,
) -> Result<(Option<BufferedMsg<U>>, Option<BufferedMsg<U>>), NoMemory>
    ensures before { IfOk result (λ r. r.0 ≡ cut_to [] (Some pivot.now) msg.now) }
    ensures behind { IfOk result (λ r. r.1 ≡ cut_to pivot.now None msg.now) }
{
    let before = msg.cut_between(alloc, &Key::new(alloc), Some(pivot))?;
    let behind = msg.cut_between(alloc, pivot, None)?;
    Ok((wait_for(alloc, before), wait_for(alloc, behind)))
}

/// Stores the message, if there is one.
fn wait_for<U: Update>(alloc: Global, msg: Option<Msg<U>>) -> Option<BufferedMsg<U>>
    ensures { result ≡ msg }
{
    match msg {
        None => None,
        Some(msg) => Some(BufferedMsg::new(alloc, msg)),
    }
}

/// Takes the message out of a shared allocation, or copies it if others share it.
fn out_of<U: Update>(alloc: Global, shared: Arc<Msg<U>>) -> Result<Msg<U>, BufferedMsg<U>>
    ensures { MatchResult result (λ m. m ≡ shared.value) (λ w. w ≡ shared.value) }
{
    let shared = match Arc::try_unwrap(shared) {
        Ok(msg) => return Ok(msg),
        Err(shared) => shared,
    };
    match shared.copy(alloc) {
        Ok(msg) => Ok(msg),
        Err(_) => Err(BufferedMsg {
            place: MsgStorage::Shared(shared),
        }),
    }
}
