//! Which slot's job would move the most messages.
//!
//! Invariant of the search: the greatest number so far is passed on, so that it looks below only those slots that have more
//! messages pending.
ghost use Rattle.std.specs.Prelude.{◌≡◌, ◌<◌, ◌≤◌, IfSome, MatchOption, length};
ghost use Rattle.jobs.specs.Heaviest.{AreAtMost, IsFirstGreatest, IsHeaviest, MovesNone, movable, movable_each};
ghost use Rattle.node.specs.See.{seen_slots};

use super::{Marks, kept_at};
use crate::mark::Mark;
use flush::inner::free_pieces;
use message::Update;
use node::{Body, Slot, Tree};

/// A slot of a root from which a job can be taken.
#[derive(Clone, Copy, Debug, PartialEq, Eq)]
pub struct Backlog {
    /// The slot's index.
    pub slot: u8,
    /// How many messages the job would move at most: those that are pending there, as many as the slot's child has room for.
    pub messages: usize,
    /// How many pending pieces a node below the root may hold.
    pub room: u16,
}

/// The index of a slot, and how many messages a job from it would move at most.
#[derive(Clone, Copy)]
struct Busiest {
    number: usize,
    messages: usize,
}

/// How many messages a job from the slot would move at most, given that a node may hold `room`, if these are more than `most`;
/// otherwise a number that is no greater. It looks below the slot only if more than `most` messages are pending there.
fn movable_above<U: Update>(marks: &[Mark], slot: &Slot<U>, room: u16, most: usize) -> usize
    ensures more { most < movable marks.now room slot.now.lo slot.now.pending.0 slot.now.child.value → result ≡ movable marks.now room slot.now.lo slot.now.pending.0 slot.now.child.value }
    ensures within { result ≤ movable marks.now room slot.now.lo slot.now.pending.0 slot.now.child.value }
{
    let waiting = slot.pending.len();
    if waiting <= most || kept_at(marks, &slot.lo) != 0 {
        return 0;
    }
    waiting.min(free_pieces(&slot.child, room) as usize)
}

/// The slot whose job would move the most messages, the first of equals, if these are more than `most`; `None` if no slot's job
/// would move more than `most`.
fn busiest_slot<U: Update>(
    marks: &[Mark],
    slots: &[Slot<U>],
    room: u16,
    most: usize,
) -> Option<Busiest>
    ensures bound { IfSome result (λ b. b.number < length slots.now) }
    ensures more { IfSome result (λ b. most < b.messages) }
    ensures first { MatchOption result (AreAtMost most (movable_each marks.now room (seen_slots slots.now))) (λ b. IsFirstGreatest b.number b.messages (movable_each marks.now room (seen_slots slots.now))) }
{
    let Some((slot, later)) = slots.split_first() else {
        return None;
    };
    let messages = movable_above(marks, slot, room, most);
    if let Some(behind) = busiest_slot(marks, later, room, most.max(messages)) {
        return Some(Busiest {
            number: behind.number + 1,
            messages: behind.messages,
        });
    }
    if messages <= most {
        return None;
    }
    Some(Busiest {
        number: 0,
        messages,
    })
}

impl Marks {
    /// The slot of the tree's root whose job would move the most messages, the first of equals. A job can be taken from it.
    /// `None` means that no job that can be taken from the tree would move a message: each slot has a mark, has nothing pending,
    /// is over a leaf, or is over a node that has no room. It does not allocate.
    pub fn heaviest<U: Update>(&self, tree: &Tree<U>) -> Option<Backlog>
        ensures { MatchOption result (MovesNone self.now tree.now) (λ b. IsHeaviest b.slot b.messages b.room self.now tree.now) }
    {
        let room = tree.shape().pending;
        let root = tree.root();
        let Body::Inner(slots) = root.body() else {
            // Unreachable: a root is an inner node.
            return None;
        };
        let busiest = busiest_slot(self.list.as_slice(), slots.as_slice(), room, 0)?;
        Some(Backlog {
            slot: busiest.number as u8,
            messages: busiest.messages,
            room,
        })
    }
}
