//! The marks of the jobs taken from one tree.
//!
//! They are stored beside the tree in the order of their tickets, and each call that changes the tree says which marks it removes:
//! the slots of the others keep the content that their jobs rely on (`AreMarks`).
ghost use Rattle.std.specs.Prelude.{◌≡◌, ◌<◌, ◌++◌, [], IfOk, OnOk, IfSome, length};
ghost use Rattle.std.specs.List.{remove};
ghost use Rattle.jobs.specs.Marks.{kept_at, kept_numbers, kept_in, position, without};
ghost use Rattle.jobs.specs.Survive.{number_in};
ghost use Rattle.node.specs.Searchable.{IsRoot};
ghost use Rattle.node.specs.See.{seen_slots};

use crate::mark::Mark;
use crate::ticket::Ticket;
use message::Update;
use node::search::slot_of;
use node::{Body, Node, Slot};
use pathkey::{Key, NoMemory};
use std::alloc::Global;
use std::marker::Model;

pub mod backlog;
pub mod install;
pub mod step;
pub mod take;

/// The maximum number of marks, over all lists that share a count.
pub const MOST_MARKS: usize = 64;

/// The marks of a tree, in the order of their tickets.
#[derive(Drop)]
pub struct Marks {
    list: Vec<Mark>,
}

impl Model for Marks {
    ghost use Rattle.std.specs.Prelude.{List};
    ghost use Rattle.jobs.specs.Codes.{coded_marks};
    ghost use Rattle.jobs.specs.declared.mark.Mark.{Mark};

    ghost Value = { List Mark };

    ghost coded = { coded_marks };

    ghost view = { λ m. m.list.items };
}

/// The number of messages of the mark of the slot that begins at `lo`; 0 if it has no mark. It does not allocate.
fn kept_at(marks: &[Mark], lo: &Key) -> u32
    ensures { result ≡ kept_at marks.now lo.now }
{
    let Some((mark, others)) = marks.split_first() else {
        return 0;
    };
    if mark.range.lo == *lo {
        return mark.count;
    }
    kept_at(others, lo)
}

/// Appends that number for each slot.
fn push_kept<U: Update>(
    marks: &[Mark],
    slots: &[Slot<U>],
    kept: &mut Vec<u32>,
) -> Result<(), NoMemory>
    ensures { OnOk result (kept.new.items ≡ kept.old.items ++ kept_numbers marks.now (seen_slots slots.now)) }
{
    let Some((slot, later)) = slots.split_first() else {
        return Ok(());
    };
    kept.push(kept_at(marks, &slot.lo))?;
    push_kept(marks, later, kept)
}

/// The index of the mark with the ticket. It does not allocate.
fn position(marks: &[Mark], ticket: u64) -> Option<usize>
    ensures place { result ≡ position ticket marks.now }
    ensures bound { IfSome result (λ i. i < length marks.now) }
{
    let Some((mark, others)) = marks.split_first() else {
        return None;
    };
    if mark.ticket == ticket {
        return Some(0);
    }
    match position(others, ticket) {
        None => None,
        Some(i) => Some(i + 1),
    }
}

/// Removes the mark at the index.
fn remove_mark(marks: &mut Vec<Mark>, i: usize)
    requires { i < length marks.old.items }
    ensures { marks.new.items ≡ remove marks.old.items i }
{
    marks.remove(i);
}

/// The index of the root's slot that contains the key.
pub(crate) fn number_in<U: Update>(root: &Node<U>, key: &Key) -> usize
    requires { IsRoot root.now }
    ensures { result ≡ number_in root.now key.now }
{
    let Body::Inner(slots) = root.body() else {
        // Unreachable: a root is an inner node.
        return 0;
    };
    slot_of(slots.as_slice(), key)
}

impl Marks {
    /// No marks.
    pub fn new(alloc: Global) -> Marks
        ensures { result ≡ [] }
    {
        Marks {
            list: Vec::new(alloc),
        }
    }

    /// The number of marks.
    pub fn len(&self) -> usize
        ensures { result ≡ length self.now }
    {
        self.list.len()
    }

    /// Removes the mark with the ticket, if there is one. It does not allocate.
    pub fn cancel(&mut self, ticket: Ticket)
        ensures { self.new ≡ without ticket.number self.old }
    {
        let Some(i) = position(self.list.as_slice(), ticket.number) else {
            return;
        };
        remove_mark(&mut self.list, i);
    }

    /// Removes all marks. It does not allocate.
    pub fn cancel_all(&mut self)
        ensures { self.new ≡ [] }
    {
        self.list.clear();
    }

    /// For each slot of a root, the number of messages of its mark, or 0: `append_kept` of the tree does not condense these.
    pub fn kept<U: Update>(&self, alloc: Global, root: &Node<U>) -> Result<Vec<u32>, NoMemory>
        ensures { IfOk result (λ v. v.items ≡ kept_in self.now root.now) }
    {
        let mut kept = Vec::new(alloc);
        let Body::Inner(slots) = root.body() else {
            // Unreachable for the root of a tree, which is an inner node.
            return Ok(kept);
        };
        push_kept(self.list.as_slice(), slots.as_slice(), &mut kept)?;
        Ok(kept)
    }
}
