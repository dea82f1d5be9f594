//! A copy of one level of a tree: the children are shared.
//!
//! The copy means what the original means, so that a change of a shared node can work on it.
ghost use Rattle.std.specs.Prelude.{◌≡◌, IfOk, map};
ghost use Rattle.node.specs.See.{see_slot};

use super::{Body, Node, Slot};
use message::Update;
use pathkey::{Key, NoMemory};
use std::alloc::{AllocError, Global};
use std::sync::Arc;

/// Equal entries.
pub fn copy_entries<U: Update>(
    alloc: Global,
    entries: &[(Key, U::Value)],
) -> Result<Vec<(Key, U::Value)>, NoMemory>
    ensures { IfOk result (λ v. v.items ≡ entries.now) }
{
    let mut copy = Vec::with_capacity(alloc, entries.len())?;
    for entry in entries {
        copy.push((entry.0.copy(alloc)?, U::copy_value(alloc, &entry.1)?))?;
    }
    Ok(copy)
}

/// A slot with an equal pivot and equal messages over the same child.
fn copy_slot<U: Update>(alloc: Global, slot: &Slot<U>) -> Result<Slot<U>, NoMemory>
    ensures { IfOk result (λ s. see_slot s ≡ see_slot slot.now) }
{
    let lo = slot.lo.copy(alloc)?;
    let pending = slot.pending.copy(alloc)?;
    let child = Arc::try_clone(&slot.child)?;
    Ok(Slot { lo, pending, child })
}

/// Slots with equal pivots and messages over the same children.
pub fn copy_slots<U: Update>(alloc: Global, slots: &[Slot<U>]) -> Result<Vec<Slot<U>>, NoMemory>
    ensures { IfOk result (λ v. map see_slot v.items ≡ map see_slot slots.now) }
{
    let mut copy = Vec::with_capacity(alloc, slots.len())?;
    for slot in slots {
        let copied = copy_slot(alloc, slot)?;
        copy.push(copied)?;
    }
    Ok(copy)
}

impl<U: Update> Node<U> {
    /// The same node, over the same children.
    fn copy_level(&self, alloc: Global) -> Result<Node<U>, NoMemory>
        ensures { IfOk result (λ n. n ≡ self.now) }
    {
        let body = match &self.body {
            Body::Leaf(entries) => Body::Leaf(copy_entries::<U>(alloc, entries.as_slice())?),
            Body::Inner(slots) => Body::Inner(copy_slots(alloc, slots.as_slice())?),
        };
        let weight = self.weight;
        Ok(Node { body, weight })
    }
}

impl<U: Update> Clone for Node<U> {
    ghost is_clone = { λ a b. b ≡ a };

    fn clone(&self) -> Result<Node<U>, AllocError> {
        let alloc = match &self.body {
            Body::Leaf(entries) => *entries.allocator(),
            Body::Inner(slots) => *slots.allocator(),
        };
        match self.copy_level(alloc) {
            Ok(copy) => Ok(copy),
            Err(NoMemory) => Err(AllocError),
        }
    }
}
