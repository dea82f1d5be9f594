//! What a node stores about the messages pending at or below it, so that neither the fullest slot nor the count of all
//! pending messages requires a walk of the tree.
//!
//! Invariant: a stored weight is exact. A change of a node clears its weight and those of the nodes above it; each is computed
//! again from the node's slots and the weights that its children store.
ghost use Rattle.std.specs.Prelude.{◌≡◌, ◌≤◌, ◌<◌, ◌+◌, ◌^◌, max};
ghost use Rattle.std.specs.Borrow.{Lends, sem};
ghost use Rattle.node.specs.See.{see};
ghost use Rattle.node.specs.Weights.{IsWeight};
ghost use Rattle.node.specs.contracts.node.Node.{the_row as node_row};
ghost use Rattle.node.specs.contracts.node.Body.{the_row as body_row};

use super::{Body, Node};
use message::Update;

/// How much is pending in a node's slots and in all below it.
#[derive(Clone, Copy)]
pub struct PendingWeight {
    /// The messages in the longest pending list.
    pub longest: usize,
    /// All pending pieces, but at most `u128::MAX`.
    pub pending: u128,
}

impl PendingWeight {
    /// The weight of a leaf.
    fn nothing() -> PendingWeight
        ensures { result ≡ record { longest = 0; pending = 0 } }
    {
        PendingWeight {
            longest: 0,
            pending: 0,
        }
    }

    /// The weight of these slots and one more, with `count` messages pending for its child.
    fn with_slot(self, count: usize, child: PendingWeight) -> PendingWeight
        ensures longest { result.longest ≡ max (max count child.longest) self.longest }
        ensures at_most { result.pending ≤ self.pending + count + child.pending }
        ensures exact { result.pending < 2 ^ 127 → result.pending ≡ self.pending + count + child.pending }
    {
        let more = child.pending.saturating_add(count as u128);
        PendingWeight {
            longest: self.longest.max(count).max(child.longest),
            pending: self.pending.saturating_add(more),
        }
    }
}

/// The weight of a node with this body, from its slots and the weights of the children; a child that stores none is walked.
fn weight_of<U: Update>(body: &Body<U>) -> PendingWeight
    ensures { IsWeight result (see body.now) }
{
    let mut weight = PendingWeight::nothing();
    if let Body::Inner(slots) = body {
        for slot in slots.as_slice() {
            let child: &Node<U> = &slot.child;
            let below = match child.weight {
                Some(below) => below,
                // Rare: a merge in which an allocation failed half way leaves such a child.
                None => weight_of(&child.body),
            };
            weight = weight.with_slot(slot.pending.len(), below);
        }
    }
    weight
}

impl<U: Update> Node<U> {
    /// A node with this body, which stores its weight.
    pub fn of(body: Body<U>) -> Node<U>
        ensures { result ≡ see body }
    {
        let weight = Some(weight_of(&body));
        Node { body, weight }
    }

    /// How much is pending at or below the node.
    pub fn weight(&self) -> PendingWeight
        ensures { IsWeight result self.now }
    {
        match self.weight {
            Some(weight) => weight,
            // The case of a root after an append, which clears its weight.
            None => weight_of(&self.body),
        }
    }

    /// Stores the weight again, after a change.
    pub fn update_weight(&mut self)
        ensures { self.new ≡ self.old }
    {
        self.weight = Some(weight_of(&self.body));
    }

    /// The entries or slots of the node, to be changed. It clears the node's weight.
    pub fn body_mut(&mut self) -> &mut Body<U>
        ensures* writes_back { sem 𝓛 (Lends (node_row U.row U.Value.row) (body_row U.row U.Value.row) self.entry result see) }
        ensures value { see result.now ≡ self.old }
    {
        self.weight = None;
        &mut self.body
    }
}
