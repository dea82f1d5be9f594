//! Runs a step at a node of a tree.
//!
//! Whatever the reply, the tree is lawful and means what it meant. Every reply but `Did` leaves it as it was.
ghost use Rattle.node.specs.Places.{way};
ghost use Rattle.node.specs.Steps.{Answers};

use super::Tree;
use crate::node::change::SlotStep;
use crate::node::descend::{descend, precheck};
use crate::place::Place;
use crate::step::StepReply;
use message::Update;
use std::alloc::Global;

impl<U: Update> Tree<U> {
    /// Does a change at the slot with index `slot` of the node at `at`.
    ///
    /// That it can be done there and has room is found first, by reading alone. Then the nodes on the path are owned, and
    /// copied if they are shared, one level each.
    pub fn step<C: SlotStep<U>>(
        &mut self,
        alloc: Global,
        change: &C,
        at: Place,
        slot: u8,
    ) -> StepReply
        ensures { Answers U.means C.kind (way at) slot result self.old self.new }
    {
        self.step_below(alloc, change, at.numbers(), slot)
    }

    /// Does a change at the slot with index `slot` of the node that these slot indexes lead to.
    fn step_below<C: SlotStep<U>>(
        &mut self,
        alloc: Global,
        change: &C,
        numbers: &[u8],
        slot: u8,
    ) -> StepReply
        ensures { Answers U.means C.kind numbers.now slot result self.old self.new }
    {
        let i = slot as usize;
        let is_root = numbers.is_empty();
        let refused = precheck(change, self.shape, is_root, &self.root, numbers, i, None);
        if let Some(reply) = refused {
            return reply;
        }
        descend(
            alloc,
            change,
            self.shape,
            is_root,
            &mut self.root,
            numbers,
            i,
        )
    }
}
