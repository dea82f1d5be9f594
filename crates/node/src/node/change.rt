//! A change of the slots of one node, which a walk down the tree carries to that node.
//!
//! A new kind of step implements `SlotStep`: whether it applies, whether it has room, and the change itself. The walks, the replies
//! and the proof that everything else is unchanged are written once.
ghost use Rattle.std.specs.Prelude.{◌≡◌, IsTrue, true, false, ℕ, List, Option};
ghost use Rattle.std.specs.Option.{option_copied};
ghost use Rattle.node.specs.Pure.{inner};
ghost use Rattle.node.specs.Searchable.{IsSearchable};
ghost use Rattle.node.specs.See.{seen_slots};
ghost use Rattle.node.specs.Shapes.{is_shape};
ghost use Rattle.node.specs.Site.{slots_from};
ghost use Rattle.node.specs.Steps.{applies, HasNoRoom, LawfulSlots, MayHaveRoom, Replies};
ghost use Rattle.node.specs.declared.step.StepKind.{StepKind};

use super::Slot;
use crate::shape::Shape;
use crate::step::StepReply;
use message::Update;
use pathkey::Key;
use std::alloc::Global;

/// A step at the slot with index `i` of a node.
pub trait SlotStep<U: Update> {
    /// Which step it is.
    ghost kind: { StepKind };

    /// Whether the step can be done there, given that the node's range ends at `hi`.
    fn applies(&self, slots: &[Slot<U>], i: usize, hi: Option<&Key>) -> bool
        ensures { result ≡ applies kind (option_copied hi.entry) (slots_from i (seen_slots slots.now)) };

    /// Whether there is room for the step if it can be done, as far as reading shows; `root` says whether the node is the
    /// tree's root.
    fn has_room(&self, shape: Shape, root: bool, slots: &[Slot<U>], i: usize) -> bool
        requires { IsSearchable (inner (seen_slots slots.now)) }
        ensures yes { result ≡ true → (h : ℕ) (lo : List ℕ) (hi : Option (List ℕ)) → LawfulSlots shape root h lo hi (seen_slots slots.now) → applies kind hi (slots_from i (seen_slots slots.now)) ≡ true → MayHaveRoom U.means kind shape root i (seen_slots slots.now) }
        ensures no { result ≡ false → HasNoRoom U.means kind shape root i (seen_slots slots.now) };

    /// Does the step, if it can be done and reading showed no lack of room.
    fn change(
        &self,
        alloc: Global,
        shape: Shape,
        root: bool,
        slots: &mut Vec<Slot<U>>,
        i: usize,
    ) -> StepReply
        requires shape { IsTrue (is_shape shape) }
        requires searchable { IsSearchable (inner (seen_slots slots.old.items)) }
        ensures { Replies U.means kind shape root i result (seen_slots slots.old.items) (seen_slots slots.new.items) };
}
