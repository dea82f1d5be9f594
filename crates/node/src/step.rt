//! The steps of a tree: their names and their replies.
//!
//! A step never changes the value at a key. `docs/STEPS.md` says which nodes it changes and when it cannot be done.

/// What a step does.
#[derive(Clone, Copy, Debug, PartialEq, Eq)]
pub enum StepKind {
    /// The oldest messages of a slot are moved into the slots of its child, an inner node.
    FlushInner,
    /// The oldest messages of a slot are applied to its child, a leaf.
    FlushLeaf,
    /// The inner node below a slot is split in two.
    SplitInner,
    /// The leaves below a slot and the next are merged.
    MergeLeaves,
    /// The inner nodes below a slot and the next are merged.
    MergeInner,
    /// A new root is put above the old one, with one slot.
    RootUp,
    /// The root's only child becomes the root.
    RootDown,
    /// The subtree below a slot under a range-delete of the whole slot is dropped at once.
    DropCovered,
}

/// The reply of a step. Every reply but `Did` leaves the tree as it was.
#[derive(Clone, Copy, Debug, PartialEq, Eq)]
pub enum StepReply {
    /// The step is done, and the given number of messages have left their slot for good.
    Did(u32),
    /// There is nothing for the step to do there.
    NotThere,
    /// A node would grow past the tree's shape.
    NoRoom,
    /// An allocation failed.
    NoMemory,
}
