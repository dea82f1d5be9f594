//! How large a tree is: its levels, slots, pending pieces and entries.

/// The size of a tree, exactly.
#[derive(Clone, Copy, Debug, PartialEq, Eq)]
pub struct ShapeReport {
    /// How many levels of inner nodes are above the leaves.
    pub levels: u128,
    /// How many slots all inner nodes have.
    pub slots: u128,
    /// How many pieces are pending in all slots.
    pub pending: u128,
    /// How many entries all leaves have.
    pub entries: u128,
}

/// What is counted in a node.
#[derive(Clone, Copy, Debug, PartialEq, Eq)]
pub enum Quantity {
    /// The slots of an inner node.
    Slots,
    /// The pieces pending in its slots.
    Pending,
    /// The entries of a leaf.
    Entries,
}
