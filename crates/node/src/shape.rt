//! The limits of a tree's nodes.
//!
//! A tree has one shape for its lifetime, and no node exceeds it, except that the root's pending lists have no limit: so an append
//! fails only if an allocation does.
ghost use Rattle.std.specs.Prelude.{◌≡◌};

/// The least limit on the slots of an inner node that a shape may set, and the least limit on the entries of a leaf.
pub const LEAST: u16 = 4;

/// The most slots of an inner node, in any shape.
pub const GREATEST_FANOUT: u16 = 64;

/// The most pending pieces of an inner node other than the root, in any shape.
pub const GREATEST_PENDING: u16 = 1024;

/// The most entries of a leaf, in any shape.
pub const GREATEST_LEAF: u16 = 1024;

/// How many slots, pending pieces and entries a node may have.
#[derive(Clone, Copy, Debug, PartialEq, Eq)]
pub struct Shape {
    /// The most slots of an inner node, from 4 to 64.
    pub fanout: u16,
    /// The most pending pieces of an inner node other than the root, over all its slots, from `fanout` to 1,024.
    pub pending: u16,
    /// The most entries of a leaf, from 4 to 1,024.
    pub leaf: u16,
}

impl Shape {
    ghost use Rattle.node.specs.Shapes.{is_shape};

    /// The shape for usual work: 16 slots, 256 pending pieces, 256 entries.
    pub const USUAL: Shape = Shape {
        fanout: 16,
        pending: 256,
        leaf: 256,
    };

    /// The shape for large trees, of tens of thousands of entries and more: 64 slots, 1,024 pending pieces, 1,024 entries.
    pub const LARGE: Shape = Shape {
        fanout: 64,
        pending: 1024,
        leaf: 1024,
    };

    /// Whether a tree may have the shape.
    pub fn ok(&self) -> bool
        ensures { result ≡ is_shape self.now }
    {
        (LEAST..=GREATEST_FANOUT).contains(&self.fanout)
            && self.fanout <= self.pending
            && self.pending <= GREATEST_PENDING
            && (LEAST..=GREATEST_LEAF).contains(&self.leaf)
    }
}
