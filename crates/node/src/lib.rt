//! The nodes of a buffered tree (a B-epsilon-tree: Brodal and Fagerberg 2003; Bender et al., ;login: 2015).
//!
//! A node is a leaf of entries sorted by key, or an inner node of slots. A slot is a pivot (the start of its range), a
//! child, and the messages pending for that child, the oldest first. What this crate guarantees:
//!
//! - every tree is lawful: leaves at equal depth, pivots and keys sorted, no node past the limits of the tree's shape;
//! - what a tree means at a key is one value: the leaf's entry with the messages on the path to it applied;
//! - nodes are persistent: a change takes ownership of the nodes on its path and copies those that are shared, one level
//!   each, so that `share` only takes another reference to the root.
#![tactic(auto)]

pub mod node;
pub mod place;
pub mod report;
pub mod shape;
pub mod step;
pub mod tree;

pub use node::below::step_subtree;
pub use node::change::SlotStep;
pub use node::{Body, Node, Slot, append, copy, count, cut, leaf, search};
pub use place::{Place, TreeStep};
pub use report::ShapeReport;
pub use shape::Shape;
pub use step::{StepKind, StepReply};
pub use tree::append::append_both_kept;
pub use tree::{Tree, append_both};
