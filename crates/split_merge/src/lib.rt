//! Steps that change a tree's shape and preserve what it means: nodes are split and merged, a covered subtree is dropped at
//! once, and the root is raised and lowered.
//!
//! Each step preserves the value at every key and every limit of the tree's shape. If a slot is split at a pivot, so is its
//! list of pending messages.
#![tactic(auto)]

pub mod drop_subtree;
pub mod lower_root;
pub mod merge;
pub mod raise_root;
pub mod split;

pub use drop_subtree::drop_covered;
pub use lower_root::root_down;
pub use merge::{merge_inner, merge_leaves};
pub use node::StepReply;
pub use raise_root::root_up;
pub use split::split_inner;
