//! Disjoint ranges of deleted keys.
//!
//! What it means: a set of keys, as the fewest ranges that cover it. Contracts see the list of the ranges, each as its low end
//! and its high end.
//!
//! Its invariants:
//!
//! - each range contains a key, and ends before the later ones begin: ranges that overlap or touch are merged;
//! - so the last range that begins at or before a key decides whether the set contains the key.
//!
//! `list` is the public interface. `near` finds the ranges next to a key, and `replace_overlapped` replaces the ranges that
//! begin within a range by it. `pivot` splits and merges sets at a key, and `segment` finds the segment of keys after a key
//! that are all deleted or all not.
#![tactic(auto)]

pub mod list;
pub(crate) mod near;
pub(crate) mod pivot;
pub(crate) mod replace_overlapped;
pub(crate) mod segment;

pub use list::RangeSet;
