//! Flushes: pending messages that move one level down.
//!
//! A flush moves the oldest messages of one slot to the slot's child, as many as the child has room for. The value at every
//! key stays: what was pending above is now pending, or applied, below (Brodal and Fagerberg 2003). `heaviest` names the
//! flush that moves most: that of a slot than which no slot has more pending messages.
//!
//! `inner` is the flush into an inner node and `leaf` the flush into a leaf. `room` applies a message to a leaf's entries and
//! `apply_pass` those of a walk, and `heaviest_slot` finds the fullest slot.
#![tactic(auto)]

mod apply_pass;
pub mod heaviest_slot;
pub mod inner;
pub mod leaf;
mod room;

pub use heaviest_slot::heaviest;
pub use inner::flush_inner;
pub use leaf::flush_leaf;
pub use node::StepReply;
