//! The pending messages of one slot: changes of keys and of ranges of keys.
//!
//! What it means: a list of messages, the oldest first. An insertion promises only its effect, so the list is sorted and
//! condensed.
//!
//! Its invariants:
//!
//! - the sorted part is older than the tail, which has messages in the order of their arrival;
//! - in the sorted part no range-delete is newer than a point message that it touches, so range-deletes come before point
//!   messages;
//! - some of the oldest messages of the first key may be consumed: a counter records how many, since other lists may share the
//!   chunk in which they are stored.
//!
//! `pending` has the public interface, `point_cursor` a cursor over its keys, and `oldest_walk` a walk over the oldest messages.
//! `sorted_msgs` is the sorted part, and `insert` inserts messages into it. `tail` is the tail, and `list` has queries on its
//! messages; `buffered_msg` is one of them, and `shared_range` a range-delete or part of one. `msg_ref` is a borrowed message, and
//! `segment` finds the keys at which messages begin or cease to apply.
#![tactic(auto)]

pub mod buffered_msg;
pub(crate) mod insert;
pub(crate) mod list;
pub mod msg_ref;
pub mod oldest_walk;
pub mod pending;
pub mod point_cursor;
pub(crate) mod segment;
pub mod shared_range;
pub mod sorted_msgs;
pub(crate) mod tail;

pub use msg_ref::MsgRef;
pub use oldest_walk::OldestWalk;
pub use pending::Pending;
pub use point_cursor::{PointCursor, PointHit, advance};
