//! The point messages of a slot, by key: puts, deletes and updates that are pending.
//!
//! What it means: a list of pairs of a key and the operations of that key, the oldest first. The keys are in ascending
//! order.
//!
//! Its invariants:
//!
//! - each key has at least one operation;
//! - a put or a delete is the only operation of its key: it needs no older one, and an update that follows is applied to it,
//!   which gives another put or delete. Updates that cannot be joined are kept one after another;
//! - the list stores the number of its messages.
//!
//! `points` has the public interface. `key_ops` has the operations of one key, `key_ops_repr` their in-memory representation,
//! `edits` updates in sequence, `key_op_ref` a borrowed operation, and `join_reply` what became of an update that was to be joined.
//! `edits_in_place` edits the operations of a key in place, `one_key` changes the map at one key, and `counts` iterates over it.
#![tactic(auto)]

pub(crate) mod counts;
pub(crate) mod edits;
pub(crate) mod edits_in_place;
pub mod join_reply;
pub mod key_op_ref;
pub mod key_ops;
pub mod key_ops_repr;
pub(crate) mod one_key;
pub mod points;

pub use join_reply::JoinReply;
pub use key_op_ref::KeyOpRef;
pub use key_ops::KeyOps;
pub use points::PointOps;
