//! A log of the keys that batches touch, from which follows what may differ between a snapshot and the live tree.
//!
//! A snapshot and the live tree have the same value at each key that no message touched since the snapshot was taken. So the log
//! stores the keys and ranges of all messages in the order in which they came, and for each snapshot the position at which it was
//! taken: what lies behind that position is what was touched since. The bytes of keys are appended to one buffer, and sorted only
//! when they are asked for.
//!
//! A log that is full, or for which an allocation fails, forgets its snapshots. Of a snapshot that it does not know, it answers
//! that each key may differ.
//!
//! `key_log` is the log of one index, `change_log` that of both with the positions of snapshots, `touched_keys` an answer.
#![tactic(auto)]

pub mod change_log;
pub mod key_log;
pub mod touched_keys;

pub use change_log::ChangeLog;
pub use touched_keys::{Changes, TouchedKeys};
