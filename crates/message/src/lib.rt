//! Messages: pending changes of one key or of a range of keys.
//!
//! A buffered tree changes nothing in place: each change is a message that is put into the root and moves lazily to the leaves
//! (Brodal and Fagerberg 2003; Bender et al., ;login: 2015). This crate says what a message does to the value at each single key,
//! and cuts messages to the range of a slot.
//!
//! `msg` has the messages and `update` the trait of updates that depend on the old value. `ends` and `range_tests` compare ranges,
//! `resolution` is what a list of messages says of one key, and `drain` hands on messages that were removed from a list.
#![tactic(auto)]

pub mod drain;
pub mod ends;
pub mod msg;
pub mod range_tests;
pub mod resolution;
pub mod update;

pub use drain::MsgDrain;
pub use msg::{Msg, cut, edited, touches};
pub use resolution::Resolution;
pub use update::{Update, UpdateTarget};
