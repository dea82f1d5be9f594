//! Jobs: a subtree that is built without the tree, and installed when it is done.
//!
//! A job is taken from a slot of the root: it shares the slot's child and has copies of the slot's oldest messages. It is built
//! into a subtree that contains the messages, while the tree may change. A *mark* beside the tree reserves the slot. While the mark
//! exists, the slot's oldest messages over its child mean what was taken, so the subtree can replace both.
//!
//! `job` has a job and its result, and `build` and `flush_below` build it. `mark` is one mark, `marks` the list of them with taking,
//! installing and steps, and `marked_tree` a tree with its marks. `laws` says what keeps the content of a mark.
#![tactic(auto)]

pub mod build;
pub mod flush_below;
pub mod job;
pub mod laws;
pub mod mark;
pub mod marked_tree;
pub mod marks;
pub mod outcome;
pub mod ticket;

pub use job::{Done, Job};
pub use mark::Mark;
pub use marked_tree::MarkedTree;
pub use marks::backlog::Backlog;
pub use marks::{MOST_MARKS, Marks};
pub use outcome::{InstallOutcome, TakeOutcome};
pub use ticket::Ticket;
