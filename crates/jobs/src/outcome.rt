//! The replies of taking and installing jobs.

use crate::job::{Done, Job};
use message::UpdateTarget;

/// The reply of taking a job. Every reply but `Taken` changes nothing.
#[derive(Drop)]
pub enum TakeOutcome<U: UpdateTarget> {
    /// The job; its mark was added.
    Taken(Job<U>),
    /// There is no such slot, its child is a leaf, nothing is pending there, or it has a mark.
    NotThere,
    /// The pieces of the first message have no room in the child, there are 64 marks, or no ticket is left.
    NoRoom,
    /// An allocation failed.
    NoMemory,
}

/// The reply of installing. Every reply but `Installed` changes nothing.
#[derive(Drop)]
pub enum InstallOutcome<U: UpdateTarget> {
    /// The subtree has replaced the child.
    Installed,
    /// The mark was removed.
    Stale,
    /// An allocation failed: the result is returned, and the mark stays.
    NoMemory(Done<U>),
}
