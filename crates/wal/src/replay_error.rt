//! The error of a replay: which entry failed, and why.

use pathkey::Errno;

/// The first change that failed, and its error. It changed nothing.
#[derive(Clone, Copy, Debug, PartialEq, Eq)]
pub struct ReplayError {
    /// The number of changes that were applied before it.
    pub done: usize,
    /// The error of the change.
    pub fault: Errno,
}
