//! The effect of a call on a tree.
//!
//! A call that fails, or only reads, has no new tree.
ghost use Rattle.std.specs.Prelude.{◌≡◌};

use super::tree::Tree;
use crate::reply::Reply;
use pathkey::Errno;

/// The effect of a call: it returns a reply, and keeps the tree or replaces it by a new one.
#[derive(Drop)]
pub enum Effect {
    /// The tree is unchanged.
    Kept(Reply),
    /// The tree is replaced by this one.
    Changed(Tree, Reply),
}

impl Effect {
    /// The call fails.
    pub fn refused(fault: Errno) -> Effect
        ensures { result ≡ Effect.Kept (Reply.Fault fault) }
    {
        Effect::Kept(Reply::Fault(fault))
    }
}
