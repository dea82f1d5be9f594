//! What became of an update that was to be joined to the pending operations of its key.

/// The reply of a join, in place, to the only operation of a key.
#[derive(Clone, Copy)]
pub enum JoinReply {
    /// The update was joined.
    Joined,
    /// It was not, since the key has no pending operation.
    NoKey,
    /// It was not, for another reason: the key has several operations, the update does not join, an allocation failed, or the key
    /// was not looked for.
    Apart,
}
