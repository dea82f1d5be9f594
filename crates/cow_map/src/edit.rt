//! An edit of the value at a key, in place, and its outcome.
//!
//! An edit that is not applied is returned, so that the caller can retry it or apply it elsewhere.

/// An edit of one value.
pub trait Edit<T>: Drop {
    /// The result.
    type Answer;

    /// The value afterwards, and the result.
    ghost does: { Self → T → T → Self.Answer → Type 0 };

    /// Applies the edit.
    fn edit(self, value: &mut T) -> Self::Answer
        ensures { does self value.old value.new result };
}

/// The outcome of an edit at a key.
#[derive(Drop)]
pub enum Edited<A, E> {
    /// The edit was applied, with this result.
    Done(A),
    /// The key is absent. The edit is returned.
    Absent(E),
    /// An allocation failed. The edit is returned, and the value is unchanged.
    Refused(E),
}
