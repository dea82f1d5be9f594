//! One operation of a key, borrowed.
//!
//! Invariant: it does not hold a key; the key is that of the entry in which the operation is stored.

use message::UpdateTarget;

/// A borrowed operation on one value.
#[derive(Drop)]
pub enum KeyOpRef<'a, U: UpdateTarget> {
    /// Sets the key's value.
    Put(&'a U::Value),
    /// Removes the key's value.
    Del,
    /// Applies the update to the key's value, or to its absence.
    Edit(&'a U),
}
