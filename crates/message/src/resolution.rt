//! What a pending list says of the value at a key: nothing, a value whatever is below, or a change of what is below.

/// What a pending list says of the value at a key, whatever its slot's child has there.
#[derive(Drop)]
pub enum Resolution<V> {
    /// No message touches the key.
    Untouched,
    /// This value, whatever was there.
    Value(Option<V>),
    /// It may depend on what was there.
    NeedsBase,
}
