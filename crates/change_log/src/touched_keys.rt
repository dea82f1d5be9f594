//! What may differ between a snapshot and the live tree.

use pathkey::{Key, KeyRange};

/// Keys and ranges of keys of one index.
#[derive(Drop)]
pub struct TouchedKeys {
    /// Single keys in ascending order. A key may occur several times.
    pub keys: Vec<Key>,
    /// Ranges, in the order in which they were touched. They may overlap.
    pub ranges: Vec<KeyRange>,
}

/// The keys of both indexes that may have another value.
#[derive(Drop)]
pub enum Changes {
    /// All keys.
    All,
    /// Only these keys of the metadata index and of the block index.
    Within(TouchedKeys, TouchedKeys),
}
