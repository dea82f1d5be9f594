//! Paths, keys, key ranges, snapshot names, and error numbers.
//!
//! A path is stored as its key: each name followed by a byte 0, so that the key of a path, the test whether one path is below
//! another, and the keys of a whole subtree are contiguous bytes (full-path indexing: Jannen et al., FAST 2015). Contracts see
//! a path as the list of its names from the root down, and a key or a snapshot's name as its bytes.
#![tactic(auto)]

mod components;
pub mod encode;
pub mod errno;
pub mod key;
pub mod laws;
pub mod names;
pub mod path;
pub mod range;
pub mod snap_name;

pub use encode::{block_key, dec, enc, rekey};
pub use errno::{Errno, NoMemory};
pub use key::Key;
pub use names::Names;
pub use path::Path;
pub use range::{KeyRange, blocks_from, subtree};
pub use snap_name::SnapName;
