//! The metadata of the file system: a buffered tree that has, at the key of each path that exists, whether it is a directory or a
//! file of which length, and its mtime.
//!
//! It is queried by full paths (full-path indexing: Jannen et al., FAST 2015): the entry at a path is one look-up, and the keys
//! below a directory are consecutive after its own key. The index abstracts to a directory tree (`IsMeantBy`): it has the
//! metadata of the tree's entries and nothing else. Each result is the one for this tree.
#![tactic(auto)]

pub mod at;
mod entries;
pub mod entry_sink;
pub mod index;
mod likely;
pub mod update;

pub use at::At;
pub use entry_sink::EntrySink;
pub use index::MetaIndex;
pub use reference::{Kind, Meta};
pub use update::MetaUpdate;
