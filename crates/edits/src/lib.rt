//! Edits of a directory tree, as lines of text: deltas of format 2. `docs/FORMATS.md` has the format.
//!
//! An edit changes what is seen at one path, if what is seen there is what it expects: a directory with its mtime, a file with its length
//! and its mtime, a block of a file with the digest of its bytes. Edits are applied one after the other, all of them or none.
#![tactic(auto)]

pub mod apply;
mod block;
pub mod edit;
mod edit_line;
mod frame;
mod guess;
pub mod laws;
mod perform;

pub use apply::{EditFault, apply_edits};
pub use block::block_digest;
pub use edit::{Change, Edit};
pub use edit_line::{put_edit, read_edit};
