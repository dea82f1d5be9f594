//! The calls of a file system in the form in which C makes them: paths and names are texts, and bytes are passed in buffers
//! of the caller.
//!
//! Each function parses its texts, calls the volume or a frozen tree, and returns the reply. A text that is not a path or not
//! a name fails first, in the order of the arguments, and then nothing changes. The contracts are those of the volume, stated
//! for texts.
#![tactic(auto)]

pub mod changed;
pub mod compaction;
pub mod copies;
pub mod deltas;
pub mod edit_calls;
pub mod forks;
pub mod holes;
pub mod image_calls;
pub mod mtime;
mod read_into;
pub mod reads;
pub mod snapshots;
pub mod writes;

pub use changed::changed_paths;
pub use compaction::compact;
pub use copies::copy_range;
pub use deltas::delta;
pub use edit_calls::{edits_begin, edits_next};
pub use forks::{fork, frozen_fork, restore_frozen};
pub use holes::{frozen_stored, punch, stored};
pub use image_calls::{load, print, print_begin, print_piece};
pub use mtime::set_mtime;
pub use reads::{frozen_read, frozen_readdir, frozen_stat, read, readdir, stat};
pub use snapshots::{drop_snapshot, freeze, frozen, restore, snapshot, snapshot_name};
pub use writes::{create, mkdir, rename, rmdir, rmtree, truncate, unlink, write};
