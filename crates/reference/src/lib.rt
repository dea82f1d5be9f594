//! The specification of the file system: the nested directory tree, the table of the eleven file calls, worlds with snapshots,
//! when two indexes mean a tree, and the image of a tree as text.
//!
//! The definitions are in `specs/`, a few lines each; the contracts of the layers above cite them. `plain` is a simple slow
//! program that computes them, and `laws` has public functions whose contracts are theorems about the definitions alone.
#![tactic(auto)]

pub mod call;
pub mod digits;
pub mod laws;
pub mod limits;
pub mod path_call;
pub mod plain;
pub mod reply;

pub use call::Call;
pub use limits::{GREATEST_FILE, GREATEST_READ, fits_file};
pub use path_call::PathCall;
pub use reply::{FileBytes, Kind, Listing, Meta, Reply};
