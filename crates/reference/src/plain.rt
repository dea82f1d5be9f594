//! The plain program: the same file calls on a tree in ordinary Rust, kept as small as possible at the expense of speed.
//!
//! Each function computes one definition of `specs/`, and its contract says so. A call that changes the tree builds a new tree
//! and replaces the old one at the end, so that an allocation failure leaves the tree unchanged. The tests compare the replies
//! of the fast layers with those of this program.

pub mod calls;
mod contents;
mod depth;
mod digits;
mod edit;
mod effect;
mod entries;
pub mod image;
mod making;
mod moving;
pub mod reading;
mod removing;
mod touching;
pub mod tree;
mod walk;
pub mod world;

pub use calls::does;
pub use image::image_of;
pub use tree::{Entries, Tree};
pub use world::World;
