//! The bytes of files: a buffered tree that has, at the key of each block, at most 4,096 bytes of a file.
//!
//! A write is one patch for each block that it overlaps, whatever the file's size, and a truncation is at most one shorter block
//! and one range-delete. The index abstracts to blocks: contracts state the effect of messages on each of them, and which bytes
//! of the file a read returns.
#![tactic(auto)]

pub mod block;
mod block_bytes;
pub mod index;
mod layer_data;
pub mod layers;
mod new_layer;
pub mod patch;
pub mod update;

pub use block::{BLOCK, Block};
pub use index::BlockIndex;
pub use layers::Layers;
pub use patch::Patch;
pub use update::BlockUpdate;
