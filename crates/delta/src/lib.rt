//! What differs between two trees: the paths, the edits between them (format 2), and the difference of their images line by line
//! (format 1), printed and applied. `docs/FORMATS.md` has both formats.
//!
//! A delta of format 1 is valid for a tree if its first line has the digest of the tree's image, its commands use exactly the lines of
//! that image, and its result is an image. Applying the delta of two trees to the first gives the second.
#![tactic(auto)]

pub mod apply;
pub mod changed;
pub mod command;
mod compare;
mod differing;
mod differing_keys;
pub mod digest;
pub mod edits_between;
pub mod edits_printer;
pub mod fault;
pub mod header;
pub mod laws;
mod line_cursor;
mod order;
mod patch;
pub mod print;
pub mod reading;
mod rising_keys;

pub use apply::apply_delta;
pub use changed::changed_paths;
pub use digest::image_digest;
pub use edits_between::print_edits;
pub use edits_printer::EditsPrinter;
pub use fault::{DeltaFault, PrintFault};
pub use print::print_delta;
