//! The image of a tree: a text from which the tree can be loaded again. A frozen tree is printed as an image, and an image is
//! loaded into a new volume. Both can be done in pieces, so no image has to fit into memory. `docs/FORMATS.md` has the format
//! of images.
//!
//! A text is valid if and only if it is the image of a tree, in one of the versions: any other text fails, with the number of
//! its first bad line. An image of version 2 belongs to one tree, while an image of version 1 has no mtimes.
#![tactic(auto)]

mod ahead;
pub mod image;
pub mod image_line;
pub mod load;
pub mod loader;
pub mod printing;
mod ready;
mod spot;
pub mod version;

pub use image::{ImageFault, print_image};
pub use load::{LoadFault, load_image, load_text};
pub use loader::ImageLoader;
pub use printing::ImagePrinter;
pub use version::ImageVersion;
