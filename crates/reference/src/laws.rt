//! Theorems about the definitions alone, each on a public function that does nothing.

pub mod images;
pub mod indexes;
pub mod rows;
pub mod trees;
