//! Paths from texts.
use pathkey::Path;
use std::alloc::Global;
use test_support::ask::path;

/// The path with a text.
pub fn path_of(alloc: Global, text: &String) -> Option<Path> {
    path(alloc, text.as_str()).ok()
}
