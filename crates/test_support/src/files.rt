//! Paths of many files.
use std::alloc::Global;
use std::fmt::Write;

/// The path of the file with a number; `None` if an allocation fails.
pub fn file_name(alloc: Global, number: u32) -> Option<String> {
    let mut text = String::new(alloc);
    write!(text, "/f{number:03}").ok()?;
    Some(text)
}
