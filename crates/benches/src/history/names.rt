//! The paths and snapshot names that all clients share, by their numbers.
use crate::paths::path_of;
use engine::{Path, Shape, SnapName, Volume};
use std::alloc::Global;

/// The number of areas: directories in the root, each with the same names. A call on paths is in one area.
pub const AREAS: usize = 16;

/// The suffixes of an area's path. The first few are mostly directories, the others files.
const NAMES: [&str; 8] = ["", "/d", "/e", "/f", "/d/f", "/d/g", "/e/f", "/e/g"];

/// The number of paths of an area.
pub const PLACES: usize = 8;

/// The number of these that are mostly directories.
pub const DIRECTORIES: u32 = 3;

/// The number of the root, after those of all areas.
pub const ROOT: usize = 128;

/// The offset of the first mark of a file: marks are before and after the end of the first block, and across it.
pub const FIRST_OFFSET: u64 = 4_080;

/// The number of bytes that are read from there on: more than the marks have.
pub const COUNT: u64 = 40;

/// The number of snapshot names.
pub const SNAPSHOTS: usize = 3;

/// The smallest shape: the trees are deep, so jobs can be taken.
const SMALL: Shape = Shape {
    fanout: 4,
    pending: 4,
    leaf: 4,
};

/// The names by their numbers.
#[derive(Drop)]
pub struct Names {
    /// The texts of all paths, the root's last.
    texts: Vec<String>,
    /// The paths in areas.
    pub paths: Vec<Path>,
    /// The names of snapshots.
    pub snapshots: Vec<SnapName>,
}

/// The text of the path with a number.
fn text(alloc: Global, number: usize) -> Option<String> {
    let area = number / PLACES;
    match NAMES.get(number % PLACES) {
        Some(name) if number < ROOT => format!(in alloc; "/a{area}{name}").ok(),
        _ => format!(in alloc; "/").ok(),
    }
}

/// The name with a text.
fn name(alloc: Global, text: &String) -> Option<SnapName> {
    SnapName::parse(alloc, text.as_bytes()).ok()
}

/// The name of the snapshot with a number.
fn snapshot(alloc: Global, number: usize) -> Option<SnapName> {
    match format!(in alloc; "s{number}") {
        Ok(text) => name(alloc, &text),
        Err(_) => None,
    }
}

/// Appends the element, if there is one; returns whether it did.
fn adds<T: Drop>(all: &mut Vec<T>, one: Option<T>) -> bool {
    match one {
        Some(one) => all.push(one).is_ok(),
        None => false,
    }
}

/// The texts of all paths.
fn texts(alloc: Global) -> Option<Vec<String>> {
    let mut texts = Vec::new(alloc);
    let mut is_made = true;
    for number in 0..ROOT + 1 {
        is_made &= adds(&mut texts, text(alloc, number));
    }
    is_made.then_some(texts)
}

/// The paths with these texts, except for the last one.
fn paths(alloc: Global, texts: &[String]) -> Option<Vec<Path>> {
    let mut paths = Vec::new(alloc);
    let mut is_made = true;
    for text in texts.iter().take(ROOT) {
        is_made &= adds(&mut paths, path_of(alloc, text));
    }
    is_made.then_some(paths)
}

/// The names of all snapshots.
fn snapshots(alloc: Global) -> Option<Vec<SnapName>> {
    let mut snapshots = Vec::new(alloc);
    let mut is_made = true;
    for number in 0..SNAPSHOTS {
        is_made &= adds(&mut snapshots, snapshot(alloc, number));
    }
    is_made.then_some(snapshots)
}

/// These texts with their paths, and all snapshots.
fn named(alloc: Global, texts: Vec<String>) -> Option<Names> {
    match (paths(alloc, texts.as_slice()), snapshots(alloc)) {
        (Some(paths), Some(snapshots)) => Some(Names {
            texts,
            paths,
            snapshots,
        }),
        _ => None,
    }
}

impl Names {
    /// All names; `None` if an allocation fails.
    pub fn new(alloc: Global) -> Option<Names> {
        match texts(alloc) {
            Some(texts) => named(alloc, texts),
            None => None,
        }
    }

    /// The text of the path with a number.
    pub fn text(&self, number: usize) -> &str {
        match self.texts.get(number) {
            Some(text) => text.as_str(),
            None => "",
        }
    }
}

/// A volume with an empty tree.
pub fn new_volume(alloc: Global) -> Option<Volume> {
    Volume::new(alloc, SMALL).ok()
}
