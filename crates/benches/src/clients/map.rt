//! A map of std under a lock, with the bytes of each file under its path's key.
use crate::clients::work::Store;
use pathkey::{Key, Path};
use reference::Call;
use std::alloc::Global;
use std::collections::BTreeMap;
use std::sync::{Mutex, Wait};

/// The bytes of each file.
pub type Files = BTreeMap<Key, Vec<u8>>;

/// Creates a file without bytes; returns whether there was none.
fn create(alloc: Global, files: &mut Files, path: &Path) -> bool {
    match path.key().copy(alloc) {
        Ok(key) => matches!(files.insert(key, Vec::new(alloc)), Ok(None)),
        Err(_) => false,
    }
}

/// Replaces the bytes of a file; returns whether there is one.
fn write(files: &mut Files, path: &Path, bytes: &[u8]) -> bool {
    match files.get_mut(path.key()) {
        Some(file) => {
            file.clear();
            file.extend_from_slice(bytes).is_ok()
        }
        None => false,
    }
}

/// Makes a call on the map. It has no directories.
fn is_done(alloc: Global, files: &mut Files, call: &Call) -> bool {
    match call {
        Call::Mkdir(_) => true,
        Call::Create(path) => create(alloc, files, path),
        Call::Write(path, _, bytes) => write(files, path, bytes.as_slice()),
        Call::Stat(path) => match files.get(path.key()) {
            Some(file) => !file.is_empty(),
            None => false,
        },
        _ => false,
    }
}

impl<'a> Store for &'a Mutex<Files> {
    fn is_done<R: Wait>(&mut self, rt: &R, alloc: Global, call: &Call) -> bool {
        let mut guard = self.lock(rt);
        is_done(alloc, &mut guard, call)
    }
}
