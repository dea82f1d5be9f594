//! The state of a volume: the sizes of its trees, and the images of the live tree and of its snapshots.
use crate::harness::{put, put_no_memory};
use images::print_image;
use pathkey::{Errno, NoMemory, SnapName};
use std::alloc::Global;
use std::io::Write;
use volume::{Frozen, Index, Volume};

/// The names that snapshots have here.
pub const NAMES: [&str; 3] = ["s", "t", "u"];

/// Prints what is measured of an index without an allocation: its tree, and which job would move the most.
pub fn put_measures(volume: &Volume, index: Index, out: &mut Vec<u8>) {
    let report = volume.shape_report(index);
    let pending = volume.pending(index);
    let load = volume.backlog(index);
    let _ = writeln!(out, "count {report:?} {pending} {load:?}");
}

/// Prints the image of a tree.
pub fn put_image(alloc: Global, frozen: &Frozen, out: &mut Vec<u8>) {
    put(out, "tree\n");
    if print_image(alloc, frozen, out).is_err() {
        put(out, "no image\n");
    }
}

/// Prints the live tree.
pub fn put_live(alloc: Global, live: &Result<Frozen, NoMemory>, out: &mut Vec<u8>) {
    match live {
        Ok(frozen) => put_image(alloc, frozen, out),
        Err(NoMemory) => put_no_memory(out),
    }
}

/// Prints the tree of a snapshot, or why there is none.
pub fn put_past(alloc: Global, past: &Result<Frozen, Errno>, out: &mut Vec<u8>) {
    match past {
        Ok(frozen) => put_image(alloc, frozen, out),
        Err(fault) => {
            let _ = writeln!(out, "Fault({fault:?})");
        }
    }
}

/// The tree of a snapshot of a volume.
fn past_of(alloc: Global, volume: &Volume, text: &str) -> Result<Frozen, Errno> {
    match SnapName::parse(alloc, text.as_bytes()) {
        Ok(name) => volume.frozen(&name),
        Err(fault) => Err(fault),
    }
}

/// Prints the state of a volume.
pub fn show_volume(alloc: Global, volume: &Volume, out: &mut Vec<u8>) {
    put_measures(volume, Index::Meta, out);
    put_measures(volume, Index::Block, out);
    put_live(alloc, &volume.freeze(), out);
    for text in &NAMES {
        put_past(alloc, &past_of(alloc, volume, text), out);
    }
}
