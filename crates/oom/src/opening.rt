//! The volume that stands before a call: a script is run over a new volume of the smallest shape, with a step after each line.
use crate::harness::put;
use shell::{Tidy, run_script};
use std::alloc::Global;
use volume::{Shape, Volume};

/// The smallest shape, which the trees of all scenes have.
pub const SMALL: Shape = Shape {
    fanout: 4,
    pending: 4,
    leaf: 4,
};

/// Runs a script with a step after each line; whether it came to its end.
fn run(alloc: Global, volume: &mut Volume, script: &[u8], out: &mut Vec<u8>) -> bool {
    let mut rest = script;
    run_script(alloc, volume, &mut rest, out, &mut Tidy::new(1)).is_ok()
}

/// A new volume.
fn new_volume(alloc: Global) -> Option<Volume> {
    Volume::new(alloc, SMALL).ok()
}

/// The volume behind a script, of which the answers are printed.
pub fn open(alloc: Global, script: &[u8], out: &mut Vec<u8>) -> Option<Volume> {
    put(out, "== opening\n");
    let mut volume = new_volume(alloc)?;
    if run(alloc, &mut volume, script, out) {
        Some(volume)
    } else {
        None
    }
}
