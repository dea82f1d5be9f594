//! Draws the trees of a volume.
ghost use Rattle.std.specs.Prelude.{IfOk};
ghost use Rattle.shell.specs.Drawing.{IsDrawing};

use crate::dot_trees::{point_to_root, put_snapshot, put_tree};
use crate::dot_writer::DotWriter;
use call_compiler::Indexes;
use pathkey::{NoMemory, SnapName};
use std::alloc::Global;
use volume::Volume;

/// The numbers of the boxes of both live roots.
#[derive(Clone, Copy)]
struct Roots {
    meta: u64,
    block: u64,
}

/// Draws both live trees of a volume for Graphviz's `dot`, and how its snapshots share their roots. Fails only if an
/// allocation fails.
pub fn draw_volume(alloc: Global, volume: &Volume) -> Result<Vec<u8>, NoMemory>
    ensures { IfOk result (λ v. IsDrawing v.items) }
{
    let mut sketch = DotWriter::new(alloc)?;
    match put_volume(&mut sketch, volume) {
        Ok(()) => sketch.end(),
        Err(NoMemory) => {
            // Dropped by a call, so that the proof costs less.
            drop(sketch);
            Err(NoMemory)
        }
    }
}

/// Draws both trees of a file system for Graphviz's `dot`, without snapshots. Fails only if an allocation fails.
pub fn draw_alone(alloc: Global, indexes: &Indexes) -> Result<Vec<u8>, NoMemory>
    ensures { IfOk result (λ v. IsDrawing v.items) }
{
    let mut sketch = DotWriter::new(alloc)?;
    match put_indexes(&mut sketch, indexes) {
        Ok(_) => sketch.end(),
        Err(NoMemory) => {
            // Dropped by a call, so that the proof costs less.
            drop(sketch);
            Err(NoMemory)
        }
    }
}

/// Draws both live trees, and each snapshot.
fn put_volume(sketch: &mut DotWriter, volume: &Volume) -> Result<(), NoMemory> {
    let roots = put_indexes(sketch, volume.indexes())?;
    // There are at most 64 snapshots.
    for number in 0..64 {
        if let Some(name) = volume.snapshot_name(number) {
            put_named(sketch, volume, name, roots)?;
        }
    }
    Ok(())
}

/// Draws both trees.
fn put_indexes(sketch: &mut DotWriter, indexes: &Indexes) -> Result<Roots, NoMemory> {
    let meta = put_tree(sketch, b"metadata", &indexes.meta.tree)?;
    let block = put_tree(sketch, b"blocks", &indexes.block.tree)?;
    Ok(Roots { meta, block })
}

/// Draws the snapshot of that name.
fn put_named(
    sketch: &mut DotWriter,
    volume: &Volume,
    name: &SnapName,
    roots: Roots,
) -> Result<(), NoMemory> {
    let Some(kept) = volume.snapshot_root(name) else {
        // Unreachable: the name is that of a snapshot.
        return Ok(());
    };
    let live = volume.indexes();
    let number = put_snapshot(sketch, name.as_bytes())?;
    point_to_root(
        sketch,
        number,
        &kept.indexes.meta.tree,
        &live.meta.tree,
        roots.meta,
    )?;
    point_to_root(
        sketch,
        number,
        &kept.indexes.block.tree,
        &live.block.tree,
        roots.block,
    )
}
