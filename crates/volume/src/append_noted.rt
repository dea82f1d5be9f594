//! Appends a batch to the live indexes, and notes which keys it touches.
ghost use Rattle.call_compiler.specs.Compiled.{messages};
ghost use Rattle.volume.specs.Changes.{AppendsLive};
ghost use Rattle.volume.specs.Differences.{Tracks};
ghost use Rattle.volume.specs.Volumes.{Kept};

use crate::live_indexes::LiveIndexes;
use call_compiler::Batch;
use change_log::ChangeLog;
use pathkey::NoMemory;
use std::alloc::Global;

/// Appends the messages of a batch to both trees, all or none (`LiveIndexes::append`). What they touch is noted before, so it may
/// also be noted if they are not appended.
pub(crate) fn append_noted(
    alloc: Global,
    live: &mut LiveIndexes,
    changes: &mut ChangeLog,
    batch: Batch,
) -> Result<(), NoMemory>
    ensures appended { AppendsLive (messages batch) result live.old live.new }
    ensures noted { (snapshots : Kept) → Tracks changes.old snapshots live.old.indexes → Tracks changes.new snapshots live.new.indexes }
{
    changes.note(alloc, batch.meta.as_slice(), batch.block.as_slice());
    live.append(alloc, batch)
}
