//! Applies lists of entries, and bodies of records, to a volume.
//!
//! If an entry fails, all entries before it were applied and none after it.
ghost use Rattle.wal.specs.Runs.{Runs, RunsBody};

use crate::apply::apply_entry;
use crate::decode::decode_entries;
use crate::replay_error::ReplayError;
use crate::wal_entry::WalEntry;
use std::alloc::Global;
use volume::Volume;

/// Applies changes in order, up to the first that fails.
pub fn replay_entries(
    alloc: Global,
    volume: &mut Volume,
    changes: &[WalEntry],
) -> Result<(), ReplayError>
    ensures { Runs changes.now result volume.old volume.new }
{
    let mut done = 0;
    for change in changes {
        if let Err(fault) = apply_entry(alloc, volume, change) {
            return Err(ReplayError { done, fault });
        }
        done += 1;
    }
    Ok(())
}

/// Applies the changes of a record's body, up to the first that fails. Bytes that are not a body fail with EINVAL, and an
/// allocation failure while decoding them with ENOMEM. In both cases nothing was applied.
pub fn replay_body(alloc: Global, volume: &mut Volume, body: &[u8]) -> Result<(), ReplayError>
    ensures { RunsBody body.now result volume.old volume.new }
{
    match decode_entries(alloc, body) {
        Ok(changes) => replay_entries(alloc, volume, changes.as_slice()),
        Err(fault) => Err(ReplayError { done: 0, fault }),
    }
}
