//! Replays a log: applies the entries of its valid records to a volume.
//!
//! The replay ends at the first entry that fails and skips none, so the volume always abstracts to the world after a
//! prefix of the logged changes.
ghost use Rattle.std.specs.Prelude.{◌+◌, ◌<◌, ◌^◌, length};
ghost use Rattle.wal.specs.Replays.{Replays};

use crate::record::next_record;
use crate::replay_error::ReplayError;
use crate::run::replay_body;
use std::alloc::Global;
use volume::Volume;

/// The result of a replay.
#[derive(Clone, Copy, Debug, PartialEq, Eq)]
pub struct ReplayReport {
    /// The number of records that were applied.
    pub records: usize,
    /// The length of these records in bytes. Either no valid record follows, or the next record was not applied.
    pub size: usize,
    /// If the next record was not applied: the change that failed.
    pub stopped: Option<ReplayError>,
}

/// Applies the changes of the records of a log with this salt, whose first record has this number, up to the end of the log
/// or to the first change that fails. A record that is cut off or damaged ends the log.
pub fn replay(
    alloc: Global,
    volume: &mut Volume,
    log: &[u8],
    salt: &[u8],
    number: u64,
) -> ReplayReport
    requires { number + length log.now < 2 ^ 64 }
    ensures { Replays salt.now number log.now result volume.old volume.new }
{
    let mut records = 0;
    let mut rest = log;
    while let Some((body, behind)) = next_record(rest, salt, number + records as u64) {
        if let Err(stopped) = replay_body(alloc, volume, body) {
            return ReplayReport {
                records,
                size: log.len() - rest.len(),
                stopped: Some(stopped),
            };
        }
        records += 1;
        rest = behind;
    }
    ReplayReport {
        records,
        size: log.len() - rest.len(),
        stopped: None,
    }
}
