//! Exports of the records of a log, whose digests include its salt. A log of version 1 has the empty salt.
ghost use Rattle.std.specs.Prelude.{◌≡◌, ◌↔◌, ◌++◌, IfErr, IfOk, length};
ghost use Rattle.pathkey.specs.declared.errno.Errno.TheVariants.{ENOMEM};
ghost use Rattle.wal.specs.Encode.{EncodesBytes};
ghost use Rattle.wal.specs.Records.{digest, front};
ghost use Rattle.doorvervain.specs.Log.{FindsRecord, ReplaysReported};
ghost use Rattle.doorvervain.specs.Numbers.{IsNumber, IsShort, IsSizeNumber, short, sized_by, reported, reported_by};

use crate::handle::VolumeHandle;
use crate::log::tell;
use crate::numbers::{count, sized};
use pathkey::Errno;
use std::alloc::Global;
use wal::encode::encode_frame;
use wal::{next_record, replay};

/// Encodes what surrounds the body of the record with this number in a log with this salt: the 24 bytes of the header and the
/// 32 bytes of the digest after the body. Stores their number in `size`, and writes them only if the buffer is large enough
/// for all of them.
#[unsafe(no_mangle)]
pub extern "C" fn doorvervain_raw_wal_salted_frame(
    alloc: Global,
    salt: &[u8],
    number: u64,
    body: &[u8],
    out: &mut [u8],
    size: &mut usize,
) -> u8
    ensures ends { EncodesBytes (front salt.now number (length body.now) ++ digest salt.now number body.now) (sized_by result size.new) out.old out.new }
    ensures memory { IfErr (sized_by result size.new) (λ e. e ≡ ENOMEM) }
    ensures short { (result ≡ short) ↔ IsShort size.new out.old }
    ensures number { IsSizeNumber result }
    ensures refused { IfErr (sized_by result size.new) (λ _. size.new ≡ 0) }
{
    let laid = encode_frame(alloc, salt, number, body, out);
    sized(laid, out.len(), size)
}

/// Finds the record with this number at the start of a log with this salt, and stores the length of its body in bytes in
/// `size`. The body is 24 bytes after the start of the log, and the next record 32 bytes after the body. Fails with ENOENT if
/// the log does not begin with such a record.
#[unsafe(no_mangle)]
pub extern "C" fn doorvervain_raw_wal_salted_next(
    log: &[u8],
    salt: &[u8],
    number: u64,
    size: &mut usize,
) -> u8
    ensures record { FindsRecord salt.now number log.now (reported_by result size.new) }
    ensures number { IsNumber result }
    ensures refused { IfErr (reported_by result size.new) (λ _. size.new ≡ 0) }
{
    let found = match next_record(log, salt, number) {
        Some((body, _)) => Ok(body.len()),
        None => Err(Errno::ENOENT),
    };
    count(found, size)
}

/// Applies the changes of the records of a log with this salt, whose first record has this number, as far as they count.
/// Stores the number of records that were applied in `records`, and their length in bytes in `size`. If a change fails,
/// `done` is the number of changes of its record that were applied before it, and otherwise 0. Fails with EINVAL, without
/// applying anything and with each of these 0, if the record number plus the length of the log is 2^64 or more.
#[unsafe(no_mangle)]
pub extern "C" fn doorvervain_raw_wal_salted_replay(
    alloc: Global,
    fs: &mut VolumeHandle,
    log: &[u8],
    salt: &[u8],
    number: u64,
    records: &mut usize,
    done: &mut usize,
    size: &mut usize,
) -> u8
    ensures replayed { ReplaysReported salt.now number log.now result records.new done.new size.new fs.old.volume fs.new.volume }
    ensures all { IfOk (reported result) (λ _. done.new ≡ 0) }
    ensures number { IsNumber result }
{
    if number > u64::MAX - log.len() as u64 {
        *records = 0;
        *done = 0;
        *size = 0;
        return Errno::EINVAL.number();
    }
    let reported = replay(alloc, fs.volume(), log, salt, number);
    *records = reported.records;
    *size = reported.size;
    tell(reported.stopped, done)
}
