//! Volumes of many files, from whose roots jobs can be taken.
use crate::own::{OWNED, PLACE, mark_of};
use crate::requests::{SMALL, call_of, name_of};
use engine::EngineBuilder;
use pathkey::Errno;
use reference::{Call, Reply};
use std::alloc::Global;
use test_support::{ExpectedReply, SampleCall, file_name};
use volume::{Index, TakeReply, Volume};

/// The number of files.
const FILES: u32 = 300;

/// The maximal number of steps.
const STEPS: u32 = 10_000;

/// The reply to a call. It has no postcondition, so that the proofs of the tests do not unfold what a call does; nor do
/// `new_volume` and `take`.
fn reply_to(alloc: Global, volume: &mut Volume, call: &Call) -> Reply {
    volume.call(alloc, call, 0)
}

/// Whether a call of the volume has this reply.
pub fn answers(
    alloc: Global,
    volume: &mut Volume,
    ask: SampleCall<'_>,
    wanted: ExpectedReply<'_>,
) -> bool {
    match call_of(alloc, ask) {
        Some(call) => wanted.is(&reply_to(alloc, volume, &call)),
        None => false,
    }
}

/// Creates a file with a byte.
fn makes(alloc: Global, volume: &mut Volume, text: &str) -> bool {
    answers(alloc, volume, SampleCall::Create(text), ExpectedReply::Done)
        && answers(
            alloc,
            volume,
            SampleCall::Write(text, 0, b"a"),
            ExpectedReply::Count(1),
        )
}

/// Creates the file with a number.
fn makes_one(alloc: Global, volume: &mut Volume, number: u32) -> bool {
    match file_name(alloc, number) {
        Some(text) => makes(alloc, volume, text.as_str()),
        None => false,
    }
}

/// Creates all files, and then does steps until nothing is pending.
fn fills(alloc: Global, volume: &mut Volume) -> bool {
    let mut is_right = true;
    for number in 0..FILES {
        is_right &= makes_one(alloc, volume, number);
    }
    for _ in 0..STEPS {
        if volume.compact_step(alloc).is_none() {
            return is_right;
        }
    }
    false
}

/// A new volume.
fn new_volume(alloc: Global) -> Result<Volume, Errno> {
    Volume::new(alloc, SMALL)
}

/// This volume, with many files.
fn filled(alloc: Global, mut volume: Volume) -> Option<Volume> {
    if fills(alloc, &mut volume) {
        Some(volume)
    } else {
        None
    }
}

/// A volume of many files with a byte each, in which nothing is pending.
pub fn filled_volume(alloc: Global) -> Option<Volume> {
    match new_volume(alloc) {
        Ok(volume) => filled(alloc, volume),
        Err(_) => None,
    }
}

/// The name of the snapshot that has the first marks.
pub const FIRST: &str = "s";

/// Writes the first mark to the file with a number.
fn writes_first(alloc: Global, volume: &mut Volume, number: u32) -> bool {
    let bytes = mark_of(u64::from(number), 0);
    match file_name(alloc, number) {
        Some(text) => {
            answers(
                alloc,
                volume,
                SampleCall::Write(text.as_str(), PLACE, &bytes),
                ExpectedReply::Count(8),
            )
        }
        None => false,
    }
}

/// Takes the snapshot.
fn keeps(alloc: Global, volume: &mut Volume) -> bool {
    match name_of(alloc, FIRST) {
        Some(name) => volume.snapshot(alloc, &name).is_ok(),
        None => false,
    }
}

/// Writes the first mark to each file that only one client writes, and takes the snapshot.
fn writes_and_keeps(alloc: Global, volume: &mut Volume) -> bool {
    let mut is_right = true;
    for number in 0..OWNED {
        is_right &= writes_first(alloc, volume, number);
    }
    is_right && keeps(alloc, volume)
}

/// This volume, with the first marks and a snapshot of them.
fn kept(alloc: Global, mut volume: Volume) -> Option<Volume> {
    if writes_and_keeps(alloc, &mut volume) {
        Some(volume)
    } else {
        None
    }
}

/// A volume of many files with the first marks, which are all pending in the roots, and a snapshot of that.
fn kept_volume(alloc: Global) -> Option<Volume> {
    match filled_volume(alloc) {
        Some(volume) => kept(alloc, volume),
        None => None,
    }
}

/// An engine builder with such a volume.
pub fn kept_room(alloc: Global) -> Option<EngineBuilder> {
    room_of(alloc, kept_volume(alloc))
}

/// An engine builder with a volume, if there is one.
fn room_of(alloc: Global, volume: Option<Volume>) -> Option<EngineBuilder> {
    match volume {
        Some(volume) => EngineBuilder::new(alloc, volume).ok(),
        None => None,
    }
}

/// Takes a job at this slot of an index's root.
pub fn take(alloc: Global, volume: &mut Volume, index: Index, slot: u8) -> TakeReply {
    volume.take_job(alloc, index, slot)
}

/// Whether a job was taken of the slot of the metadata's root with the most pending messages.
fn takes(alloc: Global, volume: &mut Volume) -> bool {
    match volume.backlog(Index::Meta) {
        Some(load) => matches!(
            take(alloc, volume, Index::Meta, load.slot),
            TakeReply::Taken(_)
        ),
        None => false,
    }
}

/// Whether a job was taken of the only slot of the metadata's root with a pending message: a new file, whose directory already has its
/// mtime.
fn marks(alloc: Global, volume: &mut Volume) -> bool {
    answers(alloc, volume, SampleCall::Create("/z"), ExpectedReply::Done)
        && takes(alloc, volume)
        && volume.backlog(Index::Meta).is_none()
}

/// This volume, with one more file pending in a marked slot.
fn marked(alloc: Global, mut volume: Volume) -> Option<Volume> {
    if marks(alloc, &mut volume) {
        Some(volume)
    } else {
        None
    }
}

/// A volume of many files, with one more pending in a marked slot.
fn marked_volume(alloc: Global) -> Option<Volume> {
    match filled_volume(alloc) {
        Some(volume) => marked(alloc, volume),
        None => None,
    }
}

/// An engine builder with such a volume.
pub fn marked_room(alloc: Global) -> Option<EngineBuilder> {
    room_of(alloc, marked_volume(alloc))
}
