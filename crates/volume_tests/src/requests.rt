//! Requests to a volume in a form that constant tables can contain.
//!
//! No function here has a postcondition, so that the proofs of the tests do not unfold the contract of a volume.
use node::Shape;
use pathkey::{Errno, NoMemory, SnapName};
use reference::{Call, Reply};
use std::alloc::Global;
use test_support::{ExpectedReply, SampleCall};
use volume::{Frozen, Volume};

/// The shape that `betr` uses.
pub const USUAL: Shape = Shape::USUAL;

/// The smallest shape.
pub const SMALL: Shape = Shape {
    fanout: 4,
    pending: 4,
    leaf: 4,
};

/// A snapshot call, with the text of the name.
#[derive(Clone, Copy)]
pub enum Snap<'a> {
    Keep(&'a str),
    Drop(&'a str),
    Restore(&'a str),
}

/// A new volume.
pub fn new_volume(alloc: Global, shape: Shape) -> Result<Volume, Errno> {
    Volume::new(alloc, shape)
}

/// The live tree.
pub fn freeze(volume: &Volume) -> Result<Frozen, NoMemory> {
    volume.freeze()
}

/// The name with a text.
pub fn snap_name(alloc: Global, text: &str) -> Result<SnapName, Errno> {
    SnapName::parse(alloc, text.as_bytes())
}

impl<'a> Snap<'a> {
    /// The text of the name.
    pub fn text(self) -> &'a str {
        match self {
            Snap::Keep(text) | Snap::Drop(text) | Snap::Restore(text) => text,
        }
    }
}

/// The reply to a file call at a timestamp.
fn reply_to(alloc: Global, volume: &mut Volume, call: &Call, at: u64) -> Reply {
    volume.call(alloc, call, at)
}

/// Whether a file call at timestamp 0 has this reply.
pub fn answers(
    alloc: Global,
    volume: &mut Volume,
    ask: SampleCall<'_>,
    reported: ExpectedReply<'_>,
) -> bool {
    answers_at(alloc, volume, ask, 0, reported)
}

/// Whether a file call at a timestamp has this reply.
pub fn answers_at(
    alloc: Global,
    volume: &mut Volume,
    ask: SampleCall<'_>,
    at: u64,
    reported: ExpectedReply<'_>,
) -> bool {
    match ask.call(alloc) {
        Ok(call) => reported.is(&reply_to(alloc, volume, &call, at)),
        Err(_) => false,
    }
}

/// A timestamp, a file call, and its reply.
pub type Timed = (u64, SampleCall<'static>, ExpectedReply<'static>);

/// Whether each file call has its reply, in this order.
pub fn all_answer(alloc: Global, volume: &mut Volume, rows: &[Timed]) -> bool {
    for (at, ask, reported) in rows {
        if !answers_at(alloc, volume, *ask, *at, *reported) {
            return false;
        }
    }
    true
}

/// Whether a file is created at a timestamp: the one with this number in this directory.
pub fn creates(alloc: Global, volume: &mut Volume, directory: &str, number: u32, at: u64) -> bool {
    match format!(in alloc; "{directory}/f{number:03}") {
        Ok(text) => answers_at(
            alloc,
            volume,
            SampleCall::Create(text.as_str()),
            at,
            ExpectedReply::Done,
        ),
        Err(_) => false,
    }
}
