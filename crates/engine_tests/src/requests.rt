//! Requests to a client in a form that constant tables can contain.

use engine::{Client, EngineBuilder, EngineId};
use node::Shape;
use pathkey::SnapName;
use reference::{Call, Reply};
use std::alloc::Global;
use std::sync::Wait;
use test_support::{ExpectedReply, SampleCall};
use volume::Volume;

/// The smallest shape.
pub const SMALL: Shape = Shape {
    fanout: 4,
    pending: 4,
    leaf: 4,
};

/// An engine builder with a new volume.
pub fn new_room(alloc: Global, shape: Shape) -> Option<EngineBuilder> {
    let volume = Volume::new(alloc, shape).ok()?;
    EngineBuilder::new(alloc, volume).ok()
}

/// Whether this is the reply to a call.
fn replies<J: EngineId, R: Wait>(
    rt: &R,
    alloc: Global,
    client: &mut Client<J>,
    call: &Call,
    wanted: ExpectedReply<'_>,
) -> bool {
    let reply = client.call(rt, alloc, call, 0);
    is(wanted, &reply)
}

/// Whether this is the reply.
pub fn is(wanted: ExpectedReply<'_>, reply: &Reply) -> bool {
    wanted.is(reply)
}

/// Whether a call of the client has this reply.
pub fn answers<J: EngineId, R: Wait>(
    rt: &R,
    alloc: Global,
    client: &mut Client<J>,
    ask: SampleCall<'_>,
    wanted: ExpectedReply<'_>,
) -> bool {
    match call_of(alloc, ask) {
        Some(call) => replies(rt, alloc, client, &call, wanted),
        None => false,
    }
}

/// The call.
pub fn call_of(alloc: Global, ask: SampleCall<'_>) -> Option<Call> {
    ask.call(alloc).ok()
}

/// The name with a text.
pub fn name_of(alloc: Global, text: &str) -> Option<SnapName> {
    SnapName::parse(alloc, text.as_bytes()).ok()
}
