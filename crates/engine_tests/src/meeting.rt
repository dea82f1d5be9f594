//! Tests of two clients that wait for one another's file, which shows that threads share the volume.
ghost use Rattle.std.specs.Prelude.{◌≡◌};

use crate::crew::{end, two_of};
use crate::requests::{SMALL, answers, is, new_room};
use engine::{Client, Engine, EngineBuilder, EngineId};
use pathkey::Path;
use std::alloc::Global;
use std::marker::Brand;
use std::sync::Wait;
use std::test::Fail;
use std::thread::{Threads, join};
use test_support::{ExpectedReply, SampleCall};
use volume::Frozen;

/// How often a client polls for the other's file.
const LOOKS: u32 = 1_000_000;

/// Polls for a file until it is found.
fn finds<J: EngineId, R: Wait>(rt: &R, alloc: Global, client: &mut Client<J>, text: &str) -> bool {
    for _ in 0..LOOKS {
        if answers(
            rt,
            alloc,
            client,
            SampleCall::Stat(text),
            ExpectedReply::File(0),
        ) {
            return true;
        }
    }
    false
}

/// Whether the file is in a frozen tree.
fn has_file(alloc: Global, tree: &Frozen, text: &str) -> bool {
    match Path::parse(alloc, text.as_bytes()) {
        Ok(path) => is(ExpectedReply::File(0), &tree.stat(alloc, &path)),
        Err(_) => false,
    }
}

/// Whether both files are in the tree that the client freezes.
fn freezes_both<J: EngineId, R: Wait>(rt: &R, alloc: Global, client: &mut Client<J>) -> bool {
    match client.freeze(rt) {
        Ok(tree) => has_file(alloc, &tree, "/w1") && has_file(alloc, &tree, "/w2"),
        Err(_) => false,
    }
}

/// Creates a file, waits for the other's, and then looks for both in a frozen tree.
fn meet<J: EngineId, R: Wait>(
    rt: &R,
    alloc: Global,
    mut client: Client<J>,
    mine: &str,
    theirs: &str,
) -> (Client<J>, bool) {
    let made = answers(
        rt,
        alloc,
        &mut client,
        SampleCall::Create(mine),
        ExpectedReply::Done,
    );
    let found = finds(rt, alloc, &mut client, theirs);
    let both = freezes_both(rt, alloc, &mut client);
    (client, made && found && both)
}

/// Runs two clients that wait for each other, each in a thread of its own.
fn both_meet<J: EngineId + Send + Sync, R: Threads + Wait + Sync>(
    rt: &R,
    alloc: Global,
    one: Client<J>,
    other: Client<J>,
) -> ((Client<J>, bool), (Client<J>, bool)) {
    join(
        rt,
        move || meet(rt, alloc, one, "/w1", "/w2"),
        move || meet(rt, alloc, other, "/w2", "/w1"),
    )
}

/// Whether two clients of an engine find each other's file.
fn in_room<J: EngineId + Send + Sync, R: Threads + Wait + Sync>(
    rt: &R,
    alloc: Global,
    room: EngineBuilder,
) -> Option<bool>
    requires { (room.0 ≡ J.table) × (room.1 ≡ J.opening) × (J.clients ≡ 2) }
{
    let (engine, mut clients) = Engine::<J>::open(alloc, room, 2).ok()?;
    let (one, other) = two_of(&mut clients)?;
    let ((one, one_right), (other, other_right)) = both_meet(rt, alloc, one, other);
    let report = end(rt, engine, clients, one, other)?;
    Some(one_right && other_right && has_file(alloc, &report.tree, "/w1"))
}

/// An engine over a new volume.
fn run<R: Threads + Wait + Sync>(rt: &R, alloc: Global, room: EngineBuilder) -> Option<bool> {
    in_room::<Brand, R>(rt, alloc, room)
}

#[test]
fn clients_find_one_another(rt: HostRuntime) -> Result<(), Fail> {
    let Some(room) = new_room(rt.alloc(), SMALL) else {
        panic!(rt; "memory");
    };
    let answer = run(&rt, rt.alloc(), room);
    assert!(rt; answer == Some(true));
    Ok(())
}
