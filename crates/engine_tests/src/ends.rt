//! Tests of the end of an engine: it ends only with all its clients. Also makes each call of a client once.
ghost use Rattle.std.specs.Prelude.{◌≡◌};

use crate::crew::{end, two_of};
use crate::requests::{SMALL, answers, is, name_of, new_room};
use engine::{Client, CloseFault, Engine, EngineBuilder, EngineId};
use pathkey::{Errno, Path};
use std::alloc::Global;
use std::marker::Brand;
use std::sync::Wait;
use std::test::Fail;
use test_support::{ExpectedReply, SampleCall};

/// Takes, drops or restores a snapshot; the error, if it fails.
#[derive(Clone, Copy)]
pub enum Snap {
    Keep,
    Drop,
    Restore,
}

/// The error of a snapshot call; `None` if it succeeds.
pub fn fault_of<J: EngineId, R: Wait>(
    rt: &R,
    alloc: Global,
    client: &mut Client<J>,
    snap: Snap,
    text: &str,
) -> Option<Errno> {
    let Some(name) = name_of(alloc, text) else {
        return Some(Errno::ENOMEM);
    };
    match snap {
        Snap::Keep => client.snapshot(rt, alloc, &name).err(),
        Snap::Drop => client.drop_snapshot(rt, &name).err(),
        Snap::Restore => client.restore(rt, &name).err(),
    }
}

/// The reply of the snapshot of a name to a stat; the error if there is none.
fn stat_in<J: EngineId, R: Wait>(
    rt: &R,
    alloc: Global,
    client: &mut Client<J>,
    text: &str,
    path: &Path,
    wanted: ExpectedReply<'_>,
) -> Result<bool, Errno> {
    let Some(name) = name_of(alloc, text) else {
        return Err(Errno::ENOMEM);
    };
    match client.frozen(rt, &name) {
        Ok(tree) => Ok(is(wanted, &tree.stat(alloc, path))),
        Err(fault) => Err(fault),
    }
}

/// Makes each call of a client once; returns how many of them were recorded.
fn each_call<J: EngineId, R: Wait>(rt: &R, alloc: Global, client: &mut Client<J>) -> Option<u64> {
    let path = Path::parse(alloc, b"/a".as_slice()).ok()?;
    let made = answers(
        rt,
        alloc,
        client,
        SampleCall::Mkdir("/a"),
        ExpectedReply::Done,
    );
    let kept = fault_of(rt, alloc, client, Snap::Keep, "s");
    let again = fault_of(rt, alloc, client, Snap::Keep, "s");
    let removed = answers(
        rt,
        alloc,
        client,
        SampleCall::Rmdir("/a"),
        ExpectedReply::Done,
    );
    let past = stat_in(rt, alloc, client, "s", &path, ExpectedReply::Dir);
    let none = stat_in(rt, alloc, client, "t", &path, ExpectedReply::Dir);
    let back = fault_of(rt, alloc, client, Snap::Restore, "s");
    let there = answers(
        rt,
        alloc,
        client,
        SampleCall::Stat("/a"),
        ExpectedReply::Dir,
    );
    let dropped = fault_of(rt, alloc, client, Snap::Drop, "s");
    let lost = fault_of(rt, alloc, client, Snap::Drop, "s");
    let is_right = made
        && kept.is_none()
        && again == Some(Errno::EEXIST)
        && removed
        && past == Ok(true)
        && none == Err(Errno::ENOENT)
        && back.is_none()
        && there
        && dropped.is_none()
        && lost == Some(Errno::ENOENT);
    is_right.then_some(client.made())
}

/// Makes each call of one of two clients once; then the engine ends.
fn in_room<J: EngineId, R: Wait>(rt: &R, alloc: Global, room: EngineBuilder) -> Option<u64>
    requires { (room.0 ≡ J.table) × (room.1 ≡ J.opening) × (J.clients ≡ 2) }
{
    let (engine, mut clients) = Engine::<J>::open(alloc, room, 2).ok()?;
    let (mut one, other) = two_of(&mut clients)?;
    let made = each_call(rt, alloc, &mut one)?;
    let report = end(rt, engine, clients, one, other)?;
    (report.calls == made).then_some(made)
}

/// An engine over a new volume.
fn run<R: Wait>(rt: &R, alloc: Global, room: EngineBuilder) -> Option<u64> {
    in_room::<Brand, R>(rt, alloc, room)
}

#[test]
fn each_call_of_a_client(rt: HostRuntime) -> Result<(), Fail> {
    let Some(room) = new_room(rt.alloc(), SMALL) else {
        panic!(rt; "memory");
    };
    let made = run(&rt, rt.alloc(), room);
    assert!(rt; made == Some(8));
    Ok(())
}

/// Ends an engine of two clients with one of them, which fails, and then with both.
fn without_one<J: EngineId, R: Wait>(rt: &R, alloc: Global, room: EngineBuilder) -> Option<bool>
    requires { (room.0 ≡ J.table) × (room.1 ≡ J.opening) × (J.clients ≡ 2) }
{
    let (engine, mut clients) = Engine::<J>::open(alloc, room, 2).ok()?;
    let other = clients.pop()?;
    let Err(CloseFault::Missing(engine, mut back)) = engine.close(rt, clients) else {
        return None;
    };
    back.push(other).ok()?;
    let report = engine.close(rt, back).ok()?;
    Some(report.calls == 0)
}

/// An engine over a new volume.
fn run_without_one<R: Wait>(rt: &R, alloc: Global, room: EngineBuilder) -> Option<bool> {
    without_one::<Brand, R>(rt, alloc, room)
}

#[test]
fn no_end_without_a_client(rt: HostRuntime) -> Result<(), Fail> {
    let Some(room) = new_room(rt.alloc(), SMALL) else {
        panic!(rt; "memory");
    };
    let answer = run_without_one(&rt, rt.alloc(), room);
    assert!(rt; answer == Some(true));
    Ok(())
}
