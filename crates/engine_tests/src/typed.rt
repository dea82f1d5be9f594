//! Tests of the typed calls of a client: each once; the entries then have the mtimes of their changes.
use crate::requests::{SMALL, new_room};
use engine::{Client, ClientTask, EngineBuilder, EngineId, Errno, Kind, Path};
use std::alloc::Global;
use std::sync::Wait;
use std::sync::atomic::{AtomicBool, Ordering};
use std::thread::Threads;
use test_support::ask::path;

/// A directory, a file in it, and the new path of the file.
#[derive(Drop)]
struct Places {
    home: Path,
    file: Path,
    moved: Path,
}

fn new_places(alloc: Global) -> Result<Places, Errno> {
    let home = path(alloc, "/a")?;
    let file = path(alloc, "/a/f")?;
    let moved = path(alloc, "/a/g")?;
    Ok(Places { home, file, moved })
}

/// Creates the file, writes it and renames it, with rising timestamps; returns how many bytes were written.
fn changes<J: EngineId, R: Wait>(
    rt: &R,
    alloc: Global,
    client: &mut Client<J>,
    places: &Places,
) -> Result<u64, Errno> {
    client.mkdir(rt, alloc, &places.home, 1)?;
    client.create(rt, alloc, &places.file, 2)?;
    let count = client.write(rt, alloc, &places.file, 3, b"words", 3)?;
    client.truncate(rt, alloc, &places.file, 6, 4)?;
    client.rename(rt, alloc, &places.file, &places.moved, 5)?;
    Ok(count)
}

/// Whether the file has these bytes.
fn reads<J: EngineId, R: Wait>(rt: &R, alloc: Global, client: &mut Client<J>, file: &Path) -> bool {
    match client.read(rt, alloc, file, 0, 100) {
        Ok(bytes) => bytes.as_slice() == b"\0\0\0wor".as_slice(),
        Err(_) => false,
    }
}

/// Whether the directory has one entry, which is the renamed file.
fn lists<J: EngineId, R: Wait>(rt: &R, alloc: Global, client: &mut Client<J>, home: &Path) -> bool {
    match client.readdir(rt, alloc, home) {
        Ok(entries) => match entries.as_slice() {
            [(Kind::File, name)] => name.as_slice() == b"g".as_slice(),
            _ => false,
        },
        Err(_) => false,
    }
}

/// Whether reads report what was changed.
fn looks<J: EngineId, R: Wait>(
    rt: &R,
    alloc: Global,
    client: &mut Client<J>,
    places: &Places,
) -> bool {
    reads(rt, alloc, client, &places.moved)
        && lists(rt, alloc, client, &places.home)
        && client.stat(rt, alloc, &places.moved) == Ok((Kind::File, 6, 4))
        && client.stat(rt, alloc, &places.home) == Ok((Kind::Dir, 0, 5))
}

/// Whether file and directory are removed, and do not exist any more.
fn removes<J: EngineId, R: Wait>(
    rt: &R,
    alloc: Global,
    client: &mut Client<J>,
    places: &Places,
) -> bool {
    client.rmdir(rt, alloc, &places.home, 6) == Err(Errno::ENOTEMPTY)
        && client.unlink(rt, alloc, &places.moved, 6) == Ok(())
        && client.rmdir(rt, alloc, &places.home, 7) == Ok(())
        && client.rmtree(rt, alloc, &places.home, 8) == Err(Errno::ENOENT)
}

/// Whether each call has its expected result.
fn succeeds<J: EngineId, R: Wait>(rt: &R, alloc: Global, client: &mut Client<J>) -> bool {
    match new_places(alloc) {
        Ok(places) => {
            changes(rt, alloc, client, &places) == Ok(5)
                && looks(rt, alloc, client, &places)
                && removes(rt, alloc, client, &places)
        }
        Err(_) => false,
    }
}

/// A client makes each call.
#[derive(Drop)]
struct EachCall {
    is_right: AtomicBool,
}

impl ClientTask for EachCall {
    fn run<J: EngineId, R: Wait>(
        &self,
        rt: &R,
        alloc: Global,
        _number: usize,
        client: &mut Client<J>,
    ) {
        self.is_right
            .store(succeeds(rt, alloc, client), Ordering::SeqCst);
    }
}

/// Whether one client makes all of them, 13 calls in all.
fn is_served<R: Threads + Wait + Sync>(rt: &R, alloc: Global, room: EngineBuilder) -> bool {
    let work = EachCall {
        is_right: AtomicBool::new(false),
    };
    match room.serve(rt, alloc, 1, 0, &work) {
        Ok(report) => report.calls == 13 && work.is_right.load(Ordering::SeqCst),
        Err(_) => false,
    }
}

#[test]
fn each_call_by_its_name(rt: HostRuntime) {
    let is_right = match new_room(rt.alloc(), SMALL) {
        Some(room) => is_served(&rt, rt.alloc(), room),
        None => false,
    };
    assert!(rt; is_right);
}
