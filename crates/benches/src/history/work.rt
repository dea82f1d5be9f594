//! Makes the calls of a client, and logs each with the clock before it and after it has returned.
use crate::flushers::rest;
use crate::history::call::{PathRequest, Request};
use crate::history::draw::Draw;
use crate::history::log::Log;
use crate::history::names::{COUNT, FIRST_OFFSET, Names};
use engine::{Client, EngineId, Errno, Frozen, Kind, Path, Reply, SnapName};
use std::alloc::Global;
use std::sync::Wait;
use std::sync::atomic::{AtomicU64, Ordering};
use test_support::ask::SampleCall;

/// The size of the workload, and the clock.
#[derive(Drop)]
pub struct Course {
    /// The seed of the calls.
    pub seed: u32,
    /// The number of calls of each client.
    pub calls: u64,
    /// How often all threads together have read the clock.
    pub clock: AtomicU64,
}

impl Course {
    /// The clock: a unique number, greater than all that were returned before.
    fn now(&self) -> u64 {
        self.clock.fetch_add(1, Ordering::SeqCst)
    }
}

/// The call, with the bytes of its mark.
fn sample<'a>(names: &'a Names, request: PathRequest, mark: &'a [u8]) -> SampleCall<'a> {
    match request {
        PathRequest::Mkdir(path) => SampleCall::Mkdir(names.text(path)),
        PathRequest::Create(path) => SampleCall::Create(names.text(path)),
        PathRequest::Write(path, offset, _) => SampleCall::Write(names.text(path), offset, mark),
        PathRequest::Truncate(path, len) => SampleCall::Truncate(names.text(path), len),
        PathRequest::Unlink(path) => SampleCall::Unlink(names.text(path)),
        PathRequest::Rmdir(path) => SampleCall::Rmdir(names.text(path)),
        PathRequest::Rename(old, new) => SampleCall::Rename(names.text(old), names.text(new)),
        PathRequest::Rmtree(path) => SampleCall::Rmtree(names.text(path)),
        PathRequest::Read(path) => SampleCall::Read(names.text(path), FIRST_OFFSET, COUNT),
        PathRequest::Stat(path) => SampleCall::Stat(names.text(path)),
        PathRequest::Readdir(path) => SampleCall::Readdir(names.text(path)),
    }
}

/// Makes a call on paths that began at this time; `false` if logging it fails for lack of memory.
fn make_on_paths<J: EngineId, R: Wait>(
    rt: &R,
    alloc: Global,
    client: &mut Client<J>,
    course: &Course,
    call: SampleCall,
    log: &mut Log,
) -> bool {
    match call.call(alloc) {
        Ok(request) => {
            let begin = course.now();
            let reply = client.call(rt, alloc, &request, begin);
            let end = course.now();
            log.add(begin, end, call, &reply)
        }
        Err(_) => false,
    }
}

/// Makes the call on paths.
fn make_path_call<J: EngineId, R: Wait>(
    rt: &R,
    alloc: Global,
    client: &mut Client<J>,
    names: &Names,
    course: &Course,
    request: PathRequest,
    log: &mut Log,
) -> bool {
    let mark = match request {
        PathRequest::Write(_, _, mark) => mark.to_be_bytes(),
        _ => [0; 8],
    };
    make_on_paths(
        rt,
        alloc,
        client,
        course,
        sample(names, request, &mark),
        log,
    )
}

/// Makes a snapshot call, which returns nothing.
fn ask_snapshot<J: EngineId, R: Wait>(
    rt: &R,
    alloc: Global,
    client: &mut Client<J>,
    request: Request,
    name: &SnapName,
) -> Result<(), Errno> {
    match request {
        Request::Keep(_) => client.snapshot(rt, alloc, name),
        Request::Drop(_) => client.drop_snapshot(rt, name),
        _ => client.restore(rt, name),
    }
}

/// The word of a call on the whole tree, and the number of its snapshot's name.
fn word_of(request: Request) -> (&'static str, usize) {
    match request {
        Request::Keep(name) => ("snapshot", name),
        Request::Drop(name) => ("drop_snapshot", name),
        Request::Restore(name) => ("restore", name),
        Request::Look(name) => ("look", name),
        _ => ("scan", 0),
    }
}

/// Makes a snapshot call; `false` if logging it fails for lack of memory.
fn make_on_snapshot<J: EngineId, R: Wait>(
    rt: &R,
    alloc: Global,
    client: &mut Client<J>,
    names: &Names,
    course: &Course,
    request: Request,
    log: &mut Log,
) -> bool {
    let (word, number) = word_of(request);
    match names.snapshots.get(number) {
        Some(name) => {
            let begin = course.now();
            let result = ask_snapshot(rt, alloc, client, request, name);
            let end = course.now();
            let answer = match result {
                Ok(()) => "ok",
                Err(fault) => fault.name(),
            };
            log.add_snapshot(begin, end, word, number, answer)
        }
        None => false,
    }
}

/// Adds the content of a path: the bytes of a file, the entries of a directory.
fn put_content(log: &mut Log, alloc: Global, tree: &Frozen, path: &Path, kind: Kind) -> bool {
    let reply = match kind {
        Kind::Dir => tree.readdir(alloc, path),
        Kind::File => tree.read(alloc, path, FIRST_OFFSET, COUNT),
    };
    log.put_more(&reply)
}

/// Adds what a frozen tree has at the path with a number.
fn put_seen(log: &mut Log, alloc: Global, tree: &Frozen, path: &Path, number: usize) -> bool {
    let reply = tree.stat(alloc, path);
    let is_put = log.put_place(number) && log.put_more(&reply);
    match &reply {
        Reply::Stat(kind, _, _) => is_put && put_content(log, alloc, tree, path, *kind),
        _ => is_put,
    }
}

/// Adds what a frozen tree has at all paths.
fn put_tree(log: &mut Log, alloc: Global, tree: &Frozen, paths: &[Path]) -> bool {
    let mut is_put = true;
    let mut number = 0usize;
    for path in paths {
        is_put &= put_seen(log, alloc, tree, path, number);
        number = number.wrapping_add(1);
    }
    is_put
}

/// The tree of the snapshot of a name, or the live tree if there is no name.
fn tree_of<J: EngineId, R: Wait>(
    rt: &R,
    client: &mut Client<J>,
    name: Option<&SnapName>,
) -> Result<Frozen, Errno> {
    match name {
        Some(name) => client.frozen(rt, name),
        None => match client.freeze(rt) {
            Ok(tree) => Ok(tree),
            Err(_) => Err(Errno::ENOMEM),
        },
    }
}

/// Freezes a tree, and reads all its paths after the call has ended: it does not change. `false` if logging it fails for
/// lack of memory.
fn make_look<J: EngineId, R: Wait>(
    rt: &R,
    alloc: Global,
    client: &mut Client<J>,
    names: &Names,
    course: &Course,
    request: Request,
    log: &mut Log,
) -> bool {
    let (word, number) = word_of(request);
    let name = match request {
        Request::Look(name) => names.snapshots.get(name),
        _ => None,
    };
    let begin = course.now();
    let tree = tree_of(rt, client, name);
    let end = course.now();
    match tree {
        Ok(tree) => log.begin_look(begin, end, word, number)
            && put_tree(log, alloc, &tree, names.paths.as_slice())
            && log.end(),
        Err(fault) => log.add_snapshot(begin, end, word, number, fault.name()),
    }
}

/// Makes a call; `false` if logging it fails for lack of memory.
fn make<J: EngineId, R: Wait>(
    rt: &R,
    alloc: Global,
    client: &mut Client<J>,
    names: &Names,
    course: &Course,
    request: Request,
    log: &mut Log,
) -> bool {
    match request {
        Request::Path(request) => make_path_call(rt, alloc, client, names, course, request, log),
        Request::Look(_) | Request::Scan => make_look(
            rt, alloc, client, names, course, request, log,
        ),
        _ => make_on_snapshot(rt, alloc, client, names, course, request, log),
    }
}

/// Makes all calls, until logging fails for lack of memory.
fn make_all<J: EngineId, R: Wait>(
    rt: &R,
    alloc: Global,
    client: &mut Client<J>,
    names: &Names,
    course: &Course,
    log: &mut Log,
) {
    let mut draw = Draw::new(course.seed, log.client);
    for _ in 0..course.calls {
        if !make(rt, alloc, client, names, course, draw.next(), log) {
            return;
        }
        if draw.rests() {
            rest(rt);
        }
    }
}

/// Makes all calls of the client with a number. Calls that could not be logged for lack of memory are missing from the
/// log.
pub fn work<J: EngineId, R: Wait>(
    rt: &R,
    alloc: Global,
    client: &mut Client<J>,
    number: usize,
    course: &Course,
) -> Log {
    let mut log = Log::new(alloc, number);
    if let Some(names) = Names::new(alloc) {
        make_all(rt, alloc, client, &names, course, &mut log);
    }
    log
}
