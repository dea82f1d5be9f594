//! What a client of an engine does, and a turn of a flusher beside it.
use crate::harness::{OomCase, ask};
use crate::runs::AT;
use crate::standing::{NAMES, put_live, put_past};
use crate::window;
use engine::{Between, Client, EngineId, Flusher};
use pathkey::{Errno, NoMemory, SnapName};
use reference::Call;
use shell::Request;
use std::alloc::Global;
use std::io::Write;
use std::sync::Wait;
use volume::{Frozen, Transacted};

/// What a client does.
#[derive(Clone, Copy)]
pub enum Wish<'a> {
    /// A call, or a snapshot call.
    Line(&'a Request),
    /// Calls that are done whole or not at all.
    Transact(&'a [(Call, u64)]),
    /// Freezes the live tree.
    Freeze,
    /// Freezes the tree of a snapshot.
    Frozen(&'a SnapName),
    /// Says how many calls it has made.
    Made,
}

/// A client, and the runtime with which it waits for the lock.
#[derive(Drop)]
pub struct Served<'a, J: EngineId, R: Wait> {
    /// The runtime.
    pub rt: &'a R,
    /// The client.
    pub client: Client<J>,
}

/// A client, and what it does.
#[derive(Drop)]
pub struct OnClient<'a, 'b, J: EngineId, R: Wait> {
    /// The client.
    pub served: Served<'a, J, R>,
    /// What it does.
    pub wish: Wish<'b>,
}

/// The tree of a snapshot.
fn past_of<J: EngineId, R: Wait>(
    alloc: Global,
    served: &mut Served<'_, J, R>,
    text: &str,
) -> Result<Frozen, Errno> {
    match SnapName::parse(alloc, text.as_bytes()) {
        Ok(name) => served.client.frozen(served.rt, &name),
        Err(fault) => Err(fault),
    }
}

/// Prints how large the trees are.
fn put_counts(tree: &Result<Frozen, NoMemory>, out: &mut Vec<u8>) {
    if let Ok(tree) = tree {
        let indexes = tree.indexes();
        let meta = indexes.meta.tree.shape_report();
        let block = indexes.block.tree.shape_report();
        let _ = writeln!(out, "count {meta:?} {block:?}");
    }
}

/// Prints the trees, and how many calls of the client were recorded.
fn show<J: EngineId, R: Wait>(alloc: Global, served: &mut Served<'_, J, R>, out: &mut Vec<u8>) {
    let made = served.client.made();
    let _ = writeln!(out, "made {made}");
    let live = served.client.freeze(served.rt);
    put_counts(&live, out);
    put_live(alloc, &live, out);
    for text in &NAMES {
        put_past(alloc, &past_of(alloc, served, text), out);
    }
}

/// A call between the two lines.
fn call<J: EngineId, R: Wait + Print>(
    alloc: Global,
    served: &mut Served<'_, J, R>,
    call: &Call,
    out: &mut Vec<u8>,
) {
    window::open(served.rt);
    let told = served.client.call(served.rt, alloc, call, AT);
    window::close(served.rt);
    let _ = writeln!(out, "{told:?}");
}

/// The answer to a snapshot call.
fn snap<J: EngineId, R: Wait>(
    alloc: Global,
    served: &mut Served<'_, J, R>,
    request: &Request,
) -> Result<(), Errno> {
    match request {
        Request::Snapshot(name) => served.client.snapshot(served.rt, alloc, name),
        Request::DropSnapshot(name) => served.client.drop_snapshot(served.rt, name),
        Request::Restore(name) => served.client.restore(served.rt, name),
        _ => Ok(()),
    }
}

/// A call or a snapshot call between the two lines.
fn line<J: EngineId, R: Wait + Print>(
    alloc: Global,
    served: &mut Served<'_, J, R>,
    request: &Request,
    out: &mut Vec<u8>,
) {
    if let Request::Wanted(wanted) = request {
        return call(alloc, served, wanted, out);
    }
    window::open(served.rt);
    let told = snap(alloc, served, request);
    window::close(served.rt);
    let _ = writeln!(out, "{told:?}");
}

/// Prints the answer to a list of calls.
fn put_transacted(told: &Transacted, out: &mut Vec<u8>) {
    match told {
        Ok(replies) => {
            for reply in replies.as_slice() {
                let _ = writeln!(out, "{reply:?}");
            }
        }
        Err(failed) => {
            let fault = failed.errno;
            let _ = writeln!(out, "Fault({fault:?})");
        }
    }
}

/// A list of calls between the two lines.
fn transact<J: EngineId, R: Wait + Print>(
    alloc: Global,
    served: &mut Served<'_, J, R>,
    calls: &[(Call, u64)],
    out: &mut Vec<u8>,
) {
    window::open(served.rt);
    let told = served.client.transact(served.rt, alloc, calls);
    window::close(served.rt);
    put_transacted(&told, out);
}

/// Freezes the live tree between the two lines.
fn freeze<J: EngineId, R: Wait + Print>(
    alloc: Global,
    served: &mut Served<'_, J, R>,
    out: &mut Vec<u8>,
) {
    window::open(served.rt);
    let told = served.client.freeze(served.rt);
    window::close(served.rt);
    put_live(alloc, &told, out);
}

/// Freezes the tree of a snapshot between the two lines.
fn frozen<J: EngineId, R: Wait + Print>(
    alloc: Global,
    served: &mut Served<'_, J, R>,
    name: &SnapName,
    out: &mut Vec<u8>,
) {
    window::open(served.rt);
    let told = served.client.frozen(served.rt, name);
    window::close(served.rt);
    put_past(alloc, &told, out);
}

/// The number of the client's calls, read between the two lines.
fn made<J: EngineId, R: Wait + Print>(served: &Served<'_, J, R>, out: &mut Vec<u8>) {
    window::open(served.rt);
    let told = served.client.made();
    window::close(served.rt);
    let _ = writeln!(out, "made {told}");
}

impl<'a, 'b, J: EngineId, C: Wait + Print> OomCase for OnClient<'a, 'b, J, C> {
    fn show(&mut self, alloc: Global, out: &mut Vec<u8>) {
        show(alloc, &mut self.served, out);
    }

    fn ask<R: Print>(&mut self, _rt: &R, alloc: Global, out: &mut Vec<u8>) {
        match self.wish {
            Wish::Line(request) => line(alloc, &mut self.served, request, out),
            Wish::Transact(calls) => transact(alloc, &mut self.served, calls, out),
            Wish::Freeze => freeze(alloc, &mut self.served, out),
            Wish::Frozen(name) => frozen(alloc, &mut self.served, name, out),
            Wish::Made => made(&self.served, out),
        }
    }
}

/// A client that may restore a snapshot between the two critical sections of a turn, outside the two lines of the call.
#[derive(Drop)]
struct Meanwhile<'a, 'b, J: EngineId, R: Wait> {
    served: Served<'a, J, R>,
    restored: Option<&'b SnapName>,
}

/// The client restores a snapshot.
fn restore<J: EngineId, R: Wait + Print>(served: &mut Served<'_, J, R>, name: &SnapName) {
    window::close(served.rt);
    let _ = served.client.restore(served.rt, name);
    window::open(served.rt);
}

impl<'a, 'b, J: EngineId, R: Wait + Print> Between for Meanwhile<'a, 'b, J, R> {
    fn between(&mut self) {
        if let Some(name) = self.restored {
            restore(&mut self.served, name);
        }
    }
}

/// A client and a flusher of one engine.
#[derive(Drop)]
struct Crew<'a, 'b, J: EngineId, R: Wait> {
    meanwhile: Meanwhile<'a, 'b, J, R>,
    flusher: Flusher<J>,
}

impl<'a, 'b, J: EngineId, C: Wait + Print> OomCase for Crew<'a, 'b, J, C> {
    fn show(&mut self, alloc: Global, out: &mut Vec<u8>) {
        show(alloc, &mut self.meanwhile.served, out);
    }

    fn ask<R: Print>(&mut self, rt: &R, alloc: Global, out: &mut Vec<u8>) {
        let waits = self.meanwhile.served.rt;
        window::open(rt);
        let told = self.flusher.turn(waits, alloc, &mut self.meanwhile);
        window::close(rt);
        let _ = writeln!(out, "{told:?}");
    }
}

/// A turn of a flusher, after `turns` turns.
pub fn make_turn<J: EngineId, R: Wait + Print>(
    rt: &R,
    alloc: Global,
    client: Client<J>,
    mut flusher: Flusher<J>,
    restored: Option<&SnapName>,
    turns: u32,
    out: &mut Vec<u8>,
) {
    flusher.run_flusher(rt, alloc, turns);
    let served = Served { rt, client };
    let meanwhile = Meanwhile { served, restored };
    ask(rt, alloc, &mut Crew { meanwhile, flusher }, out);
}
