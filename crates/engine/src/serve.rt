//! Runs an engine from its opening to its end, with each client in a thread of its own, and with flushers in further
//! threads. All threads have ended when it returns.
ghost use Rattle.std.specs.Prelude.{◌≡◌, ◌≤◌, IfOk, IfErr};
ghost use Rattle.engine.specs.Clients.{newcomer, fresh};
ghost use Rattle.engine.specs.Ends.{Worked, Served, GivesVolume};

use crate::client::Client;
use crate::clients::Clients;
use crate::engine::{Engine, EngineBuilder, Report};
use crate::engine_rule::EngineId;
use crate::flusher::Flusher;
use std::alloc::Global;
use std::marker::Brand;
use std::sync::Wait;
use std::sync::atomic::{AtomicBool, Ordering};
use std::thread::{Scope, Threads, for_each_mut, scope, scope_env};
use volume::Volume;

/// What each client of an engine does. All clients share the task, so its results go into atomics or locks of it.
pub trait ClientTask {
    ghost use Rattle.std.specs.Prelude.{⊤};
    ghost use Rattle.engine.specs.Clients.{Known};
    ghost use Rattle.volume.specs.Volumes.{PVolume};

    /// What the task does to a client of an engine over this volume: a relation between what the client knows before and
    /// after it. `EngineBuilder::serve` promises it for each client. The default is true of everything.
    ghost does: { Self → PVolume → Known → Known → Type 0 } = { λ _ _ _ _. ⊤ };

    /// Runs the task with this client, which has this number and has seen nothing.
    fn run<J: EngineId, R: Wait>(
        &self,
        rt: &R,
        alloc: Global,
        number: usize,
        client: &mut Client<J>,
    )
        requires { client.old ≡ newcomer number }
        ensures { does self.now J.opening client.old client.new };
}

/// Why there is no report.
#[derive(Drop)]
pub enum ServeFault {
    /// An allocation failed before any client ran. The volume is unchanged.
    NotOpened(Volume),
    /// All clients have run, but another reference to the tree's nodes could not be taken. The volume is lost.
    NotClosed,
}

impl EngineBuilder {
    /// Opens an engine with the given number of clients and runs the task once for each of them, in as many threads at the
    /// same time as there can be. Meanwhile the given number of flushers run turns in threads of their own. A flusher is left
    /// out if its thread or an allocation fails. Then the engine is closed. All threads have ended when it returns.
    ///
    /// Each client ran the task once, and had seen nothing before. One legal history extends all that the clients have then
    /// seen, and has exactly their calls. The report's tree is the live tree after it.
    pub fn serve<W: ClientTask + Sync, R: Threads + Wait + Sync>(
        self,
        rt: &R,
        alloc: Global,
        clients: usize,
        flushers: u8,
        run: &W,
    ) -> Result<Report, ServeFault>
        requires few { (1 ≤ clients) × (clients ≤ 64) }
        ensures ends { IfOk result (λ r. Served (W.does run.now self.1) self.1 clients r.calls r.tree) }
        ensures back { IfErr result (GivesVolume (W.does run.now self.1) self.1 clients) }
    {
        serve_in::<Brand, W, R>(rt, alloc, self, clients, flushers, run)
    }
}

/// Opens an engine that has a name, runs its clients beside flushers, and closes it.
fn serve_in<J: EngineId + Send + Sync, W: ClientTask + Sync, R: Threads + Wait + Sync>(
    rt: &R,
    alloc: Global,
    builder: EngineBuilder,
    clients: usize,
    flushers: u8,
    run: &W,
) -> Result<Report, ServeFault>
    requires names { (builder.0 ≡ J.table) × (builder.1 ≡ J.opening) × (clients ≡ J.clients) }
    requires few { (1 ≤ clients) × (clients ≤ 64) }
    ensures ends { IfOk result (λ r. Served (W.does run.now builder.1) builder.1 clients r.calls r.tree) }
    ensures back { IfErr result (GivesVolume (W.does run.now builder.1) builder.1 clients) }
{
    match Engine::<J>::open(alloc, builder, clients) {
        Ok((engine, clients)) => work_and_end(rt, alloc, engine, clients, flushers, run),
        Err(volume) => Err(ServeFault::NotOpened(volume)),
    }
}

/// Runs the clients beside flushers, and then ends the engine.
fn work_and_end<J: EngineId + Send + Sync, W: ClientTask + Sync, R: Threads + Wait + Sync>(
    rt: &R,
    alloc: Global,
    mut engine: Engine<J>,
    clients: Clients<J>,
    flushers: u8,
    run: &W,
) -> Result<Report, ServeFault>
    requires all { engine ≡ J.clients }
    requires fresh { clients ≡ fresh J.clients }
    ensures ends { IfOk result (λ r. Served (W.does run.now J.opening) J.opening J.clients r.calls r.tree) }
    ensures back { IfErr result (GivesVolume (W.does run.now J.opening) J.opening J.clients) }
{
    let staff = new_flushers(alloc, &mut engine, flushers);
    let worked = work_beside(rt, alloc, clients, staff, run);
    match engine.close(rt, worked) {
        Ok(report) => Ok(report),
        // No client is missing, so a reference to the tree could not be taken.
        Err(_) => Err(ServeFault::NotClosed),
    }
}

/// Creates the given number of flushers, without those for which an allocation fails.
fn new_flushers<J: EngineId>(alloc: Global, engine: &mut Engine<J>, count: u8) -> Vec<Flusher<J>>
    ensures { engine.new ≡ engine.old }
{
    let mut staff = Vec::new(alloc);
    for _ in 0..count {
        hire_into(engine, &mut staff);
    }
    staff
}

/// Adds one flusher, unless an allocation fails.
fn hire_into<J: EngineId>(engine: &mut Engine<J>, staff: &mut Vec<Flusher<J>>)
    ensures { engine.new ≡ engine.old }
{
    if let Ok(flusher) = engine.flusher() {
        let _ = staff.push(flusher);
    }
}

/// Runs the clients, while the flushers run turns.
fn work_beside<J: EngineId + Send + Sync, W: ClientTask + Sync, R: Threads + Wait + Sync>(
    rt: &R,
    alloc: Global,
    clients: Clients<J>,
    staff: Vec<Flusher<J>>,
    run: &W,
) -> Clients<J>
    requires { clients ≡ fresh J.clients }
    ensures { Worked (W.does run.now J.opening) J.clients result }
{
    let is_done = AtomicBool::new(false);
    scope(
        scope_env(),
        rt,
        |scope|
            requires { clients ≡ fresh J.clients }
        { work_in(scope, rt, alloc, clients, staff, &is_done, run) },
    )
}

/// Starts the flushers, runs the clients, and then signals the flushers to stop.
fn work_in<'s, E, J: EngineId + Send + Sync + 's, W: ClientTask + Sync, R: Threads + Wait + Sync>(
    scope: &Scope<'s, E>,
    rt: &'s R,
    alloc: Global,
    mut clients: Clients<J>,
    staff: Vec<Flusher<J>>,
    is_done: &'s AtomicBool,
    run: &W,
) -> Clients<J>
    requires { clients ≡ fresh J.clients }
    ensures { Worked (W.does run.now J.opening) J.clients result }
{
    for flusher in staff {
        start(scope, rt, alloc, flusher, is_done);
    }
    work_all(rt, alloc, clients.as_mut_slice(), run);
    is_done.store(true, Ordering::SeqCst);
    clients
}

/// Starts a flusher in a thread of its own, if a thread can be started.
fn start<'s, E, J: EngineId + Send + Sync + 's, R: Wait + Sync>(
    scope: &Scope<'s, E>,
    rt: &'s R,
    alloc: Global,
    flusher: Flusher<J>,
    is_done: &'s AtomicBool,
) {
    let _ = scope.spawn(move || flush(rt, alloc, flusher, is_done));
}

/// Runs turns until the clients are done.
fn flush<J: EngineId, R: Wait>(
    rt: &R,
    alloc: Global,
    mut flusher: Flusher<J>,
    is_done: &AtomicBool,
) {
    // A task never lasts for this many turns.
    for _ in 0..u64::MAX {
        if is_done.load(Ordering::SeqCst) {
            return;
        }
        flusher.run_flusher(rt, alloc, 1);
    }
}

/// Runs the clients, each in a thread of its own.
fn work_all<J: EngineId + Send + Sync, W: ClientTask + Sync, R: Threads + Wait + Sync>(
    rt: &R,
    alloc: Global,
    clients: &mut [Client<J>],
    run: &W,
)
    requires { clients.old ≡ fresh J.clients }
    ensures { Worked (W.does run.now J.opening) J.clients clients.new }
{
    // There is at least one client. The bound is written out for the checker.
    let count = clients.len().max(1);
    for_each_mut(
        rt,
        clients,
        count,
        &|number: usize, client: &mut Client<J>|
            requires { client.old ≡ newcomer number }
            ensures { W.does run.entry.now J.opening client.old client.new }
        { run.run(rt, alloc, number, client) },
    );
}
