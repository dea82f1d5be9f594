//! What the engine, its clients and its flushers share: the table and the lock.
ghost use Rattle.std.specs.Prelude.{◌≡◌, ◌<◌, List, [], ◌∷◌, IfOk, IfErr};
ghost use Rattle.engine.specs.Histories.{Entry, entry, LegalFrom, own};
ghost use Rattle.engine.specs.Seats.{IsClientSeat, IsFlusherSeat, Shows, Makes, MakesAllOrNone, Looks};
ghost use Rattle.engine.specs.Clients.{FindsAfter, Watches, watched};
ghost use Rattle.engine.specs.Takings.{BuiltOf, IsTaken};
ghost use Rattle.engine.specs.Turns.{Cancels, Finishes, Held, PutsIn, RelievesIn, TakesIn, Turns};
ghost use Rattle.volume.specs.Jobs.{IfTaken};

use crate::engine_rule::{CallTable, EngineId, Seat, SharedCounters};
use crate::flusher::{Between, TurnReply};
use crate::locked_state::LockedState;
use crate::operation::Operation;
use jobs::Ticket;
use pathkey::{Errno, NoMemory, SnapName};
use reference::Call;
use std::alloc::Global;
use std::sync::{Mutex, Wait};
use volume::{Done, Frozen, Job, TakeReply, Transacted};

/// The table and the lock. The locked state is present from the opening of the engine to its end.
#[derive(Drop)]
pub struct EngineShared<J: EngineId> {
    pub call_table: CallTable,
    pub state: Mutex<Option<LockedState<J>>>,
    ghost named: { call_table.shared.table_id ≡ J.table },
    ghost one_word: { 0 < J.table.words },
    ghost two_words: { 1 < J.table.words },
    ghost about: { call_table.shared.key ≡ J.opening },
}

impl<J: EngineId> EngineShared<J> {
    /// The part of the table that threads share.
    pub fn words(&self) -> &SharedCounters
        ensures { (result.now.table_id ≡ J.table) × (0 < J.table.words) × (1 < J.table.words) }
    {
        &self.call_table.shared
    }

    /// Does the client's operation under the lock, and records it.
    pub fn record_call<R: Wait, A: Operation>(
        &self,
        rt: &R,
        client: Seat,
        execute: &A,
    ) -> (Seat, A::Reply)
        requires client { IsClientSeat J.table J.opening client × (client.me.0.client < J.clients) }
        requires announced { client.me.0.announced ≡ own client.me.0.client client.me.0.seen }
        ensures client { IsClientSeat J.table J.opening result.0 }
        ensures makes { (h : List Entry) × Makes J.opening client.me.0 (entry client.me.0.client (A.event execute.now) (A.answer result.1) ∷ []) h result.0.me.0 }
    {
        let mut guard = self.state.lock(rt);
        match &mut *guard {
            Some(state) => state.record_call(self.words(), client, execute),
            None => {
                // Unreachable: an engine ends with all its clients, so none is left to call this.
                for _ in rt.forever() {}
                unreachable!()
            }
        }
    }

    /// Does the calls of a list under the lock, all of them or none, and records them if they are done.
    pub fn transact<R: Wait>(
        &self,
        rt: &R,
        alloc: Global,
        client: Seat,
        calls: &[(Call, u64)],
    ) -> (Seat, Transacted)
        requires client { IsClientSeat J.table J.opening client × (client.me.0.client < J.clients) }
        requires announced { client.me.0.announced ≡ own client.me.0.client client.me.0.seen }
        ensures client { IsClientSeat J.table J.opening result.0 }
        ensures makes { (h : List Entry) × MakesAllOrNone J.opening client.me.0 calls.now result.1 h result.0.me.0 }
    {
        let mut guard = self.state.lock(rt);
        match &mut *guard {
            Some(state) => state.transact(alloc, self.words(), client, calls),
            None => {
                // Unreachable: an engine ends with all its clients, so none is left to call this.
                for _ in rt.forever() {}
                unreachable!()
            }
        }
    }

    /// Both clients see the history, in one critical section.
    pub fn sync_with<R: Wait>(&self, rt: &R, one: Seat, other: Seat) -> (Seat, Seat)
        requires one { IsClientSeat J.table J.opening one × (one.me.0.announced ≡ own one.me.0.client one.me.0.seen) }
        requires other { IsClientSeat J.table J.opening other × (other.me.0.announced ≡ own other.me.0.client other.me.0.seen) }
        ensures one { IsClientSeat J.table J.opening result.0 × Looks J.opening one.me.0 result.0.me.0 }
        ensures other { IsClientSeat J.table J.opening result.1 × Looks J.opening other.me.0 result.1.me.0 }
        ensures same { result.0.me.0.seen ≡ result.1.me.0.seen }
    {
        let mut guard = self.state.lock(rt);
        match &mut *guard {
            Some(state) => {
                let one = state.look(self.words(), one);
                let other = state.look(self.words(), other);
                (one, other)
            }
            None => {
                // Unreachable: an engine ends with all its clients, so none is left to call this.
                for _ in rt.forever() {}
                unreachable!()
            }
        }
    }

    /// The client sees the history, and gets the live tree after it.
    pub fn freeze<R: Wait>(&self, rt: &R, client: Seat) -> (Seat, Result<Frozen, NoMemory>)
        requires client { IsClientSeat J.table J.opening client }
        requires announced { client.me.0.announced ≡ own client.me.0.client client.me.0.seen }
        ensures client { IsClientSeat J.table J.opening result.0 }
        ensures looks { Looks J.opening client.me.0 result.0.me.0 }
        ensures tree { IfOk result.1 (λ f. Shows J.opening result.0.me.0.seen f) }
    {
        let mut guard = self.state.lock(rt);
        match &mut *guard {
            Some(state) => {
                let client = state.look(self.words(), client);
                (client, state.freeze())
            }
            None => {
                // Unreachable: an engine ends with all its clients, so none is left to call this.
                for _ in rt.forever() {}
                unreachable!()
            }
        }
    }

    /// The client sees the history, and gets the tree of a snapshot after it.
    pub fn frozen<R: Wait>(
        &self,
        rt: &R,
        client: Seat,
        name: &SnapName,
    ) -> (Seat, Result<Frozen, Errno>)
        requires client { IsClientSeat J.table J.opening client }
        requires announced { client.me.0.announced ≡ own client.me.0.client client.me.0.seen }
        ensures client { IsClientSeat J.table J.opening result.0 }
        ensures looks { Looks J.opening client.me.0 result.0.me.0 }
        ensures tree { FindsAfter J.opening result.0.me.0.seen name.now result.1 }
    {
        let mut guard = self.state.lock(rt);
        match &mut *guard {
            Some(state) => {
                let client = state.look(self.words(), client);
                (client, state.frozen(name))
            }
            None => {
                // Unreachable: an engine ends with all its clients, so none is left to call this.
                for _ in rt.forever() {}
                unreachable!()
            }
        }
    }

    /// Runs one turn of a flusher: takes a job, builds it and installs it, or does one tree step if no job is taken.
    pub fn run_turn<R: Wait, B: Between>(
        &self,
        rt: &R,
        alloc: Global,
        flusher: Seat,
        between: &mut B,
    ) -> (Seat, TurnReply)
        requires flusher { IsFlusherSeat J.table J.opening flusher × LegalFrom J.opening flusher.me.0.seen }
        ensures flusher { IsFlusherSeat J.table J.opening result.0 }
        ensures watches { Watches J.opening (watched flusher.me.0) (watched result.0.me.0) }
        ensures turned { Turns J.opening result.1 (watched flusher.me.0) (watched result.0.me.0) }
    {
        let (flusher, reply) = self.take_and_record(rt, alloc, flusher);
        match reply {
            TakeReply::Taken(job) => self.build_and_install(rt, alloc, flusher, between, job),
            TakeReply::NotThere | TakeReply::NoRoom => {
                between.between();
                self.step(rt, alloc, flusher)
            }
            TakeReply::NoMemory => (flusher, TurnReply::NoMemory),
        }
    }

    /// Builds the job that the flusher took, without the lock, and installs what was built. If an allocation fails, the job
    /// is cancelled. What the install replaced is dropped without the lock too.
    fn build_and_install<R: Wait, B: Between>(
        &self,
        rt: &R,
        alloc: Global,
        flusher: Seat,
        between: &mut B,
        job: Job,
    ) -> (Seat, TurnReply)
        requires flusher { IsFlusherSeat J.table J.opening flusher × LegalFrom J.opening flusher.me.0.seen }
        requires taken { IsTaken flusher.me.0.seen_takings job }
        ensures flusher { IsFlusherSeat J.table J.opening result.0 }
        ensures watches { Watches J.opening (watched flusher.me.0) (watched result.0.me.0) }
        ensures finishes { Finishes J.opening job result.1 (watched flusher.me.0) (watched result.0.me.0) }
    {
        // Another reference to the child that the built subtree replaces. It is dropped at the end of this function, after
        // the lock is released. So the nodes that the new subtree does not share are freed here, while others can take the
        // lock, and not by the install.
        let _old = job.subtree();
        match between.build(alloc, job) {
            Ok(done) => {
                between.between();
                self.install(rt, flusher, done)
            }
            Err(job) => {
                let flusher = self.cancel(rt, flusher, job.ticket());
                (flusher, TurnReply::NoMemory)
            }
        }
    }

    /// Takes a job for the flusher under the lock, if one can be taken. The flusher sees it among the takings.
    fn take_and_record<R: Wait>(&self, rt: &R, alloc: Global, flusher: Seat) -> (Seat, TakeReply)
        requires flusher { IsFlusherSeat J.table J.opening flusher × LegalFrom J.opening flusher.me.0.seen }
        ensures flusher { IsFlusherSeat J.table J.opening result.0 }
        ensures watches { Watches J.opening (watched flusher.me.0) (watched result.0.me.0) }
        ensures takes { TakesIn J.opening result.1 (watched flusher.me.0) (watched result.0.me.0) }
        ensures taken { IfTaken result.1 (λ job. IsTaken result.0.me.0.seen_takings job) }
    {
        let mut guard = self.state.lock(rt);
        match &mut *guard {
            Some(state) => state.take_and_record(alloc, self.words(), flusher),
            // The engine has ended.
            None => (flusher, TakeReply::NotThere),
        }
    }

    /// Installs under the lock what was built of a job that the flusher saw taken. Returns `Stale` if the engine has ended.
    fn install<R: Wait>(&self, rt: &R, flusher: Seat, done: Done) -> (Seat, TurnReply)
        requires flusher { IsFlusherSeat J.table J.opening flusher × LegalFrom J.opening flusher.me.0.seen }
        requires built { BuiltOf flusher.me.0.seen_takings done }
        ensures flusher { IsFlusherSeat J.table J.opening result.0 }
        ensures watches { Watches J.opening (watched flusher.me.0) (watched result.0.me.0) }
        ensures puts { PutsIn J.opening done result.1 (watched flusher.me.0) (watched result.0.me.0) }
    {
        let mut guard = self.state.lock(rt);
        match &mut *guard {
            Some(state) => state.install(self.words(), flusher, done),
            None => (flusher, TurnReply::Stale),
        }
    }

    /// Cancels a job under the lock. Does nothing if the engine has ended.
    fn cancel<R: Wait>(&self, rt: &R, flusher: Seat, ticket: Ticket) -> Seat
        requires flusher { IsFlusherSeat J.table J.opening flusher × LegalFrom J.opening flusher.me.0.seen }
        ensures flusher { IsFlusherSeat J.table J.opening result }
        ensures watches { Watches J.opening (watched flusher.me.0) (watched result.me.0) }
        ensures cancels { Held J.opening (watched flusher.me.0) (watched result.me.0) (Cancels ticket.number) }
    {
        let mut guard = self.state.lock(rt);
        match &mut *guard {
            Some(state) => state.cancel(self.words(), flusher, ticket),
            None => flusher,
        }
    }

    /// The flusher sees the history, and does one tree step. Does nothing and returns `Idle` if the engine has ended.
    fn step<R: Wait>(&self, rt: &R, alloc: Global, flusher: Seat) -> (Seat, TurnReply)
        requires flusher { IsFlusherSeat J.table J.opening flusher × LegalFrom J.opening flusher.me.0.seen }
        ensures flusher { IsFlusherSeat J.table J.opening result.0 }
        ensures watches { Watches J.opening (watched flusher.me.0) (watched result.0.me.0) }
        ensures relieves { RelievesIn J.opening result.1 (watched flusher.me.0) (watched result.0.me.0) }
    {
        let mut guard = self.state.lock(rt);
        match &mut *guard {
            Some(state) => state.do_step(alloc, self.words(), flusher),
            None => (flusher, TurnReply::Idle),
        }
    }
}
