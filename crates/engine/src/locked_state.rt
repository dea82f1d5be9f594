//! The state under the lock: the volume, and the engine's seat, which has the history.
//!
//! Invariant (`Holds`, `KnowsMarks`): the volume abstracts to the world after the history, the history is legal, the
//! count is its length, and each mark of the volume belongs to one of the takings.
ghost use Rattle.std.specs.Prelude.{◌≡◌, [], ◌∷◌, ◌++◌, ◌<◌, length, ◌%◌, ◌^◌, IfOk};
ghost use Rattle.engine.specs.Histories.{entry, LegalFrom, AllBelow, StartsWith, own};
ghost use Rattle.engine.specs.Seats.{IsEngineSeat, IsClientSeat, IsFlusherSeat, Shows, Makes, MakesAllOrNone, Looks};
ghost use Rattle.engine.specs.Clients.{FindsAfter, Watches, watched};
ghost use Rattle.engine.specs.Takings.{BuiltOf, IsTaken, KnowsMarks, Picks};
ghost use Rattle.engine.specs.Turns.{Cancels, Found, Puts, Relieves};
ghost use Rattle.reference.specs.Worlds.{World};
ghost use Rattle.volume.specs.Jobs.{IfTaken};
ghost use Rattle.volume.specs.Volumes.{IsVolume, Means, live_of};

use crate::choose_job::{choose_job, compact_step, install_or_cancel};
use crate::engine_rule::{EngineId, Seat, SharedCounters};
use crate::flusher::TurnReply;
use crate::operation::Operation;
use crate::seat_sync::{
    announce, learn, record_all, record_call, record_taken_job, sync_client, sync_takings,
};
use jobs::Ticket;
use pathkey::{Errno, NoMemory, SnapName};
use reference::Call;
use std::alloc::Global;
use std::marker::{Model, PhantomData};
use volume::{Done, Frozen, TakeReply, Transacted, Volume};

/// The volume and the engine's seat. A contract sees the history.
#[derive(Drop)]
pub struct LockedState<J: EngineId> {
    volume: Volume,
    /// The number of recorded calls, modulo 2^64.
    count: u64,
    seat: Seat,
    of: PhantomData<J>,
}

impl<J: EngineId> Model for LockedState<J> {
    ghost use Rattle.std.specs.Prelude.{◌≡◌, List};
    ghost use Rattle.engine.specs.Histories.{Entry};
    ghost use Rattle.engine.specs.Seats.{IsEngineSeat, Holds};
    ghost use Rattle.engine.specs.Takings.{KnowsMarks};
    ghost use Rattle.volume.specs.Volumes.{live_of};

    ghost Value = { List Entry };

    ghost view = { λ d. d.seat.me.0.history };

    ghost invariant = { λ d. IsEngineSeat J.table J.opening d.seat × Holds J.opening J.clients d.seat.me.0.history d.volume d.count × KnowsMarks d.seat.me.0.takings (live_of d.volume) };
}

/// Takes a job, if one can be taken, and records it.
fn take_recorded<J: EngineId>(
    alloc: Global,
    words: &SharedCounters,
    engine: &mut Seat,
    volume: &mut Volume,
) -> TakeReply
    requires words { (words.now.table_id ≡ J.table) × (1 < J.table.words) }
    requires engine { IsEngineSeat J.table J.opening engine.old }
    requires knows { KnowsMarks engine.old.me.0.takings (live_of volume.old) }
    ensures engine { IsEngineSeat J.table J.opening engine.new }
    ensures history { engine.new.me.0.history ≡ engine.old.me.0.history }
    ensures knows { KnowsMarks engine.new.me.0.takings (live_of volume.new) }
    ensures means { (w : World) → Means volume.old w → Means volume.new w }
    ensures picks { Picks result volume.old volume.new }
    ensures taken { IfTaken result (λ job. IsTaken engine.new.me.0.takings job) }
{
    match choose_job(volume, alloc) {
        TakeReply::Taken(job) => {
            record_taken_job::<J>(words, engine, &job);
            TakeReply::Taken(job)
        }
        TakeReply::NotThere => TakeReply::NotThere,
        TakeReply::NoRoom => TakeReply::NoRoom,
        TakeReply::NoMemory => TakeReply::NoMemory,
    }
}

impl<J: EngineId> LockedState<J> {
    /// The locked state of an engine without any recorded call. Marks that exist in the volume are cancelled.
    pub fn new(mut volume: Volume, seat: Seat) -> LockedState<J>
        requires seat { IsEngineSeat J.table J.opening seat × (seat.me.0.history ≡ []) × (seat.me.0.takings ≡ []) }
        requires volume { (volume ≡ J.opening) × IsVolume J.opening }
        ensures { result ≡ [] }
    {
        volume.cancel_all();
        LockedState {
            volume,
            count: 0,
            seat,
            of: PhantomData,
        }
    }

    /// Does the client's operation and records it.
    pub fn record_call<A: Operation>(
        &mut self,
        words: &SharedCounters,
        client: Seat,
        execute: &A,
    ) -> (Seat, A::Reply)
        requires words { (words.now.table_id ≡ J.table) × (0 < J.table.words) }
        requires client { IsClientSeat J.table J.opening client × (client.me.0.client < J.clients) }
        requires announced { client.me.0.announced ≡ own client.me.0.client client.me.0.seen }
        ensures client { IsClientSeat J.table J.opening result.0 }
        ensures history { self.new ≡ self.old ++ entry client.me.0.client (A.event execute.now) (A.answer result.1) ∷ [] }
        ensures makes { Makes J.opening client.me.0 (entry client.me.0.client (A.event execute.now) (A.answer result.1) ∷ []) self.old result.0.me.0 }
    {
        let mut client = sync_client::<J>(words, &mut self.seat, client);
        announce::<J>(words, &mut client);
        let reply = execute.execute(&mut self.volume);
        let (client, count) = record_call::<J, A>(words, &mut self.seat, client, execute, &reply);
        self.count = count;
        (client, reply)
    }

    /// Does the calls of a list, all of them or none, and records them next to each other if they are done. The client sees
    /// the history.
    pub fn transact(
        &mut self,
        alloc: Global,
        words: &SharedCounters,
        client: Seat,
        calls: &[(Call, u64)],
    ) -> (Seat, Transacted)
        requires words { (words.now.table_id ≡ J.table) × (0 < J.table.words) }
        requires client { IsClientSeat J.table J.opening client × (client.me.0.client < J.clients) }
        requires announced { client.me.0.announced ≡ own client.me.0.client client.me.0.seen }
        ensures client { IsClientSeat J.table J.opening result.0 }
        ensures history { self.new ≡ result.0.me.0.seen }
        ensures makes { MakesAllOrNone J.opening client.me.0 calls.now result.1 self.old result.0.me.0 }
    {
        let mut client = sync_client::<J>(words, &mut self.seat, client);
        learn::<J>(words, &mut client);
        match self.volume.transact(alloc, calls) {
            Ok(replies) => {
                let client = record_all::<J>(alloc, words, &mut self.seat, client, calls, &replies);
                self.count = self.count.wrapping_add(calls.len() as u64);
                (client, Ok(replies))
            }
            Err(failed) => (client, Err(failed)),
        }
    }

    /// The client sees the history.
    pub fn look(&mut self, words: &SharedCounters, client: Seat) -> Seat
        requires words { (words.now.table_id ≡ J.table) × (0 < J.table.words) }
        requires client { IsClientSeat J.table J.opening client }
        requires announced { client.me.0.announced ≡ own client.me.0.client client.me.0.seen }
        ensures same { self.new ≡ self.old }
        ensures client { IsClientSeat J.table J.opening result }
        ensures seen { result.me.0.seen ≡ self.old }
        ensures looks { Looks J.opening client.me.0 result.me.0 }
    {
        let mut client = sync_client::<J>(words, &mut self.seat, client);
        learn::<J>(words, &mut client);
        client
    }

    /// Returns the live tree after the history.
    pub fn freeze(&self) -> Result<Frozen, NoMemory>
        ensures { IfOk result (λ f. Shows J.opening self.now f) }
    {
        self.volume.freeze()
    }

    /// Returns the tree of a snapshot after the history.
    pub fn frozen(&self, name: &SnapName) -> Result<Frozen, Errno>
        ensures { FindsAfter J.opening self.now name.now result }
    {
        self.volume.frozen(name)
    }

    /// The flusher sees the history, and a tree step is done, which is not recorded.
    pub fn do_step(
        &mut self,
        alloc: Global,
        words: &SharedCounters,
        flusher: Seat,
    ) -> (Seat, TurnReply)
        requires words { (words.now.table_id ≡ J.table) × (0 < J.table.words) }
        requires flusher { IsFlusherSeat J.table J.opening flusher }
        ensures same { self.new ≡ self.old }
        ensures flusher { IsFlusherSeat J.table J.opening result.0 }
        ensures seen { (result.0.me.0.seen ≡ self.old) × Watches J.opening (watched flusher.me.0) (watched result.0.me.0) }
        ensures held { Found J.opening (watched flusher.me.0) (watched result.0.me.0) (Relieves result.1) }
    {
        self.volume.assert_invariant();
        let flusher = sync_takings::<J>(words, &mut self.seat, flusher);
        let reply = compact_step(&mut self.volume, alloc);
        self.volume.assert_invariant();
        (flusher, reply)
    }

    /// Takes a job, if one can be taken. The flusher sees the history and the takings, of which the last is this job.
    pub fn take_and_record(
        &mut self,
        alloc: Global,
        words: &SharedCounters,
        flusher: Seat,
    ) -> (Seat, TakeReply)
        requires words { (words.now.table_id ≡ J.table) × (0 < J.table.words) × (1 < J.table.words) }
        requires flusher { IsFlusherSeat J.table J.opening flusher }
        ensures same { self.new ≡ self.old }
        ensures flusher { IsFlusherSeat J.table J.opening result.0 }
        ensures watches { Watches J.opening (watched flusher.me.0) (watched result.0.me.0) }
        ensures held { Found J.opening (watched flusher.me.0) (watched result.0.me.0) (Picks result.1) }
        ensures taken { IfTaken result.1 (λ job. IsTaken result.0.me.0.seen_takings job) }
    {
        self.volume.assert_invariant();
        let reply = take_recorded::<J>(alloc, words, &mut self.seat, &mut self.volume);
        self.volume.assert_invariant();
        let flusher = sync_takings::<J>(words, &mut self.seat, flusher);
        (flusher, reply)
    }

    /// Installs what was built of a job that the flusher saw taken.
    pub fn install(
        &mut self,
        words: &SharedCounters,
        flusher: Seat,
        done: Done,
    ) -> (Seat, TurnReply)
        requires words { (words.now.table_id ≡ J.table) × (0 < J.table.words) }
        requires flusher { IsFlusherSeat J.table J.opening flusher }
        requires built { BuiltOf flusher.me.0.seen_takings done }
        ensures same { self.new ≡ self.old }
        ensures flusher { IsFlusherSeat J.table J.opening result.0 }
        ensures watches { Watches J.opening (watched flusher.me.0) (watched result.0.me.0) }
        ensures held { Found J.opening (watched flusher.me.0) (watched result.0.me.0) (Puts done result.1) }
    {
        self.volume.assert_invariant();
        let flusher = sync_takings::<J>(words, &mut self.seat, flusher);
        let reply = install_or_cancel(&mut self.volume, done);
        self.volume.assert_invariant();
        (flusher, reply)
    }

    /// The flusher sees the history, and the job with the ticket is cancelled: its mark is removed.
    pub fn cancel(&mut self, words: &SharedCounters, flusher: Seat, ticket: Ticket) -> Seat
        requires words { (words.now.table_id ≡ J.table) × (0 < J.table.words) }
        requires flusher { IsFlusherSeat J.table J.opening flusher }
        ensures same { self.new ≡ self.old }
        ensures flusher { IsFlusherSeat J.table J.opening result }
        ensures watches { Watches J.opening (watched flusher.me.0) (watched result.me.0) }
        ensures held { Found J.opening (watched flusher.me.0) (watched result.me.0) (Cancels ticket.number) }
    {
        self.volume.assert_invariant();
        let flusher = sync_takings::<J>(words, &mut self.seat, flusher);
        self.volume.cancel(ticket);
        self.volume.assert_invariant();
        flusher
    }

    /// The number of recorded calls, modulo 2^64.
    pub fn count(&self) -> u64
        ensures count { result ≡ length self.now % 2 ^ 64 }
        ensures history { LegalFrom J.opening self.now × AllBelow J.clients self.now }
    {
        self.count
    }
}
