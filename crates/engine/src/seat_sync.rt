//! The steps on the table's words, and the synchronisation of seats between them. What a seat has seen is always a
//! prefix of the engine's history.
ghost use Rattle.std.specs.Prelude.{◌≡◌, [], ◌∷◌, ◌++◌, ◌+◌, ◌%◌, ◌^◌, ◌<◌, ◌≤◌, length, true};
ghost use Rattle.engine.specs.Histories.{entry, LegalFrom, FitsAfter, StartsWith, own};
ghost use Rattle.engine.specs.Clients.{Watches, watched};
ghost use Rattle.engine.specs.Lists.{AllSucceed, FitAllAfter, entries};
ghost use Rattle.engine.specs.Takings.{TakenOnce, times_taken};
ghost use Rattle.engine.specs.Views.{guest, watcher, recorded, took, announced_more, learned, keeper};
ghost use Rattle.volume.specs.Jobs.{ticket_of};
ghost use Rattle.volume.specs.Laws.{timed_calls};
ghost use Rattle.engine.specs.Seats.{IsEngineSeat, IsClientSeat, IsFlusherSeat};

use crate::engine_rule::{
    AnnounceStep, EngineId, LearnStep, RecordStep, RecordedCall, Seat, SharedCounters,
    SplitClientSeat, SplitFlusherSeat, SyncSeats, TakeStep, Taking,
};
use crate::operation::{FileCall, Operation};
use reference::{Call, Reply};
use std::alloc::Global;
use std::marker::Brand;
use volume::Job;

/// Reports the history and the takings of the engine's seat to the client's seat.
pub fn sync_client<J: EngineId>(words: &SharedCounters, engine: &mut Seat, client: Seat) -> Seat
    requires words { (words.now.table_id ≡ J.table) × (0 < J.table.words) }
    requires engine { IsEngineSeat J.table J.opening engine.old }
    requires client { IsClientSeat J.table J.opening client }
    ensures engine { (engine.new.table_id ≡ engine.old.table_id) × (engine.new.me ≡ engine.old.me) }
    ensures client { (result.table_id ≡ J.table)
        × (result.me ≡ (guest J.opening client.me.0.client client.me.0.announced engine.old.me.0.history client.me.0.seen engine.old.me.0.takings client.me.0.seen_takings, [])) }
{
    words.join_seat::<SyncSeats>(engine, client);
    words.split_seat::<SyncSeats>(engine)
}

/// Reports the history and the takings of the engine's seat to the flusher's seat.
pub fn sync_flusher<J: EngineId>(words: &SharedCounters, engine: &mut Seat, flusher: Seat) -> Seat
    requires words { (words.now.table_id ≡ J.table) × (0 < J.table.words) }
    requires engine { IsEngineSeat J.table J.opening engine.old }
    requires flusher { IsFlusherSeat J.table J.opening flusher }
    ensures engine { (engine.new.table_id ≡ engine.old.table_id) × (engine.new.me ≡ engine.old.me) }
    ensures flusher { (result.table_id ≡ J.table) × (result.me ≡ (watcher J.opening engine.old.me.0.history flusher.me.0.seen engine.old.me.0.takings flusher.me.0.seen_takings, [])) }
{
    words.join_seat::<SyncSeats>(engine, flusher);
    words.split_seat::<SyncSeats>(engine)
}

/// The client announces one more call.
pub fn announce<J: EngineId>(words: &SharedCounters, client: &mut Seat)
    requires words { (words.now.table_id ≡ J.table) × (0 < J.table.words) }
    requires client { IsClientSeat J.table J.opening client.old }
    ensures seat { (client.new.table_id ≡ J.table) × (client.new.me ≡ (announced_more client.old.me.0, [])) }
    ensures reported { StartsWith client.old.me.0.heard client.old.me.0.seen
        × (own client.old.me.0.client client.old.me.0.heard ≤ client.old.me.0.announced) }
{
    words.load::<AnnounceStep>(client, 0);
}

/// Records that the client whose seat is joined made this call. Returns the number of calls, modulo 2^64.
fn record<E: RecordedCall, A: Operation>(
    words: &SharedCounters,
    seat: &mut Seat,
    execute: &A,
    reply: &A::Reply,
) -> u64
    requires reported { (E.event ≡ A.event execute.now) × (E.answer ≡ A.answer reply.now) }
    requires words { (seat.old.table_id ≡ words.now.table_id) × (0 < words.now.table_id.words) }
    requires seat { (seat.old.me.1 ≡ []) × (seat.old.me.0.keeps ≡ true) × (seat.old.me.0.hosts ≡ true) × (seat.old.me.0.watches ≡ true) }
    requires announced { own seat.old.me.0.client seat.old.me.0.history + 1 ≤ seat.old.me.0.announced }
    requires fits { FitsAfter seat.old.me.0.opening seat.old.me.0.history E.event E.answer }
    ensures seat { (seat.new.table_id ≡ seat.old.table_id) × (seat.new.me ≡ (recorded E.event E.answer seat.old.me.0, [])) }
    ensures count { result ≡ (length seat.old.me.0.history + 1) % 2 ^ 64 }
{
    let _ = execute;
    let _ = reply;
    words.fetch_add::<RecordStep<E>>(seat, 0, 1).wrapping_add(1)
}

/// Records that this job was taken.
fn record_take<E: Taking>(words: &SharedCounters, seat: &mut Seat, job: &Job)
    requires taking { E.job ≡ job.now }
    requires words { (seat.old.table_id ≡ words.now.table_id) × (1 < words.now.table_id.words) }
    requires seat { (seat.old.me.1 ≡ []) × (seat.old.me.0.keeps ≡ true) }
    requires new { times_taken (ticket_of E.job) seat.old.me.0.takings ≡ 0 }
    ensures seat { (seat.new.table_id ≡ seat.old.table_id) × (seat.new.me ≡ (took E.job seat.old.me.0, [])) }
{
    let _ = job;
    words.fetch_add::<TakeStep<E>>(seat, 1, 1);
}

/// Records in the engine's seat that this job was taken, under a ticket that no other taking has.
pub fn record_taken_job<J: EngineId>(words: &SharedCounters, engine: &mut Seat, job: &Job)
    requires words { (words.now.table_id ≡ J.table) × (1 < J.table.words) }
    requires engine { IsEngineSeat J.table J.opening engine.old }
    requires new { times_taken (ticket_of job.now) engine.old.me.0.takings ≡ 0 }
    ensures engine { IsEngineSeat J.table J.opening engine.new }
    ensures history { engine.new.me.0.history ≡ engine.old.me.0.history }
    ensures takings { engine.new.me.0.takings ≡ engine.old.me.0.takings ++ job.now ∷ [] }
{
    record_take::<Brand>(words, engine, job);
}

/// The client sees what was reported to its seat.
pub fn learn<J: EngineId>(words: &SharedCounters, client: &mut Seat)
    requires words { (words.now.table_id ≡ J.table) × (0 < J.table.words) }
    requires client { IsClientSeat J.table J.opening client.old }
    ensures seat { (client.new.table_id ≡ J.table) × (client.new.me ≡ (learned client.old.me.0, [])) }
    ensures legal { LegalFrom J.opening client.old.me.0.heard }
    ensures reported { StartsWith client.old.me.0.heard client.old.me.0.seen
        × (own client.old.me.0.client client.old.me.0.heard ≤ client.old.me.0.announced) }
{
    words.load::<LearnStep>(client, 0);
}

/// The flusher sees what was reported to its seat.
pub fn learn_flusher<J: EngineId>(words: &SharedCounters, flusher: &mut Seat)
    requires words { (words.now.table_id ≡ J.table) × (0 < J.table.words) }
    requires flusher { IsFlusherSeat J.table J.opening flusher.old }
    ensures seat { (flusher.new.table_id ≡ J.table) × (flusher.new.me ≡ (learned flusher.old.me.0, [])) }
    ensures legal { LegalFrom J.opening flusher.old.me.0.heard }
    ensures reported { StartsWith flusher.old.me.0.heard flusher.old.me.0.seen }
    ensures takings { StartsWith flusher.old.me.0.told_takings flusher.old.me.0.seen_takings }
    ensures once { TakenOnce flusher.old.me.0.told_takings }
{
    words.load::<LearnStep>(flusher, 0);
}

/// The flusher sees the history and the takings of the engine's seat.
pub fn sync_takings<J: EngineId>(words: &SharedCounters, engine: &mut Seat, flusher: Seat) -> Seat
    requires words { (words.now.table_id ≡ J.table) × (0 < J.table.words) }
    requires engine { IsEngineSeat J.table J.opening engine.old }
    requires flusher { IsFlusherSeat J.table J.opening flusher }
    ensures engine { (engine.new.table_id ≡ engine.old.table_id) × (engine.new.me ≡ engine.old.me) }
    ensures flusher { IsFlusherSeat J.table J.opening result }
    ensures seen { (result.me.0.seen ≡ engine.old.me.0.history) × (result.me.0.seen_takings ≡ engine.old.me.0.takings) }
    ensures watches { Watches J.opening (watched flusher.me.0) (watched result.me.0) }
    ensures once { TakenOnce result.me.0.seen_takings }
{
    let mut flusher = sync_flusher::<J>(words, engine, flusher);
    learn_flusher::<J>(words, &mut flusher);
    flusher
}

/// Records the call, whose answer is legal after the history, and the client sees it. Returns the number of calls, modulo
/// 2^64.
pub fn record_call<J: EngineId, A: Operation>(
    words: &SharedCounters,
    engine: &mut Seat,
    client: Seat,
    execute: &A,
    reply: &A::Reply,
) -> (Seat, u64)
    requires words { (words.now.table_id ≡ J.table) × (0 < J.table.words) }
    requires engine { IsEngineSeat J.table J.opening engine.old }
    requires client { IsClientSeat J.table J.opening client }
    requires announced { own client.me.0.client engine.old.me.0.history + 1 ≤ client.me.0.announced }
    requires fits { FitsAfter J.opening engine.old.me.0.history (A.event execute.now) (A.answer reply.now) }
    ensures engine { IsEngineSeat J.table J.opening engine.new }
    ensures dealt { engine.new.me.0.dealt ≡ engine.old.me.0.dealt }
    ensures takings { engine.new.me.0.takings ≡ engine.old.me.0.takings }
    ensures history { engine.new.me.0.history
        ≡ engine.old.me.0.history ++ entry client.me.0.client (A.event execute.now) (A.answer reply.now) ∷ [] }
    ensures client { IsClientSeat J.table J.opening result.0 }
    ensures seen { (result.0.me.0.client ≡ client.me.0.client) × (result.0.me.0.announced ≡ client.me.0.announced)
        × (result.0.me.0.seen ≡ engine.new.me.0.history) × LegalFrom J.opening result.0.me.0.seen }
    ensures count { result.1 ≡ (length engine.old.me.0.history + 1) % 2 ^ 64 }
{
    words.join_seat::<SyncSeats>(engine, client);
    let count = record::<Brand, A>(words, engine, execute, reply);
    let mut client = words.split_seat::<SyncSeats>(engine);
    learn::<J>(words, &mut client);
    (client, count)
}

/// Records the calls of a list with their replies, which are legal after the history, next to each other. The client sees
/// them.
pub fn record_all<J: EngineId>(
    alloc: Global,
    words: &SharedCounters,
    engine: &mut Seat,
    client: Seat,
    calls: &[(Call, u64)],
    replies: &[Reply],
) -> Seat
    requires words { (words.now.table_id ≡ J.table) × (0 < J.table.words) }
    requires engine { IsEngineSeat J.table J.opening engine.old }
    requires client { IsClientSeat J.table J.opening client }
    requires announced { own client.me.0.client engine.old.me.0.history ≤ client.me.0.announced }
    requires seen { (client.me.0.seen ≡ engine.old.me.0.history) × LegalFrom J.opening client.me.0.seen }
    requires succeed { AllSucceed calls.now replies.now }
    requires fits { FitAllAfter J.opening engine.old.me.0.history (timed_calls calls.now replies.now) }
    ensures engine { IsEngineSeat J.table J.opening engine.new }
    ensures takings { engine.new.me.0.takings ≡ engine.old.me.0.takings }
    ensures history { engine.new.me.0.history ≡ engine.old.me.0.history ++ entries client.me.0.client calls.now replies.now }
    ensures client { IsClientSeat J.table J.opening result }
    ensures seen { (result.me.0.client ≡ client.me.0.client) × (result.me.0.announced ≡ client.me.0.announced + length calls.now)
        × (result.me.0.seen ≡ engine.new.me.0.history) × LegalFrom J.opening result.me.0.seen }
{
    let mut client = client;
    for (number, timed) in calls.iter().enumerate() {
        announce::<J>(words, &mut client);
        let call = FileCall {
            alloc,
            call: &timed.0,
            at: timed.1,
        };
        let recorded = record_call::<J, FileCall>(words, engine, client, &call, &replies[number]);
        client = recorded.0;
    }
    client
}

/// Splits a new client's seat from the engine's seat.
pub fn new_client_seat<J: EngineId>(words: &SharedCounters, engine: &mut Seat) -> Seat
    requires words { (words.now.table_id ≡ J.table) × (0 < J.table.words) }
    requires engine { (engine.old.table_id ≡ J.table) × (engine.old.me ≡ (keeper J.opening engine.old.me.0.dealt [] [], [])) }
    ensures engine { (engine.new.table_id ≡ J.table) × (engine.new.me ≡ (keeper J.opening (engine.old.me.0.dealt + 1) [] [], [])) }
    ensures client { (result.table_id ≡ J.table) × (result.me ≡ (guest J.opening engine.old.me.0.dealt 0 [] [] [] [], [])) }
{
    words.split_seat::<SplitClientSeat>(engine)
}

/// Splits a first seat for flushers from the engine's seat, while no call is recorded.
pub fn first_flusher_seat<J: EngineId>(words: &SharedCounters, engine: &mut Seat) -> Seat
    requires words { (words.now.table_id ≡ J.table) × (0 < J.table.words) }
    requires engine { (engine.old.table_id ≡ J.table) × (engine.old.me ≡ (keeper J.opening engine.old.me.0.dealt [] [], [])) }
    ensures engine { (engine.new.table_id ≡ engine.old.table_id) × (engine.new.me ≡ engine.old.me) }
    ensures flusher { (result.table_id ≡ J.table) × (result.me ≡ (watcher J.opening [] [] [] [], [])) }
{
    words.split_seat::<SplitFlusherSeat>(engine)
}

/// Splits another flusher's seat from one that has seen nothing.
pub fn new_flusher_seat<J: EngineId>(words: &SharedCounters, spare: &mut Seat) -> Seat
    requires words { (words.now.table_id ≡ J.table) × (0 < J.table.words) }
    requires spare { (spare.old.table_id ≡ J.table) × (spare.old.me ≡ (watcher J.opening [] [] [] [], [])) }
    ensures spare { (spare.new.table_id ≡ spare.old.table_id) × (spare.new.me ≡ spare.old.me) }
    ensures flusher { (result.table_id ≡ J.table) × (result.me ≡ (watcher J.opening [] [] [] [], [])) }
{
    words.split_seat::<SplitFlusherSeat>(spare)
}
