//! Tests of what is pending in a slot after the mark of a job that was taken there is removed: one message for each key,
//! however many were appended meanwhile.
use crate::filled::{answers, filled_volume, take};
use crate::requests::call_of;
use pathkey::NoMemory;
use std::alloc::Global;
use test_support::{ExpectedReply, SampleCall};
use volume::{Answer, Event, FinishAnswer, Index, Job, TakeReply, Volume};

/// The file that is written.
const FILE: &str = "/f150";

/// How many bytes are written one by one while the marks exist, from offset 2 on.
const WRITES: u64 = 1_000;

/// Whether a byte is written.
fn writes(alloc: Global, volume: &mut Volume, offset: u64) -> bool {
    answers(
        alloc,
        volume,
        SampleCall::Write(FILE, offset, b"x"),
        ExpectedReply::Count(1),
    )
}

/// Whether the bytes are written one by one.
fn writes_all(alloc: Global, volume: &mut Volume) -> bool {
    let mut is_right = true;
    for offset in 2..WRITES + 2 {
        is_right &= writes(alloc, volume, offset);
    }
    is_right
}

/// Whether one piece and one message are pending in an index. It has no postcondition, so that the proofs of the tests do not
/// unfold what a report is.
fn waits_alone(volume: &Volume, index: Index) -> bool {
    volume.pending(index) == 1 && volume.shape_report(index).pending == 1
}

/// Whether the file has all bytes, and one message of it is pending in each index.
fn is_folded(alloc: Global, volume: &mut Volume) -> bool {
    waits_alone(volume, Index::Meta)
        && waits_alone(volume, Index::Block)
        && answers(
            alloc,
            volume,
            SampleCall::Stat(FILE),
            ExpectedReply::File(WRITES + 3),
        )
}

/// The job of a reply.
fn taken(reply: TakeReply) -> Option<Job> {
    match reply {
        TakeReply::Taken(job) => Some(job),
        _ => None,
    }
}

/// The job of the slot in which something is pending.
fn job_of(alloc: Global, volume: &mut Volume, index: Index) -> Option<Job> {
    match volume.backlog(index) {
        Some(load) => taken(take(alloc, volume, index, load.slot)),
        None => None,
    }
}

/// Cancels a job, if there is one.
fn cancels(volume: &mut Volume, job: &Option<Job>) -> bool {
    match job {
        Some(job) => {
            volume.cancel(job.ticket());
            true
        }
        None => false,
    }
}

/// Writes many bytes, cancels the jobs, and writes one more byte: whether the lists are condensed.
fn folds_where_cancelled(
    alloc: Global,
    volume: &mut Volume,
    meta: &Option<Job>,
    block: &Option<Job>,
) -> bool {
    let all = writes_all(alloc, volume);
    let cancelled = cancels(volume, meta) && cancels(volume, block);
    all && cancelled && writes(alloc, volume, WRITES + 2) && is_folded(alloc, volume)
}

/// The event that takes a job of the slot in which something is pending.
fn taking(volume: &Volume, index: Index) -> Option<Event> {
    match volume.backlog(index) {
        Some(load) => Some(Event::Take(index, load.slot)),
        None => None,
    }
}

/// The event that writes a byte.
fn writing(alloc: Global, offset: u64) -> Option<Event> {
    match call_of(alloc, SampleCall::Write(FILE, offset, b"x")) {
        Some(call) => Some(Event::Call(call, 0)),
        None => None,
    }
}

/// The event that finishes the job with the ticket of this one.
fn finishing(job: &Option<Job>) -> Option<Event> {
    match job {
        Some(job) => Some(Event::Finish(job.ticket())),
        None => None,
    }
}

/// Adds an event, if there is one.
fn adds(events: &mut Vec<Event>, event: Option<Event>) -> bool {
    match event {
        Some(event) => events.push(event).is_ok(),
        None => false,
    }
}

/// Adds events that take a job in each index, and write the many bytes.
fn adds_writes(alloc: Global, volume: &Volume, events: &mut Vec<Event>) -> bool {
    let mut is_right = adds(events, taking(volume, Index::Meta));
    is_right &= adds(events, taking(volume, Index::Block));
    for offset in 2..WRITES + 2 {
        is_right &= adds(events, writing(alloc, offset));
    }
    is_right
}

/// The number of jobs that were installed.
fn installed(answers: &[Answer]) -> u32 {
    let mut count: u32 = 0;
    for answer in answers {
        if matches!(answer, Answer::Finish(FinishAnswer::Installed)) {
            count = count.saturating_add(1);
        }
    }
    count
}

/// The answers of a volume to events. It has no postcondition, so that the proofs of the tests do not unfold what a run
/// is.
fn run(alloc: Global, volume: &mut Volume, events: &[Event]) -> Result<Vec<Answer>, NoMemory> {
    volume.run(alloc, events)
}

/// Whether the events install two jobs.
fn installs(alloc: Global, volume: &mut Volume, events: &[Event]) -> bool {
    match run(alloc, volume, events) {
        Ok(answers) => installed(answers.as_slice()) == 2,
        Err(_) => false,
    }
}

/// Whether jobs with the tickets of these are taken, many bytes are written, and the jobs are installed.
fn installs_both(
    alloc: Global,
    volume: &mut Volume,
    meta: &Option<Job>,
    block: &Option<Job>,
) -> bool {
    let mut events = Vec::new(alloc);
    adds_writes(alloc, volume, &mut events)
        && adds(&mut events, finishing(meta))
        && adds(&mut events, finishing(block))
        && installs(alloc, volume, events.as_slice())
}

/// Whether the lists are condensed after both jobs are installed and one more byte is written.
fn folds_where_installed(
    alloc: Global,
    volume: &mut Volume,
    meta: &Option<Job>,
    block: &Option<Job>,
) -> bool {
    installs_both(alloc, volume, meta, block)
        && writes(alloc, volume, WRITES + 2)
        && is_folded(alloc, volume)
}

/// Whether the lists of two equal volumes are condensed. The jobs of both have the same tickets.
fn both_fold(alloc: Global, one: &mut Volume, other: &mut Volume) -> bool {
    let first = writes(alloc, one, 1) && writes(alloc, other, 1);
    let meta = job_of(alloc, one, Index::Meta);
    let block = job_of(alloc, one, Index::Block);
    first
        && folds_where_cancelled(alloc, one, &meta, &block)
        && folds_where_installed(alloc, other, &meta, &block)
}

/// Whether the lists of this volume and another of many files are condensed.
fn folds_beside(alloc: Global, one: &mut Volume) -> bool {
    match filled_volume(alloc) {
        Some(mut other) => both_fold(alloc, one, &mut other),
        None => false,
    }
}

/// Whether the lists of two volumes of many files are condensed.
fn fold(alloc: Global) -> bool {
    match filled_volume(alloc) {
        Some(mut one) => folds_beside(alloc, &mut one),
        None => false,
    }
}

#[test]
fn a_list_is_condensed_once_its_mark_is_removed(rt: HostRuntime) {
    assert!(rt; fold(rt.alloc()));
}
