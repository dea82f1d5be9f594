//! Runs a list of events on a volume: calls, snapshot calls, tree steps, and jobs that are taken and finished.
//!
//! After each event, every job that the run holds still fits the volume (`AreHeld`): its ticket was given, and if its
//! mark exists, the marked slot has the content that the job was taken with.
ghost use Rattle.std.specs.Prelude.{◌≡◌, ◌<◌, ◌+◌, ◌≤◌, ◌∷◌, [], IfOk, OnErr, length, vec_capacity};
ghost use Rattle.volume.specs.RunJob.{AreHeld, IsHeld, without_held};
ghost use Rattle.volume.specs.Marked.{KeepsMarks};
ghost use Rattle.volume.specs.Runs.{Ends, Finishes, Link, Ran, Takes, takings};
ghost use Rattle.volume.specs.Volumes.{live_of};

use crate::event::{Answer, Event, FinishAnswer, Index, TakeAnswer};
use crate::job::{InstallReply, TakeReply};
use crate::run_job::{RunJob, take_out};
use crate::volume::Volume;
use jobs::Ticket;
use pathkey::NoMemory;
use std::alloc::Global;

/// 1 for an event that takes a job, and 0 for any other. It allocates nothing.
fn taking(event: &Event) -> usize
    ensures { result ≡ takings (event.now ∷ []) }
{
    match event {
        Event::Take(_, _) => 1,
        Event::Call(_, _)
        | Event::Snapshot(_)
        | Event::DropSnapshot(_)
        | Event::Restore(_)
        | Event::Step(_)
        | Event::Finish(_) => 0,
    }
}

/// The number of events that take a job. It allocates nothing.
fn takings(events: &[Event]) -> usize
    ensures count { result ≡ takings events.now }
    ensures bound { result ≤ length events.now }
{
    let mut count = 0;
    for event in events {
        count += taking(event);
    }
    count
}

impl Volume {
    /// Takes a job and holds it.
    fn take_into_run(
        &mut self,
        alloc: Global,
        held: &mut Vec<RunJob>,
        index: Index,
        slot: u8,
    ) -> TakeAnswer
        requires held { AreHeld (live_of self.old) held.old.items }
        requires room { length held.old.items < vec_capacity held.old }
        ensures link { Takes index slot result (record { volume = self.old; held = held.old.items }) (record { volume = self.new; held = held.new.items }) }
        ensures held { AreHeld (live_of self.new) held.new.items }
        ensures room { vec_capacity held.new ≡ vec_capacity held.old }
    {
        match self.take_job(alloc, index, slot) {
            TakeReply::Taken(job) => {
                let ticket = job.ticket();
                held.push_reserved(RunJob::Taken(job));
                TakeAnswer::Taken(ticket)
            }
            TakeReply::NotThere => TakeAnswer::NotThere,
            TakeReply::NoRoom => TakeAnswer::NoRoom,
            TakeReply::NoMemory => TakeAnswer::NoMemory,
        }
    }

    /// Builds and installs a held job. If an allocation fails, the job is returned, either unchanged or built.
    fn finish(&mut self, alloc: Global, job: RunJob) -> Result<FinishAnswer, RunJob>
        requires { IsHeld (live_of self.old) job }
        ensures ends { Ends job result self.old self.new }
        ensures kept { KeepsMarks (live_of self.old) (live_of self.new) }
    {
        let done = job.built(alloc)?;
        match self.install(done) {
            InstallReply::Installed => Ok(FinishAnswer::Installed),
            InstallReply::Stale => Ok(FinishAnswer::Stale),
            InstallReply::NoMemory(done) => Err(RunJob::Built(done)),
        }
    }

    /// Builds and installs the held job with the ticket.
    fn finish_held(&mut self, alloc: Global, held: &mut Vec<RunJob>, ticket: Ticket) -> FinishAnswer
        requires { AreHeld (live_of self.old) held.old.items }
        ensures link { Finishes ticket.number result (record { volume = self.old; held = held.old.items }) (record { volume = self.new; held = held.new.items }) }
        ensures held { AreHeld (live_of self.new) held.new.items }
        ensures room { vec_capacity held.new ≡ vec_capacity held.old }
    {
        let Some(job) = take_out(held, ticket) else {
            return FinishAnswer::NotThere;
        };
        match self.finish(alloc, job) {
            Ok(answer) => answer,
            Err(job) => {
                // It was just removed, so there is space for it.
                held.push_reserved(job);
                FinishAnswer::NoMemory
            }
        }
    }

    /// Executes one event.
    fn answer(&mut self, alloc: Global, held: &mut Vec<RunJob>, event: &Event) -> Answer
        requires held { AreHeld (live_of self.old) held.old.items }
        requires room { length held.old.items + takings (event.now ∷ []) ≤ vec_capacity held.old }
        ensures link { Link event.now result (record { volume = self.old; held = held.old.items }) (record { volume = self.new; held = held.new.items }) }
        ensures held { AreHeld (live_of self.new) held.new.items }
        ensures room { vec_capacity held.new ≡ vec_capacity held.old }
    {
        match event {
            Event::Call(call, at) => Answer::Call(self.call(alloc, call, *at)),
            Event::Snapshot(name) => Answer::Snap(self.snapshot(alloc, name)),
            Event::DropSnapshot(name) => Answer::Snap(self.drop_snapshot(name)),
            Event::Restore(name) => Answer::Snap(self.restore(name)),
            Event::Step(step) => Answer::Step(self.step(alloc, *step)),
            Event::Take(index, slot) => Answer::Take(self.take_into_run(
                alloc, held, *index, *slot,
            )),
            Event::Finish(ticket) => Answer::Finish(self.finish_held(alloc, held, *ticket)),
        }
    }

    /// Cancels the jobs. It allocates nothing.
    fn cancel_held(&mut self, held: &[RunJob])
        ensures { self.new ≡ record (self.old) { marks = without_held held.now self.old.marks } }
    {
        for job in held {
            self.cancel(job.ticket());
        }
    }

    /// Executes the events in order. It fails only if the lists of answers and jobs cannot be allocated, and then nothing was
    /// executed. A job that is taken is held until it is finished; the jobs that are left at the end are cancelled.
    ///
    /// Whichever steps and jobs are interleaved with the calls, the answers are those that the calls alone, in their order, have
    /// in the world to which the volume abstracted, and the volume then abstracts to the world after them.
    pub fn run(&mut self, alloc: Global, events: &[Event]) -> Result<Vec<Answer>, NoMemory>
        ensures ran { IfOk result (λ answers. Ran events.now answers.items self.old self.new) }
        ensures err { OnErr result (self.new ≡ self.old) }
    {
        self.assert_invariant();
        let mut answers = Vec::with_capacity(alloc, events.len())?;
        let mut held = Vec::with_capacity(alloc, takings(events))?;
        for event in events {
            let answer = self.answer(alloc, &mut held, event);
            self.assert_invariant();
            answers.push_reserved(answer);
        }
        self.cancel_held(held.as_slice());
        Ok(answers)
    }
}
