//! The jobs that a run of events holds: each is taken, or built and not yet installed.
ghost use Rattle.std.specs.Prelude.{◌≡◌, ◌<◌, IfOk, IfErr, IfSome, length, vec_capacity};
ghost use Rattle.volume.specs.RunJob.{IsUnbuilt, MayInstall, held_ticket, others, position, with_ticket};

use crate::job::{Done, Job};
use jobs::Ticket;
use std::alloc::Global;

/// A job that a run holds.
#[derive(Drop)]
pub enum RunJob {
    /// A job that is not built yet.
    Taken(Job),
    /// A built job, if an allocation failed when it was to be installed.
    Built(Done),
}

impl RunJob {
    /// The job's ticket. It allocates nothing.
    pub(crate) fn ticket(&self) -> Ticket
        ensures { result.number ≡ held_ticket self.now }
    {
        match self {
            RunJob::Taken(job) => job.ticket(),
            RunJob::Built(done) => done.ticket(),
        }
    }

    /// Builds the job, if it is not built yet. If an allocation fails, the job is returned unchanged.
    pub(crate) fn built(self, alloc: Global) -> Result<Done, RunJob>
        ensures ok { IfOk result (λ d. MayInstall self d) }
        ensures err { IfErr result (λ held. held ≡ self) }
        ensures unbuilt { IfErr result IsUnbuilt }
    {
        match self {
            RunJob::Taken(job) => match job.build(alloc) {
                Ok(done) => Ok(done),
                Err(job) => Err(RunJob::Taken(job)),
            },
            RunJob::Built(done) => Ok(done),
        }
    }
}

/// The index of the first job with the ticket. It allocates nothing.
fn position(held: &[RunJob], ticket: Ticket) -> Option<usize>
    ensures place { result ≡ position ticket.number held.now }
    ensures bound { IfSome result (λ i. i < length held.now) }
{
    let mut i = 0;
    for job in held {
        if job.ticket().number == ticket.number {
            return Some(i);
        }
        i += 1;
    }
    None
}

/// Removes and returns the first job with the ticket. It allocates nothing.
pub(crate) fn take_out(held: &mut Vec<RunJob>, ticket: Ticket) -> Option<RunJob>
    ensures job { result ≡ with_ticket ticket.number held.old.items }
    ensures others { held.new.items ≡ others ticket.number held.old.items }
    ensures room { vec_capacity held.new ≡ vec_capacity held.old }
{
    let i = position(held.as_slice(), ticket)?;
    Some(held.remove(i))
}
