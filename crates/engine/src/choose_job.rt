//! Chooses the job that a flusher takes, installs or cancels what it built, and does a tree step if it takes no job.
ghost use Rattle.std.specs.Prelude.{◌≡◌, ◌↔◌, None};
ghost use Rattle.reference.specs.Worlds.{World};
ghost use Rattle.engine.specs.Takings.{Picks, Spares};
ghost use Rattle.engine.specs.Turns.{Puts, Relieves};
ghost use Rattle.engine.specs.declared.flusher.TurnReply.TheVariants.{NoMemory, Stale};
ghost use Rattle.volume.specs.Jobs.{DoneFits, done_ticket, mark_for};
ghost use Rattle.volume.specs.Marked.{without_mark};
ghost use Rattle.volume.specs.Volumes.{Means, live_of};

use crate::flusher::TurnReply;
use std::alloc::Global;
use volume::{Done, Index, InstallReply, TakeReply, Volume};

/// A job is taken if it would move at least one eighth of the messages that a node may hold. For fewer, a step is cheaper.
const MIN_JOB_SHARE: u16 = 8;

/// Takes a job of the slot with the given index in the root of a tree.
fn pick_at(volume: &mut Volume, alloc: Global, index: Index, slot: u8) -> TakeReply
    ensures { Picks result volume.old volume.new }
{
    volume.take_job(alloc, index, slot)
}

/// Takes the job of the index's root slot that moves the most messages, if these are enough.
fn choose_in_index(volume: &mut Volume, alloc: Global, index: Index) -> TakeReply
    ensures { Picks result volume.old volume.new }
{
    let Some(load) = volume.backlog(index) else {
        return TakeReply::NotThere;
    };
    if load.messages < (load.room / MIN_JOB_SHARE) as usize {
        return TakeReply::NotThere;
    }
    pick_at(volume, alloc, index, load.slot)
}

/// Takes a job if one is worth it, from the index with more pending pieces, or else from the other.
pub fn choose_job(volume: &mut Volume, alloc: Global) -> TakeReply
    ensures { Picks result volume.old volume.new }
{
    let first = volume.busier();
    let other = match first {
        Index::Meta => Index::Block,
        Index::Block => Index::Meta,
    };
    match choose_in_index(volume, alloc, first) {
        TakeReply::Taken(job) => TakeReply::Taken(job),
        TakeReply::NoMemory => TakeReply::NoMemory,
        TakeReply::NotThere | TakeReply::NoRoom => choose_in_index(volume, alloc, other),
    }
}

/// Installs a built job, or cancels it if an allocation fails. Returns `Stale` if and only if the job's mark was removed.
pub fn install_or_cancel(volume: &mut Volume, done: Done) -> TurnReply
    requires { DoneFits done (live_of volume.old) }
    ensures puts { Puts done result volume.old volume.new }
    ensures stale { (result ≡ Stale) ↔ (mark_for done volume.old.marks ≡ None) }
    ensures cancelled { (result ≡ NoMemory) → (volume.new.marks ≡ without_mark (done_ticket done) volume.old.marks) }
    ensures spares { Spares (live_of volume.old) (live_of volume.new) }
    ensures means { (w : World) → Means volume.old w → Means volume.new w }
{
    match volume.install(done) {
        InstallReply::Installed => TurnReply::Installed,
        InstallReply::Stale => TurnReply::Stale,
        InstallReply::NoMemory(done) => {
            volume.cancel(done.ticket());
            TurnReply::NoMemory
        }
    }
}

/// Does one tree step in the index with more pending pieces. Returns `Idle` if and only if nothing is pending in either.
pub fn compact_step(volume: &mut Volume, alloc: Global) -> TurnReply
    ensures relieves { Relieves result volume.old volume.new }
    ensures spares { Spares (live_of volume.old) (live_of volume.new) }
    ensures means { (w : World) → Means volume.old w → Means volume.new w }
{
    match volume.compact_step(alloc) {
        Some(relief) => TurnReply::Stepped(relief.reply),
        None => TurnReply::Idle,
    }
}
