//! Jobs of a volume, what is built of them, and the replies of taking and installing one.
//!
//! A job has its own references to the nodes that it needs, so it stays buildable whatever happens to the volume.
ghost use Rattle.std.specs.Prelude.{◌≡◌, IfOk, IfErr, IfSome};
ghost use Rattle.volume.specs.Jobs.{ticket_of, done_ticket, Builds, IsChildOf};

use block_index::BlockUpdate;
use jobs::Ticket;
use meta_index::MetaUpdate;
use node::Node;
use std::alloc::Global;
use std::sync::Arc;

/// Does the same with a job, or what was built of one, of either index.
macro_rules! of_either {
    ($value:expr, $kind:ident, $inner:ident => $what:expr) => {
        match $value {
            $kind::Meta($inner) => $what,
            $kind::Block($inner) => $what,
        }
    };
}

/// What was built of an index's job, or the job.
macro_rules! built_in {
    ($built:expr, $index:ident) => {
        match $built {
            Ok(done) => Ok(Done::$index(done)),
            Err(job) => Err(Job::$index(job)),
        }
    };
}

/// Another reference to the child of a job.
pub enum Subtree {
    /// Of the metadata.
    Meta(Arc<Node<MetaUpdate>>),
    /// Of the blocks.
    Block(Arc<Node<BlockUpdate>>),
}

// Written out, as that of `pathkey::Key`.
impl Drop for Subtree {
    fn drop(self) {
        match self {
            Subtree::Meta(_) | Subtree::Block(_) => {}
        }
    }
}

/// A job: the oldest messages of a slot of a live index's root, and a reference to the slot's child.
#[derive(Drop)]
pub enum Job {
    /// Of the metadata.
    Meta(jobs::Job<MetaUpdate>),
    /// Of the blocks.
    Block(jobs::Job<BlockUpdate>),
}

impl Job {
    /// The job's ticket. It allocates nothing.
    pub fn ticket(&self) -> Ticket
        ensures { result.number ≡ ticket_of self.now }
    {
        of_either!(self, Job, job => job.ticket())
    }

    /// Another reference to the job's child; `None` if it already has 2^64 - 1. It allocates nothing.
    ///
    /// Whoever drops the child last frees what the built subtree does not share. A caller that keeps this reference until the
    /// job is installed can do that without the lock.
    pub fn subtree(&self) -> Option<Subtree>
        ensures { IfSome result (λ s. IsChildOf self.now s) }
    {
        match self {
            Job::Meta(job) => Some(Subtree::Meta(job.subtree()?)),
            Job::Block(job) => Some(Subtree::Block(job.subtree()?)),
        }
    }

    /// Builds the job: a subtree that includes the job's messages, flushed down as far as they fit. If an allocation
    /// fails, the job is returned unchanged.
    ///
    /// It needs no volume and no lock, so another thread can build while the volume changes.
    pub fn build(self, alloc: Global) -> Result<Done, Job>
        ensures ok { IfOk result (λ d. Builds self d) }
        ensures err { IfErr result (λ job. job ≡ self) }
    {
        match self {
            Job::Meta(job) => built_in!(job.build(alloc), Meta),
            Job::Block(job) => built_in!(job.build(alloc), Block),
        }
    }
}

/// A subtree that includes the messages of a job.
#[derive(Drop)]
pub enum Done {
    /// Of the metadata.
    Meta(jobs::Done<MetaUpdate>),
    /// Of the blocks.
    Block(jobs::Done<BlockUpdate>),
}

impl Done {
    /// The ticket of the job of which it was built. It allocates nothing.
    pub fn ticket(&self) -> Ticket
        ensures { result.number ≡ done_ticket self.now }
    {
        of_either!(self, Done, done => done.ticket())
    }
}

/// The reply of taking a job. The volume is unchanged unless it is `Taken`.
#[derive(Drop)]
pub enum TakeReply {
    /// The job was taken, and its slot is marked.
    Taken(Job),
    /// There is no such slot, its child is a leaf, no message is pending there, or it has a mark.
    NotThere,
    /// The first message does not fit into the child, there are 64 marks, or no ticket is left.
    NoRoom,
    /// An allocation failed.
    NoMemory,
}

/// The reply of installing. The volume is unchanged unless it is `Installed`.
#[derive(Drop)]
pub enum InstallReply {
    /// The subtree has replaced the child.
    Installed,
    /// The mark was removed before.
    Stale,
    /// An allocation failed: the value is returned, and the mark stays.
    NoMemory(Done),
}
