//! The events of a run of a volume, and their answers. An answer has the case of its event.

use call_compiler::{Call, Reply};
use jobs::Ticket;
use node::{StepReply, TreeStep};
use pathkey::{Errno, SnapName};

/// One of the indexes.
#[derive(Clone, Copy, Debug, PartialEq, Eq)]
pub enum Index {
    /// The metadata of each path.
    Meta,
    /// The bytes of each file.
    Block,
}

/// Does the same with the tree of the named index, to read it.
macro_rules! in_tree {
    ($indexes:expr, $index:expr, $tree:ident => $what:expr) => {
        match $index {
            Index::Meta => {
                let $tree = &$indexes.meta.tree;
                $what
            }
            Index::Block => {
                let $tree = &$indexes.block.tree;
                $what
            }
        }
    };
}

pub(crate) use in_tree;

/// A step of the tree of one index.
#[derive(Clone, Copy)]
pub struct Step {
    /// The index.
    pub index: Index,
    /// What is done there.
    pub step: TreeStep,
}

/// A step that was tried, and its reply.
#[derive(Clone, Copy)]
pub struct CompactStep {
    /// The step.
    pub step: Step,
    /// Its reply.
    pub reply: StepReply,
}

/// An event of a run.
#[derive(Drop)]
pub enum Event {
    /// A file call with its timestamp.
    Call(Call, u64),
    /// Takes a snapshot of the live tree under the name.
    Snapshot(SnapName),
    /// Removes the snapshot of that name.
    DropSnapshot(SnapName),
    /// Restores the snapshot of that name: the live tree becomes its tree.
    Restore(SnapName),
    /// Tries a tree step.
    Step(Step),
    /// Takes a job of the slot with this number of the index's root, and holds it.
    Take(Index, u8),
    /// Builds and installs the job with the ticket, which the run holds.
    Finish(Ticket),
}

/// The answer to an event.
#[derive(Drop)]
pub enum Answer {
    /// To a file call.
    Call(Reply),
    /// To a snapshot call.
    Snap(Result<(), Errno>),
    /// To a tree step.
    Step(StepReply),
    /// To taking a job.
    Take(TakeAnswer),
    /// To finishing a job.
    Finish(FinishAnswer),
}

/// The answer of a run to taking a job.
#[derive(Clone, Copy, Debug, PartialEq, Eq)]
pub enum TakeAnswer {
    /// The job with this ticket was taken, and the run holds it.
    Taken(Ticket),
    /// There is no such slot, its child is a leaf, no message is pending there, or it has a mark.
    NotThere,
    /// The first message does not fit into the child, there are 64 marks, or no ticket is left.
    NoRoom,
    /// An allocation failed.
    NoMemory,
}

/// The answer of a run to finishing a job.
#[derive(Clone, Copy, Debug, PartialEq, Eq)]
pub enum FinishAnswer {
    /// What was built of the job is installed in the volume.
    Installed,
    /// The mark of the job was removed, and the job is dropped.
    Stale,
    /// The run holds no job with the ticket.
    NotThere,
    /// An allocation failed: the run still holds the job, and it can be finished again.
    NoMemory,
}
