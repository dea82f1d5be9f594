//! A job, and the subtree that was built from it.
//!
//! Invariant of a job: its messages fit below its child, an inner node that is lawful for the job's range. Invariant of the result:
//! the subtree is lawful for that range.
ghost use Rattle.std.specs.Prelude.{◌≡◌, OnOk, OnErr, IfErr, IfSome};
ghost use Rattle.jobs.specs.Content.{done_content};
ghost use Rattle.jobs.specs.Marks.{MarkHas};
ghost use Rattle.jobs.specs.Replies.{IsPlaced};

use crate::mark::Mark;
use crate::marks::number_in;
use crate::ticket::Ticket;
use message::{Msg, Update, UpdateTarget};
use node::{Node, Shape, Tree};
use pathkey::KeyRange;
use std::marker::Model;
use std::sync::Arc;

/// The oldest messages of a slot of a root, and its child.
pub struct Job<U: UpdateTarget> {
    /// The number of the job.
    pub(crate) ticket: u64,
    /// The tree's shape.
    pub(crate) shape: Shape,
    /// The slot's range.
    pub(crate) range: KeyRange,
    /// The messages, the oldest first.
    pub(crate) msgs: Vec<Msg<U>>,
    /// The slot's child.
    pub(crate) child: Arc<Node<U>>,
}

// Drop is implemented by hand, as for `pathkey::Key`.
impl<U: UpdateTarget + Drop> Drop for Job<U> {
    fn drop(self) {
        let Job {
            ticket: _,
            shape: _,
            range: _,
            msgs: _,
            child: _,
        } = self;
    }
}

impl<U: UpdateTarget> Model for Job<U> {
    ghost use Rattle.jobs.specs.Codes.{coded_job};
    ghost use Rattle.jobs.specs.Job.{PJob, IsJob};

    ghost Value = { PJob U U.Value };

    ghost coded = { coded_job U.code U.Value.code };

    ghost view = { λ j. record { ticket = j.ticket; shape = j.shape; range = j.range; msgs = j.msgs.items; child = j.child.value } };

    ghost invariant = { λ j. IsJob j.shape j.range j.msgs.items j.child.value };
}

impl<U: UpdateTarget> Job<U> {
    /// The job's ticket.
    pub fn ticket(&self) -> Ticket
        ensures { result.number ≡ self.now.ticket }
    {
        Ticket::of(self.ticket)
    }

    /// Another reference to the child; `None` if the count of references is at its maximum. It does not allocate.
    ///
    /// The last reference frees the nodes that no other subtree shares. A caller that holds this one until the job is installed
    /// frees these nodes itself, rather than during the installation.
    pub fn subtree(&self) -> Option<Arc<Node<U>>>
        ensures { IfSome result (λ n. n.value ≡ self.now.child) }
    {
        Arc::try_clone(&self.child).ok()
    }
}

/// The result of a job: a subtree that contains its messages.
pub struct Done<U: UpdateTarget> {
    /// The number of the job.
    pub(crate) ticket: u64,
    /// The tree's shape.
    pub(crate) shape: Shape,
    /// The slot's range.
    pub(crate) range: KeyRange,
    /// The number of the job's messages.
    pub(crate) count: u32,
    /// The subtree.
    pub(crate) child: Arc<Node<U>>,
}

// Drop is implemented by hand, as for `pathkey::Key`.
impl<U: UpdateTarget + Drop> Drop for Done<U> {
    fn drop(self) {
        let Done {
            ticket: _,
            shape: _,
            range: _,
            count: _,
            child: _,
        } = self;
    }
}

impl<U: UpdateTarget> Model for Done<U> {
    ghost use Rattle.jobs.specs.Codes.{coded_done};
    ghost use Rattle.jobs.specs.Job.{PDone, IsSubtree};

    ghost Value = { PDone U U.Value };

    ghost coded = { coded_done U.code U.Value.code };

    ghost view = { λ d. record { ticket = d.ticket; shape = d.shape; range = d.range; count = d.count; child = d.child.value } };

    ghost invariant = { λ d. IsSubtree d.shape d.range d.child.value };
}

impl<U: UpdateTarget> Done<U> {
    /// The job's ticket.
    pub fn ticket(&self) -> Ticket
        ensures { result.number ≡ self.now.ticket }
    {
        Ticket::of(self.ticket)
    }
}

impl<U: Update> Done<U> {
    /// Replaces the child of the mark's slot by the subtree. If an allocation fails the result is returned.
    pub(crate) fn place(self, tree: &mut Tree<U>, mark: &Mark) -> Result<(), Done<U>>
        requires { MarkHas U.means mark.now (done_content U.means self) tree.old }
        ensures ok { OnOk result (IsPlaced U.means self tree.old tree.new) }
        ensures err { OnErr result (tree.new ≡ tree.old) }
        ensures back { IfErr result (λ d. d ≡ self) }
    {
        let i = number_in(tree.root(), &mark.range.lo);
        let Done {
            ticket,
            shape,
            range,
            count,
            child,
        } = self;
        match tree.install_subtree(i, count as usize, child) {
            Ok(()) => Ok(()),
            Err(child) => Err(Done {
                ticket,
                shape,
                range,
                count,
                child,
            }),
        }
    }
}
