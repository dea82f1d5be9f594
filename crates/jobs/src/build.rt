//! Builds a job, without its tree.
//!
//! The subtree means what the child under the job's messages means, is as deep as the child, and is lawful for the slot's range.
ghost use Rattle.std.specs.Prelude.{◌≡◌, IfOk, IfErr};
ghost use Rattle.jobs.specs.Job.{FitBelow};
ghost use Rattle.jobs.specs.Replies.{IsBuilt};
ghost use Rattle.flush.specs.Sunk.{ConsumedInto};

use crate::flush_below::flush_below;
use crate::job::{Done, Job};
use message::{Msg, Update};
use node::append::append_copies;
use node::{Body, Node, Place};
use pathkey::NoMemory;
use std::alloc::Global;
use std::sync::Arc;

/// How many levels below the child's slots messages are flushed: as many as a place can name.
const LEVELS: u8 = 15;

/// A copy of the node's own level, with copies of the messages appended to the lists of its slots.
fn grown<U: Update>(
    alloc: Global,
    node: &Arc<Node<U>>,
    msgs: &[Msg<U>],
    most: u16,
) -> Result<Arc<Node<U>>, NoMemory>
    requires { FitBelow most msgs.now node.now.value }
    ensures { IfOk result (λ n. ConsumedInto U.means most msgs.now node.now.value n.value) }
{
    let mut copy = Arc::try_clone(node)?;
    let own = Arc::make_mut(&mut copy)?;
    let Body::Inner(slots) = own.body_mut() else {
        // Unreachable: the messages fit below an inner node.
        return Ok(copy);
    };
    append_copies(alloc, slots.as_mut_slice(), msgs)?;
    own.update_weight();
    Ok(copy)
}

impl<U: Update> Job<U> {
    /// The result of the job.
    fn built(&self, alloc: Global) -> Result<Done<U>, NoMemory>
        ensures { IfOk result (λ d. IsBuilt U.means self.now d) }
    {
        let mut child = grown(alloc, &self.child, self.msgs.as_slice(), self.shape.pending)?;
        let range = self.range.copy(alloc)?;
        flush_below(
            alloc,
            self.shape,
            &mut child,
            range.hi.as_ref(),
            Place::root(),
            LEVELS,
        );
        Ok(Done {
            ticket: self.ticket,
            shape: self.shape,
            range,
            count: self.msgs.len() as u32,
            child,
        })
    }

    /// Builds the job: a subtree that contains the job's messages, flushed as far down as there is room. If an allocation fails
    /// before the subtree contains all messages, the job is returned unchanged.
    ///
    /// It needs neither the tree nor a lock. It copies the nodes that it changes, one level each, and shares all others.
    pub fn build(self, alloc: Global) -> Result<Done<U>, Job<U>>
        ensures ok { IfOk result (λ d. IsBuilt U.means self d) }
        ensures err { IfErr result (λ job. job ≡ self) }
    {
        match self.built(alloc) {
            Ok(done) => Ok(done),
            Err(NoMemory) => Err(self),
        }
    }
}
