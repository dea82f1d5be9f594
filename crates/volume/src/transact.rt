//! Transactions: lists of calls that are done whole or not at all.
//!
//! A list of several calls keeps a reference to the trees that it began with. If a call fails, these become the live trees
//! again. Marks stay, since each mark fits the trees at the beginning as it fits those at the end.
ghost use Rattle.std.specs.Prelude.{◌≡◌, ◌≤◌, ◌<◌, [], IfErr, IfOk, IfSome, IfNone, length, vec_capacity};
ghost use Rattle.volume.specs.Transactions.{CalledUntil, DoesAll, FailsAt, Succeeds, Transacts};
ghost use Rattle.volume.specs.Volumes.{IsVolume};

use crate::fs_root::FsRoot;
use crate::volume::Volume;
use call_compiler::{Call, Reply};
use pathkey::Errno;
use std::alloc::Global;

/// The call of a list that failed.
#[derive(Clone, Copy)]
pub struct FailedCall {
    /// Its number, from 0.
    pub number: usize,
    /// Its error.
    pub errno: Errno,
}

/// The reply to each call of a list, in their order, or the first call that failed.
pub type Transacted = Result<Vec<Reply>, FailedCall>;

/// The error in a reply; `None` if the call succeeded. It allocates nothing.
fn fault_of(reply: &Reply) -> Option<Errno>
    ensures fault { IfSome result (λ e. reply.now ≡ Reply.Fault e) }
    ensures success { IfNone result (Succeeds reply.now) }
{
    match reply {
        Reply::Fault(errno) => Some(*errno),
        _ => None,
    }
}

impl Volume {
    /// Does the calls with their timestamps in order, all of them or none. Returns the reply to each. If one fails, nothing
    /// changes, and the number of the first that fails is returned with its error: ENOMEM also if there is no memory for the
    /// replies, or a node already has 2^64 - 1 references.
    ///
    /// While several calls are done, they copy the parts of nodes that they change, as the first changes after a snapshot do.
    pub fn transact(&mut self, alloc: Global, calls: &[(Call, u64)]) -> Transacted
        ensures { Transacts calls.now result self.old self.new }
    {
        self.assert_invariant();
        if calls.is_empty() {
            return Ok(Vec::new(alloc));
        }
        let Ok(mut replies) = Vec::with_capacity(alloc, calls.len()) else {
            return Err(FailedCall {
                number: 0,
                errno: Errno::ENOMEM,
            });
        };
        match self.transact_into(alloc, calls, &mut replies) {
            Ok(()) => Ok(replies),
            Err(errno) => Err(FailedCall {
                number: replies.len(),
                errno,
            }),
        }
    }

    /// Does the calls, all of them or none, and appends the reply to each that succeeds.
    fn transact_into(
        &mut self,
        alloc: Global,
        calls: &[(Call, u64)],
        replies: &mut Vec<Reply>,
    ) -> Result<(), Errno>
        requires some { 0 < length calls.now }
        requires none { replies.old.items ≡ [] }
        requires room { length calls.now ≤ vec_capacity replies.old }
        ensures all { IfOk result (λ _. DoesAll calls.now replies.new.items self.old self.new) }
        ensures fault { IfErr result (λ e. FailsAt calls.now (length replies.new.items) e self.old self.new) }
    {
        self.assert_invariant();
        if calls.len() == 1 {
            return self.call_until_fault(alloc, calls, replies);
        }
        let Ok(before) = self.live_root() else {
            return Err(Errno::ENOMEM);
        };
        match self.call_until_fault(alloc, calls, replies) {
            Ok(()) => Ok(()),
            Err(errno) => {
                self.put_back(before);
                Err(errno)
            }
        }
    }

    /// Does the calls until one fails, and appends the reply to each that succeeds. What was done stays.
    fn call_until_fault(
        &mut self,
        alloc: Global,
        calls: &[(Call, u64)],
        replies: &mut Vec<Reply>,
    ) -> Result<(), Errno>
        requires none { replies.old.items ≡ [] }
        requires room { length calls.now ≤ vec_capacity replies.old }
        ensures all { IfOk result (λ _. DoesAll calls.now replies.new.items self.old self.new) }
        ensures fault { IfErr result (λ e. CalledUntil calls.now replies.new.items e self.old) }
        ensures first { IfErr result (λ _. replies.new.items ≡ [] → self.new ≡ self.old) }
        ensures snapshots { self.new.snapshots ≡ self.old.snapshots }
        ensures marks { self.new.marks ≡ self.old.marks }
    {
        for timed in calls {
            let reply = self.call(alloc, &timed.0, timed.1);
            match fault_of(&reply) {
                Some(errno) => return Err(errno),
                None => replies.push_reserved(reply),
            }
        }
        Ok(())
    }
}
