//! A walk over the oldest messages of a list, key by key.
//!
//! Invariant: the keys rise, and each has at least one operation.
ghost use Rattle.std.specs.Prelude.{◌≡◌, ◌<◌, Some, drop, IfSome};
ghost use Rattle.std.specs.Option.{option_map};
ghost use Rattle.std.specs.List.{slice_get};
ghost use Rattle.cow_map.specs.Places.{Rises};
ghost use Rattle.point_ops.specs.PointOps.{point_msgs};
ghost use Rattle.pending.specs.MsgRef.{borrowed_msg};
ghost use Rattle.pending.specs.OldestWalk.{first_len};

use crate::msg_ref::MsgRef;
use cow_map::Cursor;
use message::{Update, UpdateTarget};
use pathkey::Key;
use point_ops::KeyOps;
use std::marker::Model;

/// The keys that a walk has not yet passed. Contracts see them, each with its operations.
#[derive(Drop)]
pub struct OldestWalk<'a, U: UpdateTarget> {
    pub(crate) rest: Cursor<'a, KeyOps<U>>,
}

impl<'a, U: UpdateTarget> Model for OldestWalk<'a, U> {
    ghost use Rattle.std.specs.Prelude.{List, ℕ};
    ghost use Rattle.point_ops.specs.Changes.{KeyOp};

    ghost Value = { List (List ℕ × List (KeyOp U U.Value)) };

    ghost use Rattle.cow_map.specs.Places.{Rises};

    ghost view = { λ w. w.rest };

    ghost invariant = { λ w. Rises w.rest };
}

impl<'a, U: Update> OldestWalk<'a, U> {
    /// Brings the invariant, that the keys rise, into a proof. It does nothing at run time.
    #[inline(always)]
    pub fn assert_rising(&self)
        ensures { Rises self.now }
    {
        let _ = &self.rest;
    }

    /// The next key, and how many operations it has.
    #[inline(always)]
    pub fn peek(&self) -> Option<(&'a Key, usize)>
        ensures key { option_map (λ p. p.0.now) result ≡ option_map (λ e. e.0) (slice_get self.now 0) }
        ensures len { IfSome result (λ p. (p.1 ≡ first_len self.now) × (0 < p.1)) }
    {
        match self.rest.peek() {
            None => None,
            Some((key, run)) => Some((key, run.len())),
        }
    }

    /// The operation of the next key that has `older` before it, as a message.
    #[inline(always)]
    pub fn msg(&self, older: usize) -> MsgRef<'a, U>
        requires { older < first_len self.now }
        ensures { slice_get (point_msgs self.now) older ≡ Some (borrowed_msg result) }
    {
        let Some((key, run)) = self.rest.peek() else {
            unreachable!()
        };
        MsgRef::at(key, run.op_at(older))
    }

    /// Passes the next key.
    #[inline(always)]
    pub fn pass(&mut self)
        ensures { self.new ≡ drop 1 self.old }
    {
        let _ = self.rest.next();
    }
}
