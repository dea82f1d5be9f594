//! Messages that were removed from a list, to be handed on one by one.
//!
//! Invariant: the messages that remain are in their order, the oldest first.
ghost use Rattle.std.specs.Prelude.{◌≡◌, ◌++◌, [], IfNone};
ghost use Rattle.std.specs.Option.{option_to_list};

use crate::msg::Msg;
use crate::update::{Update, UpdateTarget};
use std::collections::VecDeque;
use std::marker::Model;

/// Messages that were removed from a list, the oldest first.
#[derive(Drop)]
pub struct MsgDrain<U: UpdateTarget> {
    msgs: VecDeque<Msg<U>>,
}

impl<U: UpdateTarget> Model for MsgDrain<U> {
    ghost use Rattle.std.specs.Prelude.{List};
    ghost use Rattle.message.specs.declared.msg.Msg.{Msg};

    ghost Value = { List (Msg U U.Value) };

    ghost view = { λ t. t.msgs.items };
}

impl<U: Update> MsgDrain<U> {
    /// These messages, the oldest first. It does not allocate.
    pub fn of(msgs: Vec<Msg<U>>) -> MsgDrain<U>
        ensures { result ≡ msgs.items }
    {
        MsgDrain {
            msgs: VecDeque::from_vec(msgs),
        }
    }

    /// The oldest of those that remain. It does not allocate.
    pub fn next(&mut self) -> Option<Msg<U>>
        ensures moved { self.old ≡ option_to_list result ++ self.new }
        ensures end { IfNone result (self.old ≡ []) }
    {
        self.msgs.pop_front()
    }
}
