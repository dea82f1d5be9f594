//! The clients of an engine: `Engine::open` returns them, and `Engine::close` takes them back.
//!
//! Invariant: there are at most as many as the engine was opened with, and the list has capacity for all of them.
ghost use Rattle.std.specs.Prelude.{◌≡◌, ◌++◌, ◌∷◌, [], take, drop, IfOk, IfErr, MatchOption, length, ◌≤◌, vec_capacity};
ghost use Rattle.std.specs.Borrow.{Array, Lends, sem};
ghost use Rattle.engine.specs.contracts.client.Client.{the_row as client_row};
ghost use Rattle.engine.specs.contracts.clients.Clients.{the_row};

use crate::client::Client;
use crate::engine_rule::EngineId;
use std::marker::Model;

/// The clients of an engine, never more than it has. A contract sees what each of them knows, in order.
pub struct Clients<J: EngineId> {
    list: Vec<Client<J>>,
    /// The number of clients that the engine has.
    most: usize,
}

// Written out, as for `pathkey::Key`.
impl<J: EngineId> Drop for Clients<J> {
    fn drop(self) {
        let Clients { list: _, most: _ } = self;
    }
}

impl<J: EngineId> Model for Clients<J> {
    ghost use Rattle.std.specs.Prelude.{◌≡◌, ◌≤◌, List, length, vec_capacity};
    ghost use Rattle.engine.specs.Clients.{Known};

    ghost Value = { List Known };

    ghost view = { λ c. c.list.items };

    ghost invariant = { λ c. (c.most ≡ J.clients) × (length c.list.items ≤ c.most) × (c.most ≤ vec_capacity c.list) };
}

impl<J: EngineId> Clients<J> {
    /// Creates the list from these clients.
    pub(crate) fn new(list: Vec<Client<J>>, most: usize) -> Clients<J>
        requires most { (most ≡ J.clients) × (length list.items ≤ most) × (most ≤ vec_capacity list) }
        ensures { result ≡ list.items }
    {
        Clients { list, most }
    }

    /// The number of clients in the list, at most as many as the engine has.
    pub fn len(&self) -> usize
        ensures count { result ≡ length self.now }
        ensures few { length self.now ≤ J.clients }
    {
        self.list.len()
    }

    /// The clients.
    pub fn as_slice(&self) -> &[Client<J>]
        ensures { result.now ≡ self.now }
    {
        self.list.as_slice()
    }

    /// The clients, for threads that take one each. What the caller writes into the slice is stored in the list.
    pub fn as_mut_slice(&mut self) -> &mut [Client<J>]
        ensures* writes_back { sem 𝓛 (Lends (the_row J.row J.EngineId) (Array (client_row J.row J.EngineId) 0) self.entry result (λ w. take (length self.old) (w ++ drop (length w) self.old))) }
        ensures value { result.now ≡ self.old }
    {
        self.list.as_mut_slice()
    }

    /// Removes and returns the last client, or returns `None` if the list is empty.
    pub fn pop(&mut self) -> Option<Client<J>>
        ensures { MatchOption result ((self.old ≡ []) × (self.new ≡ [])) (λ client. self.old ≡ self.new ++ client ∷ []) }
    {
        self.list.pop()
    }

    /// Appends a client. Returns the client as `Err` if the list already has as many as the engine.
    pub fn push(&mut self, client: Client<J>) -> Result<(), Client<J>>
        ensures ok { IfOk result (λ _. self.new ≡ self.old ++ client ∷ []) }
        ensures back { IfErr result (λ back. (back ≡ client) × (self.new ≡ self.old)) }
        ensures full { IfErr result (λ _. length self.old ≡ J.clients) }
    {
        if self.list.len() == self.most {
            return Err(client);
        }
        match self.list.push(client) {
            Ok(()) => Ok(()),
            // Unreachable: the list has capacity for as many clients as the engine has.
            Err(refused) => Err(refused.value),
        }
    }

    /// The clients as a plain list.
    pub(crate) fn into_list(self) -> Vec<Client<J>>
        ensures { result.items ≡ self }
    {
        let Clients { list, most: _ } = self;
        list
    }
}
