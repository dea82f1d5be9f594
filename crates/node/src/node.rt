//! The nodes of a tree.
//!
//! Contracts see a node as a pure tree (`PNode`), without pointers, capacities or sharing. Invariant: if a node stores its weight,
//! it is that of its slots and of all nodes below. That leaves are at equal depth and that keys are sorted is an invariant of
//! the whole tree (`tree`): a single node may be anything while a step changes it.

use message::UpdateTarget;
use pathkey::Key;
use pending::Pending;
use pending_weight::PendingWeight;
use std::marker::Model;
use std::sync::Arc;

pub mod append;
pub mod batch;
pub mod below;
pub mod change;
pub mod copy;
pub mod count;
pub mod cut;
pub mod descend;
pub mod leaf;
pub mod make;
pub mod pending_weight;
pub mod search;

/// A node.
#[cycle(node)]
#[derive(Drop)]
pub struct Node<U: UpdateTarget> {
    /// Its entries or slots.
    body: Body<U>,
    /// How much is pending at or below it, if known. Many places in the code make a slot and few make a node, so it is
    /// stored here and not in the slot above.
    weight: Option<PendingWeight>,
}

/// A leaf of entries sorted by key, or an inner node of slots sorted by pivot.
#[cycle(node)]
#[derive(Drop)]
pub enum Body<U: UpdateTarget> {
    /// A leaf.
    Leaf(Vec<(Key, U::Value)>),
    /// An inner node.
    Inner(Vec<Slot<U>>),
}

/// A part of an inner node's range of keys.
#[cycle(node)]
#[derive(Drop)]
pub struct Slot<U: UpdateTarget> {
    /// The pivot: the least key of the slot's range, which ends where the next slot begins.
    pub lo: Key,
    /// The messages pending for the child.
    pub pending: Pending<U>,
    /// The node below.
    pub child: Arc<Node<U>>,
}

impl<U: UpdateTarget> Model for Node<U> {
    ghost use Rattle.node.specs.Pure.{PNode, depth};
    ghost use Rattle.node.specs.Codes.{coded_tree};

    ghost Value = { PNode U U.Value };

    ghost coded = { coded_tree U.code U.Value.code };

    ghost use Rattle.node.specs.See.{see};

    ghost view = { λ n. see n.body };

    ghost use Rattle.node.specs.Weights.{IsKept};

    ghost invariant = { λ n. IsKept n.weight (see n.body) };

    ghost size = { depth };

    ghost use Rattle.node.specs.Falls.{see_falls};

    ghost size_decreases = { λ a h. see_falls a.body };
}
