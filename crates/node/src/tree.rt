//! A whole tree: its shape and its root.
//!
//! Invariant (`IsLawful`): the root is an inner node, all leaves are at the same depth, pivots and keys are sorted and within the
//! ranges of their slots, and no node exceeds the limits of the shape. Every public function that changes a tree keeps this, so no
//! contract repeats it.
ghost use Rattle.std.specs.Prelude.{◌≡◌, IfOk, OnOk, OnErr, IsTrue, IsOk, []};
ghost use Rattle.node.specs.Appended.{Appended};
ghost use Rattle.node.specs.Lawful.{IsLawful};
ghost use Rattle.node.specs.Pure.{empty_root};
ghost use Rattle.node.specs.Report.{report_of, total as total_of};
ghost use Rattle.node.specs.RootSteps.{with_root};
ghost use Rattle.node.specs.Searchable.{IsSearchable};
ghost use Rattle.node.specs.Shapes.{is_shape};
ghost use Rattle.node.specs.declared.report.Quantity.TheVariants.{Pending};

use crate::node::Node;
use crate::node::count::{height, total};
use crate::report::{Quantity, ShapeReport};
use crate::shape::Shape;
use append::append_both_kept;
use message::{Msg, Update, UpdateTarget};
use pathkey::NoMemory;
use std::alloc::Global;
use std::marker::Model;
use std::sync::Arc;

pub mod append;
pub mod install_subtree;
pub mod step;

/// A buffered tree. Every tree is lawful, which its type guarantees.
pub struct Tree<U: UpdateTarget> {
    shape: Shape,
    root: Arc<Node<U>>,
}

// Drop is implemented by hand, as for `pathkey::Key`.
impl<U: UpdateTarget + Drop> Drop for Tree<U> {
    fn drop(self) {
        let Tree { shape: _, root: _ } = self;
    }
}

impl<U: UpdateTarget> Model for Tree<U> {
    ghost use Rattle.node.specs.Pure.{PTree};
    ghost use Rattle.node.specs.Codes.{coded_whole};
    ghost use Rattle.node.specs.Lawful.{IsLawful};

    ghost Value = { PTree U U.Value };

    ghost coded = { coded_whole U.code U.Value.code };

    ghost view = { λ t. record { shape = t.shape; root = t.root.value } };

    ghost invariant = { λ t. IsLawful (record { shape = t.shape; root = t.root.value }) };
}

impl<U: Update> Tree<U> {
    /// A root with one slot over one empty leaf.
    pub fn new(alloc: Global, shape: Shape) -> Result<Tree<U>, NoMemory>
        requires { IsTrue (is_shape shape) }
        ensures shape { IfOk result (λ t. t.shape ≡ shape) }
        ensures root { IfOk result (λ t. t.root ≡ empty_root) }
    {
        let root = Arc::new(alloc, Node::root(alloc)?)?;
        Ok(Tree { shape, root })
    }

    /// The same tree, with another reference to its root. Later changes of either do not touch the other.
    pub fn share(&self) -> Result<Tree<U>, NoMemory>
        ensures { IfOk result (λ t. t ≡ self.now) }
    {
        let root = Arc::try_clone(&self.root)?;
        Ok(Tree {
            shape: self.shape,
            root,
        })
    }

    /// The tree's shape.
    pub fn shape(&self) -> Shape
        ensures { result ≡ self.now.shape }
    {
        self.shape
    }

    /// The tree's root.
    pub fn root(&self) -> &Node<U>
        ensures root { result.now ≡ self.now.root }
        ensures searchable { IsSearchable result.now }
        ensures lawful { IsLawful self.now }
    {
        &self.root
    }

    /// How many trees have the root: this one, and each that shares it. No claim depends on it.
    pub fn owners(&self) -> usize {
        Arc::strong_count(&self.root)
    }

    /// Whether the two trees have one root, so that neither was changed since one was shared from the other: then another
    /// reference to the one is another to the other. It may be wrong while another thread shares either, and no claim
    /// depends on it.
    pub fn has_root_of(&self, other: &Tree<U>) -> Result<bool, NoMemory> {
        let before = other.owners();
        let shared = self.share()?;
        let after = other.owners();
        // Dropped only now: it had to hold a reference while `after` was counted.
        drop(shared);
        Ok(before != after)
    }

    /// How many pieces are pending in the tree. It reads the root's slots and does not walk the tree.
    pub fn pending(&self) -> u128
        ensures { result ≡ total_of Pending self.now.root }
    {
        self.root.weight().pending
    }

    /// How large the tree is; all but the pending pieces is found by a walk of all its nodes.
    pub fn shape_report(&self) -> ShapeReport
        ensures { result ≡ report_of self.now }
    {
        ShapeReport {
            levels: height(&self.root),
            slots: total(&self.root, Quantity::Slots),
            pending: self.pending(),
            entries: total(&self.root, Quantity::Entries),
        }
    }

    /// Replaces the root, for a step that keeps the tree lawful.
    pub fn replace_root(&mut self, root: Arc<Node<U>>)
        requires { IsLawful (with_root root.value self.old) }
        ensures { self.new ≡ with_root root.value self.old }
    {
        self.root = root;
    }

    /// Appends messages, the oldest first, to the root's slots, atomically.
    ///
    /// It moves the messages, and copies the root's own level only if another tree shares it.
    pub fn append(&mut self, alloc: Global, msgs: Vec<Msg<U>>) -> Result<(), NoMemory>
        ensures ok { OnOk result (Appended U.means msgs.items self.old self.new) }
        ensures err { OnErr result (self.new ≡ self.old) }
        ensures nothing { msgs.items ≡ [] → IsOk result × (self.new ≡ self.old) }
    {
        self.append_kept(alloc, msgs, &[])
    }
}

/// Appends one batch to two trees, atomically.
pub fn append_both<A: Update, B: Update>(
    alloc: Global,
    first: &mut Tree<A>,
    first_msgs: Vec<Msg<A>>,
    second: &mut Tree<B>,
    second_msgs: Vec<Msg<B>>,
) -> Result<(), NoMemory>
    ensures first_ok { OnOk result (Appended A.means first_msgs.items first.old first.new) }
    ensures first_err { OnErr result (first.new ≡ first.old) }
    ensures second_ok { OnOk result (Appended B.means second_msgs.items second.old second.new) }
    ensures second_err { OnErr result (second.new ≡ second.old) }
    ensures first_nothing { first_msgs.items ≡ [] → first.new ≡ first.old }
    ensures second_nothing { second_msgs.items ≡ [] → second.new ≡ second.old }
    ensures nothing { first_msgs.items ≡ [] → second_msgs.items ≡ [] → IsOk result }
{
    append_both_kept(alloc, first, first_msgs, &[], second, second_msgs, &[])
}
