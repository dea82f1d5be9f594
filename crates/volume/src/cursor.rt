//! A position among the keys of a frozen tree, from which its pairs are read in batches.
//!
//! The pairs read ahead are always the next ones from the position on, without a gap (`StandsAt`).
ghost use Rattle.std.specs.Prelude.{◌≡◌, List, ℕ, None, Option, OnOk};
ghost use Rattle.node.specs.Meaning.{value as value_at};
ghost use Rattle.scan.specs.Pairs.{IsFirst};
ghost use Rattle.volume.specs.Cursors.{StandsAt, is_passed};

use message::Update;
use node::Tree;
use pathkey::{Key, KeyRange, NoMemory};
use scan::readahead::Readahead;
use std::alloc::Global;
use std::collections::VecDeque;

/// A key, and the pairs that were read from there on.
///
/// While the requested keys increase, each piece continues after the one before, so that all pairs are read in one walk.
#[derive(Drop)]
pub(crate) struct Cursor<U: Update> {
    /// The keys from the one requested last on.
    pub(crate) range: KeyRange,
    /// The first pair of the range, if it was read.
    pub(crate) first: Option<(Key, U::Value)>,
    /// The pairs after it.
    pub(crate) pieces: Readahead<U>,
}

impl<U: Update> Cursor<U> {
    /// At the least key, with no pair read. It allocates nothing.
    pub(crate) fn new(alloc: Global) -> Cursor<U>
        ensures stands { (f : List ℕ → Option U.Value) → StandsAt f result.range result.first result.pieces.all result.pieces.pairs.items }
        ensures all_keys { result.range.hi ≡ None }
    {
        Cursor {
            range: KeyRange {
                lo: Key::new(alloc),
                hi: None,
            },
            first: None,
            pieces: Readahead::new(alloc),
        }
    }

    /// Moves to a key, and reads the first pair from there on into `first`; `None` if the tree has none there.
    ///
    /// It fails only if an allocation fails, and is then at the key, with no pair read.
    pub(crate) fn seek(&mut self, alloc: Global, tree: &Tree<U>, key: Key) -> Result<(), NoMemory>
        requires { StandsAt (value_at U.means tree.now.root) self.old.range self.old.first self.old.pieces.all self.old.pieces.pairs.items }
        ensures first { OnOk result (IsFirst (value_at U.means tree.now.root) key self.old.range.hi self.new.first) }
        ensures stands { StandsAt (value_at U.means tree.now.root) self.new.range self.new.first self.new.pieces.all self.new.pieces.pairs.items }
        ensures end { self.new.range.hi ≡ self.old.range.hi }
    {
        self.seek_key(alloc, key);
        self.take_first(alloc, tree)
    }

    /// Moves to a key. Pairs that were read stay if they are at the key or after it, and are dropped if they are before it. If
    /// the key is before the last one requested, nothing is known of the pairs after it, so all are dropped.
    fn seek_key(&mut self, alloc: Global, key: Key)
        ensures stands { (f : List ℕ → Option U.Value) → StandsAt f self.old.range self.old.first self.old.pieces.all self.old.pieces.pairs.items → StandsAt f self.new.range self.new.first self.new.pieces.all self.new.pieces.pairs.items }
        ensures range { self.new.range ≡ record { lo = key; hi = self.old.range.hi } }
    {
        if key.cmp(&self.range.lo).is_lt() {
            self.pieces = Readahead::new(alloc);
            self.first = None;
        } else if self.is_passed(&key) {
            self.first = None;
        }
        self.range.lo = key;
    }

    /// Whether the first pair was read and is before the key.
    fn is_passed(&self, key: &Key) -> bool
        ensures { result ≡ is_passed self.now.first key.now }
    {
        match &self.first {
            Some((first, _)) => first.cmp(key).is_lt(),
            None => false,
        }
    }

    /// Reads the first pair, if it was not read yet. If an allocation fails, no pair is read.
    fn take_first(&mut self, alloc: Global, tree: &Tree<U>) -> Result<(), NoMemory>
        requires { StandsAt (value_at U.means tree.now.root) self.old.range self.old.first self.old.pieces.all self.old.pieces.pairs.items }
        ensures first { OnOk result (IsFirst (value_at U.means tree.now.root) self.old.range.lo self.old.range.hi self.new.first) }
        ensures stands { StandsAt (value_at U.means tree.now.root) self.new.range self.new.first self.new.pieces.all self.new.pieces.pairs.items }
        ensures range { self.new.range ≡ self.old.range }
    {
        if self.first.is_some() {
            return Ok(());
        }
        match self.pieces.first(alloc, tree, &self.range) {
            Ok(Some(pair)) => {
                self.first = Some(pair);
                Ok(())
            }
            Ok(None) => {
                self.pieces.pairs = VecDeque::new(alloc);
                self.pieces.all = true;
                Ok(())
            }
            Err(NoMemory) => {
                self.pieces = Readahead::new(alloc);
                Err(NoMemory)
            }
        }
    }
}
