//! The pairs of a range one after the other, read from the tree in batches.
//!
//! The pairs read ahead are the next ones after the last requested key, without a gap; a flag says whether they are all
//! that remain.
ghost use Rattle.std.specs.Prelude.{◌≡◌, ◌+◌, ◌-◌, ◌*◌, ◌^◌, ℕ, [], List, Bool, true, false, eqb, max, min, IfOk, OnErr, IfNone};
ghost use Rattle.std.specs.Fn.{ComputesKey};
ghost use Rattle.std.specs.List.{starts_with};
ghost use Rattle.message.specs.Ranges.{before};
ghost use Rattle.node.specs.Meaning.{value as value_at};
ghost use Rattle.scan.specs.Pairs.{AreAhead, IsGiven, IsTaken, TakesFrom, TakesPast};
ghost use Rattle.scan.specs.Sizes.{IsPiece, is_walked, raised, size_after, size_past, walked_for};

use crate::scan;
use message::Update;
use node::Tree;
use pathkey::{Key, KeyRange, NoMemory};
use std::alloc::Global;
use std::collections::VecDeque;

/// The maximum number of pairs in the first batch.
const FIRST: usize = 32;

/// The maximum number of pairs in a batch.
const MOST: usize = 256;

/// Pairs that were read from a tree and have not been requested yet.
///
/// Each batch has twice as many pairs as the one before. If pairs are skipped, the next batch has one: a caller that skips most
/// pairs has few of them copied in vain. After a short batch the tree is not read again. Each batch is one walk of the tree,
/// which is counted when it is made.
#[derive(Drop)]
pub struct Readahead<U: Update> {
    /// They are in key order.
    pub pairs: VecDeque<(Key, U::Value)>,
    /// Whether no other pair is left in the range.
    pub all: bool,
    /// The number of walks of the tree, which saturates at 2^64 - 1.
    pub walks: u64,
    /// The total number of pairs that these walks requested, which saturates at 2^64 - 1.
    pub asked: u64,
    /// The maximum number of pairs in the next batch, at least one.
    most: usize,
}

impl<U: Update> Readahead<U> {
    /// No pair yet.
    pub fn new(alloc: Global) -> Readahead<U>
        ensures { (result.pairs.items ≡ []) × (result.all ≡ false) × (result.most ≡ 32) × (result.walks ≡ 0) × (result.asked ≡ 0) }
    {
        Readahead {
            pairs: VecDeque::new(alloc),
            all: false,
            walks: 0,
            asked: 0,
            most: FIRST,
        }
    }

    /// The first pair of the range; `None` if the range has no value.
    ///
    /// It is `first_in` for ranges with the same end, each of which begins after the pair that was returned before. The tree is
    /// walked once if none of the buffered pairs is in the range and others may be left, and otherwise not at all.
    pub fn first(
        &mut self,
        alloc: Global,
        tree: &Tree<U>,
        range: &KeyRange,
    ) -> Result<Option<(Key, U::Value)>, NoMemory>
        requires { AreAhead (value_at U.means tree.now.root) range.now.lo range.now.hi self.old.all self.old.pairs.items }
        ensures given { IfOk result (λ r. IsGiven (value_at U.means tree.now.root) range.now.lo range.now.hi r self.new.all self.new.pairs.items) }
        ensures piece { is_walked range.now.lo self.old.all self.old.pairs.items ≡ true → IfOk result (λ r. IsPiece (walked_for range.now.lo self.old.pairs.items self.old.most) r self.new.all self.new.pairs.items) }
        ensures walks { self.new.walks ≡ raised (is_walked range.now.lo self.old.all self.old.pairs.items) 1 self.old.walks }
        ensures asked { self.new.asked ≡ raised (is_walked range.now.lo self.old.all self.old.pairs.items) (walked_for range.now.lo self.old.pairs.items self.old.most) self.old.asked }
        ensures most { self.new.most ≡ size_after range.now.lo self.old.all self.old.pairs.items self.old.most }
        ensures err { OnErr result ((self.new.all ≡ self.old.all) × (self.new.pairs.items ≡ [])) }
    {
        if let Some(pair) = self.take_from(&range.lo) {
            return Ok(Some(pair));
        }
        if self.all {
            return Ok(None);
        }
        self.refill(alloc, tree, range)
    }

    /// Walks the tree for the next batch, counts the walk, and removes the first pair.
    fn refill(
        &mut self,
        alloc: Global,
        tree: &Tree<U>,
        range: &KeyRange,
    ) -> Result<Option<(Key, U::Value)>, NoMemory>
        ensures given { IfOk result (λ r. IsGiven (value_at U.means tree.now.root) range.now.lo range.now.hi r self.new.all self.new.pairs.items) }
        ensures piece { IfOk result (λ r. IsPiece (max self.old.most 1) r self.new.all self.new.pairs.items) }
        ensures walks { self.new.walks ≡ min (self.old.walks + 1) (2 ^ 64 - 1) }
        ensures asked { self.new.asked ≡ min (self.old.asked + max self.old.most 1) (2 ^ 64 - 1) }
        ensures most { self.new.most ≡ min (2 * max self.old.most 1) 256 }
        ensures err { OnErr result ((self.new.all ≡ self.old.all) × (self.new.pairs.items ≡ self.old.pairs.items)) }
    {
        // Never 0, but no type guarantees that.
        let most = self.most.max(1);
        self.most = most.saturating_add(most).min(MOST);
        self.walks = self.walks.saturating_add(1);
        self.asked = self.asked.saturating_add(most as u64);
        // It is counted already, also if an allocation fails.
        let piece = scan(alloc, tree, range, most)?;
        self.all = piece.len() < most;
        self.pairs = VecDeque::from_vec(piece);
        Ok(self.pairs.pop_front())
    }

    /// Removes the first pair whose key does not begin with this one, and those before it.
    ///
    /// It is for a caller that skips everything below the pair that was returned last. If none is left, the others of the range
    /// begin at the least key after all keys with this prefix, unless `all` says that there are no others.
    pub fn next_past(&mut self, front: &Key) -> Option<(Key, U::Value)>
        ensures all { self.new.all ≡ self.old.all }
        ensures none { IfNone result (self.new.pairs.items ≡ []) }
        ensures taken { IsTaken (λ k. starts_with eqb k front.now) self.old.pairs.items result self.new.pairs.items }
        ensures most { self.new.most ≡ size_past (λ k. starts_with eqb k front.now) self.old.pairs.items self.old.most }
        ensures counts { (self.new.walks ≡ self.old.walks) × (self.new.asked ≡ self.old.asked) }
        ensures given { TakesPast front.now self.old.all self.old.pairs.items result self.new.all self.new.pairs.items }
    {
        self.take_unless(|key| key.as_bytes().starts_with(front.as_bytes()))
    }

    /// Removes the first pair that is not before the key, and those before it.
    fn take_from(&mut self, lo: &Key) -> Option<(Key, U::Value)>
        ensures all { self.new.all ≡ self.old.all }
        ensures taken { IsTaken (λ k. before k lo.now) self.old.pairs.items result self.new.pairs.items }
        ensures most { self.new.most ≡ size_past (λ k. before k lo.now) self.old.pairs.items self.old.most }
        ensures counts { (self.new.walks ≡ self.old.walks) × (self.new.asked ≡ self.old.asked) }
        ensures given { TakesFrom lo.now self.old.all self.old.pairs.items result self.new.all self.new.pairs.items }
    {
        self.take_unless(|key| key.cmp(lo).is_lt())
    }

    /// Removes the first pair whose key is not `passed`, and those before it.
    fn take_unless<P: FnMut(&Key) -> bool>(&mut self, passed: P) -> Option<(Key, U::Value)>
        requires { P.IsAlwaysCallable passed }
        ensures all { self.new.all ≡ self.old.all }
        ensures none { IfNone result (self.new.pairs.items ≡ []) }
        ensures taken { (test : List ℕ → Bool) → ComputesKey P.FnMut test passed → IsTaken test self.old.pairs.items result self.new.pairs.items }
        ensures most { (test : List ℕ → Bool) → ComputesKey P.FnMut test passed → self.new.most ≡ size_past test self.old.pairs.items self.old.most }
        ensures counts { (self.new.walks ≡ self.old.walks) × (self.new.asked ≡ self.old.asked) }
    {
        let mut passed = passed;
        'passed: while let Some(pair) = self.pairs.pop_front() {
            if !passed(&pair.0) {
                return Some(pair);
            }
            self.most = 1;
        }
        None
    }
}
