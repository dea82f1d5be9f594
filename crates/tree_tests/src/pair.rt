//! A tree, and a reference array of numbers to which the same messages are applied.
use crate::searches::agrees_where;
use crate::trees::{ROOMY, append, has, new_tree};
use node::Tree;
use pathkey::NoMemory;
use std::alloc::Global;
use test_support::{Digit, Plain, Random, Row};

/// A tree, and the array to which it abstracts.
#[derive(Drop)]
pub struct Pair {
    pub tree: Tree<Digit>,
    pub row: Row,
}

impl Pair {
    /// An empty tree with an empty array.
    pub fn new(alloc: Global) -> Result<Pair, NoMemory> {
        match new_tree(alloc, ROOMY) {
            Ok(tree) => Ok(Pair {
                tree,
                row: Row::new(),
            }),
            Err(fault) => Err(fault),
        }
    }

    /// A share of the tree with a copy of the array; later changes do not affect either.
    pub fn share(&self) -> Result<Pair, NoMemory> {
        match self.tree.share() {
            Ok(tree) => Ok(Pair {
                tree,
                row: self.row,
            }),
            Err(fault) => Err(fault),
        }
    }

    /// Applies messages to both.
    fn take(&mut self, alloc: Global, msgs: &[Plain]) -> bool {
        for msg in msgs {
            self.row.lay(*msg);
        }
        append(alloc, &mut self.tree, msgs)
    }

    /// Applies up to two messages to both.
    pub fn change(&mut self, alloc: Global, random: &mut Random) -> bool {
        let two = [Plain::random(random), Plain::random(random)];
        match random.below(3) {
            0 => self.take(alloc, &[]),
            1 => self.take(alloc, &[two[0]]),
            _ => self.take(alloc, &two),
        }
    }

    /// Whether they agree at a key.
    pub fn agrees_at(&self, alloc: Global, at: u8) -> bool {
        has(alloc, &self.tree, at, self.row.value(at))
    }

    /// Whether they agree at each key.
    pub fn agrees(&self, alloc: Global) -> bool {
        for at in 0..=u8::MAX {
            if !self.agrees_at(alloc, at) {
                return false;
            }
        }
        true
    }

    /// Whether scans of a range find the array's pairs: the first, and a few.
    pub fn finds_alike(&self, alloc: Global, random: &mut Random) -> bool {
        let lo = random.byte();
        let hi = lo.checked_add(random.below(60) as u8);
        let limit = 1 + random.below(8) as usize;
        agrees_where(alloc, &self.tree, &self.row, (lo, hi), limit)
    }
}
