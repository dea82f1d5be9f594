//! Random steps of all eight kinds at random nodes.
use node::{StepKind, StepReply, Tree, TreeStep};
use std::alloc::Global;
use steps::{TriedStep, compact_step, do_step};
use test_support::{Digit, Random, some_tree_step};

/// How many steps of each kind were done, in the order of the kinds.
#[derive(Clone, Copy)]
pub struct Done([u32; 8]);

impl Done {
    /// None was done yet.
    pub fn new() -> Done {
        Done([0; 8])
    }

    /// Counts a step.
    fn count(&mut self, kind: StepKind) {
        let counter = &mut self.0[kind as usize];
        *counter = counter.saturating_add(1);
    }

    /// Whether that many were done in total, and that many of the rarest kind.
    pub fn has(&self, all: u32, each: u32) -> bool {
        let mut sum = 0u32;
        let mut least = u32::MAX;
        for count in self.0 {
            sum = sum.saturating_add(count);
            least = least.min(count);
        }
        all <= sum && each <= least
    }
}

/// Does a step. It has no postcondition, so that the proofs of the tests do not unfold what a step does.
fn turn_of(alloc: Global, tree: &mut Tree<Digit>, step: TreeStep) -> TriedStep {
    let reply = do_step(alloc, tree, step);
    TriedStep { step, reply }
}

/// Flushes the fullest slot, or tries a step of any kind at some node; `None` if nothing is pending.
fn turn(alloc: Global, random: &mut Random, tree: &mut Tree<Digit>) -> Option<TriedStep> {
    if random.below(2) == 0 {
        return compact_step(alloc, tree);
    }
    Some(turn_of(alloc, tree, some_tree_step(random)))
}

/// Tries a step, and counts it if it was done.
pub fn try_step(
    alloc: Global,
    random: &mut Random,
    tree: &mut Tree<Digit>,
    done: &mut Done,
) -> bool {
    let Some(turn) = turn(alloc, random, tree) else {
        return true;
    };
    if matches!(turn.reply, StepReply::Did(_)) {
        done.count(turn.step.kind);
    }
    turn.reply != StepReply::NoMemory
}
