//! Random steps of all eight kinds at random nodes.
use crate::random::Random;
use node::{Place, StepKind, TreeStep};

/// The node at which up to three slot indexes lead; it need not exist.
fn somewhere(random: &mut Random) -> Place {
    let mut at = Place::root();
    for _ in 0..random.below(4) {
        match at.under(random.below(4) as u8) {
            Some(below) => at = below,
            None => return at,
        }
    }
    at
}

/// A kind of step. Those that make a tree lower are more frequent than those that make it higher.
fn some_kind(random: &mut Random) -> StepKind {
    match random.below(20) {
        0..=3 => StepKind::FlushInner,
        4..=7 => StepKind::FlushLeaf,
        8 => StepKind::SplitInner,
        9..=11 => StepKind::MergeLeaves,
        12..=14 => StepKind::MergeInner,
        15 => StepKind::RootUp,
        16..=17 => StepKind::RootDown,
        _ => StepKind::DropCovered,
    }
}

/// A step of some kind at some node.
pub fn some_tree_step(random: &mut Random) -> TreeStep {
    TreeStep {
        kind: some_kind(random),
        at: somewhere(random),
        slot: random.below(4) as u8,
    }
}
