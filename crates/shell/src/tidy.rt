//! The flush policy of the program: if enough messages are pending, it flushes the fullest slot, and does the steps that
//! make space for that. Nodes on the flush's path that removals left nearly empty are merged first.
//!
//! No claim depends on its choices.
use crate::pace::Pace;
use node::{StepReply, TreeStep};
use steps::preemptive_split;
use volume::{Index, MAX_ATTEMPTS, Step, Volume};

/// The number of lines for which a pace that found nothing to do does not inspect the trees again, since that measures both
/// roots.
const REST: u8 = 7;

/// Does at most a given number of steps after each line, in the index with more pending pieces. No step is done while the
/// fullest slot has fewer messages than an eighth of what a node may hold, since a flush of few messages costs about as much
/// as one of many.
#[derive(Drop)]
pub struct Tidy {
    turns: u16,
    /// The step that was picked last.
    last: Option<Step>,
    /// The number of consecutive steps that did not fit, up to the last one. It is kept from line to line, so that the steps
    /// that make space are also reached with one step for each line.
    stuck: u8,
    /// Whether the last steps reshape nodes before a flush. If they do not fit, the flush is tried without that.
    reshapes: bool,
    /// Whether no more steps are picked before the next line: nothing was found to do, or an allocation failed.
    is_idle: bool,
    /// The number of lines for which it does not inspect the trees, since there was nothing to do.
    rest: u8,
}

impl Tidy {
    /// Creates a pace of at most `turns` steps after each line.
    pub fn new(turns: u16) -> Tidy {
        Tidy {
            turns,
            last: None,
            stuck: 0,
            reshapes: false,
            is_idle: false,
            rest: 0,
        }
    }

    /// Chooses the step that makes space for the last one, if that did not fit. Otherwise chooses the flush of the fullest
    /// slot, or the step that is better done before it.
    fn choose_step(&mut self, volume: &Volume) -> Option<Step> {
        match self.last {
            Some(step) if self.stuck > 0 => self.choose_other(volume, step),
            _ => self.choose_flush(volume),
        }
    }

    /// Chooses the step that makes space for this step. If none is known, and the step was to reshape nodes before a
    /// flush, chooses the flush itself.
    fn choose_other(&mut self, volume: &Volume, step: Step) -> Option<Step> {
        let other = volume.make_room(step);
        if other.is_some() || !self.reshapes {
            return other;
        }
        self.reshapes = false;
        heaviest(volume)
    }

    /// Chooses the flush of the fullest slot, or the step that reshapes nodes on its path.
    fn choose_flush(&mut self, volume: &Volume) -> Option<Step> {
        let flush = heaviest(volume)?;
        let first = reshaping(volume, flush);
        self.reshapes = first.is_some();
        Some(first.unwrap_or(flush))
    }
}

impl Pace for Tidy {
    fn turns(&mut self) -> u16 {
        if self.rest > 0 {
            self.rest -= 1;
            return 0;
        }
        self.is_idle = false;
        self.turns
    }

    fn pick(&mut self, volume: &Volume) -> Option<Step> {
        if self.is_idle {
            return None;
        }
        self.last = self.choose_step(volume);
        self.is_idle = self.last.is_none();
        if self.is_idle {
            self.rest = REST;
        }
        self.last
    }

    fn saw(&mut self, reply: StepReply) {
        self.stuck = match reply {
            StepReply::NoRoom if self.stuck < MAX_ATTEMPTS => self.stuck + 1,
            _ => 0,
        };
        self.is_idle = reply == StepReply::NoMemory;
    }
}

/// The flush of the fullest slot in the index with more pending pieces, or in the metadata index if both have the same
/// number. Returns `None` if too few messages are pending in that slot.
fn heaviest(volume: &Volume) -> Option<Step> {
    let index = volume.busier();
    if longest(volume, index) < enough(volume) {
        return None;
    }
    let step = volume.heaviest(index)?;
    Some(Step { index, step })
}

/// The step that reshapes nodes on the path of a flush before it is tried, or `None` if the flush can be tried at once.
fn reshaping(volume: &Volume, flush: Step) -> Option<Step> {
    let index = flush.index;
    let step = reshaping_in(volume, index, flush.step)?;
    Some(Step { index, step })
}

/// The step that reshapes nodes on the path of a flush in the tree of the index.
fn reshaping_in(volume: &Volume, index: Index, flush: TreeStep) -> Option<TreeStep> {
    let indexes = volume.indexes();
    match index {
        Index::Meta => preemptive_split(&indexes.meta.tree, flush),
        Index::Block => preemptive_split(&indexes.block.tree, flush),
    }
}

/// The number of messages in the longest list of an index.
fn longest(volume: &Volume, index: Index) -> usize {
    let indexes = volume.indexes();
    let weight = match index {
        Index::Meta => indexes.meta.tree.root().weight(),
        Index::Block => indexes.block.tree.root().weight(),
    };
    weight.longest
}

/// The number of messages that have to be pending in a slot before it is flushed.
fn enough(volume: &Volume) -> usize {
    let pending = volume.indexes().meta.tree.shape().pending;
    (usize::from(pending) / 8).max(1)
}
