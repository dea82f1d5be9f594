//! Read-ahead of a tree's entries, before their lines are printed.
//!
//! The entries read ahead (`IsAhead`) are the first ones after the last printed entry, without a gap.
ghost use Rattle.std.specs.Prelude.{◌≡◌, IfOk, OnOk, [], true};
ghost use Rattle.pathkey.specs.Names.{Path};
ghost use Rattle.reference.specs.Tree.{Tree};
ghost use Rattle.reference.specs.declared.reply.Meta.{Meta};
ghost use Rattle.images.specs.Spots.{IsAhead, IsNext};
ghost use Rattle.volume.specs.Volumes.{MeanRooted};
ghost use Rattle.volume.specs.Walks.{IsEntry};

use pathkey::{NoMemory, Path};
use reference::Meta;
use std::alloc::Global;
use std::collections::VecDeque;
use volume::Frozen;

/// The number of entries that are read at once. The line of the first of them has been printed already.
const PIECE: usize = 256;

/// The entries after the last printed one, as far as they were read.
#[derive(Drop)]
pub(crate) struct EntryReadahead {
    /// The entries in key order, each with its path.
    pub(crate) entries: VecDeque<(Path, Meta)>,
    /// Whether there are no further entries in the tree.
    pub(crate) all: bool,
}

impl EntryReadahead {
    /// Creates a read-ahead without entries.
    pub(crate) fn new(alloc: Global) -> EntryReadahead
        ensures { (t : Tree) (last : Path) → IsAhead t last result }
    {
        EntryReadahead {
            entries: VecDeque::new(alloc),
            all: false,
        }
    }

    /// Drops the entries that were read.
    pub(crate) fn clear(&mut self)
        ensures { (t : Tree) (last : Path) → IsAhead t last self.new }
    {
        self.entries.clear();
        self.all = false;
    }

    /// Returns the entry after the one at this path, with its path, or `None` if that was the last. Fails only if an
    /// allocation fails.
    pub(crate) fn next(
        &mut self,
        alloc: Global,
        frozen: &Frozen,
        last: &Path,
    ) -> Result<Option<(Path, Meta)>, NoMemory>
        ensures { IfOk result (λ next. (t : Tree) (m : Meta) → MeanRooted frozen.now t → IsEntry t last.now m → IsAhead t last.now self.old → IsNext t last.now next self.new) }
    {
        self.fill(alloc, frozen, last)?;
        Ok(self.entries.pop_front())
    }

    /// Reads entries after the one at this path, unless there are some already.
    fn fill(&mut self, alloc: Global, frozen: &Frozen, last: &Path) -> Result<(), NoMemory>
        ensures ahead { OnOk result ((t : Tree) (m : Meta) → MeanRooted frozen.now t → IsEntry t last.now m → IsAhead t last.now self.old → IsAhead t last.now self.new) }
        ensures some { OnOk result (self.new.entries.items ≡ [] → self.new.all ≡ true) }
    {
        if self.all || !self.entries.is_empty() {
            return Ok(());
        }
        let piece = frozen.entries(alloc, last, PIECE)?;
        self.all = piece.len() < PIECE;
        self.entries = VecDeque::from_vec(piece);
        // The first is the entry at this path.
        drop(self.entries.pop_front());
        Ok(())
    }
}
