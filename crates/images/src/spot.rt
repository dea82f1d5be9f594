//! The position of a printer in an image, and printing of the next lines: one for each entry in key order, and for a file
//! one for each block with a byte other than zero.
//!
//! The lines before the position were printed, and each line at or after it is still to be printed.
ghost use Rattle.std.specs.Prelude.{◌≡◌, ◌<◌, ◌++◌, [], IfOk, OnOk, length};
ghost use Rattle.reference.specs.Tree.{Tree};
ghost use Rattle.images.specs.Image.{entry_text};
ghost use Rattle.images.specs.Spots.{EndsBy, IsAhead, IsAt, IsNextAt, IsPassed, Passes, left_at, size_of};
ghost use Rattle.volume.specs.Volumes.{MeanRooted};

use crate::ahead::EntryReadahead;
use crate::image::{put_block, put_directory, put_file};
use crate::version::ImageVersion;
use block_index::block::BLOCK;
use pathkey::{NoMemory, Path};
use reference::Meta;
use std::alloc::Global;
use textio::output::WriteFailed;
use volume::{BlockWalk, Frozen};

/// The number of bytes of lines that are printed at once. The last line may exceed it.
pub(crate) const ENOUGH: usize = 65_536;

/// A position between two lines of an image, after the line of the root: after the line of an entry and the lines of its
/// first blocks.
#[derive(Drop)]
pub(crate) struct PrintPosition {
    /// The path of the entry.
    pub(crate) last: Path,
    /// The least index of a block of this entry whose line is after this position.
    pub(crate) from: u32,
}

impl PrintPosition {
    /// The position after the line of the root.
    pub(crate) fn behind_root(alloc: Global) -> PrintPosition
        ensures { (result.last ≡ []) × (result.from ≡ 0) }
    {
        PrintPosition {
            last: Path::root(alloc),
            from: 0,
        }
    }

    /// Copies the position. Fails only if an allocation fails.
    pub(crate) fn copy(&self, alloc: Global) -> Result<PrintPosition, NoMemory>
        ensures { IfOk result (λ s. s ≡ self.now) }
    {
        let last = self.last.copy(alloc)?;
        Ok(PrintPosition {
            last,
            from: self.from,
        })
    }

    /// Appends lines to a text until it has enough bytes or the image has no more lines, and moves the position after them.
    /// Fails only if an allocation fails.
    ///
    /// The walks through the entries and through the blocks are parallel, and what they read ahead is kept.
    pub(crate) fn print(
        &mut self,
        alloc: Global,
        frozen: &Frozen,
        ahead: &mut EntryReadahead,
        blocks: &mut BlockWalk,
        text: &mut Vec<u8>,
    ) -> Result<(), NoMemory>
        requires tree { blocks.old ≡ frozen.now }
        ensures passes { OnOk result ((t : Tree) → MeanRooted frozen.now t → IsAt t self.old → IsAhead t self.old.last ahead.old → Passes t self.old text.old.items self.new text.new.items) }
        ensures ahead { OnOk result ((t : Tree) → MeanRooted frozen.now t → IsAt t self.old → IsAhead t self.old.last ahead.old → IsAhead t self.new.last ahead.new) }
        ensures rest { OnOk result ((t : Tree) → MeanRooted frozen.now t → IsAt t self.old → IsAhead t self.old.last ahead.old → length text.new.items < 65536 → left_at t self.new ≡ []) }
        ensures tree { blocks.new ≡ blocks.old }
    {
        // The length of the entry is not kept in the position.
        self.print_blocks(alloc, blocks, u64::MAX, text)?;
        // No tree has more entries than this.
        for _ in 0..u64::MAX {
            if text.len() >= ENOUGH {
                return Ok(());
            }
            let Some((path, meta)) = ahead.next(alloc, frozen, &self.last)? else {
                return Ok(());
            };
            self.print_entry(alloc, blocks, path, meta, text)?;
        }
        Err(NoMemory)
    }

    /// Appends the line of the next entry, and those of its blocks, until the text has enough bytes.
    fn print_entry(
        &mut self,
        alloc: Global,
        blocks: &mut BlockWalk,
        path: Path,
        meta: Meta,
        text: &mut Vec<u8>,
    ) -> Result<(), NoMemory>
        ensures passes { OnOk result ((t : Tree) → MeanRooted blocks.old t → IsPassed t self.old → IsNextAt t self.old.last (path, meta) → Passes t self.old text.old.items self.new text.new.items) }
        ensures rest { OnOk result ((t : Tree) → MeanRooted blocks.old t → IsNextAt t self.old.last (path, meta) → length text.new.items < 65536 → IsPassed t self.new) }
        ensures last { OnOk result (self.new.last ≡ path) }
        ensures tree { blocks.new ≡ blocks.old }
    {
        put_entry(text, &path, meta)?;
        self.last = path;
        self.from = 0;
        self.print_blocks(alloc, blocks, len_of(meta), text)
    }

    /// Appends the lines of blocks of the entry, whose length is at most `len` bytes, until the text has enough bytes.
    fn print_blocks(
        &mut self,
        alloc: Global,
        blocks: &mut BlockWalk,
        len: u64,
        text: &mut Vec<u8>,
    ) -> Result<(), NoMemory>
        ensures passes { OnOk result ((t : Tree) → MeanRooted blocks.old t → IsAt t self.old → Passes t self.old text.old.items self.new text.new.items) }
        ensures rest { OnOk result ((t : Tree) → MeanRooted blocks.old t → IsAt t self.old → EndsBy t self.old.last len → length text.new.items < 65536 → IsPassed t self.new) }
        ensures last { self.new.last ≡ self.old.last }
        ensures tree { blocks.new ≡ blocks.old }
    {
        'lines: while text.len() < ENOUGH {
            if u64::from(self.from) * BLOCK >= len {
                return Ok(());
            }
            let Some((number, block)) = blocks.next(alloc, &self.last, self.from)? else {
                return Ok(());
            };
            let Ok(()) = put_block(text, number, block.as_slice()) else {
                // Writing into a buffer fails only if an allocation fails.
                return Err(NoMemory);
            };
            self.from = number + 1;
        }
        Ok(())
    }
}

/// The length of an entry in bytes. That of a directory is 0.
fn len_of(meta: Meta) -> u64
    ensures { result ≡ size_of meta }
{
    match meta {
        Meta::Dir { modified: _ } => 0,
        Meta::File { len, modified: _ } => len,
    }
}

/// Appends the line of an entry to a text.
fn put_entry(text: &mut Vec<u8>, path: &Path, meta: Meta) -> Result<(), NoMemory>
    ensures { OnOk result (text.new.items ≡ text.old.items ++ entry_text path.now meta) }
{
    let put = match meta {
        Meta::Dir { modified } => put_directory(text, ImageVersion::Second, path, modified),
        Meta::File { len, modified } => put_file(text, ImageVersion::Second, path, len, modified),
    };
    match put {
        Ok(()) => Ok(()),
        // Writing into a buffer fails only if an allocation fails.
        Err(WriteFailed) => Err(NoMemory),
    }
}
