//! Lines of an image that are printed ahead, and handed out in parts. Bytes that were handed out, followed by the ready
//! ones and the lines after the position, are the image.
ghost use Rattle.std.specs.Prelude.{◌≡◌, ◌+◌, ◌≤◌, [], IfErr, IfOk, OnErr, OnOk, length};
ghost use Rattle.reference.specs.Tree.{Tree};
ghost use Rattle.images.specs.Printings.{HandsOut, IsReady, ready_text};
ghost use Rattle.images.specs.Spots.{left_at};
ghost use Rattle.volume.specs.Volumes.{MeanRooted};

use crate::ahead::EntryReadahead;
use crate::spot::PrintPosition;
use pathkey::NoMemory;
use std::alloc::Global;
use textio::text::put_number_line;
use volume::{BlockWalk, Frozen};

/// The printed lines, and the position after them.
#[derive(Drop)]
pub(crate) struct PrintedLines {
    /// The lines.
    pub(crate) text: Vec<u8>,
    /// The number of their bytes that were handed out.
    pub(crate) used: usize,
    /// The position after them.
    pub(crate) spot: PrintPosition,
    /// Entries after this position that were read already.
    pub(crate) ahead: EntryReadahead,
    /// The number of bytes of the image that were handed out.
    pub(crate) done: u64,
}

impl PrintedLines {
    /// Starts with the line of the root.
    pub(crate) fn new(alloc: Global, frozen: &Frozen) -> Result<PrintedLines, NoMemory>
        ensures { IfOk result (λ r. (r.done ≡ 0) × IsReady frozen.now r) }
    {
        let mut text = Vec::new(alloc);
        let Ok(()) = put_number_line(&mut text, b"D / ", frozen.modified()) else {
            // Writing into a buffer fails only if an allocation fails.
            return Err(NoMemory);
        };
        Ok(PrintedLines {
            text,
            used: 0,
            spot: PrintPosition::behind_root(alloc),
            ahead: EntryReadahead::new(alloc),
            done: 0,
        })
    }

    /// Prints more lines, unless some are left. Fails only if an allocation fails, and then no line is left.
    pub(crate) fn fill(&mut self, alloc: Global, frozen: &Frozen) -> Result<(), NoMemory>
        requires ready { IsReady frozen.now self.old }
        ensures ready { IsReady frozen.now self.new }
        ensures done { self.new.done ≡ self.old.done }
        ensures filled { OnOk result ((t : Tree) → MeanRooted frozen.now t → ready_text self.new ≡ [] → left_at t self.new.spot ≡ []) }
    {
        if self.used < self.text.len() {
            return Ok(());
        }
        let mut spot = self.spot.copy(alloc)?;
        self.text.clear();
        self.used = 0;
        let mut blocks = BlockWalk::new(alloc, frozen);
        if let Err(NoMemory) = spot.print(
            alloc,
            frozen,
            &mut self.ahead,
            &mut blocks,
            &mut self.text,
        ) {
            // The position stays, and the entries that were read ahead may no longer follow it.
            self.ahead.clear();
            self.text.clear();
            // Dropped by a call, so that the proof costs less.
            drop(spot);
            return Err(NoMemory);
        }
        self.spot = spot;
        Ok(())
    }

    /// Copies as many of the remaining printed lines as fit into the buffer. The number of bytes of an image does not
    /// overflow.
    pub(crate) fn hand_out(&mut self, out: &mut [u8]) -> Result<usize, NoMemory>
        requires fits { self.old.used ≤ length self.old.text.items }
        ensures out { IfOk result (λ n. HandsOut n self.old out.old out.new) }
        ensures on { IfOk result (λ n. self.new ≡ record self.old { used = self.old.used + n; done = self.old.done + n }) }
        ensures refused { OnErr result ((self.new ≡ self.old) × (out.new ≡ out.old)) }
    {
        let ready = &self.text[self.used..];
        let count = ready.len().min(out.len());
        let Some(done) = self.done.checked_add(count as u64) else {
            return Err(NoMemory);
        };
        out[..count].copy_from_slice(&ready[..count]);
        self.used += count;
        self.done = done;
        Ok(count)
    }
}
