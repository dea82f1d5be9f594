//! Reads the image of a tree line by line, as it is printed.
//!
//! The current line, the printed bytes that were not read yet, and the rest of the printer's image are together the
//! lines from the cursor on.
ghost use Rattle.std.specs.Prelude.{◌≡◌, ◌≢◌, ◌<◌, ◌≤◌, All, length};

use images::ImagePrinter;
use pathkey::NoMemory;
use std::alloc::Global;
use textio::words::split_line;
use volume::Frozen;

/// The number of bytes of an image that are printed at a time.
const PIECE: usize = 65_536;

/// A position in the image of a frozen tree: at one of its lines, or after the last.
#[derive(Drop)]
pub struct LineCursor {
    pub(crate) printing: ImagePrinter,
    /// The piece of the image that was printed last, at the start of the buffer.
    pub(crate) piece: Vec<u8>,
    /// The number of its bytes that were read.
    pub(crate) used: usize,
    /// The number of its bytes.
    pub(crate) filled: usize,
    /// The line, without its line feed.
    pub(crate) line: Vec<u8>,
    /// Whether there is a line: false after the last one.
    pub(crate) there: bool,
    /// The line of the entry to which the current line belongs.
    pub(crate) entry: Vec<u8>,
    ghost fits: { used ≤ filled },
    ghost within: { filled ≤ length piece.items },
    ghost some: { 0 < length piece.items },
    ghost free: { All (λ b. b ≢ 10) line.items },
}

impl LineCursor {
    ghost use Rattle.std.specs.Prelude.{◌∷◌, [], IfOk, OnOk, false, true};
    ghost use Rattle.reference.specs.Tree.{Tree};
    ghost use Rattle.delta.specs.Walks.{IsAtStart, ReadsLine, Refills, SameTree, TakesPart, Walks, lines_from, unread};

    /// Creates a cursor at the first line of the image of a tree. Fails only if an allocation fails.
    pub fn new(alloc: Global, frozen: Frozen) -> Result<LineCursor, NoMemory>
        ensures { IfOk result (IsAtStart frozen) }
    {
        let Ok(piece) = Vec::from_elem(alloc, 0u8, PIECE) else {
            drop(frozen);
            return Err(NoMemory);
        };
        let Ok(printing) = ImagePrinter::new(alloc, frozen) else {
            drop(piece);
            return Err(NoMemory);
        };
        LineCursor::over(alloc, printing, piece)
    }

    // Creates a cursor at the first line of what the printer prints.
    fn over(alloc: Global, printing: ImagePrinter, piece: Vec<u8>) -> Result<LineCursor, NoMemory>
        requires fresh { printing.done ≡ 0 }
        requires some { 0 < length piece.items }
        ensures { IfOk result (IsAtStart printing.tree) }
    {
        let mut walk = LineCursor {
            printing,
            piece,
            used: 0,
            filled: 0,
            line: Vec::new(alloc),
            there: false,
            entry: Vec::new(alloc),
        };
        if let Err(NoMemory) = walk.read(alloc) {
            drop(walk);
            return Err(NoMemory);
        }
        Ok(walk)
    }

    /// Whether the cursor is after the last line.
    pub(crate) fn is_at_end(&self) -> bool
        ensures end { result ≡ true → self.now.there ≡ false }
        ensures line { result ≡ false → self.now.there ≡ true }
    {
        !self.there
    }

    /// Moves to the next line. Fails only if an allocation fails.
    pub fn step(&mut self, alloc: Global) -> Result<(), NoMemory>
        requires { self.old.there ≡ true }
        ensures { OnOk result (Walks (self.old.line.items ∷ []) self.old self.new) }
    {
        self.read(alloc)
    }

    // Reads the next line, which may be printed in several pieces.
    fn read(&mut self, alloc: Global) -> Result<(), NoMemory>
        ensures { OnOk result (ReadsLine self.old self.new) }
    {
        self.line.clear();
        self.gather(alloc)?;
        self.note_entry()
    }

    // Appends the following bytes to the line, up to its end.
    fn gather(&mut self, alloc: Global) -> Result<(), NoMemory>
        requires { self.old.line.items ≡ [] }
        ensures { OnOk result (ReadsLine self.old self.new) }
    {
        // No image has more pieces than this.
        for _ in 0..u64::MAX {
            if self.take_part()? {
                self.there = true;
                return Ok(());
            }
            if !self.refill(alloc)? {
                self.there = !self.line.is_empty();
                return Ok(());
            }
        }
        Err(NoMemory)
    }

    // Appends what was printed to the line, up to the line's end. Returns whether the end was reached.
    fn take_part(&mut self) -> Result<bool, NoMemory>
        ensures { IfOk result (λ ended. TakesPart ended self.old self.new) }
    {
        let unread = &self.piece[self.used..self.filled];
        match split_line(unread) {
            Some((part, _)) => {
                let used = self.used + part.len() + 1;
                self.line.extend_from_slice(part)?;
                self.used = used;
                Ok(true)
            }
            None => {
                self.line.extend_from_slice(unread)?;
                self.used = self.filled;
                Ok(false)
            }
        }
    }

    // Prints the next piece, after all that was printed before was read. Returns whether there is one.
    fn refill(&mut self, alloc: Global) -> Result<bool, NoMemory>
        ensures { IfOk result (λ more. Refills more self.old self.new) }
    {
        let count = self.printing.next(alloc, self.piece.as_mut_slice())?;
        self.used = 0;
        self.filled = count.min(self.piece.len());
        Ok(count > 0)
    }

    // Stores the line if it is the line of an entry.
    fn note_entry(&mut self) -> Result<(), NoMemory>
        ensures lines { (t : Tree) → lines_from t self.new ≡ lines_from t self.old }
        ensures same { SameTree self.old self.new }
    {
        if self.line.starts_with(b"b ") {
            return Ok(());
        }
        self.entry.clear();
        self.entry.extend_from_slice(self.line.as_slice())?;
        Ok(())
    }
}
