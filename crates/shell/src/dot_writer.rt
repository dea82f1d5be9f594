//! The writer of a drawing: its text so far, and the number of the next box. Box numbers are unique within a drawing.
ghost use Rattle.std.specs.Prelude.{◌≡◌, IfOk};
ghost use Rattle.shell.specs.Drawing.{IsBegun, IsDrawing};

use itoa::Buffer;
use pathkey::NoMemory;
use std::alloc::Global;

/// The beginning of a drawing.
const HEAD: &[u8] = b"digraph trees {\nnode [shape=record, style=filled, fillcolor=white];\n";

/// The text of a drawing so far.
#[derive(Drop)]
pub struct DotWriter {
    text: Vec<u8>,
    boxes: u64,
    ghost begun: { IsBegun text.items },
}

impl DotWriter {
    /// Starts a drawing without boxes. Fails only if an allocation fails.
    pub fn new(alloc: Global) -> Result<DotWriter, NoMemory> {
        let mut text = Vec::new(alloc);
        text.extend_from_slice(HEAD)?;
        Ok(DotWriter { text, boxes: 0 })
    }

    /// Returns the number of the next box. No drawing has 2^64 of them.
    pub(crate) fn next_box(&mut self) -> u64 {
        let number = self.boxes;
        self.boxes = number.wrapping_add(1);
        number
    }

    /// Appends text.
    pub(crate) fn put(&mut self, text: &[u8]) -> Result<(), NoMemory> {
        self.text.extend_from_slice(text)?;
        Ok(())
    }

    /// Appends a number in decimal.
    pub(crate) fn put_number(&mut self, number: u128) -> Result<(), NoMemory> {
        let mut digits = Buffer::new();
        self.put(digits.format(number).as_bytes())
    }

    /// Ends the drawing, and returns the whole text. Fails only if an allocation fails.
    pub fn end(self) -> Result<Vec<u8>, NoMemory>
        ensures { IfOk result (λ v. IsDrawing v.items) }
    {
        let mut text = self.text;
        text.extend_from_slice(b"}\n")?;
        Ok(text)
    }
}
