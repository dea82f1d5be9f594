//! The plain row that a tree is compared with.
use crate::plain::{Plain, is_before};
use pathkey::NoMemory;
use std::alloc::Global;

/// The value at each key of one byte.
#[derive(Clone, Copy, Drop)]
pub struct Row([Option<u64>; 256]);

impl Row {
    /// A row without values.
    pub fn new() -> Row {
        Row([None; 256])
    }

    /// The value at a key.
    pub fn value(&self, at: u8) -> Option<u64> {
        self.0[at as usize]
    }

    /// Applies the message to the value at each key.
    pub fn lay(&mut self, message: Plain) {
        for at in 0..=u8::MAX {
            self.0[at as usize] = message.value_after(at, self.0[at as usize]);
        }
    }

    /// The first `limit` pairs from the key `lo` up to but excluding `hi`, or all from `lo` on without `hi`.
    pub fn pairs(
        &self,
        alloc: Global,
        lo: u8,
        hi: Option<u8>,
        limit: usize,
    ) -> Result<Vec<(u8, u64)>, NoMemory> {
        let mut pairs = Vec::new(alloc);
        for at in lo..=u8::MAX {
            if pairs.len() == limit || !is_before(at, hi) {
                return Ok(pairs);
            }
            if let Some(value) = self.value(at) {
                pairs.push((at, value))?;
            }
        }
        Ok(pairs)
    }
}
