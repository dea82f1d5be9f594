//! The node at which a step works, as the path of slot indexes from the root.
ghost use Rattle.std.specs.Prelude.{◌≡◌, ◌≤◌, ◌++◌, [], ◌∷◌, take, MatchOption};

use crate::step::StepKind;

/// The path from the root to a node: at most 15 slot indexes.
#[derive(Clone, Copy)]
pub struct Place {
    numbers: [u8; 15],
    len: u8,
    ghost few: { len ≤ 15 },
}

impl Place {
    /// The root's place.
    pub fn root() -> Place
        ensures { take result.len result.numbers ≡ [] }
    {
        Place {
            numbers: [0; 15],
            len: 0,
        }
    }

    /// The place of the node below the slot with this index; `None` at 15 indexes.
    pub fn under(&self, slot: u8) -> Option<Place>
        ensures { MatchOption result (self.now.len ≡ 15) (λ p. take p.len p.numbers ≡ take self.now.len self.now.numbers ++ slot ∷ []) }
    {
        if self.len == 15 {
            return None;
        }
        let mut numbers = self.numbers;
        numbers[self.len as usize] = slot;
        Some(Place {
            numbers,
            len: self.len + 1,
        })
    }

    /// The slot indexes from the root down.
    pub fn numbers(&self) -> &[u8]
        ensures { result.now ≡ take self.now.len self.now.numbers }
    {
        &self.numbers[..self.len as usize]
    }
}

/// A step and the node at which it works. The steps of the root do not read `at` and `slot`.
#[derive(Clone, Copy)]
pub struct TreeStep {
    /// What is done.
    pub kind: StepKind,
    /// The node.
    pub at: Place,
    /// The index of the node's slot.
    pub slot: u8,
}
