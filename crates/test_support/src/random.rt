//! Numbers that look random, and are the same at each run.
ghost use Rattle.std.specs.Prelude.{◌<◌};

/// A linear congruential generator.
#[derive(Drop)]
pub struct Random(pub u32);

impl Random {
    /// A number below `end`, or 0 if that is 0.
    pub fn below(&mut self, end: u32) -> u32
        ensures { 0 < end → result < end }
    {
        self.0 = self.0.wrapping_mul(1_664_525).wrapping_add(1_013_904_223);
        (self.0 >> 8).checked_rem(end).unwrap_or(0)
    }

    /// Any byte.
    pub fn byte(&mut self) -> u8 {
        self.below(256) as u8
    }
}
