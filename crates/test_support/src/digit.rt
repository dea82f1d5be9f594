//! An update on numbers.
ghost use Rattle.std.specs.Prelude.{◌≡◌, ◌+◌, ◌*◌, ◌%◌, ◌==◌, if◌then◌else◌, None, Some};
ghost use Rattle.std.specs.Option.{unwrap_or};

use message::{Update, UpdateTarget};
use pathkey::NoMemory;
use std::alloc::Global;

/// An update for tests: appends a digit to the last two digits of a number, so that the order of two updates shows; the
/// digit 9 removes the number.
#[derive(Drop)]
pub struct Digit(pub u64);

/// What the digit makes of a number, or of none.
pub fn written_behind(old: Option<u64>, digit: u64) -> Option<u64>
    ensures { result ≡ (if digit % 10 == 9 then None else Some (unwrap_or old 0 % 100 * 10 + digit % 10)) }
{
    if digit % 10 == 9 {
        return None;
    }
    Some(old.unwrap_or(0) % 100 * 10 + digit % 10)
}

impl UpdateTarget for Digit {
    type Value = u64;
}

impl Update for Digit {
    ghost means = { λ digit old. if digit.0 % 10 == 9 then None else Some (unwrap_or old 0 % 100 * 10 + digit.0 % 10) };

    fn apply(&self, _alloc: Global, old: Option<&u64>) -> Result<Option<u64>, NoMemory> {
        Ok(written_behind(old.copied(), self.0))
    }

    fn join(&self, _alloc: Global, _later: &Digit) -> Result<Option<Digit>, NoMemory> {
        Ok(None)
    }

    fn copy(&self, _alloc: Global) -> Result<Digit, NoMemory> {
        Ok(Digit(self.0))
    }

    fn copy_value(_alloc: Global, value: &u64) -> Result<u64, NoMemory> {
        Ok(*value)
    }
}
