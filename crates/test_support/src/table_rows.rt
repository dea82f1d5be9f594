//! Tables of test cases, each row checked on its own.
use std::alloc::Global;

/// What a row of a table says.
pub trait Holds {
    /// Whether the case passes; `false` if an allocation fails.
    fn holds(&self, alloc: Global) -> bool;
}

/// Whether all rows hold; the number of the first that does not.
pub fn all_hold<R: Holds>(alloc: Global, rows: &[R]) -> Result<(), usize> {
    let mut number = 0usize;
    for row in rows {
        if !row.holds(alloc) {
            return Err(number);
        }
        number = number.saturating_add(1);
    }
    Ok(())
}
