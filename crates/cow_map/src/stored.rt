//! The values of a map: what a value must support so that a shared entry can be copied before a change.
ghost use Rattle.std.specs.Prelude.{◌≡◌, IfOk};

use pathkey::{Key, NoMemory};
use std::alloc::Global;

/// A value of a map. A map that shares it with others copies it before a change.
pub trait CopyValue: Drop {
    /// Clones the value.
    fn copy(&self, alloc: Global) -> Result<Self, NoMemory>
        ensures { IfOk result (λ v. v ≡ self.now) };
}

impl CopyValue for Option<Key> {
    fn copy(&self, alloc: Global) -> Result<Option<Key>, NoMemory> {
        match self {
            None => Ok(None),
            Some(key) => Ok(Some(key.copy(alloc)?)),
        }
    }
}
