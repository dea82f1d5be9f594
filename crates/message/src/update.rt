//! Updates: changes of one value that may depend on the value.
//!
//! Two updates in sequence may be joined into one of the same effect, which the type of updates decides. An update that lacks memory
//! leaves the value as it was.
ghost use Rattle.std.specs.Prelude.{◌≡◌, Option, IfOk, IfSome, OnErr, None, Some, if◌then◌else◌};
ghost use Rattle.std.specs.Bool.{OnFalse, OnTrue};
ghost use Rattle.std.specs.Option.{option_copied};

use pathkey::NoMemory;
use std::alloc::Global;

/// What an update changes.
///
/// It is separate from [`Update`] because the bounds of recursive types have to be traits without ghost members.
pub trait UpdateTarget {
    /// The values that the update changes.
    type Value: Drop;
}

/// A change of one value. Contracts see what it does as the function `means`.
pub trait Update: UpdateTarget + Drop {
    /// The value after the update, if this one was there; `None` is no value.
    ghost means: { Self → Option Self.Value → Option Self.Value };

    /// The value after the update, if `old` was there.
    fn apply(
        &self,
        alloc: Global,
        old: Option<&Self::Value>,
    ) -> Result<Option<Self::Value>, NoMemory>
        ensures { IfOk result (λ v. v ≡ means self.now (option_copied old.entry)) };

    /// Changes a value in place, and returns whether there still is one. If an allocation fails the value is unchanged.
    fn apply_in_place(&self, alloc: Global, value: &mut Self::Value) -> Result<bool, NoMemory>
        ensures ok { IfOk result (λ stays. (if stays then Some value.new else None) ≡ means self.now (Some value.old)) }
        ensures err { OnErr result (value.new ≡ value.old) }
    {
        match self.apply(alloc, Some(value))? {
            Some(new) => {
                *value = new;
                Ok(true)
            }
            None => Ok(false),
        }
    }

    /// One update that does what this one and then `later` do to every old value, if the type has one.
    fn join(&self, alloc: Global, later: &Self) -> Result<Option<Self>, NoMemory>
        ensures { IfOk result (λ r. IfSome r (λ j. (old : Option Self.Value) → means j old ≡ means later.now (means self.now old))) };

    /// Joins `later` to this update, which then does to every old value what it did and then what `later` does. Returns whether
    /// it did; if the type has no such update, or an allocation fails, this one is unchanged.
    fn join_in_place(&mut self, alloc: Global, later: &Self) -> bool
        ensures taken { OnTrue result ((old : Option Self.Value) → means self.new old ≡ means later.now (means self.old old)) }
        ensures unchanged { OnFalse result (self.new ≡ self.old) }
    {
        let Ok(Some(joined)) = self.join(alloc, later) else {
            return false;
        };
        *self = joined;
        true
    }

    /// An equal update.
    fn copy(&self, alloc: Global) -> Result<Self, NoMemory>
        ensures { IfOk result (λ u. u ≡ self.now) };

    /// An equal value.
    fn copy_value(alloc: Global, value: &Self::Value) -> Result<Self::Value, NoMemory>
        ensures { IfOk result (λ v. v ≡ value.now) };
}
