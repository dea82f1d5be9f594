//! A range-delete, or part of one, whose ends several lists may share.
//!
//! Invariant: a part shares the original range and the keys at which it was cut, and copies no key.
ghost use Rattle.std.specs.Prelude.{◌≡◌, Some, IfOk, IfErr, MatchResult};
ghost use Rattle.std.specs.Arc.{arc_value};
ghost use Rattle.std.specs.Option.{option_copied, option_map};

use message::ends::copy_end;
use pathkey::{Key, KeyRange, NoMemory};
use std::alloc::Global;
use std::marker::Model;
use std::sync::Arc;

/// A range of keys: the original one, or its part from one key on and before another. Contracts see the range. A part copies no
/// key: it shares the original range and the keys at which it was cut.
#[derive(Drop)]
pub struct SharedRange {
    whole: Arc<KeyRange>,
    low: Option<Arc<Key>>,
    high: Option<Arc<Key>>,
}

impl Model for SharedRange {
    ghost use Rattle.std.specs.Arc.{arc_value};
    ghost use Rattle.std.specs.Option.{option_map};
    ghost use Rattle.pathkey.specs.declared.range.KeyRange.{KeyRange};
    ghost use Rattle.pending.specs.SharedRange.{part_range};

    ghost Value = { KeyRange };

    ghost view = { λ p. part_range p.whole.value (option_map arc_value p.low) (option_map arc_value p.high) };
}

impl SharedRange {
    /// The whole of a range. On allocation failure the range is returned as the error.
    pub(crate) fn new(alloc: Global, range: KeyRange) -> Result<SharedRange, KeyRange>
        ensures ok { IfOk result (λ p. p ≡ range) }
        ensures back { IfErr result (λ r. r ≡ range) }
    {
        match Arc::new(alloc, range) {
            Ok(whole) => Ok(SharedRange {
                whole,
                low: None,
                high: None,
            }),
            Err(refused) => Err(refused.value),
        }
    }

    /// The lower bound of the range.
    pub(crate) fn lo(&self) -> &Key
        ensures { result.now ≡ self.now.lo }
    {
        match &self.low {
            Some(low) => low,
            None => &self.whole.lo,
        }
    }

    /// The upper bound of the range, if there is one.
    pub(crate) fn hi(&self) -> Option<&Key>
        ensures { option_copied result ≡ self.now.hi }
    {
        match &self.high {
            Some(high) => Some(high),
            None => self.whole.hi.as_ref(),
        }
    }

    /// The same range for another list.
    pub(crate) fn share(&self) -> Result<SharedRange, NoMemory>
        ensures { IfOk result (λ p. p ≡ self.now) }
    {
        let whole = Arc::try_clone(&self.whole)?;
        let low = share_key(&self.low)?;
        let high = share_key(&self.high)?;
        Ok(SharedRange { whole, low, high })
    }

    /// The part of the range before the key.
    pub(crate) fn truncate_to(self, end: &Arc<Key>) -> Result<SharedRange, NoMemory>
        ensures lo { IfOk result (λ p. p.lo ≡ self.lo) }
        ensures hi { IfOk result (λ p. p.hi ≡ Some end.now.value) }
    {
        let mut part = self;
        part.high = Some(Arc::try_clone(end)?);
        Ok(part)
    }

    /// The part of the range from the key on.
    pub(crate) fn truncate_from(self, begin: &Arc<Key>) -> Result<SharedRange, NoMemory>
        ensures lo { IfOk result (λ p. p.lo ≡ begin.now.value) }
        ensures hi { IfOk result (λ p. p.hi ≡ self.hi) }
    {
        let mut part = self;
        part.low = Some(Arc::try_clone(begin)?);
        Ok(part)
    }

    /// The range with keys of its own: they are copied if the range was cut or other lists share it. On allocation failure the
    /// part is returned as the error.
    pub(crate) fn into_range(self, alloc: Global) -> Result<KeyRange, SharedRange>
        ensures { MatchResult result (λ r. r ≡ self) (λ p. p ≡ self) }
    {
        let part = match self.into_whole() {
            Ok(range) => return Ok(range),
            Err(part) => part,
        };
        match own_range(&part, alloc) {
            Ok(range) => Ok(range),
            Err(_) => Err(part),
        }
    }

    /// The original range, if it was not cut and no other list shares it. Otherwise the part is returned as the error.
    fn into_whole(self) -> Result<KeyRange, SharedRange>
        ensures { MatchResult result (λ r. r ≡ self) (λ p. p ≡ self) }
    {
        match (self.low, self.high) {
            (None, None) => match Arc::try_unwrap(self.whole) {
                Ok(range) => Ok(range),
                Err(whole) => Err(SharedRange {
                    whole,
                    low: None,
                    high: None,
                }),
            },
            (low, high) => Err(SharedRange {
                whole: self.whole,
                low,
                high,
            }),
        }
    }
}

/// A copy of the range.
fn own_range(part: &SharedRange, alloc: Global) -> Result<KeyRange, NoMemory>
    ensures { IfOk result (λ r. r ≡ part.now) }
{
    let lo = part.lo().copy(alloc)?;
    let hi = copy_end(alloc, part.hi())?;
    Ok(KeyRange { lo, hi })
}

/// Another reference to the key, if there is one, for another part.
fn share_key(key: &Option<Arc<Key>>) -> Result<Option<Arc<Key>>, NoMemory>
    ensures { IfOk result (λ k. option_map arc_value k ≡ option_map arc_value key.now) }
{
    match key {
        None => Ok(None),
        Some(key) => Ok(Some(Arc::try_clone(key)?)),
    }
}
