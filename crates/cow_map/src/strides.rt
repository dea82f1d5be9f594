//! A search through a sorted slice in strides, so that the processor can read ahead of the comparisons.
//!
//! It has the contract of `partition_point` of slices. That bisects: each index depends on the comparison before it, so that
//! with large elements each comparison waits for memory. The indexes that a stride reads are known beforehand.
ghost use Rattle.std.specs.Prelude.{◌≡◌, ◌≤◌, ◌<◌, ◌+◌, Bool, true, false, length, ◌-◌};
ghost use Rattle.std.specs.Fn.{ComputesKey};
ghost use Rattle.std.specs.List.Sorted.{IsPartitionedBy, IsPartitionPoint};
ghost use Rattle.cow_map.specs.Striding.{IsBetween, IsWithin};

/// The remaining indexes: all elements before `low` satisfy the predicate, and none from `high` on does.
#[derive(Clone, Copy)]
pub struct SearchWindow {
    low: usize,
    high: usize,
}

/// Advances `low` in strides as long as the last element of each satisfies the predicate, until fewer elements than a stride
/// remain.
#[inline(always)]
fn narrow<T, P: FnMut(&T) -> bool>(
    xs: &[T],
    pred: P,
    within: SearchWindow,
    stride: usize,
) -> (SearchWindow, P)
    requires pred { P.IsAlwaysCallable pred }
    requires within { IsWithin within (length xs.now) }
    requires stride { 0 < stride }
    ensures pred { P.IsAlwaysCallable result.1 }
    ensures within { IsWithin result.0 (length xs.now) }
    ensures short { result.0.high < result.0.low + stride }
    ensures between { (p : T → Bool) → ComputesKey P.FnMut p pred → IsBetween p xs.now within.low within.high → ComputesKey P.FnMut p result.1 × IsBetween p xs.now result.0.low result.0.high }
{
    let mut pred = pred;
    let mut low = within.low;
    let high = within.high;
    while high - low >= stride {
        let last = low + (stride - 1);
        if !pred(&xs[last]) {
            return (SearchWindow { low, high: last }, pred);
        }
        low = last + 1;
    }
    (SearchWindow { low, high }, pred)
}

/// How many elements satisfy the predicate, if no element that satisfies it is after one that does not.
#[inline]
pub fn count_passing<T, P: FnMut(&T) -> bool>(xs: &[T], pred: P) -> usize
    requires { P.IsAlwaysCallable pred }
    ensures bound { result ≤ length xs.now }
    ensures partitioned { (p : T → Bool) → ComputesKey P.FnMut p pred → IsPartitionedBy p xs.now → IsPartitionPoint (λ y. p y ≡ true) (λ y. p y ≡ false) xs.now result }
{
    let all = SearchWindow {
        low: 0,
        high: xs.len(),
    };
    let (some, pred) = narrow(xs, pred, all, 256);
    let (few, pred) = narrow(xs, pred, some, 16);
    let (fewer, pred) = narrow(xs, pred, few, 4);
    let (place, _) = narrow(xs, pred, fewer, 1);
    place.low
}
