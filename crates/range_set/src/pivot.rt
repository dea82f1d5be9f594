//! Splits and merges of range sets at a pivot.
//!
//! A split preserves the set of keys, and so does a merge: a range with keys on both sides of the pivot is cut there, and two ranges
//! that touch there become one again.
ghost use Rattle.std.specs.Prelude.{◌≡◌, ◌+◌, ◌≤◌, true, [], Some, None, length, OnOk, IfOk};
ghost use Rattle.message.specs.Cuts.{IsJoined, LieIn};
ghost use Rattle.range_set.specs.Disjoint.{range_msgs, AreApart};
ghost use Rattle.range_set.specs.Ends.{AreDivided, AreMeeting, AreWelded, IsOver};

use crate::replace_overlapped::put;
use cow_map::CowMap;
use message::Update;
use message::ends::{copy_end, is_before_end};
use pathkey::{Key, KeyRange, NoMemory};
use std::alloc::Global;

/// Splits the ranges at the pivot: those before it, and those from it on. A range that contains keys on both sides is split.
pub(crate) fn split<U: Update>(
    rows: CowMap<Option<Key>>,
    alloc: Global,
    pivot: &Key,
) -> Result<(CowMap<Option<Key>>, CowMap<Option<Key>>), NoMemory>
    requires { AreApart rows }
    ensures sides { IfOk result (λ r. IsJoined pivot.now (range_msgs {U = U} {V = U.Value} r.0) (range_msgs r.1) (range_msgs rows)) }
    ensures apart { IfOk result (λ r. AreApart r.0 × AreApart r.1) }
    ensures few { IfOk result (λ r. length r.0 + length r.1 ≤ length rows + 1) }
{
    let mut front = rows;
    let mut back = front.split_off(pivot)?;
    split_last(&mut front, alloc, &mut back, pivot)?;
    Ok((front, back))
}

/// Splits the last range of the front if it ends after the pivot. The second half is added to the back.
fn split_last(
    front: &mut CowMap<Option<Key>>,
    alloc: Global,
    back: &mut CowMap<Option<Key>>,
    pivot: &Key,
) -> Result<(), NoMemory>
    ensures { OnOk result (AreDivided pivot.now front.old back.old front.new back.new) }
{
    let Some(over) = last_over(front, alloc, pivot)? else {
        return Ok(());
    };
    let KeyRange { lo, hi } = over;
    let end = pivot.copy(alloc)?;
    put(front, KeyRange { lo, hi: Some(end) })?;
    let begin = pivot.copy(alloc)?;
    put(back, KeyRange { lo: begin, hi })?;
    Ok(())
}

/// A copy of the last of the ranges, if it ends after the pivot.
fn last_over(
    rows: &CowMap<Option<Key>>,
    alloc: Global,
    pivot: &Key,
) -> Result<Option<KeyRange>, NoMemory>
    ensures { IfOk result (IsOver pivot.now rows.now) }
{
    let Some((low, high)) = rows.last() else {
        return Ok(None);
    };
    if !is_before_end(pivot, high.as_ref()) {
        return Ok(None);
    }
    let lo = low.copy(alloc)?;
    let hi = copy_end(alloc, high.as_ref())?;
    Ok(Some(KeyRange { lo, hi }))
}

/// Merges two sets that are on both sides of a pivot. Ranges that touch there are merged.
pub(crate) fn merge<U: Update>(
    front: CowMap<Option<Key>>,
    alloc: Global,
    back: CowMap<Option<Key>>,
    pivot: &Key,
) -> Result<CowMap<Option<Key>>, NoMemory>
    requires front_apart { AreApart front }
    requires back_apart { AreApart back }
    requires before { LieIn [] (Some pivot.now) (range_msgs {U = U} {V = U.Value} front) }
    requires from { LieIn pivot.now None (range_msgs {U = U} {V = U.Value} back) }
    ensures merged { IfOk result (λ all. IsJoined pivot.now (range_msgs {U = U} {V = U.Value} front) (range_msgs back) (range_msgs all)) }
    ensures apart { IfOk result AreApart }
{
    let mut all = front;
    let mut rest = back;
    merge_touching(&mut all, alloc, &mut rest)?;
    all.append(&mut rest)?;
    Ok(all)
}

/// Merges the last range of the front and the first of the back if they touch. The merged range is in the front.
fn merge_touching(
    front: &mut CowMap<Option<Key>>,
    alloc: Global,
    back: &mut CowMap<Option<Key>>,
) -> Result<(), NoMemory>
    ensures { OnOk result (AreWelded front.old back.old front.new back.new) }
{
    let Some(whole) = merged_touching(front, alloc, back)? else {
        return Ok(());
    };
    put(front, whole)?;
    back.drop_front(1);
    Ok(())
}

/// The last range of the front and the first of the back as one range, if they touch.
fn merged_touching(
    front: &CowMap<Option<Key>>,
    alloc: Global,
    back: &CowMap<Option<Key>>,
) -> Result<Option<KeyRange>, NoMemory>
    ensures { IfOk result (AreMeeting front.now back.now) }
{
    let Some((low, Some(end))) = front.last() else {
        return Ok(None);
    };
    let Some((begin, high)) = back.cursor().peek() else {
        return Ok(None);
    };
    if end != begin {
        return Ok(None);
    }
    let lo = low.copy(alloc)?;
    let hi = copy_end(alloc, high.as_ref())?;
    Ok(Some(KeyRange { lo, hi }))
}
