//! Replaces the ranges that begin within a range by it.
//!
//! No range that remains overlaps the new one or touches it, so the ranges stay disjoint.
ghost use Rattle.std.specs.Prelude.{◌≡◌, ◌+◌, ◌<◌, ◌^◌, true, false, length, OnOk, OnErr, IfOk};
ghost use Rattle.std.specs.BTreeMap.{insert_entry};
ghost use Rattle.std.specs.Option.{option_copied};
ghost use Rattle.pathkey.specs.Keys.{is_below};
ghost use Rattle.pathkey.specs.Order.{by_bytes};
ghost use Rattle.range_set.specs.Disjoint.{AreApart};
ghost use Rattle.range_set.specs.Ends.{spliced, Fits};

use crate::near::is_apart;
use cow_map::CowMap;
use message::ends::is_before_end;
use pathkey::{Key, KeyRange, NoMemory};

/// Inserts a range in place of those that begin within it, and returns how many these were. If an allocation fails the set is
/// unchanged.
pub(crate) fn replace_overlapped(
    rows: &mut CowMap<Option<Key>>,
    range: KeyRange,
) -> Result<usize, NoMemory>
    requires some { is_below range.lo range.hi ≡ true }
    requires few { length rows.old < 2 ^ 63 }
    ensures ok { OnOk result (rows.new ≡ spliced range rows.old) }
    ensures counted { IfOk result (λ gone. length rows.new + gone ≡ length rows.old + 1) }
    ensures err { OnErr result (rows.new ≡ rows.old) }
{
    if has_inside(rows, &range.lo, range.hi.as_ref()) {
        replace(rows, range)
    } else {
        put(rows, range)
    }
}

/// Whether a range begins after `lo` and before `hi`; `None` is unbounded.
pub(crate) fn has_inside(rows: &CowMap<Option<Key>>, lo: &Key, hi: Option<&Key>) -> bool
    requires { is_below lo.now (option_copied hi) ≡ true }
    ensures { result ≡ false → spliced (record { lo = lo.now; hi = option_copied hi.entry }) rows.now ≡ insert_entry by_bytes rows.now lo.now (option_copied hi.entry) }
{
    rows.assert_invariant();
    match rows.upper_bound(lo).peek() {
        None => false,
        Some((next, _)) => is_before_end(next, hi),
    }
}

/// Whether a range can be inserted without a merge: no other overlaps its ends, touches it, or begins in it after its low end.
pub(crate) fn fits(rows: &CowMap<Option<Key>>, lo: &Key, hi: Option<&Key>) -> bool
    requires some { is_below lo.now (option_copied hi) ≡ true }
    requires apart { AreApart rows.now }
    ensures { result ≡ true → Fits rows.now lo.now (option_copied hi.entry) }
{
    is_apart(rows, lo, hi) && !has_inside(rows, lo, hi)
}

/// Inserts a range in place of one with the same low end, and returns how many of these there were.
pub(crate) fn put(rows: &mut CowMap<Option<Key>>, range: KeyRange) -> Result<usize, NoMemory>
    ensures ok { OnOk result (rows.new ≡ insert_entry by_bytes rows.old range.lo range.hi) }
    ensures counted { IfOk result (λ gone. length rows.new + gone ≡ length rows.old + 1) }
    ensures err { OnErr result (rows.new ≡ rows.old) }
{
    rows.assert_invariant();
    match rows.put(range.lo, range.hi) {
        Ok(None) => Ok(0),
        Ok(Some(_)) => Ok(1),
        Err(_) => Err(NoMemory),
    }
}

/// `replace_overlapped` on a copy, which shares chunks with the original until this is done.
fn replace(rows: &mut CowMap<Option<Key>>, range: KeyRange) -> Result<usize, NoMemory>
    requires { length rows.old < 2 ^ 63 }
    ensures ok { OnOk result (rows.new ≡ spliced range rows.old) }
    ensures counted { IfOk result (λ gone. length rows.new + gone ≡ length rows.old + 1) }
    ensures err { OnErr result (rows.new ≡ rows.old) }
{
    let mut others = rows.share()?;
    let inside = others.extract_range(&range)?;
    let gone = inside.len();
    let replaced = put(&mut others, range)?;
    *rows = others;
    Ok(gone + replaced)
}
