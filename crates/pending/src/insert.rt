//! Inserts a message into range-deletes and point messages, newer than all of them.
//!
//! Invariant: no range-delete is newer than a point message that it touches: a new one removes each such message before it is
//! added itself. If its insertion fails to allocate, the message is returned, and applied after the remaining ones it has the
//! effect that it would have had.
ghost use Rattle.std.specs.Prelude.{◌≡◌, ◌+◌, ◌^◌, ◌<◌, ◌≤◌, ◌++◌, [], ◌∷◌, List, length, IfErr, OnOk, OnErr};
ghost use Rattle.message.specs.Effects.{Takes};
ghost use Rattle.message.specs.declared.msg.Msg.TheVariants as msg;
ghost use Rattle.point_ops.specs.PointOps.{point_count, point_msgs};
ghost use Rattle.range_set.specs.Disjoint.{Span};
ghost use Rattle.pending.specs.SortedMsgs.{sorted_msgs, IsFirstEdit, JoinsMsg};

use message::ends::is_before_end;
use message::{Msg, Update};
use pathkey::KeyRange;
use point_ops::{JoinReply, PointOps};
use range_set::RangeSet;
use std::alloc::Global;

/// Inserts a message. On allocation failure it is returned as the error, and the remaining messages followed by it have the
/// effect that all of them had.
#[inline(always)]
pub(crate) fn insert<U: Update>(
    ranges: &mut RangeSet,
    points: &mut PointOps<U>,
    alloc: Global,
    msg: Msg<U>,
) -> Result<(), Msg<U>>
    requires { length ranges.old + point_count points.old < 2 ^ 62 }
    ensures takes { OnOk result (Takes U.means (sorted_msgs ranges.old points.old) (msg ∷ []) (sorted_msgs ranges.new points.new)) }
    ensures refused { OnErr result (Takes U.means (sorted_msgs ranges.old points.old) (msg ∷ []) (sorted_msgs ranges.new points.new ++ msg ∷ [])) }
    ensures back { IfErr result (λ m. m ≡ msg) }
{
    points.assert_invariant();
    match msg {
        Msg::Put(key, value) => match points.put(key, value) {
            Ok(()) => {
                points.assert_invariant();
                Ok(())
            }
            Err((key, value)) => Err(Msg::Put(key, value)),
        },
        Msg::Del(key) => match points.del(key) {
            Ok(()) => {
                points.assert_invariant();
                Ok(())
            }
            Err(key) => Err(Msg::Del(key)),
        },
        Msg::DelRange(range) => del_range(ranges, points, alloc, range),
        Msg::Edit(key, update) => match points.edit(alloc, key, update) {
            Ok(()) => {
                points.assert_invariant();
                Ok(())
            }
            Err((key, update)) => Err(Msg::Edit(key, update)),
        },
    }
}

/// Inserts an update of a key that has no operation. On allocation failure it is returned as the error, and everything is
/// unchanged.
#[inline(always)]
pub(crate) fn insert_first<U: Update>(points: &mut PointOps<U>, msg: Msg<U>) -> Result<(), Msg<U>>
    requires room { point_count points.old < 2 ^ 62 }
    requires first { IsFirstEdit msg (point_msgs points.old) }
    ensures takes { OnOk result ((rs : List Span) → Takes U.means (sorted_msgs rs points.old) (msg ∷ []) (sorted_msgs rs points.new)) }
    ensures bound { point_count points.new ≤ point_count points.old + 1 }
    ensures unchanged { OnErr result (points.new ≡ points.old) }
    ensures back { IfErr result (λ m. m ≡ msg) }
{
    points.assert_invariant();
    let Msg::Edit(key, update) = msg else {
        unreachable!()
    };
    match points.edit_absent(key, update) {
        Ok(()) => {
            points.assert_invariant();
            Ok(())
        }
        Err((key, update)) => Err(Msg::Edit(key, update)),
    }
}

/// Joins an update, in place, to the only operation of its key. If it does not, everything is unchanged.
#[inline(always)]
pub(crate) fn join<U: Update>(points: &mut PointOps<U>, alloc: Global, msg: &Msg<U>) -> JoinReply
    ensures joined { (rs : List Span) → JoinsMsg U.means result msg.now (sorted_msgs rs points.old) (sorted_msgs rs points.new) }
    ensures count { point_count points.new ≡ point_count points.old }
{
    let Msg::Edit(key, update) = msg else {
        return JoinReply::Apart;
    };
    points.assert_invariant();
    let joined = points.join(alloc, key, update);
    points.assert_invariant();
    joined
}

/// Inserts a range-delete: it removes the older point messages and range-deletes inside it, and is merged with older
/// range-deletes that overlap its ends or touch them. On allocation failure the point messages may already be removed.
fn del_range<U: Update>(
    ranges: &mut RangeSet,
    points: &mut PointOps<U>,
    alloc: Global,
    range: KeyRange,
) -> Result<(), Msg<U>>
    requires { length ranges.old + point_count points.old < 2 ^ 62 }
    ensures takes { OnOk result (Takes U.means (sorted_msgs ranges.old points.old) (msg.DelRange range ∷ []) (sorted_msgs ranges.new points.new)) }
    ensures refused { OnErr result (Takes U.means (sorted_msgs ranges.old points.old) (msg.DelRange range ∷ []) (sorted_msgs ranges.new points.new ++ msg.DelRange range ∷ [])) }
    ensures back { IfErr result (λ m. m ≡ msg.DelRange range) }
{
    if !is_before_end(&range.lo, range.hi.as_ref()) {
        return Ok(());
    }
    points.assert_invariant();
    let Ok(()) = points.clear(&range) else {
        return Err(Msg::DelRange(range));
    };
    points.assert_invariant();
    let Ok(()) = ranges.insert(alloc, &range) else {
        return Err(Msg::DelRange(range));
    };
    Ok(())
}
