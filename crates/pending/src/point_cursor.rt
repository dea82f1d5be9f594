//! A cursor over the keys of a list that have messages for them alone.
//!
//! Invariant: if it has entries of the sorted part, these are all from the cursor's key on; the list then has no tail, and no
//! message of its first key is consumed. Otherwise it has no entries, and each key is searched for.
ghost use Rattle.std.specs.Prelude.{◌≡◌, ◌<◌, List, ℕ, true, None, if◌then◌else◌, IfOk, IfSome, IfNone};
ghost use Rattle.std.specs.Option.{option_copied, option_map, is_some};
ghost use Rattle.pathkey.specs.Keys.{next_key};
ghost use Rattle.message.specs.Effects.{effects};
ghost use Rattle.message.specs.PointKeys.{IsNextPoint, is_cleared};
ghost use Rattle.pending.specs.Ahead.{StandsAt, IsMet, IsPassed, BeginPast, entries_left};

use crate::pending::Pending;
use crate::sorted_msgs::unless;
use cow_map::Cursor;
use message::ends::is_before_end;
use message::{Update, UpdateTarget};
use pathkey::{Key, NoMemory};
use point_ops::KeyOps;
use std::alloc::Global;
use std::marker::Model;

/// A cursor over the keys with messages for them alone. Contracts see the messages of the list, and the remaining entries if
/// the cursor iterates over entries.
#[derive(Drop)]
pub struct PointCursor<'a, U: UpdateTarget> {
    pub(crate) list: &'a Pending<U>,
    pub(crate) rest: Option<Cursor<'a, KeyOps<U>>>,
}

impl<'a, U: UpdateTarget> Model for PointCursor<'a, U> {
    ghost use Rattle.std.specs.Prelude.{List, ℕ, Option};
    ghost use Rattle.message.specs.declared.msg.Msg.{Msg};
    ghost use Rattle.point_ops.specs.Changes.{KeyOp};

    ghost Value = { List (Msg U U.Value) × Option (List (List ℕ × List (KeyOp U U.Value))) };

    ghost view = { λ a. (a.list.now.0, a.rest) };
}

/// A key at which a cursor stopped. Contracts see the key, and its pending operations if the cursor iterates over entries.
#[derive(Drop)]
pub struct PointHit<'a, U: UpdateTarget> {
    key: &'a Key,
    run: Option<&'a KeyOps<U>>,
}

impl<'a, U: UpdateTarget> Model for PointHit<'a, U> {
    ghost use Rattle.std.specs.Prelude.{List, ℕ, Option};
    ghost use Rattle.std.specs.Option.{option_copied};
    ghost use Rattle.point_ops.specs.Changes.{KeyOp};

    ghost Value = { List ℕ × Option (List (KeyOp U U.Value)) };

    ghost view = { λ m. (m.key.now, option_copied m.run) };
}

impl<'a, U: Update> PointHit<'a, U> {
    /// The key.
    pub fn key(&self) -> &'a Key
        ensures { result.now ≡ self.now.0 }
    {
        self.key
    }
}

impl<'a, U: Update> PointCursor<'a, U> {
    /// Whether the cursor iterates over entries. It then keeps its position, and [`PointCursor::next_along`] needs no key from
    /// which to continue.
    pub fn goes_along(&self) -> bool
        ensures { result ≡ is_some self.now.1 }
    {
        self.rest.is_some()
    }

    /// The next key of a cursor that iterates over entries, if there is one before `end`. The cursor then moves past it.
    pub fn next_along(&mut self, end: Option<&Key>) -> Option<PointHit<'a, U>>
        requires { is_some self.old.1 ≡ true }
        ensures same { self.new.0 ≡ self.old.0 }
        ensures along { is_some self.new.1 ≡ true }
        ensures fewer { IfSome result (λ m. entries_left self.new.1 < entries_left self.old.1) }
        ensures next { (from : List ℕ) → StandsAt from self.old → IsNextPoint self.old.0 from (option_copied end.entry) (option_map (λ m. m.0) result) }
        ensures stands { (from : List ℕ) → StandsAt from self.old → IfSome result (λ m. StandsAt (next_key m.0) self.new) }
        ensures met { (from : List ℕ) → StandsAt from self.old → IfSome result (λ m. IsMet self.old.0 m) }
    {
        let Some(rest) = &mut self.rest else {
            return None;
        };
        pass_before(rest, end)
    }

    /// Applies the messages to `old`, the older value at the key, and returns the resulting value.
    pub fn value_after(
        &self,
        alloc: Global,
        met: &PointHit<'_, U>,
        old: Option<U::Value>,
    ) -> Result<Option<U::Value>, NoMemory>
        requires { IsMet self.now.0 met.now }
        ensures { IfOk result (λ v. v ≡ effects U.means self.now.0 met.now.0 old) }
    {
        let Some(run) = met.run else {
            return self.list.value_after(alloc, met.key, old);
        };
        let below = self.left_below(met, old);
        run.apply(alloc, 0, below)
    }

    /// The old value, or none if a range-delete covers the key. The range-deletes are searched only if there is a value.
    fn left_below(&self, met: &PointHit<'_, U>, old: Option<U::Value>) -> Option<U::Value>
        ensures { result ≡ (if is_cleared self.now.0 met.now.0 then None else old) }
    {
        if old.is_none() {
            return None;
        }
        unless(self.list.is_range_deleted(met.key), old)
    }
}

/// The first key from `from` up to, but excluding, `end` that has a message for it alone, if there is one. The cursor then
/// moves past it.
pub fn advance<'a: 'b, 'b, U: Update>(
    ahead: &mut PointCursor<'a, U>,
    from: &'b Key,
    end: Option<&'b Key>,
) -> Option<PointHit<'b, U>>
    requires { StandsAt from.now ahead.old }
    ensures same { ahead.new.0 ≡ ahead.old.0 }
    ensures along { is_some ahead.new.1 ≡ is_some ahead.old.1 }
    ensures next { IsNextPoint ahead.old.0 from.now (option_copied end.entry) (option_map (λ m. m.0) result) }
    ensures stands { IfSome result (λ m. StandsAt (next_key m.0) ahead.new) }
    ensures met { IfSome result (λ m. IsMet ahead.old.0 m) }
{
    if let Some(rest) = &mut ahead.rest {
        return pass_before(rest, end);
    }
    match ahead.list.next_point(from, end) {
        None => None,
        Some(key) => Some(PointHit { key, run: None }),
    }
}

/// Moves past the first remaining entry, if its key is before `end`.
fn pass_before<'a, U: Update>(
    rest: &mut Cursor<'a, KeyOps<U>>,
    end: Option<&Key>,
) -> Option<PointHit<'a, U>>
    ensures some { IfSome result (λ m. IsPassed (option_copied end.entry) rest.old rest.new m) }
    ensures none { IfNone result ((rest.new ≡ rest.old) × BeginPast (option_copied end.entry) rest.old) }
{
    let Some((key, run)) = rest.peek() else {
        return None;
    };
    if !is_before_end(key, end) {
        return None;
    }
    rest.next();
    Some(PointHit {
        key,
        run: Some(run),
    })
}
