//! A pending list applied to the pairs of what is below it, in key order.
//!
//! Pairs that no message touches are moved as they are, up to the next key that has a message for it alone.
ghost use Rattle.std.specs.Prelude.{◌≡◌, ◌<◌, ◌+◌, ◌++◌, ◌∷◌, List, ℕ, Some, true, false, length, IfNone, IfSome, OnOk};
ghost use Rattle.std.specs.Option.{option_copied, option_map, option_to_list, is_some};
ghost use Rattle.pathkey.specs.Keys.{is_below, next_key};
ghost use Rattle.message.specs.PointKeys.{IsNextPoint};
ghost use Rattle.pending.specs.Ahead.{IsMet, StandsAt, entries_left};
ghost use Rattle.message.specs.Ranges.{before};
ghost use Rattle.scan.specs.Merging.{AreAll, Merges, Moves, OfAllFrom, StartsFrom, applied};
ghost use Rattle.scan.specs.Stretches.{pair_of};

use message::Update;
use message::ends::is_before_end;
use pathkey::{Key, NoMemory};
use pending::{Pending, PointCursor, PointHit, advance};
use std::alloc::Global;
use std::collections::VecDeque;

/// Pushes what the messages make of the pairs `below`, which are all that exist from `from` up to `end`, until there are `limit`
/// pairs.
pub fn apply_pass<'m, U: Update>(
    alloc: Global,
    list: &'m Pending<U>,
    from: &Key,
    end: Option<&'m Key>,
    below: Vec<(Key, U::Value)>,
    limit: usize,
    pairs: &mut Vec<(Key, U::Value)>,
) -> Result<(), NoMemory>
    ensures { OnOk result (Merges U.means list.now.0 from.now (option_copied end.entry) limit below.items pairs.old.items pairs.new.items) }
{
    let mut rest = VecDeque::from_vec(below);
    let mut at = from.copy(alloc)?;
    let mut ahead = list.walk_points(from);
    'points: while let Some(met) = next_from(&mut ahead, &at, end) {
        push_before(&mut rest, Some(met.key()), limit, pairs)?;
        if pairs.len() >= limit {
            return Ok(());
        }
        push_at(alloc, &ahead, &met, &mut rest, pairs)?;
        if ahead.goes_along() {
            continue;
        }
        at = met.key().next(alloc)?;
    }
    push_before(&mut rest, end, limit, pairs)?;
    Ok(())
}

/// The next key before `end` that has a message of its own, if there is one. The search starts at `at`, unless the walk
/// advances along the entries.
fn next_from<'a: 'b, 'b, U: Update>(
    ahead: &mut PointCursor<'a, U>,
    at: &'b Key,
    end: Option<&'b Key>,
) -> Option<PointHit<'b, U>>
    ensures same { ahead.new.0 ≡ ahead.old.0 }
    ensures along { is_some ahead.new.1 ≡ is_some ahead.old.1 }
    ensures fewer { is_some ahead.old.1 ≡ true → IfSome result (λ m. entries_left ahead.new.1 < entries_left ahead.old.1) }
    ensures point { (here : List ℕ) → StandsAt here ahead.old → (is_some ahead.old.1 ≡ false → here ≡ at.now) → IsNextPoint ahead.old.0 here (option_copied end.entry) (option_map (λ m. m.0) result) }
    ensures stands { (here : List ℕ) → StandsAt here ahead.old → IfSome result (λ m. StandsAt (next_key m.0) ahead.new) }
    ensures met { (here : List ℕ) → StandsAt here ahead.old → IfSome result (λ m. IsMet ahead.old.0 m) }
{
    if ahead.goes_along() {
        return ahead.next_along(end);
    }
    advance(ahead, at, end)
}

/// Moves the pairs before `stop`, until there are `limit` pairs.
fn push_before<V: Drop>(
    rest: &mut VecDeque<(Key, V)>,
    stop: Option<&Key>,
    limit: usize,
    pairs: &mut Vec<(Key, V)>,
) -> Result<(), NoMemory>
    ensures count { OnOk result (length pairs.new.items + length rest.new.items ≡ length pairs.old.items + length rest.old.items) }
    ensures moved { OnOk result (Moves (option_copied stop.entry) limit pairs.old.items pairs.new.items rest.old.items rest.new.items) }
{
    'moves: while pairs.len() < limit {
        let Some(pair) = pop_before(rest, stop) else {
            return Ok(());
        };
        pairs.push(pair)?;
    }
    Ok(())
}

/// Pushes what the messages make of the value at a key that was found, before which there is no pair.
fn push_at<U: Update>(
    alloc: Global,
    ahead: &PointCursor<'_, U>,
    met: &PointHit<'_, U>,
    rest: &mut VecDeque<(Key, U::Value)>,
    pairs: &mut Vec<(Key, U::Value)>,
) -> Result<(), NoMemory>
    requires { IsMet ahead.now.0 met.now }
    ensures pushed { OnOk result (OfAllFrom met.now.0 rest.old.items (λ child end. pairs.new.items ≡ pairs.old.items ++ option_to_list (pair_of met.now.0 (applied U.means ahead.now.0 child met.now.0)))) }
    ensures left { OnOk result (OfAllFrom met.now.0 rest.old.items (λ child end. AreAll child (next_key met.now.0) end rest.new.items)) }
{
    let key = met.key();
    let old = take_by(rest, key);
    let value = ahead.value_after(alloc, met, old)?;
    push_pair(alloc, key, value, pairs)
}

/// Removes the first pair, if it is at the key or before it, and returns its value.
fn take_by<V: Drop>(rest: &mut VecDeque<(Key, V)>, key: &Key) -> Option<V>
    ensures some { IfSome result (λ v. (k : List ℕ) × (rest.old.items ≡ (k, v) ∷ rest.new.items) × (before k (next_key key.now) ≡ true)) }
    ensures none { IfNone result ((rest.new.items ≡ rest.old.items) × StartsFrom (Some (next_key key.now)) rest.old.items) }
{
    let Some((_, value)) = pop_by(rest, key) else {
        return None;
    };
    Some(value)
}

/// Removes the first pair, if it is at the key or before it.
fn pop_by<V: Drop>(rest: &mut VecDeque<(Key, V)>, key: &Key) -> Option<(Key, V)>
    ensures some { IfSome result (λ p. (rest.old.items ≡ p ∷ rest.new.items) × (before p.0 (next_key key.now) ≡ true)) }
    ensures none { IfNone result ((rest.new.items ≡ rest.old.items) × StartsFrom (Some (next_key key.now)) rest.old.items) }
{
    let Some(first) = rest.front() else {
        return None;
    };
    if key.cmp(&first.0).is_lt() {
        return None;
    }
    rest.pop_front()
}

/// Removes the first pair, if it is before `stop`.
fn pop_before<V: Drop>(rest: &mut VecDeque<(Key, V)>, stop: Option<&Key>) -> Option<(Key, V)>
    ensures some { IfSome result (λ p. (rest.old.items ≡ p ∷ rest.new.items) × (is_below p.0 (option_copied stop.entry) ≡ true)) }
    ensures none { IfNone result ((rest.new.items ≡ rest.old.items) × StartsFrom (option_copied stop.entry) rest.old.items) }
{
    let Some(first) = rest.front() else {
        return None;
    };
    if !is_before_end(&first.0, stop) {
        return None;
    }
    rest.pop_front()
}

/// Pushes the key with its value, if there is one.
fn push_pair<V: Drop>(
    alloc: Global,
    key: &Key,
    value: Option<V>,
    pairs: &mut Vec<(Key, V)>,
) -> Result<(), NoMemory>
    ensures { OnOk result (pairs.new.items ≡ pairs.old.items ++ option_to_list (pair_of key.now value)) }
{
    if let Some(value) = value {
        pairs.push((key.copy(alloc)?, value))?;
    }
    Ok(())
}
