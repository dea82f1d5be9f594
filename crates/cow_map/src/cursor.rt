//! A cursor through entries, in the order of their keys.
//!
//! Invariant: no later chunk is empty, and there are later ones only if the current chunk has an entry left. So the next entry is
//! found without a search.
ghost use Rattle.std.specs.Prelude.{◌≡◌, ◌++◌, [], IfNone};
ghost use Rattle.std.specs.Option.{option_map, option_to_list};
ghost use Rattle.std.specs.List.{slice_get};
ghost use Rattle.cow_map.specs.CowMap.{joined, AreSized};

use crate::chunk::Chunk;
use crate::shared_entry::SharedEntry;
use crate::stored::CopyValue;
use pathkey::Key;
use std::marker::Model;

/// The entries that a cursor has not yet returned. Contracts see the list of them.
#[derive(Drop)]
pub struct Cursor<'a, T> {
    entries: &'a [SharedEntry<T>],
    later: &'a [Chunk<T>],
}

impl<'a, T> Model for Cursor<'a, T> {
    ghost use Rattle.std.specs.Prelude.{List, ℕ, ◌≡◌, ◌++◌, length};
    ghost use Rattle.cow_map.specs.CowMap.{joined, AreSized};

    ghost Value = { List (List ℕ × T) };

    ghost view = { λ w. w.entries.now ++ joined w.later.now };

    ghost invariant = { λ w. AreSized w.later.now × (length w.entries.now ≡ 0 → length w.later.now ≡ 0) };
}

impl<'a, T: CopyValue> Cursor<'a, T> {
    /// A cursor through entries, and then through chunks.
    pub(crate) fn of(entries: &'a [SharedEntry<T>], later: &'a [Chunk<T>]) -> Cursor<'a, T>
        requires { AreSized later.now }
        ensures { result ≡ entries.now ++ joined later.now }
    {
        if !entries.is_empty() {
            return Cursor { entries, later };
        }
        match later.split_first() {
            None => Cursor { entries, later },
            Some((row, later)) => Cursor {
                entries: row.entries(),
                later,
            },
        }
    }

    /// The next entry in its shared form, without advancing.
    pub(crate) fn first(&self) -> Option<&'a SharedEntry<T>>
        ensures { option_map (λ i. i.now) result ≡ slice_get self.now 0 }
    {
        self.entries.first()
    }

    /// The next entry, without advancing.
    pub fn peek(&self) -> Option<(&'a Key, &'a T)>
        ensures { option_map (λ p. (p.0.now, p.1.now)) result ≡ slice_get self.now 0 }
    {
        match self.entries.first() {
            None => None,
            Some(item) => Some((item.key(), item.value())),
        }
    }

    /// Advances past the next entry.
    pub fn next(&mut self) -> Option<(&'a Key, &'a T)>
        ensures passed { self.old ≡ option_to_list (option_map (λ p. (p.0.now, p.1.now)) result) ++ self.new }
        ensures end { IfNone result (self.old ≡ []) }
    {
        match self.entries.split_first() {
            None => None,
            Some((item, entries)) => {
                *self = Cursor::of(entries, self.later);
                Some((item.key(), item.value()))
            }
        }
    }
}
