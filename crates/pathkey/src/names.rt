//! The names of a path, from the root down.
//!
//! Invariant: the bytes that remain are the encoding of the names that remain, each followed by a byte 0.
ghost use Rattle.std.specs.Prelude.{◌≡◌, [], ◌∷◌, MatchOption};
ghost use Rattle.pathkey.specs.Names.{IsName};
ghost use Rattle.pathkey.specs.Texts.{names_of};
ghost use Rattle.pathkey.specs.PathKeys.{SpellsNames};

use crate::components::split_at_byte;
use std::marker::Model;

/// An iterator over a path's names. Contracts see it as the list of those that remain.
///
/// It borrows the path's bytes and allocates nothing.
#[derive(Drop)]
pub struct Names<'a> {
    rest: &'a [u8],
}

impl<'a> Model for Names<'a> {
    ghost use Rattle.std.specs.Prelude.{List, ℕ};
    ghost use Rattle.pathkey.specs.Texts.{names_of};
    ghost use Rattle.pathkey.specs.PathKeys.{SpellsNames};

    ghost Value = { List (List ℕ) };

    ghost view = { λ s. names_of s.rest.now };

    ghost invariant = { λ s. SpellsNames s.rest.now };
}

impl<'a> Names<'a> {
    // The names that a key encodes.
    pub(crate) fn of_key(key: &'a [u8]) -> Names<'a>
        requires { SpellsNames key.now }
        ensures { result ≡ names_of key.now }
    {
        Names { rest: key }
    }

    /// The first name and the names after it; `None` if none remains.
    pub fn split_first(self) -> Option<(&'a [u8], Names<'a>)>
        ensures { MatchOption result (self.entry ≡ []) (λ first. (self.entry ≡ first.0.now ∷ first.1) × IsName first.0.now) }
    {
        let (name, rest) = split_at_byte(self.rest, 0)?;
        Some((name, Names { rest }))
    }
}
