//! Paths, each stored as its key.
//!
//! Invariant: the stored key is the encoding of valid names, so it can be decoded, and the length limits of names and texts hold.
ghost use Rattle.std.specs.Prelude.{◌≡◌, ◌≤◌, [], ◌∷◌, ◌++◌, length, map, IfOk, MatchOption, Ok, true, false};
ghost use Rattle.std.specs.Option.{option_copied};
ghost use Rattle.pathkey.specs.Names.{IsPath, is_root, parent_path, last_name, is_under, same_path};
ghost use Rattle.pathkey.specs.Enc.{enc};
ghost use Rattle.pathkey.specs.Texts.{names_of, null_for_slash, parsed};
ghost use Rattle.pathkey.specs.PlainTexts.{is_plain};
ghost use Rattle.pathkey.specs.PathKeys.{IsPathKey};
ghost use Rattle.pathkey.specs.Outcomes.{IsOrLacksMemory};

use crate::components::{LONGEST_NAME, after_last, are_plain, check_components};
use crate::errno::{Errno, NoMemory};
use crate::key::Key;
use crate::names::Names;
use std::alloc::Global;
use std::fmt;
use std::marker::Model;

/// The maximum length of a path's text in bytes.
pub(crate) const LONGEST_TEXT: usize = 1023;

/// An absolute path, which contracts see as the list of its names.
///
/// It stores its own key, so that a lookup need not build one.
pub struct Path {
    key: Key,
}

// Drop is implemented by hand, as for `pathkey::Key`.
impl Drop for Path {
    fn drop(self) {
        let Path { key: _ } = self;
    }
}

impl Model for Path {
    ghost use Rattle.std.specs.Prelude.{List, ℕ};
    ghost use Rattle.pathkey.specs.Texts.{names_of};
    ghost use Rattle.pathkey.specs.PathKeys.{IsPathKey};

    ghost Value = { List (List ℕ) };

    ghost view = { λ p. names_of p.key };

    ghost invariant = { λ p. IsPathKey p.key };
}

impl Path {
    /// The root. It allocates nothing.
    pub fn root(alloc: Global) -> Path
        ensures { result ≡ [] }
    {
        Path::of_key(Key::new(alloc))
    }

    /// Parses a text such as `/a/b`.
    pub fn parse(alloc: Global, text: &[u8]) -> Result<Path, Errno>
        ensures { IsOrLacksMemory result (parsed text.now) }
    {
        let Some((first, rest)) = text.split_first() else {
            return Err(Errno::ENOENT);
        };
        if *first != b'/' {
            return Err(Errno::EINVAL);
        }
        if rest.is_empty() {
            return Ok(Path::root(alloc));
        }
        check_components(rest, b'/')?;
        if text.len() > LONGEST_TEXT {
            return Err(Errno::ENAMETOOLONG);
        }
        let key = Key::of_text(alloc, rest)?;
        Ok(Path::of_key(key))
    }

    /// Parses a plain text; `None` if the text is not plain. It is `parse` for texts that need no decoding, in one pass over
    /// the names.
    pub fn parse_plain(alloc: Global, text: &[u8]) -> Result<Option<Path>, NoMemory>
        ensures { IfOk result (λ path. MatchOption path (is_plain text.now ≡ false) (λ p. (is_plain text.now ≡ true) × (Ok p ≡ parsed text.now))) }
    {
        let Some((b'/', names)) = text.split_first() else {
            return Ok(None);
        };
        if text.len() > LONGEST_NAME || !are_plain(names) {
            return Ok(None);
        }
        let key = short_key(alloc, names)?;
        Ok(Some(Path::of_key(key)))
    }

    // The path with this key.
    pub(crate) fn of_key(key: Key) -> Path
        requires { IsPathKey key }
        ensures { result ≡ names_of key }
    {
        Path { key }
    }

    /// Clones the path.
    pub fn copy(&self, alloc: Global) -> Result<Path, NoMemory>
        ensures { IfOk result (λ p. p ≡ self.now) }
    {
        let key = self.key.copy(alloc)?;
        Ok(Path { key })
    }

    /// The path's key: each name followed by a byte 0.
    pub fn key(&self) -> &Key
        ensures value { result.now ≡ enc self.now }
        ensures valid { IsPath self.now }
    {
        &self.key
    }

    /// Converts the path into its key.
    pub fn into_key(self) -> Key
        ensures value { result ≡ enc self }
        ensures valid { IsPath self }
    {
        let Path { key } = self;
        key
    }

    /// The path's names, from the root down.
    pub fn names(&self) -> Names<'_>
        ensures value { result ≡ self.now }
        ensures valid { IsPath self.now }
    {
        Names::of_key(self.key.as_bytes())
    }

    /// Whether the path is the root.
    pub fn is_root(&self) -> bool
        ensures { result ≡ is_root self.now }
    {
        self.key.as_bytes().is_empty()
    }

    /// The last name; none for the root.
    pub fn last(&self) -> Option<&[u8]>
        ensures { option_copied result ≡ last_name self.now }
    {
        let (_, names) = self.key.as_bytes().split_last()?;
        Some(after_last(names, 0))
    }

    /// The path without its last name; none for the root.
    pub fn parent(&self, alloc: Global) -> Result<Option<Path>, NoMemory>
        ensures { IfOk result (λ parent. parent ≡ parent_path self.now) }
    {
        let Some(last) = self.last() else {
            return Ok(None);
        };
        let bytes = self.key().as_bytes();
        let key = Key::from_bytes(alloc, &bytes[..bytes.len() - last.len() - 1])?;
        Ok(Some(Path::of_key(key)))
    }

    /// Whether the path is `other` or is below it.
    pub fn is_under(&self, other: &Path) -> bool
        ensures { result ≡ is_under other.now self.now }
    {
        self.key().as_bytes().starts_with(other.key().as_bytes())
    }

    /// Whether the two paths are equal.
    pub fn is_same(&self, other: &Path) -> bool
        ensures { result ≡ same_path self.now other.now }
    {
        other.is_under(self) && self.is_under(other)
    }
}

// The key of a short text after its first slash. The bytes are first written to an array, since one copy of many bytes takes
// fewer steps than a push of each.
fn short_key(alloc: Global, names: &[u8]) -> Result<Key, NoMemory>
    requires { length names.now ≤ 254 }
    ensures { IfOk result (λ k. k ≡ map null_for_slash names.now ++ 0 ∷ []) }
{
    let mut bytes = [0; LONGEST_NAME];
    let len = names.len();
    for index in 0..len {
        bytes[index] = if names[index] == b'/' {
            0
        } else {
            names[index]
        };
    }
    bytes[len] = 0;
    Key::from_bytes(alloc, &bytes[..len + 1])
}

/// The path's text in quotes, with the escapes of a byte string.
impl fmt::Debug for Path {
    fn fmt<W: fmt::Write>(&self, f: &mut fmt::Formatter<W>) -> fmt::Result {
        f.write_str("\"/")?;
        let key = self.key.as_bytes();
        if let Some((_, names)) = key.split_last() {
            show_names(names, f)?;
        }
        f.write_str("\"")
    }
}

// The names of the path whose key is these bytes and a byte 0.
fn show_names<W: fmt::Write>(names: &[u8], f: &mut fmt::Formatter<W>) -> fmt::Result {
    for &byte in names {
        match byte {
            0 => f.write_str("/")?,
            b'\\' | b'"' => write!(f, "\\{}", byte as char)?,
            0x20..=0x7e => write!(f, "{}", byte as char)?,
            _ => write!(f, "\\x{byte:02x}")?,
        }
    }
    Ok(())
}
