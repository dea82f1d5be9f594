//! Names of snapshots.
//!
//! Invariant: a name is 1 to 64 bytes of ASCII letters, digits, `.`, `_` and `-`.
ghost use Rattle.std.specs.Prelude.{◌≡◌, IfOk, IsTrue};
ghost use Rattle.std.specs.List.{list_all};
ghost use Rattle.std.specs.Cmp.{partial_order_from_agreeing_total};
ghost use Rattle.std.specs.Ordering.{as_partial_cmp, eq_by_cmp};
ghost use Rattle.std.proofs.Common.{refl};
ghost use Rattle.pathkey.specs.Order.{by_bytes, by_bytes_total, by_bytes_equiv, by_bytes_partial_equiv};
ghost use Rattle.pathkey.specs.SnapNames.{is_snap_byte, is_snap_name, snap_parsed};
ghost use Rattle.pathkey.specs.Outcomes.{IsOrLacksMemory};

use crate::errno::{Errno, NoMemory};
use crate::key::Key;
use std::alloc::Global;
use std::cmp::Ordering;
use std::fmt;
use std::marker::Model;

/// The maximum length of a snapshot's name in bytes.
const LONGEST: usize = 64;

/// A snapshot's name, which contracts see as its bytes.
///
/// Names are in byte order, so the bytes are stored as a key.
pub struct SnapName {
    bytes: Key,
}

// Drop is implemented by hand, as for `pathkey::Key`.
impl Drop for SnapName {
    fn drop(self) {
        let SnapName { bytes: _ } = self;
    }
}

impl Model for SnapName {
    ghost use Rattle.std.specs.Prelude.{List, ℕ, IsTrue};
    ghost use Rattle.pathkey.specs.SnapNames.{is_snap_name};

    ghost Value = { List ℕ };

    ghost view = { λ s. s.bytes };

    ghost invariant = { λ s. IsTrue (is_snap_name s.bytes) };
}

impl SnapName {
    /// Parses a snapshot's name.
    pub fn parse(alloc: Global, text: &[u8]) -> Result<SnapName, Errno>
        ensures { IsOrLacksMemory result (snap_parsed text.now) }
    {
        if !is_snap_name(text) {
            return Err(Errno::EINVAL);
        }
        let bytes = Key::from_bytes(alloc, text)?;
        Ok(SnapName { bytes })
    }

    /// Clones the name.
    pub fn copy(&self, alloc: Global) -> Result<SnapName, NoMemory>
        ensures { IfOk result (λ name. name ≡ self.now) }
    {
        let bytes = self.bytes.copy(alloc)?;
        Ok(SnapName { bytes })
    }

    /// The name's bytes.
    pub fn as_bytes(&self) -> &[u8]
        ensures value { result.now ≡ self.now }
        ensures valid { IsTrue (is_snap_name self.now) }
    {
        self.bytes.as_bytes()
    }
}

// Whether a text is a valid snapshot name.
fn is_snap_name(text: &[u8]) -> bool
    ensures { result ≡ is_snap_name text.now }
{
    !text.is_empty() && text.len() <= LONGEST && has_snap_bytes(text)
}

// Whether each byte may occur in a snapshot's name.
fn has_snap_bytes(text: &[u8]) -> bool
    ensures { result ≡ list_all is_snap_byte text.now }
{
    text.iter().all(|byte| is_snap_byte(*byte))
}

fn is_snap_byte(byte: u8) -> bool
    ensures { result ≡ is_snap_byte byte }
{
    matches!(byte, b'a'..=b'z' | b'A'..=b'Z' | b'0'..=b'9' | b'.' | b'_' | b'-')
}

impl PartialEq for SnapName {
    ghost eq = { eq_by_cmp by_bytes };

    ghost laws = { by_bytes_partial_equiv };

    fn eq(&self, other: &SnapName) -> bool {
        self.cmp(other) == Ordering::Equal
    }
}

impl Eq for SnapName {
    ghost laws = { by_bytes_equiv };
}

impl PartialOrd for SnapName {
    ghost partial_cmp = { as_partial_cmp by_bytes };

    ghost laws = { partial_order_from_agreeing_total by_bytes by_bytes_total (λ x y. refl) (λ x y. refl) };

    fn partial_cmp(&self, other: &SnapName) -> Option<Ordering> {
        Some(self.cmp(other))
    }
}

impl Ord for SnapName {
    ghost cmp = { by_bytes };

    ghost total = { by_bytes_total };

    ghost matches_partial_cmp = { λ x y. refl };

    ghost matches_eq = { λ x y. refl };

    fn cmp(&self, other: &SnapName) -> Ordering {
        self.bytes.cmp(&other.bytes)
    }
}

/// The name in quotes.
impl fmt::Debug for SnapName {
    fn fmt<W: fmt::Write>(&self, f: &mut fmt::Formatter<W>) -> fmt::Result {
        f.write_str("\"")?;
        for &byte in self.as_bytes() {
            write!(f, "{}", byte as char)?;
        }
        f.write_str("\"")
    }
}
