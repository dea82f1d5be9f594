//! Patches: bytes that overwrite those of a block. Invariant: they end within the 4,096 bytes of the block.
ghost use Rattle.std.specs.Prelude.{◌≡◌, ◌+◌, ◌≤◌, ◌-◌, length, min, IfOk, IfSome, Option, List, ℕ};
ghost use Rattle.block_index.specs.Patches.{is_touching, joined};
ghost use Rattle.reference.specs.Indexes.{overlaid};

use bytes::Bytes;
use pathkey::NoMemory;
use std::alloc::Global;
use std::marker::Model;

/// Bytes that overwrite those of a block from an offset on. They end inside the block.
pub struct Patch {
    off: u16,
    bytes: Bytes,
}

// Written out, as that of `pathkey::Key`.
impl Drop for Patch {
    fn drop(self) {
        let Patch { off: _, bytes: _ } = self;
    }
}

impl Model for Patch {
    ghost use Rattle.std.specs.Prelude.{length, ◌+◌, ◌≤◌};
    ghost use Rattle.block_index.specs.Patches.{Overlay};

    ghost Value = { Overlay };

    ghost view = { λ p. record { off = p.off; bytes = p.bytes } };

    ghost invariant = { λ p. p.off + length p.bytes ≤ 4096 };
}

impl Patch {
    /// The patch of these bytes.
    pub fn new(off: u16, bytes: Bytes) -> Patch
        requires { off + length bytes ≤ 4096 }
        ensures off { result.off ≡ off }
        ensures bytes { result.bytes ≡ bytes }
    {
        Patch { off, bytes }
    }

    /// The offset of its bytes in the block.
    pub fn off(&self) -> usize
        ensures value { result ≡ self.now.off }
        ensures fits { result + length self.now.bytes ≤ 4096 }
    {
        self.off as usize
    }

    /// Its bytes.
    pub fn bytes(&self) -> &[u8]
        ensures { result.now ≡ self.now.bytes }
    {
        self.bytes.as_slice()
    }

    /// Another reference to its bytes.
    pub fn share(&self) -> Result<Bytes, NoMemory>
        ensures { IfOk result (λ b. b ≡ self.now.bytes) }
    {
        Ok(self.bytes.clone()?)
    }

    /// An equal patch: another reference to its bytes.
    pub fn copy(&self) -> Result<Patch, NoMemory>
        ensures { IfOk result (λ p. p ≡ self.now) }
    {
        Ok(Patch {
            off: self.off,
            bytes: self.bytes.clone()?,
        })
    }

    /// This patch and then `later` as one, if each begins at or before the other's end. If the later one covers this one, the
    /// result is the later one.
    pub fn join(&self, alloc: Global, later: &Patch) -> Result<Option<Patch>, NoMemory>
        ensures { IfOk result (λ r. IfSome r (λ p. (old : Option (List ℕ)) → overlaid p.off p.bytes old ≡ overlaid later.now.off later.now.bytes (overlaid self.now.off self.now.bytes old))) }
    {
        let (a, c) = (self.off(), later.off());
        let (v, w) = (self.bytes(), later.bytes());
        if !touches(a, v, c, w) {
            return Ok(None);
        }
        if c <= a && a + v.len() <= c + w.len() {
            return Ok(Some(later.copy()?));
        }
        let bytes = join_bytes(alloc, a, v, c, w)?;
        let shared = Bytes::from_vec(bytes)?;
        Ok(Some(Patch::new(a.min(c) as u16, shared)))
    }
}

/// Whether the bytes `v` from `a` on and `w` from `c` on overlap or are adjacent.
pub(crate) fn touches(a: usize, v: &[u8], c: usize, w: &[u8]) -> bool
    requires short { (a + length v.now ≤ 4096) × (c + length w.now ≤ 4096) }
    ensures { result ≡ is_touching a v.now c w.now }
{
    c <= a + v.len() && a <= c + w.len()
}

/// The bytes `v` from `a` on, overwritten by the bytes `w` from `c` on.
pub(crate) fn join_bytes(
    alloc: Global,
    a: usize,
    v: &[u8],
    c: usize,
    w: &[u8],
) -> Result<Vec<u8>, NoMemory>
    requires meets { c ≤ a + length v.now }
    requires short { (a + length v.now ≤ 4096) × (c + length w.now ≤ 4096) }
    ensures { IfOk result (λ b. b.items ≡ joined a v.now c w.now) }
{
    let before = c.saturating_sub(a);
    let kept = v.len().min((c + w.len()).saturating_sub(a));
    let mut bytes = Vec::with_capacity(alloc, v.len() + w.len())?;
    bytes.extend_from_slice(&v[..before])?;
    bytes.extend_from_slice(w)?;
    bytes.extend_from_slice(&v[kept..])?;
    Ok(bytes)
}
