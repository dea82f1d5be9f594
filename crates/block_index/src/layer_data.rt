//! Stacks of layers: several updates of one block in one.
//!
//! Invariant: the bytes of every layer are within the shared byte list and end within the block, and all of them
//! together have at most 4,096 bytes.
ghost use Rattle.std.specs.Prelude.{◌≡◌, ◌+◌, ◌-◌, ◌≤◌, ◌++◌, [], ◌∷◌, List, ℕ, Option, Some, None, true, false, length, map, drop, ◌<◌, if◌then◌else◌, IfOk, IfSome, OnErr, OnOk};
ghost use Rattle.block_index.specs.Layers.{AreInside, Follows, IsApplied, Layered, clipped, cut_by, with_layers, layer_in, layered};
ghost use Rattle.block_index.specs.Patches.{Overlay};
ghost use Rattle.reference.specs.Indexes.{held, overlaid, shortened};
ghost use Rattle.std.specs.Option.{option_map};

use crate::block_bytes::overlay;
use crate::new_layer::NewLayer;
use pathkey::NoMemory;
use std::alloc::Global;
use std::marker::Model;

/// The maximum number of layers.
const MOST: usize = 128;

/// The offset of a layer in the block, the position of its bytes among those of all layers, and their number.
#[derive(Clone, Copy)]
pub struct Extent {
    pub(crate) off: u16,
    pub(crate) start: u16,
    pub(crate) len: u16,
}

/// A cut of a block, if there is one, and then layers: bytes that overwrite it at several places.
///
/// The first layer is the newest: it overwrites all others. A new one absorbs the layers that it touches, so that each byte of
/// the block is in a layer only once. The bytes of those that were absorbed are unused until they are half of all.
pub struct LayerData {
    cut: Option<u16>,
    extents: Vec<Extent>,
    bytes: Vec<u8>,
    idle: usize,
}

// Written out, as that of `pathkey::Key`.
impl Drop for LayerData {
    fn drop(self) {
        let LayerData {
            cut: _,
            extents: _,
            bytes: _,
            idle: _,
        } = self;
    }
}

impl Model for LayerData {
    ghost use Rattle.std.specs.Prelude.{length, map, ◌≤◌};
    ghost use Rattle.block_index.specs.Layers.{AreInside, Layered, layer_in};

    ghost Value = { Layered };

    ghost view = { λ l. record { cut = l.cut; layers = map (layer_in l.bytes.items) l.extents.items } };

    ghost invariant = { λ l. AreInside l.bytes.items l.extents.items × (length l.bytes.items ≤ 4096) };
}

impl LayerData {
    /// No layer, over a block that is cut to `cut` bytes, if it is.
    pub(crate) fn new(alloc: Global, cut: Option<u16>) -> LayerData
        ensures { result ≡ record { cut = cut; layers = [] } }
    {
        LayerData {
            cut,
            extents: Vec::new(alloc),
            bytes: Vec::new(alloc),
            idle: 0,
        }
    }

    /// No layer, with capacity for `extents` of them and for `bytes` bytes.
    fn with_room(
        alloc: Global,
        cut: Option<u16>,
        extents: usize,
        bytes: usize,
    ) -> Result<LayerData, NoMemory>
        ensures { IfOk result (λ l. l ≡ record { cut = cut; layers = [] }) }
    {
        let extents = Vec::with_capacity(alloc, extents)?;
        let bytes = Vec::with_capacity(alloc, bytes)?;
        Ok(LayerData {
            cut,
            extents,
            bytes,
            idle: 0,
        })
    }

    /// Overwrites the block with bytes from `off` on, newer than all layers. If there would be too many layers, or an allocation
    /// fails, nothing is changed.
    pub(crate) fn apply_patch(
        &mut self,
        alloc: Global,
        off: usize,
        new: &[u8],
    ) -> Result<(), NoMemory>
        requires { off + length new.now ≤ 4096 }
        ensures ok { OnOk result (IsApplied off new.now self.old self.new) }
        ensures err { OnErr result (self.new ≡ self.old) }
    {
        if self.extents.len() >= MOST {
            return Err(NoMemory);
        }
        let touched = touched(self.extents.as_slice(), off, new);
        if touched == 0 {
            return self.put(alloc, off, new);
        }
        let idle = self.idle.saturating_add(touched);
        if idle <= self.bytes.len() / 2 {
            self.absorb_touching(alloc, off, new, idle)
        } else {
            self.pack(alloc, off, new)
        }
    }

    /// Puts a layer above all others.
    fn put(&mut self, alloc: Global, off: usize, new: &[u8]) -> Result<(), NoMemory>
        requires { off + length new.now ≤ 4096 }
        ensures ok { OnOk result (IsApplied off new.now self.old self.new) }
        ensures err { OnErr result (self.new ≡ self.old) }
    {
        let start = self.bytes.len();
        if start + new.len() > 4096 {
            return self.pack(alloc, off, new);
        }
        self.extents.reserve(1)?;
        self.bytes.extend_from_slice(new)?;
        let extent = Extent {
            off: off as u16,
            start: start as u16,
            len: new.len() as u16,
        };
        let Ok(()) = self.extents.insert(0, extent) else {
            unreachable!()
        };
        Ok(())
    }

    /// Puts a layer in place of those that it touches, below all others, which it does not touch. The bytes of the former stay,
    /// and `idle` bytes then belong to no layer.
    fn absorb_touching(
        &mut self,
        alloc: Global,
        off: usize,
        new: &[u8],
        idle: usize,
    ) -> Result<(), NoMemory>
        requires { off + length new.now ≤ 4096 }
        ensures ok { OnOk result (IsApplied off new.now self.old self.new) }
        ensures err { OnErr result (self.new ≡ self.old) }
    {
        let bytes = self.bytes.as_slice();
        let mut extents = Vec::with_capacity(alloc, self.extents.len() + 1)?;
        extents.extend_from_slice(self.extents.as_slice())?;
        let mut top = NewLayer::copied(alloc, off, new)?;
        take_all(alloc, &mut extents, bytes, &mut top)?;
        let start = bytes.len();
        let run = top.bytes();
        if start + run.len() > 4096 {
            return self.pack(alloc, off, new);
        }
        extents.push(Extent {
            off: top.off() as u16,
            start: start as u16,
            len: run.len() as u16,
        })?;
        self.bytes.extend_from_slice(run)?;
        self.extents = extents;
        self.idle = idle;
        Ok(())
    }

    /// Overwrites the block with bytes, and leaves out those that are unused.
    fn pack(&mut self, alloc: Global, off: usize, new: &[u8]) -> Result<(), NoMemory>
        requires { off + length new.now ≤ 4096 }
        ensures ok { OnOk result (IsApplied off new.now self.old self.new) }
        ensures err { OnErr result (self.new ≡ self.old) }
    {
        let (extents, bytes) = (self.extents.as_slice(), self.bytes.as_slice());
        let room = (bytes.len() + new.len()).min(4096);
        let none = LayerData::with_room(alloc, self.cut, extents.len() + 1, room)?;
        match joined(alloc, none, extents, bytes, off, new)? {
            Some(all) => {
                *self = all;
                Ok(())
            }
            None => Err(NoMemory),
        }
    }

    /// These layers and then a cut to `n` bytes.
    pub(crate) fn cut_to(&self, alloc: Global, n: u16) -> Result<LayerData, NoMemory>
        ensures { IfOk result (Follows (shortened n) self.now) }
    {
        let cut = match self.cut {
            Some(m) => m.min(n),
            None => n,
        };
        let first = LayerData::new(alloc, Some(cut));
        concat_layers(
            alloc,
            first,
            self.extents.as_slice(),
            self.bytes.as_slice(),
            n as usize,
        )
    }

    /// These layers and then others. It also fails if there would be too many.
    pub(crate) fn composed(&self, alloc: Global, later: &LayerData) -> Result<LayerData, NoMemory>
        ensures { IfOk result (Follows (layered later.now) self.now) }
    {
        let first = match later.cut {
            Some(n) => self.cut_to(alloc, n)?,
            None => self.copy(alloc)?,
        };
        concat_layers(
            alloc,
            first,
            later.extents.as_slice(),
            later.bytes.as_slice(),
            4096,
        )
    }

    /// Equal layers.
    pub(crate) fn copy(&self, alloc: Global) -> Result<LayerData, NoMemory>
        ensures { IfOk result (λ l. l ≡ self.now) }
    {
        let mut extents = Vec::with_capacity(alloc, self.extents.len())?;
        extents.extend_from_slice(self.extents.as_slice())?;
        let mut bytes = Vec::with_capacity(alloc, self.bytes.len())?;
        bytes.extend_from_slice(self.bytes.as_slice())?;
        Ok(LayerData {
            cut: self.cut,
            extents,
            bytes,
            idle: self.idle,
        })
    }

    /// Puts a layer below all others, and returns whether there was space for it.
    fn push(&mut self, alloc: Global, off: usize, run: &[u8]) -> Result<bool, NoMemory>
        requires { off + length run.now ≤ 4096 }
        ensures { IfOk result (λ fits. self.new ≡ (if fits then record { cut = self.old.cut; layers = self.old.layers ++ record { off = off; bytes = run.now } ∷ [] } else self.old)) }
    {
        let start = self.bytes.len();
        if start + run.len() > 4096 {
            return Ok(false);
        }
        self.bytes.extend_from_slice(run)?;
        self.extents.push(Extent {
            off: off as u16,
            start: start as u16,
            len: run.len() as u16,
        })?;
        Ok(true)
    }

    /// The bytes of the block `old` with these layers applied; `None` if there is no block then.
    pub(crate) fn over(
        &self,
        alloc: Global,
        old: Option<&[u8]>,
    ) -> Result<Option<Vec<u8>>, NoMemory>
        requires { IfSome old (λ b. length b.now ≤ 4096) }
        ensures value { IfOk result (λ r. option_map (λ v. v.items) r ≡ layered self.now (option_map (λ b. b.now) old.entry)) }
        ensures short { IfOk result (λ r. IfSome r (λ v. length v.items ≤ 4096)) }
    {
        let own = match old {
            Some(bytes) => cut_bytes(alloc, self.cut, bytes)?,
            None if self.extents.is_empty() => return Ok(None),
            None => Vec::new(alloc),
        };
        let all = apply_all(alloc, own, self.extents.as_slice(), self.bytes.as_slice())?;
        Ok(Some(all))
    }
}

/// The number of bytes in the layers that overlap the bytes `new` from `off` on, or are adjacent to them.
fn touched(extents: &[Extent], off: usize, new: &[u8]) -> usize
    requires { off + length new.now ≤ 4096 }
{
    let end = off + new.len();
    let mut count: usize = 0;
    for extent in extents {
        let first = extent.off as usize;
        if off <= first + extent.len as usize && first <= end {
            count = count.saturating_add(extent.len as usize);
        }
    }
    count
}

/// The bytes of a layer among those of all.
fn run_of(bytes: &[u8], extent: Extent) -> &[u8]
    requires { extent.start + extent.len ≤ length bytes.now }
    ensures { result.now ≡ (layer_in bytes.now extent).bytes }
{
    let start = extent.start as usize;
    &bytes[start..start + extent.len as usize]
}

/// A layer: its offset in the block, and its bytes.
fn layer_at<'a>(extents: &[Extent], bytes: &'a [u8], i: usize) -> (usize, &'a [u8])
    requires inside { AreInside bytes.now extents.now }
    requires there { i < length extents.now }
    ensures at { drop i (map (layer_in bytes.now) extents.now) ≡ record { off = result.0; bytes = result.1.now } ∷ drop (i + 1) (map (layer_in bytes.now) extents.now) }
    ensures fits { result.0 + length result.1.now ≤ 4096 }
{
    let extent = extents[i];
    (extent.off as usize, run_of(bytes, extent))
}

/// Layers with a new one that absorbs those that it touches. It is below all others, which it does not touch.
fn joined(
    alloc: Global,
    none: LayerData,
    extents: &[Extent],
    bytes: &[u8],
    off: usize,
    new: &[u8],
) -> Result<Option<LayerData>, NoMemory>
    requires none { none.layers ≡ [] }
    requires inside { AreInside bytes.now extents.now }
    requires fits { off + length new.now ≤ 4096 }
    ensures { IfOk result (λ r. IfSome r (λ l. (l.cut ≡ none.cut) × ((old : Option (List ℕ)) → with_layers l.layers old ≡ overlaid off new.now (with_layers (map (layer_in bytes.now) extents.now) old)))) }
{
    let mut kept = none;
    let mut top = NewLayer::copied(alloc, off, new)?;
    let mut at = 0;
    'each: while at < extents.len() {
        let (first, run) = layer_at(extents, bytes, at);
        if !take_or_keep(alloc, &mut kept, &mut top, first, run)? {
            return Ok(None);
        }
        at += 1;
    }
    if !kept.push(alloc, top.off(), top.bytes())? {
        return Ok(None);
    }
    Ok(Some(kept))
}

/// Absorbs an older layer into `top` if they touch, and otherwise adds it to `kept`; `false` if there was no space for it.
fn take_or_keep(
    alloc: Global,
    kept: &mut LayerData,
    top: &mut NewLayer,
    off: usize,
    run: &[u8],
) -> Result<bool, NoMemory>
    requires { off + length run.now ≤ 4096 }
    ensures cut { IfOk result (λ fits. fits ≡ true → kept.new.cut ≡ kept.old.cut) }
    ensures all { IfOk result (λ fits. fits ≡ true → (o : Option (List ℕ)) → with_layers kept.new.layers (overlaid top.new.off top.new.bytes o) ≡ with_layers kept.old.layers (overlaid top.old.off top.old.bytes (overlaid off run.now o))) }
{
    if top.take(alloc, off, run)? {
        return Ok(true);
    }
    kept.push(alloc, off, run)
}

/// Absorbs into a layer those that it touches, which are removed from the others.
fn take_all(
    alloc: Global,
    extents: &mut Vec<Extent>,
    bytes: &[u8],
    top: &mut NewLayer,
) -> Result<(), NoMemory>
    requires { AreInside bytes.now extents.old.items }
    ensures inside { OnOk result (AreInside bytes.now extents.new.items) }
    ensures all { OnOk result ((o : Option (List ℕ)) → with_layers (map (layer_in bytes.now) extents.new.items) (overlaid top.new.off top.new.bytes o) ≡ overlaid top.old.off top.old.bytes (with_layers (map (layer_in bytes.now) extents.old.items) o)) }
{
    let mut at = 0;
    'each: while at < extents.len() {
        let (first, run) = layer_at(extents.as_slice(), bytes, at);
        if top.take(alloc, first, run)? {
            extents.remove(at);
        } else {
            at += 1;
        }
    }
    Ok(())
}

/// Layers and then those of others, as far as they are before `end`, oldest first. It also fails if there would be too many.
fn concat_layers(
    alloc: Global,
    first: LayerData,
    extents: &[Extent],
    bytes: &[u8],
    end: usize,
) -> Result<LayerData, NoMemory>
    requires inside { AreInside bytes.now extents.now }
    ensures { IfOk result (λ l. (l.cut ≡ first.cut) × ((old : Option (List ℕ)) → with_layers l.layers old ≡ with_layers (map (clipped end) (map (layer_in bytes.now) extents.now)) (with_layers first.layers old))) }
{
    let mut all = first;
    let mut left = extents.len();
    'each: while left > 0 {
        let (first, run) = layer_at(extents, bytes, left - 1);
        let off = first.min(end);
        let kept = run.len().min(end - off);
        all.apply_patch(alloc, off, &run[..kept])?;
        left -= 1;
    }
    Ok(all)
}

/// The bytes of a block with layers applied, oldest first.
fn apply_all(
    alloc: Global,
    old: Vec<u8>,
    extents: &[Extent],
    bytes: &[u8],
) -> Result<Vec<u8>, NoMemory>
    requires inside { AreInside bytes.now extents.now }
    requires short { length old.items ≤ 4096 }
    ensures value { IfOk result (λ v. (o : Option (List ℕ)) → held o ≡ old.items → v.items ≡ held (with_layers (map (layer_in bytes.now) extents.now) o)) }
    ensures short { IfOk result (λ v. length v.items ≤ 4096) }
{
    let mut own = old;
    let mut left = extents.len();
    'each: while left > 0 {
        let (off, run) = layer_at(extents, bytes, left - 1);
        overlay(&mut own, off, run)?;
        left -= 1;
    }
    Ok(own)
}

/// A copy of the bytes that a cut leaves, if there is one.
fn cut_bytes(alloc: Global, cut: Option<u16>, old: &[u8]) -> Result<Vec<u8>, NoMemory>
    ensures { IfOk result (λ v. Some v.items ≡ cut_by cut (Some old.now)) }
{
    let kept = match cut {
        Some(n) => old.len().min(n as usize),
        None => old.len(),
    };
    let mut own = Vec::with_capacity(alloc, kept)?;
    own.extend_from_slice(&old[..kept])?;
    Ok(own)
}
