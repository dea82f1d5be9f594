//! Borrows the value that a handle owns. When the borrow ends, the handle owns the last value written through it.
ghost use Rattle.std.specs.Prelude.{◌≡◌};
ghost use types.Logic.{sem};
ghost use Rattle.doorvervain.specs.Follows.{edits_follows, frozen_follows, handle_follows, loading_follows, printing_follows};

use super::{EditsHandle, FrozenHandle, LoaderHandle, PrinterHandle, VolumeHandle};
use delta::EditsPrinter;
use images::{ImageLoader, ImagePrinter};
use volume::{Frozen, Volume};

impl VolumeHandle {
    /// The volume of this handle.
    pub(crate) fn volume(&mut self) -> &mut Volume
        ensures* writes_back { sem 𝓛 (handle_follows self.entry result) }
        ensures value { result.now ≡ self.old.volume }
    {
        let at = self.at as *mut Volume;
        unsafe { &mut *at }
    }
}

impl FrozenHandle {
    /// The tree of this handle.
    pub(crate) fn tree(&mut self) -> &mut Frozen
        ensures* writes_back { sem 𝓛 (frozen_follows self.entry result) }
        ensures value { result.now ≡ self.old.tree }
    {
        let at = self.at as *mut Frozen;
        unsafe { &mut *at }
    }
}

impl PrinterHandle {
    /// The printer of this handle.
    pub(crate) fn printing(&mut self) -> &mut ImagePrinter
        ensures* writes_back { sem 𝓛 (printing_follows self.entry result) }
        ensures value { result.now ≡ self.old.printing }
    {
        let at = self.at as *mut ImagePrinter;
        unsafe { &mut *at }
    }
}

impl LoaderHandle {
    /// The loader of this handle.
    pub(crate) fn loading(&mut self) -> &mut ImageLoader
        ensures* writes_back { sem 𝓛 (loading_follows self.entry result) }
        ensures value { result.now ≡ self.old.loading }
    {
        let at = self.at as *mut ImageLoader;
        unsafe { &mut *at }
    }
}

impl EditsHandle {
    /// The printer of this handle.
    pub(crate) fn edits(&mut self) -> &mut EditsPrinter
        ensures* writes_back { sem 𝓛 (edits_follows self.entry result) }
        ensures value { result.now ≡ self.old.edits }
    {
        let at = self.at as *mut EditsPrinter;
        unsafe { &mut *at }
    }
}
