//! Turns handles back into the boxes of which they were made. Ownership moves with the pointer.
ghost use Rattle.std.specs.Prelude.{◌≡◌};

use super::{EditsHandle, FrozenHandle, LoaderHandle, PrinterHandle, VolumeHandle};
use crate::parts::RawBox;
use delta::EditsPrinter;
use images::{ImageLoader, ImagePrinter};
use std::alloc::Global;
use volume::{Frozen, Volume};

impl VolumeHandle {
    /// The parts of the volume's box.
    pub(crate) fn into_raw_parts(self, alloc: Global) -> RawBox<Volume, Global>
        ensures { result.value ≡ self.volume }
    {
        let VolumeHandle { at } = self;
        RawBox {
            ptr: at as *mut Volume,
            alloc,
        }
    }
}

impl FrozenHandle {
    /// The parts of the tree's box.
    pub(crate) fn into_raw_parts(self, alloc: Global) -> RawBox<Frozen, Global>
        ensures { result.value ≡ self.tree }
    {
        let FrozenHandle { at } = self;
        RawBox {
            ptr: at as *mut Frozen,
            alloc,
        }
    }
}

impl PrinterHandle {
    /// The parts of the printer's box.
    pub(crate) fn into_raw_parts(self, alloc: Global) -> RawBox<ImagePrinter, Global>
        ensures { result.value ≡ self.printing }
    {
        let PrinterHandle { at } = self;
        RawBox {
            ptr: at as *mut ImagePrinter,
            alloc,
        }
    }
}

impl LoaderHandle {
    /// The parts of the loader's box.
    pub(crate) fn into_raw_parts(self, alloc: Global) -> RawBox<ImageLoader, Global>
        ensures { result.value ≡ self.loading }
    {
        let LoaderHandle { at } = self;
        RawBox {
            ptr: at as *mut ImageLoader,
            alloc,
        }
    }
}

impl EditsHandle {
    /// The parts of the printer's box.
    pub(crate) fn into_raw_parts(self, alloc: Global) -> RawBox<EditsPrinter, Global>
        ensures { result.value ≡ self.edits }
    {
        let EditsHandle { at } = self;
        RawBox {
            ptr: at as *mut EditsPrinter,
            alloc,
        }
    }
}
