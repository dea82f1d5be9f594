//! Handles as C holds them: each is a struct of one pointer that owns what it points to.
ghost use Rattle.volume.specs.Volumes.{PVolume};
ghost use Rattle.volume.specs.contracts.frozen.Frozen.{the_row as frozen_row};
ghost use Rattle.volume.specs.contracts.volume.Volume.{the_row as volume_row};
ghost use Rattle.volume.specs.declared.fs_root.FsRoot.{FsRoot};
ghost use Rattle.delta.specs.Printers.{PEdits};
ghost use Rattle.delta.specs.contracts.edits_printer.EditsPrinter.{the_row as edits_row};
ghost use Rattle.images.specs.Printings.{PPrinting};
ghost use Rattle.images.specs.contracts.loader.ImageLoader.{the_row as loading_row};
ghost use Rattle.images.specs.contracts.printing.ImagePrinter.{the_row as printing_row};
ghost use Rattle.images.specs.declared.loader.ImageLoader.{ImageLoader};
ghost use Rattle.doorvervain.specs.Held.{held_at};

mod borrow;
mod into_raw;

use std::marker::Model;

/// The handle of a volume, which it owns.
#[repr(C)]
pub struct VolumeHandle {
    at: *mut u8,
    pub ghost volume: { PVolume } by { volume_row.coded },
}

impl Model for VolumeHandle {
    ghost also_owns = { λ h. held_at volume_row h.at h.volume };
}

/// The handle of a frozen tree, which it owns.
#[repr(C)]
pub struct FrozenHandle {
    at: *mut u8,
    pub ghost tree: { FsRoot } by { frozen_row.coded },
}

impl Model for FrozenHandle {
    ghost also_owns = { λ h. held_at frozen_row h.at h.tree };
}

/// The handle of a printer of an image, which it owns.
#[repr(C)]
pub struct PrinterHandle {
    at: *mut u8,
    pub ghost printing: { PPrinting } by { printing_row.coded },
}

impl Model for PrinterHandle {
    ghost also_owns = { λ h. held_at printing_row h.at h.printing };
}

/// The handle of a loader of an image, which it owns.
#[repr(C)]
pub struct LoaderHandle {
    at: *mut u8,
    pub ghost loading: { ImageLoader } by { loading_row.coded },
}

impl Model for LoaderHandle {
    ghost also_owns = { λ h. held_at loading_row h.at h.loading };
}

/// The handle of a printer of edits, which it owns.
#[repr(C)]
pub struct EditsHandle {
    at: *mut u8,
    pub ghost edits: { PEdits } by { edits_row.coded },
}

impl Model for EditsHandle {
    ghost also_owns = { λ h. held_at edits_row h.at h.edits };
}
