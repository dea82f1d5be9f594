//! Out-parameters for handles: structs of one pointer that an export writes.
//!
//! If a handle was stored, the pointer is that of the handle, and the struct owns it. Otherwise the pointer is null.
ghost use denote.RawPtr.{Ptr};
ghost use Rattle.std.specs.Prelude.{◌≡◌, IfErr, Some, Option};
ghost use Rattle.std.specs.Coded.{coded_option};
ghost use Rattle.volume.specs.Volumes.{PVolume};
ghost use Rattle.volume.specs.contracts.frozen.Frozen.{the_row as frozen_row};
ghost use Rattle.volume.specs.contracts.volume.Volume.{the_row as volume_row};
ghost use Rattle.volume.specs.declared.fs_root.FsRoot.{FsRoot};
ghost use Rattle.delta.specs.Printers.{PEdits};
ghost use Rattle.delta.specs.contracts.edits_printer.EditsPrinter.{the_row as edits_row};
ghost use Rattle.images.specs.Printings.{PPrinting};
ghost use Rattle.images.specs.contracts.loader.ImageLoader.{the_row as loading_row};
ghost use Rattle.images.specs.contracts.printing.ImagePrinter.{the_row as printing_row};
ghost use Rattle.images.specs.declared.loader.ImageLoader.{ImageLoader};
ghost use Rattle.doorvervain.specs.Handed.{HandsOut};
ghost use Rattle.doorvervain.specs.Held.{IsClosed, given_at};

use crate::parts::RawBox;
use delta::EditsPrinter;
use images::{ImageLoader, ImagePrinter};
use pathkey::Errno;
use std::alloc::Global;
use std::marker::Model;
use std::ptr::null_mut;
use volume::{Frozen, Volume};

/// An out-parameter for a handle.
pub(crate) trait Out {
    /// What the handle owns.
    type Held: Drop;

    /// The pointer.
    ghost at: { Self → Ptr };

    /// What was stored, if anything was.
    ghost given: { Self → Option Self.Held };

    /// Stores a handle here.
    fn fill(&mut self, parts: RawBox<Self::Held, Global>)
        ensures { given self.new ≡ Some parts.value };

    /// Sets the pointer to null. What was stored before is not freed.
    fn close(&mut self)
        ensures { IsClosed (at self.new) (given self.new) };
}

/// Puts a value on the heap, and stores its handle in `out`. If there is no value, or an allocation fails, `out` is null.
pub(crate) fn hand_out<O: Out>(
    alloc: Global,
    made: Result<O::Held, Errno>,
    out: &mut O,
) -> Result<(), Errno>
    ensures handed { HandsOut made result (O.given out.new) }
    ensures closed { IfErr result (λ _. IsClosed (O.at out.new) (O.given out.new)) }
{
    out.close();
    let Ok(whole) = Box::new(alloc, made?) else {
        return Err(Errno::ENOMEM);
    };
    out.fill(RawBox::of(whole));
    Ok(())
}

/// An out-parameter for the handle of a volume.
#[repr(C)]
pub struct VolumeOut {
    pub(crate) at: *mut u8,
    pub ghost given: { Option PVolume } by { coded_option volume_row.coded },
}

impl Model for VolumeOut {
    ghost also_owns = { λ p. given_at volume_row p.at p.given };
}

impl Out for VolumeOut {
    type Held = Volume;

    ghost at = { λ p. p.at };

    ghost given = { λ p. p.given };

    fn fill(&mut self, parts: RawBox<Volume, Global>)
        ensures { self.new.given ≡ Some parts.value }
    {
        let RawBox { ptr, alloc: _ } = parts;
        self.at = ptr as *mut u8;
    }

    fn close(&mut self)
        ensures { IsClosed self.new.at self.new.given }
    {
        self.at = null_mut();
    }
}

/// An out-parameter for the handle of a frozen tree.
#[repr(C)]
pub struct FrozenOut {
    pub(crate) at: *mut u8,
    pub ghost given: { Option FsRoot } by { coded_option frozen_row.coded },
}

impl Model for FrozenOut {
    ghost also_owns = { λ p. given_at frozen_row p.at p.given };
}

impl Out for FrozenOut {
    type Held = Frozen;

    ghost at = { λ p. p.at };

    ghost given = { λ p. p.given };

    fn fill(&mut self, parts: RawBox<Frozen, Global>)
        ensures { self.new.given ≡ Some parts.value }
    {
        let RawBox { ptr, alloc: _ } = parts;
        self.at = ptr as *mut u8;
    }

    fn close(&mut self)
        ensures { IsClosed self.new.at self.new.given }
    {
        self.at = null_mut();
    }
}

/// An out-parameter for the handle of a printer of an image.
#[repr(C)]
pub struct PrinterOut {
    pub(crate) at: *mut u8,
    pub ghost given: { Option PPrinting } by { coded_option printing_row.coded },
}

impl Model for PrinterOut {
    ghost also_owns = { λ p. given_at printing_row p.at p.given };
}

impl Out for PrinterOut {
    type Held = ImagePrinter;

    ghost at = { λ p. p.at };

    ghost given = { λ p. p.given };

    fn fill(&mut self, parts: RawBox<ImagePrinter, Global>)
        ensures { self.new.given ≡ Some parts.value }
    {
        let RawBox { ptr, alloc: _ } = parts;
        self.at = ptr as *mut u8;
    }

    fn close(&mut self)
        ensures { IsClosed self.new.at self.new.given }
    {
        self.at = null_mut();
    }
}

/// An out-parameter for the handle of a loader of an image.
#[repr(C)]
pub struct LoaderOut {
    pub(crate) at: *mut u8,
    pub ghost given: { Option ImageLoader } by { coded_option loading_row.coded },
}

impl Model for LoaderOut {
    ghost also_owns = { λ p. given_at loading_row p.at p.given };
}

impl Out for LoaderOut {
    type Held = ImageLoader;

    ghost at = { λ p. p.at };

    ghost given = { λ p. p.given };

    fn fill(&mut self, parts: RawBox<ImageLoader, Global>)
        ensures { self.new.given ≡ Some parts.value }
    {
        let RawBox { ptr, alloc: _ } = parts;
        self.at = ptr as *mut u8;
    }

    fn close(&mut self)
        ensures { IsClosed self.new.at self.new.given }
    {
        self.at = null_mut();
    }
}

/// An out-parameter for the handle of a printer of edits.
#[repr(C)]
pub struct EditsOut {
    pub(crate) at: *mut u8,
    pub ghost given: { Option PEdits } by { coded_option edits_row.coded },
}

impl Model for EditsOut {
    ghost also_owns = { λ p. given_at edits_row p.at p.given };
}

impl Out for EditsOut {
    type Held = EditsPrinter;

    ghost at = { λ p. p.at };

    ghost given = { λ p. p.given };

    fn fill(&mut self, parts: RawBox<EditsPrinter, Global>)
        ensures { self.new.given ≡ Some parts.value }
    {
        let RawBox { ptr, alloc: _ } = parts;
        self.at = ptr as *mut u8;
    }

    fn close(&mut self)
        ensures { IsClosed self.new.at self.new.given }
    {
        self.at = null_mut();
    }
}
