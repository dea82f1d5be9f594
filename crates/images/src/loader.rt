//! Loads an image piece by piece into a new volume. After a bad line every further piece fails with the number of that
//! line.
ghost use Rattle.std.specs.Prelude.{◌<◌, vec_capacity};

use crate::load::{LoadFault, LoadState};
use node::Shape;
use std::alloc::Global;
use textio::line_buffer::LONGEST_LINE;
use volume::Volume;

/// The result of the pieces so far.
#[derive(Clone, Copy, Debug, PartialEq, Eq)]
pub enum FeedOutcome {
    /// All pieces were loaded.
    Open,
    /// An allocation failed.
    Starved,
    /// The text is not an image from the line with this number on.
    Spoiled(u64),
}

/// Loads an image piece by piece, wherever it is cut, into a new volume. One line is held at a time.
///
/// An error is final: each later piece and the end fail with the same error.
#[derive(Drop)]
pub struct ImageLoader {
    pub(crate) load_state: LoadState,
    pub(crate) held: Vec<u8>,
    pub(crate) intake: FeedOutcome,
    ghost room: { 65536 < vec_capacity held },
}

impl ImageLoader {
    ghost use Rattle.std.specs.Prelude.{◌≡◌, ◌≢◌, ◌↔◌, ◌⊎◌, ◌++◌, ℕ, List, Err, IfErr, IfOk, OnOk, false};
    ghost use Rattle.node.specs.Shapes.{is_shape};
    ghost use Rattle.node.specs.declared.shape.Shape.{Shape as TreeShape};
    ghost use Rattle.reference.specs.ImageLines.{IsBadAt};
    ghost use Rattle.reference.specs.Tree.{Dir, nothing};
    ghost use Rattle.images.specs.Loads.{alone, form_of, new_form};
    ghost use Rattle.images.specs.Taken.{IsFresh, LoadedIn, Took, answer_of};
    ghost use Rattle.volume.specs.Volumes.{Means};

    /// Creates a loader for a new volume in trees of this shape. Fails with `Shape` if the shape is invalid, and with
    /// `Memory` if an allocation fails.
    pub fn new(alloc: Global, shape: Shape) -> Result<ImageLoader, LoadFault>
        ensures fresh { IfOk result (IsFresh shape) }
        ensures shape { (result ≡ Err LoadFault.Shape) ↔ (is_shape shape ≡ false) }
        ensures refused { IfErr result (λ e. (e ≡ LoadFault.Shape) ⊎ (e ≡ LoadFault.Memory)) }
    {
        if !shape.ok() {
            return Err(LoadFault::Shape);
        }
        match Volume::new(alloc, shape) {
            Ok(volume) => ImageLoader::over(alloc, volume),
            // The shape is valid, so an allocation failed.
            Err(_refused) => Err(LoadFault::Memory),
        }
    }

    // Creates a loader for a new volume that exists already.
    fn over(alloc: Global, volume: Volume) -> Result<ImageLoader, LoadFault>
        requires { Means volume (alone (Dir 0 nothing)) }
        ensures fresh { (shape : TreeShape) → form_of volume ≡ new_form shape → IfOk result (IsFresh shape) }
        ensures refused { IfErr result (λ e. e ≡ LoadFault.Memory) }
    {
        let Ok(held) = Vec::with_capacity(alloc, LONGEST_LINE + 1) else {
            // Dropped by a call, so that the proof costs less.
            drop(volume);
            return Err(LoadFault::Memory);
        };
        Ok(ImageLoader {
            load_state: LoadState::new(alloc, volume),
            held,
            intake: FeedOutcome::Open,
        })
    }

    /// Loads the next piece of the text. Fails with `Memory` if an allocation fails, and with `Bad` if the text is not an
    /// image, whatever follows: this has the number of the first bad line. After an error it changes nothing.
    pub fn feed(&mut self, alloc: Global, piece: &[u8]) -> Result<(), LoadFault>
        ensures took { (shape : TreeShape) (text : List ℕ) → Took shape text self.old → Took shape (text ++ piece.now) self.new }
        ensures answer { result ≡ answer_of self.new.intake }
        ensures refused { IfErr (answer_of self.old.intake) (λ _. self.new ≡ self.old) }
    {
        if let Err(fault) = self.answer() {
            return Err(fault);
        }
        let taken = self.load_state.take_piece(alloc, &mut self.held, piece);
        self.intake = ImageLoader::intake_of(&taken);
        taken
    }

    /// Ends the text, and returns the volume with the tree of this image, without snapshots and marks. Fails with the error
    /// of an earlier piece, and with `Bad` if the text is not an image.
    pub fn end(self) -> Result<Volume, LoadFault>
        ensures loaded { (shape : TreeShape) (text : List ℕ) → Took shape text self → IfOk result (LoadedIn shape text) }
        ensures bad { (shape : TreeShape) (text : List ℕ) (n : ℕ) → Took shape text self → result ≡ Err (LoadFault.Bad n) → IsBadAt n text }
        ensures refused { IfErr (answer_of self.intake) (λ e. result ≡ Err e) }
        ensures shape { result ≢ Err LoadFault.Shape }
        ensures read { result ≢ Err LoadFault.Read }
    {
        let reported = self.ended();
        let ImageLoader {
            load_state,
            held,
            intake: _,
        } = self;
        // What is not returned is dropped by calls, so that the proof costs less.
        drop(held);
        match reported {
            Ok(()) => Ok(load_state.volume),
            Err(fault) => {
                drop(load_state);
                Err(fault)
            }
        }
    }

    // Checks that the text so far is an image.
    fn ended(&self) -> Result<(), LoadFault>
        ensures ok { (shape : TreeShape) (text : List ℕ) → Took shape text self.now → OnOk result (LoadedIn shape text self.now.load_state.volume) }
        ensures bad { (shape : TreeShape) (text : List ℕ) (n : ℕ) → Took shape text self.now → result ≡ Err (LoadFault.Bad n) → IsBadAt n text }
        ensures refused { IfErr (answer_of self.now.intake) (λ e. result ≡ Err e) }
        ensures shape { result ≢ Err LoadFault.Shape }
        ensures read { result ≢ Err LoadFault.Read }
    {
        if let Err(fault) = self.answer() {
            return Err(fault);
        }
        self.load_state.end(self.held.as_slice())
    }

    // The result of the last piece.
    fn answer(&self) -> Result<(), LoadFault>
        ensures { result ≡ answer_of self.now.intake }
    {
        match self.intake {
            FeedOutcome::Open => Ok(()),
            FeedOutcome::Starved => Err(LoadFault::Memory),
            FeedOutcome::Spoiled(number) => Err(LoadFault::Bad(number)),
        }
    }

    // The state after a piece with this result.
    fn intake_of(taken: &Result<(), LoadFault>) -> FeedOutcome
        requires shape { taken.now ≢ Err LoadFault.Shape }
        requires read { taken.now ≢ Err LoadFault.Read }
        ensures { answer_of result ≡ taken.now }
    {
        match taken {
            Ok(()) => FeedOutcome::Open,
            Err(LoadFault::Bad(number)) => FeedOutcome::Spoiled(*number),
            // `Memory`: a piece never fails with `Shape` or `Read`.
            Err(_) => FeedOutcome::Starved,
        }
    }
}
