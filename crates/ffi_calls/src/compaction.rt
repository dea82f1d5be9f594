//! Tree steps between the calls. They do not change the world of the volume.
ghost use Rattle.std.specs.Prelude.{◌≡◌, ◌≤◌, ◌<◌, ◌⊎◌, true, false};
ghost use Rattle.reference.specs.Worlds.{World};
ghost use Rattle.volume.specs.Volumes.{Means};
ghost use Rattle.ffi_calls.specs.Upkeep.{IsIdle, IsStuck, Relieved, Relieves, is_done};

use std::alloc::Global;
use volume::{StepReply, Volume};

/// Does at most `steps` tree steps, each in the index with more pending pieces. Returns how many were done. It stops early
/// only if no message is pending, or if the next step was not done, since it does not fit or an allocation failed. In that
/// case another try would change nothing either. The volume still abstracts to the same world.
pub fn compact(alloc: Global, volume: &mut Volume, steps: u32) -> u32
    ensures few { result ≤ steps }
    ensures steps { Relieves result volume.old volume.new }
    ensures means { (w : World) → Means volume.old w → Means volume.new w }
    ensures rest { result < steps → IsIdle volume.new ⊎ IsStuck volume.new }
{
    for done in 0..steps {
        if !compact_once(alloc, volume) {
            return done;
        }
    }
    steps
}

/// Tries one tree step in the index with more pending pieces. Returns whether it was done. If not, nothing has changed.
fn compact_once(alloc: Global, volume: &mut Volume) -> bool
    ensures done { result ≡ true → Relieved volume.old volume.new }
    ensures unchanged { result ≡ false → volume.new ≡ volume.old }
    ensures rest { result ≡ false → IsIdle volume.new ⊎ IsStuck volume.new }
    ensures means { (w : World) → Means volume.old w → Means volume.new w }
{
    match volume.compact_step(alloc) {
        Some(turn) => is_done(turn.reply),
        None => false,
    }
}

/// Whether a step was done.
fn is_done(reply: StepReply) -> bool
    ensures { result ≡ is_done reply }
{
    matches!(reply, StepReply::Did(_))
}
