//! The trait of flush policies: which tree steps are done between the lines of a script. Steps never change the world,
//! so no policy changes a reply.
ghost use Rattle.reference.specs.Worlds.{World};
ghost use Rattle.volume.specs.Volumes.{Means};

use node::StepReply;
use std::alloc::Global;
use volume::{Step, Volume};

/// Decides which tree steps are done between the lines of a script. The replies are the same whatever it picks.
pub trait Pace {
    /// The number of steps to pick after the line that was just done.
    fn turns(&mut self) -> u16;

    /// The next step to try, if any.
    fn pick(&mut self, volume: &Volume) -> Option<Step>;

    /// Reports the reply to the step that was picked last.
    fn saw(&mut self, reply: StepReply);
}

/// Does the steps that the pace picks after a line. The volume still abstracts to the same world.
pub fn run_steps<P: Pace>(alloc: Global, volume: &mut Volume, pace: &mut P)
    ensures { (w : World) → Means volume.old w → Means volume.new w }
{
    for _ in 0..pace.turns() {
        if let Some(step) = pace.pick(volume) {
            let reply = volume.step(alloc, step);
            pace.saw(reply);
        }
    }
}
