//! The trait of observers, which see each line of a script with its answer, and may end a run.
ghost use Rattle.std.specs.Prelude.{◌≡◌, ◌&&◌, Bool, false, not};
ghost use Rattle.shell.specs.Verdicts.{fails};

use crate::verdict::Verdict;

/// Watches the lines of a script as they are answered.
pub trait Watch {
    ghost use Rattle.std.specs.Prelude.{Bool};

    /// Whether a run ends at the first line that is answered by a fault or an error.
    ghost is_strict: { Self → Bool };

    /// Sees how the next line was answered. Returns whether the run continues after it.
    fn see(&mut self, verdict: Verdict) -> bool
        ensures same { is_strict self.new ≡ is_strict self.old }
        ensures goes { result ≡ not (is_strict self.old && fails verdict) };

    /// The number of lines that it has seen.
    fn lines(&self) -> u64;
}

/// Ignores every line, and never ends a run.
#[derive(Drop)]
pub struct Unwatched;

impl Watch for Unwatched {
    ghost is_strict = { λ _. false };

    fn see(&mut self, _verdict: Verdict) -> bool {
        true
    }

    fn lines(&self) -> u64 {
        0
    }
}
