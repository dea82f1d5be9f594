//! Laws that callers use between the taking of a job and its installation: what keeps the content of a mark.
ghost use Rattle.jobs.specs.Laws.{BuiltLaw, FewerLaw, KeptLaw, MoreLaw, WithoutLaw};

use message::Update;

/// A mark whose slot has a job's content also has the content of the job's result. The marks of a ticket keep their content if
/// each mark keeps its own, if marks are removed, and if a mark of another ticket is added.
pub fn fits<U: Update>()
    ensures built { BuiltLaw U.means }
    ensures kept { KeptLaw U.means }
    ensures fewer { FewerLaw U.means }
    ensures without { WithoutLaw U.means }
    ensures more { MoreLaw U.means }
{}
