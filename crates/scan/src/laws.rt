//! Laws of scans. The function does nothing at run time.
ghost use Rattle.scan.specs.Laws.{JoinLaw, LastLaw, ShortLaw};

/// A range may be read in batches, each beginning after the last key of the one before: the batches are one scan of the range. If
/// a batch has fewer pairs than were requested, or none although one was, no pair of the range is missing.
pub fn pieces<V>()
    ensures joined { JoinLaw V }
    ensures short { ShortLaw V }
    ensures last { LastLaw V }
{}
