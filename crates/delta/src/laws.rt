//! Laws of deltas. The functions do nothing at run time.
ghost use Rattle.delta.specs.Applies.{OneReadingLaw, RoundTripLaw};
ghost use Rattle.delta.specs.Changed.{EditsRoundTripLaw, OneTextLaw};

/// If the delta of two trees is applied to a volume with the first tree, and no allocation fails, the volume then has the
/// second tree, including mtimes.
pub fn round_trip()
    ensures { RoundTripLaw }
{}

/// A delta makes exactly one list of lines from the lines of an image.
pub fn one_reading()
    ensures { OneReadingLaw }
{}

/// If edits that make one tree of another, as those that are printed of the trees do, are applied to a volume with the first, the volume
/// then has the second, including mtimes, and its snapshots.
pub fn edits_round_trip()
    ensures { EditsRoundTripLaw }
{}

/// The edits that are printed of two trees are one text, whatever keys are passed.
pub fn one_text()
    ensures { OneTextLaw }
{}
