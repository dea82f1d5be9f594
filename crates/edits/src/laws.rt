//! Laws of edits. The functions do nothing at run time.
ghost use Rattle.edits.specs.Edits.{OneTreeLaw, OtherPathsLaw};
ghost use Rattle.edits.specs.Lines.{OneReadingLaw};

/// Edits make at most one tree of a tree.
pub fn one_tree()
    ensures { OneTreeLaw }
{}

/// A path that no edit names is seen as before.
pub fn other_paths()
    ensures { OtherPathsLaw }
{}

/// A text has one list of edits.
pub fn one_reading()
    ensures { OneReadingLaw }
{}
