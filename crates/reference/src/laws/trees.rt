//! Laws about trees alone: what an edit changes, what a call preserves, what is visible at the paths of a tree, and that a tree
//! is determined by its image.

ghost use Rattle.reference.specs.Laws.{BlockedLaw, CallLaw, ChildLaw, DoneLaw, EditLaw, FaultLaw, ListingLaw, MissingLaw, NeverLacksLaw, OneImageLaw, OneTreeLaw, OutRisesLaw, PutRisesLaw, ReadingLaw, SightLaw, ReportedLaw, TouchedLaw};

/// What is visible at each path after one entry was added or removed, or its mtime was set, and that names remain sorted in
/// each directory.
pub fn edits()
    ensures seen { EditLaw }
    ensures touched { TouchedLaw }
    ensures put { PutRisesLaw }
    ensures out { OutRisesLaw }
{}

/// Each call maps a directory tree to a directory tree; a call that fails, or that reads, changes nothing; and the table itself
/// never returns `ENOMEM`.
pub fn calls()
    ensures trees { CallLaw }
    ensures faults { FaultLaw }
    ensures reading { ReadingLaw }
    ensures memory { NeverLacksLaw }
    ensures done { DoneLaw }
{}

/// What is visible at the paths determines a tree, and what is at each path; a directory lists what is visible in it.
pub fn sight()
    ensures one_tree { OneTreeLaw }
    ensures sight { SightLaw }
    ensures blocked { BlockedLaw }
    ensures missing { MissingLaw }
    ensures child { ChildLaw }
    ensures listing { ListingLaw }
{}

/// Two directory trees with the same image are equal: the image contains every entry, every length and every byte, and in
/// version 2 every mtime. With the same version 1 image they are equal except for mtimes.
pub fn one_image()
    ensures one { OneImageLaw }
    ensures reported { ReportedLaw }
{}
