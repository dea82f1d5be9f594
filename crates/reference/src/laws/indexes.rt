//! Laws of the two indexes: which changes of them mean which call, and that they mean at most one tree.

ghost use Rattle.reference.specs.Plant.{PlantLaw};
ghost use Rattle.reference.specs.Laws.{CreateLaw, FreshLaw, LengthenLaw, MkdirLaw, OneMeaningLaw, RenameLaw, RmdirLaw, RmtreeLaw, TouchLaw, TruncateLaw, UnlinkLaw, WriteLaw};

/// What the two indexes of an empty tree are.
pub fn fresh_indexes()
    ensures { FreshLaw }
{}

/// If two indexes mean a tree, then after the changes that each law names they mean the tree after the call.
pub fn calls_on_indexes()
    ensures touch { TouchLaw }
    ensures mkdir { MkdirLaw }
    ensures create { CreateLaw }
    ensures write { WriteLaw }
    ensures truncate { TruncateLaw }
    ensures lengthen { LengthenLaw }
    ensures unlink { UnlinkLaw }
    ensures rmdir { RmdirLaw }
    ensures rmtree { RmtreeLaw }
    ensures rename { RenameLaw }
{}

/// If two indexes mean a tree, one message adds an entry: an empty directory, or a file of zeros of any length.
pub fn planting()
    ensures { PlantLaw }
{}

/// Two indexes mean at most one tree.
pub fn one_meaning()
    ensures { OneMeaningLaw }
{}
