//! Laws of record directories and of the paths of records. The functions do nothing at run time.
ghost use Rattle.attributes.specs.Laws.{ApartLaw, BelowLaw, FitsLaw, NoMirrorBelowLaw, OneMirrorLaw, OneRecordLaw, ReservedLaw};

/// No two paths have the same record directory or the same record.
pub fn one_to_one()
    ensures record_dir { OneMirrorLaw }
    ensures record_path { OneRecordLaw }
{}

/// The paths of records and record directories differ from every path of a user, and from each
/// other.
pub fn apart()
    ensures reserved { ReservedLaw }
    ensures users { ApartLaw }
    ensures records { NoMirrorBelowLaw }
{}

/// The record directory of a path contains the records of everything below the path, so renaming it renames all these
/// records.
pub fn below()
    ensures { BelowLaw }
{}

/// A record directory or a record's path is a valid path if its names and its text are not too
/// long.
pub fn fits()
    ensures { FitsLaw }
{}
