//! Laws of logs, of crashes and of the lines of a dump. The functions do nothing at run time.
ghost use Rattle.wal.specs.Laws.{CrashLaw, CutLaw, DigestLaw, FirstLaw, NumberLaw, OneBodyLaw, OneReadingLaw, OneWorldLaw, SaltLaw, SplitLaw, SyncedLaw, TailLaw};

/// Decoding is unambiguous, both of a body into changes and of a log into records.
pub fn one_reading()
    ensures body { OneBodyLaw }
    ensures log { OneReadingLaw }
{}

/// A change leads from a world to at most one.
pub fn one_world()
    ensures { OneWorldLaw }
{}

/// If a log is cut anywhere, exactly the records that are whole before the cut are valid.
pub fn cut_anywhere()
    ensures counts { CutLaw }
    ensures first { FirstLaw }
{}

/// Damage leaves the records before it valid. A damaged record is invalid if its magic bytes, number or digest show the
/// damage. So is a record of a log with another salt.
pub fn damaged()
    ensures tail { TailLaw }
    ensures digest { DigestLaw }
    ensures salt { SaltLaw }
    ensures number { NumberLaw }
{}

/// After a crash the log has the first requests, and no fewer than were synced.
pub fn after_a_crash()
    ensures beginning { CrashLaw }
    ensures synced { SyncedLaw }
{}

/// Two writes, of which the second begins where the first ends, have the same effect as one write of both.
pub fn split()
    ensures { SplitLaw }
{}
