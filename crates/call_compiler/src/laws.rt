//! Laws of batches: what appending them does, what a write leaves out, and which calls set the root's mtime. The
//! functions do nothing at run time.
ghost use Rattle.call_compiler.specs.Laws.{AppendLaw, GrowthLaw, RootLaw};

/// An index to which the messages of a call were appended abstracts to the tree after the call.
pub fn appends()
    ensures { AppendLaw }
{}

/// The root's mtime becomes the timestamp of a call that succeeds and adds or removes an entry of the root; other calls
/// do not change it.
pub fn root_mtimes()
    ensures { RootLaw }
{}

/// If the indexes abstract to a tree, a write leaves out the message for the length exactly if the file in that tree already has
/// the length and the mtime.
pub fn growths()
    ensures { GrowthLaw }
{}
