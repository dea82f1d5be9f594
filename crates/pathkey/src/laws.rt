//! Laws of paths, texts and keys, each proved once for the crates that depend on it. The functions do nothing.
ghost use Rattle.pathkey.specs.Laws.{ReadBackLaw, OnlyTextsLaw, UnderLaw, EncLaw, SubtreeLaw, BlockSubtreeLaw, BlockKeyLaw, BlocksDifferLaw, BlocksFromLaw, NoPathAmongBlocksLaw};

/// The text of a path parses to that path, and every other text is rejected.
pub fn texts()
    ensures read_back { ReadBackLaw }
    ensures only_texts { OnlyTextsLaw }
{}

/// A path is at or below another if and only if its names begin with the other's.
pub fn under()
    ensures { UnderLaw }
{}

/// Distinct paths and blocks have distinct keys.
pub fn keys_differ()
    ensures paths { EncLaw }
    ensures path_and_block { BlockKeyLaw }
    ensures blocks { BlocksDifferLaw }
{}

/// The keys of a subtree are those of the paths at or below its root, and of their blocks.
pub fn subtrees()
    ensures paths { SubtreeLaw }
    ensures blocks { BlockSubtreeLaw }
{}

/// The range of a file's blocks from an index on contains those blocks' keys and no others.
pub fn blocks()
    ensures blocks { BlocksFromLaw }
    ensures no_path { NoPathAmongBlocksLaw }
{}
