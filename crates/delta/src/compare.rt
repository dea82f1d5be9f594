//! Comparison of the values at a key of two indexes, as far as a tree shows them.
ghost use Rattle.std.specs.Prelude.{◌≡◌, Option, false, true};
ghost use Rattle.reference.specs.Indexes.{held};
ghost use Rattle.delta.specs.Changed.{AreAlikeBlocks};

use block_index::{Block, BlockUpdate};
use message::Update;
use meta_index::MetaUpdate;
use reference::Meta;
use textio::text::trimmed_len;

/// An index whose values can be compared.
pub(crate) trait Compare: Update {
    /// The two values mean the same in a tree.
    ghost alike: { Option Self.Value → Option Self.Value → Type 0 };

    /// Whether the two values mean the same in a tree.
    fn are_alike(one: &Option<Self::Value>, other: &Option<Self::Value>) -> bool
        ensures yes { result ≡ true → alike one.now other.now }
        ensures no { result ≡ false → alike one.now other.now → ⊥ };
}

impl Compare for MetaUpdate {
    ghost alike = { λ m n. m ≡ n };

    fn are_alike(one: &Option<Meta>, other: &Option<Meta>) -> bool {
        one == other
    }
}

/// Blocks that have the same bytes up to zeros at the end; a missing block has no bytes.
impl Compare for BlockUpdate {
    ghost alike = { λ b c. AreAlikeBlocks b c };

    fn are_alike(one: &Option<Block>, other: &Option<Block>) -> bool {
        let (one, other) = (bytes_of(one), bytes_of(other));
        one[..trimmed_len(one)] == other[..trimmed_len(other)]
    }
}

/// The bytes of a block; none if it is missing.
fn bytes_of(block: &Option<Block>) -> &[u8]
    ensures { result.now ≡ held block.now }
{
    match block {
        None => &[],
        Some(block) => block.as_slice(),
    }
}
