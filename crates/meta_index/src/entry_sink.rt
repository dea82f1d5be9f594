//! What receives the entries of a directory, one after the other.
ghost use Rattle.std.specs.Prelude.{◌≡◌, ◌<◌, ◌^◌, ◌++◌, [], ◌∷◌, OnOk, length};
ghost use Rattle.reference.specs.Pairs.{pairs_of};

use pathkey::NoMemory;
use reference::Kind;
use std::alloc::Global;

/// Receives the entries of a directory.
pub trait EntrySink {
    ghost use Rattle.std.specs.Prelude.{ℕ, List};
    ghost use Rattle.pathkey.specs.Names.{Name};
    ghost use Rattle.reference.specs.declared.reply.Kind.{Kind as EntryKind};

    /// It has received exactly these entries.
    ghost has: { Self → List (EntryKind × Name) → Type 0 };

    /// A number that grows with each entry.
    ghost size: { Self → ℕ };

    /// Receives the next entry. If an allocation fails, it may have received a part of it.
    fn receive(&mut self, alloc: Global, kind: Kind, name: &[u8]) -> Result<(), NoMemory>
        ensures has { (es : List (EntryKind × Name)) → has self.old es → OnOk result (has self.new (es ++ (kind, name.now) ∷ [])) }
        ensures grows { OnOk result (size self.old < size self.new) }
        ensures bound { OnOk result (size self.new < 2 ^ 64) };
}

/// The entries as a vector, each with its name in a vector of its own.
impl EntrySink for Vec<(Kind, Vec<u8>)> {
    ghost has = { λ v es. pairs_of v.items ≡ es };

    ghost size = { λ v. length v.items };

    fn receive(&mut self, alloc: Global, kind: Kind, name: &[u8]) -> Result<(), NoMemory> {
        let name = Vec::from_slice(alloc, name)?;
        self.push((kind, name))?;
        Ok(())
    }
}
