//! Why a delta was not printed or not applied.
ghost use Rattle.std.specs.Prelude.{◌≡◌};
ghost use Rattle.delta.specs.declared.fault.PrintFault.TheVariants as fault;

use pathkey::NoMemory;
use textio::output::WriteFailed;
use thiserror::Error;

/// Why a delta was not printed completely.
#[derive(Debug, Drop, PartialEq, Eq, Error)]
pub enum PrintFault {
    /// An allocation failed.
    #[error("deltas: no memory")]
    Memory,
    /// The writer failed.
    #[error("deltas: write failed")]
    Write,
}

impl From<NoMemory> for PrintFault {
    ghost from_gives = { λ _ e. e ≡ fault.Memory };

    fn from(_refused: NoMemory) -> PrintFault {
        PrintFault::Memory
    }
}

impl From<WriteFailed> for PrintFault {
    ghost from_gives = { λ _ e. e ≡ fault.Write };

    fn from(_failed: WriteFailed) -> PrintFault {
        PrintFault::Write
    }
}

/// Why a delta was not applied.
#[derive(Debug, Drop, PartialEq, Eq, Error)]
pub enum DeltaFault {
    /// An allocation failed.
    #[error("deltas: no memory")]
    Memory,
    /// The text is not a delta. The number is that of its first bad line, counted from 1.
    #[error("deltas: bad delta at line {0}")]
    Bad(u64),
    /// The delta belongs to a tree with another image.
    #[error("deltas: delta of another tree")]
    OtherTree,
    /// What the delta makes of the lines of the image is not an image.
    #[error("deltas: delta makes no image")]
    NoImage,
}
