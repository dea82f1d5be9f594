//! Why the program ends before all is done and printed.
use delta::{DeltaFault, PrintFault};
use edits::EditFault;
use images::{ImageFault, LoadFault};
use thiserror::Error;

/// Why the program ends early. A text of a file that is bad is told with the number of its first bad line.
#[derive(Debug, Drop, Error)]
pub(crate) enum Failure {
    /// The command line was refused.
    #[error(transparent)]
    Words(clap::Error),
    /// Memory was refused.
    #[error("deltas: no memory")]
    Memory,
    /// A file could not be opened.
    #[error("deltas: cannot open {0}")]
    Open(Named),
    /// A file could not be read.
    #[error("deltas: cannot read {0}")]
    Read(Named),
    /// A file has no image.
    #[error("deltas: {0} is no image from line {1} on")]
    NoImage(Named, u64),
    /// A file has no difference.
    #[error("deltas: the second file is no difference from line {0} on")]
    NoDelta(u64),
    /// A line of it does not fit the tree.
    #[error("deltas: line {0} of the second file does not fit the first")]
    Unfit(u64),
    /// It is that of another tree.
    #[error("deltas: the second file is the difference of another tree")]
    OtherTree,
    /// What it makes is no image.
    #[error("deltas: what the second file makes is no image")]
    Spoilt,
    /// The writer failed.
    #[error("deltas: write failed")]
    Write,
}

/// Which file of the command line.
#[derive(Clone, Copy, Debug, Drop, Error)]
pub(crate) enum Named {
    /// The first.
    #[error("the first file")]
    First,
    /// The second.
    #[error("the second file")]
    Second,
}

/// Why an image of a file was not loaded.
pub(crate) fn of_load(file: Named, fault: LoadFault) -> Failure {
    match fault {
        LoadFault::Bad(line) => Failure::NoImage(file, line),
        LoadFault::Read => Failure::Read(file),
        LoadFault::Memory | LoadFault::Shape => Failure::Memory,
    }
}

/// Why a difference was not printed.
pub(crate) fn of_print(fault: PrintFault) -> Failure {
    match fault {
        PrintFault::Memory => Failure::Memory,
        PrintFault::Write => Failure::Write,
    }
}

/// Why an image was not printed.
pub(crate) fn of_image(fault: ImageFault) -> Failure {
    match fault {
        ImageFault::Memory => Failure::Memory,
        ImageFault::Write => Failure::Write,
    }
}

/// Why a difference was not applied.
pub(crate) fn of_delta(fault: DeltaFault) -> Failure {
    match fault {
        DeltaFault::Memory => Failure::Memory,
        DeltaFault::Bad(line) => Failure::NoDelta(line),
        DeltaFault::OtherTree => Failure::OtherTree,
        DeltaFault::NoImage => Failure::Spoilt,
    }
}

/// Why edits were not applied.
pub(crate) fn of_edits(fault: EditFault) -> Failure {
    match fault {
        EditFault::Memory => Failure::Memory,
        EditFault::Bad(line) => Failure::NoDelta(line),
        EditFault::Unfit(line) => Failure::Unfit(line),
    }
}
