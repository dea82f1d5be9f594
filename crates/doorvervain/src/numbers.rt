//! Outcomes as numbers for C: 0 is success, and each errno has one number of its own.
ghost use Rattle.std.specs.Prelude.{◌≡◌, ◌↔◌, ◌<◌, ℕ, IfErr};
ghost use Rattle.doorvervain.specs.Holes.{run_reported};
ghost use Rattle.doorvervain.specs.Numbers.{Gives, IsNumber, IsSizeNumber, short, sized_by, stat_reported, reported, reported_by};

use pathkey::Errno;
use reference::Meta;

/// The number of success.
const DONE: u8 = 0;

/// The number of a buffer that is too small.
const SHORT: u8 = 13;

/// The kind of a directory in C.
const DIRECTORY: u8 = 1;

/// The kind of a file in C.
const FILE: u8 = 2;

/// The kind in C if nothing is returned.
const NEITHER: u8 = 0;

/// The number of an outcome: 0, or the number of the error.
pub(crate) fn number(outcome: Result<(), Errno>) -> u8
    ensures reported { reported result ≡ outcome }
    ensures number { IsNumber result }
{
    match outcome {
        Ok(()) => DONE,
        Err(fault) => fault.number(),
    }
}

/// The number of an outcome with a count of bytes that the caller knows already: 0, or the number of the error.
pub(crate) fn uncounted(outcome: Result<u64, Errno>) -> u8
    ensures reported { (given : ℕ) × (reported_by result given ≡ outcome) }
    ensures number { IsNumber result }
{
    match outcome {
        Ok(_) => DONE,
        Err(fault) => fault.number(),
    }
}

/// The number of an outcome, and the begin and end of the run, which are both 0 on an error.
pub(crate) fn run(outcome: Result<(u64, u64), Errno>, begin: &mut u64, end: &mut u64) -> u8
    ensures reported { run_reported result begin.new end.new ≡ outcome }
    ensures number { IsNumber result }
    ensures refused { IfErr outcome (λ _. (begin.new ≡ 0) × (end.new ≡ 0)) }
{
    match outcome {
        Ok((first, last)) => {
            *begin = first;
            *end = last;
            DONE
        }
        Err(fault) => {
            *begin = 0;
            *end = 0;
            fault.number()
        }
    }
}

/// The number of an outcome, and the count of bytes, which is 0 on an error.
pub(crate) fn count(outcome: Result<usize, Errno>, got: &mut usize) -> u8
    ensures reported { reported_by result got.new ≡ outcome }
    ensures number { IsNumber result }
    ensures refused { IfErr outcome (λ _. got.new ≡ 0) }
{
    match outcome {
        Ok(n) => {
            *got = n;
            DONE
        }
        Err(fault) => {
            *got = 0;
            fault.number()
        }
    }
}

/// The number of an outcome, and the count of bytes in a file, which is 0 on an error.
pub(crate) fn counted(outcome: Result<u64, Errno>, bytes: &mut u64) -> u8
    ensures reported { reported_by result bytes.new ≡ outcome }
    ensures number { IsNumber result }
    ensures refused { IfErr outcome (λ _. bytes.new ≡ 0) }
{
    match outcome {
        Ok(n) => {
            *bytes = n;
            DONE
        }
        Err(fault) => {
            *bytes = 0;
            fault.number()
        }
    }
}

/// The number of an outcome with a size, and the size, which is 0 on an error. If the buffer is smaller than the size but not
/// empty, the number is that of a short buffer.
pub(crate) fn sized(outcome: Result<usize, Errno>, room: usize, size: &mut usize) -> u8
    ensures reported { sized_by result size.new ≡ outcome }
    ensures short { (result ≡ short) ↔ ((0 < room) × (room < size.new)) }
    ensures number { IsSizeNumber result }
    ensures refused { IfErr outcome (λ _. size.new ≡ 0) }
{
    match outcome {
        Ok(n) if room > 0 && room < n => {
            *size = n;
            SHORT
        }
        _ => count(outcome, size),
    }
}

/// The number of an outcome, and the kind, length and mtime of an entry, which are all 0 on an error.
pub(crate) fn kind(
    outcome: Result<Meta, Errno>,
    kind: &mut u8,
    length: &mut u64,
    moment: &mut u64,
) -> u8
    ensures reported { stat_reported result kind.new length.new moment.new ≡ outcome }
    ensures number { IsNumber result }
    ensures gives { Gives outcome kind.new length.new moment.new }
{
    match outcome {
        Ok(Meta::Dir { modified }) => {
            *kind = DIRECTORY;
            *length = 0;
            *moment = modified;
            DONE
        }
        Ok(Meta::File { len, modified }) => {
            *kind = FILE;
            *length = len;
            *moment = modified;
            DONE
        }
        Err(fault) => {
            *kind = NEITHER;
            *length = 0;
            *moment = 0;
            fault.number()
        }
    }
}
