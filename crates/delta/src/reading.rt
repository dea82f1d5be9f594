//! Parses a delta to its end before anything is changed: its digest and its commands, or the number of its first bad line.
//! `docs/FORMATS.md` has the format.
//!
//! A line is bad if no delta continues the lines before it with that line. A text has at most one digest and one list of
//! commands.
ghost use Rattle.std.specs.Prelude.{◌≡◌, ◌+◌, ◌<◌, ◌^◌, List, MatchOption, MatchResult, length};
ghost use Rattle.delta.specs.Deltas.{Command};
ghost use Rattle.delta.specs.Texts.{HasNoCommand, IsBadAt, IsNext, NoEnd, Passes, ReadsDelta, end_text};

use crate::command::{DeltaCommand, read_command};
use crate::header::read_header;
use textio::words::split_line;

/// Parses a delta. Returns its digest and the lines after the first. If the text is not a delta, fails with the number of its
/// first bad line, counted from 1.
pub fn read_delta(text: &[u8]) -> Result<([u8; 32], &[u8]), u64>
    ensures { MatchResult result (λ r. (cs : List Command) × ReadsDelta text.now r.0 r.1.now cs) (λ n. IsBadAt n text.now) }
{
    let Some((line, behind)) = split_line(text) else {
        return Err(1);
    };
    let Some(digest) = read_header(line) else {
        return Err(1);
    };
    let (rest, number) = pass_commands(behind);
    match read_end(rest, number) {
        Ok(()) => Ok((digest, behind)),
        Err(bad) => Err(bad),
    }
}

// Skips the commands at the start of a text whose first line has the number 2. Returns the rest, and the number of its line.
fn pass_commands(text: &[u8]) -> (&[u8], u64)
    ensures passes { (cs : List Command) × Passes cs text.now result.0.now × (result.1 ≡ length cs + 2) }
    ensures last { HasNoCommand result.0.now }
    ensures fits { result.1 + 1 < 2 ^ 64 }
{
    let mut rest = text;
    let mut number = 2u64;
    'lines: while let Some((_, _, behind)) = next_command(rest) {
        rest = behind;
        number += 1;
    }
    (rest, number)
}

/// Splits the first line off a text, with its command, and returns the rest too. Returns `None` if the text does not begin
/// with a complete line that is a command.
pub(crate) fn next_command(text: &[u8]) -> Option<(&[u8], DeltaCommand, &[u8])>
    ensures { MatchOption result (HasNoCommand text.now) (λ next. IsNext text.now next.0.now next.1 next.2.now) }
{
    let Some((line, behind)) = split_line(text) else {
        return None;
    };
    match read_command(line) {
        Some(parsed) => Some((line, parsed, behind)),
        None => None,
    }
}

// Checks that a text without a command at its start is the end of a delta. Fails with the number of the bad line. `number` is
// that of the first line of the text.
fn read_end(text: &[u8], number: u64) -> Result<(), u64>
    requires { number + 1 < 2 ^ 64 }
    ensures { MatchResult result (λ _. text.now ≡ end_text) (λ bad. NoEnd text.now number bad) }
{
    match text.strip_prefix(b"end\n") {
        Some(behind) => {
            if behind.is_empty() {
                Ok(())
            } else {
                Err(number + 1)
            }
        }
        None => Err(number),
    }
}
