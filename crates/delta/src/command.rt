//! The lines of a delta that are commands: the given number of lines of the old image are copied or deleted, or a line is
//! inserted. `docs/FORMATS.md` has their format.
//!
//! A line is at most one command, and each command has one line.
ghost use Rattle.std.specs.Prelude.{◌≡◌, ◌≢◌, ◌∷◌, [], ◌<◌, ◌^◌, ℕ, MatchOption, OnErr, OnOk, decimal};
ghost use Rattle.std.specs.Io.KnownBytes.{Appends};
ghost use Rattle.textio.specs.Parts.{AppendsPart};
ghost use Rattle.delta.specs.Deltas.{Come, Go, IsLine, Stay, commands_text, run};
ghost use Rattle.delta.specs.Texts.{Tells, TellsNone, command_of};

use std::io::Write;
use textio::output::{WriteFailed, put};
use textio::text::put_number_line;
use textio::values::read_number;

/// A parsed command.
#[derive(Clone, Copy, Debug, PartialEq, Eq)]
pub enum DeltaCommand {
    /// Copies the given number of lines of the old image.
    Stay(u64),
    /// Deletes the given number of lines of the old image.
    Go(u64),
    /// Inserts the line that follows the first two bytes.
    Come,
}

/// Parses a command. Returns `None` if the line is not a command.
pub fn read_command(line: &[u8]) -> Option<DeltaCommand>
    requires { IsLine line.now }
    ensures { MatchOption result (TellsNone line.now) (λ parsed. Tells line.now (command_of parsed line.now)) }
{
    if let Some(_) = line.strip_prefix(b"+ ") {
        return Some(DeltaCommand::Come);
    }
    if let Some(word) = line.strip_prefix(b"= ") {
        return match read_count(word) {
            Some(count) => Some(DeltaCommand::Stay(count)),
            None => None,
        };
    }
    if let Some(word) = line.strip_prefix(b"- ") {
        return match read_count(word) {
            Some(count) => Some(DeltaCommand::Go(count)),
            None => None,
        };
    }
    None
}

// Parses a number that is at least 1.
fn read_count(word: &[u8]) -> Option<u64>
    ensures { MatchOption result ((n : ℕ) → 0 < n → n < 2 ^ 64 → word.now ≢ decimal n) (λ n. (0 < n) × (word.now ≡ decimal n)) }
{
    let Some(number) = read_number(word) else {
        return None;
    };
    if number == 0 {
        return None;
    }
    Some(number)
}

/// Writes the command that copies `count` lines, or a prefix of it. Writes nothing if `count` is 0.
pub(crate) fn print_copy<W: Write>(writer: &mut W, count: u64) -> Result<(), WriteFailed>
    ensures ok { OnOk result (Appends (W.contents writer.old) (W.contents writer.new) (commands_text (run Stay count))) }
    ensures err { OnErr result (AppendsPart (W.contents writer.old) (W.contents writer.new) (commands_text (run Stay count))) }
{
    if count == 0 {
        return put(writer, b"");
    }
    put_number_line(writer, b"= ", count)
}

/// Writes the command that deletes `count` lines, or a prefix of it. Writes nothing if `count` is 0.
pub(crate) fn print_delete<W: Write>(writer: &mut W, count: u64) -> Result<(), WriteFailed>
    ensures ok { OnOk result (Appends (W.contents writer.old) (W.contents writer.new) (commands_text (run Go count))) }
    ensures err { OnErr result (AppendsPart (W.contents writer.old) (W.contents writer.new) (commands_text (run Go count))) }
{
    if count == 0 {
        return put(writer, b"");
    }
    put_number_line(writer, b"- ", count)
}

/// Writes the command that inserts a line, or a prefix of it.
pub(crate) fn print_insert<W: Write>(writer: &mut W, line: &[u8]) -> Result<(), WriteFailed>
    ensures ok { OnOk result (Appends (W.contents writer.old) (W.contents writer.new) (commands_text (Come line.now ∷ []))) }
    ensures err { OnErr result (AppendsPart (W.contents writer.old) (W.contents writer.new) (commands_text (Come line.now ∷ []))) }
{
    put(writer, b"+ ")?;
    put(writer, line)?;
    put(writer, b"\n")?;
    Ok(())
}
