//! Runs a script: reads it piece by piece, executes each line, and writes its reply.
//!
//! The replies written so far are those of the executed lines, in order; a run that ends early has written a prefix of
//! its last reply.
ghost use Rattle.std.specs.Prelude.{◌≡◌, ◌≢◌, ◌≤◌, ◌<◌, ◌+◌, ◌∷◌, ℕ, List, [], length, vec_capacity, IfErr, IfOk, OnOk, OnErr};
ghost use Rattle.std.specs.Io.KnownBytes.{Appends, Keeps};
ghost use Rattle.textio.specs.Parts.{AppendsPart};
ghost use Rattle.reference.specs.declared.reply.Reply.TheVariants.{Fault};
ghost use Rattle.shell.specs.Listings.{Shows};
ghost use Rattle.shell.specs.Replies.{reply_text};
ghost use Rattle.shell.specs.Script.{Answers, Does, IsCut, IsHalt, Lines, Script, Answered, settled_reply};
ghost use Rattle.reference.specs.Worlds.{World};
ghost use Rattle.volume.specs.Volumes.{Means};
ghost use Rattle.shell.specs.Runs.{DoesAll, DoesGiven, DoesUntil, DoesUntilFault, Halts, Leads, Left, Meant};
ghost use Rattle.shell.specs.Progress.{DoesPiece, HaltsInPiece, last_line};
ghost use Rattle.shell.specs.Verdicts.{Judges, fails, is_fault};
ghost use Rattle.textio.specs.Held.{Holds};

use crate::command::{read_request, timestamp_of};
use crate::entry_lines::EntryLines;
use crate::pace::Pace;
use crate::reply::{put_fault, write_reply};
use crate::request::{ReadCall, Request};
use crate::session::Session;
use crate::verdict::{Halt, Verdict};
use crate::watch::{Unwatched, Watch};
use pathkey::Errno;
use reference::{Call, Reply};
use std::alloc::Global;
use std::io::{Read, Write};
use textio::input::read_some;
use textio::line_buffer::{LONGEST_LINE, READ_SIZE, push_limited};
use textio::output::{WriteFailed, flush, put};
use textio::text::put_number_line;
use textio::words::split_line;
use thiserror::Error;
use volume::Volume;

/// Why a script was not read to its end, or its replies not written.
#[derive(Debug, Drop, PartialEq, Eq, Error)]
pub enum ScriptFault {
    /// An allocation for the run failed. Nothing was read.
    #[error("betr: no memory")]
    Memory,
    /// The reader failed. Each complete line before was executed and answered.
    #[error("betr: read failed")]
    Read,
    /// The writer failed. No line after the one of this reply was executed.
    #[error("betr: write failed")]
    Write,
}

/// Runs all lines of the reader on the volume, and writes the reply to each when it is done. The calls before the first line
/// that sets the timestamp have the timestamp 0. After each line the pace picks tree steps. Whatever they are, the replies
/// and the world that the volume abstracts to are the same.
///
/// At most one line is held, and of a line that is too long only as much as shows that it is. The writer is flushed before
/// each read and at the end.
pub fn run_script<R: Read, W: Write, P: Pace>(
    alloc: Global,
    volume: &mut Volume,
    reader: &mut R,
    writer: &mut W,
    pace: &mut P,
) -> Result<(), ScriptFault>
    ensures memory { result ≡ Err ScriptFault.Memory → (volume.new ≡ volume.old) × (reader.new ≡ reader.old)
        × (writer.new ≡ writer.old) }
    ensures done { OnOk result (Leads (Meant (Means volume.old) 0) (Left (Means volume.new)) (DoesAll Does (R.remaining reader.old) (R.remaining reader.new))
        (Appends (W.contents writer.old) (W.contents writer.new))) }
    ensures read { result ≡ Err ScriptFault.Read → Leads (Meant (Means volume.old) 0) (Left (Means volume.new))
        (DoesGiven Does (R.remaining reader.old) (R.remaining reader.new)) (Appends (W.contents writer.old) (W.contents writer.new)) }
    ensures write { result ≡ Err ScriptFault.Write → Leads (Meant (Means volume.old) 0) (Left (Means volume.new))
        (DoesUntil Does IsCut (R.remaining reader.old)) (Appends (W.contents writer.old) (W.contents writer.new)) }
{
    let mut at = 0;
    match run_lines(alloc, volume, &mut at, reader, writer, pace, &mut Unwatched) {
        Ok(()) => Ok(()),
        Err(Ending::Failed(fault)) => Err(fault),
        // Unreachable: nothing requests that.
        Err(Ending::Fault(_)) => Err(ScriptFault::Write),
    }
}

/// Why a watched run ended before the end of its script.
#[derive(Debug, Drop, PartialEq, Eq, Error)]
pub enum Ending {
    /// The script failed.
    #[error(transparent)]
    Failed(ScriptFault),
    /// The line with this number, counted from 1, was answered by a fault or an error, and the run had to end there.
    #[error("betr: fault at line {0}")]
    Fault(u64),
}

// Runs all lines of the reader on a session, as `run_script` does on a volume. If the watch is strict, it stops after the
// first line that is answered by a fault or an error. The world of a session that is shared with others is not
// determined, so nothing is promised about it.
pub(crate) fn run_lines<S: Session, R: Read, W: Write, P: Pace, V: Watch>(
    alloc: Global,
    session: &mut S,
    at: &mut u64,
    reader: &mut R,
    writer: &mut W,
    pace: &mut P,
    watch: &mut V,
) -> Result<(), Ending>
    ensures memory { result ≡ Err (Ending.Failed ScriptFault.Memory) → (session.new ≡ session.old) × (at.new ≡ at.old) × (reader.new ≡ reader.old)
        × (writer.new ≡ writer.old) }
    ensures done { OnOk result (Leads (Meant (S.means session.old) at.old) (Meant (S.means session.new) at.new) (DoesAll (Answered (V.is_strict watch.old)) (R.remaining reader.old) (R.remaining reader.new))
        (Appends (W.contents writer.old) (W.contents writer.new))) }
    ensures read { result ≡ Err (Ending.Failed ScriptFault.Read) → Leads (Meant (S.means session.old) at.old) (Meant (S.means session.new) at.new)
        (DoesGiven (Answered (V.is_strict watch.old)) (R.remaining reader.old) (R.remaining reader.new)) (Appends (W.contents writer.old) (W.contents writer.new)) }
    ensures write { result ≡ Err (Ending.Failed ScriptFault.Write) → Leads (Meant (S.means session.old) at.old) (Meant (S.means session.new) at.new)
        (DoesUntil (Answered (V.is_strict watch.old)) IsCut (R.remaining reader.old)) (Appends (W.contents writer.old) (W.contents writer.new)) }
    ensures fault { (n : ℕ) → result ≡ Err (Ending.Fault n) → Leads (Meant (S.means session.old) at.old) (Meant (S.means session.new) at.new)
        (DoesUntilFault (V.is_strict watch.old) (R.remaining reader.old)) (Appends (W.contents writer.old) (W.contents writer.new)) }
{
    let Ok(mut piece) = Vec::from_elem(alloc, 0u8, READ_SIZE) else {
        return Err(Ending::Failed(ScriptFault::Memory));
    };
    let Ok(mut line) = Vec::with_capacity(alloc, LONGEST_LINE + 1) else {
        return Err(Ending::Failed(ScriptFault::Memory));
    };
    run_over(
        alloc,
        session,
        at,
        reader,
        writer,
        pace,
        watch,
        piece.as_mut_slice(),
        &mut line,
    )
}

// Reads and executes piece after piece, in the given buffers.
fn run_over<S: Session, R: Read, W: Write, P: Pace, V: Watch>(
    alloc: Global,
    session: &mut S,
    at: &mut u64,
    reader: &mut R,
    writer: &mut W,
    pace: &mut P,
    watch: &mut V,
    piece: &mut [u8],
    line: &mut Vec<u8>,
) -> Result<(), Ending>
    requires piece { 0 < length piece.old }
    requires room { 65536 < vec_capacity line.old }
    requires empty { line.old.items ≡ [] }
    ensures kinds { result ≢ Err (Ending.Failed ScriptFault.Memory) }
    ensures done { OnOk result (Leads (Meant (S.means session.old) at.old) (Meant (S.means session.new) at.new) (DoesAll (Answered (V.is_strict watch.old)) (R.remaining reader.old) (R.remaining reader.new))
        (Appends (W.contents writer.old) (W.contents writer.new))) }
    ensures read { result ≡ Err (Ending.Failed ScriptFault.Read) → Leads (Meant (S.means session.old) at.old) (Meant (S.means session.new) at.new)
        (DoesGiven (Answered (V.is_strict watch.old)) (R.remaining reader.old) (R.remaining reader.new)) (Appends (W.contents writer.old) (W.contents writer.new)) }
    ensures write { result ≡ Err (Ending.Failed ScriptFault.Write) → Leads (Meant (S.means session.old) at.old) (Meant (S.means session.new) at.new)
        (DoesUntil (Answered (V.is_strict watch.old)) IsCut (R.remaining reader.old)) (Appends (W.contents writer.old) (W.contents writer.new)) }
    ensures fault { (n : ℕ) → result ≡ Err (Ending.Fault n) → Leads (Meant (S.means session.old) at.old) (Meant (S.means session.new) at.new)
        (DoesUntilFault (V.is_strict watch.old) (R.remaining reader.old)) (Appends (W.contents writer.old) (W.contents writer.new)) }
{
    // No input has more pieces than this.
    for _ in 0..u64::MAX {
        if let Err(WriteFailed) = flush(writer) {
            return Err(Ending::Failed(ScriptFault::Write));
        }
        let Ok(n) = read_some(reader, piece) else {
            return Err(Ending::Failed(ScriptFault::Read));
        };
        if n == 0 {
            return match finish(alloc, session, at, line.as_slice(), writer, pace, watch) {
                Ok(()) => Ok(()),
                Err(halt) => Err(end_early(halt, writer, watch)),
            };
        }
        if let Err(halt) = take_piece(alloc, session, at, line, &piece[..n], writer, pace, watch) {
            return Err(end_early(halt, writer, watch));
        }
    }
    Err(Ending::Failed(ScriptFault::Read))
}

// Flushes the writer, unless it failed. Returns why the run ends.
fn end_early<W: Write, V: Watch>(halt: Halt, writer: &mut W, watch: &V) -> Ending
    ensures keeps { Keeps (W.contents writer.old) (W.contents writer.new) }
    ensures memory { result ≢ Ending.Failed ScriptFault.Memory }
    ensures read { result ≢ Ending.Failed ScriptFault.Read }
    ensures fault { (n : ℕ) → result ≡ Ending.Fault n → halt ≡ Halt.Fault }
{
    if halt == Halt::Write || flush(writer).is_err() {
        return Ending::Failed(ScriptFault::Write);
    }
    Ending::Fault(watch.lines())
}

// Executes each line that ends in a piece of the text, and holds what follows the last of them. A line is only copied if it
// began in an earlier piece.
fn take_piece<S: Session, W: Write, P: Pace, V: Watch>(
    alloc: Global,
    session: &mut S,
    at: &mut u64,
    line: &mut Vec<u8>,
    piece: &[u8],
    writer: &mut W,
    pace: &mut P,
    watch: &mut V,
) -> Result<(), Halt>
    requires room { 65536 < vec_capacity line.old }
    ensures room { 65536 < vec_capacity line.new }
    ensures same { V.is_strict watch.new ≡ V.is_strict watch.old }
    ensures ok { OnOk result ((held : List ℕ) → Holds held line.old.items → Leads (Meant (S.means session.old) at.old) (Meant (S.means session.new) at.new)
        (DoesPiece (V.is_strict watch.old) held piece.now line.new.items)
        (Appends (W.contents writer.old) (W.contents writer.new))) }
    ensures err { IfErr result (λ h. (held : List ℕ) → Holds held line.old.items → Leads (Meant (S.means session.old) at.old) (Meant (S.means session.new) at.new)
        (HaltsInPiece (V.is_strict watch.old) h held piece.now) (Appends (W.contents writer.old) (W.contents writer.new))) }
{
    let mut rest = piece;
    while let Some((end, after)) = split_line(rest) {
        if line.is_empty() {
            do_line(alloc, session, at, end, writer, pace, watch)?;
        } else {
            push_limited(line, end);
            do_line(alloc, session, at, line.as_slice(), writer, pace, watch)?;
            line.clear();
        }
        rest = after;
    }
    push_limited(line, rest);
    Ok(())
}

// Executes the last line, if the text does not end with a line feed.
fn finish<S: Session, W: Write, P: Pace, V: Watch>(
    alloc: Global,
    session: &mut S,
    at: &mut u64,
    line: &[u8],
    writer: &mut W,
    pace: &mut P,
    watch: &mut V,
) -> Result<(), Halt>
    ensures ok { OnOk result (Leads (Meant (S.means session.old) at.old) (Meant (S.means session.new) at.new) (λ first. Lines (Answered (V.is_strict watch.old)) first (last_line line.now))
        (Appends (W.contents writer.old) (W.contents writer.new))) }
    ensures err { IfErr result (λ h. Leads (Meant (S.means session.old) at.old) (Meant (S.means session.new) at.new) (Halts (IsHalt (V.is_strict watch.old) h) (last_line line.now))
        (Appends (W.contents writer.old) (W.contents writer.new))) }
{
    if line.is_empty() {
        return write_out(writer);
    }
    do_line(alloc, session, at, line, writer, pace, watch)?;
    write_out(writer)
}

// Flushes the writer.
fn write_out<W: Write>(writer: &mut W) -> Result<(), Halt>
    ensures keeps { Keeps (W.contents writer.old) (W.contents writer.new) }
    ensures err { OnErr result (result ≡ Err Halt.Write) }
{
    match flush(writer) {
        Ok(()) => Ok(()),
        Err(WriteFailed) => Err(Halt::Write),
    }
}

// Executes one line and writes its reply, and then does the steps that the pace picks.
fn do_line<S: Session, W: Write, P: Pace, V: Watch>(
    alloc: Global,
    session: &mut S,
    at: &mut u64,
    line: &[u8],
    writer: &mut W,
    pace: &mut P,
    watch: &mut V,
) -> Result<(), Halt>
    ensures same { V.is_strict watch.new ≡ V.is_strict watch.old }
    ensures ok { OnOk result (Leads (Meant (S.means session.old) at.old) (Meant (S.means session.new) at.new) (λ first. Answered (V.is_strict watch.old) first line.now)
        (Appends (W.contents writer.old) (W.contents writer.new))) }
    ensures err { IfErr result (λ h. Leads (Meant (S.means session.old) at.old) (Meant (S.means session.new) at.new) (Halts (IsHalt (V.is_strict watch.old) h) (line.now ∷ []))
        (Appends (W.contents writer.old) (W.contents writer.new))) }
{
    let Ok(verdict) = answer_line(alloc, session, at, line, writer) else {
        return Err(Halt::Write);
    };
    if !watch.see(verdict) {
        return Err(Halt::Fault);
    }
    session.run_steps(alloc, pace);
    Ok(())
}

// Executes one line and writes its reply. Returns whether that is a fault or an error.
fn answer_line<S: Session, W: Write>(
    alloc: Global,
    session: &mut S,
    at: &mut u64,
    line: &[u8],
    writer: &mut W,
) -> Result<Verdict, WriteFailed>
    ensures ok { IfOk result (λ v. Leads (Meant (S.means session.old) at.old) (Meant (S.means session.new) at.new) (λ first. Does first line.now)
        (Judges v (W.contents writer.old) (W.contents writer.new))) }
    ensures err { OnErr result (Leads (Meant (S.means session.old) at.old) (Meant (S.means session.new) at.new) (λ first. Does first line.now)
        (AppendsPart (W.contents writer.old) (W.contents writer.new))) }
{
    if let Some(timestamp) = timestamp_of(line) {
        *at = timestamp;
        return put_line(writer, b"ok\n", Verdict::Done);
    }
    answer(alloc, session, at, &read_request(alloc, line), writer)
}

// Executes a request, and writes the reply. Returns whether that is a fault or an error.
fn answer<S: Session, W: Write>(
    alloc: Global,
    session: &mut S,
    at: &mut u64,
    request: &Request,
    writer: &mut W,
) -> Result<Verdict, WriteFailed>
    ensures ok { IfOk result (λ v. Leads (Meant (S.means session.old) at.old) (Meant (S.means session.new) at.new) (λ first. Answers first request.now)
        (Judges v (W.contents writer.old) (W.contents writer.new))) }
    ensures err { OnErr result (Leads (Meant (S.means session.old) at.old) (Meant (S.means session.new) at.new) (λ first. Answers first request.now)
        (AppendsPart (W.contents writer.old) (W.contents writer.new))) }
{
    match request {
        Request::Silent => Ok(Verdict::Done),
        Request::Overlong => put_line(writer, b"error line\n", Verdict::Overlong),
        Request::Malformed => put_line(writer, b"error syntax\n", Verdict::Malformed),
        Request::Refused(fault) => put_refusal(writer, *fault),
        Request::Moment(moment) => {
            *at = *moment;
            put_line(writer, b"ok\n", Verdict::Done)
        }
        Request::Wanted(Call::Readdir(path)) => {
            let listed = session.list(alloc, path, *at);
            put_listing(writer, listed)
        }
        Request::Wanted(call) => {
            let reply = session.call(alloc, call, *at);
            put_reply(writer, reply)
        }
        Request::Snapshot(name) => {
            let settled = session.snapshot(alloc, name);
            put_settled(writer, settled)
        }
        Request::DropSnapshot(name) => {
            let settled = session.drop_snapshot(name);
            put_settled(writer, settled)
        }
        Request::Restore(name) => {
            let settled = session.restore(name);
            put_settled(writer, settled)
        }
        Request::Past(name, ReadCall::Readdir(path)) => {
            let listed = session.list_snapshot(alloc, name, path);
            put_listing(writer, listed)
        }
        Request::Past(name, look) => {
            let reply = session.read_snapshot(alloc, name, look);
            put_reply(writer, reply)
        }
    }
}

// Writes a line, and returns the given verdict of it.
fn put_line<W: Write>(writer: &mut W, line: &[u8], verdict: Verdict) -> Result<Verdict, WriteFailed>
    requires { fails verdict ≡ is_fault line.now }
    ensures ok { IfOk result (λ v. Judges v (W.contents writer.old) (W.contents writer.new) line.now) }
    ensures err { OnErr result (AppendsPart (W.contents writer.old) (W.contents writer.new) line.now) }
{
    put(writer, line)?;
    Ok(verdict)
}

// Writes the line of an error.
fn put_refusal<W: Write>(writer: &mut W, fault: Errno) -> Result<Verdict, WriteFailed>
    ensures ok { IfOk result (λ v. Judges v (W.contents writer.old) (W.contents writer.new) (reply_text (Fault fault))) }
    ensures err { OnErr result (AppendsPart (W.contents writer.old) (W.contents writer.new) (reply_text (Fault fault))) }
{
    put_fault(writer, fault)?;
    Ok(Verdict::Fault)
}

// Writes the reply to a call.
fn put_reply<W: Write>(writer: &mut W, reply: Reply) -> Result<Verdict, WriteFailed>
    ensures ok { IfOk result (λ v. Judges v (W.contents writer.old) (W.contents writer.new) (reply_text reply)) }
    ensures err { OnErr result (AppendsPart (W.contents writer.old) (W.contents writer.new) (reply_text reply)) }
{
    let verdict = Verdict::of_reply(&reply);
    let reported = write_reply(writer, &reply);
    // Dropped by a call, so that the proof costs less.
    drop(reply);
    reported?;
    Ok(verdict)
}

// Writes the reply to a listing.
fn put_listing<W: Write>(
    writer: &mut W,
    listed: Result<EntryLines, Errno>,
) -> Result<Verdict, WriteFailed>
    ensures ok { (r : Reply) → Shows listed r → IfOk result (λ v. Judges v (W.contents writer.old) (W.contents writer.new) (reply_text r)) }
    ensures err { (r : Reply) → Shows listed r → OnErr result (AppendsPart (W.contents writer.old) (W.contents writer.new) (reply_text r)) }
{
    match listed {
        Ok(lines) => {
            put_number_line(writer, b"names ", lines.count)?;
            put(writer, lines.text.as_slice())?;
            Ok(Verdict::Done)
        }
        Err(fault) => put_refusal(writer, fault),
    }
}

// Writes the reply to a snapshot call.
fn put_settled<W: Write>(writer: &mut W, settled: Result<(), Errno>) -> Result<Verdict, WriteFailed>
    ensures ok { IfOk result (λ v. Judges v (W.contents writer.old) (W.contents writer.new) (reply_text (settled_reply settled))) }
    ensures err { OnErr result (AppendsPart (W.contents writer.old) (W.contents writer.new) (reply_text (settled_reply settled))) }
{
    match settled {
        Ok(()) => put_line(writer, b"ok\n", Verdict::Done),
        Err(fault) => put_refusal(writer, fault),
    }
}
