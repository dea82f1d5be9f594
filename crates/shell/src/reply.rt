//! Writes replies as text.
ghost use Rattle.std.specs.Prelude.{◌≡◌, ◌++◌, OnOk, OnErr, codes, flat_map};
ghost use Rattle.std.specs.Io.KnownBytes.{Appends};
ghost use Rattle.pathkey.specs.Numbers.{word_of};
ghost use Rattle.reference.specs.Pairs.{pairs_of};
ghost use Rattle.textio.specs.Parts.{AppendsPart};
ghost use Rattle.reference.specs.declared.reply.Reply.TheVariants.{Names, Stat};
ghost use Rattle.shell.specs.Replies.{entry_line, reply_text, name_word, stat_word};
ghost use Rattle.textio.specs.Texts.{hex_text};

use arrayvec::ArrayVec;
use pathkey::Errno;
use reference::{Kind, Reply};
use std::io::Write;
use textio::output::{WriteFailed, put};
use textio::short_line::{append, append_number};
use textio::text::{put_hex, put_number_line, put_percent};

/// Writes the lines of a reply, or a prefix of them.
pub fn write_reply<W: Write>(writer: &mut W, reply: &Reply) -> Result<(), WriteFailed>
    ensures ok { OnOk result (Appends (W.contents writer.old) (W.contents writer.new) (reply_text reply.now)) }
    ensures err { OnErr result (AppendsPart (W.contents writer.old) (W.contents writer.new) (reply_text reply.now)) }
{
    match reply {
        Reply::Done => put(writer, b"ok\n"),
        Reply::Count(n) => put_number_line(writer, b"count ", *n),
        Reply::Data(bytes) => put_data(writer, bytes.as_slice()),
        Reply::Stat(kind, len, modified) => put_stat(writer, *kind, *len, *modified),
        Reply::Names(entries) => put_names(writer, entries.as_slice()),
        Reply::Fault(fault) => put_fault(writer, *fault),
    }
}

/// Writes the line of an error, or a prefix of it.
pub fn put_fault<W: Write>(writer: &mut W, fault: Errno) -> Result<(), WriteFailed>
    ensures ok { OnOk result (Appends (W.contents writer.old) (W.contents writer.new) (codes "fault " ++ word_of fault ++ codes "\n")) }
    ensures err { OnErr result (AppendsPart (W.contents writer.old) (W.contents writer.new) (codes "fault " ++ word_of fault ++ codes "\n")) }
{
    put(writer, b"fault ")?;
    put(writer, fault.name().as_bytes())?;
    put(writer, b"\n")?;
    Ok(())
}

// Writes the line of a stat, or a prefix of it.
fn put_stat<W: Write>(
    writer: &mut W,
    kind: Kind,
    len: u64,
    modified: u64,
) -> Result<(), WriteFailed>
    ensures ok { OnOk result (Appends (W.contents writer.old) (W.contents writer.new) (reply_text (Stat kind len modified))) }
    ensures err { OnErr result (AppendsPart (W.contents writer.old) (W.contents writer.new) (reply_text (Stat kind len modified))) }
{
    let mut line = ArrayVec::new();
    append(&mut line, stat_word(kind));
    append_number(&mut line, len);
    line.push(b' ');
    append_number(&mut line, modified);
    line.push(b'\n');
    put(writer, line.as_slice())
}

// What precedes the length in the reply to a stat.
fn stat_word(kind: Kind) -> &'static [u8]
    ensures { result.now ≡ stat_word kind }
{
    match kind {
        Kind::Dir => b"dir ",
        Kind::File => b"file ",
    }
}

// Writes the line of bytes that were read, or a prefix of it.
fn put_data<W: Write>(writer: &mut W, bytes: &[u8]) -> Result<(), WriteFailed>
    ensures ok { OnOk result (Appends (W.contents writer.old) (W.contents writer.new) (codes "bytes " ++ hex_text bytes.now ++ codes "\n")) }
    ensures err { OnErr result (AppendsPart (W.contents writer.old) (W.contents writer.new) (codes "bytes " ++ hex_text bytes.now ++ codes "\n")) }
{
    put(writer, b"bytes ")?;
    put_hex(writer, bytes)?;
    put(writer, b"\n")?;
    Ok(())
}

// Writes the lines of the entries of a directory, or a prefix of them.
fn put_names<W: Write>(writer: &mut W, entries: &[(Kind, Vec<u8>)]) -> Result<(), WriteFailed>
    ensures ok { OnOk result (Appends (W.contents writer.old) (W.contents writer.new) (reply_text (Names (pairs_of entries.now)))) }
    ensures err { OnErr result (AppendsPart (W.contents writer.old) (W.contents writer.new) (reply_text (Names (pairs_of entries.now)))) }
{
    put_number_line(writer, b"names ", entries.len() as u64)?;
    put_entries(writer, entries)?;
    Ok(())
}

// Writes the lines of entries, or a prefix of them.
fn put_entries<W: Write>(writer: &mut W, entries: &[(Kind, Vec<u8>)]) -> Result<(), WriteFailed>
    ensures ok { OnOk result (Appends (W.contents writer.old) (W.contents writer.new) (flat_map entry_line (pairs_of entries.now))) }
    ensures err { OnErr result (AppendsPart (W.contents writer.old) (W.contents writer.new) (flat_map entry_line (pairs_of entries.now))) }
{
    for (kind, name) in entries {
        put_entry(writer, *kind, name.as_slice())?;
    }
    Ok(())
}

/// Writes the line of an entry, or a prefix of it.
pub(crate) fn put_entry<W: Write>(
    writer: &mut W,
    kind: Kind,
    name: &[u8],
) -> Result<(), WriteFailed>
    ensures ok { OnOk result (Appends (W.contents writer.old) (W.contents writer.new) (entry_line (kind, name.now))) }
    ensures err { OnErr result (AppendsPart (W.contents writer.old) (W.contents writer.new) (entry_line (kind, name.now))) }
{
    put(writer, name_word(kind))?;
    put_percent(writer, name)?;
    put(writer, b"\n")?;
    Ok(())
}

/// What precedes a name.
pub(crate) fn name_word(kind: Kind) -> &'static [u8]
    ensures { result.now ≡ name_word kind }
{
    match kind {
        Kind::Dir => b"d ",
        Kind::File => b"f ",
    }
}
