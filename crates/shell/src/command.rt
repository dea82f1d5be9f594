//! Parses a line of a script as a request. `docs/FORMATS.md` has the format of scripts.
//!
//! Every line has exactly one request; a line that is no command is `Malformed`, `Overlong` or `Silent`.
ghost use Rattle.std.specs.Prelude.{◌≡◌, ◌⊎◌, Err, IfSome, MatchResult, length, nat_lt};
ghost use Rattle.pathkey.specs.declared.errno.Errno.TheVariants.{ENOMEM};
ghost use Rattle.shell.specs.declared.request.Request.TheVariants.{Moment};
ghost use Rattle.textio.specs.Lines.{words_of};
ghost use Rattle.pathkey.specs.SnapNames.{snap_parsed};
ghost use Rattle.shell.specs.Requests.{IsReadAs, call_at, command_of, looking, named_command, offset_command, past, past_path_command, past_read_command, path_command, path_verb, read_command, rename_of, request_of, third_command, truncate_command, with_value, write_command};
ghost use Rattle.textio.specs.Values.{number_of, path_of};

use crate::request::{PathVerb, ReadCall, Request};
use pathkey::{Errno, NoMemory, Path, SnapName};
use reference::Call;
use std::alloc::Global;
use textio::line_buffer::LONGEST_LINE;
use textio::values::{read_bytes, read_number, read_path};
use textio::words::{split_at_sign, split_word};

/// The timestamp of a line that has one and is not too long. In a script with timestamps every second line is one of these.
#[inline(always)]
pub(crate) fn timestamp_of(line: &[u8]) -> Option<u64>
    ensures { IfSome result (λ at. request_of line.now ≡ Moment at) }
{
    if is_overlong(line) {
        return None;
    }
    read_number(line.strip_prefix(b"at ".as_slice())?)
}

// Whether a line is too long to be parsed.
#[inline(always)]
fn is_overlong(line: &[u8]) -> bool
    ensures { result ≡ nat_lt 65536 (length line.now) }
{
    line.len() > LONGEST_LINE
}

/// Parses a line.
pub fn read_request(alloc: Global, line: &[u8]) -> Request
    ensures { IsReadAs (request_of line.now) result }
{
    if is_overlong(line) {
        return Request::Overlong;
    }
    match line.first() {
        None | Some(b'#') => Request::Silent,
        Some(_) => read_command(alloc, line),
    }
}

// Parses the words of a line.
fn read_command(alloc: Global, line: &[u8]) -> Request
    ensures { IsReadAs (command_of (words_of line.now)) result }
{
    let Some((name, rest)) = split_word(line) else {
        return Request::Malformed;
    };
    let Some((path, rest)) = split_word(rest) else {
        return read_path_command(alloc, name, rest);
    };
    let Some((second, rest)) = split_word(rest) else {
        return read_third_command(alloc, name, path, rest);
    };
    match split_word(rest) {
        None => read_offset_command(alloc, name, path, second, rest),
        Some(_) => Request::Malformed,
    }
}

// Parses a command of two words, the second of which is a path.
fn read_path_command(alloc: Global, name: &[u8], word: &[u8]) -> Request
    ensures { IsReadAs (path_command name.now word.now) result }
{
    let Some(verb) = path_verb(name) else {
        return read_named_command(alloc, name, word);
    };
    match read_path(alloc, word) {
        Ok(path) => Request::Wanted(call_at(verb, path)),
        Err(fault) => Request::Refused(fault),
    }
}

// The command of this name, if its only argument is the path of a call.
fn path_verb(name: &[u8]) -> Option<PathVerb>
    ensures { result ≡ path_verb name.now }
{
    if name == b"mkdir".as_slice() {
        return Some(PathVerb::Mkdir);
    }
    if name == b"create".as_slice() {
        return Some(PathVerb::Create);
    }
    if name == b"unlink".as_slice() {
        return Some(PathVerb::Unlink);
    }
    if name == b"rmdir".as_slice() {
        return Some(PathVerb::Rmdir);
    }
    if name == b"rmtree".as_slice() {
        return Some(PathVerb::Rmtree);
    }
    if name == b"stat".as_slice() {
        return Some(PathVerb::Stat);
    }
    if name == b"readdir".as_slice() {
        return Some(PathVerb::Readdir);
    }
    None
}

// The command's call at the path.
fn call_at(verb: PathVerb, path: Path) -> Call
    ensures { result ≡ call_at verb path }
{
    match verb {
        PathVerb::Mkdir => Call::Mkdir(path),
        PathVerb::Create => Call::Create(path),
        PathVerb::Unlink => Call::Unlink(path),
        PathVerb::Rmdir => Call::Rmdir(path),
        PathVerb::Rmtree => Call::Rmtree(path),
        PathVerb::Stat => Call::Stat(path),
        PathVerb::Readdir => Call::Readdir(path),
    }
}

// Parses a command of two words with a snapshot's name or a timestamp. The name or timestamp is the second word, or the name
// follows an `@` in the first.
fn read_named_command(alloc: Global, name: &[u8], word: &[u8]) -> Request
    ensures { IsReadAs (named_command name.now word.now) result }
{
    if name == b"snapshot".as_slice() {
        return with_named(SnapName::parse(alloc, word).map(Request::Snapshot));
    }
    if name == b"drop".as_slice() {
        return with_named(SnapName::parse(alloc, word).map(Request::DropSnapshot));
    }
    if name == b"restore".as_slice() {
        return with_named(SnapName::parse(alloc, word).map(Request::Restore));
    }
    if name == b"at".as_slice() {
        return read_moment(word);
    }
    match split_at_sign(name) {
        Some((call, snapshot)) => read_past_path_command(alloc, call, snapshot, word),
        None => Request::Malformed,
    }
}

// Parses a timestamp.
fn read_moment(word: &[u8]) -> Request
    ensures { result ≡ with_value Request.Moment (number_of word.now) }
{
    let Some(at) = read_number(word) else {
        return Request::Malformed;
    };
    Request::Moment(at)
}

// Parses a read of a snapshot that has two words.
fn read_past_path_command(alloc: Global, call: &[u8], snapshot: &[u8], path: &[u8]) -> Request
    ensures { IsReadAs (past_path_command (call.now, snapshot.now) path.now) result }
{
    if call == b"stat".as_slice() {
        let look = read_stat(alloc, path);
        return read_past(alloc, snapshot, look);
    }
    if call == b"readdir".as_slice() {
        let look = read_readdir(alloc, path);
        return read_past(alloc, snapshot, look);
    }
    Request::Malformed
}

// Parses a stat of a path.
fn read_stat(alloc: Global, path: &[u8]) -> Result<ReadCall, Errno>
    ensures { (result ≡ looking ReadCall.Stat (path_of path.now)) ⊎ (result ≡ Err ENOMEM) }
{
    let path = read_path(alloc, path)?;
    Ok(ReadCall::Stat(path))
}

// Parses a listing of a directory.
fn read_readdir(alloc: Global, path: &[u8]) -> Result<ReadCall, Errno>
    ensures { (result ≡ looking ReadCall.Readdir (path_of path.now)) ⊎ (result ≡ Err ENOMEM) }
{
    let path = read_path(alloc, path)?;
    Ok(ReadCall::Readdir(path))
}

// Parses a read of the snapshot of that name. An error of the name is reported rather than an error of the read.
fn read_past(alloc: Global, snapshot: &[u8], look: Result<ReadCall, Errno>) -> Request
    ensures { (result ≡ past snapshot.now look) ⊎ (result ≡ Request.Refused ENOMEM) }
{
    match (SnapName::parse(alloc, snapshot), look) {
        (Err(fault), _) | (Ok(_), Err(fault)) => Request::Refused(fault),
        (Ok(name), Ok(look)) => Request::Past(name, look),
    }
}

// Parses a command of three words: a truncate or a rename.
fn read_third_command(alloc: Global, name: &[u8], path: &[u8], third: &[u8]) -> Request
    ensures { IsReadAs (third_command name.now path.now third.now) result }
{
    if name == b"truncate".as_slice() {
        return read_truncate(alloc, path, third);
    }
    if name == b"rename".as_slice() {
        return with_named(read_rename(alloc, path, third).map(Request::Wanted));
    }
    Request::Malformed
}

// Parses a rename from two paths in percent form.
fn read_rename(alloc: Global, old: &[u8], new: &[u8]) -> Result<Call, Errno>
    ensures { (result ≡ rename_of (path_of old.now) (path_of new.now)) ⊎ (result ≡ Err ENOMEM) }
{
    let old = read_path(alloc, old)?;
    let new = read_path(alloc, new)?;
    Ok(Call::Rename(old, new))
}

// Parses the words of a `truncate`.
fn read_truncate(alloc: Global, path: &[u8], length: &[u8]) -> Request
    ensures { IsReadAs (truncate_command path.now length.now) result }
{
    let Some(length) = read_number(length) else {
        return Request::Malformed;
    };
    let path = match read_path(alloc, path) {
        Ok(path) => path,
        Err(fault) => return Request::Refused(fault),
    };
    Request::Wanted(Call::Truncate(path, length))
}

// Parses a command of four words: a write or a read.
fn read_offset_command(
    alloc: Global,
    name: &[u8],
    path: &[u8],
    offset: &[u8],
    what: &[u8],
) -> Request
    ensures { IsReadAs (offset_command name.now path.now offset.now what.now) result }
{
    if name == b"write".as_slice() {
        return read_write(alloc, path, offset, what);
    }
    if name == b"read".as_slice() {
        return read_read(alloc, path, offset, what);
    }
    match split_at_sign(name) {
        Some((call, snapshot)) => {
            read_past_read_command(alloc, call, snapshot, path, offset, what)
        }
        None => Request::Malformed,
    }
}

// Parses a read of a snapshot that has four words.
fn read_past_read_command(
    alloc: Global,
    call: &[u8],
    snapshot: &[u8],
    path: &[u8],
    offset: &[u8],
    count: &[u8],
) -> Request
    ensures { IsReadAs (past_read_command (call.now, snapshot.now) path.now offset.now count.now) result }
{
    if call != b"read".as_slice() {
        return Request::Malformed;
    }
    let (Some(offset), Some(count)) = (read_number(offset), read_number(count)) else {
        return Request::Malformed;
    };
    let look = read_look(alloc, path, offset, count);
    read_past(alloc, snapshot, look)
}

// Parses a read of `count` bytes of a file.
fn read_look(alloc: Global, path: &[u8], offset: u64, count: u64) -> Result<ReadCall, Errno>
    ensures { (result ≡ looking (λ p. ReadCall.Read p offset count) (path_of path.now)) ⊎ (result ≡ Err ENOMEM) }
{
    let path = read_path(alloc, path)?;
    Ok(ReadCall::Read(path, offset, count))
}

// Parses the words of a `write`.
fn read_write(alloc: Global, path: &[u8], offset: &[u8], hex: &[u8]) -> Request
    ensures { IsReadAs (write_command path.now offset.now hex.now) result }
{
    let Some(offset) = read_number(offset) else {
        return Request::Malformed;
    };
    let bytes = match read_bytes(alloc, hex) {
        Ok(Some(bytes)) => bytes,
        Ok(None) => return Request::Malformed,
        Err(NoMemory) => return Request::Refused(Errno::ENOMEM),
    };
    match read_path(alloc, path) {
        Ok(path) => Request::Wanted(Call::Write(path, offset, bytes)),
        Err(fault) => {
            // Dropped by a call, so that the proof costs less.
            drop(bytes);
            Request::Refused(fault)
        }
    }
}

// Parses the words of a `read`.
fn read_read(alloc: Global, path: &[u8], offset: &[u8], count: &[u8]) -> Request
    ensures { IsReadAs (read_command path.now offset.now count.now) result }
{
    let (Some(offset), Some(count)) = (read_number(offset), read_number(count)) else {
        return Request::Malformed;
    };
    let path = match read_path(alloc, path) {
        Ok(path) => path,
        Err(fault) => return Request::Refused(fault),
    };
    Request::Wanted(Call::Read(path, offset, count))
}

// The request that was parsed, or that of its error.
fn with_named(request: Result<Request, Errno>) -> Request
    ensures { MatchResult request (λ r. result ≡ r) (λ e. result ≡ Request.Refused e) }
{
    match request {
        Ok(request) => request,
        Err(fault) => Request::Refused(fault),
    }
}
