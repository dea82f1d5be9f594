//! `betr`: runs a script of file calls over a file system held in memory, and prints the replies.
#![tactic(auto)]

use shell::run_words;
use std::alloc::Global;
use std::io::{Read, Write};
use std::process::ExitCode;
use std::rt::{Env, Files};
use std::sync::Wait;
use std::thread::Threads;
use std::{env, io};

// A message that cannot be printed changes no status.
fn main(rt: HostRuntime) -> ExitCode {
    let ended = run(
        &rt,
        &mut rt.reader(),
        io::writer(&rt),
        &mut io::writer(&rt.stderr()),
    );
    ExitCode::from(match ended {
        Ok(status) => status,
        Err(error) => refuse(&rt, error.kind()),
    })
}

/// Does what the words of the command line ask for, and answers the program's status.
fn run<H, R: Read, W: Write + Drop, E: Write>(
    rt: &H,
    input: &mut R,
    output: W,
    errors: &mut E,
) -> io::Result<u8>
where
    H: Alloc<A = Global> + Env + Files + Threads + Wait + Sync,
{
    let alloc = rt.alloc();
    let arguments: Vec<String> = env::args(rt)?.collect(alloc)?;
    let mut words: Vec<&str> = Vec::new(alloc);
    for argument in arguments.iter() {
        words.push(argument.as_str())?;
    }
    Ok(run_words(rt, alloc, words.as_slice(), input, output, errors))
}

/// Says why the words of the command line cannot be read, and answers the program's status.
fn refuse(rt: &HostRuntime, kind: io::ErrorKind) -> u8 {
    if kind == io::ErrorKind::OutOfMemory {
        let _ = eprintln!(rt; "betr: no memory");
        return 1;
    }
    let _ = eprintln!(rt; "betr: a word of the command line is not UTF-8");
    2
}
