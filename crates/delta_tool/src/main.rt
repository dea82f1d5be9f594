//! `deltas`: prints what makes one image of another, and makes it.
#![tactic(auto)]

mod command_line;
mod failure;
mod tasks;

use crate::command_line::{Task, read_words};
use crate::failure::Failure;
use crate::tasks::{print_applied, print_between, print_edits_between};
use clap::error::ErrorKind;
use std::alloc::Global;
use std::io::{BufWriter, Write};
use std::process::ExitCode;
use std::rt::{Env, Files};
use std::{env, io};

/// How many bytes are gathered before they are written.
const OUTPUT_BUFFER: usize = 65_536;

/// The status where all was done and printed.
const DONE: u8 = 0;

/// The status where the program ended before that.
const FAILED: u8 = 1;

/// The status where the command line was refused.
const REFUSED: u8 = 2;

// A message that cannot be printed changes no status.
fn main(rt: HostRuntime) -> ExitCode {
    let ended = run(&rt, io::writer(&rt), &mut io::writer(&rt.stderr()));
    ExitCode::from(match ended {
        Ok(status) => status,
        Err(error) => refuse(&rt, error.kind()),
    })
}

/// Does what the words of the command line ask for, and answers the program's status.
fn run<H, W: Write + Drop, E: Write>(rt: &H, output: W, errors: &mut E) -> io::Result<u8>
where
    H: Alloc<A = Global> + Env + Files,
{
    let alloc = rt.alloc();
    let arguments: Vec<String> = env::args(rt)?.collect(alloc)?;
    run_arguments(rt, alloc, arguments.as_slice(), output, errors)
}

/// Does what the arguments of the command line ask for, and answers the program's status.
fn run_arguments<F: Files, W: Write + Drop, E: Write>(
    rt: &F,
    alloc: Global,
    arguments: &[String],
    output: W,
    errors: &mut E,
) -> io::Result<u8> {
    let mut words: Vec<&str> = Vec::new(alloc);
    put_words(&mut words, arguments)?;
    Ok(run_words(rt, alloc, words.as_slice(), output, errors))
}

/// Puts the words behind others.
fn put_words<'a>(words: &mut Vec<&'a str>, arguments: &'a [String]) -> io::Result<()> {
    for argument in arguments {
        words.push(argument.as_str())?;
    }
    Ok(())
}

/// Says why the words of the command line cannot be read, and answers the program's status.
fn refuse(rt: &HostRuntime, kind: io::ErrorKind) -> u8 {
    if kind == io::ErrorKind::OutOfMemory {
        let _ = eprintln!(rt; "deltas: no memory");
        return FAILED;
    }
    let _ = eprintln!(rt; "deltas: a word of the command line is not UTF-8");
    REFUSED
}

/// Does what words ask for. Answers with what status the program ends.
fn run_words<F: Files, W: Write + Drop, E: Write>(
    rt: &F,
    alloc: Global,
    words: &[&str],
    mut output: W,
    errors: &mut E,
) -> u8 {
    let ended = match read_words(alloc, words) {
        Ok(task) => work(rt, alloc, &task, &mut output),
        Err(error) => end_unread(error, &mut output),
    };
    let status = match &ended {
        Ok(()) => DONE,
        Err(failure) => tell(failure, errors),
    };
    drop(ended);
    status
}

/// Prints why the program ends early. Answers with what status.
fn tell<E: Write>(failure: &Failure, errors: &mut E) -> u8 {
    match failure {
        Failure::Words(error) => {
            let _ = write!(errors, "{error}");
            REFUSED
        }
        _ => {
            let _ = writeln!(errors, "{failure}");
            FAILED
        }
    }
}

/// Prints help or the release, when either was asked for.
fn end_unread<W: Write>(error: clap::Error, output: &mut W) -> Result<(), Failure> {
    if error.kind() == ErrorKind::OutOfMemory {
        drop(error);
        return Err(Failure::Memory);
    }
    if error.use_stderr() {
        return Err(Failure::Words(error));
    }
    let ended = print_text(&error, output);
    drop(error);
    ended
}

/// Prints what was asked for.
fn print_text<W: Write>(text: &clap::Error, output: &mut W) -> Result<(), Failure> {
    match write!(output, "{text}") {
        Ok(()) => flush(output),
        Err(_) => Err(Failure::Write),
    }
}

/// Does the task, and gathers what is printed into large writes.
fn work<F: Files, W: Write>(
    rt: &F,
    alloc: Global,
    task: &Task<'_>,
    output: &mut W,
) -> Result<(), Failure> {
    let Ok(mut writer) = BufWriter::with_capacity(alloc, OUTPUT_BUFFER, output) else {
        return Err(Failure::Memory);
    };
    do_task(rt, alloc, task, &mut writer)
}

/// Does the task, and writes out what is gathered.
fn do_task<F: Files, W: Write>(
    rt: &F,
    alloc: Global,
    task: &Task<'_>,
    writer: &mut W,
) -> Result<(), Failure> {
    let ended = match task {
        Task::Between(old, new) => print_between(rt, alloc, old, new, writer),
        Task::Edits(old, new) => print_edits_between(rt, alloc, old, new, writer),
        Task::Apply(tree, delta) => print_applied(rt, alloc, tree, delta, writer),
    };
    match ended {
        Ok(()) => flush(writer),
        Err(failure) => Err(failure),
    }
}

/// Writes out what is gathered.
fn flush<W: Write>(writer: &mut W) -> Result<(), Failure> {
    writer.flush().map_err(|_| Failure::Write)
}
