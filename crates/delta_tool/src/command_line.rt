//! The command line, read by `clap`.
use clap::{Arg, ArgAction, ArgMatches, Command, Error};
use std::alloc::{AllocError, Global};

/// The release that `--version` prints. `include/doorvervain.h` states it, and `tests/release` holds this to it.
const RELEASE: &str = "0.2.0";

/// The first lines of help.
const ABOUT: &str = "\
Prints what makes one image of another, and makes it. An image is a tree as
text, as `betr --image` prints it.";

/// What the words of a command line ask for.
#[derive(Debug, Drop)]
pub(crate) enum Task<'a> {
    /// Print what makes the image of the second file of that of the first.
    Between(&'a str, &'a str),
    /// Print the edits that make the tree of the second file of that of the first.
    Edits(&'a str, &'a str),
    /// Print the image that the difference of the second file makes of that of the first.
    Apply(&'a str, &'a str),
}

/// Reads a command line, of which the first word is the program's name. When help or the release was asked for, or words are
/// refused, the error has the text; its kind says whether memory was refused.
pub(crate) fn read_words<'a>(alloc: Global, words: &'a [&'a str]) -> Result<Task<'a>, Error> {
    let matches = command(alloc)?.try_get_matches_from(words)?;
    let task = task_of(&matches);
    drop(matches);
    Ok(task)
}

/// The task of words that were taken: one of both commands is there, with its two files.
fn task_of<'a>(matches: &ArgMatches<'a>) -> Task<'a> {
    if let Some(found) = matches.subcommand_matches("apply") {
        return Task::Apply(file(found, "TREE"), file(found, "DELTA"));
    }
    match matches.subcommand_matches("between") {
        Some(found) if found.get_flag("edits") => {
            Task::Edits(file(found, "OLD"), file(found, "NEW"))
        }
        Some(found) => Task::Between(file(found, "OLD"), file(found, "NEW")),
        None => Task::Between("", ""),
    }
}

/// The file of that name, which the command requires.
fn file<'a>(found: &ArgMatches<'a>, name: &str) -> &'a str {
    found.get_str(name).unwrap_or("")
}

/// The program with its two commands.
fn command<'a>(alloc: Global) -> Result<Command<'a>, AllocError> {
    let program = Command::new(alloc, "deltas")
        .version(RELEASE)
        .about(ABOUT)
        .subcommand_required(true);
    let both = with_command(program, between(alloc))?;
    with_command(both, apply(alloc))
}

/// The program with one more command.
fn with_command<'a>(
    program: Command<'a>,
    command: Result<Command<'a>, AllocError>,
) -> Result<Command<'a>, AllocError> {
    match command {
        Ok(command) => program.subcommand(command),
        Err(refused) => {
            drop(program);
            Err(refused)
        }
    }
}

/// The command that prints a difference.
fn between<'a>(alloc: Global) -> Result<Command<'a>, AllocError> {
    let command = Command::new(alloc, "between").about("Print what makes the image NEW of OLD");
    let first = with_file(alloc, command, "OLD", "File with the image that there is")?;
    let both = with_file(alloc, first, "NEW", "File with the image that is made")?;
    with_edits(alloc, both)
}

/// The command with the flag for edits.
fn with_edits<'a>(alloc: Global, command: Command<'a>) -> Result<Command<'a>, AllocError> {
    command.arg(
        Arg::new(alloc, "edits")
            .long("edits")
            .action(ArgAction::SetTrue)
            .help("Print edits of entries and blocks (format 2)"),
    )
}

/// The command that applies one.
fn apply<'a>(alloc: Global) -> Result<Command<'a>, AllocError> {
    let command = Command::new(alloc, "apply").about(
        "Print the image that DELTA makes of the image TREE",
    );
    let first = with_file(alloc, command, "TREE", "File with the image that there is")?;
    with_file(
        alloc,
        first,
        "DELTA",
        "File with what `deltas between` printed",
    )
}

/// The command with one more file that it requires.
fn with_file<'a>(
    alloc: Global,
    command: Command<'a>,
    name: &'a str,
    help: &'a str,
) -> Result<Command<'a>, AllocError> {
    command.arg(Arg::new(alloc, name).required(true).help(help))
}
