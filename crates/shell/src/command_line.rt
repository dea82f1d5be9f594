//! The command line of the program that runs scripts, parsed by `clap`.

ghost use Rattle.std.specs.Prelude.{◌≡◌, codes, false, true, IfOk, IfErr, option_map};
ghost use Rattle.std.specs.Int.{IsInRange};
ghost use Rattle.clap.specs.Walk.{texts};
ghost use Rattle.clap.specs.Words.{App, FailsBy, app_of, fault_of, found_of, kind_of, new_rule, rows_of, rule_of, takes, with_rule};
ghost use Rattle.shell.specs.CommandLine.{IsParseOf, bare_betr, betr, betr_of_numbers, betr_of_work, is_on, number, option_rule, rows, switch_rule, text, text_rule};

use crate::help::{ABOUT, RELEASE, SCRIPTS};
use clap::builder::ValueParser;
use clap::error::ErrorKind;
use clap::{Arg, ArgAction, ArgMatches, Command, Error, value_parser};
use std::alloc::{AllocError, Global};

/// The options that the words of a command line have.
#[derive(Debug, Drop)]
pub struct Options<'a> {
    /// The number of flushers that run turns beside the script, 0 to 8. Above 0 no steps follow the lines.
    pub flushers: u8,
    /// The number of tree steps after each line, 0 to 1,000.
    pub steps: u16,
    /// The maximum number of slots of an inner node, 4 to 64.
    pub fanout: u16,
    /// The maximum number of pending pieces of a node below the root, 4 to 1,024.
    pub pending: u16,
    /// The maximum number of entries of a leaf, 4 to 1,024.
    pub leaf: u16,
    /// The file with the image that is loaded before the script runs. If there is none, the tree has only the root.
    pub load: Option<&'a str>,
    /// Whether the image of the tree is printed after the replies.
    pub image: bool,
    /// The file for a drawing of the trees, which is written last, if any.
    pub dot: Option<&'a str>,
    /// Whether the run ends at the first reply that is a fault or an error.
    pub strict: bool,
    /// Whether causes of failures, and lines that are not understood, are explained on standard error.
    pub explain: bool,
    /// The file with the script, or standard input if there is none.
    pub script: Option<&'a str>,
}

/// Parses a command line, of which the first word is the program's name. If help or the release was requested, or if the
/// words are invalid, the error has the text. Its kind says whether an allocation failed.
pub fn read_words<'a>(alloc: Global, words: &'a [&'a str]) -> Result<Options<'a>, Error>
    ensures flushers { IfOk result (λ o. (o.flushers ≡ number (codes "flushers") 0 (texts words.entry.now)) × IsInRange 0 8 o.flushers) }
    ensures steps { IfOk result (λ o. (o.steps ≡ number (codes "steps") 0 (texts words.entry.now)) × IsInRange 0 1000 o.steps) }
    ensures fanout { IfOk result (λ o. (o.fanout ≡ number (codes "fanout") 16 (texts words.entry.now)) × IsInRange 4 64 o.fanout) }
    ensures pending { IfOk result (λ o. (o.pending ≡ number (codes "pending") 256 (texts words.entry.now)) × IsInRange 4 1024 o.pending) }
    ensures leaf { IfOk result (λ o. (o.leaf ≡ number (codes "leaf") 256 (texts words.entry.now)) × IsInRange 4 1024 o.leaf) }
    ensures load { IfOk result (λ o. option_map (λ s. s.now) o.load ≡ text (codes "load") (texts words.entry.now)) }
    ensures image { IfOk result (λ o. o.image ≡ is_on (codes "image") (texts words.entry.now)) }
    ensures dot { IfOk result (λ o. option_map (λ s. s.now) o.dot ≡ text (codes "dot") (texts words.entry.now)) }
    ensures strict { IfOk result (λ o. o.strict ≡ is_on (codes "strict") (texts words.entry.now)) }
    ensures explain { IfOk result (λ o. o.explain ≡ is_on (codes "explain") (texts words.entry.now)) }
    ensures script { IfOk result (λ o. option_map (λ s. s.now) o.script ≡ text (codes "SCRIPT") (texts words.entry.now)) }
    ensures memory { IfErr result (λ e. takes betr (texts words.entry.now) ≡ true → kind_of e ≡ ErrorKind.OutOfMemory) }
    ensures kinds { FailsBy (fault_of betr (texts words.entry.now)) result }
{
    let matches = parsed(alloc, words)?;
    let options = Options {
        flushers: matches.get_one::<u8>("flushers").unwrap_or(0),
        steps: matches.get_one::<u16>("steps").unwrap_or(0),
        fanout: matches.get_one::<u16>("fanout").unwrap_or(16),
        pending: matches.get_one::<u16>("pending").unwrap_or(256),
        leaf: matches.get_one::<u16>("leaf").unwrap_or(256),
        load: matches.get_str("load"),
        image: matches.get_flag("image"),
        dot: matches.get_str("dot"),
        strict: matches.get_flag("strict"),
        explain: matches.get_flag("explain"),
        script: matches.get_str("SCRIPT"),
    };
    // Dropped by a call, so that the proof costs less.
    drop(matches);
    Ok(options)
}

/// What `clap` parses from the words.
fn parsed<'a>(alloc: Global, words: &'a [&'a str]) -> Result<ArgMatches<'a>, Error>
    ensures parse { IfOk result (λ m. IsParseOf betr m) }
    ensures rows { IfOk result (λ m. rows_of (found_of m) ≡ rows (texts words.entry.now)) }
    ensures memory { IfErr result (λ e. takes betr (texts words.entry.now) ≡ true → kind_of e ≡ ErrorKind.OutOfMemory) }
    ensures kinds { FailsBy (fault_of betr (texts words.entry.now)) result }
{
    command(alloc)?.try_get_matches_from(words)
}

/// The options and the argument that are known. Each is built and added in a function of its own, to a command for which an
/// allocation may have failed before. Otherwise each early return would have to drop what was built so far.
fn command<'a>(alloc: Global) -> Result<Command<'a>, AllocError>
    ensures { IfOk result (λ c. app_of c ≡ betr) }
{
    let loading = with_load(alloc, with_shape(alloc));
    let printing = with_image(alloc, loading);
    let drawing = with_dot(alloc, printing);
    let ending = with_strict(alloc, drawing);
    let explaining = with_explain(alloc, ending);
    with_script(alloc, explaining)
}

/// The command with the option that names an image.
fn with_load<'a>(
    alloc: Global,
    command: Result<Command<'a>, AllocError>,
) -> Result<Command<'a>, AllocError>
    ensures { (app : App) → IfOk command.entry (λ c. app_of c ≡ app) → IfOk result (λ c. app_of c ≡ with_rule app (text_rule (codes "load"))) }
{
    let load = text_option(
        alloc,
        "load",
        "FILE",
        "Start with the tree whose image the file holds, as --image prints it",
    );
    with_arg(command, load)
}

/// The command with the option that requests the image.
fn with_image<'a>(
    alloc: Global,
    command: Result<Command<'a>, AllocError>,
) -> Result<Command<'a>, AllocError>
    ensures { (app : App) → IfOk command.entry (λ c. app_of c ≡ app) → IfOk result (λ c. app_of c ≡ with_rule app (switch_rule (codes "image"))) }
{
    let image = switch(
        alloc,
        "image",
        "Print the whole tree as text after the replies",
    );
    with_arg(command, image)
}

/// The command with the option that names the file of a drawing.
fn with_dot<'a>(
    alloc: Global,
    command: Result<Command<'a>, AllocError>,
) -> Result<Command<'a>, AllocError>
    ensures { (app : App) → IfOk command.entry (λ c. app_of c ≡ app) → IfOk result (λ c. app_of c ≡ with_rule app (text_rule (codes "dot"))) }
{
    let dot = text_option(
        alloc,
        "dot",
        "FILE",
        "Draw the trees into the file at the end, for Graphviz's dot",
    );
    with_arg(command, dot)
}

/// The command with the option that ends the run at the first fault.
fn with_strict<'a>(
    alloc: Global,
    command: Result<Command<'a>, AllocError>,
) -> Result<Command<'a>, AllocError>
    ensures { (app : App) → IfOk command.entry (λ c. app_of c ≡ app) → IfOk result (λ c. app_of c ≡ with_rule app (switch_rule (codes "strict"))) }
{
    let strict = switch(
        alloc,
        "strict",
        "End at the first reply that is a fault or an error, with status 1",
    );
    with_arg(command, strict)
}

/// The command with the option that requests explanations.
fn with_explain<'a>(
    alloc: Global,
    command: Result<Command<'a>, AllocError>,
) -> Result<Command<'a>, AllocError>
    ensures { (app : App) → IfOk command.entry (λ c. app_of c ≡ app) → IfOk result (λ c. app_of c ≡ with_rule app (switch_rule (codes "explain"))) }
{
    let explain = switch(
        alloc,
        "explain",
        "Explain on standard error what failed, and which lines were not understood",
    );
    with_arg(command, explain)
}

/// The command with the argument that names a script.
fn with_script<'a>(
    alloc: Global,
    command: Result<Command<'a>, AllocError>,
) -> Result<Command<'a>, AllocError>
    ensures { (app : App) → IfOk command.entry (λ c. app_of c ≡ app) → IfOk result (λ c. app_of c ≡ with_rule app (new_rule (codes "SCRIPT"))) }
{
    let script = Arg::new(alloc, "SCRIPT").help("File with the script [default: standard input]");
    with_arg(command, script)
}

/// The program with all options that are numbers.
fn with_shape<'a>(alloc: Global) -> Result<Command<'a>, AllocError>
    ensures { IfOk result (λ c. app_of c ≡ betr_of_numbers) }
{
    let wide = with_option(
        alloc,
        with_work(alloc),
        "fanout",
        "F",
        value_parser!(u16).range(4..=64),
        "Slots of an inner node, 4 to 64 [default: 16]",
    );
    let filled = with_option(
        alloc,
        wide,
        "pending",
        "P",
        value_parser!(u16).range(4..=1024),
        "Pending pieces of a node, 4 to 1024 and at least F [default: 256]",
    );
    with_option(
        alloc,
        filled,
        "leaf",
        "E",
        value_parser!(u16).range(4..=1024),
        "Entries of a leaf, 4 to 1024 [default: 256]",
    )
}

/// The program with the options of what is done beside the lines.
fn with_work<'a>(alloc: Global) -> Result<Command<'a>, AllocError>
    ensures { IfOk result (λ c. app_of c ≡ betr_of_work) }
{
    let flushed = with_option(
        alloc,
        Ok(program(alloc)),
        "flushers",
        "N",
        value_parser!(u8).range(0..=8),
        "Flushers in threads of their own, 0 to 8 [default: 0]",
    );
    with_option(
        alloc,
        flushed,
        "steps",
        "N",
        value_parser!(u16).range(0..=1000),
        "Tree steps after each line, 0 to 1000 [default: 0]",
    )
}

/// The command with one more option that has a value.
fn with_option<'a>(
    alloc: Global,
    command: Result<Command<'a>, AllocError>,
    id: &'a str,
    value: &'a str,
    parser: ValueParser<'a>,
    help: &'a str,
) -> Result<Command<'a>, AllocError>
    ensures { (app : App) → IfOk command.entry (λ c. app_of c ≡ app) → IfOk result (λ c. app_of c ≡ with_rule app (option_rule id.entry.now parser.entry)) }
{
    with_arg(command, option(alloc, id, value, parser, help))
}

/// The command with one more option or argument.
fn with_arg<'a>(
    command: Result<Command<'a>, AllocError>,
    arg: Arg<'a>,
) -> Result<Command<'a>, AllocError>
    requires { arg.global ≡ false }
    ensures { (app : App) → IfOk command.entry (λ c. app_of c ≡ app) → IfOk result (λ c. app_of c ≡ with_rule app (rule_of arg.entry)) }
{
    match command {
        Ok(command) => command.arg(arg),
        Err(refused) => {
            drop(arg);
            Err(refused)
        }
    }
}

/// The program with its name and release, and its help before and after the options.
fn program<'a>(alloc: Global) -> Command<'a>
    ensures { app_of result ≡ bare_betr }
{
    Command::new(alloc, "betr")
        .version(RELEASE)
        .about(ABOUT)
        .after_help(SCRIPTS)
}

/// An option with a value.
fn option<'a>(
    alloc: Global,
    id: &'a str,
    value: &'a str,
    parser: ValueParser<'a>,
    help: &'a str,
) -> Arg<'a>
    ensures rule { rule_of result ≡ option_rule id.entry.now parser.entry }
    ensures local { result.global ≡ false }
{
    Arg::new(alloc, id)
        .long(id)
        .value_name(value)
        .value_parser(parser)
        .help(help)
}

/// An option with a value that may be any text.
fn text_option<'a>(alloc: Global, id: &'a str, value: &'a str, help: &'a str) -> Arg<'a>
    ensures rule { rule_of result ≡ text_rule id.entry.now }
    ensures local { result.global ≡ false }
{
    Arg::new(alloc, id).long(id).value_name(value).help(help)
}

/// An option without a value. Its parser is named, so that its rule says that its text is `true` or `false`.
fn switch<'a>(alloc: Global, id: &'a str, help: &'a str) -> Arg<'a>
    ensures rule { rule_of result ≡ switch_rule id.entry.now }
    ensures local { result.global ≡ false }
{
    Arg::new(alloc, id)
        .long(id)
        .action(ArgAction::SetTrue)
        .value_parser(value_parser!(bool))
        .help(help)
}
