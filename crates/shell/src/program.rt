//! The program `betr`: runs a script over a new volume, as the words of a command line request.
use crate::command_line::{Options, read_words};
use crate::draw::{draw_alone, draw_volume};
use crate::flushers::run_with_flushers;
use crate::image_search::image_line;
use crate::monitor::{Monitor, STANDARD_INPUT};
use crate::noted::Noted;
use crate::script::{Ending, run_lines};
use crate::tidy::Tidy;
use clap::error::ErrorKind;
use images::{ImageFault, LoadFault, load_image, print_image};
use node::Shape;
use pathkey::NoMemory;
use std::alloc::Global;
use std::fs::Files;
use std::io::{BufWriter, Read, Write};
use std::sync::Wait;
use std::thread::Threads;
use std::{fs, io};
use thiserror::Error;
use volume::{Frozen, Volume};

/// The number of bytes of replies that are buffered before they are written.
const OUTPUT_BUFFER: usize = 65_536;

/// The status if everything was done and printed.
const DONE: u8 = 0;

/// The status if the program ended before that.
const FAILED: u8 = 1;

/// The status if the command line is invalid.
const REFUSED: u8 = 2;

/// Why the program ends before everything is done and printed.
#[derive(Debug, Drop, Error)]
enum Failure {
    /// The command line is invalid.
    #[error(transparent)]
    Words(clap::Error),
    /// An allocation failed.
    #[error("betr: no memory")]
    Memory,
    /// The shape is invalid.
    #[error("betr: bad shape")]
    Shape,
    /// A file that was named could not be opened.
    #[error("betr: cannot open")]
    Open,
    /// The image was not loaded.
    #[error(transparent)]
    Load(LoadFault),
    /// The script was not run to its end.
    #[error(transparent)]
    Script(Ending),
    /// The image was not printed completely.
    #[error(transparent)]
    Image(ImageFault),
    /// The last output, to be printed or drawn, could not be written.
    #[error("betr: write failed")]
    Write,
}

/// Does what the words of a command line request, and returns the exit status of the program. The first word is the program's
/// name. If no file is named for the script, it is read from `input`. Replies, the image and help are written to `output`. If
/// the program ends early, the reason is written to `errors`, after explanations if those were requested. If it cannot be
/// written, the status is the same.
pub fn run_words<H: Files + Threads + Wait + Sync, R: Read, W: Write + Drop, E: Write>(
    rt: &H,
    alloc: Global,
    words: &[&str],
    input: &mut R,
    mut output: W,
    errors: &mut E,
) -> u8 {
    let ended = match read_words(alloc, words) {
        Ok(options) => run(rt, alloc, &options, input, &mut output, errors),
        Err(error) => end_unread(error, &mut output),
    };
    let status = match &ended {
        Ok(()) => DONE,
        Err(failure) => report_failure(failure, errors),
    };
    // Dropped by a call, so that the proof costs less.
    drop(ended);
    status
}

/// Prints why the program ends early. Returns its exit status.
fn report_failure<E: Write>(failure: &Failure, errors: &mut E) -> u8 {
    match failure {
        Failure::Words(error) => {
            let _ = write!(errors, "{error}");
            REFUSED
        }
        _ => {
            let _ = writeln!(errors, "{failure}");
            FAILED
        }
    }
}

/// Prints help or the release if either was requested.
fn end_unread<W: Write>(error: clap::Error, output: &mut W) -> Result<(), Failure> {
    if error.kind() == ErrorKind::OutOfMemory {
        // Dropped by a call, so that the proof costs less.
        drop(error);
        return Err(Failure::Memory);
    }
    if error.use_stderr() {
        return Err(Failure::Words(error));
    }
    let ended = match write!(output, "{error}") {
        Ok(()) => flush(output),
        Err(_) => Err(Failure::Write),
    };
    // Dropped by a call, so that the proof costs less.
    drop(error);
    ended
}

/// Runs the script that the options name over the volume that they start with.
fn run<H: Files + Threads + Wait + Sync, R: Read, W: Write, E: Write>(
    rt: &H,
    alloc: Global,
    options: &Options<'_>,
    input: &mut R,
    output: &mut W,
    errors: &mut E,
) -> Result<(), Failure> {
    let mut monitor = Monitor::new(options, errors);
    let volume = first_volume(rt, alloc, options, &mut monitor)?;
    let Some(path) = options.script else {
        let mut script = Noted::new(STANDARD_INPUT, input);
        return print(
            rt,
            alloc,
            volume,
            options,
            &mut script,
            output,
            &mut monitor,
        );
    };
    match open(rt, path, &mut monitor) {
        Ok(mut file) => {
            let mut script = Noted::new(path, &mut file);
            print(
                rt,
                alloc,
                volume,
                options,
                &mut script,
                output,
                &mut monitor,
            )
        }
        Err(failure) => {
            // Dropped by a call, so that the proof costs less.
            drop(volume);
            Err(failure)
        }
    }
}

/// Makes the volume that the options start with: a new one, or that of the image that they name.
fn first_volume<F: Files, E: Write>(
    rt: &F,
    alloc: Global,
    options: &Options<'_>,
    monitor: &mut Monitor<'_, '_, E>,
) -> Result<Volume, Failure> {
    let shape = Shape {
        fanout: options.fanout,
        pending: options.pending,
        leaf: options.leaf,
    };
    if !shape.ok() {
        monitor.explain_shape(shape);
        return Err(Failure::Shape);
    }
    match options.load {
        Some(path) => load(rt, alloc, shape, path, monitor),
        // For a valid shape this fails only if an allocation fails.
        None => Volume::new(alloc, shape).map_err(|_| Failure::Memory),
    }
}

/// Loads the volume of the image in a file.
fn load<F: Files, E: Write>(
    rt: &F,
    alloc: Global,
    shape: Shape,
    path: &str,
    monitor: &mut Monitor<'_, '_, E>,
) -> Result<Volume, Failure> {
    let mut file = open(rt, path, monitor)?;
    let mut noted = Noted::new(path, &mut file);
    match load_image(alloc, shape, &mut noted) {
        Ok(volume) => Ok(volume),
        Err(fault) => {
            monitor.explain_noted(&noted);
            explain_load(rt, path, &fault, monitor);
            Err(Failure::Load(fault))
        }
    }
}

/// Explains why the text of a file is not an image. There may be an image after replies.
fn explain_load<F: Files, E: Write>(
    rt: &F,
    path: &str,
    fault: &LoadFault,
    monitor: &mut Monitor<'_, '_, E>,
) {
    let LoadFault::Bad(line) = fault else {
        return;
    };
    monitor.explain_image(path, *line);
    if *line != 1 || !monitor.explains() {
        return;
    }
    let Ok(mut file) = fs::open(rt, path) else {
        return;
    };
    if let Some(line) = image_line(&mut file) {
        monitor.hint_at_image(path, line);
    }
}

/// Opens a file that was named.
fn open<F: Files, E: Write>(
    rt: &F,
    path: &str,
    monitor: &mut Monitor<'_, '_, E>,
) -> Result<F::File, Failure> {
    match fs::open(rt, path) {
        Ok(file) => Ok(file),
        Err(error) if error.kind() == io::ErrorKind::OutOfMemory => Err(Failure::Memory),
        Err(error) => {
            monitor.explain_error(path, &error);
            Err(Failure::Open)
        }
    }
}

/// Prints what the options request (`print_gathered`), and explains why the script was not read or the output not written.
fn print<H: Files + Threads + Wait + Sync, R: Read, W: Write, E: Write>(
    rt: &H,
    alloc: Global,
    volume: Volume,
    options: &Options<'_>,
    script: &mut Noted<'_, R>,
    output: &mut W,
    monitor: &mut Monitor<'_, '_, E>,
) -> Result<(), Failure> {
    let mut noted = Noted::new("standard output", output);
    let ended = print_gathered(rt, alloc, volume, options, script, &mut noted, monitor);
    monitor.explain_noted(script);
    monitor.explain_noted(&noted);
    ended
}

/// Prints the replies to a script, in large buffered writes, and then what the options request.
fn print_gathered<H: Files + Threads + Wait + Sync, R: Read, W: Write, E: Write>(
    rt: &H,
    alloc: Global,
    volume: Volume,
    options: &Options<'_>,
    script: &mut R,
    output: &mut W,
    monitor: &mut Monitor<'_, '_, E>,
) -> Result<(), Failure> {
    match BufWriter::with_capacity(alloc, OUTPUT_BUFFER, output) {
        Ok(mut buffer) => print_all(rt, alloc, volume, options, script, &mut buffer, monitor),
        Err(_) => {
            // Dropped by a call, so that the proof costs less.
            drop(volume);
            Err(Failure::Memory)
        }
    }
}

/// Prints the replies to a script, while flushers compact the trees if there are some, and then what the options request.
fn print_all<H: Files + Threads + Wait + Sync, R: Read, W: Write, E: Write>(
    rt: &H,
    alloc: Global,
    volume: Volume,
    options: &Options<'_>,
    script: &mut R,
    writer: &mut W,
    monitor: &mut Monitor<'_, '_, E>,
) -> Result<(), Failure> {
    if options.flushers == 0 {
        let mut volume = volume;
        let ended = print_lines(rt, alloc, &mut volume, options, script, writer, monitor);
        // Dropped by a call, so that the proof costs less.
        drop(volume);
        return ended;
    }
    match run_with_flushers(rt, alloc, volume, options.flushers, script, writer, monitor) {
        Ok(tree) => {
            let ended = print_tree(rt, alloc, &tree, options, writer, monitor);
            // Dropped by a call, so that the proof costs less.
            drop(tree);
            ended
        }
        Err(ending) => Err(Failure::Script(ending)),
    }
}

/// Prints the image of a tree if that is requested, and then draws it.
fn print_tree<F: Files, W: Write, E: Write>(
    rt: &F,
    alloc: Global,
    tree: &Frozen,
    options: &Options<'_>,
    writer: &mut W,
    monitor: &mut Monitor<'_, '_, E>,
) -> Result<(), Failure> {
    print_end(alloc, tree, options.image, writer)?;
    match options.dot {
        Some(path) => save(rt, path, draw_alone(alloc, tree.indexes()), monitor),
        None => Ok(()),
    }
}

/// Prints the replies to a script on a volume, with tree steps after each line, and then what the options request.
fn print_lines<F: Files, R: Read, W: Write, E: Write>(
    rt: &F,
    alloc: Global,
    volume: &mut Volume,
    options: &Options<'_>,
    script: &mut R,
    writer: &mut W,
    monitor: &mut Monitor<'_, '_, E>,
) -> Result<(), Failure> {
    let mut pace = Tidy::new(options.steps);
    run_lines(alloc, volume, &mut 0, script, writer, &mut pace, monitor).map_err(Failure::Script)?;
    let tree = volume.freeze().map_err(|_| Failure::Memory)?;
    let printed = print_end(alloc, &tree, options.image, writer);
    // Dropped by a call, so that the proof costs less.
    drop(tree);
    printed?;
    match options.dot {
        Some(path) => save(rt, path, draw_volume(alloc, volume), monitor),
        None => Ok(()),
    }
}

/// Writes a drawing to a file.
fn save<F: Files, E: Write>(
    rt: &F,
    path: &str,
    drawing: Result<Vec<u8>, NoMemory>,
    monitor: &mut Monitor<'_, '_, E>,
) -> Result<(), Failure> {
    match drawing {
        Ok(text) => {
            let saved = fs::write(rt, path, text.as_slice());
            // Dropped by a call, so that the proof costs less.
            drop(text);
            report_saved(path, saved, monitor)
        }
        Err(NoMemory) => Err(Failure::Memory),
    }
}

/// Explains why a file was not written.
fn report_saved<E: Write>(
    path: &str,
    saved: io::Result<()>,
    monitor: &mut Monitor<'_, '_, E>,
) -> Result<(), Failure> {
    match saved {
        Ok(()) => Ok(()),
        Err(error) => {
            monitor.explain_error(path, &error);
            Err(Failure::Write)
        }
    }
}

/// Prints the image of a tree if that is requested, and flushes the writer.
fn print_end<W: Write>(
    alloc: Global,
    tree: &Frozen,
    image: bool,
    writer: &mut W,
) -> Result<(), Failure> {
    if image {
        print_image(alloc, tree, writer).map_err(Failure::Image)?;
    }
    flush(writer)
}

/// Flushes the writer.
fn flush<W: Write>(writer: &mut W) -> Result<(), Failure> {
    writer.flush().map_err(|_| Failure::Write)
}
