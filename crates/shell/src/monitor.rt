//! What `--explain` and `--strict` add to a run: causes on standard error, and an end at the first fault.
ghost use Rattle.std.specs.Prelude.{◌≡◌};

use crate::command_line::Options;
use crate::noted::Noted;
use crate::verdict::Verdict;
use crate::watch::Watch;
use node::Shape;
use std::io;
use std::io::Write;
use textio::line_buffer::LONGEST_LINE;

/// The name of a script without a file.
pub(crate) const STANDARD_INPUT: &str = "standard input";

/// Counts the lines of a script, and explains what failed if that was requested. An explanation that cannot be printed is
/// left out.
#[derive(Drop)]
pub(crate) struct Monitor<'a, 'e, E> {
    strict: bool,
    explain: bool,
    /// The file with the script.
    script: &'a str,
    /// The number of lines that were answered.
    lines: u64,
    errors: &'e mut E,
}

impl<'a, 'e, E: Write> Monitor<'a, 'e, E> {
    /// Creates the monitor of a run that has not begun.
    pub(crate) fn new(options: &Options<'a>, errors: &'e mut E) -> Monitor<'a, 'e, E>
        ensures { result.strict ≡ options.now.strict }
    {
        Monitor {
            strict: options.strict,
            explain: options.explain,
            script: options.script.unwrap_or(STANDARD_INPUT),
            lines: 0,
            errors,
        }
    }

    /// Explains which error the system returned for a file.
    pub(crate) fn explain_error(&mut self, file: &str, error: &io::Error) {
        if self.explain {
            let _ = writeln!(self.errors, "betr: {file}: {error}");
        }
    }

    /// Explains why a reader or a writer failed, if it did.
    pub(crate) fn explain_noted<T>(&mut self, noted: &Noted<'_, T>) {
        if let Some(error) = &noted.error {
            self.explain_error(noted.name, error);
        }
    }

    /// Explains why the shape is invalid.
    pub(crate) fn explain_shape(&mut self, shape: Shape) {
        if self.explain {
            let (pending, fanout) = (shape.pending, shape.fanout);
            let _ = writeln!(
                self.errors,
                "betr: --pending {pending} is less than --fanout {fanout}"
            );
        }
    }

    /// Explains at which line a file stops being an image.
    pub(crate) fn explain_image(&mut self, file: &str, line: u64) {
        if self.explain {
            let _ = writeln!(
                self.errors,
                "betr: {file}: line {line} is no line of an image, or may not follow the lines before it"
            );
        }
    }

    /// Explains at which line of a file an image begins.
    pub(crate) fn hint_at_image(&mut self, file: &str, line: u64) {
        let _ = writeln!(
            self.errors,
            "betr: {file}: an image begins at line {line}; if replies are before it, sed -n '{line},$p' prints the image alone"
        );
    }

    /// Whether explanations are printed.
    pub(crate) fn explains(&self) -> bool {
        self.explain
    }

    /// Explains which line was not understood, if that was requested.
    fn explain_line(&mut self, verdict: Verdict)
        ensures { self.new.strict ≡ self.old.strict }
    {
        if !self.explain {
            return;
        }
        put_misread(self.errors, self.script, self.lines, verdict);
    }
}

impl<'a, 'e, E: Write> Watch for Monitor<'a, 'e, E> {
    ghost is_strict = { λ m. m.strict };

    fn see(&mut self, verdict: Verdict) -> bool {
        self.lines = self.lines.saturating_add(1);
        self.explain_line(verdict);
        !(self.strict && verdict.fails())
    }

    fn lines(&self) -> u64 {
        self.lines
    }
}

/// Prints which line of a script was not understood. Prints nothing if it was.
fn put_misread<E: Write>(errors: &mut E, script: &str, number: u64, verdict: Verdict) {
    match verdict {
        Verdict::Malformed => {
            let _ = writeln!(errors, "betr: {script}: line {number} was not understood");
        }
        Verdict::Overlong => {
            let _ = writeln!(
                errors,
                "betr: {script}: line {number} has more than {LONGEST_LINE} bytes"
            );
        }
        _ => {}
    }
}
