//! A reader or a writer that remembers the error of its last failure, since `shell` reports only that it failed.
use std::io;
use std::io::{ErrorKind, Read, Write};

/// A reader or a writer with its name, and the error with which it failed last.
#[derive(Drop)]
pub(crate) struct Noted<'a, T> {
    pub(crate) name: &'a str,
    stream: &'a mut T,
    pub(crate) error: Option<io::Error>,
}

impl<'a, T> Noted<'a, T> {
    /// Wraps a stream that has not failed.
    pub(crate) fn new(name: &'a str, stream: &'a mut T) -> Noted<'a, T> {
        Noted {
            name,
            stream,
            error: None,
        }
    }

    /// Stores an error, unless it is an interruption by a signal, and returns it.
    fn note(&mut self, error: io::Error) -> io::Error {
        if error.kind() != ErrorKind::Interrupted {
            self.error = Some(same_error(&error));
        }
        error
    }
}

impl<'a, R: Read> Read for Noted<'a, R> {
    fn read(&mut self, buf: &mut [u8]) -> io::Result<usize> {
        match self.stream.read(buf) {
            Ok(n) => Ok(n),
            Err(error) => Err(self.note(error)),
        }
    }
}

impl<'a, W: Write> Write for Noted<'a, W> {
    fn write(&mut self, buf: &[u8]) -> io::Result<usize> {
        match self.stream.write(buf) {
            Ok(n) => Ok(n),
            Err(error) => Err(self.note(error)),
        }
    }

    fn flush(&mut self) -> io::Result<()> {
        match self.stream.flush() {
            Ok(()) => Ok(()),
            Err(error) => Err(self.note(error)),
        }
    }
}

/// Copies an error with the same number, or else with the same kind.
fn same_error(error: &io::Error) -> io::Error {
    match error.raw_os_error() {
        Some(number) => io::Error::from_raw_os_error(number),
        None => io::Error::from(error.kind()),
    }
}
