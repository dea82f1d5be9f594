//! The outcome of a line of a script, and why a run ends.
ghost use Rattle.std.specs.Prelude.{◌≡◌};
ghost use Rattle.shell.specs.Verdicts.{fails, is_refusal};

use reference::Reply;

/// How a line was answered.
#[derive(Clone, Copy, Debug, Drop, PartialEq, Eq)]
pub enum Verdict {
    /// Not at all, or by a reply that is not a fault.
    Done,
    /// By a fault.
    Fault,
    /// By `error syntax`.
    Malformed,
    /// By `error line`.
    Overlong,
}

impl Verdict {
    /// The verdict of a reply to a call.
    pub fn of_reply(reply: &Reply) -> Verdict
        ensures { fails result ≡ is_refusal reply.now }
    {
        match reply {
            Reply::Fault(_) => Verdict::Fault,
            _ => Verdict::Done,
        }
    }

    /// Whether it is a fault or an error.
    pub fn fails(self) -> bool
        ensures { result ≡ fails self }
    {
        match self {
            Verdict::Done => false,
            _ => true,
        }
    }
}

/// Why no more lines are executed.
#[derive(Clone, Copy, Debug, Drop, PartialEq, Eq)]
pub enum Halt {
    /// The writer failed.
    Write,
    /// The reply was a fault or an error, and the run had to end there.
    Fault,
}
