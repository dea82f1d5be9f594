//! The number of a job, by which its mark is found.
ghost use Rattle.std.specs.Prelude.{◌≡◌};

/// The number of a job: the first that is taken has 0, and no two have the same.
#[derive(Clone, Copy, Debug, PartialEq, Eq)]
pub struct Ticket {
    /// The number.
    pub number: u64,
}

impl Ticket {
    /// The ticket with this number.
    pub fn of(number: u64) -> Ticket
        ensures { result.number ≡ number }
    {
        Ticket { number }
    }
}
