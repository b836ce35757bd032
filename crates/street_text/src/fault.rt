//! Faults of a line. All that reads a line returns them.
ghost use Rattle.std.specs.Prelude.{◌≡◌};
ghost use Rattle.street_text.specs.Faults.{number_of, name_of};

use thiserror::Error;

/// Why a line gave no command. The first three are tested in this order; `Starved` may come in place of any of them but
/// `LineTooLong`, and says nothing of the line.
#[derive(Debug, Clone, Copy, PartialEq, Eq, Error)]
pub enum LineFault {
    /// It has more bytes than a line of its kind may have.
    #[error("the line is too long")]
    LineTooLong,
    /// It is not UTF-8, is no JSON value, or is nested too deeply.
    #[error("the line is no JSON value")]
    NotJson,
    /// Its value is no command: a field is missing or of another kind, or `cmd` is not known.
    #[error("the line is no command")]
    BadCommand,
    /// The reading found no memory.
    #[error("out of memory")]
    Starved,
}

impl LineFault {
    /// The number that a reply line tells it by, 20 to 22. Lack of memory ends a run, and has none.
    pub fn number(self) -> Option<u64>
        ensures { result ≡ number_of self }
    {
        match self {
            LineFault::LineTooLong => Some(22),
            LineFault::NotJson => Some(20),
            LineFault::BadCommand => Some(21),
            LineFault::Starved => None,
        }
    }

    /// The name that a reply line tells it by; `Starved` for lack of memory, of which no line tells.
    pub fn name(self) -> &'static str
        ensures { result.now ≡ name_of self }
    {
        match self {
            LineFault::LineTooLong => "LineTooLong",
            LineFault::NotJson => "NotJson",
            LineFault::BadCommand => "BadCommand",
            LineFault::Starved => "Starved",
        }
    }
}
