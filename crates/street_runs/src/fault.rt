//! What the program tells where it does not end as it should. Each run ends with one, and `main` tells it.
ghost use Rattle.std.specs.Prelude.{◌≡◌};
ghost use Rattle.street_runs.specs.Faults.{fault_of_run, fault_of_tape, status_of};

use std::fmt;
use street_base::Starved;
use street_stream::FaultKind;
use street_tape::TapeFault;

/// A fault of the program. Files are told by their names as they were given.
#[derive(Debug, Clone, Copy, PartialEq, Eq)]
pub enum ProgramFault<'a> {
    /// The words of the command line are no options.
    BadArguments,
    /// A file, or standard input, could not be read.
    Read(&'a str),
    /// A file, or standard output, could not be written.
    Write(&'a str),
    /// Another program keeps its session in a file.
    InUse(&'a str),
    /// Memory was refused.
    OutOfMemory,
    /// A reader has no end.
    Endless,
    /// A line of a tape, the first being 1, is no line of a tape; or a line of the file of a kept session is no command, or
    /// is refused where it stands.
    BadTape { line: u128 },
}

impl fmt::Display for ProgramFault<'_> {
    ghost use Rattle.std.specs.Prelude.{Some};
    ghost use Rattle.street_runs.specs.Faults.{text_of};

    ghost output = { λ fault. Some (text_of fault) };

    /// The text that is told of a fault, with no LF.
    fn fmt<W: fmt::Write>(&self, f: &mut fmt::Formatter<W>) -> fmt::Result {
        match self {
            ProgramFault::BadArguments => write!(f, "bad arguments"),
            ProgramFault::Read(name) => write!(f, "cannot read {name}"),
            ProgramFault::Write(name) => write!(f, "cannot write {name}"),
            ProgramFault::InUse(name) => write!(f, "{name} is in use"),
            ProgramFault::OutOfMemory => write!(f, "out of memory"),
            ProgramFault::Endless => write!(f, "endless input"),
            ProgramFault::BadTape { line } => write!(f, "bad tape at line {line}"),
        }
    }
}

impl<'a> ProgramFault<'a> {
    /// The status that the program ends with: 2 for bad arguments, else 1.
    pub fn status(self) -> u8
        ensures { result ≡ status_of self.entry }
    {
        match self {
            ProgramFault::BadArguments => 2,
            _ => 1,
        }
    }

    /// The fault of a run that reads one thing and writes another: `read` and `written` are their names, as they are told.
    pub fn of_run(kind: FaultKind, read: &'a str, written: &'a str) -> ProgramFault<'a>
        ensures { result ≡ fault_of_run kind read.entry written.entry }
    {
        match kind {
            FaultKind::Read => ProgramFault::Read(read),
            FaultKind::Write => ProgramFault::Write(written),
            FaultKind::Starved => ProgramFault::OutOfMemory,
            FaultKind::Endless => ProgramFault::Endless,
        }
    }

    /// The fault of a replay or an upgrade, by the names of the tape and of what is written.
    pub fn of_tape(fault: TapeFault, tape: &'a str, written: &'a str) -> ProgramFault<'a>
        ensures { result ≡ fault_of_tape fault tape.entry written.entry }
    {
        match fault {
            TapeFault::NotTape => ProgramFault::BadTape { line: 1 },
            TapeFault::BadEntry { line } => ProgramFault::BadTape { line },
            TapeFault::Run(fault) => ProgramFault::of_run(fault.kind, tape, written),
        }
    }
}

impl From<Starved> for ProgramFault<'_> {
    ghost use Rattle.street_runs.specs.declared.fault.ProgramFault.TheVariants.{OutOfMemory};

    ghost from_gives = { λ _ fault. fault ≡ OutOfMemory };

    /// Lack of memory, as a fault of the program.
    fn from(_error: Starved) -> Self {
        ProgramFault::OutOfMemory
    }
}
