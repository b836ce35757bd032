//! What a run of lines counts (lines, calls, replies, bytes), and the kinds of fault that may end it. `driver.rt`
//! counts; each run returns its tally, and where a fault ended it the kind of that fault.
ghost use Rattle.std.specs.Prelude.{◌≡◌};
ghost use Rattle.street_stream.specs.declared.tally.FaultKind.{FaultKind};
ghost use Rattle.street_stream.specs.declared.tally.FaultKind.TheVariants as kinds;

use street_base::Starved;

/// What a run has done.
#[derive(Debug, Clone, Copy, PartialEq, Eq)]
pub struct Tally {
    /// The lines that ended, blank ones and faulty ones too.
    pub lines: u128,
    /// The commands that were served.
    pub calls: u128,
    /// The replies that were written whole.
    pub replies: u128,
    /// The bytes that were written.
    pub bytes: u128,
}

/// Why a run ended before its text did.
#[derive(Debug, Clone, Copy, PartialEq, Eq)]
pub enum FaultKind {
    /// A read failed.
    Read,
    /// A write failed, or took no bytes.
    Write,
    /// Out of memory: to read a line, for the text of one to write, or, in a replay, to apply a call.
    Starved,
    /// So many reads as the run may make did not come to the end.
    Endless,
}

/// A run that ended before its text did.
#[derive(Debug, Clone, Copy, PartialEq, Eq)]
pub struct RunFault {
    /// Why.
    pub kind: FaultKind,
    /// What was done before.
    pub tally: Tally,
}

impl From<Starved> for FaultKind {
    ghost from_gives = { λ _ kind. kind ≡ kinds.Starved };

    /// Lack of memory, as the fault of a run.
    fn from(_error: Starved) -> FaultKind {
        FaultKind::Starved
    }
}
