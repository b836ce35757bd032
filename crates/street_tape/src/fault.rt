//! Faults of a replay and of an upgrade. `replays.rt` and `upgrades.rt` return them.
ghost use Rattle.std.specs.Prelude.{◌≡◌, ◌^◌, ◌<◌, true, IfErr, OnOk};
ghost use Rattle.street_tape.specs.ReplayHandler.{fault_of, Misses};
ghost use Rattle.street_tape.specs.TapeLines.{may_end};

use crate::{Stop, Tape};
use street_stream::{FaultKind, RunFault, StopCause, Tally};
use thiserror::Error;

/// Why a tape was not replayed, or not upgraded, to its end.
#[derive(Debug, Clone, Copy, PartialEq, Eq, Error)]
pub enum TapeFault {
    /// The first line is missing, is too long, is no JSON object, its version is not known, or it is of version 2 and does not
    /// say how many calls follow. Nothing was applied or written.
    #[error("the text is no tape")]
    NotTape,
    /// A further line does not read as a call, is blank or too long, says a number of steps that is not that of a part of an
    /// advance which the machine does not refuse, comes after all calls that the first line tells, or is missing where these
    /// are more. A replay has applied the calls before it, and written their replies; an upgrade has written nothing.
    #[error("line {line} of the tape is bad")]
    BadEntry {
        /// Its number; the first line has number 1.
        line: u128,
    },
    /// A read or a write failed, the reads ran out, or memory ran out, which a replay may lack also where the desk had it.
    #[error("the run failed")]
    Run(RunFault),
}

/// The fault of a tape that was not read to its end, by the cause and the tally at which its lines ended. The number of a bad line,
/// the first being 1, is how many lines the tally counts: it is the last of them.
pub(crate) fn fault_of(cause: StopCause<Stop>, tally: Tally) -> TapeFault
    ensures { result ≡ fault_of cause tally }
{
    match cause {
        StopCause::Run(kind) => TapeFault::Run(RunFault { kind, tally }),
        StopCause::Line(Stop::NotTape) => TapeFault::NotTape,
        StopCause::Line(Stop::BadEntry) => TapeFault::BadEntry { line: tally.lines },
        StopCause::Line(Stop::Starved) => TapeFault::Run(RunFault {
            kind: FaultKind::Starved,
            tally,
        }),
    }
}

/// Tests whether a tape that was read to its end has all its calls. `tally` counts the lines that were read.
///
/// # Errors
///
/// `NotTape` where it has no line; `BadEntry` at the first line that is missing.
pub(crate) fn check_end(tape: &Tape, tally: &Tally) -> Result<(), TapeFault>
    requires { tally.now.lines < 2 ^ 62 }
    ensures whole { OnOk result (may_end tape.now.rest ≡ true) }
    ensures missing { IfErr result (λ fault. Misses tape.now.rest tally.now fault) }
{
    if tape.may_end() {
        return Ok(());
    }
    if tape.is_begun() {
        return Err(TapeFault::BadEntry {
            line: tally.lines + 1,
        });
    }
    Err(TapeFault::NotTape)
}
