//! What a handler answers to one line, and for which cause a run of lines stops early. A handler makes the answers;
//! `driver.rt` and `open_text.rt` return the cause, with the tally, to whoever runs lines.
ghost use Rattle.std.specs.Prelude.{◌≡◌};
ghost use Rattle.street_stream.specs.declared.tally.FaultKind.TheVariants as kinds;
ghost use Rattle.street_stream.specs.declared.answer.StopCause.TheVariants as causes;

use crate::tally::{FaultKind, Tally};
use street_base::Starved;

/// What a line gave.
#[derive(Drop)]
pub struct LineAnswer {
    /// Whether it was a call, which the tally counts.
    pub is_call: bool,
    /// The text of its reply with LF, or none where it gets no reply; or memory ran out for the text.
    pub reply: Result<Option<Vec<u8>>, Starved>,
}

/// Why a run of lines ended before its text did.
#[derive(Drop)]
pub enum StopCause<S> {
    /// A read or a write failed, memory ran out, or the reads ran out.
    Run(FaultKind),
    /// A line ended it.
    Line(S),
}

/// A run of lines that ended before its text did.
#[derive(Drop)]
pub struct Halt<S> {
    /// Why.
    pub cause: StopCause<S>,
    /// What was done before; a line that ended the run is counted among the lines.
    pub tally: Tally,
}

impl<S> From<FaultKind> for StopCause<S> {
    ghost from_gives = { λ kind cause. cause ≡ causes.Run kind };

    /// A fault of a run, as the cause that ended it.
    fn from(kind: FaultKind) -> StopCause<S> {
        StopCause::Run(kind)
    }
}

impl<S> From<Starved> for StopCause<S> {
    ghost from_gives = { λ _ cause. cause ≡ causes.Run kinds.Starved };

    /// Lack of memory, as the cause that ended a run: the fault `Starved`.
    fn from(_error: Starved) -> StopCause<S> {
        StopCause::Run(FaultKind::Starved)
    }
}
