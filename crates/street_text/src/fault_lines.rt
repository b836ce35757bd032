//! The line that answers a faulty line. The handlers of lines of `street_line` call it.
ghost use Rattle.std.specs.Prelude.{◌≡◌, IfOk, Some};
ghost use Rattle.street_text.specs.FaultLines.{fault_line};

use crate::{LineFault, error_text};
use std::alloc::Global;
use street_base::Starved;

/// The line that answers a line with this fault: one JSON object, the fault's number as `error` and its name as `name`, and
/// LF.
///
/// # Errors
///
/// `Starved` where there was no memory for it, and for the fault `LineFault::Starved`, which no line answers: it ends the
/// run.
pub fn fault_text(alloc: Global, fault: LineFault) -> Result<Vec<u8>, Starved>
    ensures { IfOk result (λ text. fault_line fault ≡ Some text.items) }
{
    match fault.number() {
        Some(number) => error_text(alloc, number, fault.name()),
        None => Err(Starved),
    }
}
