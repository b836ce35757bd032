//! What is done with the lines of a text. `driver.rt` and `open_text.rt` call it for each line.
ghost use Rattle.std.specs.Prelude.{List, ℕ, IfOk, IfErr};
ghost use Rattle.street_stream.specs.HandledLines.{Handled};
ghost use Rattle.street_stream.specs.Lines.{IsPart};

use crate::answer::LineAnswer;
use crate::part::PartialLine;
use std::alloc::Global;

/// What is done with the lines of a text, one after another.
///
/// Of its `meaning`, `longest` is the most bytes that a line may have; a longer one is handed on too, as far as it is kept.
/// `takes` stands between the old state, a whole line, what the line gave and the new state; `stops` between the old state, a
/// whole line that ended the run, why it did and the new state. `ready` is what the handler asks of its type parameters, as
/// that all threads may use its runtime: a function whose bounds say so has it.
pub trait LineHandler {
    ghost use Rattle.street_stream.specs.HandledLines.{Meaning};

    /// Why a line ends the run.
    type Stop: Drop;

    ghost meaning: { Meaning Self Self.Stop };

    ghost ready: { Type 0 };

    /// Does what a whole line says. Blank lines and lines that are too long come too.
    ///
    /// # Errors
    ///
    /// Why the run ends with this line: nothing was called or written of it.
    fn take(&mut self, alloc: Global, line: &PartialLine) -> Result<LineAnswer, Self::Stop>
        requires { ready }
        ensures taken { (whole : List ℕ) → IsPart meaning.longest line.now whole
            → IfOk result (Handled meaning.takes self.old whole self.new) }
        ensures stopped { (whole : List ℕ) → IsPart meaning.longest line.now whole
            → IfErr result (λ stop. meaning.stops self.old whole stop self.new) };
}
