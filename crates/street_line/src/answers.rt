//! The answer to a command, as what is written for it. The handlers of lines, `server.rt` and `kept.rt`, call it.
ghost use Rattle.std.specs.Prelude.{◌≡◌, ◌<◌, ℕ, List, Some, true, IfOk, OnErr, length};
ghost use Rattle.street_stream.specs.HandledLines.{Gives};
ghost use Rattle.street_line.specs.ServedLine.{IsAnswerTo};
ghost use Rattle.street_line.specs.declared.service.Served.TheVariants.{Unrecorded};

use crate::service::Served;
use std::alloc::Global;
use street_base::Starved;
use street_stream::LineAnswer;
use street_text::{error_text, reply_text};

/// The answer to a call, with this line as its reply. Where there was no memory for the line the answer says so, and this is no error
/// of the call: its command is already served.
fn answer_with(text: Result<Vec<u8>, Starved>) -> LineAnswer
    ensures { (line : List ℕ) → 0 < length line → IfOk text (λ text. text.items ≡ line) → Gives result (record { is_call = true; reply = Some line }) }
{
    let reply = match text {
        Ok(text) => Ok(Some(text)),
        Err(starved) => Err(starved),
    };
    LineAnswer {
        is_call: true,
        reply,
    }
}

/// The answer to a command that was served so, with the line of its reply, or error 23 where it was not called.
///
/// # Errors
///
/// `Starved` where nothing is answered.
pub(crate) fn answer_to(alloc: Global, served: Served) -> Result<LineAnswer, Starved>
    ensures answered { IfOk result (IsAnswerTo served) }
    ensures unanswered { OnErr result (served ≡ Unrecorded) }
{
    match served {
        Served::Answered(reply) => Ok(answer_with(reply_text(alloc, &reply))),
        Served::Full => Ok(answer_with(error_text(alloc, 23, "Full"))),
        Served::Unrecorded => Err(Starved),
    }
}
