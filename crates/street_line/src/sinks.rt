//! What is told of the steps of a session, and lets its replies out behind them: the sink of a session without a record, and what
//! writes one. `engines.rt` has the session.
use crate::service::Served;
use std::io::Write;
use street_base::Reply;
use street_engine::{StepSink, Unrecorded};
use street_record::RecordWriter;

/// What is told of steps, and lets the reply of the command that made them out. A session with such a sink stands for a `Machine`
/// (`stands`), which `answers` commands; `Start` is what is said once of all that a session stands for, as what a stream held before.
pub trait ReplySink: StepSink {
    ghost use Rattle.std.specs.Prelude.{◌≡◌, Bool};
    ghost use Rattle.street_base.specs.declared.command.Command.{Command};
    ghost use Rattle.street_base.specs.declared.reply.Reply.{Reply as Told};
    ghost use Rattle.street_line.specs.Sinks.{SessionServes, SessionView};
    ghost use Rattle.street_line.specs.declared.service.Served.{Served as Serving};

    ghost Start: { Type 0 };

    ghost Machine: { Type 0 };

    ghost answers: { Machine → Command → Serving → Machine → Type 0 };

    ghost stands: { Start → SessionView Self → Machine → Type 0 };

    ghost stopped: { Self → Bool };

    ghost lets_out: { Self → Told → Serving → Self → Type 0 };

    /// Whether no more commands are to be served.
    fn has_stopped(&self) -> bool
        ensures { result ≡ stopped self.now };

    /// What is answered to a command of whose steps it was told: its reply, or nothing.
    fn let_out(&mut self, reply: Reply) -> Served
        ensures { lets_out self.old reply result self.new };

    /// A law, for proofs; the call does nothing. A session that stood for a machine serves a command as that answers it, and then
    /// stands for what that has become.
    fn stands_on()
        ensures { (start : Start) (before : SessionView Self) (command : Command) (served : Serving) (after : SessionView Self)
            → SessionServes Self.notes stopped lets_out before command served after → (old : Machine) → stands start before old
            → (new : Machine) × answers old command served new × stands start after new };
}

impl ReplySink for Unrecorded {
    ghost use Rattle.std.specs.Prelude.{◌≡◌, false, ⊤};
    ghost use Rattle.street_base.specs.Prelude.{State};
    ghost use Rattle.street_line.specs.Engines.{MachineServes};
    ghost use Rattle.street_line.specs.Sinks.{StandsWithSink};
    ghost use Rattle.street_line.specs.declared.service.Served.TheVariants.{Answered};

    ghost Start = { ⊤ };

    ghost Machine = { State };

    ghost answers = { MachineServes };

    ghost stands = { λ start. StandsWithSink };

    ghost stopped = { λ sink. false };

    ghost lets_out = { λ old reply served new. served ≡ Answered reply };

    fn has_stopped(&self) -> bool {
        false
    }

    /// Lets each reply out.
    fn let_out(&mut self, reply: Reply) -> Served {
        Served::Answered(reply)
    }

    fn stands_on() {}
}

impl<F: Write + Drop> ReplySink for RecordWriter<F> {
    ghost use Rattle.std.specs.Prelude.{List, ℕ, Option};
    ghost use Rattle.street_line.specs.Recorded.{IsReplyBehind, MachineRecords, RecordedMachine, StandsRecorded};

    ghost Start = { Option (List ℕ) };

    ghost Machine = { RecordedMachine };

    ghost answers = { MachineRecords };

    ghost stands = { StandsRecorded F.contents };

    ghost stopped = { λ writer. writer.has_failed };

    ghost lets_out = { IsReplyBehind F.contents };

    /// Once a write has failed nothing more is served.
    fn has_stopped(&self) -> bool {
        self.has_failed()
    }

    /// Lets the reply out once the blocks of all steps are written.
    fn let_out(&mut self, reply: Reply) -> Served {
        self.write_out();
        if self.has_failed() {
            return Served::Unrecorded;
        }
        Served::Answered(reply)
    }

    fn stands_on() {}
}
