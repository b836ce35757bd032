//! What serves commands. The handlers of lines call it; engines, and desks with a pass, are services.

use street_base::{Command, Reply};

/// What a service answers to a command.
#[derive(Drop)]
pub enum Served {
    /// The command was called, and this is its reply.
    Answered(Reply),
    /// The command was not called: no place is left for it.
    Full,
    /// What is to be written of the command before its reply could not be written: nothing is answered, and the session ends.
    Unrecorded,
}

/// What serves commands one after another. Its meaning, `serves`, is a relation between the old state, the command, what was
/// served and the new state. `ready` is what it asks of its type parameters, as that all threads may use its runtime: a
/// function whose bounds say so has it.
pub trait Service {
    ghost use Rattle.street_base.specs.declared.command.Command.{Command};
    ghost use Rattle.street_line.specs.declared.service.Served.{Served};

    ghost serves: { Self → Command → Served → Self → Type 0 };

    ghost ready: { Type 0 };

    /// Serves one command: what it answers, or why it does not.
    fn serve(&mut self, command: Command) -> Served
        requires { ready }
        ensures { serves self.old command result self.new };
}
