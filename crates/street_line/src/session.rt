//! A desk and one caller's pass serve commands. `sessions.rt` and `script.rt` serve lines by it.
ghost use Rattle.std.specs.Prelude.{◌≡◌};
ghost use Rattle.street_line.specs.Sessions.{DeskServes};

use crate::{Served, Service};
use std::marker::Model;
use std::sync::Wait;
use std::thread::Threads;
use street_base::Command;
use street_desk::{Desk, Pass};
use street_engine::Unwatched;

/// A desk with one of its passes, as a service: what it serves is what the pass is told of the calls.
#[derive(Drop)]
pub struct DeskSession<'a, R: Threads + Wait + Sync> {
    rt: &'a R,
    desk: &'a Desk<Unwatched>,
    pass: Pass<Unwatched>,
}

impl<'a, R: Threads + Wait + Sync> Model for DeskSession<'a, R> {
    ghost use Rattle.std.specs.Prelude.{◌≡◌};
    ghost use Rattle.street_desk.specs.Passes.{PassView};

    ghost Value = { PassView };

    ghost view = { λ s. s.pass };

    ghost invariant = { λ s. s.pass.desk ≡ s.desk.now };
}

impl<'a, R: Threads + Wait + Sync> DeskSession<'a, R> {
    /// The desk as this pass calls it. Takes no memory.
    pub fn new(rt: &'a R, desk: &'a Desk<Unwatched>, pass: Pass<Unwatched>) -> DeskSession<'a, R>
        requires { pass.desk ≡ desk.now }
        ensures { result ≡ pass }
    {
        DeskSession { rt, desk, pass }
    }

    /// Gives back the pass, which has seen all calls of the session. Takes no memory.
    pub fn into_pass(self) -> Pass<Unwatched>
        ensures { result ≡ self.entry }
    {
        let DeskSession { pass, .. } = self;
        pass
    }
}

impl<'a, R: Threads + Wait + Sync> Service for DeskSession<'a, R> {
    ghost use Rattle.std.specs.Thread.{IsSync};

    ghost serves = { DeskServes };

    ghost ready = { IsSync R.row };

    /// Has the desk call the command by this pass: it is answered, or told as full where no place is left.
    fn serve(&mut self, command: Command) -> Served {
        match self.desk.call(self.rt, &mut self.pass, command) {
            Ok(reply) => Served::Answered(reply),
            Err(_) => Served::Full,
        }
    }
}
