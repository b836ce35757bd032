//! Who makes the steps of the advances that an engine serves for another: threads that are started for each part of a step, workers
//! that stay, and wait for each other, or the thread that calls alone. The sessions of `street_line` have a crew of one of these.
use crate::StepSink;
use crate::engine::{Engine, Unwatched};
use std::sync::Wait;
use std::thread::Threads;
use street_base::{Command, Outcome, Reply};

/// Who makes the steps of advances. `apply` names no handle: a crew that may wait says so in the bounds of its `impl`, so what is said
/// of whoever has a crew holds if its `apply` returns. `ready` is what a crew asks of its type parameters.
pub trait Crew {
    ghost use Rattle.std.specs.Prelude.{◌≡◌};
    ghost use Rattle.street_base.specs.declared.refusal.Refusal.{Refusal};
    ghost use Rattle.street_base.specs.declared.reply.Reply.TheVariants.{Refused};
    ghost use Rattle.street_engine.specs.Prelude.{KeepsSink, Serves, ToldSteps};

    ghost ready: { Type 0 };

    /// Has an engine serve a command, and a sink told of each step that it makes, as [`Engine::apply_recording`] does.
    fn apply<S: StepSink + Drop>(
        &self,
        engine: &mut Engine<Unwatched>,
        sink: S,
        command: &Command,
    ) -> (Reply, Outcome, S)
        requires ready { ready }
        ensures serves { Serves engine.old command.now result.0 result.1 engine.new }
        ensures refused { (refusal : Refusal) → result.0 ≡ Refused refusal → engine.new ≡ engine.old }
        ensures told { ToldSteps S.notes engine.old command.now result.0 sink result.2 }
        ensures untold { KeepsSink command.now result.0 sink result.2 };
}

/// Threads of this runtime that are started for each part of a step, and waited for by nobody else.
#[derive(Drop)]
pub struct StartedCrew<'a, R: Threads + Sync> {
    rt: &'a R,
}

impl<'a, R: Threads + Sync> StartedCrew<'a, R> {
    /// The threads of a runtime.
    pub fn new(rt: &'a R) -> Self {
        StartedCrew { rt }
    }
}

impl<'a, R: Threads + Sync> Crew for StartedCrew<'a, R> {
    ghost use Rattle.std.specs.Thread.{IsSync};

    ghost ready = { IsSync R.row };

    /// By [`Engine::apply_recording`].
    fn apply<S: StepSink + Drop>(
        &self,
        engine: &mut Engine<Unwatched>,
        sink: S,
        command: &Command,
    ) -> (Reply, Outcome, S) {
        engine.apply_recording(self.rt, sink, command)
    }
}

/// Workers on threads of this runtime that stay for the steps of an advance, and wait for each other.
#[derive(Drop)]
pub struct StayingCrew<'a, R: Threads + Wait + Sync> {
    rt: &'a R,
}

impl<'a, R: Threads + Wait + Sync> StayingCrew<'a, R> {
    /// The threads of a runtime.
    pub fn new(rt: &'a R) -> Self {
        StayingCrew { rt }
    }
}

impl<'a, R: Threads + Wait + Sync> Crew for StayingCrew<'a, R> {
    ghost use Rattle.std.specs.Thread.{IsSync};

    ghost ready = { IsSync R.row };

    /// By [`Engine::apply_recording_by_team`].
    fn apply<S: StepSink + Drop>(
        &self,
        engine: &mut Engine<Unwatched>,
        sink: S,
        command: &Command,
    ) -> (Reply, Outcome, S) {
        engine.apply_recording_by_team(self.rt, sink, command)
    }
}

/// The thread that calls, alone: it starts no thread and asks for no runtime, so a program in another language may call it.
#[derive(Drop)]
pub struct AloneCrew {}

impl Crew for AloneCrew {
    ghost use Rattle.std.specs.Prelude.{⊤};

    ghost ready = { ⊤ };

    /// By [`Engine::apply_recording_alone`].
    fn apply<S: StepSink + Drop>(
        &self,
        engine: &mut Engine<Unwatched>,
        sink: S,
        command: &Command,
    ) -> (Reply, Outcome, S) {
        engine.apply_recording_alone(sink, command)
    }
}
