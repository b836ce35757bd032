//! The engine, which serves commands one after another, and the gate of an engine whose steps nobody watches. A desk, and the
//! services of `street_line`, call an engine.
ghost use Rattle.std.specs.Prelude.{◌≡◌, ◌*◌, ◌+◌, ◌≤◌, IfOk, OnErr, None};
ghost use Rattle.street_base.specs.declared.command.Command.TheVariants.{Advance};
ghost use Rattle.street_base.specs.declared.refusal.Refusal.{Refusal};
ghost use Rattle.street_base.specs.declared.reply.Reply.TheVariants.{Refused};
ghost use Rattle.street_base.specs.Prelude.{last_clock, most_workers, refusal, steps, State};
ghost use Rattle.street_engine.specs.Prelude.{StandsFor, Serves, ServesAll, KeepsSink, StreetsGo, ToldOf, ToldSteps};

use crate::clock_commands::advance_refusal;
use crate::crews::{own_steps, started_steps, staying_steps};
use crate::{StepSink, Streets, Unrecorded, commands};
use std::alloc::{AllocError, Global};
use std::marker::Model;
use std::sync::Wait;
use std::thread::Threads;
use street_base::{Command, Outcome, Refusal, Reply};
use street_tile::Gate;

/// From about how many vehicles in cells on threads that are started for each part of a step save more time than that takes.
const LEAST_LENT: u64 = 30_000;

/// From about how many vehicles in cells on threads that stay for many steps save more time than they wait for each other.
const LEAST_STAYING: u64 = 1_500;

/// How much longer a step takes where threads that stay share it, in thirds of what a vehicle on a full link of one lane takes.
const SHARING: u64 = 1_500;

/// How much longer for each of these threads.
const THREAD: u64 = 3_300;

/// A gate that watches no worker, and lets them share a step where there is enough to do. Threads that are started for each part of a
/// step, and threads that stay, are worth their cost from different numbers of vehicles on: a gate is for the ones or the others.
#[derive(Drop)]
pub struct Unwatched {
    /// From how many vehicles in cells on workers share a step, if half of that number are in other tiles than the fullest: 0 is
    /// always.
    pub from: u64,
    /// How many threads at most stay for the steps of an advance.
    pub processors: usize,
}

impl Unwatched {
    /// For calls that never wait for another thread ([`StartedCrew`](crate::StartedCrew)): workers share a step where threads that are started for each
    /// part of it save time.
    pub fn new() -> Self {
        Unwatched {
            from: LEAST_LENT,
            processors: 1,
        }
    }

    /// For calls that may wait ([`StayingCrew`](crate::StayingCrew)), on so many processors: workers share a step where threads that stay save time.
    pub fn staying(processors: usize) -> Self {
        Unwatched {
            from: LEAST_STAYING,
            processors,
        }
    }
}

impl Gate for Unwatched {
    /// True where at least `from` vehicles are in cells, and at least half of `from` in other tiles than the fullest: sharing saves only
    /// the time of these, and of `from` vehicles on two equal tiles each has half.
    fn shares(&self, vehicles: u64, fullest: u64) -> bool {
        vehicles >= self.from && vehicles.saturating_sub(fullest) >= self.from / 2
    }

    /// As many threads as the gate was made for.
    fn processors(&self) -> usize {
        self.processors
    }

    /// How long a step takes by so many threads, in thirds of what a vehicle on a full link of one lane takes, some 15 ns. Beside
    /// others a thread is slower, and it waits for them. Of a gate that always shares, more threads are always sooner.
    fn step_time(&self, threads: usize, busiest: u64) -> u64 {
        if self.from == 0 {
            return u64::MAX - threads as u64;
        }
        if threads == 1 {
            return busiest.saturating_mul(3);
        }
        let waits = SHARING.saturating_add(THREAD.saturating_mul(threads as u64));
        busiest.saturating_mul(4).saturating_add(waits)
    }
}

/// Serves commands over one network, or over nothing loaded. The gate is called by the workers of each step.
pub struct Engine<G: Gate + Sync + Drop> {
    alloc: Global,
    workers: u32,
    gate: G,
    streets: Option<Streets>,
}

// Written out, so that the check of a function that drops an engine sees this type alone, and not all types below it.
impl<G: Gate + Sync + Drop> Drop for Engine<G> {
    /// Drops what is loaded, and the gate.
    fn drop(self) {
        let Engine {
            alloc: _,
            workers: _,
            gate: _,
            streets: _,
        } = self;
    }
}

impl<G: Gate + Sync + Drop> Model for Engine<G> {
    ghost use Rattle.std.specs.Prelude.{◌≤◌};
    ghost use Rattle.street_base.specs.Prelude.{most_workers};
    ghost use Rattle.street_engine.specs.Prelude.{EngineView};

    ghost Value = { EngineView };

    ghost view = { λ e. e.streets };

    ghost invariant = { λ e. (1 ≤ e.workers) × (e.workers ≤ most_workers) };
}

impl<G: Gate + Sync + Drop> Engine<G> {
    /// An engine with nothing loaded, whose steps are made by so many workers at most, 1 to 64: for so many a network is cut when
    /// it is loaded, and the gate says which steps they share. Takes no memory.
    pub fn new(alloc: Global, workers: u32, gate: G) -> Self
        requires some { 1 ≤ workers }
        requires few { workers ≤ most_workers }
        ensures { StandsFor result None }
    {
        Engine {
            alloc,
            workers,
            gate,
            streets: None,
        }
    }

    /// Serves one command: whatever state of the machine the engine stood for, it then stands for the machine's state after the
    /// command, and the reply is the machine's, both under the outcome answered, which tells how far memory let it be done. A
    /// refused command leaves it equal. Waits for no other thread but those that it starts.
    pub fn apply<R: Threads + Sync>(&mut self, rt: &R, command: &Command) -> (Reply, Outcome)
        ensures serves { Serves self.old command.now result.0 result.1 self.new }
        ensures refused { (refusal : Refusal) → result.0 ≡ Refused refusal → self.new ≡ self.old }
    {
        let (reply, outcome, _sink) = self.apply_recording(rt, Unrecorded, command);
        (reply, outcome)
    }

    /// As [`apply`](Self::apply), and a sink is told of each step that the command makes, in their order. The sink is given back: as it
    /// was, where the command made no step.
    pub fn apply_recording<R: Threads + Sync, S: StepSink + Drop>(
        &mut self,
        rt: &R,
        sink: S,
        command: &Command,
    ) -> (Reply, Outcome, S)
        ensures serves { Serves self.old command.now result.0 result.1 self.new }
        ensures refused { (refusal : Refusal) → result.0 ≡ Refused refusal → self.new ≡ self.old }
        ensures told { ToldSteps S.notes self.old command.now result.0 sink result.2 }
        ensures untold { KeepsSink command.now result.0 sink result.2 }
    {
        let gate = &self.gate;
        let make = |streets: Streets, sink: S, count: u64| -> (Streets, S, u64)
            requires { (count ≤ 16) × (streets.clock + count ≤ last_clock) }
            ensures { (result.2 ≤ count) × (result.0.clock ≡ streets.clock + result.2) × StreetsGo (steps result.2) streets result.0
                × ToldOf S.notes streets result.2 sink result.1 }
        { started_steps(rt, gate, streets, sink, count) };
        commands::apply(
            &make,
            self.alloc,
            self.workers as usize,
            &mut self.streets,
            sink,
            command,
        )
    }

    /// As [`apply_recording`](Self::apply_recording), and an advance is made by workers that stay, which wait for each other: it keeps
    /// the same promise if it returns.
    pub fn apply_recording_by_team<R: Threads + Wait + Sync, S: StepSink + Drop>(
        &mut self,
        rt: &R,
        sink: S,
        command: &Command,
    ) -> (Reply, Outcome, S)
        ensures serves { Serves self.old command.now result.0 result.1 self.new }
        ensures refused { (refusal : Refusal) → result.0 ≡ Refused refusal → self.new ≡ self.old }
        ensures told { ToldSteps S.notes self.old command.now result.0 sink result.2 }
        ensures untold { KeepsSink command.now result.0 sink result.2 }
    {
        let gate = &self.gate;
        let alloc = self.alloc;
        let make = |streets: Streets, sink: S, count: u64| -> (Streets, S, u64)
            requires { (count ≤ 16) × (streets.clock + count ≤ last_clock) }
            ensures { (result.2 ≤ count) × (result.0.clock ≡ streets.clock + result.2) × StreetsGo (steps result.2) streets result.0
                × ToldOf S.notes streets result.2 sink result.1 }
        { staying_steps(rt, gate, alloc, streets, sink, count) };
        commands::apply(
            &make,
            self.alloc,
            self.workers as usize,
            &mut self.streets,
            sink,
            command,
        )
    }

    /// As [`apply_recording`](Self::apply_recording), and the thread that calls makes each advance alone: it starts no thread and has no
    /// runtime, so that a caller that is not Rattle may call it.
    pub fn apply_recording_alone<S: StepSink + Drop>(
        &mut self,
        sink: S,
        command: &Command,
    ) -> (Reply, Outcome, S)
        ensures serves { Serves self.old command.now result.0 result.1 self.new }
        ensures refused { (refusal : Refusal) → result.0 ≡ Refused refusal → self.new ≡ self.old }
        ensures told { ToldSteps S.notes self.old command.now result.0 sink result.2 }
        ensures untold { KeepsSink command.now result.0 sink result.2 }
    {
        let gate = &self.gate;
        let make = |streets: Streets, sink: S, count: u64| -> (Streets, S, u64)
            requires { (count ≤ 16) × (streets.clock + count ≤ last_clock) }
            ensures { (result.2 ≤ count) × (result.0.clock ≡ streets.clock + result.2) × StreetsGo (steps result.2) streets result.0
                × ToldOf S.notes streets result.2 sink result.1 }
        { own_steps(gate, streets, sink, count) };
        commands::apply(
            &make,
            self.alloc,
            self.workers as usize,
            &mut self.streets,
            sink,
            command,
        )
    }

    /// Why an advance of so many steps is refused; none where it is not. Changes nothing, and takes no memory.
    pub fn advance_refusal(&self, steps: u64) -> Option<Refusal>
        ensures { (m : State) → StandsFor self.now m → result ≡ refusal m (Advance steps) }
    {
        match &self.streets {
            Some(streets) => advance_refusal(streets, steps),
            None => Some(Refusal::NotLoaded),
        }
    }

    /// Serves all commands in order, as [`apply`](Self::apply) does, and answers each: the machine's run of this list.
    ///
    /// # Errors
    /// Memory for the list of answers was refused; nothing was served.
    pub fn apply_all<R: Threads + Sync>(
        &mut self,
        rt: &R,
        commands: &[Command],
    ) -> Result<Vec<(Reply, Outcome)>, AllocError>
        ensures run { IfOk result (λ replies.
            ServesAll self.old commands.now replies.items self.new) }
        ensures err { OnErr result (self.new ≡ self.old) }
    {
        let mut replies = Vec::with_capacity(self.alloc, commands.len())?;
        for command in commands {
            let answer = self.apply(rt, command);
            replies.push_reserved(answer);
        }
        Ok(replies)
    }
}
