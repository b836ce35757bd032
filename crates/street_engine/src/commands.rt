//! One command, whichever it is: served by its own function where a network is loaded, else refused; and a load, served here.
//! `engine.rt` calls it for each command.
ghost use Rattle.std.specs.Prelude.{◌≡◌, ◌≤◌, Some, None};
ghost use Rattle.street_base.specs.Prelude.{most_workers};
ghost use Rattle.street_base.specs.declared.command.Command.TheVariants.{Load};
ghost use Rattle.street_engine.specs.Prelude.{Serves, KeepsRefused, KeepsSink, MakesSteps, ToldSteps, steps_made};

use crate::clock_commands::{advance, count};
use crate::detector_commands::{place_meter, read_meter};
use crate::lane_commands::{lane, set_closed, signal};
use crate::vehicle_commands::{enter, take_out, vehicle};
use crate::{StepSink, Streets};
use std::alloc::Global;
use street_base::{Command, NetSpec, Outcome, Refusal, Reply};
use street_net::NetFault;

/// Applies one command to what is loaded, or to nothing: what it answers, and under which outcome. `workers`, 1 to 64, is read by a
/// load alone: at most so many make the steps of what it loads. The sink is told of each step, and given back.
pub(crate) fn apply<K: StepSink, M: Fn(Streets, K, u64) -> (Streets, K, u64)>(
    make: &M,
    alloc: Global,
    workers: usize,
    state: &mut Option<Streets>,
    sink: K,
    command: &Command,
) -> (Reply, Outcome, K)
    requires make { MakesSteps K.notes M.Fn make.now }
    requires some { 1 ≤ workers }
    requires few { workers ≤ most_workers }
    ensures serves { Serves state.old command.now result.0 result.1 state.new }
    ensures refused { KeepsRefused state.old result.0 state.new }
    ensures told { ToldSteps K.notes state.old command.now result.0 sink result.2 }
    ensures untold { KeepsSink command.now result.0 sink result.2 }
{
    if let Some(streets) = state.take() {
        let (streets, sink, reply, outcome) = serve(make, alloc, streets, sink, command);
        *state = Some(streets);
        return (reply, outcome, sink);
    }
    let (streets, reply, outcome) = begin(alloc, workers, command);
    *state = streets;
    (reply, outcome, sink)
}

/// Applies one command where nothing is loaded: the streets where there are some then, the reply, and its outcome.
fn begin(alloc: Global, workers: usize, command: &Command) -> (Option<Streets>, Reply, Outcome)
    requires some { 1 ≤ workers }
    requires few { workers ≤ most_workers }
    ensures serves { Serves None command.now result.1 result.2 result.0 }
    ensures refused { KeepsRefused None result.1 result.0 }
    ensures no_step { steps_made command.now result.1 ≡ 0 }
{
    match command {
        Command::Load(net) => load(alloc, workers, net),
        _ => (None, Reply::Refused(Refusal::NotLoaded), Outcome::Whole),
    }
}

/// Applies one command to a loaded network: an advance by calls of `make`, which tell the sink of each step.
fn serve<K: StepSink, M: Fn(Streets, K, u64) -> (Streets, K, u64)>(
    make: &M,
    alloc: Global,
    streets: Streets,
    sink: K,
    command: &Command,
) -> (Streets, K, Reply, Outcome)
    requires make { MakesSteps K.notes M.Fn make.now }
    ensures serves { Serves (Some streets) command.now result.2 result.3 (Some result.0) }
    ensures refused { KeepsRefused (Some streets) result.2 (Some result.0) }
    ensures told { ToldSteps K.notes (Some streets) command.now result.2 sink result.1 }
    ensures untold { KeepsSink command.now result.2 sink result.1 }
{
    let mut streets = streets;
    match command {
        Command::Load(_) => (
            streets,
            sink,
            Reply::Refused(Refusal::AlreadyLoaded),
            Outcome::Whole,
        ),
        Command::Signal {
            node,
            offset,
            phases,
        } => {
            let (reply, outcome) = signal(alloc, &mut streets, *node, *offset, phases.as_slice());
            (streets, sink, reply, outcome)
        }
        Command::Enter {
            plan,
            lane,
            depart,
            size,
        } => {
            let (reply, outcome) = enter(
                alloc,
                &mut streets,
                plan.as_slice(),
                *lane,
                *depart,
                *size,
            );
            (streets, sink, reply, outcome)
        }
        Command::Advance { steps } => advance(make, streets, sink, *steps),
        Command::CloseLane {
            link,
            lane,
            first,
            last,
        } => {
            let (reply, outcome) = set_closed(&mut streets, *link, *lane, *first, *last, true);
            (streets, sink, reply, outcome)
        }
        Command::ReopenLane {
            link,
            lane,
            first,
            last,
        } => {
            let (reply, outcome) = set_closed(&mut streets, *link, *lane, *first, *last, false);
            (streets, sink, reply, outcome)
        }
        Command::TakeOut { car } => {
            let (reply, outcome) = take_out(&mut streets, *car);
            (streets, sink, reply, outcome)
        }
        Command::PlaceMeter {
            link,
            lane,
            cell,
            period,
        } => {
            let (reply, outcome) = place_meter(alloc, &mut streets, *link, *lane, *cell, *period);
            (streets, sink, reply, outcome)
        }
        Command::ReadMeter { meter } => {
            let (reply, outcome) = read_meter(alloc, &streets, *meter);
            (streets, sink, reply, outcome)
        }
        Command::Vehicle { car } => {
            let (reply, outcome) = vehicle(alloc, &streets, *car);
            (streets, sink, reply, outcome)
        }
        Command::Lane { link, lane: number } => {
            let (reply, outcome) = lane(alloc, &streets, *link, *number);
            (streets, sink, reply, outcome)
        }
        Command::Count => {
            let (reply, outcome) = count(&streets);
            (streets, sink, reply, outcome)
        }
    }
}

/// Applies a load where nothing is loaded: the streets where there are some then, the reply, and its outcome.
fn load(alloc: Global, workers: usize, net: &NetSpec) -> (Option<Streets>, Reply, Outcome)
    requires some { 1 ≤ workers }
    requires few { workers ≤ most_workers }
    ensures serves { Serves None (Load net.now) result.1 result.2 result.0 }
    ensures refused { KeepsRefused None result.1 result.0 }
{
    match Streets::load(alloc, net, workers) {
        Ok(streets) => {
            let reply = Reply::Loaded {
                links: net.links.as_slice().len() as u64,
                nodes: net.nodes.as_slice().len() as u64,
                turns: net.turns.as_slice().len() as u64,
            };
            (Some(streets), reply, Outcome::Whole)
        }
        Err(NetFault::Bad { part, at }) => {
            let refusal = Refusal::BadNetwork { part, at };
            (None, Reply::Refused(refusal), Outcome::Whole)
        }
        Err(NetFault::Starved) => (None, Reply::Starved, Outcome::Starved),
    }
}
