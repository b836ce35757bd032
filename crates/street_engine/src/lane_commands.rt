//! Commands on the network: the signal plan of a node, closed cells of a lane, and the question what is on a lane.
//! `commands.rt` calls them.
ghost use Rattle.street_base.specs.declared.command.Command.TheVariants.{Signal, Lane};
ghost use Rattle.street_engine.specs.Prelude.{closing, Serves, KeepsRefused};

use crate::Streets;
use crate::names::{named_cells, named_lane};
use std::alloc::Global;
use street_base::{Outcome, PhaseSpec, Refusal, Reply};
use street_node::{SignalFault, SignalPlan};

/// Serves a signal plan: the node with this identifier has it from the next step on; by `offset` steps its cycle is ahead of the
/// clock. Answers the cycle in steps. Takes memory for the plan.
pub(crate) fn signal(
    alloc: Global,
    streets: &mut Streets,
    node: u64,
    offset: u64,
    phases: &[PhaseSpec],
) -> (Reply, Outcome)
    ensures serves { Serves (Some streets.old) (Signal node offset phases.now) result.0 result.1 (Some streets.new) }
    ensures refused { KeepsRefused (Some streets.old) result.0 (Some streets.new) }
{
    let Some(position) = streets.network().node_of(node) else {
        return (Reply::Refused(Refusal::NoNode), Outcome::Whole);
    };
    match SignalPlan::build(alloc, streets.network(), position, offset, phases) {
        Ok(plan) => {
            let cycle = u64::from(plan.cycle());
            streets.set_signal(position, plan);
            (Reply::Signalled { cycle }, Outcome::Whole)
        }
        Err(SignalFault::Bad { at }) => {
            (Reply::Refused(Refusal::BadSignal { at }), Outcome::Whole)
        }
        Err(SignalFault::Starved) => (Reply::Starved, Outcome::Starved),
    }
}

/// Serves the closing of cells of a lane, or, where `closed` is false, their opening. `link` is an identifier. Answers how many of
/// the lane's cells are closed then. Takes memory for a stretch of closed cells.
pub(crate) fn set_closed(
    streets: &mut Streets,
    link: u64,
    lane: u64,
    first: u64,
    last: u64,
    closed: bool,
) -> (Reply, Outcome)
    ensures serves { Serves (Some streets.old) (closing closed link lane first last) result.0 result.1 (Some streets.new) }
    ensures refused { KeepsRefused (Some streets.old) result.0 (Some streets.new) }
{
    let cells = match named_cells(streets.network(), link, lane, first, last) {
        Ok(cells) => cells,
        Err(refusal) => return (Reply::Refused(refusal), Outcome::Whole),
    };
    match streets.set_closed(cells.at, cells.first, cells.last, closed) {
        Ok(closed) => (Reply::Closed { closed }, Outcome::Whole),
        Err(_) => (Reply::Starved, Outcome::Starved),
    }
}

/// Serves the question who is on a lane of the link with an identifier, and which of its cells are closed. Takes memory for the
/// lists that it answers.
pub(crate) fn lane(alloc: Global, streets: &Streets, link: u64, lane: u64) -> (Reply, Outcome)
    ensures { Serves (Some streets.now) (Lane link lane) result.0 result.1 (Some streets.now) }
{
    let at = match named_lane(streets.network(), link, lane) {
        Ok(at) => at,
        Err(refusal) => return (Reply::Refused(refusal), Outcome::Whole),
    };
    match streets.lane(alloc, at) {
        Ok(reply) => (reply, Outcome::Whole),
        Err(_) => (Reply::Starved, Outcome::Starved),
    }
}
