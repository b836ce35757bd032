//! Commands of one vehicle: its entry, its taking out, and the question where it is. `commands.rt` calls them.
ghost use Rattle.std.specs.Prelude.{◌≡◌, ◌*◌, ◌<◌, ◌≤◌, None, Some, IfOk, IfErr, OnOk, length};
ghost use Rattle.street_base.specs.declared.command.Command.TheVariants.{Enter, TakeOut, Vehicle};
ghost use Rattle.street_base.specs.Prelude.{most_vehicles};
ghost use Rattle.street_net.specs.Prelude.{plan_refusal};
ghost use Rattle.street_engine.specs.Prelude.{Serves, KeepsRefused, TellsEntry};

use crate::Streets;
use crate::names::lane_number;
use std::alloc::Global;
use street_base::{
    CarNo, LAST_CLOCK, LaneNo, MOST_VEHICLES, Outcome, Refusal, Reply, Size, Step, Whereabouts,
};
use street_net::PlanFault;

/// What the entry of a vehicle asks beside its plan, as a lane takes it.
#[derive(Drop)]
struct Entry {
    lane: LaneNo,
    depart: Step,
    size: Size,
}

/// What the entry of a vehicle asks beside its plan, whose links are good. Takes no memory.
///
/// # Errors
/// `TooMany` where 1,000,000 were admitted, or else what is wrong with its plan, or else with its lane, or else `BadRange` for its
/// depart or its size.
fn entry_of(
    streets: &Streets,
    plan: &[u64],
    lane: u64,
    depart: u64,
    size: u64,
) -> Result<Entry, Refusal>
    ensures entry { IfOk result (λ entry. (entry.lane ≡ lane) × (entry.depart ≡ depart) × (entry.size ≡ size)) }
    ensures taken { OnOk result (TellsEntry streets.now plan.now lane depart size None) }
    ensures few { OnOk result (length streets.now.ends < most_vehicles) }
    ensures planned { OnOk result (plan_refusal streets.now.tiles.network plan.now lane ≡ None) }
    ensures refused { IfErr result (λ refusal. TellsEntry streets.now plan.now lane depart size (Some refusal)) }
{
    if streets.admitted() >= MOST_VEHICLES {
        return Err(Refusal::TooMany);
    }
    match streets.network().plan_refusal(plan, lane) {
        Some(PlanFault::Bad { at }) => return Err(Refusal::BadPlan { at }),
        Some(PlanFault::Lane) => return Err(Refusal::NoLane),
        _ => {}
    }
    match Size::new(size) {
        Some(size) if depart <= u64::from(LAST_CLOCK) => Ok(Entry {
            lane: lane_number(streets.network(), lane),
            depart: depart as Step,
            size,
        }),
        _ => Err(Refusal::BadRange),
    }
}

/// Serves the entry of a vehicle, which then waits on a lane of the first link of its plan, a list of identifiers. `depart` is a
/// step, `size` in cells. Answers its number. Takes memory for the vehicle and its plan.
pub(crate) fn enter(
    alloc: Global,
    streets: &mut Streets,
    plan: &[u64],
    lane: u64,
    depart: u64,
    size: u64,
) -> (Reply, Outcome)
    ensures serves { Serves (Some streets.old) (Enter plan.now lane depart size) result.0 result.1 (Some streets.new) }
    ensures refused { KeepsRefused (Some streets.old) result.0 (Some streets.new) }
{
    let entry = match entry_of(streets, plan, lane, depart, size) {
        Ok(entry) => entry,
        Err(refusal) => return (Reply::Refused(refusal), Outcome::Whole),
    };
    let Ok(links) = streets.network().links_of(alloc, plan) else {
        return (Reply::Starved, Outcome::Starved);
    };
    let car = u64::from(streets.admitted());
    match streets.admit(alloc, links, entry.lane, entry.depart, entry.size) {
        Ok(()) => (Reply::Entered { car }, Outcome::Whole),
        Err(_) => (Reply::Starved, Outcome::Starved),
    }
}

/// Serves the taking out of the vehicle of a number, wherever it is; refused where it was not admitted or has ended. Takes no memory.
pub(crate) fn take_out(streets: &mut Streets, car: u64) -> (Reply, Outcome)
    ensures serves { Serves (Some streets.old) (TakeOut car) result.0 result.1 (Some streets.new) }
    ensures refused { KeepsRefused (Some streets.old) result.0 (Some streets.new) }
{
    if car >= u64::from(streets.admitted()) {
        return (Reply::Refused(Refusal::NoVehicle), Outcome::Whole);
    }
    let number = car as CarNo;
    if streets.end_of(number).is_some() {
        return (Reply::Refused(Refusal::Gone), Outcome::Whole);
    }
    streets.take_out(number);
    (Reply::Taken { taken: car }, Outcome::Whole)
}

/// Serves the question where the vehicle of a number is, or how it ended. Takes memory for the plan that it answers, where it has
/// not ended.
pub(crate) fn vehicle(alloc: Global, streets: &Streets, car: u64) -> (Reply, Outcome)
    ensures { Serves (Some streets.now) (Vehicle car) result.0 result.1 (Some streets.now) }
{
    if car >= u64::from(streets.admitted()) {
        return (Reply::Refused(Refusal::NoVehicle), Outcome::Whole);
    }
    let number = car as CarNo;
    if let Some(end) = streets.end_of(number) {
        let whereabouts = Whereabouts::Ended(end);
        return (Reply::Vehicle { car, whereabouts }, Outcome::Whole);
    }
    match streets.find(alloc, number) {
        Ok(Some(whereabouts)) => (Reply::Vehicle { car, whereabouts }, Outcome::Whole),
        Ok(None) => (Reply::Refused(Refusal::NoVehicle), Outcome::Whole),
        Err(_) => (Reply::Starved, Outcome::Starved),
    }
}
