//! Commands whose fields are numbers and lists of numbers: one small function for each. `line_reader.rt` and `line_commands.rt`
//! call them.
ghost use Rattle.street_text.specs.LineCommands.{size_in, enter_in, advance_in, close_in, reopen_in, take_out_in, place_meter_in, read_meter_in};
ghost use Rattle.street_text.specs.LineCommands.{vehicle_in, lane_in, observing_names, number_names, named_in, or_fault, Gives};

use crate::fault::LineFault;
use crate::lookup::Lookup;
use std::alloc::Global;
use street_base::Command;

/// How many cells a vehicle covers, as the field `size` says: 1 where it is absent, and where sizes are not read (`sized` is
/// false).
///
/// # Errors
///
/// Those of [`of_numbers`].
fn size_of_vehicle<L: Lookup>(line: &L, sized: bool) -> Result<u64, LineFault>
    ensures { Gives result (or_fault LineFault.BadCommand (size_in sized (L.shows line.now))) }
{
    if sized {
        line.number_or("size", 1)
    } else {
        Ok(1)
    }
}

/// The command `enter` that the fields of a line say: plan, lane, depart, and size where `sized` is true.
///
/// # Errors
///
/// Those of [`of_numbers`].
#[tactic(auto, unfolding(crate::specs::LineCommands::enter_in))]
fn enter<L: Lookup>(alloc: Global, line: &L, sized: bool) -> Result<Command, LineFault>
    ensures { Gives result (or_fault LineFault.BadCommand (enter_in sized (L.shows line.now))) }
{
    let plan = line.numbers(alloc, "plan")?;
    let lane = line.number("lane")?;
    let depart = line.number("depart")?;
    let size = size_of_vehicle(line, sized)?;
    Ok(Command::Enter {
        plan,
        lane,
        depart,
        size,
    })
}

/// The command `advance` that the fields of a line say: steps.
///
/// # Errors
///
/// Those of [`of_numbers`].
#[tactic(auto, unfolding(crate::specs::LineCommands::advance_in))]
fn advance<L: Lookup>(line: &L) -> Result<Command, LineFault>
    ensures { Gives result (or_fault LineFault.BadCommand (advance_in (L.shows line.now))) }
{
    let steps = line.number("steps")?;
    Ok(Command::Advance { steps })
}

/// The command `close` that the fields of a line say: link, lane, first and last cell.
///
/// # Errors
///
/// Those of [`of_numbers`].
#[tactic(auto, unfolding(crate::specs::LineCommands::close_in))]
fn close<L: Lookup>(line: &L) -> Result<Command, LineFault>
    ensures { Gives result (or_fault LineFault.BadCommand (close_in (L.shows line.now))) }
{
    let link = line.number("link")?;
    let lane = line.number("lane")?;
    let first = line.number("first")?;
    let last = line.number("last")?;
    Ok(Command::CloseLane {
        link,
        lane,
        first,
        last,
    })
}

/// The command `reopen` that the fields of a line say: link, lane, first and last cell.
///
/// # Errors
///
/// Those of [`of_numbers`].
#[tactic(auto, unfolding(crate::specs::LineCommands::reopen_in))]
fn reopen<L: Lookup>(line: &L) -> Result<Command, LineFault>
    ensures { Gives result (or_fault LineFault.BadCommand (reopen_in (L.shows line.now))) }
{
    let link = line.number("link")?;
    let lane = line.number("lane")?;
    let first = line.number("first")?;
    let last = line.number("last")?;
    Ok(Command::ReopenLane {
        link,
        lane,
        first,
        last,
    })
}

/// The command `takeout` that the fields of a line say: the number of a vehicle.
///
/// # Errors
///
/// Those of [`of_numbers`].
#[tactic(auto, unfolding(crate::specs::LineCommands::take_out_in))]
fn take_out<L: Lookup>(line: &L) -> Result<Command, LineFault>
    ensures { Gives result (or_fault LineFault.BadCommand (take_out_in (L.shows line.now))) }
{
    let car = line.number("car")?;
    Ok(Command::TakeOut { car })
}

/// The command `meter` that the fields of a line say: link, lane, cell and period.
///
/// # Errors
///
/// Those of [`of_numbers`].
#[tactic(auto, unfolding(crate::specs::LineCommands::place_meter_in))]
fn place_meter<L: Lookup>(line: &L) -> Result<Command, LineFault>
    ensures { Gives result (or_fault LineFault.BadCommand (place_meter_in (L.shows line.now))) }
{
    let link = line.number("link")?;
    let lane = line.number("lane")?;
    let cell = line.number("cell")?;
    let period = line.number("period")?;
    Ok(Command::PlaceMeter {
        link,
        lane,
        cell,
        period,
    })
}

/// The command `read` that the fields of a line say: the number of a detector.
///
/// # Errors
///
/// Those of [`of_numbers`].
#[tactic(auto, unfolding(crate::specs::LineCommands::read_meter_in))]
fn read_meter<L: Lookup>(line: &L) -> Result<Command, LineFault>
    ensures { Gives result (or_fault LineFault.BadCommand (read_meter_in (L.shows line.now))) }
{
    let meter = line.number("meter")?;
    Ok(Command::ReadMeter { meter })
}

/// The command `vehicle` that the fields of a line say: the number of a vehicle.
///
/// # Errors
///
/// Those of [`of_numbers`].
#[tactic(auto, unfolding(crate::specs::LineCommands::vehicle_in))]
fn vehicle<L: Lookup>(line: &L) -> Result<Command, LineFault>
    ensures { Gives result (or_fault LineFault.BadCommand (vehicle_in (L.shows line.now))) }
{
    let car = line.number("car")?;
    Ok(Command::Vehicle { car })
}

/// The command `lane` that the fields of a line say: link and lane.
///
/// # Errors
///
/// Those of [`of_numbers`].
#[tactic(auto, unfolding(crate::specs::LineCommands::lane_in))]
fn lane<L: Lookup>(line: &L) -> Result<Command, LineFault>
    ensures { Gives result (or_fault LineFault.BadCommand (lane_in (L.shows line.now))) }
{
    let link = line.number("link")?;
    let lane = line.number("lane")?;
    Ok(Command::Lane { link, lane })
}

/// The command of this name, one of `meter`, `read`, `vehicle`, `lane` and `count`, that the fields of a line say.
///
/// # Errors
///
/// `BadCommand` for any other name, and where a field is missing or no number.
fn observing<L: Lookup>(name: &str, line: &L) -> Result<Command, LineFault>
    ensures { Gives result (or_fault LineFault.BadCommand (named_in observing_names name.now (L.shows line.now))) }
{
    match name {
        "meter" => place_meter(line),
        "read" => read_meter(line),
        "vehicle" => vehicle(line),
        "lane" => lane(line),
        "count" => Ok(Command::Count),
        _ => Err(LineFault::BadCommand),
    }
}

/// The command of this name, one whose fields are numbers and lists of numbers: all but `load` and `signal`. The size of a
/// vehicle is read only where `sized` is true, and is 1 otherwise.
///
/// # Errors
///
/// `BadCommand` where no such command has the name, or a field is missing or of another kind; `Starved` where there was no
/// memory for its lists.
pub(crate) fn of_numbers<L: Lookup>(
    alloc: Global,
    name: &str,
    line: &L,
    sized: bool,
) -> Result<Command, LineFault>
    ensures { Gives result (or_fault LineFault.BadCommand (named_in (number_names sized) name.now (L.shows line.now))) }
{
    match name {
        "enter" => enter(alloc, line, sized),
        "advance" => advance(line),
        "close" => close(line),
        "reopen" => reopen(line),
        "takeout" => take_out(line),
        _ => observing(name, line),
    }
}
