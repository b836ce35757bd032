//! From a command to its text. `texts.rt` of `street_tape` writes the calls of a tape by it.
ghost use Rattle.std.specs.Prelude.{◌≡◌, ◌≤◌, ◌==◌, IfOk, Ok, Some, None, if◌then◌else◌, length};
ghost use Rattle.serde_json.specs.View.{view};
ghost use Rattle.street_base.specs.declared.command.Command.TheVariants.{Load, Enter, Signal, Advance, PlaceMeter, ReadMeter, Lane, Count};
ghost use Rattle.street_text.specs.LineCommands.{longest_line, reading};
ghost use Rattle.street_text.specs.CommandTexts.{stretch_data_of, car_data_of, command_data, text_of};

use crate::{Member, object_value};
use serde_json::Value;
use std::alloc::{AllocError, Global};
use street_base::{Command, NetSpec, PhaseSpec, Starved};

/// The JSON value of the command `load` of this network.
fn load_value(alloc: Global, net: &NetSpec) -> Result<Value, AllocError>
    ensures { IfOk result (λ v. view v ≡ command_data (Load net.now)) }
{
    object_value(
        alloc,
        &[
            ("change", Member::Number(net.change)),
            ("cmd", Member::Text("load")),
            ("dawdle", Member::Number(net.dawdle)),
            ("links", Member::Links(net.links.as_slice())),
            ("nodes", Member::Nodes(net.nodes.as_slice())),
            ("seed", Member::Number(net.seed)),
            ("start", Member::Number(net.start)),
            ("turns", Member::Turns(net.turns.as_slice())),
            ("zone", Member::Number(net.zone)),
        ],
    )
}

/// The size of a vehicle, in cells, as a command tells it: none where it is 1.
fn told_size(size: u64) -> Option<u64>
    ensures { result ≡ (if size == 1 then None else Some size) }
{
    if size == 1 { None } else { Some(size) }
}

/// The JSON value of the command `enter`: the identifiers of the plan's links, the lane of the first, the step from which it may
/// depart, the size in cells.
fn enter_value(
    alloc: Global,
    plan: &[u64],
    lane: u64,
    depart: u64,
    size: u64,
) -> Result<Value, AllocError>
    ensures { IfOk result (λ v. view v ≡ command_data (Enter plan.now lane depart size)) }
{
    object_value(
        alloc,
        &[
            ("cmd", Member::Text("enter")),
            ("depart", Member::Number(depart)),
            ("lane", Member::Number(lane)),
            ("plan", Member::Numbers(plan)),
            ("size", Member::Optional(told_size(size))),
        ],
    )
}

/// The JSON value of the command `signal`, which gives a node its plan of phases. The offset is in steps.
fn signal_value(
    alloc: Global,
    node: u64,
    offset: u64,
    phases: &[PhaseSpec],
) -> Result<Value, AllocError>
    ensures { IfOk result (λ v. view v ≡ command_data (Signal node offset phases.now)) }
{
    object_value(
        alloc,
        &[
            ("cmd", Member::Text("signal")),
            ("node", Member::Number(node)),
            ("offset", Member::Number(offset)),
            ("phases", Member::Phases(phases)),
        ],
    )
}

/// The JSON value of the command of this name, `close` or `reopen`, about the cells of a lane from the first to the last, both
/// among them.
fn stretch_value(
    alloc: Global,
    name: &str,
    link: u64,
    lane: u64,
    first: u64,
    last: u64,
) -> Result<Value, AllocError>
    ensures { IfOk result (λ v. view v ≡ stretch_data_of name.now link lane first last) }
{
    object_value(
        alloc,
        &[
            ("cmd", Member::Text(name)),
            ("first", Member::Number(first)),
            ("lane", Member::Number(lane)),
            ("last", Member::Number(last)),
            ("link", Member::Number(link)),
        ],
    )
}

/// The JSON value of the command `advance`, which makes so many steps.
fn advance_value(alloc: Global, steps: u64) -> Result<Value, AllocError>
    ensures { IfOk result (λ v. view v ≡ command_data (Advance steps)) }
{
    object_value(
        alloc,
        &[
            ("cmd", Member::Text("advance")),
            ("steps", Member::Number(steps)),
        ],
    )
}

/// The JSON value of the command of this name, `takeout` or `vehicle`, about the vehicle of this number.
fn car_value(alloc: Global, name: &str, car: u64) -> Result<Value, AllocError>
    ensures { IfOk result (λ v. view v ≡ car_data_of name.now car) }
{
    object_value(
        alloc,
        &[("car", Member::Number(car)), ("cmd", Member::Text(name))],
    )
}

/// The JSON value of the command `meter`, which places a detector at a cell of a lane, with rows of so many steps.
fn place_meter_value(
    alloc: Global,
    link: u64,
    lane: u64,
    cell: u64,
    period: u64,
) -> Result<Value, AllocError>
    ensures { IfOk result (λ v. view v ≡ command_data (PlaceMeter link lane cell period)) }
{
    object_value(
        alloc,
        &[
            ("cell", Member::Number(cell)),
            ("cmd", Member::Text("meter")),
            ("lane", Member::Number(lane)),
            ("link", Member::Number(link)),
            ("period", Member::Number(period)),
        ],
    )
}

/// The JSON value of the command `read`, which asks for the rows of the detector of this number.
fn read_meter_value(alloc: Global, meter: u64) -> Result<Value, AllocError>
    ensures { IfOk result (λ v. view v ≡ command_data (ReadMeter meter)) }
{
    object_value(
        alloc,
        &[
            ("cmd", Member::Text("read")),
            ("meter", Member::Number(meter)),
        ],
    )
}

/// The JSON value of the command `lane`, which asks what is on a lane.
fn lane_value(alloc: Global, link: u64, lane: u64) -> Result<Value, AllocError>
    ensures { IfOk result (λ v. view v ≡ command_data (Lane link lane)) }
{
    object_value(
        alloc,
        &[
            ("cmd", Member::Text("lane")),
            ("lane", Member::Number(lane)),
            ("link", Member::Number(link)),
        ],
    )
}

/// The JSON value of the command `count`, which asks how many vehicles are where.
fn count_value(alloc: Global) -> Result<Value, AllocError>
    ensures { IfOk result (λ v. view v ≡ command_data Count) }
{
    object_value(alloc, &[("cmd", Member::Text("count"))])
}

/// The JSON value of a command.
///
/// # Errors
///
/// `AllocError` where there was no memory for it.
pub fn command_value(alloc: Global, command: &Command) -> Result<Value, AllocError>
    ensures { IfOk result (λ v. view v ≡ command_data command.now) }
{
    match command {
        Command::Load(net) => load_value(alloc, net),
        Command::Enter {
            plan,
            lane,
            depart,
            size,
        } => enter_value(alloc, plan.as_slice(), *lane, *depart, *size),
        Command::Signal {
            node,
            offset,
            phases,
        } => signal_value(alloc, *node, *offset, phases.as_slice()),
        Command::Advance { steps } => advance_value(alloc, *steps),
        Command::CloseLane {
            link,
            lane,
            first,
            last,
        } => stretch_value(alloc, "close", *link, *lane, *first, *last),
        Command::ReopenLane {
            link,
            lane,
            first,
            last,
        } => stretch_value(alloc, "reopen", *link, *lane, *first, *last),
        Command::TakeOut { car } => car_value(alloc, "takeout", *car),
        Command::PlaceMeter {
            link,
            lane,
            cell,
            period,
        } => place_meter_value(alloc, *link, *lane, *cell, *period),
        Command::ReadMeter { meter } => read_meter_value(alloc, *meter),
        Command::Vehicle { car } => car_value(alloc, "vehicle", *car),
        Command::Lane { link, lane } => lane_value(alloc, *link, *lane),
        Command::Count => count_value(alloc),
    }
}

/// The text of a command: one JSON object with all its fields but a size of 1, its keys in byte order, and no line end. It
/// reads as the command, if it is no longer than a line may be.
///
/// # Errors
///
/// `Starved` where there was no memory for it.
pub fn command_text(alloc: Global, command: &Command) -> Result<Vec<u8>, Starved>
    ensures text { IfOk result (λ text. text.items ≡ text_of command.now) }
    ensures reads { IfOk result (λ text. length text.items ≤ longest_line → reading text.items ≡ Ok command.now) }
{
    let text = command_value(alloc, command)?.to_vec(alloc)?;
    Ok(text)
}
