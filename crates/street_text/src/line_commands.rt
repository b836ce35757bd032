//! From the bytes of a line to a command: the reading of a line, and the commands `load` and `signal`; `number_commands` has
//! the others. `line_reader.rt` calls it where a line is not flat.
ghost use Rattle.std.specs.Prelude.{◌≡◌, ◌⊎◌};
ghost use Rattle.serde_json.specs.Errors.{IsMemory};
ghost use Rattle.serde_json.specs.View.{view};
ghost use Rattle.street_text.specs.LineCommands.{numbers_in, load_in, signal_in, named, command_in, or_fault, reading, value_of, Gives, GivesValue};

use crate::fault::LineFault;
use crate::number_commands::of_numbers;
use crate::values::{field_of, number_or};
use serde_json::{Category, Error, Value};
use std::alloc::Global;
use street_base::{Command, NetSpec};

/// The most bytes that a line may have, its LF not counted.
pub const LONGEST_LINE: usize = 1_048_576;

/// The numbers of a network that is loaded.
#[derive(Clone, Copy)]
struct NetNumbers {
    zone: u64,
    dawdle: u64,
    change: u64,
    seed: u64,
    start: u64,
}

/// The numbers of a network, from the JSON value of a command `load`. `start`, the clock that it begins at, is 0 where it is
/// absent.
///
/// # Errors
///
/// `BadCommand` where one of the others is missing, or one is no number below 2^64.
#[tactic(auto, unfolding(crate::specs::LineCommands::numbers_in))]
fn numbers(alloc: Global, value: &Value) -> Result<NetNumbers, LineFault>
    ensures { Gives result (or_fault LineFault.BadCommand (numbers_in (view value.now))) }
{
    let zone = field_of(alloc, value, "zone")?;
    let dawdle = field_of(alloc, value, "dawdle")?;
    let change = field_of(alloc, value, "change")?;
    let seed = field_of(alloc, value, "seed")?;
    let start = number_or(value, "start", 0)?;
    Ok(NetNumbers {
        zone,
        dawdle,
        change,
        seed,
        start,
    })
}

/// The command `load` that a JSON value says.
///
/// # Errors
///
/// Those of [`command_of`].
#[tactic(auto, unfolding(crate::specs::LineCommands::load_in))]
fn load(alloc: Global, value: &Value) -> Result<Command, LineFault>
    ensures { Gives result (or_fault LineFault.BadCommand (load_in (view value.now))) }
{
    let nodes = field_of(alloc, value, "nodes")?;
    let links = field_of(alloc, value, "links")?;
    let turns = field_of(alloc, value, "turns")?;
    let numbers = numbers(alloc, value)?;
    Ok(Command::Load(NetSpec {
        nodes,
        links,
        turns,
        zone: numbers.zone,
        dawdle: numbers.dawdle,
        change: numbers.change,
        seed: numbers.seed,
        start: numbers.start,
    }))
}

/// The command `signal` that a JSON value says.
///
/// # Errors
///
/// Those of [`command_of`].
#[tactic(auto, unfolding(crate::specs::LineCommands::signal_in))]
fn signal(alloc: Global, value: &Value) -> Result<Command, LineFault>
    ensures { Gives result (or_fault LineFault.BadCommand (signal_in (view value.now))) }
{
    let node = field_of(alloc, value, "node")?;
    let offset = field_of(alloc, value, "offset")?;
    let phases = field_of(alloc, value, "phases")?;
    Ok(Command::Signal {
        node,
        offset,
        phases,
    })
}

/// The command of this name, what stands as `cmd`, that the other fields of a JSON value say. Sizes are read where `sized` is true.
///
/// # Errors
///
/// Those of [`command_of`].
#[tactic(auto, unfolding(crate::specs::LineCommands::named))]
fn named(alloc: Global, name: &str, value: &Value, sized: bool) -> Result<Command, LineFault>
    ensures { Gives result (or_fault LineFault.BadCommand (named sized name.now (view value.now))) }
{
    match name {
        "load" => load(alloc, value),
        "signal" => signal(alloc, value),
        _ => of_numbers(alloc, name, value, sized),
    }
}

/// The command that a JSON value says. Where `sized` is false, sizes are not read: each vehicle that enters has size 1, whatever is
/// told.
///
/// # Errors
///
/// `BadCommand` where it says none; `Starved` where there was no memory for its lists.
#[tactic(auto, unfolding(crate::specs::LineCommands::command_in))]
pub fn command_of(alloc: Global, value: &Value, sized: bool) -> Result<Command, LineFault>
    ensures { Gives result (or_fault LineFault.BadCommand (command_in sized (view value.now))) }
{
    let name = value
        .get("cmd")
        .and_then(Value::as_str)
        .ok_or(LineFault::BadCommand)?;
    named(alloc, name, value, sized)
}

/// The fault of a text that was not read: only lack of memory says nothing of the text.
fn fault_of(error: &Error) -> LineFault
    ensures { ((result ≡ LineFault.Starved) × IsMemory error.now)
        ⊎ ((result ≡ LineFault.NotJson) × ¬ IsMemory error.now) }
{
    match error.classify() {
        Category::Memory => LineFault::Starved,
        _ => LineFault::NotJson,
    }
}

/// The JSON value of a line, which stands without its LF.
///
/// # Errors
///
/// `NotJson` where it is none; `Starved` where there was no memory for it.
#[tactic(auto, unfolding(crate::specs::LineCommands::value_of))]
fn parse(alloc: Global, line: &[u8]) -> Result<Value, LineFault>
    ensures { GivesValue result (value_of line.now) }
{
    match Value::from_slice(alloc, line) {
        Ok(value) => Ok(value),
        Err(error) => Err(fault_of(&error)),
    }
}

/// The command of a line, which stands without its LF, or the line's first fault. The numbers of a command are not
/// tested for their ranges.
///
/// # Errors
///
/// `LineTooLong` above 1,048,576 bytes, then `NotJson`, then `BadCommand`; `Starved` where the reading found no memory.
#[tactic(auto, unfolding(crate::specs::LineCommands::reading))]
pub fn read_command(alloc: Global, line: &[u8]) -> Result<Command, LineFault>
    ensures { Gives result (reading line.now) }
{
    if line.len() > LONGEST_LINE {
        return Err(LineFault::LineTooLong);
    }
    let value = parse(alloc, line)?;
    command_of(alloc, &value, true)
}
