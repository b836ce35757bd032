//! From a line of a tape to what it says. `tape.rt` calls it for each line.
ghost use Rattle.std.specs.Prelude.{◌≡◌, ◌⊎◌};
ghost use Rattle.serde_json.specs.Errors.{IsMemory};
ghost use Rattle.serde_json.specs.View.{view};
ghost use Rattle.street_text.specs.LineCommands.{or_fault, number_field, Gives};
ghost use Rattle.street_tape.specs.Entries.{tape_value, head_in, head_reading, is_part, outcome_in, call_in, entry_in, entry_reading, GivesTapeValue};

use crate::head::TapeHead;
use serde_json::{Category, Error, Value};
use std::alloc::Global;
use street_base::{Command, Outcome};
use street_desk::Entry;
use street_text::{LineFault, command_of};

/// The most bytes that a line of a tape may have, its LF not counted.
pub const LONGEST_TAPE_LINE: usize = 2_097_152;

/// The fault of a line that was not read as JSON: `Starved` where memory ran out, which says nothing of the line, else `NotJson`.
fn fault_of(error: &Error) -> LineFault
    ensures { ((result ≡ LineFault.Starved) × IsMemory error.now)
        ⊎ ((result ≡ LineFault.NotJson) × ¬ IsMemory error.now) }
{
    match error.classify() {
        Category::Memory => LineFault::Starved,
        _ => LineFault::NotJson,
    }
}

/// The JSON value of a line, which stands without its LF.
///
/// # Errors
///
/// `LineTooLong` above 2,097,152 bytes, then `NotJson`; `Starved` where the reading found no memory.
fn parse(alloc: Global, line: &[u8]) -> Result<Value, LineFault>
    ensures { GivesTapeValue result (tape_value line.now) }
{
    if line.len() > LONGEST_TAPE_LINE {
        return Err(LineFault::LineTooLong);
    }
    match Value::from_slice(alloc, line) {
        Ok(value) => Ok(value),
        Err(error) => Err(fault_of(&error)),
    }
}

/// How a call went: the word `whole` or `starved`, or the number of the steps that were made.
///
/// # Errors
///
/// `BadCommand` where the value is neither.
#[tactic(auto, unfolding(crate::specs::Entries::outcome_in))]
fn outcome_of(value: &Value) -> Result<Outcome, LineFault>
    ensures { Gives result (or_fault LineFault.BadCommand (outcome_in (view value.now))) }
{
    match value.as_str() {
        Some("whole") => Ok(Outcome::Whole),
        Some("starved") => Ok(Outcome::Starved),
        Some(_) => Err(LineFault::BadCommand),
        None => {
            let steps = value.as_u64().ok_or(LineFault::BadCommand)?;
            Ok(Outcome::Short(steps))
        }
    }
}

/// The number that a JSON value has under a name.
///
/// # Errors
///
/// `BadCommand` where it is no object, or has no whole number below 2^64 there.
fn number_of(value: &Value, name: &str) -> Result<u64, LineFault>
    ensures { Gives result (or_fault LineFault.BadCommand (number_field name.now (view value.now))) }
{
    let found = value.get(name).ok_or(LineFault::BadCommand)?;
    found.as_u64().ok_or(LineFault::BadCommand)
}

/// Whether a command can have this outcome: a number of steps only where it is an advance of more steps, and the number not 0.
fn is_part(command: &Command, outcome: Outcome) -> bool
    ensures { result ≡ is_part command.now outcome }
{
    match (command, outcome) {
        (Command::Advance { steps }, Outcome::Short(made)) => 0 < made && made < *steps,
        (_, Outcome::Short(_)) => false,
        _ => true,
    }
}

/// The call that a JSON value says, whether or not it can have its outcome. The size of a vehicle is read only where `sized` is
/// true, and is 1 otherwise.
///
/// # Errors
///
/// `BadCommand` where it says none; `Starved` where there was no memory for the lists of its command.
#[tactic(auto, unfolding(crate::specs::Entries::call_in))]
fn call_of(alloc: Global, value: &Value, sized: bool) -> Result<Entry, LineFault>
    ensures { Gives result (or_fault LineFault.BadCommand (call_in sized (view value.now))) }
{
    let command = value.get("command").ok_or(LineFault::BadCommand)?;
    let command = command_of(alloc, command, sized)?;
    let outcome = value.get("outcome").ok_or(LineFault::BadCommand)?;
    let outcome = outcome_of(outcome)?;
    let session = number_of(value, "session")?;
    Ok(Entry {
        session,
        command,
        outcome,
    })
}

/// The call that a JSON value says, where it can have its outcome; sizes as in [`call_of`].
///
/// # Errors
///
/// As [`call_of`] has them, and `BadCommand` where it cannot have its outcome.
#[tactic(auto, unfolding(crate::specs::Entries::entry_in))]
fn entry_of(alloc: Global, value: &Value, sized: bool) -> Result<Entry, LineFault>
    ensures { Gives result (or_fault LineFault.BadCommand (entry_in sized (view value.now))) }
{
    let call = call_of(alloc, value, sized)?;
    if is_part(&call.command, call.outcome) {
        return Ok(call);
    }
    Err(LineFault::BadCommand)
}

/// What a JSON value tells as the first line of a tape.
///
/// # Errors
///
/// `BadCommand` where its version is not known, or one of version 2 does not tell how many calls follow.
#[tactic(auto, unfolding(crate::specs::Entries::head_in))]
fn head_of(value: &Value) -> Result<TapeHead, LineFault>
    ensures { Gives result (or_fault LineFault.BadCommand (head_in (view value.now))) }
{
    match number_of(value, "tape")? {
        1 => Ok(TapeHead::Version1),
        2 => Ok(TapeHead::Version2 {
            calls: number_of(value, "calls")?,
        }),
        _ => Err(LineFault::BadCommand),
    }
}

/// What the first line of a tape tells, which stands without its LF.
///
/// # Errors
///
/// `LineTooLong` above 2,097,152 bytes, then `NotJson`, then `BadCommand` where its version is not known, or one of version 2
/// does not tell how many calls follow; `Starved` where the reading found no memory.
#[tactic(auto, unfolding(crate::specs::Entries::head_reading))]
pub fn read_head(alloc: Global, line: &[u8]) -> Result<TapeHead, LineFault>
    ensures { Gives result (head_reading line.now) }
{
    let value = parse(alloc, line)?;
    head_of(&value)
}

/// The call that a further line of a tape says, which stands without its LF. The size of a vehicle is read only where `sized`
/// is true, and is 1 otherwise. Whether the machine would refuse the command is not tested.
///
/// # Errors
///
/// `LineTooLong` above 2,097,152 bytes, then `NotJson`, then `BadCommand` where it is no call, or has a number as its outcome
/// that is not that of a part of an advance; `Starved` where the reading found no memory.
#[tactic(auto, unfolding(crate::specs::Entries::entry_reading))]
pub fn read_entry(alloc: Global, line: &[u8], sized: bool) -> Result<Entry, LineFault>
    ensures { Gives result (entry_reading sized line.now) }
{
    let value = parse(alloc, line)?;
    entry_of(alloc, &value, sized)
}
