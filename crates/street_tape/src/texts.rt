//! From a call, or the number of the calls, to the line of a tape. `journal_tape.rt` and `upgrades.rt` call it.
ghost use Rattle.std.specs.Prelude.{◌≡◌, IfOk, false};
ghost use Rattle.serde_json.specs.View.{view};
ghost use Rattle.serde_json.specs.Written.{has_float};
ghost use Rattle.street_text.specs.ReplyLines.{line_of};
ghost use Rattle.street_tape.specs.Tapes.{head_data, head_line, entry_data, entry_line, outcome_data};

use serde_json::{Value, json};
use std::alloc::{AllocError, Global};
use street_base::{Outcome, Starved};
use street_desk::Entry;
use street_text::command_value;

/// The JSON value of an outcome, as a tape has it: a word, or how many steps were made.
///
/// # Errors
///
/// `AllocError` where there was no memory for it.
fn outcome_value(alloc: Global, outcome: Outcome) -> Result<Value, AllocError>
    ensures { IfOk result (λ v. view v ≡ outcome_data outcome) }
{
    match outcome {
        Outcome::Whole => json!(in alloc; "whole"),
        Outcome::Starved => json!(in alloc; "starved"),
        Outcome::Short(steps) => json!(in alloc; steps),
    }
}

/// The JSON value of a call, as a tape has it.
///
/// # Errors
///
/// `AllocError` where there was no memory for it.
fn entry_value(alloc: Global, entry: &Entry) -> Result<Value, AllocError>
    ensures { IfOk result (λ v. view v ≡ entry_data entry.now) }
{
    let command = command_value(alloc, &entry.command)?;
    let outcome = outcome_value(alloc, entry.outcome)?;
    json!(in alloc; {"command": command, "outcome": outcome, "session": entry.session})
}

/// The JSON value of the first line of a tape of so many calls, in version 2.
///
/// # Errors
///
/// `AllocError` where there was no memory for it.
fn head_value(alloc: Global, calls: u64) -> Result<Value, AllocError>
    ensures { IfOk result (λ v. view v ≡ head_data calls) }
{
    json!(in alloc; {"calls": calls, "tape": 2})
}

/// The text of a value without floats, and LF.
///
/// # Errors
///
/// `Starved` where there was no memory for it.
fn line_text(alloc: Global, value: &Value) -> Result<Vec<u8>, Starved>
    requires { has_float (view value.now) ≡ false }
    ensures { IfOk result (λ text. text.items ≡ line_of (view value.now)) }
{
    let mut text = value.to_vec(alloc)?;
    text.push(b'\n')?;
    Ok(text)
}

/// The first line of a tape of so many calls, in version 2, with its LF.
///
/// # Errors
///
/// `Starved` where there was no memory for it.
#[tactic(auto, unfolding(crate::specs::Tapes::head_line))]
pub fn head_text(alloc: Global, calls: u64) -> Result<Vec<u8>, Starved>
    ensures { IfOk result (λ text. text.items ≡ head_line calls) }
{
    let value = head_value(alloc, calls)?;
    line_text(alloc, &value)
}

/// The line of a call, with its LF.
///
/// # Errors
///
/// `Starved` where there was no memory for it.
#[tactic(auto, unfolding(crate::specs::Tapes::entry_line))]
pub fn entry_text(alloc: Global, entry: &Entry) -> Result<Vec<u8>, Starved>
    ensures { IfOk result (λ text. text.items ≡ entry_line entry.now) }
{
    let value = entry_value(alloc, entry)?;
    line_text(alloc, &value)
}
