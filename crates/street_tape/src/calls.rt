//! One call of a tape, applied as it went at the desk. `replays.rt` calls it.
ghost use Rattle.std.specs.Prelude.{◌≡◌, Option, IfOk, IfErr};
ghost use Rattle.street_base.specs.declared.command.Command.TheVariants.{Advance};
ghost use Rattle.street_base.specs.declared.reply.Outcome.TheVariants.{Whole, Short};
ghost use Rattle.street_base.specs.Prelude.{State};
ghost use Rattle.street_engine.specs.Prelude.{StandsFor};
ghost use Rattle.street_tape.specs.ReplayHandler.{AdvanceGoes, CallReplays, CallStops};
ghost use Rattle.street_tape.specs.Replies.{clock_in};

use crate::Stop;
use std::thread::Threads;
use street_base::{Command, Outcome, Reply};
use street_desk::Entry;
use street_engine::{Engine, Gate};

/// Applies a call that was done whole at the desk, and answers its reply.
///
/// # Errors
///
/// `Starved` where it was not done whole now: memory ran out. Of an advance the first steps are perhaps made.
fn call_whole<R: Threads + Sync, G: Gate + Sync + Drop>(
    rt: &R,
    engine: &mut Engine<G>,
    command: &Command,
) -> Result<Reply, Stop>
    ensures done { IfOk result (λ reply. CallReplays engine.old command.now Whole reply engine.new) }
    ensures stops { IfErr result (λ stop. (old : State) → StandsFor engine.old old
        → CallStops old command.now Whole engine.new stop) }
{
    let (reply, outcome) = engine.apply(rt, command);
    match outcome {
        Outcome::Whole => Ok(reply),
        _ => Err(Stop::Starved),
    }
}

/// The clock, in steps, that a reply to an advance tells; `None` where the reply tells none, as it is a refusal.
fn clock_of(reply: &Reply) -> Option<u64>
    ensures { result ≡ clock_in reply.now }
{
    match reply {
        Reply::Clock { clock } => Some(*clock),
        _ => None,
    }
}

/// Makes an advance of so many steps, whole. Answers the clock after it, or `None` where it is refused.
///
/// # Errors
///
/// As [`call_whole`] has them.
fn advance_whole<R: Threads + Sync, G: Gate + Sync + Drop>(
    rt: &R,
    engine: &mut Engine<G>,
    steps: u64,
) -> Result<Option<u64>, Stop>
    ensures done { IfOk result (λ clock. AdvanceGoes engine.old steps clock engine.new) }
    ensures stops { IfErr result (λ stop. (old : State) → StandsFor engine.old old
        → CallStops old (Advance steps) Whole engine.new stop) }
{
    let reply = call_whole(rt, engine, &Command::Advance { steps })?;
    Ok(clock_of(&reply))
}

/// Applies a call of which so many steps were made at the desk: an advance of these steps alone. Answers its reply, which tells
/// that it stopped short.
///
/// # Errors
///
/// `BadEntry` where so many steps are no part of this call: it is no advance, or one that the machine refuses, or `made` is 0 or
/// not below its steps. Nothing is applied then. `Starved` where memory ran out; the first steps are perhaps made.
fn call_short<R: Threads + Sync, G: Gate + Sync + Drop>(
    rt: &R,
    engine: &mut Engine<G>,
    command: &Command,
    made: u64,
) -> Result<Reply, Stop>
    ensures done { IfOk result (λ reply. CallReplays engine.old command.now (Short made) reply engine.new) }
    ensures stops { IfErr result (λ stop. (old : State) → StandsFor engine.old old
        → CallStops old command.now (Short made) engine.new stop) }
{
    let Command::Advance { steps } = command else {
        return Err(Stop::BadEntry);
    };
    if made == 0 || made >= *steps {
        return Err(Stop::BadEntry);
    }
    if engine.advance_refusal(*steps).is_some() {
        return Err(Stop::BadEntry);
    }
    match advance_whole(rt, engine, made)? {
        Some(clock) => Ok(Reply::Short { clock, short: made }),
        None => Err(Stop::BadEntry),
    }
}

/// Applies a call of a tape as it went at the desk, and answers its reply: whole, not at all where it was starved, or as far as the
/// steps that were made.
///
/// # Errors
///
/// As [`call_whole`] and [`call_short`] have them.
pub(crate) fn call_again<R: Threads + Sync, G: Gate + Sync + Drop>(
    rt: &R,
    engine: &mut Engine<G>,
    call: &Entry,
) -> Result<Reply, Stop>
    ensures done { IfOk result (λ reply. CallReplays engine.old call.now.command call.now.outcome reply engine.new) }
    ensures stops { IfErr result (λ stop. (old : State) → StandsFor engine.old old
        → CallStops old call.now.command call.now.outcome engine.new stop) }
{
    match call.outcome {
        Outcome::Whole => call_whole(rt, engine, &call.command),
        Outcome::Starved => Ok(Reply::Starved),
        Outcome::Short(made) => call_short(rt, engine, &call.command, made),
    }
}
