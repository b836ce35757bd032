//! One command while at most one request for memory is refused.

use std::sync::Wait;
use std::thread::Threads;
use street_base::{Command, MOST_DETECTORS, MOST_STEPS, MOST_VEHICLES, Outcome, Reply};
use street_engine::{Crew, Engine, StartedCrew, StayingCrew, Unrecorded, Unwatched};

/// Why a command has no answer.
#[derive(Clone, Copy, Debug, PartialEq, Eq)]
pub(crate) enum Stop {
    /// Memory was refused again.
    OutOfMemory,
    /// Something was answered otherwise than it should be.
    Wrong(&'static str),
}

/// How the steps of an advance are made where several workers share them.
#[derive(Clone, Copy, Debug, PartialEq, Eq)]
pub(crate) enum Way {
    /// On threads that are started for each part of a step.
    Lent,
    /// By a team, whose threads stay for several steps.
    Team,
}

/// What a command answers.
pub(crate) fn apply<R: Threads + Wait + Sync>(
    rt: &R,
    engine: &mut Engine<Unwatched>,
    way: Way,
    command: &Command,
) -> (Reply, Outcome) {
    let (reply, outcome, _sink) = match way {
        Way::Lent => StartedCrew::new(rt).apply(engine, Unrecorded, command),
        Way::Team => StayingCrew::new(rt).apply(engine, Unrecorded, command),
    };
    (reply, outcome)
}

/// How often a command was starved, and an advance stopped short.
#[derive(Clone, Copy, Debug, PartialEq, Eq)]
pub(crate) struct Met {
    pub(crate) starved: u64,
    pub(crate) short: u64,
}

/// What a command answers in the end.
#[derive(Drop)]
pub(crate) enum Answer {
    /// It was done, at its second call where it was starved at the first.
    Whole(Reply),
    /// An advance made so many steps, and so many are left.
    Short { made: u64, rest: u64 },
}

/// The clock and the counts of a census.
#[derive(Clone, Copy, Debug, PartialEq, Eq)]
struct CensusCounts {
    admitted: u64,
    arrived: u64,
    buffers: u64,
    cells: u64,
    clock: u64,
    taken: u64,
    waiting: u64,
}

/// What a count answers, which takes no memory; nothing where nothing is loaded.
fn counts<R: Threads + Wait + Sync>(
    rt: &R,
    engine: &mut Engine<Unwatched>,
) -> Result<Option<CensusCounts>, Stop> {
    let (reply, outcome) = engine.apply(rt, &Command::Count);
    if outcome != Outcome::Whole {
        return Err(Stop::Wrong("a count was starved"));
    }
    match &reply {
        Reply::Census {
            admitted,
            arrived,
            buffers,
            cells,
            clock,
            taken,
            waiting,
        } => Ok(Some(CensusCounts {
            admitted: *admitted,
            arrived: *arrived,
            buffers: *buffers,
            cells: *cells,
            clock: *clock,
            taken: *taken,
            waiting: *waiting,
        })),
        _ => Ok(None),
    }
}

/// Whether a command that is to be answered by this line may be starved: what is refused, and who has ended, takes no memory.
fn may_starve(command: &Command, want: &str) -> bool {
    match command {
        Command::TakeOut { .. } | Command::Count => false,
        Command::Advance { steps } => *steps > 0,
        Command::Vehicle { .. } => !want.contains(r#""step":"#),
        _ => !want.starts_with(r#"{"error":"#),
    }
}

/// What a command answers that is called when memory is there.
pub(crate) fn call_with_memory<R: Threads + Wait + Sync>(
    rt: &R,
    engine: &mut Engine<Unwatched>,
    way: Way,
    command: &Command,
) -> Result<Reply, Stop> {
    let (reply, outcome) = apply(rt, engine, way, command);
    match outcome {
        Outcome::Whole => Ok(reply),
        _ => Err(Stop::OutOfMemory),
    }
}

/// What a command answers that is to be answered by this line. Where it was starved, nothing has changed, and it is called
/// once more.
pub(crate) fn call<R: Threads + Wait + Sync>(
    rt: &R,
    engine: &mut Engine<Unwatched>,
    way: Way,
    command: &Command,
    want: &str,
    met: &mut Met,
) -> Result<Answer, Stop> {
    let before = counts(rt, engine)?;
    let (reply, outcome) = apply(rt, engine, way, command);
    match outcome {
        Outcome::Whole => Ok(Answer::Whole(reply)),
        Outcome::Starved => {
            met.starved = met.starved.saturating_add(1);
            check_starved(may_starve(command, want), &reply)?;
            if counts(rt, engine)? != before {
                return Err(Stop::Wrong("a starved command changed something"));
            }
            Ok(Answer::Whole(call_with_memory(rt, engine, way, command)?))
        }
        Outcome::Short(made) => {
            met.short = met.short.saturating_add(1);
            let rest = rest_of(command, &reply, clock_of(before), made)?;
            Ok(Answer::Short { made, rest })
        }
    }
}

/// A command that may be starved is answered so.
fn check_starved(may: bool, reply: &Reply) -> Result<(), Stop> {
    match reply {
        Reply::Starved if may => Ok(()),
        Reply::Starved => Err(Stop::Wrong("starved, and takes no memory")),
        _ => Err(Stop::Wrong("starved, and answered")),
    }
}

/// The clock of some counts; 0 where nothing is loaded.
fn clock_of(counts: Option<CensusCounts>) -> u64 {
    match counts {
        Some(counts) => counts.clock,
        None => 0,
    }
}

/// The steps that are left of an advance of which so many were made from this clock on.
fn rest_of(command: &Command, reply: &Reply, before: u64, made: u64) -> Result<u64, Stop> {
    let Command::Advance { steps } = command else {
        return Err(Stop::Wrong("short, and no advance"));
    };
    let Reply::Short { clock, short } = reply else {
        return Err(Stop::Wrong("short, and answered otherwise"));
    };
    if *short != made || *clock != before.saturating_add(made) {
        return Err(Stop::Wrong("short, and of other steps or another clock"));
    }
    match steps.checked_sub(made) {
        Some(rest) if made > 0 && rest > 0 => Ok(rest),
        _ => Err(Stop::Wrong("short of no step or of all")),
    }
}

/// A command that takes no memory is never starved.
fn check_whole<R: Threads + Wait + Sync>(
    rt: &R,
    engine: &mut Engine<Unwatched>,
    command: &Command,
) -> Result<(), Stop> {
    match engine.apply(rt, command) {
        (Reply::Starved, _) => Err(Stop::Wrong("starved, and takes no memory")),
        (_, Outcome::Whole) => Ok(()),
        _ => Err(Stop::Wrong("not done whole, and takes no memory")),
    }
}

/// Whatever takes no memory is done while every request is refused: what is refused, no steps, a count, and at last each
/// vehicle is taken out, and told as ended.
pub(crate) fn go_on_without<R: Threads + Wait + Sync>(
    rt: &R,
    engine: &mut Engine<Unwatched>,
) -> Result<(), Stop> {
    check_whole(rt, engine, &Command::Count)?;
    check_whole(rt, engine, &Command::Advance { steps: 0 })?;
    check_whole(
        rt,
        engine,
        &Command::Advance {
            steps: MOST_STEPS + 1,
        },
    )?;
    check_whole(
        rt,
        engine,
        &Command::Vehicle {
            car: u64::from(MOST_VEHICLES),
        },
    )?;
    check_whole(
        rt,
        engine,
        &Command::ReadMeter {
            meter: MOST_DETECTORS as u64,
        },
    )?;
    for car in 0..8 {
        check_whole(rt, engine, &Command::TakeOut { car })?;
        check_whole(rt, engine, &Command::Vehicle { car })?;
    }
    check_whole(rt, engine, &Command::Count)
}
