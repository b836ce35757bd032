//! Steps and commands of an engine that take no memory. All that they need is taken before the first of them, so where every
//! request from then on is refused, each is done without memory; it is answered as it should be whatever is refused.

use crate::calls::{Stop, Way, apply, call_with_memory, go_on_without};
use crate::texts::read;
use std::alloc::Global;
use std::sync::Wait;
use std::thread::Threads;
use street_base::{Command, MOST_WORKERS, Outcome, Refusal, Reply};
use street_engine::{Engine, Unwatched};

/// A link of 10 cells into another, by a node in which a vehicle stays for a step at least.
const LOAD: &str =
    r#"{"cmd":"load","nodes":[[1,1,2],[2,1,2],[3,1,2]],"links":[[10,1,2,1,10,5],[20,2,3,1,10,5]],"turns":[[10,0,20,0]],"zone":0,"dawdle":0,"change":0,"seed":0}"#;

/// A vehicle that waits until long after the last step.
const LATE: &str = r#"{"cmd":"enter","plan":[20],"lane":0,"depart":99}"#;

/// Over one link, and over both.
const SHORT: &str = r#"{"cmd":"enter","plan":[10],"lane":0,"depart":0}"#;

const LONG: &str = r#"{"cmd":"enter","plan":[10,20],"lane":0,"depart":0}"#;

/// An engine in which a vehicle with this plan has departed, and another waits.
fn begun<R: Threads + Wait + Sync>(
    rt: &R,
    alloc: Global,
    workers: u32,
    plan: &str,
) -> Result<Engine<Unwatched>, Stop> {
    let gate = Unwatched {
        from: 0,
        processors: 4,
    };
    let mut engine = Engine::new(alloc, workers.clamp(1, MOST_WORKERS as u32), gate);
    for line in [LOAD, plan, LATE, r#"{"cmd":"advance","steps":1}"#] {
        let command = read(alloc, line)?;
        let _reply = call_with_memory(rt, &mut engine, Way::Lent, &command)?;
    }
    Ok(engine)
}

/// The steps are made whole, up to this clock.
fn are_made<R: Threads + Wait + Sync>(
    rt: &R,
    engine: &mut Engine<Unwatched>,
    way: Way,
    steps: u64,
    end: u64,
) -> bool {
    let (reply, outcome) = apply(rt, engine, way, &Command::Advance { steps });
    match reply {
        Reply::Clock { clock } => outcome == Outcome::Whole && clock == end,
        _ => false,
    }
}

/// The first vehicle has arrived, and the other waits.
fn has_arrived<R: Threads + Wait + Sync>(rt: &R, engine: &mut Engine<Unwatched>) -> bool {
    match engine.apply(rt, &Command::Count) {
        (
            Reply::Census {
                arrived,
                waiting,
                cells,
                ..
            },
            Outcome::Whole,
        ) => (arrived, waiting, cells) == (1, 1, 0),
        _ => false,
    }
}

/// A refusal has its number and its name.
fn is_refused<R: Threads + Wait + Sync>(rt: &R, engine: &mut Engine<Unwatched>) -> bool {
    match engine.apply(rt, &Command::Vehicle { car: 9 }) {
        (Reply::Refused(refusal), Outcome::Whole) => is_named(&refusal),
        _ => false,
    }
}

fn is_named(refusal: &Refusal) -> bool {
    refusal.number() == 10 && refusal.name() == "NoVehicle"
}

/// Steps until the first vehicle has arrived, a count, a refusal, and all that `go_on_without` calls; or what is wrong.
fn go_on<R: Threads + Wait + Sync>(
    rt: &R,
    mut engine: Engine<Unwatched>,
    way: Way,
    steps: u64,
) -> Result<(), &'static str> {
    if !are_made(rt, &mut engine, way, steps, steps.saturating_add(1)) {
        return Err("steps were not made");
    }
    if !has_arrived(rt, &mut engine) || !is_refused(rt, &mut engine) {
        return Err("steps, and told otherwise");
    }
    match go_on_without(rt, &mut engine) {
        Err(Stop::Wrong(why)) => Err(why),
        _ => Ok(()),
    }
}

/// One worker and both links, so that a vehicle goes from one lane to another; three workers and one link, so that each step is
/// shared by threads, in both ways: the steps of a team for which there is no memory are made without one. Whether memory was there for the begin of both; or what is wrong.
pub(crate) fn steps_without<R: Threads + Wait + Sync>(
    rt: &R,
    alloc: Global,
) -> Result<bool, &'static str> {
    for (workers, plan, steps, way) in [
        (1, LONG, 20, Way::Lent),
        (3, SHORT, 8, Way::Lent),
        (3, SHORT, 8, Way::Team),
    ] {
        let begun = begun(rt, alloc, workers, plan).or_else(|_| begun(rt, alloc, workers, plan));
        match begun {
            Ok(engine) => go_on(rt, engine, way, steps)?,
            Err(Stop::Wrong(why)) => return Err(why),
            Err(Stop::OutOfMemory) => return Ok(false),
        }
    }
    Ok(true)
}
