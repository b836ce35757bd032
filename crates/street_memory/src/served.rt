//! A session from its lines to its replies, while at most one request for memory is refused.

use crate::calls::{Answer, Met, Stop, Way, call, call_with_memory, go_on_without};
use crate::sessions::Session;
use crate::texts::{is_line, read, text_of};
use std::alloc::Global;
use std::sync::Wait;
use std::thread::Threads;
use street_base::{Command, MOST_WORKERS, Reply};
use street_engine::{Engine, Unwatched};

/// Where a session was answered otherwise than it should be.
#[derive(Clone, Copy, Debug, PartialEq, Eq)]
pub(crate) struct Wrong {
    /// The line, counted from 1.
    pub(crate) line: usize,
    /// What was wrong.
    pub(crate) why: &'static str,
}

/// What the command of a line answers that is called when memory is there.
fn answer_with_memory<R: Threads + Wait + Sync>(
    rt: &R,
    alloc: Global,
    engine: &mut Engine<Unwatched>,
    line: &str,
) -> Result<Vec<u8>, Stop> {
    let command = read(alloc, line)?;
    let reply = call_with_memory(rt, engine, Way::Lent, &command)?;
    text_of(alloc, &reply)
}

/// An engine that had memory for the lines of a session before this one, and then for so many steps.
fn engine_with_memory<R: Threads + Wait + Sync>(
    rt: &R,
    alloc: Global,
    session: &Session,
    at: usize,
    steps: u64,
) -> Result<Engine<Unwatched>, Stop> {
    let mut engine = Engine::new(alloc, 1, Unwatched::new());
    for (line, _want) in session.lines.iter().take(at) {
        let command = read(alloc, line)?;
        let _reply = call_with_memory(rt, &mut engine, Way::Lent, &command)?;
    }
    let _reply = call_with_memory(rt, &mut engine, Way::Lent, &Command::Advance { steps })?;
    Ok(engine)
}

/// Two engines answer alike for each lane.
fn compare_lanes<R: Threads + Wait + Sync>(
    rt: &R,
    alloc: Global,
    engine: &mut Engine<Unwatched>,
    other: &mut Engine<Unwatched>,
    lanes: &[&str],
) -> Result<(), Stop> {
    for line in lanes {
        let here = answer_with_memory(rt, alloc, engine, line)?;
        let there = answer_with_memory(rt, alloc, other, line)?;
        if here.as_slice() != there.as_slice() {
            return Err(Stop::Wrong("short, and a lane is otherwise"));
        }
    }
    Ok(())
}

/// What the line at this place is answered. Where an advance stops short, each lane is then as after those steps with
/// memory, and the rest of its steps is made.
fn answer<R: Threads + Wait + Sync>(
    rt: &R,
    alloc: Global,
    engine: &mut Engine<Unwatched>,
    session: &Session,
    way: Way,
    at: usize,
    met: &mut Met,
) -> Result<Reply, Stop> {
    let Some((line, want)) = session.lines.get(at) else {
        return Err(Stop::Wrong("no line"));
    };
    let command = read(alloc, line)?;
    match call(rt, engine, way, &command, want, met)? {
        Answer::Whole(reply) => Ok(reply),
        Answer::Short { made, rest } => {
            let mut other = engine_with_memory(rt, alloc, session, at, made)?;
            compare_lanes(rt, alloc, engine, &mut other, session.lanes)?;
            call_with_memory(rt, engine, way, &Command::Advance { steps: rest })
        }
    }
}

/// Serves the line at this place.
fn serve_line<R: Threads + Wait + Sync>(
    rt: &R,
    alloc: Global,
    engine: &mut Engine<Unwatched>,
    session: &Session,
    way: Way,
    at: usize,
    met: &mut Met,
) -> Result<(), Stop> {
    let reply = answer(rt, alloc, engine, session, way, at, met)?;
    let text = text_of(alloc, &reply)?;
    match session.lines.get(at) {
        Some((_line, want)) if is_line(text.as_slice(), want) => Ok(()),
        _ => Err(Stop::Wrong("answered otherwise")),
    }
}

/// Serves a session by an engine of its own. Whether it was served to its end; else every request was refused from some line
/// on, and what takes no memory was done.
pub(crate) fn serve_session<R: Threads + Wait + Sync>(
    rt: &R,
    alloc: Global,
    session: &Session,
    way: Way,
    met: &mut Met,
) -> Result<bool, Wrong> {
    // Steps are shared however few the vehicles are, so that threads are started while requests are refused.
    let gate = Unwatched {
        from: 0,
        processors: 4,
    };
    let mut engine = Engine::new(alloc, session.workers.clamp(1, MOST_WORKERS as u32), gate);
    for at in 0..session.lines.len() {
        let stop = match serve_line(rt, alloc, &mut engine, session, way, at, met) {
            Ok(()) => continue,
            Err(Stop::OutOfMemory) => go_on_without(rt, &mut engine),
            Err(wrong) => Err(wrong),
        };
        return match stop {
            Err(Stop::Wrong(why)) => Err(Wrong {
                line: at.saturating_add(1),
                why,
            }),
            _ => Ok(false),
        };
    }
    Ok(true)
}
