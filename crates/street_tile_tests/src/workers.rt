//! Two workers that wait for each other; what is wanted was worked out by hand.

use crate::meeting::{Calls, Meeting, Watched};
use crate::scenes::{enter, there_and_back};
use std::alloc::{AllocError, Global};
use std::process::Abort;
use std::sync::Wait;
use std::sync::atomic::Ordering;
use std::test::Fail;
use std::thread::Threads;
use street_base::{Command, Outcome, Reply};
use street_engine::{Engine, Unrecorded};

/// A vehicle on each link, and three steps.
fn commands(alloc: Global) -> Result<Vec<Command>, AllocError> {
    let mut commands = Vec::new(alloc);
    commands.push(there_and_back(alloc)?)?;
    commands.push(enter(alloc, &[10, 20], 0)?)?;
    commands.push(enter(alloc, &[20, 10], 0)?)?;
    commands.push(Command::Advance { steps: 3 })?;
    Ok(commands)
}

/// A worker came and went once in each of the five phases of three steps.
fn check_calls(rt: &impl Abort, calls: &Calls) {
    assert_eq!(rt; calls.arrivals.load(Ordering::SeqCst), 15);
    assert_eq!(rt; calls.leaves.load(Ordering::SeqCst), 15);
}

/// Whether an engine of two workers serves the commands, watched by this gate, an advance by workers that stay or not.
fn is_served<R: Threads + Wait + Sync>(
    rt: &R,
    alloc: Global,
    meeting: &Meeting,
    commands: &[Command],
    stay: bool,
) -> bool {
    let mut engine = Engine::new(alloc, 2, Watched(meeting));
    let mut last = (Reply::Starved, Outcome::Starved);
    for command in commands {
        last = if stay {
            let (reply, outcome, _sink) = engine.apply_recording_by_team(rt, Unrecorded, command);
            (reply, outcome)
        } else {
            engine.apply(rt, command)
        };
    }
    matches!(last, (Reply::Clock { clock: 3 }, Outcome::Whole))
}

/// One worker is held in each phase until the other has left it.
fn check_held<R: Threads + Wait + Sync + Abort + AllocGlobal>(
    rt: &R,
    commands: &[Command],
    held: u32,
    stay: bool,
) {
    let meeting = Meeting::of(held, false);
    assert!(rt; is_served(rt, rt.alloc(), &meeting, commands, stay));
    assert_eq!(rt;
        meeting.alone.load(Ordering::SeqCst),
        0,
        "worker {held} went on alone"
    );
    assert_eq!(rt;
        meeting.wrong.load(Ordering::SeqCst),
        0,
        "calls, while worker {held} is held"
    );
    check_calls(rt, &meeting.first);
    check_calls(rt, &meeting.second);
}

/// In each phase one worker is held until the other has left it: the second first, then the other way round. So no thread
/// runs both their tiles in a phase. Each call tells the tile as it is before the worker's part of the phase, or after it.
#[test]
fn two_workers_meet(rt: HostRuntime) -> Result<(), Fail> {
    let commands = commands(rt.alloc())?;
    for held in [0, 1] {
        check_held(&rt, commands.as_slice(), held, false);
        check_held(&rt, commands.as_slice(), held, true);
    }
    Ok(())
}
