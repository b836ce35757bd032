//! Commands that an engine serves; what is wanted was worked out by hand from the rules of motion.

use crate::scenes::{enter, one_link};
use std::alloc::{AllocError, Global};
use std::test::Fail;
use std::thread::Threads;
use street_base::{Command, Outcome, Reply, Whereabouts};
use street_engine::{Engine, Unwatched};

/// A vehicle drives five steps on a link of 11 cells, and is asked for.
fn commands(alloc: Global) -> Result<Vec<Command>, AllocError> {
    let mut commands = Vec::new(alloc);
    commands.push(one_link(alloc, 11)?)?;
    commands.push(enter(alloc, &[10], 0)?)?;
    commands.push(Command::Advance { steps: 5 })?;
    commands.push(Command::Vehicle { car: 0 })?;
    Ok(commands)
}

/// The cell, the speed and the first link of the plan that an answer tells.
fn told(answer: Option<&(Reply, Outcome)>) -> Option<(u64, u64, u64)> {
    let Some((Reply::Vehicle { whereabouts, .. }, _)) = answer else {
        return None;
    };
    match whereabouts {
        Whereabouts::Cell {
            cell,
            speed,
            plan,
            ..
        } => Some((*cell, *speed, *plan.as_slice().first()?)),
        _ => None,
    }
}

/// How many answers there are to these commands, and what the fourth tells.
fn served<R: Threads + Sync>(
    rt: &R,
    alloc: Global,
    commands: &[Command],
) -> Option<(usize, (u64, u64, u64))> {
    let mut engine = Engine::new(alloc, 1, Unwatched::new());
    match engine.apply_all(rt, commands) {
        Ok(replies) => Some((replies.len(), told(replies.as_slice().get(3))?)),
        Err(_) => None,
    }
}

#[test]
fn a_list_of_commands_is_served(rt: HostRuntime) -> Result<(), Fail> {
    let commands = commands(rt.alloc())?;
    assert_eq!(rt;
        served(&rt, rt.alloc(), commands.as_slice()),
        Some((4, (10, 4, 10)))
    );
    Ok(())
}
