//! Which worker has which lanes: those of the links that run to its nodes.

use crate::scenes::{enter, there_and_back};
use std::alloc::{AllocError, Global};
use std::sync::atomic::{AtomicU64, Ordering};
use std::test::Fail;
use std::thread::Threads;
use street_base::{Command, Outcome, Reply};
use street_engine::{Engine, Gate};
use street_tile::Tile;

/// Adds up how many wait on the tile of each of two workers at the begin of a step.
#[derive(Drop)]
struct Waiting {
    first: AtomicU64,
    second: AtomicU64,
}

/// That, lent to an engine.
#[derive(Drop)]
struct Counts<'a>(&'a Waiting);

impl Gate for Counts<'_> {
    fn arrive(&self, worker: u32, phase: u32, tile: &Tile) {
        let own = match worker {
            0 => &self.0.first,
            _ => &self.0.second,
        };
        if phase == 0 {
            own.fetch_add(tile.totals().waiting, Ordering::SeqCst);
        }
    }
}

/// One vehicle waits at the begin of link 10 and two at that of link 20, and a step is made.
fn commands(alloc: Global) -> Result<Vec<Command>, AllocError> {
    let mut commands = Vec::new(alloc);
    commands.push(there_and_back(alloc)?)?;
    commands.push(enter(alloc, &[10], 9)?)?;
    commands.push(enter(alloc, &[20], 9)?)?;
    commands.push(enter(alloc, &[20], 9)?)?;
    commands.push(Command::Advance { steps: 1 })?;
    Ok(commands)
}

/// Whether an engine of two workers serves the commands, watched by this gate.
fn is_served<R: Threads + Sync>(
    rt: &R,
    alloc: Global,
    waiting: &Waiting,
    commands: &[Command],
) -> bool {
    let mut engine = Engine::new(alloc, 2, Counts(waiting));
    match engine.apply_all(rt, commands) {
        Ok(replies) => matches!(
            replies.as_slice().last(),
            Some((Reply::Clock { clock: 1 }, Outcome::Whole))
        ),
        Err(_) => false,
    }
}

/// Link 20 runs to the first node, which the first worker has.
#[test]
fn a_link_is_of_the_worker_of_its_end(rt: HostRuntime) -> Result<(), Fail> {
    let waiting = Waiting {
        first: AtomicU64::new(0),
        second: AtomicU64::new(0),
    };
    let commands = commands(rt.alloc())?;
    assert!(rt; is_served(&rt, rt.alloc(), &waiting, commands.as_slice()));
    assert_eq!(rt; waiting.first.load(Ordering::SeqCst), 2);
    assert_eq!(rt; waiting.second.load(Ordering::SeqCst), 1);
    Ok(())
}
