//! Workers that stay for the steps of an advance: one of them held at each call of the gate in turn, and many short teams, which
//! all return; no contract can say that they do.

use crate::scenes::{enter, ring};
use std::alloc::{AllocError, Global};
use std::process::Abort;
use std::sync::Wait;
use std::sync::atomic::{AtomicU64, Ordering};
use std::test::Fail;
use std::thread::{Threads, yield_now};
use street_base::{Command, Reply, Whereabouts};
use street_engine::{Engine, Gate, Unrecorded, Unwatched};
use street_tile::Tile;

/// How many nodes, links and vehicles a ring has.
const AROUND: u64 = 8;

/// How often a held worker gives way: until all others wait for it, and sleep.
const TURNS: u64 = 300;

/// Where a worker is held, at each step.
#[derive(Drop)]
struct Hold {
    worker: u32,
    phase: u32,
    leaves: bool,
    /// How often it was.
    held: AtomicU64,
}

impl Hold {
    /// Gives way for a while where this is the worker and the call.
    fn stay(&self, worker: u32, phase: u32, leaves: bool) {
        if worker != self.worker || phase != self.phase || leaves != self.leaves {
            return;
        }
        self.held.fetch_add(1, Ordering::SeqCst);
        for _ in 0..TURNS {
            yield_now();
        }
    }
}

/// A gate that is lent to an engine.
#[derive(Drop)]
struct Held<'a>(&'a Hold);

impl Gate for Held<'_> {
    fn arrive(&self, worker: u32, phase: u32, tile: &Tile) {
        self.0.stay(worker, phase, false);
    }

    fn leave(&self, worker: u32, phase: u32, tile: &Tile) {
        self.0.stay(worker, phase, true);
    }
}

/// A ring, and a vehicle on each of its links that drives once around.
pub(crate) fn begin(alloc: Global) -> Result<Vec<Command>, AllocError> {
    let mut commands = Vec::new(alloc);
    commands.push(ring(alloc, AROUND)?)?;
    for link in 0..AROUND {
        let mut plan = Vec::with_capacity(alloc, AROUND as usize)?;
        for next in 0..AROUND {
            plan.push((link + next) % AROUND)?;
        }
        commands.push(enter(alloc, plan.as_slice(), 0)?)?;
    }
    Ok(commands)
}

/// A number for where a vehicle is: its link, and its cell, the buffer or neither.
fn place(whereabouts: &Whereabouts) -> u64 {
    match whereabouts {
        Whereabouts::Cell { link, cell, .. } => link.wrapping_mul(100).wrapping_add(*cell),
        Whereabouts::Buffer { link, .. } => link.wrapping_mul(100).wrapping_add(98),
        _ => 99,
    }
}

/// A number for where all vehicles are.
fn places<R: Threads + Sync, G: Gate + Sync + Drop>(rt: &R, engine: &mut Engine<G>) -> u64 {
    let mut places: u64 = 0;
    for car in 0..AROUND {
        if let (Reply::Vehicle { whereabouts, .. }, _) = engine.apply(
            rt,
            &Command::Vehicle { car },
        ) {
            places = places.wrapping_mul(1_009).wrapping_add(place(&whereabouts));
        }
    }
    places
}

/// Where all are after each of some advances of so many steps, which workers that stay make: a number for all that.
fn driven<R: Threads + Wait + Sync, G: Gate + Sync + Drop>(
    rt: &R,
    alloc: Global,
    workers: u32,
    gate: G,
    begin: &[Command],
) -> u64 {
    let mut engine = Engine::new(alloc, workers.clamp(1, 64), gate);
    for command in begin {
        let _answer = engine.apply(rt, command);
    }
    let mut all: u64 = 0;
    for steps in [1, 2, 17] {
        let _answer = engine.apply_recording_by_team(rt, Unrecorded, &Command::Advance { steps });
        all = all.wrapping_mul(31).wrapping_add(places(rt, &mut engine));
    }
    all
}

/// Where all are after the steps that the calling thread makes alone.
fn alone<R: Threads + Wait + Sync>(rt: &R, alloc: Global, begin: &[Command]) -> u64 {
    driven(rt, alloc, 1, Unwatched::new(), begin)
}

/// Each of four workers is held at the begin and at the end of its part of each phase, at every step.
#[test]
fn each_worker_is_held(rt: HostRuntime) -> Result<(), Fail> {
    let begin = begin(rt.alloc())?;
    let wanted = alone(&rt, rt.alloc(), begin.as_slice());
    for worker in 0..4 {
        for call in 0..10 {
            let hold = Hold {
                worker,
                phase: call / 2,
                leaves: call % 2 == 1,
                held: AtomicU64::new(0),
            };
            assert_eq!(rt;
                driven(&rt, rt.alloc(), 4, Held(&hold), begin.as_slice()),
                wanted
            );
            assert_eq!(rt; hold.held.load(Ordering::SeqCst), 20);
        }
    }
    Ok(())
}

/// A thousand teams of 2 to 8 threads for 2 to 8 tiles, of which each ring has four: all return.
#[test]
fn none_hangs(rt: HostRuntime) -> Result<(), Fail> {
    let begin = begin(rt.alloc())?;
    let wanted = alone(&rt, rt.alloc(), begin.as_slice());
    for round in 0..250 {
        let gate = Unwatched {
            from: 0,
            processors: 2 + round % 7,
        };
        let workers = 2 + (round % 11) as u32;
        assert_eq!(rt;
            driven(&rt, rt.alloc(), workers, gate, begin.as_slice()),
            wanted
        );
    }
    Ok(())
}
