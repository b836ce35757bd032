//! A gate at which one of two workers waits for the other.

use std::sync::atomic::{AtomicU64, Ordering};
use street_engine::Gate;
use street_lanes::LaneTotals;
use street_tile::Tile;

/// The phases of a step.
const PHASES: u64 = 5;

/// How often a worker looks for the other before it goes on alone.
const TURNS: u64 = 1_000_000_000;

/// What one worker has told at the gate.
#[derive(Drop)]
pub(crate) struct Calls {
    pub(crate) arrivals: AtomicU64,
    pub(crate) leaves: AtomicU64,
}

impl Calls {
    fn none() -> Self {
        Calls {
            arrivals: AtomicU64::new(0),
            leaves: AtomicU64::new(0),
        }
    }
}

/// Holds one of two workers at the begin of its part of each phase, until the other has left that phase, and compares what
/// both tell with what is wanted.
#[derive(Drop)]
pub(crate) struct Meeting {
    held: u32,
    /// Whether nobody is on the tiles; else a vehicle waits on each.
    empty: bool,
    pub(crate) first: Calls,
    pub(crate) second: Calls,
    /// How often the held worker went on alone.
    pub(crate) alone: AtomicU64,
    /// How many calls told another worker, phase or sizes than wanted.
    pub(crate) wrong: AtomicU64,
}

impl Meeting {
    /// Neither worker has come yet; this one is to be held.
    pub(crate) fn of(held: u32, empty: bool) -> Self {
        Meeting {
            held,
            empty,
            first: Calls::none(),
            second: Calls::none(),
            alone: AtomicU64::new(0),
            wrong: AtomicU64::new(0),
        }
    }

    /// The calls of a worker, and those of the other.
    fn pair(&self, worker: u32) -> (&Calls, &Calls) {
        if worker == 0 {
            (&self.first, &self.second)
        } else {
            (&self.second, &self.first)
        }
    }

    /// Looks until the other worker has left more parts than so many.
    fn wait(&self, other: &Calls, parts: u64) {
        for _ in 0..TURNS {
            if other.leaves.load(Ordering::SeqCst) > parts {
                return;
            }
        }
        self.alone.fetch_add(1, Ordering::SeqCst);
    }

    /// How many vehicles are on a tile after so many phases of three steps, if one is: it waits, departs in the entries of the
    /// first step, goes to the buffer in the motion of the second, and in the third is released to the other tile, from which
    /// another enters.
    fn totals(&self, phases: u64) -> LaneTotals {
        let (cells, buffers, waiting) = match phases {
            _ if self.empty => (0, 0, 0),
            0..=3 => (0, 0, 1),
            4..=6 => (1, 0, 0),
            7..=12 => (0, 1, 0),
            13 => (0, 0, 0),
            _ => (1, 0, 0),
        };
        LaneTotals {
            cells,
            buffers,
            waiting,
        }
    }

    /// Compares what a call tells, where the worker has begun so many parts before, and ended so many.
    fn compare(&self, worker: u32, phase: u32, tile: &Tile, begun: u64, ended: u64) {
        let right = worker < 2
            && u64::from(phase) == begun % PHASES
            && tile.totals() == self.totals(ended);
        if !right {
            self.wrong.fetch_add(1, Ordering::SeqCst);
        }
    }
}

/// A gate that is lent to an engine, or to a step.
#[derive(Drop)]
pub(crate) struct Watched<'a>(pub(crate) &'a Meeting);

impl Gate for Watched<'_> {
    fn arrive(&self, worker: u32, phase: u32, tile: &Tile) {
        let (own, other) = self.0.pair(worker);
        let begun = own.arrivals.fetch_add(1, Ordering::SeqCst);
        self.0.compare(worker, phase, tile, begun, begun);
        // Who went on alone once has failed: it need not wait again.
        if worker == self.0.held && self.0.alone.load(Ordering::SeqCst) == 0 {
            self.0.wait(other, begun);
        }
    }

    fn leave(&self, worker: u32, phase: u32, tile: &Tile) {
        let (own, _) = self.0.pair(worker);
        let ended = own.leaves.load(Ordering::SeqCst);
        self.0
            .compare(worker, phase, tile, ended, ended.wrapping_add(1));
        own.leaves.store(ended.wrapping_add(1), Ordering::SeqCst);
    }
}
