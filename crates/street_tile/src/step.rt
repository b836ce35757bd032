//! The parts of a step: of one tile, and of all tiles by whoever makes them. A tile needs what another has only between two
//! parts. `street_engine` calls the steps of all tiles; workers call the parts.
//!
//! Lane changes and motion read and write a tile's own lanes alone, and so do entries, departures and detectors. Before the
//! releases the tiles show each other their mouths, and after them they hand over who goes.
ghost use Rattle.std.specs.Prelude.{◌≡◌, ◌*◌, ◌<◌, length, [], None, slice_index_or, IfSome, OnOk, All};
ghost use Rattle.street_base.specs.Prelude.{last_clock, Traffic};
ghost use Rattle.street_tile.specs.Prelude.{KeepsHints, MayStep, Steps, MayRun, Runs, MayWork, DoesWork};
ghost use Rattle.street_tile.specs.Prelude.{TileView, IsPrepared, AreTiles, HaveStepped, TilesStandFor, TilesKeep};
ghost use Rattle.street_tile.specs.Prelude.{NobodyArrived, PreparesOne, TakesArrival, TakesArrivalOf};

use crate::hand_over::move_all;
use crate::tiles::Tiles;
use crate::view::publish;
use crate::{Gate, Lender, LinkHints, Tile, View, share};
use std::thread::Threads;
use street_base::{CarNo, Starved};
use street_net::Network;

/// The phase with lane changes, and the part with it alone: a part that is one phase has the number by which a gate hears of that.
const LANE_CHANGES: u32 = 0;

/// The phase with motion.
const MOTION: u32 = 1;

/// The phase with releases.
const RELEASES: u32 = 2;

/// The phase with entries and departures.
const ENTRIES: u32 = 3;

/// The phase with detectors, after which the tile's clock goes on.
const DETECTORS: u32 = 4;

/// The part with lane changes and motion.
const DRIVE: u32 = 5;

/// The part with entries, departures and detectors.
const SETTLE: u32 = 6;

/// A phase of a tile; `worker` is the tile's position among all tiles, 0 to 63, whichever thread makes it, and the gate sees it come and
/// leave. `shown` tells of each lane, by slot, whether its mouth is open; releases go by it, the other phases do not look at it.
fn run_phase<G: Gate>(
    net: &Network,
    gate: &G,
    phase: u32,
    worker: u32,
    shown: &[bool],
    tile: &mut Tile,
)
    requires { MayRun net.now phase shown.now tile.old }
    ensures { Runs net.now phase shown.now tile.old tile.new }
{
    gate.arrive(worker, phase, tile);
    match phase {
        LANE_CHANGES => tile.phase_lanes(net),
        MOTION => tile.phase_motion(net),
        RELEASES => tile.release_by(net, shown),
        ENTRIES => tile.phase_enter(net),
        _ => tile.phase_meter(net),
    }
    gate.leave(worker, phase, tile);
}

/// A part of a step of a tile, one phase or two; `worker` is the tile's position among all tiles, as the gate is told, whichever thread
/// makes it. `shown` are the mouths by slot, where `part` is `RELEASES`.
pub(crate) fn work<G: Gate>(
    net: &Network,
    gate: &G,
    part: u32,
    worker: u32,
    shown: &[bool],
    tile: &mut Tile,
)
    requires { MayWork net.now part shown.now tile.old }
    ensures { DoesWork net.now part shown.now tile.old tile.new }
{
    match part {
        DRIVE => {
            run_phase(net, gate, LANE_CHANGES, worker, shown, tile);
            run_phase(net, gate, MOTION, worker, shown, tile);
        }
        SETTLE => {
            run_phase(net, gate, ENTRIES, worker, shown, tile);
            run_phase(net, gate, DETECTORS, worker, shown, tile);
        }
        phase => run_phase(net, gate, phase, worker, shown, tile),
    }
}

/// One step phase by phase, each by a thread for each tile, for a caller that watches each: whatever state the tiles stood for, they
/// then stand for the next one, and hold the numbers of those who arrived. The hints follow who enters another link. Takes no memory.
pub fn step_all<R: Threads + Sync, G: Gate + Sync>(
    rt: &R,
    net: &Network,
    tiles: &mut [Tile],
    view: &mut View,
    hints: &mut LinkHints,
    gate: &G,
)
    requires ready { MayStep net.now tiles.old }
    requires view { length view.old ≡ 2 * length net.now.links }
    ensures steps { Steps net.now tiles.old tiles.new }
    ensures view { length view.new ≡ length view.old }
    ensures hints { KeepsHints hints.old hints.new }
{
    let threads = tiles.len().max(1);
    share(rt, net, gate, threads, LANE_CHANGES, &[], tiles);
    share(rt, net, gate, threads, MOTION, &[], tiles);
    publish(net, tiles, view);
    share(rt, net, gate, threads, RELEASES, &view.mouths, tiles);
    move_all(net, tiles, hints);
    share(rt, net, gate, threads, ENTRIES, &[], tiles);
    share(rt, net, gate, threads, DETECTORS, &[], tiles);
}

/// One step, whoever makes its parts, of the same meaning as [`step_all`]'s. The hints follow who enters another link.
/// Takes no memory.
pub fn step_by<L: Lender>(
    lender: &mut L,
    net: &Network,
    tiles: &mut Vec<Tile>,
    view: &mut View,
    hints: &mut LinkHints,
)
    requires net { L.knows lender.old net.now }
    requires ready { MayStep net.now tiles.old.items }
    requires view { length view.old ≡ 2 * length net.now.links }
    ensures net { L.knows lender.new net.now }
    ensures len { length tiles.new.items ≡ length tiles.old.items }
    ensures steps { Steps net.now tiles.old.items tiles.new.items }
    ensures view { length view.new ≡ length view.old }
    ensures hints { KeepsHints hints.old hints.new }
{
    lender.lend(net, DRIVE, &[], tiles);
    publish(net, tiles.as_slice(), view);
    lender.lend(net, RELEASES, &view.mouths, tiles);
    move_all(net, tiles.as_mut_slice(), hints);
    lender.lend(net, SETTLE, &[], tiles);
}

impl Tiles {
    /// Takes the memory for a step of tile `i`.
    ///
    /// # Errors
    /// Memory was refused; the tiles stand for what they stood for.
    fn prepare_one(&mut self, i: usize) -> Result<(), Starved>
        requires { i < length self.old.tiles }
        ensures kept { TilesKeep self.old self.new }
        ensures prepared { OnOk result (PreparesOne i self.old.tiles self.new.tiles) }
    {
        self.tiles[i].prepare()
    }

    /// Takes the memory for a step.
    ///
    /// # Errors
    /// Memory was refused; the tiles stand for what they stood for.
    pub fn prepare(&mut self) -> Result<(), Starved>
        ensures prepared { OnOk result (All IsPrepared self.new.tiles) }
        ensures kept { TilesKeep self.old self.new }
    {
        for i in 0..self.len() {
            self.prepare_one(i)?;
        }
        Ok(())
    }

    /// One step, by whoever makes its parts: whatever state the tiles stood for, they then stand for the next one, and hold the numbers
    /// of those who arrived. Takes no memory.
    pub fn step<L: Lender>(&mut self, lender: &mut L)
        requires lender { L.knows lender.old self.old.network }
        requires prepared { All IsPrepared self.old.tiles }
        requires nobody { NobodyArrived self.old }
        requires stand { (m : Traffic) × TilesStandFor self.old m × (m.clock < last_clock) }
        ensures lender { L.knows lender.new self.new.network }
        ensures cut { AreTiles self.old.network self.old.tiles }
        ensures network { self.new.network ≡ self.old.network }
        ensures len { length self.new.tiles ≡ length self.old.tiles }
        ensures steps { Steps self.old.network self.old.tiles self.new.tiles }
        ensures stepped { (m : Traffic) → TilesStandFor self.old m → HaveStepped self.new m }
    {
        step_by(
            lender,
            &self.network,
            &mut self.tiles,
            &mut self.view,
            &mut self.hints,
        );
    }

    /// Takes the number of a vehicle that arrived in the last step on the lanes of tile `i`; none when all of these were taken.
    fn arrival_of(&mut self, i: usize) -> Option<CarNo>
        requires { i < length self.old.tiles }
        ensures some { IfSome result (λ number. TakesArrivalOf i number self.old self.new) }
        ensures kept { result ≡ None → self.new ≡ self.old }
        ensures none { result ≡ None → (d : TileView) → (slice_index_or self.old.tiles i d).arrived ≡ [] }
    {
        self.tiles[i].next_arrival()
    }

    /// Takes the number of a vehicle that arrived in the last step, in no order; none when all were taken. Takes no memory.
    pub fn next_arrival(&mut self) -> Option<CarNo>
        ensures some { IfSome result (λ number. TakesArrival number self.old self.new) }
        ensures kept { result ≡ None → self.new ≡ self.old }
        ensures none { result ≡ None → NobodyArrived self.old }
    {
        for i in 0..self.len() {
            if let Some(number) = self.arrival_of(i) {
                return Some(number);
            }
        }
        None
    }
}
