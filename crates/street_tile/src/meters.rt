//! The detectors of a tile. `step.rt` calls the phase, `tiles.rt` the commands.
ghost use Rattle.std.specs.Prelude.{◌≡◌, ℕ, ◌<◌, ◌≤◌, length, true, false, option_map, slice_get, IfOk, OnOk, OnErr};
ghost use Rattle.street_base.specs.Prelude.{last_clock, most_period, link_at, shown_rows, Traffic};
ghost use Rattle.street_lanes.specs.Prelude.{IsLane};
ghost use Rattle.street_tile.specs.Prelude.{MeterPhase, IsTileOf, AreBare, AreDue, is_own, HaveNoted, MetersStand, PlacesMeter, detectors_on};

use crate::Tile;
use std::alloc::Global;
use street_base::{CellNo, Place, Reply, Starved};
use street_lanes::{Detectors, Lanes};
use street_net::Network;

/// The detectors of each of these lanes note the step. Where `has_meters` is false there are none, and no lane is looked at.
fn note_lanes(has_meters: bool, detectors: &mut [Detectors], own: &Lanes)
    requires bare { has_meters ≡ false → AreBare detectors.old }
    requires even { length detectors.old ≡ length own.now.lanes }
    requires in_time { (clock : ℕ) × (clock < last_clock) × AreDue clock detectors.old }
    ensures { HaveNoted own.now detectors.old detectors.new }
{
    if !has_meters {
        return;
    }
    for n in 0..own.len() {
        detectors[n].note(own, n);
    }
}

impl Tile {
    /// Each detector notes the step (no lane is looked at for that where none was ever placed), vehicles get keys in their order
    /// where that is due (`Lanes::pack`), and the clock goes on. Takes no memory.
    pub fn phase_meter(&mut self, net: &Network)
        requires tile { IsTileOf net.now self.old }
        requires in_time { self.old.clock < last_clock }
        ensures { MeterPhase net.now self.old self.new }
    {
        note_lanes(self.has_meters, &mut self.detectors, &self.own);
        self.own.pack(self.clock);
        self.clock += 1;
    }

    /// Places one more detector in a cell of an own lane, with a period of 1 to 100,000 steps; it notes from the next step on.
    /// Answers its number among the detectors of the lane.
    ///
    /// # Errors
    /// Memory was refused; the tile is as it was.
    pub fn place_meter(
        &mut self,
        alloc: Global,
        net: &Network,
        at: Place,
        cell: CellNo,
        period: u32,
    ) -> Result<usize, Starved>
        requires tile { IsTileOf net.now self.old }
        requires lane { IsLane net.now at }
        requires own { is_own net.now self.old.low self.old.high at ≡ true }
        requires cell { cell < (link_at net.now at.link).length }
        requires some { 1 ≤ period }
        requires short { period ≤ most_period }
        requires in_time { self.old.clock ≤ last_clock }
        ensures placed { OnOk result (PlacesMeter at cell period self.old self.new) }
        ensures number { IfOk result (λ number. (m : Traffic) → MetersStand self.old m → number ≡ length (detectors_on at m.detectors)) }
        ensures starved { OnErr result (self.new ≡ self.old) }
    {
        // In parts, as the borrow checker does not cover a struct that is passed by value twice.
        let Place { link, lane } = at;
        let n = self.number(net, at);
        let start = self.clock;
        // Also where memory is then refused: that costs no more than a walk over the lanes in each step.
        self.has_meters = true;
        self.detectors[n].place(alloc, Place { link, lane }, cell, period, start)
    }

    /// The rows of a detector of an own lane, by its number among those of the lane, if there is one.
    ///
    /// # Errors
    /// Memory was refused.
    pub fn read_meter(
        &self,
        alloc: Global,
        net: &Network,
        at: Place,
        number: usize,
    ) -> Result<Option<Reply>, Starved>
        requires tile { IsTileOf net.now self.now }
        requires lane { IsLane net.now at }
        requires own { is_own net.now self.now.low self.now.high at ≡ true }
        ensures { IfOk result (λ reply. (m : Traffic) → MetersStand self.now m
            → reply ≡ option_map shown_rows (slice_get (detectors_on at m.detectors) number)) }
    {
        let n = self.number(net, at);
        self.detectors[n].rows(alloc, number)
    }
}
