//! The detectors of a lane that has some, and whether a cell is covered, which they note. `detectors.rt` alone calls it.
ghost use Rattle.std.specs.Prelude.{◌≡◌, ℕ, ◌<◌, ◌≤◌, length, List, [], map, option_map, slice_get, IfOk, OnOk, OnErr, All};
ghost use Rattle.street_base.specs.Prelude.{last_clock, most_period, shown_rows, is_covered, LaneState, Detector};
ghost use Rattle.street_lanes.specs.Prelude.{LaneStands, lane_of, cleared, GoesOn, Notes, AllGoOn, AllNote, MetersStandFor, Placed};
ghost use Rattle.street_meter.specs.Meter.{next_step};
ghost use Rattle.street_rule.specs.Prelude.{IsReady};
ghost use Rattle.street_yard.specs.Prelude.{cells_at, IsLane};

use crate::lanes::Lanes;
use crate::lists::cells_list;
use std::alloc::Global;
use std::marker::Model;
use street_base::{CellNo, Place, Reply, Starved, Step};
use street_meter::{Meter, MeterSite};
use street_rule::Watch;
use street_yard::{ListId, Yard};

/// The meters of a lane, and their watches.
#[derive(Drop)]
pub(crate) struct LaneMeters {
    /// How many cells the lane has.
    length: CellNo,
    /// One for each detector, in the order of placing.
    meters: Vec<Meter>,
    /// For each meter what its detector saw of the lane's last motion.
    pub(crate) watches: Vec<Watch>,
}

impl Model for LaneMeters {
    ghost use Rattle.street_lanes.specs.Prelude.{Detectors as Seen};

    ghost Value = { Seen };

    ghost use Rattle.street_lanes.specs.LaneMeters.{seen, IsSound};

    ghost view = { seen };

    ghost invariant = { IsSound };
}

/// A watch of a cell that has seen nothing: nobody passed.
fn watch_at(cell: CellNo) -> Watch
    ensures { result ≡ record { cell = cell; passes = 0; speeds = 0 } }
{
    Watch {
        cell,
        passes: 0,
        speeds: 0,
    }
}

/// Sets each watch to one that has seen nothing, in the cell of the meter at the same position.
fn clear(watches: &mut [Watch], meters: &[Meter])
    requires { length watches.old ≡ length meters.now }
    ensures { watches.new ≡ map cleared meters.now }
{
    for k in 0..meters.len() {
        watches[k] = watch_at(meters[k].site().cell);
    }
}

/// Whether somebody on a list, that of a lane's cells, covers a cell, with the front or a part behind it. It is walked from its
/// front down to the cell.
fn covers(yard: &Yard, cells: ListId, cell: CellNo) -> bool
    requires { cells.0 < length yard.now.lists }
    ensures { (count : ℕ) → IsLane yard.now cells.0 count → result ≡ is_covered (cells_at yard.now cells.0 count) cell }
{
    let mut cursor = yard.list_front(cells);
    while let Some(key) = cursor {
        if yard.cell(key) < cell {
            return false;
        }
        if yard.rear(key) <= cell {
            return true;
        }
        cursor = yard.behind(key);
    }
    false
}

impl Lanes {
    /// Whether somebody covers a cell of a lane, with the front or a part behind it. The lane is that of this number on the
    /// tile.
    pub fn is_covered(&self, lane: usize, cell: CellNo) -> bool
        requires { lane < length self.now.lanes }
        ensures { (s : LaneState) → LaneStands (lane_of self.now lane) s → result ≡ is_covered s.track.cells cell }
    {
        covers(&self.yard, cells_list(lane), cell)
    }
}

/// A meter notes what its watch saw in the step, and whether its cell is covered now. Its lane is that of this number among
/// `own`.
fn note_one(meter: &mut Meter, watch: Watch, own: &Lanes, lane: usize)
    requires lane { lane < length own.now.lanes }
    requires in_time { next_step meter.old < last_clock }
    ensures goes { GoesOn meter.old meter.new }
    ensures notes { (s : LaneState) → LaneStands (lane_of own.now lane) s → Notes s.track.cells watch meter.old meter.new }
{
    let covered = own.is_covered(lane, meter.site().cell);
    meter.note(watch.passes, watch.speeds, u32::from(covered));
}

/// Each meter notes what its watch saw in the step, the one at the same position, and whether its cell is covered now. Their
/// lane is that of this number among `own`.
fn note_all(meters: &mut [Meter], watches: &[Watch], own: &Lanes, lane: usize)
    requires lane { lane < length own.now.lanes }
    requires even { length watches.now ≡ length meters.old }
    requires in_time { All (λ x. next_step x < last_clock) meters.old }
    ensures goes { AllGoOn meters.old meters.new }
    ensures notes { (s : LaneState) → LaneStands (lane_of own.now lane) s → AllNote s.track.cells watches.now meters.old meters.new }
{
    for k in 0..meters.len() {
        note_one(&mut meters[k], watches[k], own, lane);
    }
}

impl LaneMeters {
    /// For a lane of so many cells that is to have detectors: none so far. Takes no memory; `alloc` is for those that come.
    pub(crate) fn new(alloc: Global, length: CellNo) -> LaneMeters
        ensures { result ≡ record { size = length; meters = []; watches = [] } }
    {
        LaneMeters {
            length,
            meters: Vec::new(alloc),
            watches: Vec::new(alloc),
        }
    }

    /// Sets each watch to have seen nothing: it is ready for a motion of the lane. Takes no memory.
    pub(crate) fn clear(&mut self)
        ensures cleared { self.new ≡ record self.old { watches = map cleared self.old.meters } }
        ensures ready { All (IsReady self.old.size) self.new.watches }
    {
        clear(&mut self.watches, &self.meters);
    }

    /// At the end of the step each meter notes what its watch saw of the motion, and whether its cell is covered. The lane is that
    /// of this number among `own`, the lanes of its tile. Takes no memory.
    pub(crate) fn note(&mut self, own: &Lanes, lane: usize)
        requires lane { lane < length own.now.lanes }
        requires in_time { All (λ x. next_step x < last_clock) self.old.meters }
        ensures rest { self.new ≡ record self.old { meters = self.new.meters } }
        ensures goes { AllGoOn self.old.meters self.new.meters }
        ensures notes { (s : LaneState) → LaneStands (lane_of own.now lane) s → AllNote s.track.cells self.old.watches self.old.meters self.new.meters }
    {
        note_all(&mut self.meters, &self.watches, own, lane);
    }

    /// Places one more detector in a cell of the lane, whose place in the network is `at`, with a period of 1 to 100,000 steps;
    /// it notes from the step `start` on. Answers its number among those of the lane, from 0.
    ///
    /// # Errors
    /// Memory was refused; the detectors are as they were.
    pub(crate) fn place(
        &mut self,
        alloc: Global,
        at: Place,
        cell: CellNo,
        period: u32,
        start: Step,
    ) -> Result<usize, Starved>
        requires cell { cell < self.old.size }
        requires some { 1 ≤ period }
        requires short { period ≤ most_period }
        requires start { start ≤ last_clock }
        ensures number { IfOk result (λ number. number ≡ length self.old.meters) }
        ensures ok { OnOk result (Placed at cell period start self.old self.new) }
        ensures err { OnErr result (self.new ≡ self.old) }
    {
        let site = MeterSite { at, cell };
        let meter = Meter::new(alloc, site, period, start)?;
        self.meters.reserve(1)?;
        self.watches.reserve(1)?;
        let number = self.meters.len();
        self.meters.push_reserved(meter);
        self.watches.push_reserved(watch_at(cell));
        Ok(number)
    }

    /// The reply with the rows of a detector, by its number among those of the lane, from 0; none where there is no such
    /// detector.
    ///
    /// # Errors
    /// Memory was refused.
    pub(crate) fn rows(&self, alloc: Global, number: usize) -> Result<Option<Reply>, Starved>
        ensures { IfOk result (λ reply. (ds : List Detector) → MetersStandFor self.now.meters ds → reply ≡ option_map shown_rows (slice_get ds number)) }
    {
        if number >= self.meters.len() {
            return Ok(None);
        }
        let rows = self.meters[number].rows(alloc)?;
        Ok(Some(Reply::Rows {
            now: rows.running,
            rows: rows.full,
        }))
    }
}
