//! The detectors of a lane, which has some or none. A tile keeps one for each of its lanes.
ghost use Rattle.std.specs.Prelude.{◌≡◌, ◌<◌, ◌≤◌, length, List, [], option_map, slice_get, IfOk, OnOk, OnErr, All};
ghost use Rattle.street_base.specs.Prelude.{last_clock, most_period, shown_rows, LaneState, Detector};
ghost use Rattle.street_lanes.specs.Prelude.{LaneStands, lane_of, AllGoOn, AllNote, MetersStandFor, Placed};
ghost use Rattle.street_meter.specs.Meter.{next_step};

use crate::Lanes;
use crate::lane_meters::LaneMeters;
use std::alloc::Global;
use std::marker::Model;
use street_base::{CellNo, Place, Reply, Starved, Step};

/// The detectors of a lane.
#[derive(Drop)]
pub struct Detectors {
    pub(crate) kind: Kind,
}

// Each step reads one for each lane, and nearly no lane has detectors: four of these fit a line of memory.
const _: () = prove!(size_of::<Detectors>() == 16);

/// Whether the lane has detectors. Those are elsewhere, so that a step reads no more than this of a lane that has none.
#[derive(Drop)]
pub(crate) enum Kind {
    /// None, and so many cells.
    Bare(CellNo),
    /// Some: their meters and watches.
    Watched(Box<LaneMeters>),
}

impl Model for Detectors {
    ghost use Rattle.street_lanes.specs.Prelude.{Detectors as Seen};

    ghost Value = { Seen };

    ghost use Rattle.street_lanes.specs.DetectorsInside.{seen};

    ghost view = { seen };
}

impl Detectors {
    /// No detectors, on a lane of so many cells. Takes no memory.
    pub fn new(length: CellNo) -> Detectors
        ensures { result ≡ record { size = length; meters = []; watches = [] } }
    {
        Detectors {
            kind: Kind::Bare(length),
        }
    }

    /// At the end of the step each meter notes what its watch saw of the motion, and whether its cell is covered. The lane is that
    /// of this number among `own`, the lanes of its tile. Takes no memory.
    pub fn note(&mut self, own: &Lanes, lane: usize)
        requires lane { lane < length own.now.lanes }
        requires in_time { All (λ x. next_step x < last_clock) self.old.meters }
        ensures rest { self.new ≡ record self.old { meters = self.new.meters } }
        ensures goes { AllGoOn self.old.meters self.new.meters }
        ensures notes { (s : LaneState) → LaneStands (lane_of own.now lane) s → AllNote s.track.cells self.old.watches self.old.meters self.new.meters }
    {
        if let Kind::Watched(meters) = &mut self.kind {
            meters.note(own, lane);
        }
    }

    /// Places one more detector in a cell of the lane, whose place in the network is `at`, with a period of 1 to 100,000 steps;
    /// it notes from the step `start` on. Answers its number among those of the lane, from 0.
    ///
    /// # Errors
    /// Memory was refused; the detectors are as they were.
    pub fn place(
        &mut self,
        alloc: Global,
        at: Place,
        cell: CellNo,
        period: u32,
        start: Step,
    ) -> Result<usize, Starved>
        requires cell { cell < self.old.size }
        requires some { 1 ≤ period }
        requires short { period ≤ most_period }
        requires start { start ≤ last_clock }
        ensures number { IfOk result (λ number. number ≡ length self.old.meters) }
        ensures ok { OnOk result (Placed at cell period start self.old self.new) }
        ensures err { OnErr result (self.new ≡ self.old) }
    {
        match &mut self.kind {
            Kind::Bare(length) => {
                let mut meters = LaneMeters::new(alloc, *length);
                let number = meters.place(alloc, at, cell, period, start)?;
                self.kind = Kind::Watched(Box::new(alloc, meters)?);
                Ok(number)
            }
            Kind::Watched(meters) => meters.place(alloc, at, cell, period, start),
        }
    }

    /// The reply with the rows of a detector, by its number among those of the lane, from 0; none where there is no such
    /// detector.
    ///
    /// # Errors
    /// Memory was refused.
    pub fn rows(&self, alloc: Global, number: usize) -> Result<Option<Reply>, Starved>
        ensures { IfOk result (λ reply. (ds : List Detector) → MetersStandFor self.now.meters ds → reply ≡ option_map shown_rows (slice_get ds number)) }
    {
        match &self.kind {
            Kind::Bare(_) => Ok(None),
            Kind::Watched(meters) => meters.rows(alloc, number),
        }
    }
}
