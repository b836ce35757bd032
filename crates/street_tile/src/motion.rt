//! Motion on all lanes of a tile that have somebody, with the tile's mouths and the rows of who arrives. `step.rt` calls it.
//!
//! Source: that motion follows the lane changes is Rickert and others 1996.
ghost use Rattle.std.specs.Prelude.{◌≡◌, ℕ, [], ◌+◌, ◌*◌, ◌<◌, ◌≤◌, length, false, vec_len, vec_capacity, Some, slice_get, not};
ghost use Rattle.street_base.specs.Prelude.{last_clock, is_closed};
ghost use Rattle.street_net.specs.Prelude.{mouth};
ghost use Rattle.street_node.specs.Prelude.{AtMostOnce};
ghost use Rattle.street_lanes.specs.Lanes.{IsOf};
ghost use Rattle.street_lanes.specs.Prelude.{lane_of, place_at, HasNobodyInCells};
ghost use Rattle.street_tile.specs.Prelude.{IsTileOf, IsRoads, IsBare, MotionPhase, HasPlanFor, DrivesLane, WatchesLane, MayDrive, DrivesLanes, WatchLanes, ShowLanes};

use crate::Tile;
use street_base::{CarNo, Place, RecordRow, Step};
use street_lanes::{ArrivedCar, Detectors, Lanes, ListKind};
use street_net::{Network, slot};
use street_node::{Signal, SignalPlan};

/// What motion on a tile's lanes reads of the step.
#[derive(Clone, Copy)]
pub(crate) struct MotionStep<'a> {
    pub(crate) net: &'a Network,
    pub(crate) clock: Step,
    /// Whether a detector was ever placed in the tile. While none was, none is looked at.
    pub(crate) has_meters: bool,
    /// The first of the tile's nodes.
    pub(crate) low: usize,
    /// The signal plans of the tile's nodes, from `low` on.
    pub(crate) signals: &'a [Option<SignalPlan>],
}

/// Motion on own lane `n`, by the signal plan of the node that its link runs to. The lane's detectors watch. Answers who arrived, if
/// somebody did.
fn move_lane(
    own: &mut Lanes,
    detectors: &mut Detectors,
    step: &MotionStep<'_>,
    n: usize,
) -> Option<ArrivedCar>
    requires lane { n < length own.old.lanes }
    requires of { IsOf step.now.net.now own.old }
    requires in_time { step.now.clock ≤ last_clock }
    requires node { HasPlanFor step.now (place_at own.old n) }
    requires size { detectors.old.size ≡ length (lane_of own.old n).track.cells }
    requires bare { step.now.has_meters ≡ false → IsBare detectors.old }
    ensures drives { DrivesLane step.now n own.old own.new result }
    ensures watches { WatchesLane step.now n own.old detectors.old detectors.new }
{
    let node = step.net.end_of(own.at(n).link);
    let signal = Signal::new(step.signals, node.position() - step.low);
    if step.has_meters {
        own.drive_watched(step.net, n, step.clock, &signal, detectors)
    } else {
        own.drive(step.net, n, step.clock, &signal)
    }
}

/// The first of these lanes, from `lane` on, that motion is not to pass over: one with somebody in its cells, or any where a
/// detector was placed, as watches begin anew; the count of lanes where there is none.
fn next_to_move(own: &Lanes, step: &MotionStep<'_>, lane: usize) -> usize
    requires { lane ≤ length own.now.lanes }
    ensures not_before { lane ≤ result }
    ensures within { result ≤ length own.now.lanes }
    ensures passed { (k : ℕ) → lane ≤ k → k < result → (step.now.has_meters ≡ false) × HasNobodyInCells (lane_of own.now k) }
{
    if step.has_meters {
        return lane;
    }
    own.next_filled(ListKind::Cells, lane)
}

/// Of each of these lanes `mouths` gets at its `slot` whether its cell 0 is not closed. Who is there is not looked at.
fn show_closed(own: &Lanes, net: &Network, mouths: &mut [bool])
    requires of { IsOf net.now own.now }
    requires roads { IsRoads net.now }
    requires once { AtMostOnce own.now.places }
    requires wide { length mouths.old ≡ 2 * length net.now.links }
    ensures shown { (j : ℕ) → (p : Place) → slice_get own.now.places j ≡ Some p
        → mouth mouths.new p ≡ not (is_closed (lane_of own.now j).track.closed 0) }
    ensures wide { length mouths.new ≡ length mouths.old }
{
    // Mostly no cell is closed. What the mouths of other lanes tell is not read.
    if own.is_all_open() {
        mouths.fill(true);
        return;
    }
    for n in 0..own.len() {
        let at = own.at(n);
        mouths[slot(at.link, at.lane)] = !own.is_first_closed(n);
    }
}

/// Motion on each of these lanes, which their detectors watch. The numbers of those who arrived are added to `arrived` and their
/// rows to `left`, and of each lane `mouths` gets at its `slot` whether its cell 0 is free.
fn move_lanes(
    own: &mut Lanes,
    detectors: &mut [Detectors],
    step: &MotionStep<'_>,
    arrived: &mut Vec<CarNo>,
    left: &mut Vec<RecordRow>,
    mouths: &mut [bool],
)
    requires ready { MayDrive step.now own.old detectors.old }
    requires room { vec_len arrived.old + length own.old.places ≤ vec_capacity arrived.old }
    requires rows { vec_len left.old + length own.old.places ≤ vec_capacity left.old }
    requires once { AtMostOnce own.old.places }
    requires wide { length mouths.old ≡ 2 * length step.now.net.now.links }
    ensures drives { DrivesLanes step.now own.old own.new arrived.old.items arrived.new.items left.old.items left.new.items }
    ensures watches { WatchLanes step.now own.old detectors.old detectors.new }
    ensures capacity { vec_capacity arrived.old ≤ vec_capacity arrived.new }
    ensures rows { vec_capacity left.old ≤ vec_capacity left.new }
    ensures shown { ShowLanes own.new mouths.new }
{
    show_closed(own, step.net, mouths);
    let mut n = next_to_move(own, step, 0);
    while n < own.len() {
        let at = own.at(n);
        let slot = slot(at.link, at.lane);
        if let Some(car) = move_lane(own, &mut detectors[n], step, n) {
            arrived.push_reserved(car.number);
            left.push_reserved(RecordRow {
                car: car.number,
                slot: slot as u32,
                spot: u32::MAX,
                speed: u32::from(car.speed),
            });
        }
        mouths[slot] = own.is_open(n);
        n = next_to_move(own, step, n + 1);
    }
}

impl Tile {
    /// Motion on each own lane, seen by its detectors; the tile then holds the numbers and rows of those who arrived, and of each own
    /// lane whether its cell 0 is empty and not closed. Takes no memory.
    pub fn phase_motion(&mut self, net: &Network)
        requires tile { IsTileOf net.now self.old }
        requires none { self.old.arrived ≡ [] }
        requires in_time { self.old.clock < last_clock }
        ensures { MotionPhase net.now self.old self.new }
    {
        let step = MotionStep {
            net,
            clock: self.clock,
            has_meters: self.has_meters,
            low: self.low,
            signals: &self.signals,
        };
        self.left.clear();
        move_lanes(
            &mut self.own,
            &mut self.detectors,
            &step,
            &mut self.arrived,
            &mut self.left,
            &mut self.mouths,
        );
    }
}
