//! Motion on one lane of a tile: whether its exit is open, the walk of `street_rule`, and what becomes of the vehicle that leaves:
//! into the buffer, or arrived. The second phase of a tile calls it for each lane with somebody.
//!
//! Source: Nagel and Schreckenberg 1992.
ghost use Rattle.std.specs.Prelude.{◌≡◌, ◌^◌, ◌<◌, ◌≤◌, [], length, map, Some, IsSome, All};
ghost use Rattle.street_base.specs.declared.car.Car.{Car as CarOf};
ghost use Rattle.street_base.specs.Prelude.{most_residence, end_node, is_green};
ghost use Rattle.street_rule.specs.Prelude.{odds_of, IsReady};
ghost use Rattle.street_gap.specs.Prelude.{IsWithin};
ghost use Rattle.street_yard.specs.Prelude.{list_at, entry_at, car_of, IsLoose, IsLane};
ghost use Rattle.street_lanes.specs.Prelude.{cleared, lane_of, cells_list, buffer_list, NoneLoose, NoneLooseBut};
ghost use Rattle.street_lanes.specs.Prelude.{opens_to, cells_on, Settles, MovesLeg, DrivesAt, TellsExit};
ghost use Rattle.street_lanes.specs.Lanes.{IsOf};

use crate::detectors::{Detectors, Kind};
use crate::lanes::Lanes;
use crate::lists::{buffer_list, cells_list};
use street_base::{CarNo, CellNo, LinkIx, NodeSpec, Place, Speed, Step, Turn};
use street_gap::Closures;
use street_net::Network;
use street_node::Signal;
use street_rule::{Dice, Road, RoadLane, Watch, motion_pass};
use street_yard::{Key, ListId, Yard};

/// A vehicle that has arrived.
#[derive(Clone, Copy)]
pub struct ArrivedCar {
    /// Its number.
    pub number: CarNo,
    /// The speed at which it left its last lane, in cells a step.
    pub speed: Speed,
}

/// A lane of a tile in a step.
#[derive(Clone, Copy)]
pub(crate) struct Leg<'a> {
    pub(crate) net: &'a Network,
    /// Where it is in the network.
    pub(crate) at: Place,
    /// Its number among the lanes of the tile.
    pub(crate) lane: usize,
    pub(crate) closures: &'a Closures,
    /// The signal of the node that it runs to.
    pub(crate) signal: &'a Signal<'a>,
    pub(crate) clock: Step,
}

/// The node that a link runs to, as it was loaded.
fn end_node(net: &Network, link: LinkIx) -> NodeSpec
    requires { link < length net.now.links }
    ensures node { end_node net.now link ≡ Some result }
    ensures residence { result.residence ≤ most_residence }
{
    net.spec().nodes.as_slice()[net.end_of(link).position()]
}

/// Whether a lane's exit is open to its front vehicle: to one on its last link, where `next` is none, or with a turn to this link
/// that is green and room in the lane's buffer. The signals are asked first, as where there are signals most who wait at an end
/// have red; the lane's turns, which lie farthest away, are asked last.
fn exit_is_open(yard: &Yard, leg: &Leg<'_>, buffer: ListId, next: Option<LinkIx>) -> bool
    requires there { leg.now.at.link < length leg.now.net.now.links }
    requires list { buffer.0 < length yard.now.lists }
    ensures { result ≡ opens_to leg.now.net.now leg.now.signal.now leg.now.clock leg.now.at (length (list_at yard.now buffer.0)) next }
{
    let Some(next) = next else {
        return true;
    };
    if !is_shown_green(leg, next) {
        return false;
    }
    let end = end_node(leg.net, leg.at.link);
    (yard.list_len(buffer) as u64) < end.capacity && leg.net.serves(leg.at.link, leg.at.lane, next)
}

/// Whether the signal plan of the node that the lane runs to shows green to those who go on from this lane to the link `next`;
/// without a plan it always does.
fn is_shown_green(leg: &Leg<'_>, next: LinkIx) -> bool
    ensures { result ≡ is_green leg.now.signal.now leg.now.at next leg.now.clock }
{
    let Some(plan) = leg.signal.plan() else {
        return true;
    };
    // Signals do not ask to which lane of the next link a turn leads.
    let turn = Turn {
        link: leg.at.link,
        lane: leg.at.lane,
        next,
        next_lane: 0,
    };
    plan.is_green(&turn, leg.clock)
}

/// What a motion is told of the lane's exit: whether it is open to the front vehicle. To one that is too far from the lane's
/// end it does not matter; then true is told, and nothing is looked up: neither its plan nor a turn nor the signals.
fn exit_for(yard: &Yard, road: &Road<'_>, leg: &Leg<'_>, buffer: ListId, front: Key) -> bool
    requires network { road.now.network ≡ leg.now.net.now }
    requires link { road.now.link ≡ leg.now.at.link }
    requires there { leg.now.at.link < length leg.now.net.now.links }
    requires list { buffer.0 < length yard.now.lists }
    requires front { IsSome (entry_at yard.now front) }
    ensures { TellsExit yard.now leg.now buffer.0 front result }
{
    let _faultless = leg.net.spec();
    let _within = road.link();
    let reach = yard.cell(front).saturating_add(CellNo::from(road.limit()));
    if reach < road.length() {
        return true;
    }
    exit_is_open(yard, leg, buffer, yard.next_link(front))
}

/// A car that has left its lane arrives, if it is on its last link: it is taken out, and its number and speed are answered. Else it
/// comes last into the list `buffer`, may go on from the step `ready`, and none is answered.
fn settle(yard: &mut Yard, buffer: ListId, key: Key, ready: Step) -> Option<ArrivedCar>
    requires list { buffer.0 < length yard.old.lists }
    requires loose { IsLoose yard.old key }
    ensures settles { (car : CarOf) → car_of yard.old key ≡ Some car → Settles buffer.0 ready car yard.old yard.new result }
    ensures none_loose { NoneLooseBut key yard.old → NoneLoose yard.new }
{
    if yard.next_link(key).is_none() {
        let car = yard.take(key);
        return Some(ArrivedCar {
            number: car.number,
            speed: car.speed,
        });
    }
    yard.set_step(key, ready);
    yard.push_back(buffer, key);
    None
}

/// The motion of a lane in a step; answers who has arrived, if somebody has, and each watch notes who went past
/// it. A leaver that has not arrived is in the buffer then. Nothing is done where nobody is in the lane's cells. The exit is
/// asked for the front vehicle alone, since it matters to nobody else.
fn drive_leg(
    yard: &mut Yard,
    dice: &mut Dice,
    leg: &Leg<'_>,
    watches: &mut [Watch],
) -> Option<ArrivedCar>
    requires link { leg.now.at.link < length leg.now.net.now.links }
    requires few { leg.now.lane < 2 ^ 32 }
    requires listed { buffer_list leg.now.lane < length yard.old.lists }
    requires lane { IsLane yard.old (cells_list leg.now.lane) (cells_on leg.now.net.now leg.now.at) }
    requires closed { IsWithin leg.now.closures.now (cells_on leg.now.net.now leg.now.at) }
    requires dice { dice.old ≡ odds_of leg.now.net.now }
    requires watches { All (IsReady (cells_on leg.now.net.now leg.now.at)) watches.old }
    ensures moves { MovesLeg leg.now yard.old yard.new result watches.old watches.new }
    ensures dice { dice.new ≡ dice.old }
{
    let cells = cells_list(leg.lane);
    let front = yard.list_front(cells)?;
    let buffer = buffer_list(leg.lane);
    let own = RoadLane {
        list: cells,
        closures: leg.closures,
    };
    let road = Road::new(leg.net, leg.at.link, own, None);
    let exit = exit_for(yard, &road, leg, buffer, front);
    let leaver = motion_pass(yard, &road, 0, leg.clock, exit, dice, watches)?;
    let end = end_node(leg.net, leg.at.link);
    let ready = leg.clock.saturating_add(end.residence as Step);
    settle(yard, buffer, leaver.key, ready)
}

impl Lanes {
    /// The motion of a lane, by its number on the tile, in the step `clock`, with no watches: all vehicles in its cells drive
    /// on, and at most one leaves. A leaver on its last link has arrived: its number and speed are answered, and there is room
    /// for one more. Any other comes last into the lane's buffer, from where it may go on after the residence of the node. Takes no
    /// memory.
    ///
    /// `signal` is that of the node that the lane runs to; its plan is looked up where the front vehicle asks.
    pub fn drive(
        &mut self,
        net: &Network,
        lane: usize,
        clock: Step,
        signal: &Signal<'_>,
    ) -> Option<ArrivedCar>
        requires lane { lane < length self.old.lanes }
        requires of { IsOf net.now self.old }
        ensures { DrivesAt net.now signal.now clock lane self.old self.new result [] [] }
    {
        self.drive_cells(net, lane, clock, signal, &mut [])
    }

    /// As [`drive`](Self::drive), and the watches of `detectors`, which are the lane's, have then seen this motion and no
    /// other. The meters note it only with [`Detectors::note`].
    pub fn drive_watched(
        &mut self,
        net: &Network,
        lane: usize,
        clock: Step,
        signal: &Signal<'_>,
        detectors: &mut Detectors,
    ) -> Option<ArrivedCar>
        requires lane { lane < length self.old.lanes }
        requires of { IsOf net.now self.old }
        requires size { detectors.old.size ≡ length (lane_of self.old lane).track.cells }
        ensures drives { DrivesAt net.now signal.now clock lane self.old self.new result (map cleared detectors.old.meters) detectors.new.watches }
        ensures meters { detectors.new ≡ record detectors.old { watches = detectors.new.watches } }
    {
        match &mut detectors.kind {
            Kind::Bare(_) => self.drive(net, lane, clock, signal),
            Kind::Watched(meters) => {
                meters.clear();
                self.drive_cells(net, lane, clock, signal, &mut meters.watches)
            }
        }
    }

    /// As [`drive`](Self::drive), seen by these watches. A call of its own, as a phase with all of it in its loop takes more
    /// instructions.
    #[inline(never)]
    fn drive_cells(
        &mut self,
        net: &Network,
        lane: usize,
        clock: Step,
        signal: &Signal<'_>,
        watches: &mut [Watch],
    ) -> Option<ArrivedCar>
        requires lane { lane < length self.old.lanes }
        requires of { IsOf net.now self.old }
        requires watches { All (IsReady (length (lane_of self.old lane).track.cells)) watches.old }
        ensures { DrivesAt net.now signal.now clock lane self.old self.new result watches.old watches.new }
    {
        let leg = Leg {
            net,
            at: self.extents[lane].at,
            lane,
            closures: &self.closures[lane],
            signal,
            clock,
        };
        drive_leg(&mut self.yard, &mut self.dice, &leg, watches)
    }
}
