//! Whether a driver changes lane: the wish, the room on the other lane, and the draw. `pass.rt` calls it for each vehicle of a lane.
//! What a driver sees on one lane is reckoned by `street_gap`.
//!
//! Source: Rickert, Nagel, Schreckenberg and Latour 1996.
ghost use Rattle.std.specs.Prelude.{◌≡◌, ℕ, ◌<◌, ◌≤◌, ◌+◌, ◌-◌, nat_lt, Option, length, Some, IsSome, not, true, false, option_map};
ghost use Rattle.std.specs.Option.{option_map_or};
ghost use Rattle.street_base.specs.declared.names.Place.{Place};
ghost use Rattle.street_base.specs.Prelude.{serves, vehicle_of, next_link};
ghost use Rattle.street_yard.specs.Prelude.{list_on, entry_at, car_of, cell_at};
ghost use Rattle.street_gap.specs.Prelude.{HasCar, IsUpTo, IsPosition};
ghost use Rattle.street_rule.specs.Prelude.{length_of, lane_of, lane_seen, IsRoad, odds_of, changing_of};
ghost use Rattle.street_rule.specs.Prelude.{change_gap_to, wishes_with, TellsRoom, IsNear, Decides, DecidesAt, IsOutlook};

use crate::Dice;
use crate::road::{Road, RoadLane};
use street_base::{CellNo, LaneNo, LinkIx, Speed, Step};
use street_gap::{cells_up_to, gap_behind, gap_beside, last_above, obstacle_ahead};
use street_yard::{Key, Yard};

/// The gap where nothing is in sight, in cells.
const FAR: CellNo = 16;

/// The gap behind must be longer than this, in cells.
const CLOSE_BEHIND: CellNo = 5;

/// Whether a vehicle with this gap ahead (in cells) wants the other lane: as it is slow (the gap is less than one more than its
/// speed) or, in the turn zone, as its lane does not serve its next link. In the zone a slow one wants it only where the other
/// lane serves that link too. `next` is `None` where its plan ends on this link.
fn wishes(
    road: &Road<'_>,
    lane: LaneNo,
    gap: CellNo,
    cell: CellNo,
    speed: Speed,
    next: Option<LinkIx>,
) -> bool
    requires { lane ≤ 1 }
    ensures { (step : ℕ) → result ≡ wishes_with (changing_of road.now step) lane (length_of road.now) gap cell speed next }
{
    let slow = gap < CellNo::from(speed) + 1;
    if road.network().spec().zone < u64::from(road.length().saturating_sub(cell)) {
        return slow;
    }
    match next {
        None => slow,
        Some(next) => {
            let network = road.network();
            if !network.serves(road.link(), lane, next) {
                return true;
            }
            slow && network.serves(road.link(), 1 - lane, next)
        }
    }
}

/// The first cell of the turn zone at the end of a link: 0 where the zone is as long as the link, the link's length where the
/// zone has no cells.
pub(crate) fn zone_begin(road: &Road<'_>) -> CellNo
    ensures { result ≡ length_of road.now - road.now.network.zone }
{
    let zone = road.network().spec().zone;
    u64::from(road.length()).saturating_sub(zone) as CellNo
}

/// Whether a vehicle in this cell is slow, and so wishes to change lane: its gap up to the obstacle is less than one more than its speed. The gap is 16 where
/// nothing is in sight. To reckon it then with a cell far ahead spares a branch that the processor cannot predict where there
/// are few vehicles on each lane.
fn is_slow(obstacle: Option<CellNo>, cell: CellNo, speed: Speed) -> bool
    ensures { result ≡ nat_lt (change_gap_to obstacle cell) (speed + 1) }
{
    let cell = u64::from(cell);
    let obstacle = match obstacle {
        Some(obstacle) => u64::from(obstacle),
        None => cell + u64::from(FAR) + 1,
    };
    obstacle <= cell + u64::from(speed) + 1
}

/// Whether the lane does not serve the next link of a vehicle; false where its plan ends on this link.
fn is_unserved(road: &Road<'_>, lane: LaneNo, next: Option<LinkIx>) -> bool
    ensures { let place : Place = record { link = road.now.link; lane = lane } in
        result ≡ option_map_or (λ n. not (serves road.now.network place n)) next false }
{
    match next {
        Some(next) => !road.network().serves(road.link(), lane, next),
        None => false,
    }
}

/// Whether a vehicle with this obstacle ahead may want the other lane at all: it is slow, or its lane does not serve its next
/// link in the turn zone, which begins with the cell `zone`. Whether the other lane serves it is not asked yet. The lane's
/// turns are asked in the zone alone, of those who are not slow: on a long lane few come so far.
fn may_wish(
    yard: &Yard,
    road: &Road<'_>,
    lane: LaneNo,
    zone: CellNo,
    obstacle: Option<CellNo>,
    cell: CellNo,
    speed: Speed,
    key: Key,
) -> bool
    requires zone { zone ≡ length_of road.now - road.now.network.zone }
    requires key { IsSome (entry_at yard.now key) }
    ensures { (step : ℕ) (next : Option ℕ) → option_map (λ c. next_link (vehicle_of c)) (car_of yard.now key) ≡ Some next → result ≡ false
        → wishes_with (changing_of road.now step) lane (length_of road.now) (change_gap_to obstacle cell) cell speed next ≡ false }
{
    if is_slow(obstacle, cell, speed) {
        return true;
    }
    zone <= cell && is_unserved(road, lane, yard.next_link(key))
}

/// Whether another lane has room for a vehicle of this speed, beside its cells from its front `cell` to its rear: no cell
/// beside is closed, the gap ahead is above one more than the speed, and the gap behind above 5 cells. `above` is the last key
/// there whose vehicle is above `cell`. A vehicle that covers a cell beside makes a gap 0, so it needs
/// no test of its own.
fn fits(
    yard: &Yard,
    other: RoadLane<'_>,
    above: &Option<Key>,
    cell: CellNo,
    rear: CellNo,
    speed: Speed,
) -> bool
    requires above { IsPosition yard.now other.list.0 cell above.now }
    requires listed { other.list.0 < length yard.now.lists }
    requires rear { rear ≤ cell }
    ensures { TellsRoom yard.now (lane_seen other.entry) cell rear speed result }
{
    yard.whole();
    let RoadLane { list, closures } = other;
    closures.is_open(rear, cell)
        && CellNo::from(speed) + 1 < gap_beside(yard, closures, list, *above, cell).unwrap_or(FAR)
        && CLOSE_BEHIND < gap_behind(yard, list, *above, rear).unwrap_or(FAR)
}

/// Whether the vehicle of a key of the other lane, `above`, which is above the cell there, stands so near that there is no room
/// ahead for one of this speed in the cell beside, whoever else may be between; no where there is no key.
fn is_shut(yard: &Yard, above: &Option<Key>, cell: CellNo, speed: Speed) -> bool
    requires { HasCar yard.now above.now }
    ensures { result ≡ true → IsNear yard.now above.now cell speed }
{
    match above {
        Some(key) => yard.rear(*key).saturating_sub(cell) <= CellNo::from(speed) + 2,
        None => false,
    }
}

/// What a driver decides, and where they have looked.
#[derive(Clone, Copy)]
pub(crate) struct Decision {
    /// The key of the other lane from which on the next driver looks; its vehicle is above the cell beside. `None` is the front.
    pub(crate) above: Option<Key>,
    /// Whether the vehicle goes to the other lane.
    pub(crate) goes: bool,
}

/// The lane from which drivers look, and what all of them go by.
#[derive(Clone, Copy)]
pub(crate) struct Outlook<'a> {
    /// The number of their lane.
    pub(crate) lane: LaneNo,
    /// Their lane.
    pub(crate) own: RoadLane<'a>,
    /// Whether some cell of their lane is closed.
    pub(crate) has_closed: bool,
    /// The first cell of the turn zone.
    pub(crate) zone: CellNo,
    /// The step that their draws are of.
    pub(crate) step: Step,
}

/// Whether the vehicle of a key, with this gap ahead (in cells), goes to the other lane, as [`decide`] tells it of a vehicle
/// that [`may_wish`] lets want it; `above` is as there. Room is looked for before the turns of the lanes, which lie farther
/// away in memory; the draw is asked last.
#[inline]
fn decide_beside(
    yard: &Yard,
    road: &Road<'_>,
    outlook: &Outlook<'_>,
    key: Key,
    gap: CellNo,
    above: Option<Key>,
    dice: &mut Dice,
) -> Decision
    requires lanes { length road.now.lanes ≡ 2 }
    requires lane { outlook.now.lane ≤ 1 }
    requires road { IsRoad yard.now road.now }
    requires dice { dice.old ≡ odds_of road.now.network }
    requires key { list_on yard.now key ≡ Some (lane_of road.now outlook.now.lane).list }
    requires above { IsUpTo yard.now (lane_of road.now (1 - outlook.now.lane)).list (cell_at yard.now key) above }
    ensures above { IsUpTo yard.now (lane_of road.now (1 - outlook.now.lane)).list (cell_at yard.now key) result.above }
    ensures goes { DecidesAt yard.now road.now outlook.now.lane outlook.now.step gap key result.goes }
    ensures dice { dice.new ≡ dice.old }
{
    let cell = yard.cell(key);
    let speed = yard.speed(key);
    let rear = yard.rear(key);
    let other = road.lane(1 - outlook.lane);
    let above = last_above(yard, other.list, above, cell);
    if !fits(yard, other, &above, cell, rear, speed) {
        return Decision { above, goes: false };
    }
    if !wishes(road, outlook.lane, gap, cell, speed, yard.next_link(key)) {
        return Decision { above, goes: false };
    }
    let goes = dice.may_change(key.index(), outlook.step, yard.number(key));
    Decision { above, goes }
}

/// Whether the vehicle of a key goes to the other lane in the step: it wants to, has room there, and its draw lets it. Nobody
/// moves. `ahead` is the rear of the vehicle ahead; `above` is a key of the other lane whose vehicle is above the cell beside,
/// from which on to look there, or `None` to look from the front. The answer has such a key for the next driver too. Nothing of
/// the other lane is read where [`may_wish`] is false, and of that key alone where it [is shut](is_shut).
pub(crate) fn decide(
    yard: &Yard,
    road: &Road<'_>,
    outlook: Outlook<'_>,
    key: Key,
    ahead: Option<CellNo>,
    above: Option<Key>,
    dice: &mut Dice,
) -> Decision
    requires lanes { length road.now.lanes ≡ 2 }
    requires outlook { IsOutlook road.now outlook }
    requires road { IsRoad yard.now road.now }
    requires dice { dice.old ≡ odds_of road.now.network }
    requires key { list_on yard.now key ≡ Some (lane_of road.now outlook.lane).list }
    requires above { IsUpTo yard.now (lane_of road.now (1 - outlook.lane)).list (cell_at yard.now key) above }
    ensures above { IsUpTo yard.now (lane_of road.now (1 - outlook.entry.lane)).list (cell_at yard.now key) result.above }
    ensures goes { Decides yard.now road.now outlook.entry.lane outlook.entry.step ahead key result.goes }
    ensures dice { dice.new ≡ dice.old }
{
    let cell = yard.cell(key);
    let speed = yard.speed(key);
    let obstacle = obstacle_ahead(outlook.own.closures, outlook.has_closed, ahead, cell);
    if !may_wish(
        yard,
        road,
        outlook.lane,
        outlook.zone,
        obstacle,
        cell,
        speed,
        key,
    ) {
        return Decision { above, goes: false };
    }
    yard.whole();
    if is_shut(yard, &above, cell, speed) {
        return Decision { above, goes: false };
    }
    let gap = cells_up_to(obstacle, cell).unwrap_or(FAR);
    decide_beside(yard, road, &outlook, key, gap, above, dice)
}
