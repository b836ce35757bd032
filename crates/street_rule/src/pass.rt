//! The lane pass: first who goes is marked, then the marked ones go. `street_lanes` calls it for each link of two lanes.
//!
//! Source: Rickert, Nagel, Schreckenberg and Latour 1996: all decide by where the others stood before.
ghost use Rattle.std.specs.Prelude.{◌≡◌, ◌<◌, ◌≤◌, ◌-◌, length, Some, None, false, IsSome};
ghost use Rattle.street_base.specs.Prelude.{changes};
ghost use Rattle.street_rule.specs.Prelude.{lane_of, lists_of, IsRoad, odds_of, MarksChanges, Changes, KeepsRest, HasNoMarks};
ghost use Rattle.street_yard.specs.Prelude.{list_at, entry_at, mark_set, first_or};

use crate::Dice;
use crate::relinks::relink;
use crate::road::Road;
use crate::sight::{Outlook, decide, zone_begin};
use street_base::{LaneNo, Step};
use street_yard::{Key, Yard};

/// Gives a key the mark of one that changes lane, or takes it, as `mark` says. Few change lane, so that mostly nothing is to be
/// written.
fn set_mark(yard: &mut Yard, key: Key, mark: bool)
    requires { IsSome (entry_at yard.old key) }
    ensures { yard.new ≡ record yard.old { kept = mark_set yard.old.kept key mark } }
{
    if yard.is_marked(key) != mark {
        yard.set_mark(key, mark);
    }
}

/// Marks the vehicles of one lane as [`mark_pass`] does, and answers the same, where there are some: `front` is the first. It
/// stands apart, so that a lane without vehicles costs no call.
#[inline(never)]
fn mark_from(
    yard: &mut Yard,
    road: &Road<'_>,
    lane: LaneNo,
    front: Key,
    step: Step,
    dice: &mut Dice,
) -> bool
    requires lanes { length road.now.lanes ≡ 2 }
    requires lane { lane ≤ 1 }
    requires road { IsRoad yard.old road.now }
    requires dice { dice.old ≡ odds_of road.now.network }
    requires front { Some front ≡ first_or (list_at yard.old (lane_of road.now lane).list) None }
    ensures marks { MarksChanges yard.old yard.new road.now lane step }
    ensures none { result ≡ false → HasNoMarks yard.new (lane_of road.now lane).list }
    ensures dice { dice.new ≡ dice.old }
{
    yard.whole();
    let own = road.lane(lane);
    let outlook = Outlook {
        lane,
        own,
        has_closed: !own.closures.is_empty(),
        zone: zone_begin(road),
        step,
    };
    let mut goes = false;
    let mut above = None;
    let mut ahead = None;
    let mut cursor = Some(front);
    while let Some(key) = cursor {
        let decision = decide(yard, road, outlook, key, ahead, above, dice);
        above = decision.above;
        ahead = Some(yard.rear(key));
        goes |= decision.goes;
        set_mark(yard, key, decision.goes);
        cursor = yard.behind(key);
    }
    goes
}

/// Marks each vehicle of one lane that goes to the other in the step, and takes the mark of each that stays; nobody moves yet.
/// Answers whether there is one that goes.
fn mark_pass(yard: &mut Yard, road: &Road<'_>, lane: LaneNo, step: Step, dice: &mut Dice) -> bool
    requires lanes { length road.now.lanes ≡ 2 }
    requires lane { lane ≤ 1 }
    requires road { IsRoad yard.old road.now }
    requires dice { dice.old ≡ odds_of road.now.network }
    ensures marks { MarksChanges yard.old yard.new road.now lane step }
    ensures none { result ≡ false → HasNoMarks yard.new (lane_of road.now lane).list }
    ensures dice { dice.new ≡ dice.old }
{
    match yard.list_front(road.lane(lane).list) {
        Some(front) => mark_from(yard, road, lane, front, step, dice),
        None => false,
    }
}

/// The lane changes of one link in one step, all decided from where the vehicles stood before. On a link of one lane nobody
/// changes. Takes no memory, and time in proportion to the vehicles on the link.
///
/// `dice` are those of the road's network.
pub fn lane_pass(yard: &mut Yard, road: &Road<'_>, step: Step, dice: &mut Dice)
    requires road { IsRoad yard.old road.now }
    requires dice { dice.old ≡ odds_of road.now.network }
    ensures changes { Changes yard.old yard.new road.now step }
    ensures road { IsRoad yard.new road.now }
    ensures rest { KeepsRest yard.old yard.new (lists_of road.now) }
    ensures dice { dice.new ≡ dice.old }
{
    yard.whole();
    if road.lanes() < 2 || road.network().spec().change == 0 {
        return;
    }
    let first = road.lane(0).list;
    let second = road.lane(1).list;
    let goes_over = mark_pass(yard, road, 0, step, dice);
    let comes_over = mark_pass(yard, road, 1, step, dice);
    if !goes_over && !comes_over {
        return;
    }
    relink(yard, first, second);
    relink(yard, second, first);
}
