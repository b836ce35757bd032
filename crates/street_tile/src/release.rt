//! Releases from a tile's own buffers. `step.rt` calls it.
ghost use Rattle.std.specs.Prelude.{◌≡◌, [], ◌+◌, ◌*◌, ◌<◌, ◌≤◌, length, false, Some, vec_len, vec_capacity, IsSome, IfSome};
ghost use Rattle.street_base.specs.Prelude.{Traffic, Queued, next_link};
ghost use Rattle.street_lanes.specs.Prelude.{without_front, IsLane, AllLanes, Same, GoesAt, LanesStand};
ghost use Rattle.street_tile.specs.Prelude.{let_go, entry_on, ReleasePhase, IsTileOf, IsRoads, IsReleasing, HandsOver, Targets, HasFront, ReleasesFront};

use crate::Tile;
use crate::hand_over::HandOver;
use crate::view::View;
use street_base::{Place, Step};
use street_lanes::{Lanes, ListKind};
use street_net::{Network, slot};

/// The lane that the front of buffer `n`, that of own lane `n`, would enter now, if it is ready and has a turn to its next link.
fn lane_for_front(own: &Lanes, net: &Network, n: usize, clock: Step) -> Option<Place>
    requires lane { n < length own.now.lanes }
    requires roads { IsRoads net.now }
    ensures goes { Targets net.now clock own.now n result }
    ensures inside { IfSome result (λ to. IsLane net.now to) }
{
    let next = own.next_of_front(n, clock)?;
    let from = own.at(n);
    let turn = net.turn(from.link, from.lane, next)?;
    Some(Place {
        link: turn.next,
        lane: turn.next_lane,
    })
}

/// Takes the front out of buffer `n` to hand it over to `to`, a lane of its next link: its speed is cut to that link's limit, and
/// its position in the plan moves on. None where the buffer is empty.
fn take_front(own: &mut Lanes, net: &Network, n: usize, to: Place) -> Option<HandOver>
    requires lane { n < length own.old.lanes }
    requires there { IsLane net.now to }
    ensures goes { GoesAt n without_front own.old own.new }
    ensures entry { (q : Queued) → HasFront own.old n q → IsSome (next_link q.vehicle) → result ≡ Some (entry_on net.now q.vehicle to) }
    ensures some { (q : Queued) → HasFront own.old n q → IsSome result }
    ensures room { own.old.room ≤ own.new.room }
{
    let mut car = own.let_go(n)?;
    car.speed = car.speed.min(net.limit_of(to.link));
    if usize::from(car.at) < car.plan.as_slice().len() {
        car.at += 1;
    }
    Some(HandOver { to, car })
}

/// If the mouth of the lane `to` is open, the front of buffer `n` goes there, added to `handed`, and the mouth closes.
fn release_front(
    own: &mut Lanes,
    net: &Network,
    n: usize,
    to: Place,
    mouths: &mut [bool],
    handed: &mut Vec<HandOver>,
)
    requires lane { n < length own.old.lanes }
    requires roads { IsRoads net.now }
    requires there { IsLane net.now to }
    requires wide { length mouths.old ≡ 2 * length net.now.links }
    requires room { vec_len handed.old < vec_capacity handed.old }
    ensures front { ReleasesFront net.now n to own.old own.new mouths.old mouths.new handed.old.items handed.new.items }
    ensures grown { vec_len handed.new ≤ vec_len handed.old + 1 }
    ensures kept { vec_capacity handed.old ≤ vec_capacity handed.new }
{
    let at = slot(to.link, to.lane);
    if !mouths[at] {
        return;
    }
    if let Some(hand_over) = take_front(own, net, n, to) {
        mouths[at] = false;
        handed.push_reserved(hand_over);
    }
}

/// The fronts of the buffers, in their order, go to the lanes whose mouths are open, added to `handed`; a mouth closes behind each.
fn release_lanes(
    own: &mut Lanes,
    net: &Network,
    clock: Step,
    mouths: &mut [bool],
    handed: &mut Vec<HandOver>,
)
    requires roads { IsRoads net.now }
    requires there { AllLanes net.now own.old.places }
    requires wide { length mouths.old ≡ 2 * length net.now.links }
    requires room { vec_len handed.old + length own.old.places ≤ vec_capacity handed.old }
    ensures same { Same own.old own.new }
    ensures room { own.old.room ≤ own.new.room }
    ensures lanes { (m : Traffic) → IsReleasing net.now clock own.old mouths.old m
        → LanesStand own.new.places own.new.lanes (let_go m) }
    ensures handed { HandsOver net.now clock own.old mouths.old handed.old.items handed.new.items }
    ensures kept { vec_capacity handed.old ≤ vec_capacity handed.new }
{
    let mut n = own.next_filled(ListKind::Buffer, 0);
    while n < own.len() {
        if let Some(to) = lane_for_front(own, net, n, clock) {
            release_front(own, net, n, to, mouths, handed);
        }
        n = own.next_filled(ListKind::Buffer, n + 1);
    }
}

impl Tile {
    /// The fronts that go leave the buffers and are handed over. Of the lanes that they enter, which may be other tiles', the
    /// view alone is asked. Takes no memory.
    pub fn phase_release(&mut self, net: &Network, view: &View)
        requires tile { IsTileOf net.now self.old }
        requires empty { self.old.handed ≡ [] }
        requires view { length view.now ≡ 2 * length net.now.links }
        ensures { ReleasePhase net.now view.now self.old self.new }
    {
        self.release_by(net, &view.mouths);
    }

    /// As [`phase_release`](Self::phase_release), by the mouths of a view, as a team shows them to its workers. Takes no memory.
    pub(crate) fn release_by(&mut self, net: &Network, mouths: &[bool])
        requires tile { IsTileOf net.now self.old }
        requires empty { self.old.handed ≡ [] }
        requires wide { length mouths.now ≡ 2 * length net.now.links }
        ensures { ReleasePhase net.now mouths.now self.old self.new }
    {
        self.mouths.copy_from_slice(mouths);
        release_lanes(
            &mut self.own,
            net,
            self.clock,
            &mut self.mouths,
            &mut self.handed,
        );
    }
}
