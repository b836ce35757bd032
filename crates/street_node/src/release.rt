//! Releases from the buffers of one node: which fronts go, and what becomes of them. `buffers.rt` calls it.
ghost use Rattle.std.specs.Prelude.{◌≡◌, ◌+◌, ◌*◌, ◌<◌, ◌≤◌, false, length, map, option_map, slice_get, vec_len, vec_capacity, IfSome, IsSomeAnd, Some};
ghost use Rattle.street_base.specs.Prelude.{vehicle_of, next_link};
ghost use Rattle.street_net.specs.Prelude.{in_places};
ghost use Rattle.street_yard.specs.Prelude.{car_of, list_on, viewed};
ghost use Rattle.street_node.specs.Prelude.{queue_of, AreListed, HaveShortPlans, way_out, lane_to, IsFront, SendsOn, SendsFront, Releases};

use street_base::{LinkIx, NodeIx, Place, Speed, Step, Turn};
use street_net::{Network, slot};
use street_yard::{CarView, Key, ListId, Yard};

/// A vehicle on its way from a buffer into a lane of its next link.
#[derive(Clone, Copy)]
pub struct Released {
    /// The vehicle's key: on no list, once it was released.
    pub key: Key,
    /// Its turn: the lane that it comes from, and the lane that it enters.
    pub turn: Turn,
}

/// The link after the present one of a car's plan, if there is one.
fn next_link(car: &CarView<'_>) -> Option<LinkIx>
    ensures { result ≡ next_link (vehicle_of (viewed car.now)) }
{
    car.plan.as_slice().get(usize::from(car.at) + 1).copied()
}

/// Who goes first from the buffer of the lane `from`, which is `list`, with its turn, if it is ready in the step `step` and its
/// lane has a turn to its next link. It still stands in the buffer.
fn front_to_go(
    network: &Network,
    yard: &Yard,
    step: Step,
    from: Place,
    list: ListId,
) -> Option<Released>
    requires { list.0 < length yard.now.lists }
    ensures way { option_map lane_to result ≡ way_out network.now step from (slice_get (queue_of yard.now list.0) 0) }
    ensures front { IfSome result (IsFront network.now yard.now from list.0) }
{
    let key = yard.list_front(list)?;
    let car = yard.car(key);
    if car.step > step {
        return None;
    }
    let next = next_link(&car)?;
    let turn = network.turn(from.link, from.lane, next)?;
    Some(Released { key, turn })
}

/// A vehicle leaves its buffer for its next link, whose `limit` bounds its speed: it is loose then, and one link further in its
/// plan. `list`, that of the buffer, is for the contract alone.
fn send_on(yard: &mut Yard, list: ListId, key: Key, limit: Speed)
    requires list { list_on yard.old key ≡ Some list.0 }
    requires next { IsSomeAnd (car_of yard.old key) (λ c. c.at < 65535) }
    ensures { SendsOn yard.old yard.new list.0 key limit }
{
    let car = yard.car(key);
    let speed = car.speed.min(limit);
    let at = car.at + 1;
    yard.set_speed(key, speed);
    yard.set_at(key, at);
    yard.unlink(key);
}

/// A front that is ready, which the caller has seen, leaves its buffer's `list` and is added to `released`, if the mouth that its
/// turn leads to is open, which then closes; else nothing changes. `mouths` are as in `Buffers::release`.
fn release_front(
    network: &Network,
    yard: &mut Yard,
    list: ListId,
    front: &Released,
    mouths: &mut [bool],
    released: &mut Vec<Released>,
)
    requires list { list_on yard.old front.now.key ≡ Some list.0 }
    requires next { IsSomeAnd (car_of yard.old front.now.key) (λ c. c.at < 65535) }
    requires link { front.now.turn.next < length network.now.links }
    requires lane { front.now.turn.next_lane < 2 }
    requires mouths { length mouths.old ≡ 2 * length network.now.links }
    requires room { vec_len released.old < vec_capacity released.old }
    ensures front { SendsFront network.now list.0 front.now yard.old yard.new mouths.old mouths.new released.old.items released.new.items }
    ensures grown { vec_len released.new ≤ vec_len released.old + 1 }
    ensures capacity { vec_capacity released.old ≤ vec_capacity released.new }
{
    let slot = slot(front.turn.next, front.turn.next_lane);
    if !mouths[slot] {
        return;
    }
    mouths[slot] = false;
    let limit = network.limit_of(front.turn.next);
    send_on(yard, list, front.key, limit);
    released.push_reserved(*front);
}

/// Releases from the buffers of a node as `Buffers::release` does: each front that is ready goes, in the order of `lists`, if the
/// mouth of its next lane is open, and closes it. `lists` are the buffers of `Network::in_lanes`, in their order.
pub(crate) fn release_lanes(
    network: &Network,
    node: NodeIx,
    lists: &[ListId],
    yard: &mut Yard,
    step: Step,
    mouths: &mut [bool],
    released: &mut Vec<Released>,
)
    requires node { node < length network.now.nodes }
    requires one_each { length lists.now ≡ length (in_places network.now node) }
    requires lists { AreListed yard.old (map (λ l. l.0) lists.now) }
    requires plans { HaveShortPlans yard.old }
    requires mouths { length mouths.old ≡ 2 * length network.now.links }
    requires room { vec_len released.old + length lists.now ≤ vec_capacity released.old }
    ensures releases { Releases network.now node step (map (λ l. l.0) lists.now) yard.old yard.new mouths.old mouths.new released.old.items released.new.items }
    ensures capacity { vec_capacity released.old ≤ vec_capacity released.new }
{
    yard.whole();
    let _faultless = network.spec();
    let lanes = network.in_lanes(node);
    for k in 0..lanes.len() {
        let list = lists[k];
        if let Some(front) = front_to_go(network, yard, step, lanes[k], list) {
            release_front(network, yard, list, &front, mouths, released);
        }
    }
}
