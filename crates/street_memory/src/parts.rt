//! Calls of the parts of a step that take no memory. All that they need is made before the first of them, so where every request
//! from then on is refused, each is made without memory; it is answered as it should be whatever is refused.
ghost use Rattle.std.specs.Prelude.{◌≡◌, ◌<◌, ◌≤◌, ◌∷◌, [], IfOk, IfSome, length};
ghost use Rattle.street_meter.specs.Meter.{next_step};
ghost use Rattle.street_lanes.specs.Prelude.{HasShortPlan};

use std::alloc::{AllocError, Global};
use street_base::{
    Car, CarNo, GreenSpec, LinkIx, LinkSpec, Listing, NetSpec, NodeIx, NodeSpec, PhaseSpec, Place,
    Plan, Size, Starved, Step, TurnSpec,
};
use street_gap::{Closures, gap_ahead, gap_behind, gap_beside};
use street_lanes::{LaneTotals, Lanes};
use street_meter::{Meter, MeterSite};
use street_net::Network;
use street_node::SignalPlan;
use street_rule::{Dice, draw};
use street_yard::{Key, ListId, Yard};

/// A node with this identifier, whose buffers have room for two.
fn node(id: u64) -> NodeSpec {
    NodeSpec {
        id,
        residence: 1,
        capacity: 2,
    }
}

/// A link of one lane of 10 cells.
fn link(id: u64, from: u64, to: u64) -> LinkSpec {
    LinkSpec {
        id,
        from,
        to,
        lanes: 1,
        length: 10,
        limit: 5,
    }
}

/// Nodes 1 to 3, links 10 and 20 one after the other, and the turn between them.
fn two_links(alloc: Global) -> Result<NetSpec, AllocError> {
    let turn = TurnSpec {
        link: 10,
        lane: 0,
        next: 20,
        next_lane: 0,
    };
    Ok(NetSpec {
        nodes: Listing::from_vec(Vec::from_slice(alloc, &[node(1), node(2), node(3)])?),
        links: Listing::from_vec(Vec::from_slice(alloc, &[link(10, 1, 2), link(20, 2, 3)])?),
        turns: Listing::from_vec(Vec::from_slice(alloc, &[turn])?),
        zone: 0,
        dawdle: 0,
        change: 0,
        seed: 0,
        start: 0,
    })
}

fn network(alloc: Global) -> Option<Network> {
    let spec = two_links(alloc).ok()?;
    Network::build(alloc, &spec).ok()
}

/// Look-ups of a link, by its position and that of the next.
fn are_linked(net: &Network, link: LinkIx, next: LinkIx, node: NodeIx) -> bool
    requires { (link < length net.now.links) × (node < length net.now.nodes) }
{
    let sizes = net.length_of(link) == 10 && net.limit_of(link) == 5 && net.lanes_of(link) == 1;
    let way = net.serves(link, 0, next) && !net.serves(next, 0, link);
    let turn = net.turn(link, 0, next).is_some();
    sizes
        && way
        && turn
        && net.end_of(link).position() == node.position()
        && net.in_lanes(node).len() == 1
}

/// Look-ups in the network.
fn are_found(net: &Network) -> bool {
    let (Some(link), Some(next), Some(node)) = (net.link_of(10), net.link_of(20), net.node_of(2))
    else {
        return false;
    };
    let plans = net.plan_refusal(&[10, 20], 0).is_none()
        && net.plan_refusal(&[20, 10], 0).is_some();
    plans && are_linked(net, link, next, node)
}

/// A plan of five steps of red and five of green for the turn at node 2.
fn plan(alloc: Global, net: &Network) -> Option<SignalPlan> {
    let green = GreenSpec {
        link: 10,
        lane: 0,
        next: 20,
    };
    let mut phases = Vec::new(alloc);
    for greens in [[].as_slice(), [green].as_slice()] {
        let greens = Vec::from_slice(alloc, greens).ok()?;
        let phase = PhaseSpec {
            duration: 5,
            greens: Listing::from_vec(greens),
        };
        phases.push(phase).ok()?;
    }
    let node = net.node_of(2)?;
    SignalPlan::build(alloc, net, node, 0, phases.as_slice()).ok()
}

/// The plan is red, and then green.
fn is_shown(net: &Network, plan: &SignalPlan) -> bool {
    let (Some(link), Some(next)) = (net.link_of(10), net.link_of(20)) else {
        return false;
    };
    match net.turn(link, 0, next) {
        Some(turn) => plan.cycle() == 10 && !plan.is_green(&turn, 4) && plan.is_green(&turn, 5),
        None => false,
    }
}

/// Draws of seed 0 that other implementations of the cipher gave: of vehicle 0 first 679 and then 563. Odds at a draw say no,
/// and odds above it yes.
fn are_drawn(dice: &mut Dice) -> bool {
    let told = draw(0, 0, 0) == 679 && draw(0, 0, 1) == 563 && draw(0, 1, 0) == 839;
    let first = dice.dawdles(0, 0, 0) && !dice.may_change(1, 0, 0);
    dice.put_aside(0);
    dice.follow(0, 1);
    let again = dice.dawdles(1, 0, 0) && !dice.may_change(0, 0, 0);
    told && first && again
}

/// A car passes in the second of three steps.
fn note(meter: &mut Meter)
    requires { next_step meter.old ≡ 0 }
{
    meter.note(0, 0, 1);
    meter.note(1, 3, 0);
    meter.note(0, 0, 0);
}

/// A meter in cell 3 of the first link.
fn meter(alloc: Global) -> Option<Meter>
    ensures { IfSome result (λ meter. next_step meter ≡ 0) }
{
    let at = Place {
        link: LinkIx::new(0),
        lane: 0,
    };
    let site = MeterSite { at, cell: 3 };
    Meter::new(alloc, site, 2, 0).ok()
}

/// A car of one cell with its front in this cell.
fn car(alloc: Global, number: CarNo, cell: u32, step: Step) -> Option<Car>
    ensures { IfSome result HasShortPlan }
{
    let plan = Vec::from_slice(alloc, &[LinkIx::new(0)]).ok()?;
    let size = Size::new(1)?;
    let plan = Box::new(alloc, Plan::from_vec(plan)).ok()?;
    Some(Car {
        plan,
        number,
        cell,
        step,
        at: 0,
        speed: 1,
        size,
    })
}

/// A yard of two lists, with room for three.
fn yard(alloc: Global) -> Option<Yard>
    ensures { IfSome result (λ yard. length yard.lists ≡ 2) }
{
    let mut yard = Yard::new(alloc, 2).ok()?;
    yard.reserve(3).ok()?;
    Some(yard)
}

/// A car comes last on a list.
fn push(yard: &mut Yard, list: ListId, car: Car) -> Option<Key>
    requires { list.0 < length yard.old.lists }
    ensures { length yard.new.lists ≡ length yard.old.lists }
{
    if yard.room() == 0 {
        return None;
    }
    let key = yard.admit_reserved(car);
    if !yard.is_loose(key) {
        return None;
    }
    yard.push_back(list, key);
    Some(key)
}

/// The gaps of two cars of list 0, in cells 9 and 2, where cells 5 and 6 are closed.
fn are_gaps(yard: &Yard, closures: &Closures, front: Key, back: Key) -> bool
    requires { 0 < length yard.now.lists }
{
    let (Some(list), Some(same)) = (yard.list_of(front), yard.list_of(back)) else {
        return false;
    };
    if list.0 != 0 || same.0 != 0 {
        return false;
    }
    let ahead = gap_ahead(yard, closures, front).is_none()
        && gap_ahead(yard, closures, back) == Some(2);
    let beside = gap_beside(yard, closures, list, Some(front), 6) == Some(2);
    let behind = gap_behind(yard, list, Some(front), 7) == Some(4);
    ahead && beside && behind
}

/// What is closed.
fn are_closed(closures: &Closures) -> bool {
    let counts = closures.count_closed() == 2 && closures.stretches().len() == 1;
    let looks = closures.entrance_after(0) == Some(5) && closures.entrance_after(6).is_none();
    counts && looks && closures.is_closed(5) && !closures.is_closed(7) && !closures.is_empty()
}

/// The back one goes to the other list, and leaves the yard; the front one stays.
fn go(yard: &mut Yard, front: Key, back: Key) -> bool
    requires { length yard.old.lists ≡ 2 }
{
    if yard.list_of(back) != Some(ListId(0)) || yard.unlink(back) != ListId(0) {
        return false;
    }
    if !yard.is_loose(back) {
        return false;
    }
    yard.insert_behind(ListId(1), None, back);
    if yard.list_of(back) != Some(ListId(1)) || yard.unlink(back) != ListId(1) {
        return false;
    }
    let walks = yard.list_front(ListId(0)) == Some(front)
        && yard.list_back(ListId(0)) == Some(front);
    let counts = yard.list_len(ListId(0)) == 1 && yard.list_len(ListId(1)) == 0;
    if !yard.is_loose(back) {
        return false;
    }
    walks && counts && yard.take(back).number == 1
}

/// Two cars come into the yard, are seen, and one leaves.
fn are_listed(yard: &mut Yard, closures: &Closures, cars: (Car, Car)) -> bool
    requires { length yard.old.lists ≡ 2 }
{
    let (first, second) = cars;
    let (Some(front), Some(back)) = (push(yard, ListId(0), first), push(yard, ListId(0), second))
    else {
        return false;
    };
    let seen = are_gaps(yard, closures, front, back);
    seen && go(yard, front, back)
}

/// Look-ups in a network and in a signal plan.
fn roads(alloc: Global) -> Option<bool> {
    let net = network(alloc)?;
    let plan = plan(alloc, &net)?;
    Some(are_found(&net) && is_shown(&net, &plan))
}

/// Draws, and what is kept of them.
fn draws(alloc: Global) -> Option<bool> {
    let mut dice = Dice::new(alloc, 0, 564, 679, 2).ok()?;
    Some(are_drawn(&mut dice))
}

/// Lists of an arena, and gaps on them.
fn cells(alloc: Global) -> Option<bool> {
    let mut closures = Closures::new(alloc);
    closures.close(5, 6).ok()?;
    let mut yard = yard(alloc)?;
    let cars = (car(alloc, 0, 9, 0)?, car(alloc, 1, 2, 0)?);
    Some(are_closed(&closures) && are_listed(&mut yard, &closures, cars))
}

/// What a meter notes.
fn notes(alloc: Global) -> Option<bool> {
    let mut meter = meter(alloc)?;
    note(&mut meter);
    Some(meter.period() == 2)
}

// ---- the lanes of a tile

/// A link from a node to itself.
const LOOP: LinkSpec = LinkSpec {
    id: 10,
    from: 1,
    to: 1,
    lanes: 1,
    length: 5,
    limit: 5,
};

fn one_link(alloc: Global) -> Result<NetSpec, AllocError>
    ensures { IfOk result (λ spec. spec.links ≡ LOOP ∷ []) }
{
    Ok(NetSpec {
        nodes: Listing::from_vec(Vec::from_slice(alloc, &[node(1)])?),
        links: Listing::from_vec(Vec::from_slice(alloc, &[LOOP])?),
        turns: Listing::from_vec(Vec::new(alloc)),
        zone: 0,
        dawdle: 0,
        change: 0,
        seed: 0,
        start: 0,
    })
}

fn one_link_network(alloc: Global) -> Result<Network, Starved>
    ensures { IfOk result (λ net. net.links ≡ LOOP ∷ []) }
{
    let spec = one_link(alloc)?;
    match Network::build(alloc, &spec) {
        Ok(net) => Ok(net),
        Err(_fault) => Err(Starved),
    }
}

/// The lane of the link, with room for three.
fn lane_of(alloc: Global, net: &Network) -> Result<Lanes, Starved>
    requires { net.now.links ≡ LOOP ∷ [] }
    ensures { IfOk result (λ lanes. 3 ≤ lanes.room) }
{
    let own = [Place {
        link: LinkIx::new(0),
        lane: 0,
    }];
    let mut lanes = Lanes::new(alloc, net, &own)?;
    lanes.reserve(3)?;
    Ok(lanes)
}

fn one_lane(alloc: Global) -> Result<Lanes, Starved>
    ensures { IfOk result (λ lanes. 3 ≤ lanes.room) }
{
    let net = one_link_network(alloc)?;
    lane_of(alloc, &net)
}

/// So many are in the cells of the only lane, and wait.
fn are_counted(lanes: &Lanes, cells: usize, waiting: usize) -> bool {
    let all = LaneTotals {
        cells: cells as u64,
        buffers: 0,
        waiting: waiting as u64,
    };
    lanes.totals() == all
}

/// Two vehicles wait; the second departs in step 4, and the first is taken out.
fn are_served(lanes: &mut Lanes, first: Car, second: Car) -> bool
    requires lane { 0 < length lanes.old.lanes }
    requires room { 2 ≤ lanes.old.room }
    requires first { HasShortPlan first }
    requires second { HasShortPlan second }
{
    lanes.admit(0, first);
    lanes.admit(0, second);
    let all_wait = are_counted(lanes, 0, 2);
    lanes.depart(0, 4);
    let one_waits = are_counted(lanes, 1, 1) && lanes.is_covered(0, 0) && !lanes.is_open(0);
    let taken = lanes.take_out(0, 0).is_some();
    let stays = lanes.let_go(0).is_none() && lanes.next_of_front(0, 9).is_none();
    all_wait && one_waits && taken && stays && are_counted(lanes, 1, 0)
}

/// A vehicle comes into cell 0 of the lane.
fn comes(lanes: &mut Lanes, car: Car) -> bool
    requires lane { 0 < length lanes.old.lanes }
    requires room { 1 ≤ lanes.old.room }
    requires short { HasShortPlan car }
{
    lanes.place(0, car).is_none()
}

/// Calls of the lanes of a tile.
fn lanes(alloc: Global) -> Option<bool> {
    let mut one = one_lane(alloc).ok()?;
    let mut other = one_lane(alloc).ok()?;
    let first = car(alloc, 0, 3, 7)?;
    let second = car(alloc, 1, 3, 4)?;
    let third = car(alloc, 2, 3, 0)?;
    if one.len() != 1 || other.len() != 1 {
        return Some(false);
    }
    Some(are_served(&mut one, first, second) && comes(&mut other, third))
}

/// Whether all calls are answered as they should be; nothing where every request was refused from some point on.
pub(crate) fn parts_without(alloc: Global) -> Option<bool> {
    let roads = roads(alloc).or_else(|| roads(alloc))?;
    let draws = draws(alloc).or_else(|| draws(alloc))?;
    let cells = cells(alloc).or_else(|| cells(alloc))?;
    let notes = notes(alloc).or_else(|| notes(alloc))?;
    let lanes = lanes(alloc).or_else(|| lanes(alloc))?;
    Some(roads && draws && cells && notes && lanes)
}
