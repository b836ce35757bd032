//! Calls of the lanes of a tile; the expected values are reckoned by hand.
ghost use Rattle.std.specs.Prelude.{◌≡◌, ◌<◌, ◌+◌, ◌∷◌, [], length, IfOk};
ghost use Rattle.street_lanes.specs.Prelude.{HasShortPlan};

use std::alloc::{AllocError, Global};
use std::process::Abort;
use std::test::Fail;
use street_base::{
    Car, CarNo, LinkIx, LinkSpec, Listing, NetSpec, NodeSpec, Place, Plan, Size, Step,
};
use street_lanes::{LaneTotals, Lanes};
use street_net::Network;

/// The link, from a node to itself, of five cells.
const LINK: LinkSpec = LinkSpec {
    id: 10,
    from: 1,
    to: 1,
    lanes: 1,
    length: 5,
    limit: 5,
};

/// A network of that link.
fn one_link(alloc: Global) -> Result<NetSpec, AllocError>
    ensures { IfOk result (λ spec. spec.links ≡ LINK ∷ []) }
{
    let node = NodeSpec {
        id: 1,
        residence: 1,
        capacity: 2,
    };
    Ok(NetSpec {
        nodes: Listing::from_vec(Vec::from_slice(alloc, &[node])?),
        links: Listing::from_vec(Vec::from_slice(alloc, &[LINK])?),
        turns: Listing::from_vec(Vec::new(alloc)),
        zone: 0,
        dawdle: 0,
        change: 0,
        seed: 0,
        start: 0,
    })
}

/// The network of that link.
pub(crate) fn network(alloc: Global) -> Result<Network, Fail>
    ensures { IfOk result (λ net. net.links ≡ LINK ∷ []) }
{
    let spec = one_link(alloc)?;
    Ok(Network::build(alloc, &spec)?)
}

/// The lane of the link of such a network, with nobody on it and room for two.
fn lane_of(alloc: Global, net: &Network) -> Result<Lanes, Fail>
    requires { net.now.links ≡ LINK ∷ [] }
{
    let own = [Place {
        link: LinkIx::new(0),
        lane: 0,
    }];
    let mut lanes = Lanes::new(alloc, net, &own)?;
    lanes.reserve(2)?;
    Ok(lanes)
}

/// The lane of the link, with nobody on it and room for two.
pub(crate) fn one_lane(alloc: Global) -> Result<Lanes, Fail> {
    let net = network(alloc)?;
    lane_of(alloc, &net)
}

/// A car on its way over the link, that departs from a step on.
fn car(alloc: Global, number: CarNo, depart: Step) -> Result<Car, AllocError>
    ensures { IfOk result HasShortPlan }
{
    let plan = Vec::from_slice(alloc, &[LinkIx::new(0)])?;
    let Some(size) = Size::new(1) else {
        unreachable!();
    };
    Ok(Car {
        plan: Box::new(alloc, Plan::from_vec(plan))?,
        number,
        cell: 3,
        step: depart,
        at: 0,
        speed: 1,
        size,
    })
}

/// So many are in the cells of the only lane, in its buffer, and wait.
fn counts(rt: &impl Abort, lanes: &Lanes, cells: usize, buffer: usize, waiting: usize) {
    assert!(rt; lanes.len() == 1);
    let all = LaneTotals {
        cells: cells as u64,
        buffers: buffer as u64,
        waiting: waiting as u64,
    };
    assert_eq!(rt; lanes.totals(), all);
}

/// A car with this number waits from now on.
fn admit(
    rt: &(impl Abort + AllocGlobal),
    lanes: &mut Lanes,
    number: CarNo,
    depart: Step,
) -> Result<(), Fail> {
    let car = car(rt.alloc(), number, depart)?;
    lanes.reserve(1)?;
    assert!(rt; lanes.len() == 1);
    lanes.admit(0, car);
    Ok(())
}

/// A step's departures.
fn depart(rt: &impl Abort, lanes: &mut Lanes, clock: Step) {
    assert!(rt; lanes.len() == 1);
    lanes.depart(0, clock);
}

/// Two cars wait: the first for step 7, and the second for step 4.
fn admit_two(rt: &(impl Abort + AllocGlobal), lanes: &mut Lanes) -> Result<(), Fail> {
    admit(rt, lanes, 0, 7)?;
    admit(rt, lanes, 1, 4)
}

/// Two cars wait. The second departs in time, and the first finds cell 0 taken.
fn check_departures(rt: &(impl Abort + AllocGlobal), lanes: &mut Lanes) -> Result<(), Fail> {
    admit_two(rt, lanes)?;
    counts(rt, lanes, 0, 0, 2);
    for (clock, cells, waiting) in [(3, 0, 2), (4, 1, 1), (7, 1, 1)] {
        depart(rt, lanes, clock);
        counts(rt, lanes, cells, 0, waiting);
    }
    Ok(())
}

#[test]
fn the_first_in_the_order_departs_in_time(rt: HostRuntime) -> Result<(), Fail> {
    let mut lanes = one_lane(rt.alloc())?;
    check_departures(&rt, &mut lanes)
}

/// Nobody is on the lane, which is lane 0 of link 0.
fn check_free(rt: &impl Abort, lanes: &Lanes) {
    assert!(rt; lanes.len() == 1);
    let at = lanes.at(0);
    assert_eq!(rt; (at.link.position(), at.lane), (0, 0));
    assert_eq!(rt;
        (lanes.is_open(0), lanes.next_of_front(0, 1).is_none()),
        (true, true)
    );
}

/// A car comes to cell 0. Answers whether it stands there; else it was given back.
pub(crate) fn place(rt: &(impl Abort + AllocGlobal), lanes: &mut Lanes) -> Result<bool, Fail> {
    let car = car(rt.alloc(), 0, 0)?;
    lanes.reserve(1)?;
    assert!(rt; lanes.len() == 1);
    Ok(lanes.place(0, car).is_none())
}

/// Whether the front of the buffer goes.
fn lets_go(rt: &impl Abort, lanes: &mut Lanes) -> bool {
    assert!(rt; lanes.len() == 1);
    lanes.let_go(0).is_some()
}

/// A car comes into cell 0, and does not go; the next one is given back.
fn check_coming(rt: &(impl Abort + AllocGlobal), lanes: &mut Lanes) -> Result<(), Fail> {
    check_free(rt, lanes);
    assert!(rt; place(rt, lanes)?);
    counts(rt, lanes, 1, 0, 0);
    assert!(rt; lanes.len() == 1);
    assert!(rt; !lanes.is_open(0));
    assert!(rt; !lets_go(rt, lanes));
    assert!(rt; !place(rt, lanes)?);
    counts(rt, lanes, 1, 0, 0);
    Ok(())
}

#[test]
fn a_car_that_comes_in_shuts_the_lane(rt: HostRuntime) -> Result<(), Fail> {
    let mut lanes = one_lane(rt.alloc())?;
    check_coming(&rt, &mut lanes)
}

/// Whether the second of the cars that wait is taken out.
fn takes_out(rt: &impl Abort, lanes: &mut Lanes) -> bool {
    assert!(rt; lanes.len() == 1);
    lanes.take_out(0, 1).is_some()
}

/// Two cars wait. The second is taken out, once, and the first departs.
fn check_taking(rt: &(impl Abort + AllocGlobal), lanes: &mut Lanes) -> Result<(), Fail> {
    admit_two(rt, lanes)?;
    assert!(rt; takes_out(rt, lanes));
    assert!(rt; !takes_out(rt, lanes));
    for (clock, cells, waiting) in [(6, 0, 1), (7, 1, 0)] {
        depart(rt, lanes, clock);
        counts(rt, lanes, cells, 0, waiting);
    }
    Ok(())
}

#[test]
fn a_waiting_car_is_taken_out(rt: HostRuntime) -> Result<(), Fail> {
    let mut lanes = one_lane(rt.alloc())?;
    check_taking(&rt, &mut lanes)
}

/// So many cells are closed.
fn check_closed(rt: &impl Abort, lanes: &Lanes, closed: u64, is_open: bool) {
    assert!(rt; lanes.len() == 1);
    assert_eq!(rt;
        (lanes.closed_cells(0), lanes.is_open(0)),
        (closed, is_open)
    );
}

/// Two cells are closed, and then cell 0 is opened.
fn close_and_reopen(rt: &impl Abort, lanes: &mut Lanes) -> Result<(), Fail> {
    assert!(rt; lanes.len() == 1);
    assert!(rt; lanes.length(0) == 5);
    lanes.set_closed(0, 0, 1, true)?;
    check_closed(rt, lanes, 2, false);
    lanes.set_closed(0, 0, 0, false)?;
    check_closed(rt, lanes, 1, true);
    Ok(())
}

#[test]
fn a_closed_cell_0_shuts_the_lane(rt: HostRuntime) -> Result<(), Fail> {
    let mut lanes = one_lane(rt.alloc())?;
    close_and_reopen(&rt, &mut lanes)
}
