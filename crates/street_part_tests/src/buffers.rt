//! Releases with values known beforehand.

ghost use Rattle.std.specs.Prelude.{◌≡◌, ◌≤◌, ◌∷◌, [], length, IfOk};
ghost use Rattle.street_base.specs.Prelude.{most_plan};
ghost use Rattle.street_node.specs.Prelude.{AreIn, AreOf, HaveShortPlans};

use crate::nets;
use crate::nets::{link, node, turn};
use std::alloc::{AllocError, Global};
use std::process::Abort;
use std::test::Fail;
use street_base::{Car, CarNo, LinkIx, LinkSpec, Plan, Size, Speed, Step};
use street_net::Network;
use street_node::{Buffers, Released};
use street_yard::{ListId, Yard};

/// Nodes 1 to 4, with buffers of 2; link 10 from 1 and link 20 from 2 run to 3, and turn into link 30 from there to 4, whose
/// limit is given.
fn two_into_one(alloc: Global, limit: u64) -> Result<Network, Fail> {
    let nodes = [node(1), node(2), node(3), node(4)];
    let last = LinkSpec {
        limit,
        ..link(30, 3, 4, 10)
    };
    let links = [link(10, 1, 3, 10), link(20, 2, 3, 6), last];
    nets::network(alloc, &nodes, &links, &[turn(10, 30), turn(20, 30)])
}

/// A vehicle that waits in the buffer of a lane, 0 that of link 10 and 1 that of link 20, with its size in cells.
#[derive(Clone, Copy)]
struct Waiting {
    lane: u16,
    number: CarNo,
    size: u8,
    speed: Speed,
    ready: Step,
}

/// On link 10, ready from step 5.
const LATE: Waiting = Waiting {
    lane: 0,
    number: 0,
    size: 3,
    speed: 4,
    ready: 5,
};

/// On link 20, ready from step 4.
const EARLY: Waiting = Waiting {
    lane: 1,
    number: 1,
    size: 1,
    speed: 3,
    ready: 4,
};

/// The vehicle, of this size, on its way to link 30.
fn car(alloc: Global, waiting: Waiting, size: Size) -> Result<Car, AllocError>
    ensures { IfOk result (λ c. length c.plan.value ≤ most_plan) }
{
    let plan = Vec::from_slice(alloc, &[LinkIx::new(waiting.lane), LinkIx::new(2)])?;
    Ok(Car {
        plan: Box::new(alloc, Plan::from_vec(plan))?,
        number: waiting.number,
        cell: 0,
        step: 0,
        at: 0,
        speed: waiting.speed,
        size,
    })
}

/// The vehicle comes last in its buffer.
fn take_in(
    rt: &(impl Abort + AllocGlobal),
    buffers: &Buffers,
    yard: &mut Yard,
    waiting: Waiting,
) -> Result<(), Fail>
    requires lanes { length buffers.now.lists ≡ 2 }
    requires lists { AreIn yard.old buffers.now }
    requires plans { HaveShortPlans yard.old }
    ensures lists { AreIn yard.new buffers.now }
    ensures plans { HaveShortPlans yard.new }
{
    let lane = usize::from(waiting.lane);
    assert!(rt; lane < 2);
    let Some(size) = Size::new(u64::from(waiting.size)) else {
        return Err(Fail::from("a size is 1 to 4"));
    };
    let car = car(rt.alloc(), waiting, size)?;
    yard.reserve(1)?;
    let key = yard.admit_reserved(car);
    assert!(rt; buffers.has_room(yard, lane));
    buffers.take_in(yard, lane, key, waiting.ready);
    Ok(())
}

/// All come into their buffers, in order.
fn fill(
    rt: &(impl Abort + AllocGlobal),
    buffers: &Buffers,
    yard: &mut Yard,
    waiting: &[Waiting],
) -> Result<(), Fail>
    requires lanes { length buffers.now.lists ≡ 2 }
    requires lists { AreIn yard.old buffers.now }
    requires plans { HaveShortPlans yard.old }
    ensures lists { AreIn yard.new buffers.now }
    ensures plans { HaveShortPlans yard.new }
{
    for next in waiting {
        take_in(rt, buffers, yard, *next)?;
    }
    Ok(())
}

/// A vehicle that went: its number and size, the position of the link that it left, its speed, and its position in its plan.
#[derive(PartialEq, Eq, Clone, Copy)]
struct Went {
    number: CarNo,
    size: u8,
    from: usize,
    speed: Speed,
    at: u16,
}

/// Who went, in order.
fn told(
    rt: &(impl Abort + AllocGlobal),
    yard: &Yard,
    released: &[Released],
) -> Result<Vec<Went>, Fail> {
    let mut went = Vec::new(rt.alloc());
    for front in released {
        assert!(rt; yard.is_loose(front.key));
        let car = yard.car(front.key);
        went.push(Went {
            number: car.number,
            size: car.size.cells(),
            from: front.turn.link.position(),
            speed: car.speed,
            at: car.at,
        })?;
    }
    Ok(went)
}

/// What a release did.
#[derive(Drop)]
struct Outcome {
    went: Vec<Went>,
    /// Whether the mouth of link 30 is open after it.
    is_open: bool,
    /// Whether the buffer of link 10 had room before it, and has after it.
    has_room: (bool, bool),
}

/// A release in this step from buffers of two lanes, into which those who wait come first.
fn release_from(
    rt: &(impl Abort + AllocGlobal),
    network: &Network,
    buffers: &Buffers,
    yard: &mut Yard,
    waiting: &[Waiting],
    step: Step,
    is_open: bool,
) -> Result<Outcome, Fail>
    requires links { length network.now.links ≡ 3 }
    requires lanes { length buffers.now.lists ≡ 2 }
    requires of { AreOf network.now buffers.now }
    requires lists { AreIn yard.old buffers.now }
    requires plans { HaveShortPlans yard.old }
{
    fill(rt, buffers, yard, waiting)?;
    let had_room = buffers.has_room(yard, 0);
    let mut mouths = [is_open; 6];
    let mut released = Vec::with_capacity(rt.alloc(), 2)?;
    buffers.release(network, yard, step, &mut mouths, &mut released);
    let went = told(rt, yard, &released)?;
    Ok(Outcome {
        went,
        is_open: mouths[4],
        has_room: (had_room, buffers.has_room(yard, 0)),
    })
}

/// The buffers of node 3, empty, in a yard of two lists.
fn buffers_of(rt: &(impl Abort + AllocGlobal), network: &Network) -> Result<Buffers, Fail>
    ensures lists { IfOk result (λ buffers. buffers.lists ≡ 0 ∷ 1 ∷ []) }
    ensures of { IfOk result (AreOf network.now) }
{
    let Some(node) = network.node_of(3) else {
        return Err(Fail::from("node 3 is there"));
    };
    assert!(rt; network.in_lanes(node).len() == 2);
    let lists = Vec::from_slice(rt.alloc(), &[ListId(0), ListId(1)])?;
    Ok(Buffers::new(network, node, lists))
}

/// A release in this step from these buffers, which are empty at first.
fn release_at(
    rt: &(impl Abort + AllocGlobal),
    network: &Network,
    buffers: &Buffers,
    waiting: &[Waiting],
    step: Step,
    is_open: bool,
) -> Result<Outcome, Fail>
    requires links { length network.now.links ≡ 3 }
    requires lists { buffers.now.lists ≡ 0 ∷ 1 ∷ [] }
    requires of { AreOf network.now buffers.now }
{
    let mut yard = Yard::new(rt.alloc(), 2)?;
    release_from(rt, network, buffers, &mut yard, waiting, step, is_open)
}

/// A release at node 3 in this step.
fn release(
    rt: &(impl Abort + AllocGlobal),
    network: &Network,
    waiting: &[Waiting],
    step: Step,
    is_open: bool,
) -> Result<Outcome, Fail> {
    assert!(rt; network.spec().links.as_slice().len() == 3);
    let buffers = buffers_of(rt, network)?;
    release_at(rt, network, &buffers, waiting, step, is_open)
}

/// In this step these went, and the mouth of link 30 is now open or not; whether the buffer of link 10 had room, and has.
fn check_outcome(
    rt: &impl Abort,
    outcome: &Outcome,
    step: Step,
    went: &[Went],
    is_open: bool,
    has_room: (bool, bool),
) {
    let holds = outcome.went.as_slice() == went
        && outcome.is_open == is_open
        && outcome.has_room == has_room;
    assert!(rt; holds, "in step {step}");
}

const FIRST: Went = Went {
    number: 0,
    size: 3,
    from: 0,
    speed: 4,
    at: 1,
};

const SECOND: Went = Went {
    number: 1,
    size: 1,
    from: 1,
    speed: 3,
    at: 1,
};

/// In this step those go, and the mouth of link 30 is then open or not; the buffer of link 10 has room before and after.
fn check_release(
    rt: &(impl Abort + AllocGlobal),
    network: &Network,
    waiting: &[Waiting],
    step: Step,
    was_open: bool,
    went: &[Went],
    is_open: bool,
) -> Result<(), Fail> {
    let outcome = release(rt, network, waiting, step, was_open)?;
    check_outcome(rt, &outcome, step, went, is_open, (true, true));
    Ok(())
}

/// Releases where both wait, and where only the second does.
fn check_order(rt: &(impl Abort + AllocGlobal), network: &Network) -> Result<(), Fail> {
    let cases = [
        (3, true, [].as_slice(), true),
        (4, true, [SECOND].as_slice(), false),
        (6, false, [].as_slice(), false),
        (6, true, [FIRST].as_slice(), false),
    ];
    for (step, was_open, went, is_open) in cases {
        check_release(rt, network, &[EARLY, LATE], step, was_open, went, is_open)?;
    }
    check_release(rt, network, &[EARLY], 7, true, &[SECOND], false)
}

#[test]
fn lanes_go_in_order(rt: HostRuntime) -> Result<(), Fail> {
    let network = two_into_one(rt.alloc(), 5)?;
    check_order(&rt, &network)
}

/// A full buffer lets its first go, and then has room.
fn check_queue(rt: &(impl Abort + AllocGlobal), network: &Network) -> Result<(), Fail> {
    let third = Waiting { number: 2, ..LATE };
    let slower = Went { speed: 2, ..FIRST };
    let outcome = release(rt, network, &[LATE, third], 5, true)?;
    check_outcome(rt, &outcome, 5, &[slower], false, (false, true));
    Ok(())
}

#[test]
fn buffers_are_queues(rt: HostRuntime) -> Result<(), Fail> {
    let network = two_into_one(rt.alloc(), 2)?;
    check_queue(&rt, &network)
}
