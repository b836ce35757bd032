//! Loads with and without a fault, look-ups, and plans.

use crate::nets;
use crate::nets::{link, node, turn};
use std::alloc::{AllocError, Global};
use std::process::Abort;
use std::test::Fail;
use street_base::{LaneNo, LinkIx, LinkSpec, NetSpec, NodeSpec, Part, Plan, Speed, TurnSpec};
use street_net::{NetFault, Network, PlanFault};

/// A load of two nodes, two links and two turns.
#[derive(Clone, Copy)]
struct Small {
    nodes: (NodeSpec, NodeSpec),
    links: (LinkSpec, LinkSpec),
    turns: (TurnSpec, TurnSpec),
    zone: u64,
    dawdle: u64,
    change: u64,
    start: u64,
}

/// Nodes 7 and 9; links 30 and 40, from and to node 7; from link 30 to link 40, and to itself.
const GOOD: Small = Small {
    nodes: (
        NodeSpec {
            id: 7,
            residence: 60,
            capacity: 1,
        },
        NodeSpec {
            id: 9,
            residence: 1,
            capacity: 64,
        },
    ),
    links: (
        LinkSpec {
            id: 30,
            from: 7,
            to: 7,
            lanes: 1,
            length: 1,
            limit: 1,
        },
        LinkSpec {
            id: 40,
            from: 7,
            to: 7,
            lanes: 2,
            length: 1_000_000,
            limit: 5,
        },
    ),
    turns: (
        TurnSpec {
            link: 30,
            lane: 0,
            next: 40,
            next_lane: 0,
        },
        TurnSpec {
            link: 30,
            lane: 0,
            next: 30,
            next_lane: 0,
        },
    ),
    zone: 1_000,
    dawdle: 1_000,
    change: 1_000,
    start: 1_000_000_000,
};

impl Small {
    fn with_second_node(id: u64, residence: u64, capacity: u64) -> Small {
        Small {
            nodes: (
                GOOD.nodes.0,
                NodeSpec {
                    id,
                    residence,
                    capacity,
                },
            ),
            ..GOOD
        }
    }

    fn with_second_link(second: LinkSpec) -> Small {
        Small {
            links: (GOOD.links.0, second),
            ..GOOD
        }
    }

    fn with_second_turn(next: u64, next_lane: u64) -> Small {
        let second = TurnSpec {
            next,
            next_lane,
            ..GOOD.turns.1
        };
        Small {
            turns: (GOOD.turns.0, second),
            ..GOOD
        }
    }

    fn load(&self, alloc: Global) -> Result<NetSpec, AllocError> {
        let mut load = nets::load(
            alloc,
            &[self.nodes.0, self.nodes.1],
            &[self.links.0, self.links.1],
            &[self.turns.0, self.turns.1],
        )?;
        load.zone = self.zone;
        load.dawdle = self.dawdle;
        load.change = self.change;
        load.seed = u64::MAX;
        load.start = self.start;
        Ok(load)
    }
}

/// Where the first fault of a load is.
fn first_fault(alloc: Global, load: Small) -> Result<(Part, u64), Fail> {
    match Network::build(alloc, &load.load(alloc)?).err() {
        Some(NetFault::Bad { part, at }) => Ok((part, at)),
        _ => Err(Fail::from("no fault is told")),
    }
}

/// The first fault of a load is in this part, at this position.
fn check_fault(
    rt: &(impl Abort + AllocGlobal),
    load: Small,
    part: Part,
    at: u64,
) -> Result<(), Fail> {
    assert!(rt; first_fault(rt.alloc(), load)? == (part, at));
    Ok(())
}

#[test]
fn finds_first_bad_nodes(rt: HostRuntime) -> Result<(), Fail> {
    let bad = [
        Small::with_second_node(7, 1, 64),
        Small::with_second_node(1 << 32, 1, 64),
        Small::with_second_node(9, 61, 64),
        Small::with_second_node(9, 1, 0),
    ];
    for load in bad {
        check_fault(&rt, load, Part::Nodes, 1)?;
    }
    Ok(())
}

#[test]
fn finds_first_bad_links(rt: HostRuntime) -> Result<(), Fail> {
    let good = GOOD.links.1;
    let bad = [
        LinkSpec { id: 30, ..good },
        LinkSpec { from: 8, ..good },
        LinkSpec { to: 8, ..good },
        LinkSpec { lanes: 3, ..good },
        LinkSpec {
            length: 1_000_001,
            ..good
        },
        LinkSpec { limit: 6, ..good },
    ];
    for second in bad {
        check_fault(&rt, Small::with_second_link(second), Part::Links, 1)?;
    }
    Ok(())
}

#[test]
fn finds_first_bad_turns(rt: HostRuntime) -> Result<(), Fail> {
    let apart = LinkSpec {
        from: 9,
        ..GOOD.links.1
    };
    let bad = [
        (Small::with_second_link(apart), 0),
        (Small::with_second_turn(40, 0), 1),
        (Small::with_second_turn(30, 1), 1),
    ];
    for (load, at) in bad {
        check_fault(&rt, load, Part::Turns, at)?;
    }
    Ok(())
}

#[test]
fn finds_first_bad_values(rt: HostRuntime) -> Result<(), Fail> {
    let bad = [
        Small {
            zone: 1_001,
            ..GOOD
        },
        Small {
            dawdle: 1_001,
            ..GOOD
        },
        Small {
            change: 1_001,
            ..GOOD
        },
        Small {
            start: 1_000_000_001,
            ..GOOD
        },
    ];
    for (at, load) in bad.iter().enumerate() {
        check_fault(&rt, *load, Part::Values, at as u64)?;
    }
    Ok(())
}

/// The positions of node 9 and of link 40, if both are there.
fn positions(net: &Network) -> Option<(usize, usize)> {
    let (node, link) = (net.node_of(9)?, net.link_of(40)?);
    Some((node.position(), link.position()))
}

/// What is found in that good network.
fn check_look_ups(rt: &impl Abort, net: &Network) {
    assert!(rt; net.spec().seed == u64::MAX && positions(net) == Some((1, 1)));
}

#[test]
fn looks_up(rt: HostRuntime) -> Result<(), Fail> {
    let net = good(rt.alloc())?;
    check_look_ups(&rt, &net);
    Ok(())
}

/// What is answered to a plan.
#[derive(Clone, Copy, PartialEq, Eq)]
enum Answer {
    /// It is taken, and begins with the link at this position.
    From(usize),
    /// It is taken, and is empty.
    Nowhere,
    /// It is bad at this position.
    Bad(u64),
    /// The first link has no such lane.
    NoLane,
    /// Out of memory.
    Starved,
}

/// What is told of a refused plan.
fn refusal(fault: PlanFault) -> Answer {
    match fault {
        PlanFault::Bad { at } => Answer::Bad(at),
        PlanFault::Lane => Answer::NoLane,
        PlanFault::Starved => Answer::Starved,
    }
}

fn told(outcome: Result<Plan, PlanFault>) -> Answer {
    match outcome {
        Ok(links) => match links.as_slice().first() {
            Some(link) => Answer::From(link.position()),
            None => Answer::Nowhere,
        },
        Err(fault) => refusal(fault),
    }
}

/// That good network.
fn good(alloc: Global) -> Result<Network, Fail> {
    let load = GOOD.load(alloc)?;
    Ok(Network::build(alloc, &load)?)
}

/// A plan that begins in this lane is answered so.
fn check_answer(
    rt: &(impl Abort + AllocGlobal),
    net: &Network,
    plan: &[u64],
    lane: u64,
    wanted: Answer,
) {
    assert!(rt; told(net.check_plan(rt.alloc(), plan, lane)) == wanted);
}

/// What is answered to plans on that good network.
fn check_plans(rt: &(impl Abort + AllocGlobal), net: &Network) {
    let plans: [(&[u64], u64, Answer); 4] = [
        (&[40], 1, Answer::From(1)),
        (&[], 1, Answer::Bad(0)),
        (&[40, 40], 1, Answer::Bad(1)),
        (&[40], 2, Answer::NoLane),
    ];
    for (plan, lane, wanted) in plans {
        check_answer(rt, net, plan, lane, wanted);
    }
}

#[test]
fn plans(rt: HostRuntime) -> Result<(), Fail> {
    let net = good(rt.alloc())?;
    check_plans(&rt, &net);
    Ok(())
}

/// Nodes 1 to 4; links 10 and 20 run to node 3, and link 30 from there to node 4; both turn into it.
fn two_into_one(alloc: Global) -> Result<Network, Fail> {
    let nodes = [node(1), node(2), node(3), node(4)];
    let links = [link(10, 1, 3, 10), link(20, 2, 3, 6), link(30, 3, 4, 10)];
    nets::network(alloc, &nodes, &links, &[turn(20, 30), turn(10, 30)])
}

/// The turn from a lane to a next link, each by its position.
fn turn_from(net: &Network, link: u16, lane: LaneNo, next: u16) -> Option<(usize, LaneNo)> {
    let turn = net.turn(LinkIx::new(link), lane, LinkIx::new(next))?;
    Some((turn.next.position(), turn.next_lane))
}

/// The lanes to try, the links to turn into, and where the turns lead.
const TURNS: [(u16, LaneNo, u16, Option<(usize, LaneNo)>); 6] = [
    (1, 0, 2, Some((2, 0))),
    (0, 0, 2, Some((2, 0))),
    (0, 0, 1, None),
    (0, 1, 2, None),
    (2, 0, 2, None),
    (3, 0, 2, None),
];

/// The lane at a place among those that run to a node.
fn lane_to(net: &Network, node: u64, at: usize) -> Option<(usize, LaneNo)> {
    let node = net.node_of(node)?;
    let lane = net.in_lanes(node).get(at)?;
    Some((lane.link.position(), lane.lane))
}

/// Nodes and places among their lanes, and the lanes there.
const LANES: [(u64, usize, Option<(usize, LaneNo)>); 4] = [
    (3, 0, Some((0, 0))),
    (3, 1, Some((1, 0))),
    (3, 2, None),
    (1, 0, None),
];

/// The position of the node that a link runs to, and the link's limit.
fn end_of(net: &Network, link: u64) -> Option<(usize, Speed)> {
    let link = net.link_of(link)?;
    Some((net.end_of(link).position(), net.limit_of(link)))
}

/// The turns of that network.
fn check_turns(rt: &impl Abort, net: &Network) {
    for (link, lane, next, wanted) in TURNS {
        let serves = net.serves(LinkIx::new(link), lane, LinkIx::new(next));
        assert!(rt; turn_from(net, link, lane, next) == wanted && serves == wanted.is_some());
    }
}

/// The lanes of that network.
fn check_lanes(rt: &impl Abort, net: &Network) {
    for (node, at, wanted) in LANES {
        assert!(rt; lane_to(net, node, at) == wanted);
    }
    assert!(rt; end_of(net, 30) == Some((3, 5)));
}

#[test]
fn lanes_and_turns_are_found(rt: HostRuntime) -> Result<(), Fail> {
    let net = two_into_one(rt.alloc())?;
    check_turns(&rt, &net);
    check_lanes(&rt, &net);
    Ok(())
}

/// Nodes 1, 2 and 3; link 10 from 1 to 2, and link 20 from there to 3; lane 0 of the first turns into the second.
fn one_after_another(alloc: Global) -> Result<Network, Fail> {
    let nodes = [node(1), node(2), node(3)];
    let links = [link(10, 1, 2, 10), link(20, 2, 3, 10)];
    nets::network(alloc, &nodes, &links, &[turn(10, 20)])
}

/// The positions of the links of a good plan of two links.
fn two_of(alloc: Global, net: &Network, plan: &[u64]) -> Option<(usize, usize)> {
    match net.check_plan(alloc, plan, 0) {
        Ok(links) => match links.as_slice() {
            [first, second] => Some((first.position(), second.position())),
            _ => None,
        },
        Err(_) => None,
    }
}

/// What is answered to a good plan of two links.
fn check_two(rt: &(impl Abort + AllocGlobal), net: &Network) {
    assert!(rt; net.plan_refusal(&[10, 20], 0).is_none());
    assert!(rt; two_of(rt.alloc(), net, &[10, 20]) == Some((0, 1)));
}

#[test]
fn plans_of_two_links(rt: HostRuntime) -> Result<(), Fail> {
    let net = one_after_another(rt.alloc())?;
    check_two(&rt, &net);
    Ok(())
}

/// What is answered to plans on these two links.
fn check_refusals(rt: &(impl Abort + AllocGlobal), net: &Network) {
    let plans: [(&[u64], u64, Answer); 6] = [
        (&[20], 0, Answer::From(1)),
        (&[], 1, Answer::Bad(0)),
        (&[30], 0, Answer::Bad(0)),
        (&[10, 10], 1, Answer::Bad(1)),
        (&[20, 10, 30], 0, Answer::Bad(1)),
        (&[10, 20], 1, Answer::NoLane),
    ];
    for (plan, lane, wanted) in plans {
        check_answer(rt, net, plan, lane, wanted);
    }
}

#[test]
fn refuses_plans(rt: HostRuntime) -> Result<(), Fail> {
    let net = one_after_another(rt.alloc())?;
    check_refusals(&rt, &net);
    Ok(())
}

/// How many links a good plan has.
fn length_of(alloc: Global, net: &Network, plan: &[u64]) -> Option<usize> {
    match net.check_plan(alloc, plan, 0) {
        Ok(links) => Some(links.as_slice().len()),
        Err(_) => None,
    }
}

/// A plan of 1,025 links is bad, and without its last link good.
fn check_long_plan(rt: &(impl Abort + AllocGlobal), net: &Network) -> Result<(), Fail> {
    let plan = vec![in rt.alloc(); 30; 1_025]?;
    let most = &plan.as_slice()[..1_024];
    assert!(rt; length_of(rt.alloc(), net, most) == Some(1_024));
    check_answer(rt, net, plan.as_slice(), 0, Answer::Bad(1_024));
    Ok(())
}

#[test]
fn plans_have_at_most_1_024_links(rt: HostRuntime) -> Result<(), Fail> {
    let net = good(rt.alloc())?;
    check_long_plan(&rt, &net)
}
