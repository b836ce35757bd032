//! Small networks, and commands over them.

use std::alloc::{AllocError, Global};
use street_base::{Command, LinkSpec, Listing, NetSpec, NodeSpec, TurnSpec};

/// A node with this identifier.
pub(crate) fn node(id: u64) -> NodeSpec {
    NodeSpec {
        id,
        residence: 1,
        capacity: 2,
    }
}

/// A link of one lane with this identifier, between these nodes.
pub(crate) fn link(id: u64, from: u64, to: u64, length: u64) -> LinkSpec {
    LinkSpec {
        id,
        from,
        to,
        lanes: 1,
        length,
        limit: 5,
    }
}

/// A network of these, in which nobody dawdles.
fn network(
    alloc: Global,
    nodes: &[NodeSpec],
    links: &[LinkSpec],
    turns: &[TurnSpec],
) -> Result<NetSpec, AllocError> {
    Ok(NetSpec {
        nodes: Listing::from_vec(Vec::from_slice(alloc, nodes)?),
        links: Listing::from_vec(Vec::from_slice(alloc, links)?),
        turns: Listing::from_vec(Vec::from_slice(alloc, turns)?),
        zone: 0,
        dawdle: 0,
        change: 0,
        seed: 0,
        start: 0,
    })
}

/// A load of these, in which nobody dawdles.
pub(crate) fn load(
    alloc: Global,
    nodes: &[NodeSpec],
    links: &[LinkSpec],
    turns: &[TurnSpec],
) -> Result<Command, AllocError> {
    Ok(Command::Load(network(alloc, nodes, links, turns)?))
}

/// A load of one link, named 10, of so many cells.
pub(crate) fn one_link(alloc: Global, length: u64) -> Result<Command, AllocError> {
    load(alloc, &[node(1)], &[link(10, 1, 1, length)], &[])
}

/// Two nodes, and a link of one cell each way: link 10 runs to the second node, link 20 to the first, and each turns to the
/// other.
pub(crate) fn two_ways(alloc: Global) -> Result<NetSpec, AllocError> {
    let turn = |link: u64, next: u64| TurnSpec {
        link,
        lane: 0,
        next,
        next_lane: 0,
    };
    network(
        alloc,
        &[node(1), node(2)],
        &[link(10, 1, 2, 1), link(20, 2, 1, 1)],
        &[turn(10, 20), turn(20, 10)],
    )
}

/// A load of a ring of so many nodes: the link of each number runs from the node of that number to the next one, and turns to the
/// next link.
pub(crate) fn ring(alloc: Global, around: u64) -> Result<Command, AllocError> {
    let mut nodes = Vec::new(alloc);
    let mut links = Vec::new(alloc);
    let mut turns = Vec::new(alloc);
    for at in 0..around {
        let next = if at + 1 == around { 0 } else { at + 1 };
        nodes.push(node(at))?;
        links.push(link(at, at, next, 3))?;
        turns.push(TurnSpec {
            link: at,
            lane: 0,
            next,
            next_lane: 0,
        })?;
    }
    load(alloc, nodes.as_slice(), links.as_slice(), turns.as_slice())
}

/// A load of the network of two ways.
pub(crate) fn there_and_back(alloc: Global) -> Result<Command, AllocError> {
    Ok(Command::Load(two_ways(alloc)?))
}

/// A vehicle goes over these links, from this step on.
pub(crate) fn enter(alloc: Global, plan: &[u64], depart: u64) -> Result<Command, AllocError> {
    Ok(Command::Enter {
        plan: Listing::from_vec(Vec::from_slice(alloc, plan)?),
        lane: 0,
        depart,
        size: 1,
    })
}
