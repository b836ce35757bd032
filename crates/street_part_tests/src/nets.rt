//! Networks for the tests of this crate.

use std::alloc::{AllocError, Global};
use std::test::Fail;
use street_base::{LinkSpec, Listing, NetSpec, NodeSpec, TurnSpec};
use street_net::Network;

/// A node whose buffers have room for two.
pub(crate) fn node(id: u64) -> NodeSpec {
    NodeSpec {
        id,
        residence: 1,
        capacity: 2,
    }
}

/// A link of one lane, whose limit is 5.
pub(crate) fn link(id: u64, from: u64, to: u64, length: u64) -> LinkSpec {
    LinkSpec {
        id,
        from,
        to,
        lanes: 1,
        length,
        limit: 5,
    }
}

/// A turn from lane 0 of a link into lane 0 of the next.
pub(crate) fn turn(link: u64, next: u64) -> TurnSpec {
    TurnSpec {
        link,
        lane: 0,
        next,
        next_lane: 0,
    }
}

/// A load of these nodes, links and turns, whose values are all 0.
pub(crate) fn load(
    alloc: Global,
    nodes: &[NodeSpec],
    links: &[LinkSpec],
    turns: &[TurnSpec],
) -> Result<NetSpec, AllocError> {
    let nodes = Vec::from_slice(alloc, nodes)?;
    let links = Vec::from_slice(alloc, links)?;
    let turns = Vec::from_slice(alloc, turns)?;
    Ok(NetSpec {
        nodes: Listing::from_vec(nodes),
        links: Listing::from_vec(links),
        turns: Listing::from_vec(turns),
        zone: 0,
        dawdle: 0,
        change: 0,
        seed: 0,
        start: 0,
    })
}

/// The network of such a load.
pub(crate) fn network(
    alloc: Global,
    nodes: &[NodeSpec],
    links: &[LinkSpec],
    turns: &[TurnSpec],
) -> Result<Network, Fail> {
    let spec = load(alloc, nodes, links, turns)?;
    Ok(Network::build(alloc, &spec)?)
}
