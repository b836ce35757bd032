//! A small network, and a vehicle for it.

use std::alloc::{AllocError, Global};
use street_base::{Command, LinkSpec, Listing, NetSpec, NodeSpec};

/// A load of one link, named 10, of so many cells, in which nobody dawdles.
pub(crate) fn one_link(alloc: Global, length: u64) -> Result<Command, AllocError> {
    let node = NodeSpec {
        id: 1,
        residence: 1,
        capacity: 2,
    };
    let link = LinkSpec {
        id: 10,
        from: 1,
        to: 1,
        lanes: 1,
        length,
        limit: 5,
    };
    Ok(Command::Load(NetSpec {
        nodes: Listing::from_vec(Vec::from_slice(alloc, &[node])?),
        links: Listing::from_vec(Vec::from_slice(alloc, &[link])?),
        turns: Listing::from_vec(Vec::new(alloc)),
        zone: 0,
        dawdle: 0,
        change: 0,
        seed: 0,
        start: 0,
    }))
}

/// A vehicle goes over these links, from this step on.
pub(crate) fn enter(alloc: Global, plan: &[u64], depart: u64) -> Result<Command, AllocError> {
    Ok(Command::Enter {
        plan: Listing::from_vec(Vec::from_slice(alloc, plan)?),
        lane: 0,
        depart,
        size: 1,
    })
}
