//! Whether an entry of a load is bad. `lists.rt` calls them.
//!
//! Source: nodes, links and turns of TRANSIMS.
ghost use Rattle.std.specs.Prelude.{◌≡◌, take};
ghost use Rattle.street_base.specs.Prelude.{is_within, is_bad_node, is_bad_link, is_bad_turn, joins};
ghost use Rattle.street_net.specs.Prelude.{ids_of_nodes, ids_of_links, keys_of_turns};

use crate::keys::{
    TurnKey, find_node, is_repeated_link, is_repeated_node, is_repeated_turn, link_with,
};
use indexmap::IndexSet;
use street_base::{
    GREATEST_ID, LinkSpec, MOST_CAPACITY, MOST_CELLS, MOST_LANES, MOST_LIMIT, MOST_LINKS,
    MOST_NODES, MOST_RESIDENCE, MOST_TURNS, NetSpec, NodeSpec, TurnSpec,
};

/// Whether a number is in a range, its two bounds included.
fn is_within(low: u64, high: u64, number: u64) -> bool
    ensures { result ≡ is_within low high number }
{
    low <= number && number <= high
}

/// Whether the node at a position of the load is bad: past the most nodes, its identifier too great or that of one before it,
/// its residence or its capacity out of range. `seen` are the identifiers of the nodes before it.
pub(crate) fn is_bad_node(spec: &NetSpec, seen: &IndexSet<u64>, at: usize, node: &NodeSpec) -> bool
    requires { seen.now.keys ≡ ids_of_nodes (take at spec.now.nodes) }
    ensures { result ≡ is_bad_node spec.now at node.now }
{
    at >= MOST_NODES
        || node.id > GREATEST_ID
        || is_repeated_node(spec, seen, at, node.id)
        || !is_within(1, MOST_RESIDENCE, node.residence)
        || !is_within(1, MOST_CAPACITY, node.capacity)
}

/// Whether the link at a position of the load is bad: past the most links, its identifier too great or that of one before it,
/// an end that is no node, its lanes, length or limit out of range. `seen` are the identifiers of the links before it, `nodes`
/// those of all nodes.
pub(crate) fn is_bad_link(
    spec: &NetSpec,
    nodes: &IndexSet<u64>,
    seen: &IndexSet<u64>,
    at: usize,
    link: &LinkSpec,
) -> bool
    requires nodes { nodes.now.keys ≡ ids_of_nodes spec.now.nodes }
    requires seen { seen.now.keys ≡ ids_of_links (take at spec.now.links) }
    ensures { result ≡ is_bad_link spec.now at link.now }
{
    at >= MOST_LINKS
        || link.id > GREATEST_ID
        || is_repeated_link(spec, seen, at, link.id)
        || find_node(spec, nodes, link.from).is_none()
        || find_node(spec, nodes, link.to).is_none()
        || !is_within(1, MOST_LANES, link.lanes)
        || !is_within(1, MOST_CELLS, link.length)
        || !is_within(1, MOST_LIMIT, link.limit)
}

/// Whether a turn joins two links: both are in the load and have the turn's lanes, and the next one runs from the node that the
/// first runs to. `ids` are the identifiers of all links.
fn joins(spec: &NetSpec, ids: &IndexSet<u64>, turn: &TurnSpec) -> bool
    requires { ids.now.keys ≡ ids_of_links spec.now.links }
    ensures { result ≡ joins spec.now turn.now }
{
    match (
        link_with(spec, ids, turn.link),
        link_with(spec, ids, turn.next),
    ) {
        (Some(link), Some(next)) => {
            turn.lane < link.lanes && turn.next_lane < next.lanes && link.to == next.from
        }
        _ => false,
    }
}

/// Whether the turn at a position of the load is bad: past the most turns, joining no two links, or with the lane and the next
/// link of one before it. `seen` are the keys of the turns before it, `ids` the identifiers of all links.
pub(crate) fn is_bad_turn(
    spec: &NetSpec,
    ids: &IndexSet<u64>,
    seen: &IndexSet<TurnKey>,
    at: usize,
    turn: &TurnSpec,
) -> bool
    requires ids { ids.now.keys ≡ ids_of_links spec.now.links }
    requires seen { seen.now.keys ≡ keys_of_turns (take at spec.now.turns) }
    ensures { result ≡ is_bad_turn spec.now at turn.now }
{
    at >= MOST_TURNS || !joins(spec, ids, turn) || is_repeated_turn(spec, seen, at, turn)
}
