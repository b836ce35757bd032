//! The checked network. Every crate above asks it.
ghost use Rattle.std.specs.Prelude.{◌≡◌, ◌<◌, None, Some, length, option_map, slice_get, IfOk, IfErr, IfSome, OnOk};
ghost use Rattle.street_base.specs.Prelude.{link_at, link_of, node_of, end_node, turn, serves, network_fault};
ghost use Rattle.street_net.specs.Prelude.{ids_of_nodes, ids_of_links, AreServed, IsServedOrNone, AreKept, in_places, turn_by_position, AreTables, TellsFault};

use crate::briefs::{Brief, briefs_of_links};
use crate::faults::NetFault;
use crate::keys::{find_link, find_node};
use crate::lanes::lanes_by_end;
use crate::lists::{read_links, read_nodes, read_turns, read_values};
use crate::nexts::{NO_LINK, Nexts, Pair};
use crate::turns::{LISTS, TurnTable, list_of, turn_to};
use indexmap::IndexSet;
use std::alloc::{AllocError, Global};
use std::marker::Model;
use street_base::{CellNo, LaneNo, LinkIx, Listing, NetSpec, NodeIx, Place, Speed, Turn};

/// A network without faults, with constant-time look-ups of identifiers. Contracts see what it was loaded from.
#[derive(Drop)]
pub struct Network {
    spec: NetSpec,
    node_ids: IndexSet<u64>,
    link_ids: IndexSet<u64>,
    briefs: Vec<Brief>,
    in_lanes: Vec<Vec<Place>>,
    turns: TurnTable,
    // Of each link, or of none: next links that its lanes serve.
    nexts: Vec<Pair>,
}

impl Model for Network {
    ghost use Rattle.street_base.specs.declared.net.NetSpec.{NetSpec};

    ghost Value = { NetSpec };

    ghost use Rattle.street_net.specs.Prelude.{IsChecked};

    ghost view = { λ n. n.spec };

    ghost invariant = { λ n. IsChecked n.spec n.node_ids.keys n.link_ids.keys n.briefs.items n.in_lanes.items
        n.turns.starts.items n.turns.turns.items n.nexts.items };
}

/// A copy of a load, which a network keeps.
///
/// # Errors
///
/// Memory was refused.
fn copy_spec(alloc: Global, spec: &NetSpec) -> Result<NetSpec, AllocError>
    ensures { IfOk result (λ copy. copy ≡ spec.now) }
{
    Ok(NetSpec {
        nodes: Listing::from_vec(Vec::from_slice(alloc, spec.nodes.as_slice())?),
        links: Listing::from_vec(Vec::from_slice(alloc, spec.links.as_slice())?),
        turns: Listing::from_vec(Vec::from_slice(alloc, spec.turns.as_slice())?),
        zone: spec.zone,
        dawdle: spec.dawdle,
        change: spec.change,
        seed: spec.seed,
        start: spec.start,
    })
}

/// Checks all of a load, and answers the identifiers of its nodes and those of its links, in their orders.
///
/// # Errors
///
/// `Bad` with the load's first fault. `Starved` where memory was refused.
fn identifiers(alloc: Global, spec: &NetSpec) -> Result<(IndexSet<u64>, IndexSet<u64>), NetFault>
    ensures keys { IfOk result (λ ids. (ids.0.keys ≡ ids_of_nodes spec.now.nodes) × (ids.1.keys ≡ ids_of_links spec.now.links)) }
    ensures faultless { OnOk result (network_fault spec.now ≡ None) }
    ensures fault { IfErr result (TellsFault (network_fault spec.now)) }
{
    let nodes = read_nodes(alloc, spec)?;
    let links = read_links(alloc, spec, &nodes)?;
    read_turns(alloc, spec, &links)?;
    read_values(spec)?;
    Ok((nodes, links))
}

// What a network keeps of each link, of each node and of the turns.
type Tables = (Vec<Brief>, Vec<Vec<Place>>, TurnTable);

/// The tables of a load without faults: what a step asks of each link, the lanes that run to each node, and the turns from each
/// lane. `nodes` and `links` are the identifiers of all nodes and of all links.
///
/// # Errors
///
/// Memory was refused.
fn tables(
    alloc: Global,
    spec: &NetSpec,
    nodes: &IndexSet<u64>,
    links: &IndexSet<u64>,
) -> Result<Tables, AllocError>
    requires faultless { network_fault spec.now ≡ None }
    requires nodes { nodes.now.keys ≡ ids_of_nodes spec.now.nodes }
    requires links { links.now.keys ≡ ids_of_links spec.now.links }
    ensures { IfOk result (λ found. AreTables spec.now found.0.items found.1.items found.2.starts.items found.2.turns.items) }
{
    let briefs = briefs_of_links(alloc, spec, nodes)?;
    let in_lanes = lanes_by_end(alloc, spec, &briefs)?;
    let turns = TurnTable::build(alloc, spec, links)?;
    Ok((briefs, in_lanes, turns))
}

impl Network {
    /// The network of a load, if that has no fault: the load is checked and copied, and the tables of its look-ups are made.
    ///
    /// # Errors
    ///
    /// `Bad` with the load's first fault: nodes, then links, then turns, then values, each entry by entry. `Starved` where
    /// memory was refused.
    pub fn build(alloc: Global, spec: &NetSpec) -> Result<Network, NetFault>
        ensures value { IfOk result (λ net. net ≡ spec.now) }
        ensures faultless { OnOk result (network_fault spec.now ≡ None) }
        ensures fault { IfErr result (TellsFault (network_fault spec.now)) }
    {
        let (node_ids, link_ids) = identifiers(alloc, spec)?;
        let spec = copy_spec(alloc, spec)?;
        let (briefs, in_lanes, turns) = tables(alloc, &spec, &node_ids, &link_ids)?;
        let mut network = Network {
            spec,
            node_ids,
            link_ids,
            briefs,
            in_lanes,
            turns,
            nexts: Vec::new(alloc),
        };
        let nexts = network.nexts_of_links(alloc)?;
        network.nexts = nexts;
        Ok(network)
    }

    /// What the network was loaded from. It has no fault.
    pub fn spec(&self) -> &NetSpec
        ensures value { result.now ≡ self.now }
        ensures faultless { network_fault self.now ≡ None }
    {
        &self.spec
    }

    /// The position of the link with an identifier, if one has it.
    pub fn link_of(&self, id: u64) -> Option<LinkIx>
        ensures position { result ≡ link_of self.now id }
        ensures within { IfSome result (λ link. link < length self.now.links) }
    {
        let position = find_link(&self.spec, &self.link_ids, id)?;
        Some(LinkIx::new(position as u16))
    }

    /// The position of the node with an identifier, if one has it.
    pub fn node_of(&self, id: u64) -> Option<NodeIx>
        ensures position { result ≡ node_of self.now id }
        ensures within { IfSome result (λ node. node < length self.now.nodes) }
    {
        let position = find_node(&self.spec, &self.node_ids, id)?;
        Some(NodeIx::new(position as u16))
    }

    /// The position of the node that a link runs to.
    pub fn end_of(&self, link: LinkIx) -> NodeIx
        requires { link < length self.now.links }
        ensures position { node_of self.now (link_at self.now link).to ≡ Some result }
        ensures within { result < length self.now.nodes }
        ensures node { end_node self.now link ≡ slice_get self.now.nodes result }
    {
        self.briefs[link.position()].end
    }

    /// The lanes that run to a node, in the order in which their buffers are released: by the position of the link, then by
    /// the lane.
    pub fn in_lanes(&self, node: NodeIx) -> &[Place]
        requires { node < length self.now.nodes }
        ensures { result.now ≡ in_places self.now node }
    {
        &self.in_lanes[node.position()]
    }

    /// The turn from a lane to a next link, both links by their positions, if there is one; found among the lane's own turns.
    pub fn turn(&self, link: LinkIx, lane: LaneNo, next: LinkIx) -> Option<Turn>
        ensures { let place : Place = record { link = link; lane = lane } in
            result ≡ option_map (turn_by_position place next) (turn self.now place next) }
    {
        if link.position() >= self.briefs.len() || usize::from(lane) >= LISTS {
            return None;
        }
        turn_to(self.turns.list(list_of(link, lane)), next)
    }

    /// Whether a lane has a turn to a next link, both links by their positions. Of most lanes all next links are among the four
    /// that are kept close together; else it is found among the lane's turns.
    #[inline]
    pub fn serves(&self, link: LinkIx, lane: LaneNo, next: LinkIx) -> bool
        ensures { let place : Place = record { link = link; lane = lane } in
            result ≡ serves self.now place next }
    {
        match self.nexts_from(link, lane) {
            Some(nexts) if nexts.has(next) => true,
            _ => self.has_turn(link, lane, next),
        }
    }

    /// Whether a lane has a turn to a next link, found among the lane's turns. [`Network::serves`] asks it where the next links
    /// that are kept do not have the link.
    #[inline(never)]
    fn has_turn(&self, link: LinkIx, lane: LaneNo, next: LinkIx) -> bool
        ensures { let place : Place = record { link = link; lane = lane } in
            result ≡ serves self.now place next }
    {
        self.turn(link, lane, next).is_some()
    }

    /// The next links that are kept of a lane, at most four, each of which it serves; it may serve others too. `None` where
    /// none are kept of the link, or the link has no such lane.
    #[inline]
    fn nexts_from(&self, link: LinkIx, lane: LaneNo) -> Option<Nexts>
        ensures { let place : Place = record { link = link; lane = lane } in IfSome result (AreServed self.now place) }
    {
        let at = link.position();
        if at >= self.nexts.len() {
            return None;
        }
        let pair = self.nexts[at];
        match lane {
            0 => Some(pair.zero),
            1 => Some(pair.one),
            _ => None,
        }
    }

    /// The next link of the lane's turn at the position `at`, in the order of the next links, or the one that [`NO_LINK`] names
    /// where the lane has no such turn.
    fn next_at(&self, link: LinkIx, lane: LaneNo, at: usize) -> LinkIx
        requires there { link < length self.now.links }
        requires lane { lane < 2 }
        ensures { let place : Place = record { link = link; lane = lane } in IsServedOrNone self.now place result }
    {
        let none = LinkIx::new(NO_LINK);
        let Some(turn) = self.turns.list(list_of(link, lane)).get(at) else {
            return none;
        };
        let next = turn.next;
        if self.has_turn(link, lane, next) {
            next
        } else {
            none
        }
    }

    /// The next links of a lane's first four turns, in the order of the next links; with fewer turns the rest name no link.
    fn first_nexts(&self, link: LinkIx, lane: LaneNo) -> Nexts
        requires there { link < length self.now.links }
        requires lane { lane < 2 }
        ensures { let place : Place = record { link = link; lane = lane } in AreServed self.now place result }
    {
        Nexts {
            first: self.next_at(link, lane, 0),
            second: self.next_at(link, lane, 1),
            third: self.next_at(link, lane, 2),
            fourth: self.next_at(link, lane, 3),
        }
    }

    /// For each link, in the order of the load, the next links of the first four turns from both of its lanes.
    ///
    /// # Errors
    ///
    /// Memory was refused.
    fn nexts_of_links(&self, alloc: Global) -> Result<Vec<Pair>, AllocError>
        ensures { IfOk result (λ pairs. AreKept self.now pairs.items) }
    {
        let count = self.briefs.len();
        let mut pairs = Vec::with_capacity(alloc, count)?;
        for position in 0..count {
            let link = LinkIx::new(position as u16);
            let zero = self.first_nexts(link, 0);
            let one = self.first_nexts(link, 1);
            pairs.push(Pair { zero, one })?;
        }
        Ok(pairs)
    }

    /// How many cells each lane of a link has.
    pub fn length_of(&self, link: LinkIx) -> CellNo
        requires { link < length self.now.links }
        ensures { result ≡ (link_at self.now link).length }
    {
        self.briefs[link.position()].length
    }

    /// The speed limit of a link, in cells a step.
    pub fn limit_of(&self, link: LinkIx) -> Speed
        requires { link < length self.now.links }
        ensures { result ≡ (link_at self.now link).limit }
    {
        self.briefs[link.position()].limit
    }

    /// How many lanes a link has: 1 or 2.
    pub fn lanes_of(&self, link: LinkIx) -> LaneNo
        requires { link < length self.now.links }
        ensures { result ≡ (link_at self.now link).lanes }
    {
        self.briefs[link.position()].lanes
    }
}
