//! A link of a network, with the lists and the closed cells of its lanes: what the passes of a step read of it. `street_lanes`
//! makes one for each pass.
ghost use Rattle.std.specs.Prelude.{◌≡◌, ◌∷◌, ◌<◌, ◌≤◌, length, Option, option_map, option_to_list};
ghost use Rattle.street_base.specs.Prelude.{link_at};
ghost use Rattle.street_rule.specs.Prelude.{lane_of, lane_seen, length_of};

use std::marker::Model;
use street_base::{CellNo, LaneNo, LinkIx, Speed};
use street_gap::Closures;
use street_net::Network;
use street_yard::ListId;

/// A lane: the list of its vehicles, the front first, and its closed cells.
#[derive(Clone, Copy)]
pub struct RoadLane<'a> {
    /// The list of its vehicles.
    pub list: ListId,
    /// Its closed cells.
    pub closures: &'a Closures,
}

/// A link of a network, with the one or two of its lanes that a pass needs. Contracts see the network, the link's position, and
/// for each lane the list and the closed stretches.
#[derive(Drop)]
pub struct Road<'a> {
    network: &'a Network,
    link: LinkIx,
    length: CellNo,
    limit: Speed,
    first: RoadLane<'a>,
    second: Option<RoadLane<'a>>,
}

impl<'a> Model for Road<'a> {
    ghost use Rattle.street_rule.specs.Prelude.{Road as Link};

    ghost Value = { Link };

    ghost use Rattle.street_rule.specs.Inside.{seen, IsSound};

    ghost view = { seen };

    ghost invariant = { IsSound };
}

impl<'a> Road<'a> {
    /// A link of the network, by its position, with both lanes where it has two, lane 0 as `first`, or with one of its lanes
    /// alone, whichever it is.
    pub fn new(
        network: &'a Network,
        link: LinkIx,
        first: RoadLane<'a>,
        second: Option<RoadLane<'a>>,
    ) -> Road<'a>
        requires { link < length network.now.links }
        ensures { result ≡ record { network = network.now; link = link; lanes = lane_seen first.entry ∷ option_to_list (option_map lane_seen second.entry) } }
    {
        Road {
            network,
            link,
            length: network.length_of(link),
            limit: network.limit_of(link),
            first,
            second,
        }
    }

    /// The network that the link is of.
    pub fn network(&self) -> &'a Network
        ensures { result.now ≡ self.now.network }
    {
        self.network
    }

    /// The link's position in the network.
    pub fn link(&self) -> LinkIx
        ensures value { result ≡ self.now.link }
        ensures within { result < length self.now.network.links }
    {
        self.link
    }

    /// How many cells each lane of the link has.
    pub fn length(&self) -> CellNo
        ensures { result ≡ length_of self.now }
    {
        self.length
    }

    /// The speed limit of the link, in cells a step.
    pub fn limit(&self) -> Speed
        ensures { result ≡ (link_at self.now.network self.now.link).limit }
    {
        self.limit
    }

    /// How many lanes the road was made with: 1 or 2.
    pub fn lanes(&self) -> LaneNo
        ensures value { result ≡ length self.now.lanes }
        ensures some { 1 ≤ result }
        ensures few { result ≤ 2 }
    {
        if self.second.is_some() { 2 } else { 1 }
    }

    /// One of the lanes that the road was made with, counted from 0: on a road of one lane that is 0, whichever lane of the
    /// link it is.
    pub fn lane(&self, lane: LaneNo) -> RoadLane<'a>
        requires { lane < length self.now.lanes }
        ensures { lane_seen result ≡ lane_of self.now lane }
    {
        match self.second {
            Some(second) if lane == 1 => second,
            _ => self.first,
        }
    }
}
