//! All tiles of a network between two steps. `street_engine` keeps one `Tiles` in its streets.
//!
//! Here are their making, the network that they share, the commands that name a node or a lane, and counts of vehicles. Such a
//! command is done by the tile that owns the node or lane, and the others stay as they are. Steps are in `step`, commands that
//! name a vehicle in `tiles_vehicles`, the blocks in which a team lends the tiles in `sharing`.
ghost use Rattle.std.specs.Prelude.{◌≡◌, ◌+◌, ◌<◌, ◌≤◌, length, min, option_map, slice_get, IfOk, OnOk, OnErr};
ghost use Rattle.street_base.specs.Prelude.{in_lane, IsSoundTraffic, with_marks, metered, last_clock, most_workers, most_period, most_vehicles, loaded, with_waiting, closed_after};
ghost use Rattle.street_base.specs.Prelude.{link_at, shown_lane, shown_rows, in_cells, in_buffers, in_wait, SignalPlan as PlanSeen, Traffic, lane_at};
ghost use Rattle.street_node.specs.Prelude.{ShowsAs};
ghost use Rattle.street_lanes.specs.Prelude.{IsLane, HasShortPlan, waiting_of};
ghost use Rattle.street_tile.specs.Prelude.{at_place, planned, detectors_on, TilesStandFor, TilesGo, TilesKeep, NobodyArrived, OwnsLink};

use crate::cut::owner_of_node;
use crate::{LinkHints, Tile, View};
use std::alloc::Global;
use std::marker::Model;
use std::sync::Arc;
use street_base::{Car, CellNo, LinkIx, NodeIx, Place, Reply, Starved};
use street_lanes::LaneTotals;
use street_net::Network;
use street_node::SignalPlan;

/// A network, its tiles, the view of its mouths as the last step's releases saw it (none open before the first), and on which link
/// each vehicle was last put.
#[derive(Drop)]
pub struct Tiles {
    pub(crate) network: Arc<Network, Global>,
    pub(crate) tiles: Vec<Tile>,
    pub(crate) view: View,
    pub(crate) hints: LinkHints,
}

impl Model for Tiles {
    ghost use Rattle.std.specs.Prelude.{length};
    ghost use Rattle.street_tile.specs.Prelude.{TilesView, AreKept};

    ghost Value = { TilesView };

    ghost view = { λ s. record { network = s.network.value; tiles = s.tiles.items } };

    ghost invariant = { λ s. AreKept s.network.value s.tiles.items (length s.view) };
}

impl Tiles {
    /// The tiles of a network with no vehicle, for so many workers, 1 to 64: one each, but no more than there are nodes.
    ///
    /// # Errors
    /// Memory was refused.
    pub fn new(alloc: Global, network: Network, workers: usize) -> Result<Tiles, Starved>
        requires some { 1 ≤ workers }
        requires few { workers ≤ most_workers }
        ensures network { IfOk result (λ tiles. tiles.network ≡ network) }
        ensures count { IfOk result (λ tiles. length tiles.tiles ≡ min workers (length network.nodes)) }
        ensures nobody { IfOk result NobodyArrived }
        ensures stand { IfOk result (λ tiles. TilesStandFor tiles (loaded network)) }
    {
        // The clause `faultless` of `Network::spec` is what the traffic of a network with nobody on it rests on.
        let _spec = network.spec();
        let tiles = Tile::cut(alloc, &network, workers)?;
        let view = View::new(alloc, &network)?;
        let network = Arc::new(alloc, network)?;
        Ok(Tiles {
            network,
            tiles,
            view,
            hints: LinkHints::new(alloc),
        })
    }

    /// The network of these tiles.
    pub fn network(&self) -> &Network
        ensures { result.now ≡ self.now.network }
    {
        &self.network
    }

    /// The network, to be shared with those who work on the tiles.
    ///
    /// # Errors
    /// It is shared too often.
    pub fn share_network(&self) -> Result<Arc<Network, Global>, Starved>
        ensures { IfOk result (λ network. network.value ≡ self.now.network) }
    {
        Ok(Arc::try_clone(&self.network)?)
    }

    /// How many tiles there are, 1 to 64.
    pub fn len(&self) -> usize
        ensures len { result ≡ length self.now.tiles }
        ensures some { 0 < result }
        ensures few { result ≤ most_workers }
    {
        self.tiles.len()
    }

    /// The position of the tile that owns the lanes of a link: the tile of the node to which the link runs.
    pub(crate) fn owner_of_link(&self, link: LinkIx) -> usize
        requires { link < length self.now.network.links }
        ensures inside { result < length self.now.tiles }
        ensures own { OwnsLink self.now result link }
    {
        owner_of_node(&self.network, self.tiles.len(), self.network.end_of(link))
    }

    /// One more vehicle waits on the lane `at`: `car`, whose number is the next and nowhere on that lane.
    ///
    /// # Errors
    /// Memory was refused; the tiles stand for what they stood for.
    pub fn admit(&mut self, at: Place, car: Car) -> Result<(), Starved>
        requires lane { IsLane self.old.network at }
        requires short { HasShortPlan car }
        ensures waits { OnOk result (TilesGo (λ m. in_lane car.number (lane_at m at) ≡ 0)
            (at_place at (with_waiting (waiting_of car))) self.old self.new) }
        ensures starved { OnErr result (TilesKeep self.old self.new) }
    {
        let link = at.link;
        let i = self.owner_of_link(link);
        self.hints.reserve()?;
        self.tiles[i].admit(&self.network, at, car)?;
        self.hints.give(link);
        Ok(())
    }

    /// The node at this position has this signal plan from the next step on. Takes no memory.
    pub fn set_signal(&mut self, node: NodeIx, plan: SignalPlan)
        requires { node < length self.old.network.nodes }
        ensures { (other : PlanSeen) → ShowsAs plan other
            → TilesGo (λ m. node < length m.signals) (planned node other) self.old self.new }
    {
        let i = owner_of_node(&self.network, self.tiles.len(), node);
        self.tiles[i].set_signal(node, plan);
    }

    /// Closes the cells of a lane from `first` to `last`, or opens them, and tells how many of its cells are closed then.
    ///
    /// # Errors
    /// Memory was refused; the tiles stand for what they stood for.
    pub fn set_closed(
        &mut self,
        at: Place,
        first: CellNo,
        last: CellNo,
        closed: bool,
    ) -> Result<u64, Starved>
        requires lane { IsLane self.old.network at }
        requires order { first ≤ last }
        requires within { last < (link_at self.old.network at.link).length }
        ensures marks { OnOk result (TilesGo (λ m. Unit) (at_place at (with_marks closed first last)) self.old self.new) }
        ensures count { IfOk result (λ count. (m : Traffic) → TilesStandFor self.old m
            → count ≡ closed_after closed first last (lane_at m at)) }
        ensures starved { OnErr result (TilesKeep self.old self.new) }
    {
        let i = self.owner_of_link(at.link);
        self.tiles[i].set_closed(&self.network, at, first, last, closed)
    }

    /// All of a lane, as a reply: its buffer, its cells, its closed stretches and who waits.
    ///
    /// # Errors
    /// Memory for the lists was refused.
    pub fn lane(&self, alloc: Global, at: Place) -> Result<Reply, Starved>
        requires { IsLane self.now.network at }
        ensures { IfOk result (λ reply. (m : Traffic) → TilesStandFor self.now m → reply ≡ shown_lane (lane_at m at)) }
    {
        let i = self.owner_of_link(at.link);
        self.tiles[i].lane(alloc, &self.network, at)
    }

    /// One more detector stands in a cell of a lane, with a period of 1 to 100,000 steps. Answers its number among the detectors
    /// of the lane.
    ///
    /// # Errors
    /// Memory was refused; the tiles stand for what they stood for.
    pub fn place_meter(
        &mut self,
        alloc: Global,
        at: Place,
        cell: CellNo,
        period: u32,
    ) -> Result<usize, Starved>
        requires stand { (m : Traffic) × TilesStandFor self.old m × (m.clock ≤ last_clock) }
        requires lane { IsLane self.old.network at }
        requires cell { cell < (link_at self.old.network at.link).length }
        requires some { 1 ≤ period }
        requires short { period ≤ most_period }
        ensures placed { OnOk result (TilesGo (λ m. Unit) (λ m. metered m at cell period) self.old self.new) }
        ensures number { IfOk result (λ number. (m : Traffic) → TilesStandFor self.old m
            → number ≡ length (detectors_on at m.detectors)) }
        ensures starved { OnErr result (TilesKeep self.old self.new) }
    {
        let i = self.owner_of_link(at.link);
        self.tiles[i].place_meter(alloc, &self.network, at, cell, period)
    }

    /// The rows of a detector by its number among those of a lane, if there is one. Takes memory for the list of rows.
    ///
    /// # Errors
    /// Memory for the list was refused.
    pub fn read_meter(
        &self,
        alloc: Global,
        at: Place,
        number: usize,
    ) -> Result<Option<Reply>, Starved>
        requires { IsLane self.now.network at }
        ensures { IfOk result (λ found. (m : Traffic) → TilesStandFor self.now m
            → found ≡ option_map shown_rows (slice_get (detectors_on at m.detectors) number)) }
    {
        let i = self.owner_of_link(at.link);
        self.tiles[i].read_meter(alloc, &self.network, at, number)
    }

    /// How many vehicles are in cells, in buffers and waiting on the lanes of all tiles. Looks at counts that are kept, and at no
    /// lane.
    pub fn totals(&self) -> LaneTotals
        requires { (m : Traffic) × TilesStandFor self.now m × IsSoundTraffic m × (length m.ends ≤ most_vehicles) }
        ensures cells { (m : Traffic) → TilesStandFor self.now m → result.cells ≡ in_cells m }
        ensures buffers { (m : Traffic) → TilesStandFor self.now m → result.buffers ≡ in_buffers m }
        ensures waiting { (m : Traffic) → TilesStandFor self.now m → result.waiting ≡ in_wait m }
    {
        let mut all = LaneTotals {
            cells: 0,
            buffers: 0,
            waiting: 0,
        };
        for i in 0..self.tiles.len() {
            let own = self.tiles[i].totals();
            all.cells += own.cells;
            all.buffers += own.buffers;
            all.waiting += own.waiting;
        }
        all
    }
}
