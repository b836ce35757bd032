//! Commands to one tile that name one of its lanes or nodes. `tiles.rt` calls them on the tile that owns the lane or node.
ghost use Rattle.std.specs.Prelude.{◌≡◌, ◌<◌, ◌≤◌, length, Some, true, false, slice_get, IfOk, OnOk, OnErr};
ghost use Rattle.street_base.specs.declared.net.NetSpec.{NetSpec};
ghost use Rattle.street_base.specs.Prelude.{link_at, SignalPlan as PlanSeen, Traffic, lane_at, in_lane, with_marks, with_waiting, closed_after, shown_lane};
ghost use Rattle.street_node.specs.Prelude.{ShowsAs};
ghost use Rattle.street_lanes.specs.Prelude.{waiting_of, IsLane, HasShortPlan, IsOn};
ghost use Rattle.street_tile.specs.Prelude.{IsTileOf, TileStandsFor, is_own, at_place, planned, DoesIf, Does, KeepsAll};

use crate::tile::Tile;
use std::alloc::Global;
use street_base::{Car, CellNo, NodeIx, Place, Reply, Starved};
use street_net::{Network, slot};
use street_node::SignalPlan;

impl Tile {
    /// The number of the own lane at the place `at` among the own lanes, from 0.
    pub(crate) fn number(&self, net: &Network, at: Place) -> usize
        requires tile { IsTileOf net.now self.now }
        requires lane { IsLane net.now at }
        requires own { is_own net.now self.now.low self.now.high at ≡ true }
        ensures { slice_get self.now.own.places result ≡ Some at }
    {
        self.numbers[slot(at.link, at.lane)]
    }

    /// One more vehicle waits on an own lane. Its number is nowhere on that lane.
    ///
    /// # Errors
    /// Memory was refused; the tile is as it was, reserved room apart.
    pub fn admit(&mut self, net: &Network, at: Place, car: Car) -> Result<(), Starved>
        requires tile { IsTileOf net.now self.old }
        requires lane { IsLane net.now at }
        requires own { is_own net.now self.old.low self.old.high at ≡ true }
        requires short { HasShortPlan car }
        ensures waits { OnOk result (DoesIf net.now (λ m. in_lane car.number (lane_at m at) ≡ 0)
            (at_place at (with_waiting (waiting_of car))) self.old self.new) }
        ensures starved { OnErr result (KeepsAll self.old self.new) }
    {
        let lane = self.number(net, at);
        self.own.reserve(1)?;
        self.own.admit(lane, car);
        Ok(())
    }

    /// The own node at this position in the network has this signal plan from the next step on. Takes no memory.
    pub fn set_signal(&mut self, node: NodeIx, plan: SignalPlan)
        requires low { self.old.low ≤ node }
        requires high { node < self.old.high }
        ensures { (net : NetSpec) → (other : PlanSeen) → ShowsAs plan other
            → DoesIf net (λ m. node < length m.signals) (planned node other) self.old self.new }
    {
        let at = node.position() - self.low;
        self.signals[at] = Some(plan);
    }

    /// Closes cells of an own lane, and tells how many of its cells are closed then: [`set_closed`](Self::set_closed) to close, for a
    /// caller of a single tile.
    ///
    /// # Errors
    /// Memory was refused; the tile is as it was.
    pub fn close(
        &mut self,
        net: &Network,
        at: Place,
        first: CellNo,
        last: CellNo,
    ) -> Result<u64, Starved>
        requires tile { IsTileOf net.now self.old }
        requires lane { IsLane net.now at }
        requires own { is_own net.now self.old.low self.old.high at ≡ true }
        requires order { first ≤ last }
        requires within { last < (link_at net.now at.link).length }
        ensures marks { OnOk result (Does net.now (at_place at (with_marks true first last)) self.old self.new) }
        ensures count { IfOk result (λ count. (m : Traffic) → IsOn net.now m → TileStandsFor self.old m
            → count ≡ closed_after true first last (lane_at m at)) }
        ensures starved { OnErr result (KeepsAll self.old self.new) }
    {
        self.set_closed(net, at, first, last, true)
    }

    /// Opens cells of an own lane again, and tells how many of its cells are closed then: [`set_closed`](Self::set_closed) to open, for
    /// a caller of a single tile.
    ///
    /// # Errors
    /// Memory was refused; the tile is as it was.
    pub fn reopen(
        &mut self,
        net: &Network,
        at: Place,
        first: CellNo,
        last: CellNo,
    ) -> Result<u64, Starved>
        requires tile { IsTileOf net.now self.old }
        requires lane { IsLane net.now at }
        requires own { is_own net.now self.old.low self.old.high at ≡ true }
        requires order { first ≤ last }
        requires within { last < (link_at net.now at.link).length }
        ensures marks { OnOk result (Does net.now (at_place at (with_marks false first last)) self.old self.new) }
        ensures count { IfOk result (λ count. (m : Traffic) → IsOn net.now m → TileStandsFor self.old m
            → count ≡ closed_after false first last (lane_at m at)) }
        ensures starved { OnErr result (KeepsAll self.old self.new) }
    {
        self.set_closed(net, at, first, last, false)
    }

    /// Closes the cells of an own lane from `first` to `last`, or opens them, and tells how many of its cells are closed then.
    ///
    /// # Errors
    /// Memory was refused; the tile is as it was.
    pub fn set_closed(
        &mut self,
        net: &Network,
        at: Place,
        first: CellNo,
        last: CellNo,
        closed: bool,
    ) -> Result<u64, Starved>
        requires tile { IsTileOf net.now self.old }
        requires lane { IsLane net.now at }
        requires own { is_own net.now self.old.low self.old.high at ≡ true }
        requires order { first ≤ last }
        requires within { last < (link_at net.now at.link).length }
        ensures marks { OnOk result (Does net.now (at_place at (with_marks closed first last)) self.old self.new) }
        ensures count { IfOk result (λ count. (m : Traffic) → IsOn net.now m → TileStandsFor self.old m
            → count ≡ closed_after closed first last (lane_at m at)) }
        ensures starved { OnErr result (KeepsAll self.old self.new) }
    {
        let lane = self.number(net, at);
        self.own.set_closed(lane, first, last, closed)?;
        Ok(self.own.closed_cells(lane))
    }

    /// All of an own lane, as a reply: its buffer, its cells, its closed stretches and who waits.
    ///
    /// # Errors
    /// Memory for the lists was refused.
    pub fn lane(&self, alloc: Global, net: &Network, at: Place) -> Result<Reply, Starved>
        requires tile { IsTileOf net.now self.now }
        requires lane { IsLane net.now at }
        requires own { is_own net.now self.now.low self.now.high at ≡ true }
        ensures { IfOk result (λ reply. (m : Traffic) → IsOn net.now m → TileStandsFor self.now m
            → reply ≡ shown_lane (lane_at m at)) }
    {
        let lane = self.number(net, at);
        self.own.lane(alloc, lane)
    }
}
