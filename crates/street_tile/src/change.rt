//! Lane changes on a tile's own lanes. `step.rt` calls it.
ghost use Rattle.std.specs.Prelude.{ℕ, ◌<◌, ◌≤◌, length};
ghost use Rattle.street_base.specs.declared.net.NetSpec.{NetSpec};
ghost use Rattle.street_lanes.specs.Prelude.{Same, lane_of, HasNobodyInCells};
ghost use Rattle.street_lanes.specs.Lanes.{IsOf};
ghost use Rattle.street_tile.specs.Prelude.{IsTileOf, IsRoads, ArePairs, AreNextPairs, BeginsLink, ChangeLanes, LanePhase};

use crate::Tile;
use street_base::Step;
use street_lanes::{Lanes, ListKind};
use street_net::Network;

/// The lane that begins the first link, from the one that begins at own lane `lane` on, on which somebody stands; the count of lanes
/// where nobody stands on any.
fn next_link(own: &Lanes, lane: usize) -> usize
    requires lane { lane ≤ length own.now.lanes }
    requires begins { BeginsLink own.now lane }
    requires pairs { (net : NetSpec) × ArePairs net own.now.places }
    ensures not_before { lane ≤ result }
    ensures within { result ≤ length own.now.lanes }
    ensures begins { BeginsLink own.now result }
    ensures passed { (k : ℕ) → lane ≤ k → k < result → HasNobodyInCells (lane_of own.now k) }
{
    let n = own.next_filled(ListKind::Cells, lane);
    if n < own.len() && own.at(n).lane != 0 {
        return n - 1;
    }
    n
}

/// Lane changes, in the step of this clock, on each link of two lanes among a tile's own lanes. `pairs` tells of each lane the next
/// one behind it that begins such a link, so that links of one lane are passed over.
fn change_lanes(own: &mut Lanes, net: &Network, pairs: &[usize], clock: Step)
    requires of { IsOf net.now own.old }
    requires roads { IsRoads net.now }
    requires pairs { ArePairs net.now own.old.places }
    requires next { AreNextPairs own.old.places pairs.now }
    ensures same { Same own.old own.new }
    ensures room { own.old.room ≤ own.new.room }
    ensures stand { ChangeLanes net.now clock own.old own.new }
{
    let mut n = next_link(own, 0);
    while n < own.len() {
        let mut after = pairs[n];
        if net.lanes_of(own.at(n).link) == 2 {
            // The lane is lane 0 of its link, and the next one is the link's other lane.
            own.change(net, n, clock);
            after = n + 2;
        }
        n = next_link(own, after);
    }
}

impl Tile {
    /// Lane changes on each own link of two lanes. Takes no memory.
    pub fn phase_lanes(&mut self, net: &Network)
        requires { IsTileOf net.now self.old }
        ensures { LanePhase net.now self.old self.new }
    {
        change_lanes(&mut self.own, net, &self.next_pairs, self.clock);
    }
}
