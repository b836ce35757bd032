//! Which lanes are open, as all tiles see it: what each tile found of its own lanes' mouths is copied into the view. `step.rt`
//! calls it between motion and releases.
ghost use Rattle.std.specs.Prelude.{◌≡◌, ℕ, ◌*◌, length, false, slice_get, Some, IsTrue, ◌↔◌, IfOk, All};
ghost use Rattle.std.specs.List.{list_any};
ghost use Rattle.street_base.specs.declared.names.Place.{Place};
ghost use Rattle.street_base.specs.Prelude.{is_place, Traffic};
ghost use Rattle.street_lanes.specs.Prelude.{IsLane, AllLanes};
ghost use Rattle.street_net.specs.Prelude.{mouth};
ghost use Rattle.street_tile.specs.Prelude.{IsTileOf, IsRoads, AreTiles, AllStand, Shows, ShowsOwn};

use crate::tile::Tile;
use std::alloc::Global;
use std::marker::Model;
use street_base::Starved;
use street_lanes::Lanes;
use street_net::{Network, slot};

/// For each lane of a network whether its cell 0 is empty and not closed, by `street_net::slot`: two entries a link, of which a
/// link of one lane uses the first. Contracts see the list.
#[derive(Drop)]
pub struct View {
    /// Of each lane, by slot, whether its mouth is open.
    pub(crate) mouths: Vec<bool>,
}

impl Model for View {
    ghost use Rattle.std.specs.Prelude.{List, Bool};

    ghost Value = { List Bool };

    ghost view = { λ v. v.mouths.items };
}

impl View {
    /// A view of a network, in which no lane is open so far.
    ///
    /// # Errors
    /// Memory for it was refused.
    pub fn new(alloc: Global, net: &Network) -> Result<View, Starved>
        ensures { IfOk result (λ view. length view ≡ 2 * length net.now.links) }
    {
        let count = 2 * net.spec().links.as_slice().len();
        let mouths = vec![in alloc; false; count]?;
        Ok(View { mouths })
    }

    /// How many mouths it has room for: two a link.
    pub fn len(&self) -> usize
        ensures { result ≡ length self.now }
    {
        self.mouths.len()
    }
}

/// Copies the mouth of each of these lanes from one list of mouths into another, of which the other lanes' stay.
fn copy_lanes(own: &Lanes, net: &Network, mouths: &[bool], shown: &mut [bool])
    requires roads { IsRoads net.now }
    requires there { AllLanes net.now own.now.places }
    requires held { length mouths.now ≡ 2 * length net.now.links }
    requires wide { length shown.old ≡ 2 * length net.now.links }
    ensures own { (j : ℕ) → (p : Place) → slice_get own.now.places j ≡ Some p
        → mouth shown.new p ≡ mouth mouths.now p }
    ensures rest { (p : Place) → IsLane net.now p
        → list_any (is_place p) own.now.places ≡ false → mouth shown.new p ≡ mouth shown.old p }
    ensures wide { length shown.new ≡ length shown.old }
{
    for n in 0..own.len() {
        let at = own.at(n);
        let slot = slot(at.link, at.lane);
        shown[slot] = mouths[slot];
    }
}

impl Tile {
    /// Copies into the view what the tile holds of the mouth of each own lane, as motion left it; the lanes are not looked at.
    /// Takes no memory.
    pub fn mouths(&self, net: &Network, view: &mut View)
        requires tile { IsTileOf net.now self.now }
        requires view { length view.old ≡ 2 * length net.now.links }
        ensures own { (j : ℕ) → (p : Place) → slice_get self.now.own.places j ≡ Some p
            → mouth view.new p ≡ mouth self.now.mouths p }
        ensures rest { (p : Place) → IsLane net.now p → list_any (is_place p) self.now.own.places ≡ false
            → mouth view.new p ≡ mouth view.old p }
        ensures wide { length view.new ≡ length view.old }
    {
        // All nodes are the tile's, and so all lanes.
        if self.low == 0 && self.high == net.spec().nodes.as_slice().len() {
            view.mouths.copy_from_slice(&self.mouths);
        } else {
            copy_lanes(&self.own, net, &self.mouths, &mut view.mouths);
        }
    }
}

/// Each tile shows its mouths, which it found itself: the calling thread only copies.
pub(crate) fn publish(net: &Network, tiles: &[Tile], view: &mut View)
    requires tiles { AreTiles net.now tiles.now }
    requires shown { All ShowsOwn tiles.now }
    requires view { length view.old ≡ 2 * length net.now.links }
    ensures shows { (m : Traffic) → AllStand net.now tiles.now m → Shows net.now view.new m }
    ensures wide { length view.new ≡ length view.old }
{
    for i in 0..tiles.len() {
        tiles[i].mouths(net, view);
    }
}
