//! Hand-overs: vehicles between two lanes, and how each is moved to the tile that owns the lane that it enters. `step.rt` calls
//! it between releases and entries.
//!
//! Releases leave hand-overs with the tile of the lane that the vehicle left. The thread that calls for the step moves each to
//! the tile of the lane that it enters ([`move_all`]), where it is among those who come ([`Comers`]) until the entries. In a
//! step at most one goes to a lane, as the lane's mouth closes behind the first: so nobody is put over another.
ghost use Rattle.std.specs.Prelude.{◌≡◌, ℕ, ◌<◌, ◌≤◌, length, List, [], ◌∷◌, ◌++◌, Some, None, IfOk};
ghost use Rattle.std.specs.Prelude.{option_to_list, map, replicate, true, slice_index_or, slice_set, All};
ghost use Rattle.street_base.specs.Prelude.{vehicle_of, most_plan};
ghost use Rattle.street_lanes.specs.Prelude.{IsLane};
ghost use Rattle.street_tile.specs.Prelude.{Transfer, entry_in, Awaits, IsMoved, MovesLast, all_handed, received};
ghost use Rattle.street_tile.specs.Prelude.{KeepsHints, TileView, IsTileOf, Each, AreTiles, is_own, nobody};

use crate::cut::{nones, owner_of_node};
use crate::{LinkHints, Tile};
use std::alloc::{AllocError, Global};
use std::marker::Model;
use street_base::{Car, Place};
use street_lanes::{FilledLists, ListKind};
use street_net::{Network, slot};

/// A vehicle that left a buffer, with the lane that it enters. It is on no lane meanwhile.
#[derive(Drop)]
pub struct HandOver {
    pub(crate) to: Place,
    pub(crate) car: Car,
}

impl Model for HandOver {
    ghost use Rattle.std.specs.Prelude.{◌≤◌, length};
    ghost use Rattle.street_base.specs.Prelude.{most_plan, vehicle_of};
    ghost use Rattle.street_tile.specs.Prelude.{Transfer};

    ghost Value = { Transfer };

    ghost view = { λ h. record { to = h.to; vehicle = vehicle_of h.car } };

    ghost invariant = { λ h. length h.car.plan.value ≤ most_plan };
}

impl HandOver {
    /// The lane that the vehicle enters.
    pub fn to(&self) -> Place
        ensures { result ≡ self.now.to }
    {
        self.to
    }
}

/// For each own lane of a tile, by its number, who comes to it, or nobody. Mostly nobody does, and entries look at no lane to which
/// nobody comes. Contracts see the list `by_lane`.
#[derive(Drop)]
pub(crate) struct Comers {
    by_lane: Vec<Option<HandOver>>,
    // Of each lane's first list, by its number, whether somebody comes to the lane.
    full: FilledLists,
}

impl Model for Comers {
    ghost use Rattle.std.specs.Prelude.{List, Option};
    ghost use Rattle.street_tile.specs.Prelude.{Transfer, AreMarked};

    ghost Value = { List (Option Transfer) };

    ghost view = { λ c. c.by_lane.items };

    ghost invariant = { λ c. AreMarked c.by_lane.items c.full };
}

impl Comers {
    /// Nobody comes to any of so many lanes.
    ///
    /// # Errors
    /// Memory was refused, or three lists a lane are 2^32 lists or more.
    pub(crate) fn new(alloc: Global, lanes: usize) -> Result<Comers, AllocError>
        ensures { IfOk result (λ coming. coming ≡ replicate lanes None) }
    {
        if lanes > u32::MAX as usize / 3 {
            return Err(AllocError);
        }
        let by_lane = nones(alloc, lanes)?;
        let full = FilledLists::new(alloc, 3 * lanes)?;
        Ok(Comers { by_lane, full })
    }

    /// Notes who comes to own lane `n`.
    pub(crate) fn put(&mut self, n: usize, hand_over: HandOver)
        requires { n < length self.old }
        ensures { self.new ≡ slice_set self.old n (Some hand_over) }
    {
        self.by_lane[n] = Some(hand_over);
        self.full.add(3 * n);
    }

    /// Takes who comes to own lane `n`, to which nobody comes then.
    pub(crate) fn take(&mut self, n: usize) -> Option<HandOver>
        requires { n < length self.old }
        ensures taken { result ≡ slice_index_or self.old n None }
        ensures nobody { self.new ≡ slice_set self.old n None }
    {
        self.full.remove(3 * n);
        self.by_lane[n].take()
    }

    /// The first own lane, from `n` on, to which somebody comes; the count of lanes where nobody does. Nobody comes to the lanes
    /// before it.
    #[inline]
    pub(crate) fn next(&self, n: usize) -> usize
        requires { n ≤ length self.now }
        ensures not_before { n ≤ result }
        ensures within { result ≤ length self.now }
        ensures passed { (k : ℕ) → n ≤ k → k < result → slice_index_or self.now k None ≡ None }
    {
        let count = self.by_lane.len();
        match self.full.next(ListKind::Cells, n) {
            Some(next) => next.min(count),
            None => count,
        }
    }
}

impl Tile {
    /// How many hand-overs of the last releases wait to be moved.
    pub fn hand_overs(&self) -> usize
        ensures { result ≡ length self.now.handed }
    {
        self.handed.len()
    }

    /// Takes the last hand-over that waits to be moved; none when all were taken.
    pub fn next_hand_over(&mut self) -> Option<HandOver>
        ensures tile { self.new ≡ record self.old { handed = self.new.handed } }
        ensures rest { self.old.handed ≡ self.new.handed ++ option_to_list result }
        ensures none { result ≡ None → self.old.handed ≡ [] }
    {
        self.handed.pop()
    }

    /// Takes in a hand-over to one of the own lanes: it is among those who come until the entries.
    pub fn bring(&mut self, net: &Network, hand_over: HandOver)
        requires tile { IsTileOf net.now self.old }
        requires lane { IsLane net.now hand_over.to }
        requires own { is_own net.now self.old.low self.old.high hand_over.to ≡ true }
        ensures { (es : List Transfer) → Awaits es self.old → self.new ≡ record self.old {
          coming = map (entry_in (hand_over ∷ es)) self.old.own.places;
        } }
    {
        let to = hand_over.to();
        let n = self.numbers[slot(to.link, to.lane)];
        self.coming.put(n, hand_over);
    }
}

/// The position of the tile that owns a lane: that of the node to which its link runs. Where there is one tile it is 0, and the
/// network is not looked at.
fn owner_of_lane(net: &Network, tiles: &[Tile], to: Place) -> usize
    requires tiles { AreTiles net.now tiles.now }
    requires lane { IsLane net.now to }
    ensures inside { result < length tiles.now }
    ensures own { (d : TileView) → is_own net.now (slice_index_or tiles.now result d).low
        (slice_index_or tiles.now result d).high to ≡ true }
{
    if tiles.len() == 1 {
        return 0;
    }
    owner_of_node(net, tiles.len(), net.end_of(to.link))
}

/// The last hand-over of tile `i`, if it has one, is moved to the tile that owns the lane it goes to, and the hints follow.
fn move_one(net: &Network, tiles: &mut [Tile], hints: &mut LinkHints, i: usize)
    requires inside { i < length tiles.old }
    requires tiles { AreTiles net.now tiles.old }
    requires lanes { All (λ x. All (λ e. IsLane net.now e.to) x.handed) tiles.old }
    requires awaits { (es : List Transfer) × All (Awaits es) tiles.old }
    ensures moved { MovesLast i tiles.old tiles.new }
    ensures hints { KeepsHints hints.old hints.new }
{
    if let Some(hand_over) = tiles[i].next_hand_over() {
        let to = hand_over.to();
        let j = owner_of_lane(net, tiles, to);
        hints.follow(&hand_over);
        tiles[j].bring(net, hand_over);
    }
}

/// The hand-overs of tile `i` are moved to the tiles that own the lanes they go to, and the hints follow.
fn move_from(net: &Network, tiles: &mut [Tile], hints: &mut LinkHints, i: usize)
    requires inside { i < length tiles.old }
    requires tiles { AreTiles net.now tiles.old }
    requires lanes { All (λ x. All (λ e. IsLane net.now e.to) x.handed) tiles.old }
    requires awaits { (es : List Transfer) × All (Awaits es) tiles.old }
    ensures moved { (es : List Transfer) → (d : TileView) → All (Awaits es) tiles.old
        → IsMoved i [] ((slice_index_or tiles.old i d).handed ++ es) tiles.old tiles.new }
    ensures hints { KeepsHints hints.old hints.new }
{
    let count = tiles[i].hand_overs();
    for k in 0..count {
        move_one(net, tiles, hints, i);
    }
}

/// Each hand-over is moved to the tile that owns the lane it goes to, and the hints follow.
pub(crate) fn move_all(net: &Network, tiles: &mut [Tile], hints: &mut LinkHints)
    requires tiles { AreTiles net.now tiles.old }
    requires nobody { All (λ x. x.coming ≡ nobody x) tiles.old }
    requires lanes { All (λ x. All (λ e. IsLane net.now e.to) x.handed) tiles.old }
    ensures moved { Each (λ x y. y ≡ received (all_handed tiles.old) x) tiles.old tiles.new }
    ensures hints { KeepsHints hints.old hints.new }
{
    for i in 0..tiles.len() {
        move_from(net, tiles, hints, i);
    }
}
