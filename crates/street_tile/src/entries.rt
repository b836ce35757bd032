//! Entries and departures on a tile's own lanes. `step.rt` calls it.
ghost use Rattle.std.specs.Prelude.{◌≡◌, ◌+◌, ◌<◌, ◌≤◌, length, None, Option, map};
ghost use Rattle.street_lanes.specs.Prelude.{Same, Others};
ghost use Rattle.street_tile.specs.Prelude.{PlacesAt, PlaceAll, DepartAll, EnterPhase, IsTileOf, IsPrepared};

use crate::Tile;
use crate::hand_over::{Comers, HandOver};
use street_base::Step;
use street_lanes::Lanes;
use street_net::Network;

/// The vehicle that comes to own lane `n`, if one does, is put in its cell 0.
fn place_comer(own: &mut Lanes, n: usize, coming: Option<HandOver>)
    requires lane { n < length own.old.lanes }
    requires room { 1 ≤ own.old.room }
    ensures same { Same own.old own.new }
    ensures stands { PlacesAt n coming own.old own.new }
    ensures others { Others n own.old own.new }
    ensures room { own.old.room ≤ own.new.room + 1 }
{
    if let Some(hand_over) = coming {
        // Where cell 0 is free, as `stands` asks, nobody is given back.
        let _nobody = own.place(n, hand_over.car);
    }
}

/// The vehicle that comes to each of these lanes is put in the lane's cell 0. Nobody is coming afterwards.
fn place_comers(own: &mut Lanes, coming: &mut Comers)
    requires even { length coming.old ≡ length own.old.places }
    requires room { length own.old.places ≤ own.old.room }
    ensures same { Same own.old own.new }
    ensures none { coming.new ≡ map (λ c. None) coming.old }
    ensures lanes { PlaceAll coming.old own.old own.new }
{
    let count = own.len();
    let mut n = coming.next(0);
    while n < count {
        place_comer(own, n, coming.take(n));
        n = coming.next(n + 1);
    }
}

/// On each of these lanes the first of those who wait departs, where its time has come and cell 0 is free.
fn depart_lanes(own: &mut Lanes, clock: Step)
    ensures same { Same own.old own.new }
    ensures lanes { DepartAll clock own.old own.new }
{
    let mut n = own.next_to_depart(0, clock);
    while n < own.len() {
        own.depart(n, clock);
        n = own.next_to_depart(n + 1, clock);
    }
    own.look_ahead(clock);
}

impl Tile {
    /// The vehicle that comes to each own lane is put in its cell 0; then on each lane the first of those who wait departs, where its
    /// time has come and cell 0 is free. Takes no memory.
    pub fn phase_enter(&mut self, net: &Network)
        requires tile { IsTileOf net.now self.old }
        requires prepared { IsPrepared self.old }
        ensures { EnterPhase net.now self.old self.new }
    {
        place_comers(&mut self.own, &mut self.coming);
        depart_lanes(&mut self.own, self.clock);
    }
}
