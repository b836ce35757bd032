//! Commands to one tile that name a vehicle, and how many vehicles are on its lanes. `tiles_vehicles.rt` calls them.
ghost use Rattle.std.specs.Prelude.{◌≡◌, ◌<◌, length, count_by, is_some, option_map, None, true, IfOk, IfSome};
ghost use Rattle.street_base.specs.Prelude.{vehicle_of, Traffic, lane_at, in_lane, whereabouts_in};
ghost use Rattle.street_lanes.specs.Prelude.{IsLane, place_at, vehicle_on};
ghost use Rattle.street_tile.specs.Prelude.{IsTileOf, TileStandsFor, is_own, without, DoesIf, HaveNot, Have, Hold, HaveAtMostOne, WhereOnce, Finds, FindsAt, over};

use crate::tile::Tile;
use std::alloc::Global;
use street_base::{Car, CarNo, Place, Starved, Whereabouts};
use street_lanes::LaneTotals;
use street_net::Network;

impl Tile {
    /// Takes a vehicle out of own lane `n` (its number among the own lanes), if it is there.
    fn take_out_of_own(&mut self, net: &Network, n: usize, number: CarNo) -> Option<Car>
        requires tile { IsTileOf net.now self.old }
        requires lane { n < length self.old.own.places }
        ensures number { IfSome result (λ car. car.number ≡ number) }
        ensures some { IfSome result (λ car. DoesIf net.now (λ m. HaveAtMostOne self.old.own.places m number) (without number) self.old self.new) }
        ensures vehicle { WhereOnce net.now self.old number (λ m. option_map vehicle_of result ≡ vehicle_on number (lane_at m (place_at self.old.own n))) }
        ensures had { IfSome result (λ car. WhereOnce net.now self.old number (λ m. 0 < in_lane number (lane_at m (place_at self.old.own n)))) }
        ensures none { result ≡ None → self.new ≡ self.old }
        ensures had_not { result ≡ None → WhereOnce net.now self.old number (λ m. in_lane number (lane_at m (place_at self.old.own n)) ≡ 0) }
    {
        self.own.take_out(n, number)
    }

    /// Takes a vehicle out of the own lane at the place `at`, if it is there. Takes no memory.
    pub fn take_out_on(&mut self, net: &Network, at: Place, number: CarNo) -> Option<Car>
        requires tile { IsTileOf net.now self.old }
        requires lane { IsLane net.now at }
        requires own { is_own net.now self.old.low self.old.high at ≡ true }
        ensures number { IfSome result (λ car. car.number ≡ number) }
        ensures some { IfSome result (λ car. DoesIf net.now (λ m. HaveAtMostOne self.old.own.places m number) (without number) self.old self.new) }
        ensures vehicle { WhereOnce net.now self.old number (λ m. option_map vehicle_of result ≡ vehicle_on number (lane_at m at)) }
        ensures had { IfSome result (λ car. WhereOnce net.now self.old number (λ m. 0 < in_lane number (lane_at m at))) }
        ensures none { result ≡ None → self.new ≡ self.old }
        ensures had_not { result ≡ None → WhereOnce net.now self.old number (λ m. in_lane number (lane_at m at) ≡ 0) }
    {
        let n = self.number(net, at);
        self.take_out_of_own(net, n, number)
    }

    /// Takes a vehicle out, wherever it is on the own lanes; nobody where it is on none of them. Takes no memory.
    pub fn take_out(&mut self, net: &Network, number: CarNo) -> Option<Car>
        requires { IsTileOf net.now self.old }
        ensures number { IfSome result (λ car. car.number ≡ number) }
        ensures some { IfSome result (λ car. DoesIf net.now (λ m. HaveAtMostOne self.old.own.places m number) (without number) self.old self.new) }
        ensures vehicle { IfSome result (λ car. WhereOnce net.now self.old number (λ m. Hold self.old.own.places m number (vehicle_of car))) }
        ensures had { IfSome result (λ car. WhereOnce net.now self.old number (λ m. Have self.old.own.places m number)) }
        ensures none { result ≡ None → self.new ≡ self.old }
        ensures had_not { result ≡ None → WhereOnce net.now self.old number (λ m. HaveNot self.old.own.places m number) }
    {
        for n in 0..self.own.len() {
            if let Some(car) = self.take_out_of_own(net, n, number) {
                return Some(car);
            }
        }
        None
    }

    /// Where a vehicle is on own lane `n` (its number among the own lanes), if it is there. Takes memory for the plan that it
    /// answers.
    ///
    /// # Errors
    /// Memory for the plan was refused.
    fn find_on_own(
        &self,
        alloc: Global,
        net: &Network,
        n: usize,
        number: CarNo,
    ) -> Result<Option<Whereabouts>, Starved>
        requires tile { IsTileOf net.now self.now }
        requires lane { n < length self.now.own.places }
        ensures found { IfOk result (FindsAt net.now self.now n number) }
        ensures there { IfOk result (λ found. WhereOnce net.now self.now number
            (λ m. found ≡ None → in_lane number (lane_at m (place_at self.now.own n)) ≡ 0)) }
    {
        self.own.find_on(alloc, net, n, number)
    }

    /// Where a vehicle is on the own lane at the place `at`, if it is there. Takes memory for the plan that it answers.
    ///
    /// # Errors
    /// Memory for the plan was refused.
    pub fn find_on(
        &self,
        alloc: Global,
        net: &Network,
        at: Place,
        number: CarNo,
    ) -> Result<Option<Whereabouts>, Starved>
        requires tile { IsTileOf net.now self.now }
        requires lane { IsLane net.now at }
        requires own { is_own net.now self.now.low self.now.high at ≡ true }
        ensures { IfOk result (λ found. WhereOnce net.now self.now number (λ m. found ≡ whereabouts_in net.now at number (lane_at m at))) }
    {
        let n = self.number(net, at);
        self.find_on_own(alloc, net, n, number)
    }

    /// Where a vehicle is on the own lanes, if it is on one. Takes memory for the plan that it answers.
    ///
    /// # Errors
    /// Memory for the plan was refused.
    pub fn find(
        &self,
        alloc: Global,
        net: &Network,
        number: CarNo,
    ) -> Result<Option<Whereabouts>, Starved>
        requires { IsTileOf net.now self.now }
        ensures { IfOk result (λ found. WhereOnce net.now self.now number (λ m. Finds net.now self.now.own.places m number found)) }
    {
        for n in 0..self.own.len() {
            if let Some(found) = self.find_on_own(alloc, net, n, number)? {
                return Ok(Some(found));
            }
        }
        Ok(None)
    }

    /// How many vehicles are in cells, in buffers and waiting on the own lanes. Looks at counts that are kept, and at no lane.
    pub fn totals(&self) -> LaneTotals
        ensures cells { (m : Traffic) → TileStandsFor self.now m → result.cells ≡ over self.now.own.places (λ lane. count_by is_some lane.track.cells) m }
        ensures buffers { (m : Traffic) → TileStandsFor self.now m → result.buffers ≡ over self.now.own.places (λ lane. length lane.queue) m }
        ensures waiting { (m : Traffic) → TileStandsFor self.now m → result.waiting ≡ over self.now.own.places (λ lane. length lane.waiting) m }
    {
        self.own.totals()
    }
}
