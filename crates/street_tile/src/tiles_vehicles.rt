//! Commands that name a vehicle: it is sought on the lanes of the link on which it was last put, and then in all tiles.
//! `street_engine` calls them.
ghost use Rattle.std.specs.Prelude.{◌≡◌, ℕ, ◌<◌, length, true, false, IsSome, IfOk};
ghost use Rattle.street_base.specs.Prelude.{IsSoundTraffic, IsWhole, whereabouts_on_lanes, Traffic};
ghost use Rattle.street_lanes.specs.Prelude.{IsLane};
ghost use Rattle.street_tile.specs.Prelude.{without, TilesStandFor, TilesGo, TileHasNot};

use crate::tiles::Tiles;
use std::alloc::Global;
use street_base::{CarNo, LaneNo, LinkIx, Place, Starved, Whereabouts};

impl Tiles {
    /// How many lanes a link has; 0 where no link has the position, as nothing relies on a hint.
    fn lanes_of(&self, link: LinkIx) -> LaneNo
        ensures { (lane : ℕ) → lane < result → IsLane self.now.network (record { link = link; lane = lane }) }
    {
        match self.network.spec().links.as_slice().get(link.position()) {
            Some(it) => it.lanes as LaneNo,
            None => 0,
        }
    }

    /// Takes a vehicle out of the lane `at`, and tells whether it was there.
    fn take_on(&mut self, at: Place, number: CarNo) -> bool
        requires { IsLane self.old.network at }
        ensures taken { result ≡ true → TilesGo IsWhole (without number) self.old self.new }
        ensures kept { result ≡ false → self.new ≡ self.old }
    {
        let i = self.owner_of_link(at.link);
        self.tiles[i]
            .take_out_on(&self.network, at, number)
            .is_some()
    }

    /// Takes a vehicle out, sought on the lanes of this link alone, and tells whether it was there; if not, it may be elsewhere.
    fn take_on_link(&mut self, link: LinkIx, number: CarNo) -> bool
        ensures taken { result ≡ true → TilesGo IsWhole (without number) self.old self.new }
        ensures kept { result ≡ false → self.new ≡ self.old }
    {
        for lane in 0..self.lanes_of(link) {
            if self.take_on(Place { link, lane }, number) {
                return true;
            }
        }
        false
    }

    /// Takes a vehicle out of tile `i`, and tells whether it was there.
    fn take_in_tile(&mut self, i: usize, number: CarNo) -> bool
        requires { i < length self.old.tiles }
        ensures taken { result ≡ true → TilesGo IsWhole (without number) self.old self.new }
        ensures kept { result ≡ false → self.new ≡ self.old }
        ensures nowhere { result ≡ false → TileHasNot self.old i number }
    {
        self.tiles[i].take_out(&self.network, number).is_some()
    }

    /// Takes the vehicle of a number out, wherever it is; nothing where it is on no lane. Takes no memory.
    pub fn take_out(&mut self, number: CarNo)
        ensures { TilesGo IsWhole (without number) self.old self.new }
    {
        if let Some(link) = self.hints.get(number)
            && self.take_on_link(link, number)
        {
            return;
        }
        for i in 0..self.len() {
            if self.take_in_tile(i, number) {
                return;
            }
        }
    }

    /// Where a vehicle is, sought on the lanes of this link alone; `None` promises nothing, it may be elsewhere. Takes memory for
    /// the plan that it answers.
    ///
    /// # Errors
    /// Memory for the plan was refused.
    fn find_on_link(
        &self,
        alloc: Global,
        link: LinkIx,
        number: CarNo,
    ) -> Result<Option<Whereabouts>, Starved>
        ensures { IfOk result (λ found. IsSome found → (m : Traffic) → IsSoundTraffic m → TilesStandFor self.now m → found ≡ whereabouts_on_lanes m number) }
    {
        for lane in 0..self.lanes_of(link) {
            let at = Place { link, lane };
            let i = self.owner_of_link(link);
            if let Some(found) = self.tiles[i].find_on(alloc, &self.network, at, number)? {
                return Ok(Some(found));
            }
        }
        Ok(None)
    }

    /// Where a vehicle is, if it is on a lane: one that has ended is on none. Takes memory for the plan that it answers.
    ///
    /// # Errors
    /// Memory for the plan was refused.
    pub fn find(&self, alloc: Global, number: CarNo) -> Result<Option<Whereabouts>, Starved>
        ensures { IfOk result (λ found. (m : Traffic) → IsSoundTraffic m → TilesStandFor self.now m → found ≡ whereabouts_on_lanes m number) }
    {
        if let Some(link) = self.hints.get(number)
            && let Some(found) = self.find_on_link(alloc, link, number)?
        {
            return Ok(Some(found));
        }
        for i in 0..self.tiles.len() {
            if let Some(found) = self.tiles[i].find(alloc, &self.network, number)? {
                return Ok(Some(found));
            }
        }
        Ok(None)
    }
}
