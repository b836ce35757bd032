//! Where vehicles were last put: there a search begins, and nothing relies on it. `tiles.rt` keeps them; searches for a vehicle
//! begin by them.
ghost use Rattle.std.specs.Prelude.{◌≡◌, ◌≤◌, ◌++◌, [], ◌∷◌, slice_get, slice_set, OnOk};

use crate::hand_over::HandOver;
use std::alloc::Global;
use std::marker::Model;
use street_base::{CarNo, LinkIx, Starved};

/// For each number given so far the link on which its vehicle was last put. A vehicle is sought there first; whether it is
/// there is asked of the lanes.
#[derive(Drop)]
pub struct LinkHints {
    links: Vec<LinkIx>,
}

impl Model for LinkHints {
    ghost use Rattle.std.specs.Prelude.{◌-◌, vec_len, vec_capacity};
    ghost use Rattle.street_tile.specs.Prelude.{Hinted};

    ghost Value = { Hinted };

    ghost view = { λ h. record { links = h.links.items; room = vec_capacity h.links - vec_len h.links } };
}

impl LinkHints {
    /// No number is given yet. Takes no memory.
    pub fn new(alloc: Global) -> LinkHints
        ensures { result.links ≡ [] }
    {
        LinkHints {
            links: Vec::new(alloc),
        }
    }

    /// Makes room for one more number.
    ///
    /// # Errors
    /// Memory was refused; the hints are as they were.
    pub fn reserve(&mut self) -> Result<(), Starved>
        ensures links { self.new.links ≡ self.old.links }
        ensures ok { OnOk result (1 ≤ self.new.room) }
    {
        self.links.reserve(1)?;
        Ok(())
    }

    /// The next number is given, to a vehicle that is put on this link. Takes no memory.
    pub fn give(&mut self, link: LinkIx)
        requires { 1 ≤ self.old.room }
        ensures { self.new.links ≡ self.old.links ++ link ∷ [] }
    {
        self.links.push_reserved(link);
    }

    /// The link on which the vehicle of a number was last put; none if the number was not given.
    pub fn get(&self, number: CarNo) -> Option<LinkIx>
        ensures { result ≡ slice_get self.now.links number }
    {
        self.links.get(number as usize).copied()
    }

    /// The vehicle of a hand-over is put on the link that it enters; nothing if its number was not given. Takes no memory.
    pub fn follow(&mut self, hand_over: &HandOver)
        ensures { self.new ≡ record self.old { links = slice_set self.old.links hand_over.now.vehicle.number hand_over.now.to.link } }
    {
        if let Some(hint) = self.links.get_mut(hand_over.car.number as usize) {
            *hint = hand_over.to.link;
        }
    }
}
