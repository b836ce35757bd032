//! How vehicles ended, and how many: kept by number, in the order of admission. `streets.rt` keeps them.
ghost use Rattle.std.specs.Prelude.{◌≡◌, ◌+◌, ◌<◌, ◌≤◌, ◌++◌, ◌∷◌, [], length, Some, None, slice_get, slice_set, slice_index_or, OnOk, count_by};
ghost use Rattle.street_base.specs.declared.reply.End.TheVariants.{Arrived, Taken};
ghost use Rattle.street_base.specs.Prelude.{most_vehicles, has_arrived, was_taken, with_arrivals};
ghost use Rattle.street_tile.specs.Prelude.{Each, all_arrived};
ghost use Rattle.street_engine.specs.Prelude.{AreComing};

use std::alloc::Global;
use std::marker::Model;
use street_base::{CarNo, End, Starved, Step};
use street_tile::Tiles;

/// How each vehicle ended, if it did, by the numbers given so far; how many have arrived, and how many were taken out.
#[derive(Drop)]
pub(crate) struct Ends {
    ends: Vec<Option<End>>,
    arrived: CarNo,
    taken: CarNo,
}

impl Model for Ends {
    ghost use Rattle.std.specs.Prelude.{◌-◌, length, vec_capacity};
    ghost use Rattle.street_engine.specs.Prelude.{EndsView, AreCounted};

    ghost Value = { EndsView };

    ghost view = { λ e. record { ends = e.ends.items; room = vec_capacity e.ends - length e.ends.items } };

    ghost invariant = { λ e. AreCounted e.ends.items e.arrived e.taken };
}

impl Ends {
    /// The ends of no vehicles: no number is given yet. Takes no memory.
    pub(crate) fn new(alloc: Global) -> Ends
        ensures { result.ends ≡ [] }
    {
        Ends {
            ends: Vec::new(alloc),
            arrived: 0,
            taken: 0,
        }
    }

    /// How many vehicles were given a number, from 0 on, ended or not.
    pub(crate) fn len(&self) -> CarNo
        ensures count { result ≡ length self.now.ends }
        ensures few { length self.now.ends ≤ most_vehicles }
    {
        self.ends.len() as CarNo
    }

    /// How the vehicle of a number ended; none where it has not, and where the number is not given.
    pub(crate) fn get(&self, number: CarNo) -> Option<End>
        ensures { result ≡ slice_index_or self.now.ends number None }
    {
        match self.ends.get(number as usize) {
            Some(end) => *end,
            None => None,
        }
    }

    /// How many vehicles have arrived.
    pub(crate) fn arrived(&self) -> CarNo
        ensures count { result ≡ count_by has_arrived self.now.ends }
        ensures few { length self.now.ends ≤ most_vehicles }
    {
        self.arrived
    }

    /// How many vehicles were taken out.
    pub(crate) fn taken(&self) -> CarNo
        ensures { result ≡ count_by was_taken self.now.ends }
    {
        self.taken
    }

    /// Makes room for one more number.
    ///
    /// # Errors
    /// Memory was refused.
    pub(crate) fn reserve(&mut self) -> Result<(), Starved>
        ensures room { OnOk result (1 ≤ self.new.room) }
        ensures kept { self.new.ends ≡ self.old.ends }
    {
        self.ends.reserve(1)?;
        Ok(())
    }

    /// Notes that one more number is given, for which there is room. Its vehicle has not ended.
    pub(crate) fn note_given(&mut self)
        requires room { 1 ≤ self.old.room }
        requires few { length self.old.ends < most_vehicles }
        ensures { self.new.ends ≡ self.old.ends ++ None ∷ [] }
    {
        self.ends.push_reserved(None);
    }

    /// Notes that a vehicle that had not ended has arrived in the step of this clock.
    pub(crate) fn note_arrived(&mut self, number: CarNo, clock: Step)
        requires { slice_get self.old.ends number ≡ Some None }
        ensures { self.new.ends ≡ slice_set self.old.ends number (Some (Arrived clock)) }
    {
        self.ends[number as usize] = Some(End::Arrived {
            step: u64::from(clock),
        });
        self.arrived += 1;
    }

    /// Notes that a vehicle that had not ended was taken out at this clock.
    pub(crate) fn note_taken(&mut self, number: CarNo, clock: Step)
        requires { slice_get self.old.ends number ≡ Some None }
        ensures { self.new.ends ≡ slice_set self.old.ends number (Some (Taken clock)) }
    {
        self.ends[number as usize] = Some(End::Taken {
            step: u64::from(clock),
        });
        self.taken += 1;
    }
}

/// Notes the end of each vehicle whose number the tiles hold as one that arrived in the step of this clock; the tiles then hold none.
pub(crate) fn note_arrivals(tiles: &mut Tiles, ends: &mut Ends, clock: Step)
    requires { AreComing (all_arrived tiles.old.tiles) ends.old.ends }
    ensures network { tiles.new.network ≡ tiles.old.network }
    ensures long { length tiles.new.tiles ≡ length tiles.old.tiles }
    ensures tiles { Each (λ x y. y ≡ record x { arrived = [] }) tiles.old.tiles tiles.new.tiles }
    ensures ends { ends.new.ends ≡ with_arrivals clock (all_arrived tiles.old.tiles) ends.old.ends }
{
    while let Some(number) = tiles.next_arrival() {
        ends.note_arrived(number, clock);
    }
}
