//! Hints of a tile: under which key a vehicle may be, and from whom on to look for a car's place among those who wait. A hint
//! may be wrong: whoever takes one tests it. `lanes.rt` keeps them; departures and searches ask.
ghost use Rattle.std.specs.Prelude.{◌<◌, length};
ghost use Rattle.street_yard.specs.Prelude.{IsOnList};

use crate::search::stands_on;
use std::alloc::{AllocError, Global};
use street_base::{Car, CarNo, Step};
use street_yard::{Key, ListId, Yard};

/// Of so many who wait in a row, the first is marked.
const STRIDE: usize = 16;

/// Marks are made where at least so many wait on a lane: fewer are walked as fast.
const FEWEST: usize = 64;

/// A mark: one who waited as the marks were made, from whom a search may begin. The marks on cars in `street_yard` are others.
#[derive(Clone, Copy)]
struct Mark {
    depart: Step,
    number: CarNo,
    key: Key,
}

impl Mark {
    /// Whether the marked one departs before a car: by depart, then by number.
    fn is_ahead_of(&self, car: &Car) -> bool {
        self.depart < car.step || self.depart == car.step && self.number < car.number
    }
}

/// Marks on the list of those who wait on a lane, the first to depart first, and how many keys and old marks searches passed since
/// they were made.
#[derive(Drop)]
struct Marks {
    marks: Vec<Mark>,
    hops: usize,
}

impl Marks {
    /// From whom on to look for a car's place on a list of those who wait: where all marks go before the car, from the last on
    /// the list; else from the last of those that do and are still right, or nobody. Adds to `hops` how many marks it passed
    /// that were no longer right.
    fn near(&self, yard: &Yard, list: ListId, car: &Car, hops: &mut usize) -> Option<Key>
        requires { list.0 < length yard.now.lists }
        ensures { IsOnList yard.now list.0 result }
    {
        let ahead = self
            .marks
            .partition_point(|mark: &Mark| -> bool { mark.is_ahead_of(car) });
        if ahead == self.marks.len() {
            return yard.list_back(list);
        }
        for mark in self.marks[..ahead].iter().rev() {
            if stands_on(yard, list, mark.key, mark.number) {
                return Some(mark.key);
            }
            *hops = hops.saturating_add(1);
        }
        None
    }

    /// Makes the marks of a list anew, one for the first of each 16 on it, as far as there is memory, and counts what searches
    /// pass from 0 on.
    fn renew(&mut self, yard: &Yard, list: ListId)
        requires { list.0 < length yard.now.lists }
    {
        self.hops = 0;
        self.marks.clear();
        let mut passed = 0;
        let mut cursor = yard.list_front(list);
        while let Some(key) = cursor {
            if passed % STRIDE == 0 {
                let mark = Mark {
                    depart: yard.step(key),
                    number: yard.number(key),
                    key,
                };
                if self.marks.push(mark).is_err() {
                    return;
                }
            }
            passed = passed.wrapping_add(1);
            cursor = yard.behind(key);
        }
    }
}

/// The key that a vehicle had as it began to wait.
#[derive(Clone, Copy)]
struct Given {
    number: CarNo,
    key: Key,
}

/// Hints for the lanes of a tile: marks on each list of those who wait, and by number the key of each vehicle that ever waited.
#[derive(Drop)]
pub(crate) struct Hints {
    lanes: Vec<Marks>,
    given: Vec<Given>,
}

impl Hints {
    /// No hints yet, for a tile of so many lanes.
    ///
    /// # Errors
    /// Memory was refused.
    pub(crate) fn new(alloc: Global, lanes: usize) -> Result<Hints, AllocError> {
        let mut none = Vec::with_capacity(alloc, lanes)?;
        for _lane in 0..lanes {
            none.push(Marks {
                marks: Vec::new(alloc),
                hops: 0,
            })?;
        }
        Ok(Hints {
            lanes: none,
            given: Vec::new(alloc),
        })
    }

    /// The key that the vehicle of a number may have, if there is a hint; it may be another's by now.
    pub(crate) fn key_of(&self, number: CarNo) -> Option<Key> {
        let at = self
            .given
            .partition_point(|given: &Given| -> bool { given.number < number });
        match self.given.get(at) {
            Some(given) if given.number == number => Some(given.key),
            _ => None,
        }
    }

    /// Notes that a vehicle, with a greater number than those before it, begins to wait under a key. Where memory is refused
    /// there is no hint.
    pub(crate) fn give(&mut self, number: CarNo, key: Key) {
        let _refused = self.given.push(Given { number, key }).is_err();
    }

    /// From whom on to look for the place of a car on `list`, those who wait on the lane `lane` of the tile; nobody means from
    /// the front. Adds to `hops` how many marks it passed that were no longer right.
    pub(crate) fn near(
        &self,
        yard: &Yard,
        lane: usize,
        list: ListId,
        car: &Car,
        hops: &mut usize,
    ) -> Option<Key>
        requires { list.0 < length yard.now.lists }
        ensures { IsOnList yard.now list.0 result }
    {
        match self.lanes.get(lane) {
            Some(marks) => marks.near(yard, list, car, hops),
            None => None,
        }
    }

    /// Notes that a search on `list`, those who wait on the lane `lane` of the tile, passed so many keys and marks. Where at
    /// least 64 wait, the marks are made anew once searches have passed more than four times as many as wait. Where memory is
    /// refused there are fewer marks.
    pub(crate) fn note(&mut self, yard: &Yard, lane: usize, list: ListId, hops: usize)
        requires { list.0 < length yard.now.lists }
    {
        let count = yard.list_len(list);
        if let Some(marks) = self.lanes.get_mut(lane) {
            marks.hops = marks.hops.saturating_add(hops);
            if count >= FEWEST && marks.hops / 4 > count {
                marks.renew(yard, list);
            }
        }
    }
}
