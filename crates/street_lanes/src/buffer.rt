//! The front of a lane's buffer: to which link it goes on, and taking it out, as a release does. The releases of `street_tile`
//! call it.
ghost use Rattle.std.specs.Prelude.{◌≡◌, ◌+◌, ◌<◌, length, option_map, slice_get, IfSome, option_to_list};
ghost use Rattle.street_base.specs.Prelude.{LaneState};
ghost use Rattle.street_lanes.specs.Prelude.{LaneStands, queued_of, ready_next, without_front, lane_of, GoesAt, cars_on, HasShortPlan, LetsGo};

use crate::lanes::Lanes;
use crate::lists::buffer_list;
use street_base::{Car, LinkIx, Step};
use street_rule::Dice;
use street_yard::{ListId, Yard};

/// The link to which the first car of a list, a buffer's, goes on, by its position; none where the list is empty or the car is
/// not ready by the clock. Its plan is not read: the yard keeps next links apart.
fn first_next(yard: &Yard, list: ListId, clock: Step) -> Option<LinkIx>
    requires { list.0 < length yard.now.lists }
    ensures { result ≡ ready_next clock (option_map queued_of (slice_get (cars_on yard.now list.0) 0)) }
{
    let key = yard.list_front(list)?;
    if yard.step(key) > clock {
        return None;
    }
    yard.next_link(key)
}

/// Takes the first car of a list, a buffer's, out of the yard, and answers it; nobody where the list is empty. The dice put the
/// draws that they keep for it aside, where they are found again once it has another key.
fn let_go(yard: &mut Yard, dice: &mut Dice, list: ListId) -> Option<Car>
    requires { list.0 < length yard.old.lists }
    ensures goes { LetsGo list.0 yard.old yard.new result }
    ensures dice { dice.new ≡ dice.old }
{
    let key = yard.list_front(list)?;
    dice.put_aside(key.index());
    yard.unlink(key);
    Some(yard.take(key))
}

impl Lanes {
    /// The link to which the front of a lane's buffer goes on, by its position; none where nobody is in the buffer or the front
    /// is not ready by the clock. The lane is that of this number on the tile. The plan is not read.
    pub fn next_of_front(&self, lane: usize, clock: Step) -> Option<LinkIx>
        requires { lane < length self.now.lanes }
        ensures { (s : LaneState) → LaneStands (lane_of self.now lane) s → result ≡ ready_next clock (slice_get s.queue 0) }
    {
        first_next(&self.yard, buffer_list(lane), clock)
    }

    /// Takes the front out of the buffer of a lane, by its number on the tile, whether it is ready or not, and answers it;
    /// nobody where the buffer is empty. There is room for one car more then.
    pub fn let_go(&mut self, lane: usize) -> Option<Car>
        requires { lane < length self.old.lanes }
        ensures goes { GoesAt lane without_front self.old self.new }
        ensures front { (s : LaneState) → LaneStands (lane_of self.old lane) s → option_map queued_of result ≡ slice_get s.queue 0 }
        ensures short { IfSome result HasShortPlan }
        ensures room { self.new.room ≡ self.old.room + length (option_to_list result) }
    {
        let_go(&mut self.yard, &mut self.dice, buffer_list(lane))
    }
}
