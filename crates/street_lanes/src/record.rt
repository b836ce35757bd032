//! The rows of a lane, as the record of a run has them: who stands in its cells, from the greatest front down, then who is in
//! its buffer, from the front. The rows of a tile call it.
ghost use Rattle.std.specs.Prelude.{◌≡◌, ◌%◌, ◌<◌, ℕ, Some, IsSome, length, map, option_map};
ghost use Rattle.std.specs.List.{FoldsTo};
ghost use Rattle.street_base.specs.declared.car.Car.{Car as Driven};
ghost use Rattle.street_yard.specs.Prelude.{car_of, entry_at};
ghost use Rattle.street_lanes.specs.Prelude.{lane_of, cars_on};
ghost use Rattle.street_base.specs.Prelude.{buffer_spot, lane_rows};
ghost use Rattle.street_record.specs.Rows.{as_written};
ghost use Rattle.street_lanes.specs.Record.{car_row};

use crate::lanes::Lanes;
use crate::lists::{buffer_list, cells_list};
use street_base::RecordRow;
use street_record::RowSink;
use street_yard::{Key, ListId, Yard};

/// Where a row says that a car of a list is.
pub(crate) trait Spot {
    ghost spot: { Driven → ℕ };

    /// Where it is, in 32 bits.
    fn of(yard: &Yard, key: Key) -> u32
        requires { IsSome (entry_at yard.now key) }
        ensures { option_map (λ car. spot car % 4294967296) (car_of yard.now key) ≡ Some result };
}

/// In a cell.
pub(crate) struct InCell;

impl Spot for InCell {
    ghost spot = { λ car. car.cell };

    /// The cell of its front.
    fn of(yard: &Yard, key: Key) -> u32 {
        yard.cell(key)
    }
}

/// In a buffer.
pub(crate) struct InBuffer;

impl Spot for InBuffer {
    ghost spot = { λ car. buffer_spot car.step };

    /// 2^31 and its ready step.
    fn of(yard: &Yard, key: Key) -> u32 {
        yard.step(key).wrapping_add(0x8000_0000)
    }
}

/// Gives a sink a row for each car on a list, the front first.
fn give<P: Spot, S: RowSink>(yard: &Yard, list: ListId, slot: u32, sink: &mut S)
    requires { list.0 < length yard.now.lists }
    ensures { FoldsTo S.takes sink.old (map (λ car. as_written (car_row slot P.spot car)) (cars_on yard.now list.0)) sink.new }
{
    let mut cursor = yard.list_front(list);
    while let Some(key) = cursor {
        sink.row(RecordRow {
            car: yard.number(key),
            slot,
            spot: P::of(yard, key),
            speed: u32::from(yard.speed(key)),
        });
        cursor = yard.behind(key);
    }
}

impl Lanes {
    /// Gives a sink the rows of a lane, by its number on the tile, under this number of the lane in the network.
    pub fn record<S: RowSink>(&self, lane: usize, slot: u32, sink: &mut S)
        requires { lane < length self.now.lanes }
        ensures { FoldsTo S.takes sink.old (map as_written (lane_rows slot (lane_of self.now lane))) sink.new }
    {
        give::<InCell, S>(&self.yard, cells_list(lane), slot, sink);
        give::<InBuffer, S>(&self.yard, buffer_list(lane), slot, sink);
    }
}
