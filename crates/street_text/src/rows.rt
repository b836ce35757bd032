//! The values in the lists of a reply, written straight as bytes: numbers, and rows of numbers, as those of a detector
//! or of a vehicle in a cell. `fields.rt` calls this for each field of a reply that is a list.
ghost use Rattle.std.specs.Prelude.{OnOk};
ghost use Rattle.serde_json.specs.Data.{Data, array};
ghost use Rattle.street_text.specs.Tokens.{tokens_of, Adds};
ghost use Rattle.street_text.specs.ReplyLines.{items_from, number_data, meter_data, running_data, buffer_data, cell_data, stretch_data, waiting_data};

use json::Writer;
use std::alloc::AllocError;
use street_base::{BufferEntry, CellEntry, MeterRow, RunningRow, Stretch, WaitingEntry};

/// What stands in a list of a reply: a number, or the list of the fields of an entry, in the order in which its type has
/// them. The size of a vehicle in a cell, the last of its fields, is left out where it is 1.
pub trait Row {
    ghost shows: { Self → Data };

    /// Writes its JSON value behind what `out` has.
    fn write(&self, out: &mut Writer) -> Result<(), AllocError>
        ensures { OnOk result (Adds (tokens_of (shows self.now)) out.old out.new) };
}

/// Writes the JSON list of these entries, in order, behind what `out` has.
pub fn write_list<T: Row>(list: &[T], out: &mut Writer) -> Result<(), AllocError>
    ensures { OnOk result (Adds (tokens_of (array (items_from T.shows list.now))) out.old out.new) }
{
    out.begin_array()?;
    for entry in list {
        entry.write(out)?;
    }
    out.end_array()
}

/// The number itself.
impl Row for u64 {
    ghost shows = { number_data };

    /// Writes a JSON number.
    fn write(&self, out: &mut Writer) -> Result<(), AllocError> {
        out.u64(*self)
    }
}

/// [start, passes, speeds, occupied]: the clock at which the period began, vehicles, the sum of their speeds in cells a step, steps
/// in which the cell was covered.
impl Row for MeterRow {
    ghost shows = { meter_data };

    /// Writes a JSON list of its fields, in this order.
    fn write(&self, out: &mut Writer) -> Result<(), AllocError> {
        write_list(&[self.start, self.passes, self.speeds, self.occupied], out)
    }
}

/// [start, steps, passes, speeds, occupied]: as a full row, with the steps that the period has so far.
impl Row for RunningRow {
    ghost shows = { running_data };

    /// Writes a JSON list of its fields, in this order.
    fn write(&self, out: &mut Writer) -> Result<(), AllocError> {
        write_list(
            &[
                self.start,
                self.steps,
                self.passes,
                self.speeds,
                self.occupied,
            ],
            out,
        )
    }
}

/// [car, speed, ready]: speed in cells a step; ready is the step from which it may go on.
impl Row for BufferEntry {
    ghost shows = { buffer_data };

    /// Writes a JSON list of its fields, in this order.
    fn write(&self, out: &mut Writer) -> Result<(), AllocError> {
        write_list(&[self.car, self.speed, self.ready], out)
    }
}

/// [car, cell, speed], and its size where that is more than one cell; speed in cells a step.
impl Row for CellEntry {
    ghost shows = { cell_data };

    /// Writes a JSON list of its fields, in this order.
    fn write(&self, out: &mut Writer) -> Result<(), AllocError> {
        if self.size > 1 {
            write_list(&[self.car, self.cell, self.speed, self.size], out)
        } else {
            write_list(&[self.car, self.cell, self.speed], out)
        }
    }
}

/// [first, last]: cells that are closed, both among them.
impl Row for Stretch {
    ghost shows = { stretch_data };

    /// Writes a JSON list of its fields, in this order.
    fn write(&self, out: &mut Writer) -> Result<(), AllocError> {
        write_list(&[self.first, self.last], out)
    }
}

/// [car, depart]: the step from which it may depart.
impl Row for WaitingEntry {
    ghost shows = { waiting_data };

    /// Writes a JSON list of its fields, in this order.
    fn write(&self, out: &mut Writer) -> Result<(), AllocError> {
        write_list(&[self.car, self.depart], out)
    }
}
