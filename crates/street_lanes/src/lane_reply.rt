//! All of one lane, as the reply to a `lane` command shows it. A tile calls it for a `lane` command.
ghost use Rattle.std.specs.Prelude.{◌≡◌, ◌<◌, length, map, IfOk};
ghost use Rattle.street_base.specs.declared.car.Car.{Car as Driven};
ghost use Rattle.street_base.specs.Prelude.{LaneState, shown_lane};
ghost use Rattle.street_lanes.specs.Prelude.{LaneStands, lane_of, cars_on, shown_in_buffer, shown_in_cell, shown_waiting, shown_stretch};
ghost use Rattle.street_yard.specs.Prelude.{viewed};

use crate::lanes::Lanes;
use crate::lists::{buffer_list, cells_list, waiting_list};
use std::alloc::{AllocError, Global};
use street_base::{BufferEntry, CellEntry, Listing, Reply, Starved, Stretch, WaitingEntry};
use street_yard::{CarView, ListId, Yard};

/// An entry of the reply: what a lane shows of a car in its buffer, in its cells, or waiting.
trait CarEntry: Sized {
    /// What it shows of a car.
    ghost shown: { Driven → Self };

    /// What it shows of a car.
    fn of(car: &CarView<'_>) -> Self
        ensures { result ≡ shown (viewed car.now) };
}

impl CarEntry for BufferEntry {
    ghost shown = { shown_in_buffer };

    /// A car in a buffer: its number, its speed and its ready step.
    fn of(car: &CarView<'_>) -> BufferEntry {
        BufferEntry {
            car: u64::from(car.number),
            speed: u64::from(car.speed),
            ready: u64::from(car.step),
        }
    }
}

impl CarEntry for CellEntry {
    ghost shown = { shown_in_cell };

    /// A car in a cell: its number, the cell of its front, its speed and its size.
    fn of(car: &CarView<'_>) -> CellEntry {
        CellEntry {
            car: u64::from(car.number),
            cell: u64::from(car.cell),
            speed: u64::from(car.speed),
            size: u64::from(car.size.cells()),
        }
    }
}

impl CarEntry for WaitingEntry {
    ghost shown = { shown_waiting };

    /// A car that waits: its number and its depart.
    fn of(car: &CarView<'_>) -> WaitingEntry {
        WaitingEntry {
            car: u64::from(car.number),
            depart: u64::from(car.step),
        }
    }
}

/// What is shown of the cars on a list, the front first, in entries of one kind: those of a buffer, of cells, or of who waits.
///
/// # Errors
/// Memory for them was refused.
fn entries<E: CarEntry + Drop>(
    alloc: Global,
    yard: &Yard,
    list: ListId,
) -> Result<Listing<E>, AllocError>
    requires { list.0 < length yard.now.lists }
    ensures { IfOk result (λ entries. entries ≡ map E.shown (cars_on yard.now list.0)) }
{
    let mut entries = Vec::with_capacity(alloc, yard.list_len(list))?;
    let mut cursor = yard.list_front(list);
    while let Some(key) = cursor {
        entries.push(E::of(&yard.car(key)))?;
        cursor = yard.behind(key);
    }
    Ok(Listing::from_vec(entries))
}

/// What is shown of closed stretches, in their order: the first and the last cell of each.
///
/// # Errors
/// Memory for them was refused.
fn closed_entries(
    alloc: Global,
    stretches: &[street_gap::Stretch],
) -> Result<Listing<Stretch>, AllocError>
    ensures { IfOk result (λ entries. entries ≡ map shown_stretch stretches.now) }
{
    let mut entries = Vec::with_capacity(alloc, stretches.len())?;
    for stretch in stretches {
        entries.push(Stretch {
            first: u64::from(stretch.first),
            last: u64::from(stretch.last),
        })?;
    }
    Ok(Listing::from_vec(entries))
}

impl Lanes {
    /// All of a lane, by its number on the tile: its buffer from the front, the vehicles from the greatest cell on, its closed
    /// stretches, and who waits, the first to depart first. Takes memory for what it answers.
    ///
    /// # Errors
    /// Memory for the answer was refused.
    pub fn lane(&self, alloc: Global, lane: usize) -> Result<Reply, Starved>
        requires lane { lane < length self.now.lanes }
        ensures { IfOk result (λ reply. (s : LaneState) → LaneStands (lane_of self.now lane) s → reply ≡ shown_lane s) }
    {
        Ok(Reply::Lane {
            buffer: entries(alloc, &self.yard, buffer_list(lane))?,
            cells: entries(alloc, &self.yard, cells_list(lane))?,
            closed: closed_entries(alloc, self.closures[lane].stretches())?,
            waiting: entries(alloc, &self.yard, waiting_list(lane))?,
        })
    }
}
