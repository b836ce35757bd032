//! Commands of detectors: placing one, and reading its rows. `commands.rt` calls them.
ghost use Rattle.street_base.specs.declared.command.Command.TheVariants.{PlaceMeter, ReadMeter};
ghost use Rattle.street_engine.specs.Prelude.{Serves, KeepsRefused};

use crate::Streets;
use crate::names::named_cells;
use std::alloc::Global;
use street_base::{MOST_DETECTORS, MOST_PERIOD, Outcome, Refusal, Reply};

/// Serves the placing of a detector in a cell of a lane. `link` is an identifier, `period` is in steps. Answers the number of the
/// detector. Takes memory for it.
pub(crate) fn place_meter(
    alloc: Global,
    streets: &mut Streets,
    link: u64,
    lane: u64,
    cell: u64,
    period: u64,
) -> (Reply, Outcome)
    ensures serves { Serves (Some streets.old) (PlaceMeter link lane cell period) result.0 result.1 (Some streets.new) }
    ensures refused { KeepsRefused (Some streets.old) result.0 (Some streets.new) }
{
    let cells = match named_cells(streets.network(), link, lane, cell, cell) {
        Ok(cells) => cells,
        Err(refusal) => return (Reply::Refused(refusal), Outcome::Whole),
    };
    if period == 0 || period > MOST_PERIOD {
        return (Reply::Refused(Refusal::BadCount), Outcome::Whole);
    }
    if streets.detectors() >= MOST_DETECTORS {
        return (Reply::Refused(Refusal::TooMany), Outcome::Whole);
    }
    match streets.place_meter(alloc, cells.at, cells.first, period as u32) {
        Ok(number) => {
            let meter = number as u64;
            (Reply::Placed { meter }, Outcome::Whole)
        }
        Err(_) => (Reply::Starved, Outcome::Starved),
    }
}

/// Serves the question what the detector of a number has measured, row by row. Takes memory for the list of rows.
pub(crate) fn read_meter(alloc: Global, streets: &Streets, meter: u64) -> (Reply, Outcome)
    ensures { Serves (Some streets.now) (ReadMeter meter) result.0 result.1 (Some streets.now) }
{
    if meter >= streets.detectors() as u64 {
        return (Reply::Refused(Refusal::NoMeter), Outcome::Whole);
    }
    match streets.read_meter(alloc, meter as usize) {
        Ok(Some(rows)) => (rows, Outcome::Whole),
        Ok(None) => (Reply::Refused(Refusal::NoMeter), Outcome::Whole),
        Err(_) => (Reply::Starved, Outcome::Starved),
    }
}
