//! What C sees of replies: structs of numbers, all of 64 bits. `lib.rt` fills them.
ghost use Rattle.std.specs.Prelude.{◌≡◌, ◌≢◌, ◌≤◌, ◌<◌, IfOk, true, false, length, map, take};
ghost use Rattle.street_base.specs.declared.reply.Whereabouts.TheVariants.{Ended};
ghost use Rattle.street_c.specs.Shown.{LongRows, LongVehicle, ShowsRows, ShowsVehicle, full_row, is_rows, is_vehicle, plan_of, running_row, vehicle_row};

use crate::statuses::{DONE, OTHER, SHORT, UNTOLD};
use std::alloc::{AllocError, Global};
use street_base::{End, MeterRow, Reply, RunningRow, Whereabouts};

/// How many vehicles stand where or have ended how, and the clock.
#[repr(C)]
#[derive(Drop)]
pub struct StreetsimCensus {
    /// How many were ever admitted.
    pub admitted: u64,
    /// How many have arrived.
    pub arrived: u64,
    /// How many stand in buffers.
    pub buffers: u64,
    /// How many stand in cells.
    pub cells: u64,
    /// The clock.
    pub clock: u64,
    /// How many were taken out.
    pub taken: u64,
    /// How many wait.
    pub waiting: u64,
}

/// Where a vehicle is. What its state does not have is 0.
#[repr(C)]
#[derive(Drop)]
pub struct StreetsimVehicle {
    /// 0 in a cell, 1 in a buffer, 2 not yet departed, 3 arrived, 4 taken out.
    pub state: u64,
    /// The link, by its identifier: where it is, that it left, or that it is to enter.
    pub link: u64,
    /// The lane of that link.
    pub lane: u64,
    /// The cell that its front stands in.
    pub cell: u64,
    /// Its speed, in cells a step.
    pub speed: u64,
    /// How many cells it covers.
    pub size: u64,
    /// The step from which it may go on from a buffer or depart, in which it arrived, or the clock when it was taken out.
    pub step: u64,
}

/// The row of a vehicle that is there.
fn vehicle_row(whereabouts: &Whereabouts) -> StreetsimVehicle
    ensures { result ≡ vehicle_row whereabouts.now }
{
    match whereabouts {
        Whereabouts::Cell {
            link,
            lane,
            cell,
            speed,
            size,
            plan: _,
        } => StreetsimVehicle {
            state: 0,
            link: *link,
            lane: *lane,
            cell: *cell,
            speed: *speed,
            size: *size,
            step: 0,
        },
        Whereabouts::Buffer {
            link,
            lane,
            ready,
            speed,
            size,
            plan: _,
        } => StreetsimVehicle {
            state: 1,
            link: *link,
            lane: *lane,
            cell: 0,
            speed: *speed,
            size: *size,
            step: *ready,
        },
        Whereabouts::Waiting {
            link,
            lane,
            depart,
            size,
            plan: _,
        } => StreetsimVehicle {
            state: 2,
            link: *link,
            lane: *lane,
            cell: 0,
            speed: 0,
            size: *size,
            step: *depart,
        },
        Whereabouts::Ended(end) => ended_row(*end),
    }
}

/// The row of a vehicle that has ended.
fn ended_row(end: End) -> StreetsimVehicle
    ensures { result ≡ vehicle_row (Ended end) }
{
    let (state, step) = match end {
        End::Arrived { step } => (3, step),
        End::Taken { step } => (4, step),
    };
    StreetsimVehicle {
        state,
        link: 0,
        lane: 0,
        cell: 0,
        speed: 0,
        size: 0,
        step,
    }
}

/// The rest of the plan of a vehicle that is there; nothing of one that has ended.
fn plan_of(whereabouts: &Whereabouts) -> &[u64]
    ensures { result.now ≡ plan_of whereabouts.now }
{
    match whereabouts {
        Whereabouts::Cell { plan, .. } => plan.as_slice(),
        Whereabouts::Buffer { plan, .. } => plan.as_slice(),
        Whereabouts::Waiting { plan, .. } => plan.as_slice(),
        Whereabouts::Ended(_) => &[],
    }
}

/// What a detector summed over a full period.
#[repr(C)]
#[derive(Clone, Copy)]
pub struct StreetsimRow {
    /// The first step of the period.
    pub start: u64,
    /// How many vehicles passed.
    pub passes: u64,
    /// The sum of their speeds in the steps in which they passed, in cells a step.
    pub speeds: u64,
    /// In how many steps the cell was covered at the end.
    pub occupied: u64,
}

/// The running period of a detector.
#[repr(C)]
#[derive(Drop)]
pub struct StreetsimRunning {
    /// The first step of the period.
    pub start: u64,
    /// How many steps it has so far.
    pub steps: u64,
    /// How many vehicles passed.
    pub passes: u64,
    /// The sum of their speeds in the steps in which they passed, in cells a step.
    pub speeds: u64,
    /// In how many steps the cell was covered at the end.
    pub occupied: u64,
}

/// Copies numbers to the start of the room, as far as there is room for all of them, and tells how many they are: whether there is.
fn copy_numbers(numbers: &[u64], room: &mut [u64], count: &mut usize) -> bool
    ensures copied { result ≡ true → take count.new room.new ≡ numbers.now }
    ensures counted { count.new ≡ length numbers.now }
    ensures short { result ≡ false → length room.old < count.new }
{
    *count = numbers.len();
    if numbers.len() > room.len() {
        return false;
    }
    room[..numbers.len()].copy_from_slice(numbers);
    true
}

/// Shows where a vehicle is, if the reply tells that, and there is room for the rest of its plan.
pub fn show_vehicle(
    reply: &Reply,
    row: &mut StreetsimVehicle,
    plan: &mut [u64],
    links: &mut usize,
) -> u32
    ensures done { result ≡ 0 → ShowsVehicle row.new (take links.new plan.new) reply.now }
    ensures long { result ≡ 3 → LongVehicle row.new links.new plan.old reply.now }
    ensures other { result ≡ 5 → is_vehicle reply.now ≡ false }
    ensures served { (result ≢ 1) × (result ≢ 2) × (result ≢ 4) × (result ≤ 5) }
{
    let Reply::Vehicle {
        car: _,
        whereabouts,
    } = reply
    else {
        return OTHER;
    };
    *row = vehicle_row(whereabouts);
    if copy_numbers(plan_of(whereabouts), plan, links) {
        DONE
    } else {
        SHORT
    }
}

/// The row of a full period.
fn full_row(row: &MeterRow) -> StreetsimRow
    ensures { result ≡ full_row row.now }
{
    StreetsimRow {
        start: row.start,
        passes: row.passes,
        speeds: row.speeds,
        occupied: row.occupied,
    }
}

/// The row of the running period.
fn running_row(now: &RunningRow) -> StreetsimRunning
    ensures { result ≡ running_row now.now }
{
    StreetsimRunning {
        start: now.start,
        steps: now.steps,
        passes: now.passes,
        speeds: now.speeds,
        occupied: now.occupied,
    }
}

/// The rows of full periods.
fn full_rows(alloc: Global, rows: &[MeterRow]) -> Result<Vec<StreetsimRow>, AllocError>
    ensures { IfOk result (λ made. made.items ≡ map full_row rows.now) }
{
    rows.iter().map(|row| full_row(row)).collect(alloc)
}

/// Copies rows to the start of the room, as far as there is room for all of them, and tells how many they are: whether there is.
fn copy_rows(rows: &[StreetsimRow], room: &mut [StreetsimRow], count: &mut usize) -> bool
    ensures copied { result ≡ true → take count.new room.new ≡ rows.now }
    ensures counted { count.new ≡ length rows.now }
    ensures short { result ≡ false → length room.old < count.new }
{
    *count = rows.len();
    if rows.len() > room.len() {
        return false;
    }
    room[..rows.len()].copy_from_slice(rows);
    true
}

/// Shows the rows of a detector, if the reply tells them, and there is room for them.
pub fn show_rows(
    alloc: Global,
    reply: &Reply,
    running: &mut StreetsimRunning,
    rows: &mut [StreetsimRow],
    count: &mut usize,
) -> u32
    ensures done { result ≡ 0 → ShowsRows running.new (take count.new rows.new) reply.now }
    ensures long { result ≡ 3 → LongRows running.new count.new rows.old reply.now }
    ensures untold { result ≡ 4 → is_rows reply.now ≡ true }
    ensures other { result ≡ 5 → is_rows reply.now ≡ false }
    ensures served { (result ≢ 1) × (result ≢ 2) × (result ≤ 5) }
{
    let Reply::Rows { now, rows: full } = reply else {
        return OTHER;
    };
    *running = running_row(now);
    let Ok(made) = full_rows(alloc, full.as_slice()) else {
        return UNTOLD;
    };
    if copy_rows(made.as_slice(), rows, count) {
        DONE
    } else {
        SHORT
    }
}
