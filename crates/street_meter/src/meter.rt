//! A detector as sums: what it has counted, in rows. The detectors of a lane keep one for each.
ghost use Rattle.std.specs.Prelude.{◌≡◌, ◌+◌, ◌*◌, ◌^◌, ◌<◌, ◌≤◌, List, [], ◌∷◌, ◌++◌, IfOk};
ghost use Rattle.street_base.specs.Prelude.{last_clock, most_period, Triple};
ghost use Rattle.street_meter.specs.Meter.{Stands, IsRead, IsPlacedAs, detector_of, next_step, triple};
ghost use Rattle.street_meter.specs.Inside.{row_with, row_full, row_from};

use circular_buffer::HeapCircularBuffer;
use std::alloc::Global;
use std::marker::Model;
use street_base::{CellNo, Listing, MeterRow, Place, RunningRow, Starved, Step};

/// How many rows of full periods a meter keeps.
const KEPT_ROWS: usize = 32;

/// Where a meter is.
#[derive(Clone, Copy)]
pub struct MeterSite {
    /// The lane.
    pub at: Place,
    /// The cell of the lane.
    pub cell: CellNo,
}

/// The rows of a meter.
#[derive(Drop)]
pub struct Rows {
    /// The running period.
    pub running: RunningRow,
    /// The last full periods, at most 32, the oldest first.
    pub full: Listing<MeterRow>,
}

/// What a cell's detector has noted, summed by periods: the running one and the last 32 full ones.
#[derive(Drop)]
pub struct Meter {
    site: MeterSite,
    period: u32,
    start: Step,
    running: RunningRow,
    rows: HeapCircularBuffer<MeterRow>,
}

impl Model for Meter {
    ghost use Rattle.street_meter.specs.Meter.{Meter as Seen};

    ghost Value = { Seen };

    ghost use Rattle.street_meter.specs.Inside.{shown, IsSound};

    ghost view = { shown };

    ghost invariant = { IsSound };
}

/// The running row of a period whose first step is `start`, before that step is noted.
fn begun_at(start: u64) -> RunningRow
    ensures { result ≡ row_from start }
{
    RunningRow {
        start,
        steps: 0,
        passes: 0,
        speeds: 0,
        occupied: 0,
    }
}

/// The row of a full period, from the running one with all its steps.
fn ended(row: RunningRow) -> MeterRow
    ensures { result ≡ row_full row }
{
    MeterRow {
        start: row.start,
        passes: row.passes,
        speeds: row.speeds,
        occupied: row.occupied,
    }
}

/// The running row with one step more: how many vehicles passed in it, the sum of their speeds (cells a step), and 1 if the
/// cell was occupied at its end, or else 0.
fn with_step(row: RunningRow, passes: u32, speeds: u32, occupied: u32) -> RunningRow
    requires steps { row.steps < most_period }
    requires passes { row.passes ≤ row.steps * 2 ^ 32 }
    requires speeds { row.speeds ≤ row.steps * 2 ^ 32 }
    requires occupied { row.occupied ≤ row.steps * 2 ^ 32 }
    ensures { result ≡ row_with row passes speeds occupied }
{
    RunningRow {
        start: row.start,
        steps: row.steps + 1,
        passes: row.passes + u64::from(passes),
        speeds: row.speeds + u64::from(speeds),
        occupied: row.occupied + u64::from(occupied),
    }
}

impl Meter {
    /// A meter of a cell that has noted nothing. The period is 1 to 100,000 steps; the first step noted is `start`, at most
    /// `LAST_CLOCK`.
    ///
    /// # Errors
    /// Out of memory for the rows.
    pub fn new(alloc: Global, site: MeterSite, period: u32, start: Step) -> Result<Meter, Starved>
        requires some { 1 ≤ period }
        requires short { period ≤ most_period }
        requires start { start ≤ last_clock }
        ensures place { IfOk result (λ m. (m.place ≡ site.at) × (m.cell ≡ site.cell)) }
        ensures period { IfOk result (λ m. (m.period ≡ period) × (m.start ≡ start)) }
        ensures next { IfOk result (λ m. next_step m ≡ start) }
        ensures stands { IfOk result (λ m. Stands m []) }
    {
        let rows = HeapCircularBuffer::with_capacity(alloc, KEPT_ROWS)?;
        Ok(Meter {
            site,
            period,
            start,
            running: begun_at(u64::from(start)),
            rows,
        })
    }

    /// Notes the next step: how many vehicles passed, the sum of their speeds (cells a step), and 1 if the cell was occupied at
    /// its end, or else 0. A row that is full is put to the full ones, of which the last 32 are kept. The step lies before
    /// `LAST_CLOCK`. Takes no memory.
    pub fn note(&mut self, passes: u32, speeds: u32, occupied: u32)
        requires { next_step self.old < last_clock }
        ensures placed { IsPlacedAs self.new self.old }
        ensures stands { (triples : List Triple) → Stands self.old triples → Stands self.new (triples ++ triple passes speeds occupied ∷ []) }
        ensures next { next_step self.new ≡ next_step self.old + 1 }
    {
        let row = with_step(self.running, passes, speeds, occupied);
        if row.steps == u64::from(self.period) {
            self.rows.push_back(ended(row));
            self.running = begun_at(row.start + row.steps);
        } else {
            self.running = row;
        }
    }

    /// The running row, and the rows of the last full periods, at most 32, the oldest first.
    ///
    /// # Errors
    /// Out of memory for the rows.
    pub fn rows(&self, alloc: Global) -> Result<Rows, Starved>
        ensures { IfOk result (λ r. (triples : List Triple) → Stands self.now triples → IsRead r.full r.running (detector_of self.now triples)) }
    {
        let full = self.rows.to_vec(alloc)?;
        Ok(Rows {
            running: self.running,
            full: Listing::from_vec(full),
        })
    }

    /// The lane and the cell that the meter watches.
    pub fn site(&self) -> MeterSite
        ensures lane { self.now.place ≡ result.at }
        ensures cell { self.now.cell ≡ result.cell }
    {
        self.site
    }

    /// How many steps a row sums: 1 to 100,000.
    pub fn period(&self) -> u32
        ensures { result ≡ self.now.period }
    {
        self.period
    }
}
