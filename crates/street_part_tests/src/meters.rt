//! Rows of a meter, with values known beforehand.
ghost use Rattle.std.specs.Prelude.{◌≡◌, ◌≤◌};
ghost use Rattle.street_meter.specs.Meter.{next_step};

use std::process::Abort;
use std::test::Fail;
use street_base::{LinkIx, MeterRow, Place, RunningRow};
use street_meter::{Meter, MeterSite};

/// The numbers of a row.
fn numbers(row: &MeterRow) -> [u64; 4] {
    [row.start, row.passes, row.speeds, row.occupied]
}

/// The numbers of the running row.
fn running(row: RunningRow) -> [u64; 5] {
    [row.start, row.steps, row.passes, row.speeds, row.occupied]
}

/// Cell 3 of the first link.
fn place() -> MeterSite {
    let at = Place {
        link: LinkIx::new(0),
        lane: 0,
    };
    MeterSite { at, cell: 3 }
}

/// Five steps are noted: in the third the cell is occupied, and in the fourth a car passes.
fn note_five(meter: &mut Meter)
    requires { next_step meter.old ≡ 0 }
{
    meter.note(0, 0, 0);
    meter.note(0, 0, 0);
    meter.note(0, 0, 1);
    meter.note(1, 3, 0);
    meter.note(0, 0, 0);
}

/// The numbers of two rows, if there are no others.
fn two_rows(full: &[MeterRow]) -> Option<[[u64; 4]; 2]> {
    match full {
        [first, second] => Some([numbers(first), numbers(second)]),
        _ => None,
    }
}

/// The running row, and the rows of those steps by periods of two.
fn check_sums(rt: &impl Abort, now: RunningRow, full: &[MeterRow]) {
    assert!(rt; running(now) == [4, 1, 0, 0, 0]);
    assert!(rt; two_rows(full) == Some([[0, 0, 0, 0], [2, 1, 3, 1]]));
}

/// What is read of a meter in cell 3 that notes by periods of two.
fn check_read(rt: &(impl Abort + AllocGlobal), meter: &Meter) -> Result<(), Fail> {
    assert!(rt; meter.site().cell == 3 && meter.period() == 2);
    let rows = meter.rows(rt.alloc())?;
    check_sums(rt, rows.running, rows.full.as_slice());
    Ok(())
}

#[test]
fn sums_by_periods(rt: HostRuntime) -> Result<(), Fail> {
    let mut meter = Meter::new(rt.alloc(), place(), 2, 0)?;
    note_five(&mut meter);
    check_read(&rt, &meter)
}

/// So many steps pass with nobody there.
fn note_steps(meter: &mut Meter, steps: u32)
    requires start { next_step meter.old ≡ 0 }
    requires few { steps ≤ 1000 }
{
    for step in 0..steps {
        meter.note(0, 0, 0);
    }
}

/// The running row after 33 steps, and the last 32 rows of one step each.
fn check_last(rt: &impl Abort, now: RunningRow, full: &[MeterRow]) {
    assert!(rt; running(now) == [33, 0, 0, 0, 0] && full.len() == 32);
    for (row, step) in full.iter().zip(1..33) {
        assert!(rt; numbers(row) == [step, 0, 0, 0]);
    }
}

/// What is read of a meter that notes by periods of one.
fn check_kept(rt: &(impl Abort + AllocGlobal), meter: &Meter) -> Result<(), Fail> {
    let rows = meter.rows(rt.alloc())?;
    check_last(rt, rows.running, rows.full.as_slice());
    Ok(())
}

#[test]
fn keeps_the_last_rows(rt: HostRuntime) -> Result<(), Fail> {
    let mut meter = Meter::new(rt.alloc(), place(), 1, 0)?;
    note_steps(&mut meter, 33);
    check_kept(&rt, &meter)
}
