//! What the detectors of a lane note, with values known beforehand: a vehicle stands in cell 0.
ghost use Rattle.std.specs.Prelude.{◌<◌, IfOk, All};
ghost use Rattle.street_base.specs.Prelude.{last_clock};
ghost use Rattle.street_meter.specs.Meter.{next_step};

use crate::lanes::{one_lane, place};
use std::alloc::Global;
use std::process::Abort;
use std::test::Fail;
use street_base::{LinkIx, Place, Reply, Starved};
use street_lanes::{Detectors, Lanes};

/// The lane of the link.
fn at() -> Place {
    Place {
        link: LinkIx::new(0),
        lane: 0,
    }
}

/// The lane with a vehicle in cell 0.
fn occupied_lane(rt: &(impl Abort + AllocGlobal)) -> Result<Lanes, Fail> {
    let mut lanes = one_lane(rt.alloc())?;
    place(rt, &mut lanes)?;
    Ok(lanes)
}

/// Two detectors, which note from step 7 on: in cell 0 by periods of one step, and in cell 3 by periods of two.
fn two_detectors(alloc: Global) -> Result<Detectors, Starved>
    ensures { IfOk result (λ detectors. All (λ x. next_step x < last_clock) detectors.meters) }
{
    let mut detectors = Detectors::new(5);
    detectors.place(alloc, at(), 0, 1, 7)?;
    detectors.place(alloc, at(), 3, 2, 7)?;
    Ok(detectors)
}

/// What they note of a step of such lanes.
fn noted_of(rt: &(impl Abort + AllocGlobal), lanes: &Lanes) -> Result<Detectors, Fail> {
    assert!(rt; lanes.len() == 1);
    let mut detectors = two_detectors(rt.alloc())?;
    detectors.note(lanes, 0);
    Ok(detectors)
}

/// What they note of a step.
fn noted(rt: &(impl Abort + AllocGlobal)) -> Result<Detectors, Fail> {
    let lanes = occupied_lane(rt)?;
    noted_of(rt, &lanes)
}

/// The start, steps, passes, speeds and occupied steps of the running period, if these are rows.
fn running(reply: &Option<Reply>) -> Option<[u64; 5]> {
    match reply {
        Some(Reply::Rows { now, .. }) => {
            Some([now.start, now.steps, now.passes, now.speeds, now.occupied])
        }
        _ => None,
    }
}

/// The start, passes, speeds and occupied steps of the oldest full period, if there is one.
fn oldest(reply: &Option<Reply>) -> Option<[u64; 4]> {
    match reply {
        Some(Reply::Rows { rows, .. }) => {
            let row = rows.as_slice().first()?;
            Some([row.start, row.passes, row.speeds, row.occupied])
        }
        _ => None,
    }
}

/// The running and the oldest full period that a detector's reply tells.
fn told(
    alloc: Global,
    detectors: &Detectors,
    number: usize,
) -> Result<(Option<[u64; 5]>, Option<[u64; 4]>), Starved> {
    let reply = detectors.rows(alloc, number)?;
    Ok((running(&reply), oldest(&reply)))
}

/// What the two detectors tell, where there is no third.
fn check_rows(rt: &(impl Abort + AllocGlobal), detectors: &Detectors) -> Result<(), Fail> {
    let rows = [
        (Some([8, 0, 0, 0, 0]), Some([7, 0, 0, 1])),
        (Some([7, 1, 0, 0, 0]), None),
        (None, None),
    ];
    for (number, wanted) in rows.iter().enumerate() {
        assert_eq!(rt; told(rt.alloc(), detectors, number)?, *wanted);
    }
    Ok(())
}

#[test]
fn occupied_cells_are_noted(rt: HostRuntime) -> Result<(), Fail> {
    let detectors = noted(&rt)?;
    check_rows(&rt, &detectors)
}

/// The numbers of two detectors, placed one after the other.
fn numbers_of_two(alloc: Global) -> Result<(usize, usize), Starved> {
    let mut detectors = Detectors::new(5);
    let first = detectors.place(alloc, at(), 4, 1, 0)?;
    let second = detectors.place(alloc, at(), 4, 1, 0)?;
    Ok((first, second))
}

#[test]
fn numbers_count_up(rt: HostRuntime) -> Result<(), Fail> {
    assert_eq!(rt; numbers_of_two(rt.alloc())?, (0, 1));
    Ok(())
}
