//! The lines of replies.

use std::alloc::Global;
use std::process::Abort;
use std::test::Fail;
use street_base::{
    BufferEntry, CellEntry, End, Listing, MeterRow, Part, Refusal, Reply, RunningRow, Stretch,
    WaitingEntry, Whereabouts,
};
use street_text::reply_text;

fn listing<T: Copy>(alloc: Global, entries: &[T]) -> Result<Listing<T>, Fail> {
    Ok(Listing::from_vec(Vec::from_slice(alloc, entries)?))
}

/// The line of the reply is `want` and LF.
fn check_text(rt: &(impl Abort + AllocGlobal), reply: &Reply, want: &str) -> Result<(), Fail> {
    let text = reply_text(rt.alloc(), reply)?;
    assert_eq!(rt;
        text.as_slice().strip_suffix(b"\n".as_slice()),
        Some(want.as_bytes()),
        "at {want}"
    );
    Ok(())
}

fn check_vehicle(
    rt: &(impl Abort + AllocGlobal),
    car: u64,
    whereabouts: Whereabouts,
    want: &str,
) -> Result<(), Fail> {
    check_text(rt, &Reply::Vehicle { car, whereabouts }, want)
}

#[test]
fn prints_a_vehicle_in_a_cell(rt: HostRuntime) -> Result<(), Fail> {
    let cell = Whereabouts::Cell {
        link: 20,
        lane: 1,
        cell: 9,
        speed: 4,
        size: 2,
        plan: listing(rt.alloc(), &[20, 30])?,
    };
    check_vehicle(
        &rt,
        3,
        cell,
        r#"{"car":3,"cell":9,"lane":1,"link":20,"plan":[20,30],"size":2,"speed":4,"state":"cell"}"#,
    )
}

#[test]
fn prints_a_vehicle_in_a_buffer(rt: HostRuntime) -> Result<(), Fail> {
    let buffer = Whereabouts::Buffer {
        link: 10,
        lane: 0,
        ready: 5,
        speed: 4,
        size: 4,
        plan: listing(rt.alloc(), &[10, 20])?,
    };
    check_vehicle(
        &rt,
        0,
        buffer,
        r#"{"car":0,"lane":0,"link":10,"plan":[10,20],"ready":5,"size":4,"speed":4,"state":"buffer"}"#,
    )
}

#[test]
fn prints_a_vehicle_that_waits(rt: HostRuntime) -> Result<(), Fail> {
    let waiting = Whereabouts::Waiting {
        link: 20,
        lane: 0,
        depart: 5,
        size: 1,
        plan: listing(rt.alloc(), &[20])?,
    };
    check_vehicle(
        &rt,
        1,
        waiting,
        r#"{"car":1,"depart":5,"lane":0,"link":20,"plan":[20],"state":"waiting"}"#,
    )
}

#[test]
fn prints_each_end_of_a_vehicle(rt: HostRuntime) -> Result<(), Fail> {
    for (car, end, want) in [
        (
            0,
            End::Arrived { step: 4 },
            r#"{"car":0,"state":"arrived","step":4}"#,
        ),
        (
            1,
            End::Taken { step: 5 },
            r#"{"car":1,"state":"taken","step":5}"#,
        ),
    ] {
        check_vehicle(&rt, car, Whereabouts::Ended(end), want)?;
    }
    Ok(())
}

/// The replies have these lines.
fn check_texts(rt: &(impl Abort + AllocGlobal), texts: &[(Reply, &str)]) -> Result<(), Fail> {
    for (reply, want) in texts {
        check_text(rt, reply, want)?;
    }
    Ok(())
}

#[test]
fn prints_each_reply_of_numbers(rt: HostRuntime) -> Result<(), Fail> {
    let texts = [
        (
            Reply::Loaded {
                links: 2,
                nodes: 3,
                turns: 1,
            },
            r#"{"links":2,"nodes":3,"turns":1}"#,
        ),
        (Reply::Signalled { cycle: 10 }, r#"{"cycle":10}"#),
        (
            Reply::Entered { car: u64::MAX },
            r#"{"car":18446744073709551615}"#,
        ),
        (Reply::Clock { clock: 5 }, r#"{"clock":5}"#),
        (
            Reply::Short { clock: 7, short: 2 },
            r#"{"clock":7,"short":2}"#,
        ),
        (Reply::Closed { closed: 0 }, r#"{"closed":0}"#),
        (Reply::Taken { taken: 1 }, r#"{"taken":1}"#),
        (Reply::Placed { meter: 1023 }, r#"{"meter":1023}"#),
        (
            Reply::Census {
                admitted: 21,
                arrived: 6,
                buffers: 5,
                cells: 4,
                clock: 100,
                taken: 3,
                waiting: 3,
            },
            r#"{"admitted":21,"arrived":6,"buffers":5,"cells":4,"clock":100,"taken":3,"waiting":3}"#,
        ),
        (Reply::Starved, r#"{"starved":true}"#),
    ];
    check_texts(&rt, &texts)
}

/// The rows of a detector have this line.
fn check_rows(
    rt: &(impl Abort + AllocGlobal),
    now: RunningRow,
    rows: &[MeterRow],
    want: &str,
) -> Result<(), Fail> {
    let rows = Reply::Rows {
        now,
        rows: listing(rt.alloc(), rows)?,
    };
    check_text(rt, &rows, want)
}

#[test]
fn prints_the_rows_of_a_detector(rt: HostRuntime) -> Result<(), Fail> {
    let now = RunningRow {
        start: 4,
        steps: 1,
        passes: 0,
        speeds: 0,
        occupied: 2,
    };
    let first = MeterRow {
        start: 0,
        passes: 5,
        speeds: 17,
        occupied: 1,
    };
    let second = MeterRow {
        start: 2,
        passes: 1,
        speeds: 3,
        occupied: 0,
    };
    check_rows(
        &rt,
        now,
        &[first, second],
        r#"{"now":[4,1,0,0,2],"rows":[[0,5,17,1],[2,1,3,0]]}"#,
    )?;
    check_rows(&rt, now, &[], r#"{"now":[4,1,0,0,2],"rows":[]}"#)
}

fn lane(
    alloc: Global,
    buffer: &[BufferEntry],
    cells: &[CellEntry],
    closed: &[Stretch],
    waiting: &[WaitingEntry],
) -> Result<Reply, Fail> {
    let buffer = listing(alloc, buffer)?;
    let cells = listing(alloc, cells)?;
    let closed = listing(alloc, closed)?;
    let waiting = listing(alloc, waiting)?;
    Ok(Reply::Lane {
        buffer,
        cells,
        closed,
        waiting,
    })
}

#[test]
fn prints_a_lane(rt: HostRuntime) -> Result<(), Fail> {
    let in_buffer = BufferEntry {
        car: 3,
        speed: 5,
        ready: 12,
    };
    let ahead = CellEntry {
        car: 0,
        cell: 15,
        speed: 5,
        size: 3,
    };
    let behind = CellEntry {
        car: 2,
        cell: 1,
        speed: 0,
        size: 1,
    };
    let closed = [Stretch { first: 4, last: 6 }, Stretch { first: 9, last: 9 }];
    let waiting = WaitingEntry { car: 7, depart: 30 };
    let full = lane(
        rt.alloc(),
        &[in_buffer],
        &[ahead, behind],
        &closed,
        &[waiting],
    )?;
    check_text(
        &rt,
        &full,
        r#"{"buffer":[[3,5,12]],"cells":[[0,15,5,3],[2,1,0]],"closed":[[4,6],[9,9]],"waiting":[[7,30]]}"#,
    )
}

#[test]
fn prints_an_empty_lane(rt: HostRuntime) -> Result<(), Fail> {
    let empty = lane(rt.alloc(), &[], &[], &[], &[])?;
    check_text(
        &rt,
        &empty,
        r#"{"buffer":[],"cells":[],"closed":[],"waiting":[]}"#,
    )
}

/// The refusals have these lines.
fn check_refusals(rt: &(impl Abort + AllocGlobal), texts: &[(Refusal, &str)]) -> Result<(), Fail> {
    for (refusal, want) in texts {
        check_text(rt, &Reply::Refused(*refusal), want)?;
    }
    Ok(())
}

#[test]
fn prints_each_refusal(rt: HostRuntime) -> Result<(), Fail> {
    let texts = [
        (Refusal::NotLoaded, r#"{"error":1,"name":"NotLoaded"}"#),
        (
            Refusal::AlreadyLoaded,
            r#"{"error":2,"name":"AlreadyLoaded"}"#,
        ),
        (
            Refusal::BadNetwork {
                part: Part::Nodes,
                at: 1,
            },
            r#"{"at":1,"error":3,"name":"BadNetwork","part":"nodes"}"#,
        ),
        (
            Refusal::BadNetwork {
                part: Part::Links,
                at: 0,
            },
            r#"{"at":0,"error":3,"name":"BadNetwork","part":"links"}"#,
        ),
        (
            Refusal::BadNetwork {
                part: Part::Turns,
                at: 2,
            },
            r#"{"at":2,"error":3,"name":"BadNetwork","part":"turns"}"#,
        ),
        (
            Refusal::BadNetwork {
                part: Part::Values,
                at: 3,
            },
            r#"{"at":3,"error":3,"name":"BadNetwork","part":"values"}"#,
        ),
        (Refusal::NoNode, r#"{"error":4,"name":"NoNode"}"#),
        (Refusal::NoLink, r#"{"error":5,"name":"NoLink"}"#),
        (Refusal::NoLane, r#"{"error":6,"name":"NoLane"}"#),
        (Refusal::BadRange, r#"{"error":7,"name":"BadRange"}"#),
        (
            Refusal::BadPlan { at: 1 },
            r#"{"at":1,"error":8,"name":"BadPlan"}"#,
        ),
        (
            Refusal::BadSignal { at: 2 },
            r#"{"at":2,"error":9,"name":"BadSignal"}"#,
        ),
        (Refusal::NoVehicle, r#"{"error":10,"name":"NoVehicle"}"#),
        (Refusal::Gone, r#"{"error":11,"name":"Gone"}"#),
        (Refusal::NoMeter, r#"{"error":12,"name":"NoMeter"}"#),
        (Refusal::TooMany, r#"{"error":13,"name":"TooMany"}"#),
        (Refusal::BadCount, r#"{"error":14,"name":"BadCount"}"#),
        (Refusal::ClockEnd, r#"{"error":15,"name":"ClockEnd"}"#),
    ];
    check_refusals(&rt, &texts)
}
