//! A caller of the engine, with which its page begins.

use crate::scenes::{enter, one_link};
use std::alloc::Global;
use std::test::Fail;
use std::thread::Threads;
use street_base::{Command, Reply, Whereabouts};
use street_engine::{Engine, Unwatched};

/// Where the first vehicle of a network is after four steps, in the first of which it came into cell 0.
fn after_four_steps<R: Threads + Sync>(
    rt: &R,
    alloc: Global,
    load: &Command,
    enter: &Command,
) -> Reply {
    let mut engine = Engine::new(alloc, 4, Unwatched::new());
    engine.apply(rt, load);
    engine.apply(rt, enter);
    engine.apply(rt, &Command::Advance { steps: 4 });
    let (reply, _) = engine.apply(rt, &Command::Vehicle { car: 0 });
    reply
}

#[test]
fn a_vehicle_is_found(rt: HostRuntime) -> Result<(), Fail> {
    let (load, enter) = (one_link(rt.alloc(), 10)?, enter(rt.alloc(), &[10], 0)?);
    let reply = after_four_steps(&rt, rt.alloc(), &load, &enter);
    let Reply::Vehicle {
        whereabouts: Whereabouts::Cell { cell, speed, .. },
        ..
    } = reply
    else {
        return Err(Fail::from("not in a cell"));
    };
    assert!(rt; cell == 6 && speed == 3);
    Ok(())
}
