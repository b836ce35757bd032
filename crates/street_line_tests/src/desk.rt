//! Callers that take turns at a desk. What is wanted was worked out by hand from the rules.
ghost use Rattle.std.specs.Prelude.{◌≡◌};

use crate::scenes::{enter, one_link};
use std::process::Abort;
use std::sync::Wait;
use std::test::Fail;
use std::thread::{Threads, join};
use street_base::{Command, Outcome, Reply, Whereabouts};
use street_desk::{Desk, Journal, Pass};
use street_engine::{Engine, Gate, Unwatched};

/// What one caller was answered.
#[derive(Clone, Copy, Debug, PartialEq, Eq)]
struct Told {
    loaded: bool,
    car: u64,
    waits: bool,
}

/// What a call answers, if the journal has a place for it.
fn ask<G: Gate + Sync + Drop + Send, R: Threads + Wait + Sync>(
    rt: &R,
    desk: &Desk<G>,
    pass: &mut Pass<G>,
    command: Command,
) -> Option<Reply>
    requires { pass.old.desk ≡ desk.now }
    ensures { pass.new.desk ≡ desk.now }
{
    match desk.call(rt, pass, command) {
        Ok(reply) => Some(reply),
        Err(_) => None,
    }
}

/// Loads, enters a vehicle and asks for it.
fn load_enter_ask<G: Gate + Sync + Drop + Send, R: Threads + Wait + Sync>(
    rt: &R,
    desk: &Desk<G>,
    mut pass: Pass<G>,
    load: Command,
    enter: Command,
) -> (Pass<G>, Told)
    requires { pass.desk ≡ desk.now }
    ensures { result.0.desk ≡ desk.now }
{
    let first = ask(rt, desk, &mut pass, load);
    let loaded = matches!(&first, Some(Reply::Loaded { .. }));
    let second = ask(rt, desk, &mut pass, enter);
    let car = match &second {
        Some(Reply::Entered { car }) => u64::from(*car),
        _ => 9,
    };
    let third = ask(rt, desk, &mut pass, Command::Vehicle { car });
    let waits = match &third {
        Some(Reply::Vehicle { whereabouts, .. }) => {
            matches!(whereabouts, Whereabouts::Waiting { .. })
        }
        _ => false,
    };
    (pass, Told { loaded, car, waits })
}

/// Two callers, each on a thread of its own.
fn both<G: Gate + Sync + Drop + Send, R: Threads + Wait + Sync>(
    rt: &R,
    desk: &Desk<G>,
    one: (Pass<G>, Command, Command),
    two: (Pass<G>, Command, Command),
) -> ((Pass<G>, Told), (Pass<G>, Told))
    requires { (one.0.desk ≡ desk.now) × (two.0.desk ≡ desk.now) }
    ensures { (result.0.0.desk ≡ desk.now) × (result.1.0.desk ≡ desk.now) }
{
    let (one, first_load, first_enter) = one;
    let (two, second_load, second_enter) = two;
    join(
        rt,
        move || -> (Pass<G>, Told)
            requires { one.desk ≡ desk.now }
            ensures { result.0.desk ≡ desk.entry.now }
        { load_enter_ask(rt, desk, one, first_load, first_enter) },
        move || -> (Pass<G>, Told)
            requires { two.desk ≡ desk.now }
            ensures { result.0.desk ≡ desk.entry.now }
        { load_enter_ask(rt, desk, two, second_load, second_enter) },
    )
}

/// One load was answered, the vehicles are 0 and 1, and each waits.
fn check_told(rt: &impl Abort, one: Told, two: Told) {
    assert!(rt; one.loaded != two.loaded);
    let cars = (one.car, two.car);
    assert!(rt; cars == (0, 1) || cars == (1, 0));
    assert!(rt; one.waits && two.waits);
}

/// Each session has three calls, and all were done.
fn check_journal(rt: &impl Abort, journal: &Journal) {
    assert_eq!(rt; journal.len(), 6);
    assert!(rt; journal.entry(6).is_none());
    let mut of_first = 0u32;
    for at in 0..6 {
        let Some(entry) = journal.entry(at) else {
            panic!(rt; "entry {at}")
        };
        assert!(rt; entry.outcome == Outcome::Whole);
        if entry.session == 0 {
            of_first = of_first.saturating_add(1);
        }
    }
    assert_eq!(rt; of_first, 3);
}

/// One hears of what the other has seen.
fn hear<G: Gate + Sync + Drop + Send>(desk: &Desk<G>, one: &mut Pass<G>, two: &mut Pass<G>) -> bool
    requires { (one.old.desk ≡ desk.now) × (two.old.desk ≡ desk.now) }
    ensures { one.new.desk ≡ desk.now }
{
    match desk.note(two) {
        Ok(note) => {
            desk.hear(one, note);
            true
        }
        Err(_) => false,
    }
}

/// The number of calls that were served where there is no place for this vehicle to be asked for.
fn full<G: Gate + Sync + Drop + Send, R: Threads + Wait + Sync>(
    rt: &R,
    desk: &Desk<G>,
    pass: &mut Pass<G>,
    car: u64,
) -> Option<u64>
    requires { pass.old.desk ≡ desk.now }
    ensures { pass.new.desk ≡ desk.now }
{
    match desk.call(rt, pass, Command::Vehicle { car }) {
        Ok(_) => None,
        Err(full) => match full.command {
            Command::Vehicle { car: same } if same == car => Some(full.served),
            _ => None,
        },
    }
}

/// Both know of all calls, one hears the other, and there is no place for a seventh.
fn check_full<G: Gate + Sync + Drop + Send, R: Threads + Wait + Abort + Sync>(
    rt: &R,
    desk: &Desk<G>,
    one: &mut Pass<G>,
    two: &mut Pass<G>,
)
    requires { (one.old.desk ≡ desk.now) × (two.old.desk ≡ desk.now) }
    ensures { one.new.desk ≡ desk.now }
{
    assert_eq!(rt; desk.served(one), 6);
    assert_eq!(rt; desk.served(two), 6);
    assert!(rt; hear(desk, one, two));
    assert_eq!(rt; full(rt, desk, one, 1), Some(6));
}

/// The calls of both callers at a desk of six, and then its journal.
fn check_desk<G: Gate + Sync + Drop + Send, R: Threads + Wait + Abort + Sync>(
    rt: &R,
    desk: Desk<G>,
    one: (Pass<G>, Command, Command),
    two: (Pass<G>, Command, Command),
)
    requires { (one.0.desk ≡ desk) × (two.0.desk ≡ desk) }
{
    let ((mut one, told_one), (mut two, told_two)) = both(rt, &desk, one, two);
    check_told(rt, told_one, told_two);
    check_full(rt, &desk, &mut one, &mut two);
    match desk.finish(one) {
        Ok((_, journal)) => check_journal(rt, &journal),
        Err(torn) => panic!(rt; "torn at {}", torn.word),
    }
}

/// A desk of six calls for two sessions, with both their passes.
fn desk_of_two<R: Abort + AllocGlobal>(
    rt: &R,
) -> (Desk<Unwatched>, Pass<Unwatched>, Pass<Unwatched>)
    ensures { (result.1.desk ≡ result.0) × (result.2.desk ≡ result.0) }
{
    let engine = Engine::new(rt.alloc(), 1, Unwatched::new());
    let Ok((desk, mut one)) = Desk::start(rt.alloc(), engine, 6, 2) else {
        panic!(rt; "no desk")
    };
    let Ok(two) = desk.split(&mut one) else {
        panic!(rt; "no second pass")
    };
    assert!(rt; desk.split(&mut one).is_err());
    (desk, one, two)
}

#[test]
fn two_callers(rt: HostRuntime) -> Result<(), Fail> {
    let alloc = rt.alloc();
    let loads = (one_link(alloc, 10)?, one_link(alloc, 10)?);
    let enters = (enter(alloc, &[10], 0)?, enter(alloc, &[10], 0)?);
    let (desk, one, two) = desk_of_two(&rt);
    check_desk(
        &rt,
        desk,
        (one, loads.0, enters.0),
        (two, loads.1, enters.1),
    );
    Ok(())
}
