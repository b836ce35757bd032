//! Sessions at a desk. What is wanted was worked out by hand from the rules.
ghost use Rattle.std.specs.Prelude.{◌≡◌};

mod alone;

use std::alloc::Global;
use std::process::Abort;
use std::sync::Wait;
use std::thread::Threads;
use street_base::{Command, Refusal, Reply};
use street_desk::{Desk, Journal, Pass};
use street_engine::{Engine, Unwatched};
use street_line::{Counted, DeskSession, Tally, run_alone};

/// A desk of two calls for two sessions, and the pass for both.
fn desk_of_two(rt: &(impl Abort + AllocGlobal)) -> (Desk<Unwatched>, Pass<Unwatched>)
    ensures { result.1.desk ≡ result.0 }
{
    let engine = Engine::new(rt.alloc(), 1, Unwatched::new());
    match Desk::start(rt.alloc(), engine, 2, 2) {
        Ok(made) => made,
        Err(_) => panic!(rt; "no desk"),
    }
}

/// The journal that a desk is finished with.
fn journal_of(rt: &impl Abort, desk: Desk<Unwatched>, pass: Pass<Unwatched>) -> Journal
    requires { pass.desk ≡ desk }
{
    match desk.finish(pass) {
        Ok((_, journal)) => journal,
        Err(torn) => panic!(rt; "torn at {}", torn.word),
    }
}

/// The tally of these lines at a desk of one call, what was written, and how many entries the journal has.
fn one_call_of<R: Threads + Wait + Abort + AllocGlobal + Sync>(
    rt: &R,
    lines: &[u8],
) -> (Option<Tally>, Vec<u8>, usize) {
    let engine = Engine::new(rt.alloc(), 1, Unwatched::new());
    let Ok((desk, pass)) = Desk::start(rt.alloc(), engine, 1, 1) else {
        panic!(rt; "no desk")
    };
    let mut session = DeskSession::new(rt, &desk, pass);
    let mut reader = Counted::new(lines);
    let mut writer = Counted::new(Vec::new(rt.alloc()));
    let tally = run_alone(rt.alloc(), &mut session, &mut reader, &mut writer).ok();
    let pass = session.into_pass();
    let journal = journal_of(rt, desk, pass);
    (tally, writer.into_inner(), journal.len())
}

/// What is written to the lines of `one_call`.
static ONE_CALL_OUTPUT: &[u8] =
    b"{\"error\":1,\"name\":\"NotLoaded\"}\n{\"error\":23,\"name\":\"Full\"}\n{\"error\":21,\"name\":\"BadCommand\"}\n";

/// This was written, and so it was counted.
fn check_one_call(rt: &impl Abort, tally: Option<Tally>, written: &[u8]) {
    assert!(rt; written == ONE_CALL_OUTPUT);
    let want = Tally {
        lines: 3,
        calls: 2,
        replies: 3,
        bytes: ONE_CALL_OUTPUT.len() as u128,
    };
    assert!(rt; tally == Some(want));
}

/// A desk of one call: the second command is told that no place is left, a faulty line is told its fault all the same, and
/// the journal has the first.
#[test]
fn one_call(rt: HostRuntime) {
    let lines = b"{\"cmd\":\"count\"}\n{\"cmd\":\"count\"}\n[]\n";
    let (tally, written, entries) = one_call_of(&rt, lines);
    check_one_call(&rt, tally, written.as_slice());
    assert!(rt; entries == 1);
}

/// Counts before any load.
fn check_count<R: Threads + Wait + Abort + Sync>(
    rt: &R,
    desk: &Desk<Unwatched>,
    pass: &mut Pass<Unwatched>,
)
    requires { pass.old.desk ≡ desk.now }
    ensures { pass.new.desk ≡ desk.now }
{
    match desk.call(rt, pass, Command::Count) {
        Ok(reply) => assert!(rt; matches!(&reply, Reply::Refused(Refusal::NotLoaded))),
        Err(full) => panic!(rt; "full at {}", full.served),
    }
}

/// The second hears of what the first has seen.
fn tell(
    rt: &impl Abort,
    desk: &Desk<Unwatched>,
    first: &mut Pass<Unwatched>,
    second: &mut Pass<Unwatched>,
)
    requires { (first.old.desk ≡ desk.now) × (second.old.desk ≡ desk.now) }
    ensures { (first.new.desk ≡ desk.now) × (second.new.desk ≡ desk.now) }
{
    match desk.note(first) {
        Ok(note) => desk.hear(second, note),
        Err(_) => panic!(rt; "no note"),
    }
}

/// Another call finds no place, where two were served.
fn check_full<R: Threads + Wait + Abort + Sync>(
    rt: &R,
    desk: &Desk<Unwatched>,
    pass: &mut Pass<Unwatched>,
)
    requires { pass.old.desk ≡ desk.now }
    ensures { pass.new.desk ≡ desk.now }
{
    match desk.call(rt, pass, Command::Count) {
        Ok(_) => panic!(rt; "a place was left"),
        Err(full) => assert!(rt; full.served == 2),
    }
}

/// Who hears of a call and makes one knows of both, and a third finds no place.
fn check_note<R: Threads + Wait + Abort + Sync>(
    rt: &R,
    desk: &Desk<Unwatched>,
    first: &mut Pass<Unwatched>,
    second: &mut Pass<Unwatched>,
)
    requires { (first.old.desk ≡ desk.now) × (second.old.desk ≡ desk.now) }
    ensures { first.new.desk ≡ desk.now }
{
    check_count(rt, desk, first);
    tell(rt, desk, first, second);
    check_count(rt, desk, second);
    assert!(rt; desk.served(second) == 2);
    check_full(rt, desk, first);
}

/// The journal has a call of each session.
fn check_journal(rt: &impl Abort, journal: &Journal) {
    assert!(rt; journal.len() == 2);
    assert!(rt; journal.entry(0).is_some_and(|entry| entry.session == 0));
    assert!(rt; journal.entry(1).is_some_and(|entry| entry.session == 1));
}

/// Two passes and a note.
#[test]
fn a_note_is_heard(rt: HostRuntime) {
    let (desk, mut first) = desk_of_two(&rt);
    let Ok(mut second) = desk.split(&mut first) else {
        panic!(&rt; "no second pass")
    };
    check_note(&rt, &desk, &mut first, &mut second);
    let journal = journal_of(&rt, desk, first);
    check_journal(&rt, &journal);
}
