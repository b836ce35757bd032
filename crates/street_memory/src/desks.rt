//! Two callers at one desk, each on a thread of its own, while at most one request for memory is refused.
ghost use Rattle.std.specs.Prelude.{◌≡◌, IfSome};

use crate::callers::{Caller, are_told, serve_caller};
use crate::texts::as_text;
use std::alloc::Global;
use std::sync::Wait;
use std::thread::{Threads, join};
use street_base::{Command, Outcome, Reply};
use street_desk::{Desk, Journal, Pass};
use street_engine::{Engine, Unwatched};
use street_stream::Counted;
use street_tape::{replay, upgrade, write_tape};

/// The calls of both, and one more for a call that is starved.
const CALLS: u64 = 7;

/// Both callers.
fn serve_both<R: Threads + Wait + Sync>(
    rt: &R,
    alloc: Global,
    desk: &Desk<Unwatched>,
    one: Pass<Unwatched>,
    two: Pass<Unwatched>,
) -> ((Pass<Unwatched>, Caller), (Pass<Unwatched>, Caller))
    requires { (one.desk ≡ desk.now) × (two.desk ≡ desk.now) }
    ensures { (result.0.0.desk ≡ desk.now) × (result.1.0.desk ≡ desk.now) }
{
    join(
        rt,
        move || -> (Pass<Unwatched>, Caller)
            requires { one.desk ≡ desk.now }
            ensures { result.0.desk ≡ desk.entry.now }
        { serve_caller(rt, alloc, desk, one) },
        move || -> (Pass<Unwatched>, Caller)
            requires { two.desk ≡ desk.now }
            ensures { result.0.desk ≡ desk.entry.now }
        { serve_caller(rt, alloc, desk, two) },
    )
}

/// A desk for two sessions with nothing loaded, and the passes of both.
fn start_once(alloc: Global) -> Option<(Desk<Unwatched>, Pass<Unwatched>, Pass<Unwatched>)>
    ensures { IfSome result (λ r. (r.1.desk ≡ r.0) × (r.2.desk ≡ r.0)) }
{
    let engine = Engine::new(alloc, 1, Unwatched::new());
    let Ok((desk, mut one)) = Desk::start(alloc, engine, CALLS, 2) else {
        return None;
    };
    match desk.split(&mut one) {
        Ok(two) => Some((desk, one, two)),
        Err(_single) => None,
    }
}

/// The same, started once more where memory was refused.
fn start(alloc: Global) -> Option<(Desk<Unwatched>, Pass<Unwatched>, Pass<Unwatched>)>
    ensures { IfSome result (λ r. (r.1.desk ≡ r.0) × (r.2.desk ≡ r.0)) }
{
    match start_once(alloc) {
        Some(started) => Some(started),
        None => start_once(alloc),
    }
}

/// Whether both passes know of so many calls, before and after one heard a note of the other. Takes no memory.
fn know_all(
    desk: &Desk<Unwatched>,
    one: &mut Pass<Unwatched>,
    two: &mut Pass<Unwatched>,
    calls: u64,
) -> bool
    requires { (one.old.desk ≡ desk.now) × (two.old.desk ≡ desk.now) }
    ensures { one.new.desk ≡ desk.now }
{
    let one_knows = desk.served(one) == calls;
    let two_knows = desk.served(two) == calls;
    let Ok(note) = desk.note(two) else {
        return false;
    };
    desk.hear(one, note);
    one_knows && two_knows && desk.served(one) == calls
}

/// Whether the journal has so many calls, so many of them starved, and the others whole. Takes no memory.
fn is_journal(journal: &Journal, calls: u64, starved: u64) -> bool {
    let mut whole = 0u64;
    let mut without = 0u64;
    for at in 0..journal.len() {
        match journal.entry(at) {
            Some(entry) if entry.outcome == Outcome::Whole => whole = whole.saturating_add(1),
            Some(entry) if entry.outcome == Outcome::Starved => {
                without = without.saturating_add(1);
            }
            _ => return false,
        }
    }
    without == starved && whole.saturating_add(without) == calls
}

/// The tape of a journal, written once more where memory was refused.
fn tape_of(alloc: Global, journal: &Journal) -> Option<Vec<u8>> {
    for _try in 0..2 {
        let mut writer = Counted::new(Vec::new(alloc));
        if write_tape(alloc, journal, &mut writer).is_ok() {
            return Some(writer.into_inner());
        }
    }
    None
}

/// The upgrade of a tape, made once more where memory was refused.
fn upgraded(alloc: Global, tape: &[u8]) -> Option<Vec<u8>> {
    for _try in 0..2 {
        let mut reader = Counted::new(tape);
        let mut writer = Counted::new(Vec::new(alloc));
        if upgrade(alloc, &mut reader, &mut writer).is_ok() {
            return Some(writer.into_inner());
        }
    }
    None
}

/// The replies of a tape, and how many vehicles were admitted and wait then.
fn replay_once<R: Threads + Sync>(
    rt: &R,
    alloc: Global,
    tape: &[u8],
) -> Option<(Vec<u8>, u64, u64)> {
    let mut reader = Counted::new(tape);
    let mut writer = Counted::new(Vec::new(alloc));
    let mut engine = Engine::new(alloc, 1, Unwatched::new());
    if replay(rt, alloc, &mut reader, &mut engine, &mut writer).is_err() {
        return None;
    }
    let (reply, _outcome) = engine.apply(rt, &Command::Count);
    match &reply {
        Reply::Census {
            admitted,
            waiting,
            ..
        } => Some((writer.into_inner(), *admitted, *waiting)),
        _ => None,
    }
}

/// The same, replayed once more where memory was refused.
fn replayed<R: Threads + Sync>(rt: &R, alloc: Global, tape: &[u8]) -> Option<(Vec<u8>, u64, u64)> {
    match replay_once(rt, alloc, tape) {
        Some(replayed) => Some(replayed),
        None => replay_once(rt, alloc, tape),
    }
}

/// A line of replies by its number, if there is one.
fn line_of(replies: &[u8], at: usize) -> Option<&str> {
    as_text(replies).lines().nth(at)
}

/// Whether the lines of reply to a journal's calls are, call by call, what the session was answered that called.
fn are_answers(journal: &Journal, replies: &[u8], one: &Caller, two: &Caller) -> bool {
    let mut first = 0usize;
    let mut second = 0usize;
    for at in 0..journal.len() {
        let answer = match journal.entry(at) {
            Some(entry) if entry.session == 0 => {
                first = first.saturating_add(1);
                line_of(&one.replies, first.saturating_sub(1))
            }
            Some(_) => {
                second = second.saturating_add(1);
                line_of(&two.replies, second.saturating_sub(1))
            }
            None => None,
        };
        match (answer, line_of(replies, at)) {
            (Some(answer), Some(reply)) if answer == reply => {}
            _ => return false,
        }
    }
    let all = line_of(replies, journal.len()).is_none();
    all && line_of(&one.replies, first).is_none() && line_of(&two.replies, second).is_none()
}

/// Whether the tape of a journal replays to two vehicles that wait, and to the replies that each caller was answered, call
/// by call, and its upgrade is the same tape; nothing where every request was refused.
fn is_replayed<R: Threads + Sync>(
    rt: &R,
    alloc: Global,
    journal: &Journal,
    one: &Caller,
    two: &Caller,
) -> Option<bool> {
    let tape = tape_of(alloc, journal)?;
    let (replies, admitted, waiting) = replayed(rt, alloc, &tape)?;
    let upgraded = upgraded(alloc, &tape)?;
    let is_told = are_answers(journal, &replies, one, two) && (admitted, waiting) == (2, 2);
    Some(is_told && upgraded.as_slice() == tape.as_slice())
}

/// Ends a desk. Whether its tape was replayed, else every request was refused from some point on; or what is wrong.
fn end_desk<R: Threads + Wait + Sync>(
    rt: &R,
    alloc: Global,
    desk: Desk<Unwatched>,
    one: (Pass<Unwatched>, Caller),
    two: (Pass<Unwatched>, Caller),
) -> Result<bool, &'static str>
    requires { (one.0.desk ≡ desk) × (two.0.desk ≡ desk) }
{
    let (mut pass, one) = one;
    let (mut other, two) = two;
    let calls = one.calls.saturating_add(two.calls);
    let starved = one.starved.saturating_add(two.starved);
    if !know_all(&desk, &mut pass, &mut other, calls) {
        return Err("another number of calls");
    }
    let Ok((_engine, journal)) = desk.finish(pass) else {
        return Err("torn");
    };
    if !is_journal(&journal, calls, starved) {
        return Err("another journal");
    }
    if !one.is_served || !two.is_served {
        return Ok(false);
    }
    if !are_told(&one, &two) {
        return Err("told otherwise");
    }
    match is_replayed(rt, alloc, &journal, &one, &two) {
        Some(false) => Err("replayed otherwise"),
        replayed => Ok(replayed.is_some()),
    }
}

/// Two callers. Whether both were answered in the end and the tape of their calls was replayed, else every request was
/// refused from some point on; or what is wrong.
pub(crate) fn two_callers<R: Threads + Wait + Sync>(
    rt: &R,
    alloc: Global,
) -> Result<bool, &'static str> {
    let Some((desk, one, two)) = start(alloc) else {
        return Ok(false);
    };
    let (one, two) = serve_both(rt, alloc, &desk, one, two);
    end_desk(rt, alloc, desk, one, two)
}
