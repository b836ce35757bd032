//! Two callers, each on a thread of its own, who begin when both are there.
ghost use Rattle.std.specs.Prelude.{◌≡◌, ◌≤◌, ℕ, List, ◌++◌, IfSome};
ghost use Rattle.street_base.specs.Prelude.{most_calls};
ghost use Rattle.street_clients.specs.Told.{AreTold, Replied};
ghost use Rattle.street_stream.specs.Lines.{lines_of};
ghost use Rattle.street_line.specs.Runs.{Goes};
ghost use Rattle.street_line.specs.Sessions.{DeskServes};

use crate::desks::{Client, desk_of_two, end_desk};
use crate::tapes::{Told, text_of};
use std::alloc::Global;
use std::sync::Wait;
use std::sync::atomic::{AtomicU64, Ordering};
use std::thread;
use std::thread::{Threads, join};
use street_desk::{Desk, Pass};
use street_engine::Unwatched;
use street_line::{DeskSession, run_lines};
use street_stream::Counted;

/// How often a caller looks for the other before it goes on alone.
const TURNS: u64 = 10_000_000;

/// Counts this caller, and waits for the other, looking at most `TURNS` times. Whether it came.
fn meet(callers: &AtomicU64) -> bool {
    callers.fetch_add(1, Ordering::SeqCst);
    for _ in 0..TURNS {
        if callers.load(Ordering::SeqCst) == 2 {
            return true;
        }
        thread::yield_now();
    }
    false
}

/// The replies to these lines, served by this session. Nothing where they were not served to their end.
fn serve_lines<R: Threads + Wait + Sync>(
    alloc: Global,
    session: &mut DeskSession<'_, R>,
    lines: &str,
) -> Option<Vec<u8>>
    ensures desk { session.new.desk ≡ session.old.desk }
    ensures served { IfSome result (λ replies. Goes DeskServes session.old (lines_of lines.now) replies.items session.new) }
{
    let mut reader = Counted::new(lines.as_bytes());
    let mut writer = Counted::new(Vec::new(alloc));
    match run_lines(alloc, session, &mut reader, &mut writer) {
        Ok(_tally) => Some(writer.into_inner()),
        Err(_fault) => None,
    }
}

/// The line that asks for the vehicle which the second of some lines of reply names. Nothing where it names none, or memory was
/// refused.
fn question(alloc: Global, replies: &[u8]) -> Option<String> {
    let reply = text_of(replies).lines().nth(1)?;
    let car = reply.strip_prefix(r#"{"car":"#)?.strip_suffix("}")?;
    format!(in alloc; r#"{{"cmd":"vehicle","car":{car}}}"#).ok()
}

/// The replies to these lines, and then to a question for the vehicle that the second reply names. Nothing where they were not
/// served to their end, or no vehicle is named.
fn serve_and_ask<R: Threads + Wait + Sync>(
    alloc: Global,
    session: &mut DeskSession<'_, R>,
    lines: &str,
) -> Option<Vec<u8>>
    ensures desk { session.new.desk ≡ session.old.desk }
    ensures served { IfSome result (λ replies. (more : List (List ℕ))
        × Goes DeskServes session.old (lines_of lines.now ++ more) replies.items session.new) }
{
    let mut replies = serve_lines(alloc, session, lines)?;
    let asked = question(alloc, &replies)?;
    let last = serve_lines(alloc, session, asked.as_str())?;
    replies.extend_from_slice(&last).ok()?;
    Some(replies)
}

/// The calls of one caller, with this pass, and what it was answered: nothing where it did not meet the other, which `callers`
/// counts.
fn answer<R: Threads + Wait + Sync>(
    rt: &R,
    alloc: Global,
    desk: &Desk<Unwatched>,
    pass: Pass<Unwatched>,
    lines: &str,
    callers: &AtomicU64,
) -> Client
    requires { pass.desk ≡ desk.now }
    ensures desk { result.pass.desk ≡ desk.now }
    ensures replied { Replied pass (lines_of lines.now) result }
{
    let met = meet(callers);
    let mut session = DeskSession::new(rt, desk, pass);
    let replies = serve_and_ask(alloc, &mut session, lines);
    Client {
        pass: session.into_pass(),
        replies: if met { replies } else { None },
    }
}

/// The calls of both callers, each on a thread of its own with a pass of its own, who have the same lines.
fn answer_both<R: Threads + Wait + Sync>(
    rt: &R,
    alloc: Global,
    desk: &Desk<Unwatched>,
    one: Pass<Unwatched>,
    two: Pass<Unwatched>,
    lines: &str,
) -> (Client, Client)
    requires { (one.desk ≡ desk.now) × (two.desk ≡ desk.now) }
    ensures desk { (result.0.pass.desk ≡ desk.now) × (result.1.pass.desk ≡ desk.now) }
    ensures replied { Replied one (lines_of lines.now) result.0 × Replied two (lines_of lines.now) result.1 }
{
    let callers = AtomicU64::new(0);
    let here = &callers;
    join(
        rt,
        move || -> Client
            requires { one.desk ≡ desk.now }
            ensures desk { result.pass.desk ≡ desk.entry.now }
            ensures replied { Replied one (lines_of lines.entry.now) result }
        { answer(rt, alloc, desk, one, lines, here) },
        move || -> Client
            requires { two.desk ≡ desk.now }
            ensures desk { result.pass.desk ≡ desk.entry.now }
            ensures replied { Replied two (lines_of lines.entry.now) result }
        { answer(rt, alloc, desk, two, lines, here) },
    )
}

/// Has two callers with the same lines call at a new desk, which has a place for so many calls, all that they make together.
/// Nothing where they did not meet, were not answered to the end, or are not told of all calls.
pub fn serve_both<R: Threads + Wait + Sync>(
    rt: &R,
    alloc: Global,
    calls: u64,
    lines: &str,
) -> Option<Told>
    requires { (1 ≤ calls) × (calls ≤ most_calls) }
    ensures { IfSome result (λ told. AreTold calls (lines_of lines.now) (lines_of lines.now) told) }
{
    let (desk, one, two) = desk_of_two(alloc, calls)?;
    let (one, two) = answer_both(rt, alloc, &desk, one, two, lines);
    end_desk(alloc, desk, calls, one, two)
}
