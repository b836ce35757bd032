//! A desk of two clients, from its passes to its tape.
ghost use Rattle.std.specs.Prelude.{◌≡◌, ◌≤◌, List, IfSome, true};
ghost use Rattle.street_base.specs.Prelude.{most_calls};
ghost use Rattle.street_clients.specs.Told.{EndsDesk, IsNew, IsWhole};
ghost use Rattle.street_desk.specs.declared.journal.Entry.{Entry};
ghost use Rattle.street_desk.specs.History.{BeginsWith};
ghost use Rattle.street_desk.specs.Passes.{Finished};
ghost use Rattle.street_tape.specs.Tapes.{tape_text};

use crate::tapes::Told;
use std::alloc::Global;
use street_desk::{Desk, Pass};
use street_engine::{Engine, Unwatched};
use street_stream::Counted;
use street_tape::write_tape;

/// A client that has called at a desk, and what it was answered.
#[derive(Drop)]
pub struct Client {
    /// The pass that it called with.
    pub pass: Pass<Unwatched>,
    /// The lines of reply. Nothing where it was not answered to the end.
    pub replies: Option<Vec<u8>>,
}

/// A desk with a place for so many calls, nothing loaded, and the passes of its sessions 0 and 1. Nothing where memory was refused.
pub fn desk_of_two(
    alloc: Global,
    calls: u64,
) -> Option<(Desk<Unwatched>, Pass<Unwatched>, Pass<Unwatched>)>
    requires { (1 ≤ calls) × (calls ≤ most_calls) }
    ensures sessions { IfSome result (λ r. r.0.sessions ≡ 2) }
    ensures passes { IfSome result (λ r. IsNew r.0 0 r.1 × IsNew r.0 1 r.2) }
{
    let engine = Engine::new(alloc, 1, Unwatched::new());
    let Ok((desk, mut one)) = Desk::start(alloc, engine, calls, 2) else {
        return None;
    };
    match desk.split(&mut one) {
        Ok(two) => Some((desk, one, two)),
        Err(_single) => None,
    }
}

/// Whether both passes are told that so many calls were served. The first then hears a note of the second, and has seen all that
/// both have.
fn know_all(
    desk: &Desk<Unwatched>,
    one: &mut Pass<Unwatched>,
    two: &mut Pass<Unwatched>,
    calls: u64,
) -> bool
    requires { (one.old.desk ≡ desk.now) × (two.old.desk ≡ desk.now) }
    ensures desk { one.new.desk ≡ desk.now }
    ensures calls { result ≡ true → calls ≤ one.new.count }
    ensures seen { result ≡ true → BeginsWith one.new.seen one.old.seen × BeginsWith one.new.seen two.old.seen }
{
    let one_knows = desk.served(one) == calls;
    let two_knows = desk.served(two) == calls;
    let Ok(note) = desk.note(two) else {
        return false;
    };
    desk.hear(one, note);
    one_knows && two_knows
}

/// Ends a desk by this pass, and gives its tape. Nothing where the desk is torn, or memory was refused.
fn tape_of(alloc: Global, desk: Desk<Unwatched>, pass: Pass<Unwatched>) -> Option<Vec<u8>>
    requires { pass.desk ≡ desk }
    ensures { IfSome result (λ tape. (history : List Entry) × Finished pass history × (tape.items ≡ tape_text history)) }
{
    let Ok((_engine, journal)) = desk.finish(pass) else {
        return None;
    };
    let mut writer = Counted::new(Vec::new(alloc));
    match write_tape(alloc, &journal, &mut writer) {
        Ok(_bytes) => Some(writer.into_inner()),
        Err(_fault) => None,
    }
}

/// Ends a desk that has two passes, and gives its tape. Nothing where one pass is not told of so many calls, the desk is torn, or
/// memory was refused.
fn whole_tape(
    alloc: Global,
    desk: Desk<Unwatched>,
    calls: u64,
    mut one: Pass<Unwatched>,
    mut two: Pass<Unwatched>,
) -> Option<Vec<u8>>
    requires { (one.desk ≡ desk) × (two.desk ≡ desk) }
    ensures { IfSome result (λ tape. IsWhole desk.sessions calls one two tape.items) }
{
    if !know_all(&desk, &mut one, &mut two, calls) {
        return None;
    }
    tape_of(alloc, desk, one)
}

/// Ends a desk of so many calls: what two of its clients were answered, and the tape. Nothing where one was not answered to the end
/// or is not told of so many calls, the desk is torn, or memory was refused.
pub fn end_desk(
    alloc: Global,
    desk: Desk<Unwatched>,
    calls: u64,
    one: Client,
    two: Client,
) -> Option<Told>
    requires { (one.pass.desk ≡ desk) × (two.pass.desk ≡ desk) }
    ensures { IfSome result (λ told. EndsDesk desk.sessions calls one two told) }
{
    let Client {
        pass: first_pass,
        replies: first,
    } = one;
    let Client {
        pass: second_pass,
        replies: second,
    } = two;
    let tape = whole_tape(alloc, desk, calls, first_pass, second_pass);
    Some(Told {
        first: first?,
        second: second?,
        tape: tape?,
    })
}
