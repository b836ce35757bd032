//! Two scripts that share one network.
ghost use Rattle.std.specs.Prelude.{◌≡◌, ◌≤◌, [], IfSome, MatchOption, Some, None};
ghost use Rattle.street_base.specs.Prelude.{most_calls};
ghost use Rattle.street_clients.specs.Told.{AreTold, Replied, StayAtDesk};
ghost use Rattle.street_line.specs.Scripts.{IsRun};

use crate::desks::{Client, desk_of_two, end_desk};
use crate::tapes::Told;
use std::alloc::Global;
use std::fs::File;
use std::rt::Files;
use std::sync::Wait;
use std::thread::Threads;
use street_desk::{Desk, Pass};
use street_engine::Unwatched;
use street_line::{DeskSession, Script, run_scripts};

/// The client of a script that has ended: with no replies where it has a fault.
fn client_of<R: Threads + Wait + Sync>(script: Script<'_, R>) -> Client
    ensures pass { result.pass ≡ script.entry.session }
    ensures replies { MatchOption script.entry.fault
        (result.replies ≡ Some script.entry.replies)
        (λ _. result.replies ≡ None) }
{
    let Script {
        session,
        replies,
        fault,
        ..
    } = script;
    Client {
        pass: session.into_pass(),
        replies: fault.is_none().then_some(replies),
    }
}

/// Runs two scripts, each on a thread of its own. Nothing where memory was refused.
fn run_two<'a, R: Threads + Wait + Sync>(
    rt: &R,
    alloc: Global,
    one: Script<'a, R>,
    two: Script<'a, R>,
) -> Option<(Script<'a, R>, Script<'a, R>)>
    ensures run { IfSome result (λ r. IsRun one.entry r.0 × IsRun two.entry r.1) }
    ensures desk { IfSome result (StayAtDesk one.entry two.entry) }
{
    let mut scripts = vec![in alloc; one, two].ok()?;
    run_scripts(rt, alloc, &mut scripts);
    let two = scripts.pop();
    let one = scripts.pop();
    one.zip(two)
}

/// Serves two scripts at the desk, each given as a pass and the name of its file, and gives their clients. Nothing where memory was
/// refused.
fn answer_both<'a, R: Threads + Wait + Sync + Files<File = File>>(
    rt: &'a R,
    alloc: Global,
    desk: &'a Desk<Unwatched>,
    one: (Pass<Unwatched>, &str),
    two: (Pass<Unwatched>, &str),
) -> Option<(Client, Client)>
    requires { (one.0.desk ≡ desk.now) × (two.0.desk ≡ desk.now) }
    ensures desk { IfSome result (λ r. (r.0.pass.desk ≡ desk.now) × (r.1.pass.desk ≡ desk.now)) }
    ensures replied { IfSome result (λ r. Replied one.entry.0 [] r.0 × Replied two.entry.0 [] r.1) }
{
    let one = Script::open(rt, alloc, one.1, DeskSession::new(rt, desk, one.0));
    let two = Script::open(rt, alloc, two.1, DeskSession::new(rt, desk, two.0));
    let (one, two) = run_two(rt, alloc, one, two)?;
    Some((client_of(one), client_of(two)))
}

/// Serves two scripts, by the names of their files, at once at a new desk, which has a place for so many calls, all that they make
/// together. Nothing where memory was refused, a file could not be read, or they are not told of all calls.
pub fn serve_both_scripts<R: Threads + Wait + Sync + Files<File = File>>(
    rt: &R,
    alloc: Global,
    calls: u64,
    first: &str,
    second: &str,
) -> Option<Told>
    requires { (1 ≤ calls) × (calls ≤ most_calls) }
    ensures { IfSome result (λ told. AreTold calls [] [] told) }
{
    let (desk, one, two) = desk_of_two(alloc, calls)?;
    let (one, two) = answer_both(rt, alloc, &desk, (one, first), (two, second))?;
    end_desk(alloc, desk, calls, one, two)
}
