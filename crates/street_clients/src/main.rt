//! Two clients at one desk, each on a thread of its own, as a program of the gate: what each was answered is compared with
//! what a replay of the desk's tape answers to its calls. What they are to be answered was worked out by hand from the rules.
//!
//! The status is 1 where anything is answered otherwise than it should be.
#![tactic(auto)]

mod callers;
mod desks;
mod scripts;
mod tapes;

ghost use Rattle.std.specs.Prelude.{IfOk, Decides};
ghost use Rattle.street_clients.specs.Replies.{Agrees, IsRetold};
ghost use Rattle.street_clients.specs.declared.tapes.Retold.{Retold};

use callers::serve_both;
use scripts::serve_both_scripts;
use std::alloc::{AllocError, Global};
use std::fs::File;
use std::io;
use std::process::ExitCode;
use std::rt::Files;
use std::sync::Wait;
use std::thread::Threads;
use street_line::reply_text;
use tapes::{Retold, Told, retell, text_of};

/// Two links, 10 and 20, one behind the other, and a vehicle.
const LOAD_AND_ENTER: &str =
    r#"{"cmd":"load","nodes":[[1,1,2],[2,1,2],[3,1,2]],"links":[[10,1,2,1,10,5],[20,2,3,1,10,5]],"turns":[[10,0,20,0]],"zone":0,"dawdle":0,"change":0,"seed":0}
{"cmd":"enter","plan":[10],"lane":0,"depart":0}
"#;

/// A step, and a vehicle more.
const STEP_AND_ENTER: &str = r#"{"cmd":"advance","steps":1}
{"cmd":"enter","plan":[10],"lane":0,"depart":0}
"#;

/// A step.
const STEP: &str = r#"{"cmd":"advance","steps":1}
"#;

/// Who loads, of two with the same network.
const LOADED: &str = r#"{"links":2,"nodes":3,"turns":1}
"#;

/// Who comes later.
const NOT_LOADED_AGAIN: &str = r#"{"error":2,"name":"AlreadyLoaded"}
"#;

/// Whose vehicle enters first, and is asked for.
const FIRST_WAITS: &str = r#"{"car":0}
{"car":0,"depart":0,"lane":0,"link":10,"plan":[10],"state":"waiting"}
"#;

/// Whose vehicle enters second, and is asked for.
const SECOND_WAITS: &str = r#"{"car":1}
{"car":1,"depart":0,"lane":0,"link":10,"plan":[10],"state":"waiting"}
"#;

/// What a planner is answered whose script nobody disturbs.
const PLANNED: &[u8] = br#"{"links":2,"nodes":3,"turns":1}
{"car":0}
{"clock":5}
{"car":0,"state":"arrived","step":4}
"#;

/// Two counts with nothing loaded.
const TWO_COUNTS: &[u8] = br#"{"error":1,"name":"NotLoaded"}
{"error":1,"name":"NotLoaded"}
"#;

/// Two counts with nothing loaded, where there is a place for one.
const COUNT_AND_FULL: &[u8] = br#"{"error":1,"name":"NotLoaded"}
{"error":23,"name":"Full"}
"#;

/// Three counts with nothing loaded.
const THREE_COUNTS: &[u8] = br#"{"error":1,"name":"NotLoaded"}
{"error":1,"name":"NotLoaded"}
{"error":1,"name":"NotLoaded"}
"#;

/// The error of clients that were not served to the end.
fn not_served() -> io::Error {
    io::Error::from(io::ErrorKind::InvalidData)
}

/// The line of reply to the count after a replay, with its LF.
fn count_text(alloc: Global, retold: &Retold) -> io::Result<Vec<u8>> {
    reply_text(alloc, &retold.count).ok().ok_or(not_served())
}

/// What a replay of the clients' tape answers, and a count after it.
fn retold_from<R: Threads + Sync + AllocGlobal>(rt: &R, told: &Told) -> io::Result<Retold>
    ensures { IfOk result (λ retold. IsRetold told.now.tape.items retold) }
{
    match retell(rt, rt.alloc(), &told.tape) {
        Ok(retold) => Ok(retold),
        Err(_fault) => Err(not_served()),
    }
}

/// Whether each reply that the clients had is the one among these, which a replay of their tape gave.
fn agrees_with(alloc: Global, told: &Told, replies: &[u8]) -> io::Result<bool>
    ensures { IfOk result (λ agrees. Decides agrees (Agrees told.now replies.now)) }
{
    match told.agrees(alloc, replies) {
        Ok(agrees) => Ok(agrees),
        Err(_starved) => Err(not_served()),
    }
}

/// Replays the clients' tape. Whether each reply that they had is that of the replay; if so, this is printed under this name, with
/// what a count answers after the tape.
fn compare<R: Threads + Sync + Print + AllocGlobal>(
    rt: &R,
    name: &str,
    told: &Told,
) -> io::Result<bool>
    ensures { IfOk result (λ agrees. (retold : Retold)
        × IsRetold told.now.tape.items retold
        × Decides agrees (Agrees told.now retold.replies.items)) }
{
    let alloc = rt.alloc();
    let retold = retold_from(rt, told)?;
    let agrees = agrees_with(alloc, told, &retold.replies)?;
    if agrees {
        let calls = text_of(&told.tape).lines().skip(1).count();
        let text = count_text(alloc, &retold)?;
        let count = text_of(&text).trim_end();
        println!(rt; "{name}: the replies to {calls} calls are those of the tape, then {count}")?;
    }
    Ok(agrees)
}

/// Plays two scripts, a planner, whose replies are the same whatever the order between the two, and one who only counts. Whether
/// they were answered as they should be.
fn two_scripts<R: Threads + Wait + Sync + Print + AllocGlobal + Files<File = File>>(
    rt: &R,
) -> io::Result<bool> {
    let told = serve_both_scripts(rt, rt.alloc(), 8, "planner.jsonl", "counter.jsonl");
    let told = told.ok_or(not_served())?;
    Ok(told.first.as_slice() == PLANNED && compare(rt, "two scripts", &told)?)
}

/// Plays two scripts of two counts at a desk with three places. Whether three are answered, and one finds no place.
fn three_places<R: Threads + Wait + Sync + Print + AllocGlobal + Files<File = File>>(
    rt: &R,
) -> io::Result<bool> {
    let alloc = rt.alloc();
    let told = serve_both_scripts(rt, alloc, 3, "counts.jsonl", "counts.jsonl");
    let told = told.ok_or(not_served())?;
    let retold = retold_from(rt, &told)?;
    let (first, second) = (told.first.as_slice(), told.second.as_slice());
    let full = (first == TWO_COUNTS && second == COUNT_AND_FULL)
        || (first == COUNT_AND_FULL && second == TWO_COUNTS);
    if full && retold.replies.as_slice() == THREE_COUNTS {
        println!(rt; "three places: three counts are answered, and one finds no place")?;
        return Ok(true);
    }
    Ok(false)
}

/// The lines of a caller who loads, has 499 vehicles enter, and makes a step after each.
fn many_lines(alloc: Global) -> Result<String, AllocError> {
    let mut lines = String::from_str(alloc, LOAD_AND_ENTER)?;
    for _ in 0..498 {
        lines.push_str(STEP_AND_ENTER)?;
    }
    lines.push_str(STEP)?;
    Ok(lines)
}

/// Plays two callers of a thousand calls each. Whoever has the turn, somebody waits to depart in each step, and every second step
/// one departs. Whether they were answered as a replay is.
fn many_calls<R: Threads + Wait + Sync + Print + AllocGlobal>(rt: &R) -> io::Result<bool> {
    let alloc = rt.alloc();
    let lines = many_lines(alloc)?;
    let told = serve_both(rt, alloc, 2_000, lines.as_str()).ok_or(not_served())?;
    compare(rt, "two threads", &told)
}

/// Whether these replies are that the caller has loaded, or that another had, as `loads` says, and then this of its vehicle.
fn is_told(replies: &str, loads: bool, vehicle: &str) -> bool {
    let load = if loads { LOADED } else { NOT_LOADED_AGAIN };
    replies.strip_prefix(load) == Some(vehicle)
}

/// Whether of these replies to two callers one load is answered and the other refused, the vehicles are 0 and 1, and both wait.
fn are_told(first: &str, second: &str) -> bool {
    [true, false].iter().any(|loads| {
        (is_told(first, *loads, FIRST_WAITS) && is_told(second, !*loads, SECOND_WAITS))
            || (is_told(first, *loads, SECOND_WAITS) && is_told(second, !*loads, FIRST_WAITS))
    })
}

/// Plays two callers of three calls each: each loads the same network, has a vehicle enter, and asks for it. Whether they were
/// answered as they should be.
fn six_calls<R: Threads + Wait + Sync + Print + AllocGlobal>(rt: &R) -> io::Result<bool> {
    let told = serve_both(rt, rt.alloc(), 6, LOAD_AND_ENTER).ok_or(not_served())?;
    Ok(are_told(text_of(&told.first), text_of(&told.second)) && compare(rt, "six calls", &told)?)
}

/// Plays all four, up to the first that goes wrong. Whether each was answered as it should be.
fn play_all<R: Threads + Wait + Sync + Print + AllocGlobal + Files<File = File>>(
    rt: &R,
) -> io::Result<bool> {
    Ok(two_scripts(rt)? && three_places(rt)? && many_calls(rt)? && six_calls(rt)?)
}

/// The program: status 0 where all were answered as they should be, else 1.
fn main(rt: HostRuntime) -> ExitCode {
    // Where standard error fails too, the status alone tells the fault.
    match play_all(&rt) {
        Ok(true) => ExitCode::SUCCESS,
        Ok(false) => {
            let _ = eprintln!(rt; "street_clients: not answered as it should be");
            ExitCode::FAILURE
        }
        Err(error) => {
            let _ = eprintln!(rt; "street_clients: {error}");
            ExitCode::FAILURE
        }
    }
}
