//! Worked sessions while memory is refused, as a program of the gate. `tools/tests/test_memory.py` runs it once for each of
//! its requests for memory: that request is refused and no other, and once more that request and all after it.
//!
//! A command that was starved has changed nothing, and is answered as it should be when it is called again; an advance that
//! stopped short has made just those steps, and is answered as it should be when the rest is made. What is written is the
//! same whichever one request is refused. The status is 1 where anything is answered otherwise than it should be.
#![tactic(auto)]

mod callers;
mod calls;
mod desks;
mod parts;
mod served;
mod sessions;
mod steps;
mod texts;

use calls::{Met, Way};
use desks::two_callers;
use parts::parts_without;
use served::{Wrong, serve_session};
use sessions::SESSIONS;
use std::io;
use std::process::ExitCode;
use std::sync::Wait;
use std::thread::Threads;
use steps::steps_without;

/// Reports whether all was answered as it should be to the end, or as far as there was memory, or what is wrong. Whether nothing is.
fn report<R: Print>(rt: &R, name: &str, told: Result<bool, &'static str>) -> io::Result<bool> {
    match told {
        Ok(true) => println!(rt; "{name}: as it should be")?,
        Ok(false) => println!(rt; "{name}: as far as it should be without memory")?,
        Err(why) => println!(rt; "{name}: {why}")?,
    }
    Ok(told.is_ok())
}

/// Serves each session in one way, by a team those of several workers, and reports whether it was answered as it should be. Whether
/// all were.
fn serve_sessions<R: Threads + Wait + Sync + Print + AllocGlobal>(
    rt: &R,
    way: Way,
    met: &mut Met,
) -> io::Result<bool> {
    let mut all = true;
    for session in &SESSIONS {
        let by = match way {
            Way::Lent => "",
            Way::Team if session.workers > 1 => ", by a team",
            Way::Team => continue,
        };
        match serve_session(rt, rt.alloc(), session, way, met) {
            Ok(true) => println!(rt; "{}{by}: as it should be", session.name)?,
            Ok(false) => {
                println!(rt;
                    "{}{by}: as far as it should be without memory",
                    session.name
                )?
            }
            Err(Wrong { line, why }) => {
                all = false;
                println!(rt; "{}{by}: line {line}: {why}", session.name)?;
            }
        }
    }
    Ok(all)
}

/// Serves each session, and all else, and reports whether it was answered as it should be. Whether all was.
fn serve_all<R: Threads + Wait + Sync + Print + Eprint + AllocGlobal>(rt: &R) -> io::Result<bool> {
    let mut met = Met {
        starved: 0,
        short: 0,
    };
    let mut all = serve_sessions(rt, Way::Lent, &mut met)?;
    all &= serve_sessions(rt, Way::Team, &mut met)?;
    let parts = match parts_without(rt.alloc()) {
        Some(false) => Err("answered otherwise"),
        parts => Ok(parts.is_some()),
    };
    all &= report(rt, "parts without memory", parts)?;
    all &= report(rt, "steps without memory", steps_without(rt, rt.alloc()))?;
    all &= report(rt, "two callers", two_callers(rt, rt.alloc()))?;
    // Which request was refused differs from run to run, so this stands apart from what is compared.
    eprintln!(rt; "starved {}, short {}", met.starved, met.short)?;
    Ok(all)
}

fn main(rt: HostRuntime) -> ExitCode {
    match serve_all(&rt) {
        Ok(true) => ExitCode::SUCCESS,
        Ok(false) => ExitCode::FAILURE,
        Err(error) => {
            // Where standard error fails too, the status alone reports the fault.
            let _ = eprintln!(rt; "street_memory: {error}");
            ExitCode::FAILURE
        }
    }
}
