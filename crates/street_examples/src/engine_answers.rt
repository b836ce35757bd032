//! What is answered to the lines of a session.
ghost use Rattle.std.specs.Prelude.{◌≤◌, None, IfOk};
ghost use Rattle.street_base.specs.Prelude.{most_workers, State};
ghost use Rattle.street_stream.specs.Lines.{lines_of};
ghost use Rattle.street_line.specs.Engines.{MachineServes};
ghost use Rattle.street_line.specs.Runs.{Goes};

use std::alloc::Global;
use std::io;
use std::thread::Threads;
use street_engine::{Engine, StartedCrew, Unrecorded, Unwatched};
use street_line::{Counted, Session, run_session};

/// What is answered to the lines of a text where nothing is loaded at first: what the machine says to them, whatever the
/// number of workers, 1 to 64, and from how many vehicles on they share a step.
///
/// # Errors
///
/// An error where the lines were not served to their end, for lack of memory.
pub fn answers<R: Threads + Sync>(
    rt: &R,
    alloc: Global,
    workers: u32,
    gate: Unwatched,
    lines: &[u8],
) -> io::Result<Vec<u8>>
    requires { (1 ≤ workers) × (workers ≤ most_workers) }
    ensures { IfOk result (λ out. (state : State) × Goes MachineServes None (lines_of lines.now) out.items state) }
{
    let mut reader = Counted::new(lines);
    let mut writer = Counted::new(Vec::new(alloc));
    let engine = Engine::new(alloc, workers, gate);
    let mut session = Session::new(StartedCrew::new(rt), engine, Unrecorded);
    match run_session(alloc, &mut session, &mut reader, &mut writer) {
        Ok(_tally) => Ok(writer.into_inner()),
        Err(_fault) => Err(io::Error::from(io::ErrorKind::OutOfMemory)),
    }
}
