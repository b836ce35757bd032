//! The engines of the program's runs, and how many workers they have. Here alone the number of workers that the words ask for
//! meets the number of processors. Each run makes its engine by it.
ghost use Rattle.std.specs.Prelude.{◌≡◌, ◌*◌, ◌≤◌, IfSome, IsNone, None, min};
ghost use Rattle.street_base.specs.Prelude.{most_workers};
ghost use Rattle.street_engine.specs.Prelude.{StandsFor};

use std::alloc::Global;
use std::thread;
use std::thread::Threads;
use street_engine::{Engine, Unwatched};

/// How many workers at most an engine has for each of several processors. A network has a tile for each worker: a few more tiles than
/// threads make blocks with about as many vehicles each, and every tile takes time.
const MOST_A_PROCESSOR: usize = 4;

/// An engine with nothing loaded, for a session of which so many workers are asked for, whose calls may wait.
pub(crate) fn staying_engine<R: Threads>(rt: &R, alloc: Global, asked: u32) -> Engine<Unwatched>
    requires some { 1 ≤ asked }
    requires few { asked ≤ most_workers }
    ensures { StandsFor result None }
{
    let processors = processors(rt);
    let workers = useful_workers(asked, processors);
    Engine::new(alloc, workers, Unwatched::staying(processors.unwrap_or(1)))
}

/// An engine with nothing loaded, for a replay by so many workers, whose calls never wait.
pub(crate) fn started_engine<R: Threads>(rt: &R, alloc: Global, asked: u32) -> Engine<Unwatched>
    requires some { 1 ≤ asked }
    requires few { asked ≤ most_workers }
    ensures { StandsFor result None }
{
    let workers = useful_workers(asked, processors(rt));
    Engine::new(alloc, workers, Unwatched::new())
}

/// How many threads may run at once; none where the system does not tell.
fn processors<R: Threads>(rt: &R) -> Option<usize> {
    match thread::available_parallelism(rt) {
        Ok(count) => Some(count.get()),
        Err(_) => None,
    }
}

/// As many workers as are asked for, and at most four for each of several processors, or one where there is one; as many as are asked
/// for where it is not known how many processors there are.
fn useful_workers(asked: u32, processors: Option<usize>) -> u32
    ensures few { result ≤ asked }
    ensures some { 1 ≤ asked → 1 ≤ result }
    ensures alone { IfSome processors (λ count. count ≤ 1 → result ≡ min 1 asked) }
    ensures several { IfSome processors (λ count. 2 ≤ count → result ≡ min (4 * count) asked) }
    ensures unknown { IsNone processors → result ≡ asked }
{
    let Some(count) = processors else {
        return asked;
    };
    let most = if count < 2 {
        1
    } else {
        count.saturating_mul(MOST_A_PROCESSOR)
    };
    if most < asked as usize {
        most as u32
    } else {
        asked
    }
}
