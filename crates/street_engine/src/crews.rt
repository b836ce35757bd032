//! Who makes the steps of an advance: threads that are started for each part of a step, workers that stay, or the thread that calls
//! alone. `engine.rt` hands one of them to an advance.
ghost use Rattle.std.specs.Prelude.{◌≡◌, ◌*◌, ◌+◌, ◌<◌, ◌≤◌, length, All};
ghost use Rattle.street_base.specs.Prelude.{last_clock, most_workers, steps};
ghost use Rattle.street_tile.specs.Prelude.{MayWork, DoesWork, Each};
ghost use Rattle.street_engine.specs.Prelude.{StreetsGo, ToldOf};

use crate::teams::{Shift, team_steps};
use crate::{StepSink, Streets};
use std::alloc::Global;
use std::sync::Wait;
use std::thread::Threads;
use street_net::Network;
use street_tile::{ClosureLender, Gate, Tile, share, work_all};

/// So many steps, or fewer where memory was refused for one, by so many threads at most, which are started for each part of a step:
/// what they leave, the sink that was told of each, and how many.
fn steps_by<R: Threads + Sync, G: Gate + Sync, S: StepSink + Drop>(
    rt: &R,
    gate: &G,
    threads: usize,
    streets: Streets,
    sink: S,
    count: u64,
) -> (Streets, S, u64)
    requires some { 0 < threads }
    requires in_time { streets.clock + count ≤ last_clock }
    ensures most { result.2 ≤ count }
    ensures clock { result.0.clock ≡ streets.clock + result.2 }
    ensures steps { StreetsGo (steps result.2) streets result.0 }
    ensures noted { ToldOf S.notes streets result.2 sink result.1 }
{
    let lend = |net: &Network, part: u32, shown: &[bool], tiles: &mut [Tile]|
        requires { (0 < threads) × (length tiles.now ≤ most_workers) × All (MayWork net.now part shown.now) tiles.now }
        ensures { (length tiles.exit.now ≡ length tiles.entry.now) × Each (DoesWork net.now part shown.now) tiles.entry.now tiles.exit.now }
    {
        share(rt, net, gate, threads, part, shown, tiles);
    };
    streets.steps_with(&mut ClosureLender::new(lend), sink, count)
}

/// Steps by threads that are started for each part, as many as there are tiles where the gate lets workers share the next step, else by
/// the caller alone: what they leave, the sink that was told of each, and how many. They wait for nobody.
pub(crate) fn started_steps<R: Threads + Sync, G: Gate + Sync, S: StepSink + Drop>(
    rt: &R,
    gate: &G,
    streets: Streets,
    sink: S,
    count: u64,
) -> (Streets, S, u64)
    requires in_time { streets.clock + count ≤ last_clock }
    ensures most { result.2 ≤ count }
    ensures clock { result.0.clock ≡ streets.clock + result.2 }
    ensures steps { StreetsGo (steps result.2) streets result.0 }
    ensures noted { ToldOf S.notes streets result.2 sink result.1 }
{
    let threads = streets.threads_of_steps(gate);
    steps_by(rt, gate, threads, streets, sink, count)
}

/// Steps by workers that stay for all of them, where the gate lets them share the next step and says that several threads make it sooner;
/// else, or where the team made none, as for want of its own memory, by the caller alone: what they leave, the sink that was told of
/// each, and how many.
pub(crate) fn staying_steps<R: Threads + Wait + Sync, G: Gate + Sync, S: StepSink + Drop>(
    rt: &R,
    gate: &G,
    alloc: Global,
    streets: Streets,
    sink: S,
    count: u64,
) -> (Streets, S, u64)
    requires few { count ≤ 16 }
    requires in_time { streets.clock + count ≤ last_clock }
    ensures most { result.2 ≤ count }
    ensures clock { result.0.clock ≡ streets.clock + result.2 }
    ensures steps { StreetsGo (steps result.2) streets result.0 }
    ensures noted { ToldOf S.notes streets result.2 sink result.1 }
{
    let threads = streets.threads_that_stay(gate);
    if threads > 1 {
        let shift = Shift {
            threads: threads - 1,
            steps: count,
        };
        let (left, kept, made) = team_steps(rt, alloc, gate, streets, sink, shift);
        if made > 0 {
            return (left, kept, made);
        }
        return steps_by(rt, gate, 1, left, kept, count);
    }
    steps_by(rt, gate, 1, streets, sink, count)
}

/// Steps by the thread that calls, alone and with no runtime, or fewer where memory was refused for one: what they leave, the sink that
/// was told of each, and how many.
pub(crate) fn own_steps<G: Gate, S: StepSink + Drop>(
    gate: &G,
    streets: Streets,
    sink: S,
    count: u64,
) -> (Streets, S, u64)
    requires in_time { streets.clock + count ≤ last_clock }
    ensures most { result.2 ≤ count }
    ensures clock { result.0.clock ≡ streets.clock + result.2 }
    ensures steps { StreetsGo (steps result.2) streets result.0 }
    ensures noted { ToldOf S.notes streets result.2 sink result.1 }
{
    let lend = |net: &Network, part: u32, shown: &[bool], tiles: &mut [Tile]|
        requires { (length tiles.now ≤ most_workers) × All (MayWork net.now part shown.now) tiles.now }
        ensures { (length tiles.exit.now ≡ length tiles.entry.now) × Each (DoesWork net.now part shown.now) tiles.entry.now tiles.exit.now }
    {
        work_all(net, gate, part, shown, tiles);
    };
    streets.steps_with(&mut ClosureLender::new(lend), sink, count)
}
