//! A step of all tiles phase by phase, called as a caller of its own would.
ghost use Rattle.std.specs.Prelude.{◌≤◌, ◌<◌, length, OnOk, All};
ghost use Rattle.street_base.specs.Prelude.{last_clock, loaded};
ghost use Rattle.street_tile.specs.Prelude.{KeepsAll, AreTiles, TileStandsFor, IsIdle, IsPrepared, Each};

use crate::meeting::{Calls, Meeting, Watched};
use crate::scenes::two_ways;
use std::alloc::Global;
use std::process::Abort;
use std::sync::atomic::Ordering;
use std::test::Fail;
use std::thread::Threads;
use street_base::Starved;
use street_net::Network;
use street_tile::{Gate, LinkHints, Tile, View, step_all};

/// Takes the memory for a step.
fn prepare(tiles: &mut [Tile]) -> Result<(), Starved>
    ensures { OnOk result (Each (λ x y. KeepsAll x y × IsPrepared y) tiles.old tiles.new) }
{
    for i in 0..tiles.len() {
        tiles[i].prepare()?;
    }
    Ok(())
}

/// One step of tiles with nobody on them.
fn step<R: Threads + Sync, G: Gate + Sync>(
    rt: &R,
    alloc: Global,
    net: &Network,
    tiles: &mut [Tile],
    gate: &G,
) -> Result<(), Starved>
    requires start { net.now.start < last_clock }
    requires tiles { AreTiles net.now tiles.old }
    requires few { length tiles.old ≤ 64 }
    requires idle { All IsIdle tiles.old }
    requires stand { All (λ x. TileStandsFor x (loaded net.now)) tiles.old }
{
    prepare(tiles)?;
    let mut view = View::new(alloc, net)?;
    let mut hints = LinkHints::new(alloc);
    // Its clause `faultless` says that the machine has a state for the network.
    let _spec = net.spec();
    step_all(rt, net, tiles, &mut view, &mut hints, gate);
    Ok(())
}

/// The network is cut into two tiles, and a step of them made at this gate.
fn cut_and_step<R: Threads + Sync + Abort + AllocGlobal>(
    rt: &R,
    net: &Network,
    meeting: &Meeting,
) -> Result<(), Fail> {
    assert!(rt; net.spec().start == 0);
    let mut tiles = Tile::cut(rt.alloc(), net, 2)?;
    assert!(rt; tiles.len() == 2);
    step(rt, rt.alloc(), net, &mut tiles, &Watched(meeting))?;
    Ok(())
}

/// A worker came and went once in each of the five phases.
fn check_calls(rt: &impl Abort, calls: &Calls) {
    assert_eq!(rt; calls.arrivals.load(Ordering::SeqCst), 5);
    assert_eq!(rt; calls.leaves.load(Ordering::SeqCst), 5);
}

/// The second worker is held in each phase until the first has left it: so each phase is shared by two threads.
#[test]
fn two_tiles_step_side_by_side(rt: HostRuntime) -> Result<(), Fail> {
    let spec = two_ways(rt.alloc())?;
    let net = Network::build(rt.alloc(), &spec)?;
    let meeting = Meeting::of(1, true);
    cut_and_step(&rt, &net, &meeting)?;
    assert_eq!(rt; meeting.alone.load(Ordering::SeqCst), 0);
    assert_eq!(rt; meeting.wrong.load(Ordering::SeqCst), 0);
    check_calls(&rt, &meeting.first);
    check_calls(&rt, &meeting.second);
    Ok(())
}
