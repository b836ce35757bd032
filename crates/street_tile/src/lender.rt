//! Who makes the parts of a step of all tiles: threads that are started for each part, to which [`share`] shares out
//! the tiles, or a team of workers that stay, to which the tiles are lent by value. Between two parts the caller has
//! all tiles, and alone shows mouths and moves hand-overs.
//! [`Lender::lend`] names no handle. Who may wait says so in the bounds of its `impl` block, so a step by any other lender is
//! proved to return. `step.rt` has a step made by one; `street_engine` chooses it.
ghost use Rattle.std.specs.Prelude.{◌≡◌, ℕ, ◌*◌, ◌<◌, ◌≤◌, length, All};
ghost use Rattle.street_base.specs.Prelude.{most_workers};
ghost use Rattle.street_base.specs.declared.net.NetSpec.{NetSpec};
ghost use Rattle.street_tile.specs.Prelude.{MayWork, DoesWork, MakesParts, Each};

use crate::step::work;
use crate::{Gate, Tile};
use std::marker::{Brand, PhantomData};
use std::sync::Wait;
use std::thread;
use std::thread::Threads;
use street_net::Network;
use street_team::{Team, TeamWork};

/// Who makes a part of a step of all tiles. `knows` is what it asks of its type's parameters and of the network.
pub trait Lender {
    ghost knows: { Self → NetSpec → Type 0 };

    /// A part of a step, by its number, of each tile; `shown` are the mouths of all lanes by slot, of which releases alone ask.
    fn lend(&mut self, net: &Network, part: u32, shown: &[bool], tiles: &mut Vec<Tile>)
        requires net { knows self.old net.now }
        requires few { length tiles.old.items ≤ most_workers }
        requires may { All (MayWork net.now part shown.now) tiles.old.items }
        ensures net { knows self.new net.now }
        ensures len { length tiles.new.items ≡ length tiles.old.items }
        ensures does { Each (DoesWork net.now part shown.now) tiles.old.items tiles.new.items };
}

/// Who lends by this closure, as to threads that are started for each part: an `impl` for these would need a gate of a type parameter,
/// which the kit does not let an `impl` of a trait send to threads.
#[derive(Drop)]
pub struct ClosureLender<F> {
    lend: F,
}

impl<F: Fn(&Network, u32, &[bool], &mut [Tile])> ClosureLender<F> {
    /// Who lends by this closure.
    pub fn new(lend: F) -> Self
        requires { MakesParts F.Fn lend }
        ensures { MakesParts F.Fn result.lend }
    {
        ClosureLender { lend }
    }
}

/// A call of the closure.
fn call<F: Fn(&Network, u32, &[bool], &mut [Tile])>(
    lend: &F,
    net: &Network,
    part: u32,
    shown: &[bool],
    tiles: &mut [Tile],
)
    requires makes { MakesParts F.Fn lend.now }
    requires few { length tiles.old ≤ most_workers }
    requires may { All (MayWork net.now part shown.now) tiles.old }
    ensures len { length tiles.new ≡ length tiles.old }
    ensures does { Each (DoesWork net.now part shown.now) tiles.old tiles.new }
{
    lend(net, part, shown, tiles);
}

impl<F: Fn(&Network, u32, &[bool], &mut [Tile])> Lender for ClosureLender<F> {
    ghost knows = { λ lender net. MakesParts F.Fn lender.lend };

    fn lend(&mut self, net: &Network, part: u32, shown: &[bool], tiles: &mut Vec<Tile>) {
        call(&self.lend, net, part, shown, tiles);
    }
}

/// Shares the tiles out to at most `threads` threads, which are started for this call: each tile goes to one of them,
/// which makes the part of the step of that tile. With one thread the caller makes the part of all tiles alone, one
/// after another.
pub fn share<R: Threads + Sync, G: Gate + Sync>(
    rt: &R,
    net: &Network,
    gate: &G,
    threads: usize,
    part: u32,
    shown: &[bool],
    tiles: &mut [Tile],
)
    requires some { 0 < threads }
    requires few { length tiles.old ≤ most_workers }
    requires may { All (MayWork net.now part shown.now) tiles.old }
    ensures len { length tiles.new ≡ length tiles.old }
    ensures does { Each (DoesWork net.now part shown.now) tiles.old tiles.new }
{
    thread::for_each_mut(
        rt,
        tiles,
        threads,
        &|i, tile: &mut Tile|
            requires { (i < most_workers) × MayWork net.now part shown.now tile.now }
            ensures { DoesWork net.entry.now part shown.entry.now tile.entry.now tile.exit.now }
        {
            work(net, gate, part, i as u32, shown, tile);
        },
    );
}

/// The part of a step of each tile, made by the caller alone, one tile after another: no thread is started.
pub fn work_all<G: Gate>(net: &Network, gate: &G, part: u32, shown: &[bool], tiles: &mut [Tile])
    requires few { length tiles.old ≤ most_workers }
    requires may { All (MayWork net.now part shown.now) tiles.old }
    ensures len { length tiles.new ≡ length tiles.old }
    ensures does { Each (DoesWork net.now part shown.now) tiles.old tiles.new }
{
    for number in 0..tiles.len() {
        work(net, gate, part, number as u32, shown, &mut tiles[number]);
    }
}

/// For contracts alone: the network of a team's tiles, and which its locks are, each of which tells what lent tiles were.
pub trait TeamNetwork {
    ghost net: { NetSpec };

    ghost lock: { ℕ → ℕ };
}

impl TeamNetwork for Brand {
    ghost use Rattle.street_tile.specs.Prelude.{no_network};

    ghost net = { no_network };

    ghost lock = { λ k. 0 };
}

/// The parts of a step as the workers of a team make them.
#[derive(Drop)]
pub struct TileWork<'b, G: Gate + Sync, K: TeamNetwork> {
    net: &'b Network,
    gate: &'b G,
    of: PhantomData<K>,
    ghost net_is: { net.now ≡ K.net },
}

impl<'b, G: Gate + Sync, K: TeamNetwork> TileWork<'b, G, K> {
    /// The parts of a step on this network's tiles, which this gate observes.
    pub fn new(net: &'b Network, gate: &'b G) -> Self
        requires { net.now ≡ K.net }
    {
        TileWork {
            net,
            gate,
            of: PhantomData,
        }
    }
}

impl<'b, G: Gate + Sync, K: TeamNetwork> TeamWork<Tile> for TileWork<'b, G, K> {
    ghost use Rattle.std.specs.Prelude.{◌<◌};

    ghost lock = { K.lock };

    ghost may = { λ part number shown tile. (number < most_workers) × MayWork K.net part shown tile };

    ghost does = { λ part number shown x y. DoesWork K.net part shown x y };

    /// Makes a part of a step on one tile, whose position among all is `number`; `shown` are the mouths, by which releases go.
    fn work(&self, part: u32, number: usize, shown: &[bool], item: &mut Tile) {
        work(self.net, self.gate, part, number as u32, shown, item);
    }
}

impl<'a, 'r, 'w, 's, 'b, G: Gate + Sync, K: TeamNetwork, R: Wait> Lender
    for Team<'a, 'r, 'w, 's, Tile, TileWork<'b, G, K>, R> {
    ghost use Rattle.std.specs.Prelude.{◌≡◌};

    ghost knows = { λ team net. net ≡ K.net };

    fn lend(&mut self, _net: &Network, part: u32, shown: &[bool], tiles: &mut Vec<Tile>) {
        Team::lend(self, part, shown, tiles);
    }
}
