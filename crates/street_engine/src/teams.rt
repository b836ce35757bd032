//! Steps by a team: the caller and threads that stay for a shift, up to 16 steps of an advance.
//!
//! Who lends what to whom: for each part of a step the caller lends each thread a block of tiles, laid in that thread's mailbox, works on
//! the others itself, and has all back before it goes on. A scope holds the threads, so that they may borrow the mailboxes. Each lending
//! sets one of the locks to what its tiles were, and a lock is set once: so what comes back is known to be what the part makes of them.
//!
//! [`team_steps`] makes the locks, [`steps_with_locks`] the mailboxes and the blocks, [`steps_in_scope`] the threads, and the steps are
//! those of [`Streets::steps_with`], by whoever lends.
ghost use Rattle.std.specs.Prelude.{◌≡◌, ℕ, ◌+◌, ◌^◌, ◌<◌, ◌≤◌, slice_get, vec_len, Some};
ghost use Rattle.street_base.specs.Prelude.{last_clock, most_workers, steps};
ghost use Rattle.street_engine.specs.Prelude.{StreetsView, StreetsGo, HaveRun, ToldOf};

use crate::{StepSink, Streets};
use std::alloc::Global;
use std::marker::{Brand, Model, PhantomData};
use std::snapshot::Snapshot;
use std::sync::{OnceLock, Wait};
use std::thread;
use std::thread::Threads;
use street_net::Network;
use street_team::{ItemBlock, Team, TeamState, join_workers, new_locks, start_workers};
use street_tile::{Gate, TeamNetwork, Tile, TileWork};

/// How often a step lends the tiles: once in each of its three parts.
const LENDINGS: usize = 3;

/// For how long a team stays, and how many threads it has besides the caller.
#[derive(Clone, Copy)]
pub(crate) struct Shift {
    pub(crate) threads: usize,
    pub(crate) steps: u64,
}

/// The streets and the sink with which a shift begins, and how many steps it makes at most: facts of a type, which the proof of a call
/// picks.
pub(crate) trait ShiftStart<S> {
    ghost use Rattle.std.specs.Prelude.{Option};

    ghost begun: { StreetsView };

    ghost most: { ℕ };

    ghost sink: { Option S };
}

impl<S> ShiftStart<S> for Brand {
    ghost use Rattle.std.specs.Prelude.{None};
    ghost use Rattle.street_engine.specs.Prelude.{no_streets};

    ghost begun = { no_streets };

    ghost most = { 0 };

    ghost sink = { None };
}

/// What a shift leaves, the sink that was told of its steps, and how many it has made. What it left is a fact of the type, since a scope
/// tells nothing else of what its closure returns where that holds what the threads borrow.
#[derive(Drop)]
struct ShiftResult<B: ShiftStart<K>, K: StepSink> {
    streets: Streets,
    sink: K,
    made: u64,
    of: PhantomData<B>,
}

impl<B: ShiftStart<K>, K: StepSink> Model for ShiftResult<B, K> {
    ghost use Rattle.street_engine.specs.Prelude.{ShiftResultView, HaveRun};

    ghost Value = { ShiftResultView K };

    ghost view = { λ r. record { streets = r.streets; sink = r.sink; made = r.made } };

    ghost invariant = { λ r. HaveRun K.notes B.begun B.most B.sink r.streets r.sink r.made };
}

/// The steps of a shift, or fewer where memory was refused for one. Its threads are started in a scope, and have ended when it returns.
/// `shared` has a mailbox for each of them, `spare` a block for each; `locks` are those of [`team_steps`].
fn steps_in_scope<
    'a,
    G: Gate + Sync,
    K: TeamNetwork + Send + Sync,
    B: ShiftStart<S> + Send + Sync,
    R: Threads + Wait + Sync,
    S: StepSink + Drop,
>(
    rt: &R,
    alloc: Global,
    shared: &TeamState<'a, '_, Tile, TileWork<'_, G, K>>,
    spare: Vec<ItemBlock<Tile>>,
    locks: &'a [OnceLock<Snapshot<ItemBlock<Tile>>>],
    streets: Streets,
    sink: S,
    shift: Shift,
) -> ShiftResult<B, S>
    requires mailboxes { shift.threads ≤ vec_len shared.now.mailboxes }
    requires locks { (k : ℕ) (l : _) → slice_get locks.now k ≡ Some l → l.id ≡ K.lock k }
    requires team { B.begun.tiles.network ≡ K.net }
    requires begun { streets ≡ B.begun }
    requires in_time { B.begun.clock + shift.steps ≤ last_clock }
    requires most { shift.steps ≡ B.most }
    requires sink { B.sink ≡ Some sink }
{
    thread::scope(
        thread::scope_env(),
        rt,
        move |scope| -> ShiftResult<B, S>
            requires { (shift.threads ≤ vec_len shared.now.mailboxes)
                × ((k : ℕ) (l : _) → slice_get locks.now k ≡ Some l → l.id ≡ K.lock k)
                × (B.begun.tiles.network ≡ K.net) × (streets ≡ B.begun)
                × (B.begun.clock + shift.steps ≤ last_clock) × (shift.steps ≡ B.most) × (B.sink ≡ Some sink) }
        {
            let started = start_workers(scope, rt, alloc, shared, shift.threads);
            let mut team = Team::new(rt, shared, locks, spare, started.len());
            let (streets, sink, made) = streets.steps_with(&mut team, sink, shift.steps);
            shared.end();
            join_workers(rt, started);
            ShiftResult {
                streets,
                sink,
                made,
                of: PhantomData,
            }
        },
    )
}

/// The steps of a shift, or fewer where memory was refused for one, or none where it was refused for the mailboxes or the blocks: what
/// they leave, the sink that was told of each, and how many. Each lending takes one of the locks; `net` is the network of the streets.
fn steps_with_locks<
    K: TeamNetwork + Send + Sync,
    B: ShiftStart<S> + Send + Sync,
    G: Gate + Sync,
    R: Threads + Wait + Sync,
    S: StepSink + Drop,
>(
    rt: &R,
    alloc: Global,
    gate: &G,
    locks: &[OnceLock<Snapshot<ItemBlock<Tile>>>],
    net: &Network,
    streets: Streets,
    sink: S,
    shift: Shift,
) -> (Streets, S, u64)
    requires locks { (k : ℕ) (l : _) → slice_get locks.now k ≡ Some l → l.id ≡ K.lock k }
    requires net { net.now ≡ K.net }
    requires team { B.begun.tiles.network ≡ K.net }
    requires begun { streets ≡ B.begun }
    requires in_time { B.begun.clock + shift.steps ≤ last_clock }
    requires most { shift.steps ≡ B.most }
    requires sink { B.sink ≡ Some sink }
    ensures ran { HaveRun S.notes B.begun B.most B.sink result.0 result.1 result.2 }
{
    let work = TileWork::<G, K>::new(net, gate);
    let Ok(shared) = TeamState::new(alloc, &work, shift.threads) else {
        return (streets, sink, 0);
    };
    let Ok(spare) = streets.tiles().blocks(alloc, shift.threads) else {
        return (streets, sink, 0);
    };
    let ran = steps_in_scope::<G, K, B, R, S>(
        rt, alloc, &shared, spare, locks, streets, sink, shift,
    );
    let ShiftResult {
        streets,
        sink,
        made,
        of: _,
    } = ran;
    (streets, sink, made)
}

/// The steps of a shift, or fewer where memory was refused for one: what they leave, the sink that was told of each, and how many, which
/// is none where memory for the team was refused or the network is shared too often.
pub(crate) fn team_steps<R: Threads + Wait + Sync, G: Gate + Sync, S: StepSink + Drop>(
    rt: &R,
    alloc: Global,
    gate: &G,
    streets: Streets,
    sink: S,
    shift: Shift,
) -> (Streets, S, u64)
    requires few { shift.steps ≤ 16 }
    requires threads { shift.threads ≤ most_workers }
    requires in_time { streets.clock + shift.steps ≤ last_clock }
    ensures most { result.2 ≤ shift.steps }
    ensures clock { result.0.clock ≡ streets.clock + result.2 }
    ensures steps { StreetsGo (steps result.2) streets result.0 }
    ensures noted { ToldOf S.notes streets result.2 sink result.1 }
{
    let Ok(known) = new_locks::<Tile>(alloc, LENDINGS * shift.threads * shift.steps as usize) else {
        return (streets, sink, 0);
    };
    let Ok(network) = streets.tiles().share_network() else {
        return (streets, sink, 0);
    };
    steps_with_locks::<Brand, Brand, G, R, S>(
        rt, alloc, gate, &known, &network, streets, sink, shift,
    )
}
