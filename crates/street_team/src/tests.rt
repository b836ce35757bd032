//! Numbers that a team adds to.
ghost use Rattle.std.specs.Prelude.{◌≡◌, ℕ, ◌+◌, ◌<◌, ◌≤◌, length, slice_get, vec_len, slice_index_or, List, Some, IfOk};

use super::{
    ItemBlock, Team, TeamState, TeamWork, join_workers, new_blocks, new_locks, start_workers,
};
use std::alloc::{AllocError, Global};
use std::marker::{Brand, Model, PhantomData};
use std::snapshot::Snapshot;
use std::sync::{OnceLock, Wait};
use std::test::*;
use std::thread;
use std::thread::Threads;

/// Facts of a type: which locks there are, and the numbers that are begun with.
trait Course {
    ghost lock: { ℕ → ℕ };

    ghost begun: { List ℕ };
}

impl Course for Brand {
    ghost use Rattle.std.specs.Prelude.{[]};

    ghost lock = { λ k. 0 };

    ghost begun = { [] };
}

#[derive(Drop)]
struct Adding<K: Course> {
    of: PhantomData<K>,
}

impl<K: Course> TeamWork<u32> for Adding<K> {
    ghost use Rattle.std.specs.Prelude.{◌≡◌, ◌+◌, ◌<◌};

    ghost lock = { K.lock };

    ghost may = { λ part number shown x. x < 1000 };

    ghost does = { λ part number shown x y. y ≡ x + 1 };

    /// Adds 1.
    fn work(&self, part: u32, number: usize, shown: &[bool], item: &mut u32) {
        *item += 1;
    }
}

/// Numbers to each of which 1 was added.
#[derive(Drop)]
struct Added<K: Course> {
    items: Vec<u32>,
    of: PhantomData<K>,
}

impl<K: Course> Model for Added<K> {
    ghost use Rattle.std.specs.Prelude.{◌≡◌, ℕ, ◌+◌, ◌<◌, List, length, slice_index_or};

    ghost Value = { List ℕ };

    ghost view = { λ a. a.items.items };

    ghost invariant = { λ a. (i : ℕ) (d : ℕ) → i < length K.begun → slice_index_or a.items.items i d ≡ slice_index_or K.begun i d + 1 };
}

impl<K: Course> Added<K> {
    /// Numbers, to each of which 1 was added.
    fn new(items: Vec<u32>) -> Self
        requires { (i : ℕ) (d : ℕ) → i < length K.begun → slice_index_or items.items i d ≡ slice_index_or K.begun i d + 1 }
    {
        Added {
            items,
            of: PhantomData,
        }
    }

    /// The numbers.
    fn into_items(self) -> Vec<u32>
        ensures { (i : ℕ) (d : ℕ) → i < length K.begun → slice_index_or result.items i d ≡ slice_index_or K.begun i d + 1 }
    {
        let Added { items, of: _ } = self;
        items
    }
}

/// Adds 1 to each of these numbers, by a team.
fn add_all<K: Course, R: Wait>(
    team: &mut Team<'_, '_, '_, '_, u32, Adding<K>, R>,
    items: Vec<u32>,
) -> Added<K>
    requires begun { items.items ≡ K.begun }
    requires small { (i : ℕ) (d : ℕ) → i < length K.begun → slice_index_or K.begun i d < 1000 }
{
    let mut items = items;
    team.lend(0, &[true], &mut items);
    Added::new(items)
}

/// Adds 1 to each of these numbers, by the caller and so many threads.
fn add_with<'a, K: Course + Send + Sync, R: Threads + Wait + Sync>(
    rt: &R,
    alloc: Global,
    shared: &TeamState<'a, '_, u32, Adding<K>>,
    spare: Vec<ItemBlock<u32>>,
    locks: &'a [OnceLock<Snapshot<ItemBlock<u32>>>],
    items: Vec<u32>,
    threads: usize,
) -> Added<K>
    requires mailboxes { threads ≤ vec_len shared.now.mailboxes }
    requires locks { (k : ℕ) (l : _) → slice_get locks.now k ≡ Some l → l.id ≡ K.lock k }
    requires begun { items.items ≡ K.begun }
    requires small { (i : ℕ) (d : ℕ) → i < length K.begun → slice_index_or K.begun i d < 1000 }
{
    thread::scope(
        thread::scope_env(),
        rt,
        move |scope| -> Added<K>
            requires { (threads ≤ vec_len shared.now.mailboxes)
                × ((k : ℕ) (l : _) → slice_get locks.now k ≡ Some l → l.id ≡ K.lock k)
                × (items.items ≡ K.begun)
                × ((i : ℕ) (d : ℕ) → i < length K.begun → slice_index_or K.begun i d < 1000) }
        {
            let started = start_workers(scope, rt, alloc, shared, threads);
            let mut team = Team::new(rt, shared, locks, spare, started.len());
            let added = add_all(&mut team, items);
            shared.end();
            join_workers(rt, started);
            added
        },
    )
}

/// Adds 1 to each of these numbers, by the caller and so many threads, which are known by these locks.
fn add_by<K: Course + Send + Sync, R: Threads + Wait + Sync>(
    rt: &R,
    alloc: Global,
    locks: &[OnceLock<Snapshot<ItemBlock<u32>>>],
    items: Vec<u32>,
    threads: usize,
) -> Result<Vec<u32>, AllocError>
    requires locks { (k : ℕ) (l : _) → slice_get locks.now k ≡ Some l → l.id ≡ K.lock k }
    requires begun { items.items ≡ K.begun }
    requires small { (i : ℕ) (d : ℕ) → i < length K.begun → slice_index_or K.begun i d < 1000 }
    ensures { IfOk result (λ ys. (i : ℕ) (d : ℕ) → i < length K.begun → slice_index_or ys.items i d ≡ slice_index_or K.begun i d + 1) }
{
    let work = Adding::<K> { of: PhantomData };
    let shared = TeamState::new(alloc, &work, threads)?;
    let rooms = vec![in alloc; 2; threads]?;
    let spare = new_blocks(alloc, &rooms, 1)?;
    Ok(add_with(rt, alloc, &shared, spare, locks, items, threads).into_items())
}

/// Adds 1 to each of these numbers, by the caller and so many threads.
fn add<R: Threads + Wait + Sync>(
    rt: &R,
    alloc: Global,
    items: Vec<u32>,
    threads: usize,
) -> Result<Vec<u32>, AllocError>
    requires small { (i : ℕ) (d : ℕ) → i < length items.items → slice_index_or items.items i d < 1000 }
    ensures { IfOk result (λ ys. (i : ℕ) (d : ℕ) → i < length items.items → slice_index_or ys.items i d ≡ slice_index_or items.items i d + 1) }
{
    let all = new_locks::<u32>(alloc, threads)?;
    add_by::<Brand, R>(rt, alloc, &all, items, threads)
}

/// Seven numbers by three threads: each is one more.
#[test]
fn adds(rt: HostRuntime) -> Result<(), Fail> {
    let alloc: Global = rt.alloc();
    let ys = add(&rt, alloc, vec![in alloc; 5; 7]?, 3)?;
    assert_eq!(rt; ys.len(), 7);
    for i in 0..ys.len() {
        assert_eq!(rt; ys[i], 6);
    }
    Ok(())
}
