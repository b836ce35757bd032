//! Items on their way to a worker, with what is to be done with them, and on their way back. `team.rt` sends a task, and a
//! worker runs it.
ghost use Rattle.std.specs.Prelude.{◌≡◌, ◌+◌, ◌<◌, ◌^◌, IfSome, vec_len, length};
ghost use Rattle.street_team.specs.Lent.{BackMay, BackDoes};

use crate::block::ItemBlock;
use crate::work::TeamWork;
use std::marker::{Model, PhantomData};
use std::snapshot::Snapshot;
use std::sync::OnceToken;

/// Items that a worker is to work on, with a token of the lock that shows what they were.
#[derive(Drop)]
pub struct Task<'a, T: Drop, W: TeamWork<T>> {
    at: usize,
    part: u32,
    first: usize,
    block: ItemBlock<T>,
    was: OnceToken<'a, Snapshot<ItemBlock<T>>>,
    of: PhantomData<W>,
}

impl<'a, T: Drop, W: TeamWork<T>> Model for Task<'a, T, W> {
    ghost use Rattle.std.specs.Prelude.{◌≡◌, ℕ, ◌+◌, ◌<◌, ◌^◌, vec_len};
    ghost use Rattle.street_team.specs.Lent.{BackMay};

    ghost Value = { ℕ };

    ghost view = { λ e. e.at };

    ghost invariant = { λ e. (e.was.of ≡ W.lock e.at) × (e.was.value.value ≡ e.block)
        × (e.first + vec_len e.block.items < 2 ^ 64)
        × BackMay W.may e.part e.first e.block.shown.items e.block.items.items };
}

/// Items that a worker has worked on.
#[derive(Drop)]
pub struct FinishedTask<'a, T: Drop, W: TeamWork<T>> {
    at: usize,
    part: u32,
    first: usize,
    block: ItemBlock<T>,
    was: OnceToken<'a, Snapshot<ItemBlock<T>>>,
    of: PhantomData<W>,
}

impl<'a, T: Drop, W: TeamWork<T>> Model for FinishedTask<'a, T, W> {
    ghost use Rattle.std.specs.Prelude.{◌≡◌, ℕ, vec_len};
    ghost use Rattle.street_team.specs.Lent.{BackDoes};

    ghost Value = { ℕ };

    ghost view = { λ d. d.at };

    ghost invariant = { λ d. (d.was.of ≡ W.lock d.at) × (vec_len d.block.items ≡ vec_len d.was.value.value.items)
        × BackDoes W.does d.part d.first d.was.value.value.shown.items d.was.value.value.items.items d.block.items.items };
}

/// Makes a part of the work on each of these items, which lie the last of them first: the last here has number `first`, the one
/// before it the next number, and so on.
fn work_on<T: Drop, W: TeamWork<T>>(
    work: &W,
    part: u32,
    first: usize,
    shown: &[bool],
    items: &mut [T],
)
    requires small { first + length items.old < 2 ^ 64 }
    requires may { BackMay W.may part first shown.now items.old }
    ensures long { length items.new ≡ length items.old }
    ensures does { BackDoes W.does part first shown.now items.old items.new }
{
    let last = items.len();
    for at in 0..items.len() {
        work.work(part, first + (last - at - 1), shown, &mut items[at]);
    }
}

impl<'a, T: Drop, W: TeamWork<T>> Task<'a, T, W> {
    /// Items that are lent, to have part `part` made on them. The first of them has number `first` among all; `was` is the token of
    /// lock `at`, which shows what they were.
    pub(crate) fn new(
        at: usize,
        part: u32,
        first: usize,
        block: ItemBlock<T>,
        was: OnceToken<'a, Snapshot<ItemBlock<T>>>,
    ) -> Self
        requires lock { was.of ≡ W.lock at }
        requires same { was.value.value ≡ block }
        requires small { first + vec_len block.items < 2 ^ 64 }
        requires may { BackMay W.may part first block.shown.items block.items.items }
    {
        Task {
            at,
            part,
            first,
            block,
            was,
            of: PhantomData,
        }
    }

    /// Makes the part on each of the items, and gives them as worked on.
    pub(crate) fn run(self, work: &W) -> FinishedTask<'a, T, W> {
        let Task {
            at,
            part,
            first,
            block,
            was,
            of,
        } = self;
        let ItemBlock { shown, mut items } = block;
        work_on(work, part, first, &shown, &mut items);
        FinishedTask {
            at,
            part,
            first,
            block: ItemBlock { shown, items },
            was,
            of,
        }
    }
}

impl<'a, T: Drop, W: TeamWork<T>> FinishedTask<'a, T, W> {
    /// The items, if they are those of this task, by its lock, its part and the number of its first item; else nothing.
    pub(crate) fn into_block(
        self,
        at: usize,
        part: u32,
        first: usize,
        was: &OnceToken<'a, Snapshot<ItemBlock<T>>>,
    ) -> Option<ItemBlock<T>>
        requires { was.now.of ≡ W.lock at }
        ensures len { IfSome result (λ block. vec_len block.items ≡ vec_len was.now.value.value.items) }
        ensures does { IfSome result (λ block. BackDoes W.does part first was.now.value.value.shown.items was.now.value.value.items.items block.items.items) }
    {
        if self.at != at || self.part != part || self.first != first {
            return None;
        }
        self.was.agrees(was);
        let FinishedTask {
            at: _,
            part: _,
            first: _,
            block,
            was: _,
            of: _,
        } = self;
        Some(block)
    }
}
