//! The caller's side of a team: items are lent to the workers, and all are back when the call returns. The steps of
//! `street_engine` by a team lend tiles so.
ghost use Rattle.std.specs.Prelude.{◌≡◌, ℕ, ◌+◌, ◌<◌, ◌≤◌, length, vec_len, vec_capacity, slice_get, slice_index_or, Some, None, IfSome};
ghost use Rattle.street_team.specs.Lent.{AllMay, EachDoes, BackDoes, IsBackOf};

use crate::block::ItemBlock;
use crate::shared::TeamState;
use crate::task::Task;
use crate::work::TeamWork;
use std::alloc::{AllocError, Global};
use std::snapshot::Snapshot;
use std::sync::{OnceLock, OnceToken, Wait};

/// So many locks, none of which is set: each is to show what the items of one lending to one thread were.
///
/// # Errors
/// Memory was refused.
pub fn new_locks<T: Drop>(
    alloc: Global,
    count: usize,
) -> Result<Vec<OnceLock<Snapshot<ItemBlock<T>>>>, AllocError> {
    let mut locks = Vec::with_capacity(alloc, count)?;
    for _ in 0..count {
        locks.push_reserved(OnceLock::new());
    }
    Ok(locks)
}

/// Who lends items to so many threads, a block of them to each while there are locks and blocks; the others it works on itself.
/// A block has as many as it has room for, the first block those behind the caller's own.
#[derive(Drop)]
pub struct Team<'a, 'r, 'w, 's, T: Drop, W: TeamWork<T>, R: Wait> {
    rt: &'r R,
    shared: &'s TeamState<'a, 'w, T, W>,
    locks: &'a [OnceLock<Snapshot<ItemBlock<T>>>],
    spare: Vec<ItemBlock<T>>,
    used: usize,
    threads: usize,
    ghost known: { (k : ℕ) (l : _) → slice_get locks.now k ≡ Some l → l.id ≡ W.lock k },
}

impl<'a, 'r, 'w, 's, T: Drop, W: TeamWork<T>, R: Wait> Team<'a, 'r, 'w, 's, T, W, R> {
    /// A team of the caller and so many threads, which were started. `shared` has a mailbox for each of them, as else `lend` waits for
    /// ever; `spare` has a block for each, and `locks` one for each lending to each.
    pub fn new(
        rt: &'r R,
        shared: &'s TeamState<'a, 'w, T, W>,
        locks: &'a [OnceLock<Snapshot<ItemBlock<T>>>],
        spare: Vec<ItemBlock<T>>,
        threads: usize,
    ) -> Self
        requires locks { (k : ℕ) (l : _) → slice_get locks.now k ≡ Some l → l.id ≡ W.lock k }
        requires mailboxes { threads ≤ vec_len shared.now.mailboxes }
    {
        Team {
            rt,
            shared,
            locks,
            spare,
            used: 0,
            threads,
        }
    }

    /// Makes part `part` of the work on each item, while this is shown: by a thread of the team, or here. Waits for the threads;
    /// each item is in its place again then.
    pub fn lend(&mut self, part: u32, shown: &[bool], items: &mut Vec<T>)
        requires may { AllMay W.may part shown.now items.old.items }
        ensures len { vec_len items.new ≡ vec_len items.old }
        ensures does { EachDoes W.does part shown.now items.old.items items.new.items }
    {
        self.lend_to(self.threads, part, shown, items);
        self.used = self.used.saturating_add(self.threads);
    }

    /// Puts a block of the last items on its way to the last of so many threads, then others to those before it, and waits for it.
    /// Once all are on their way the workers begin, and the items that are left are worked on here.
    fn lend_to(&mut self, threads: usize, part: u32, shown: &[bool], items: &mut Vec<T>)
        requires may { AllMay W.may part shown.now items.old.items }
        ensures len { vec_len items.new ≡ vec_len items.old }
        ensures capacity { vec_capacity items.new ≡ vec_capacity items.old }
        ensures does { EachDoes W.does part shown.now items.old.items items.new.items }
    {
        let Some(number) = threads.checked_sub(1) else {
            self.shared.begin();
            work_here(self.shared.work, part, shown, items);
            return;
        };
        let at = self.used.saturating_add(number);
        let sent = self.send(at, number, part, shown, items);
        self.lend_to(number, part, shown, items);
        if let Some((first, was)) = sent {
            let mut block = self.receive(at, number, part, first, &was);
            block.empty_into(items);
            self.keep(block);
        }
    }

    /// Lends the last items to the thread of a number, as many as the last block has room for: what number the first of them has, and
    /// what shows what they were. Where there is no lock or no block they stay.
    fn send(
        &mut self,
        at: usize,
        number: usize,
        part: u32,
        shown: &[bool],
        items: &mut Vec<T>,
    ) -> Option<(usize, OnceToken<'a, Snapshot<ItemBlock<T>>>)>
        requires may { AllMay W.may part shown.now items.old.items }
        ensures capacity { vec_capacity items.new ≡ vec_capacity items.old }
        ensures rest { (i : ℕ) (d : T) → i < vec_len items.new → slice_index_or items.new.items i d ≡ slice_index_or items.old.items i d }
        ensures none { result ≡ None → vec_len items.new ≡ vec_len items.old }
        ensures lock { IfSome result (λ r. r.1.of ≡ W.lock at) }
        ensures first { IfSome result (λ r. r.0 ≡ vec_len items.new) }
        ensures len { IfSome result (λ r. vec_len items.new + vec_len r.1.value.value.items ≡ vec_len items.old) }
        ensures shown { IfSome result (λ r. r.1.value.value.shown.items ≡ shown.now) }
        ensures back { IfSome result (λ r. IsBackOf items.old.items (vec_len items.new) r.1.value.value.items) }
    {
        let lock = self.locks.get(at)?;
        let mut block = self.spare.pop()?;
        if !block.fill(shown, items) {
            self.keep(block);
            return None;
        }
        let first = items.len();
        match lock.set(self.rt, Snapshot::of(&block)) {
            Ok(token) => {
                let own = token.again();
                let task = Task::new(at, part, first, block, token);
                self.shared.put(self.rt, number, task);
                Some((first, own))
            }
            Err(_) => {
                block.empty_into(items);
                self.keep(block);
                None
            }
        }
    }

    /// Keeps a block for another lending.
    fn keep(&mut self, block: ItemBlock<T>) {
        // It has the place from which it was taken.
        let _ = self.spare.push(block);
    }

    /// Waits for the items that were lent to the thread of a number by the task with this lock, part and first number, and gives
    /// them as worked on.
    fn receive(
        &self,
        at: usize,
        number: usize,
        part: u32,
        first: usize,
        was: &OnceToken<'a, Snapshot<ItemBlock<T>>>,
    ) -> ItemBlock<T>
        requires { was.now.of ≡ W.lock at }
        ensures len { vec_len result.items ≡ vec_len was.now.value.value.items }
        ensures does { BackDoes W.does part first was.now.value.value.shown.items was.now.value.value.items.items result.items.items }
    {
        for _ in self.rt.forever() {
            let returned = self.shared.returned();
            if let Some(done) = self.shared.take(self.rt, number) {
                if let Some(block) = done.into_block(at, part, first, was) {
                    return block;
                }
            } else {
                self.shared.wait_for_return(self.rt, returned);
            }
        }
        unreachable!()
    }
}

/// Makes a part of the work on each of these items, the first of which has number 0: the caller's own, while this is shown.
fn work_here<T, W: TeamWork<T>>(work: &W, part: u32, shown: &[bool], items: &mut [T])
    requires may { AllMay W.may part shown.now items.old }
    ensures long { length items.new ≡ length items.old }
    ensures does { EachDoes W.does part shown.now items.old items.new }
{
    for number in 0..items.len() {
        work.work(part, number, shown, &mut items[number]);
    }
}
