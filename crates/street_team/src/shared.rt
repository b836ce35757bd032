//! What the threads of a team share: a mailbox for each of them, and signals that something was lent or came back. `team.rt`
//! and the workers meet in it.
ghost use Rattle.std.specs.Prelude.{◌≡◌, ◌≤◌, vec_len, IfOk};

use crate::task::{FinishedTask, Task};
use crate::waits::WakeSignal;
use crate::work::TeamWork;
use std::alloc::{AllocError, Global};
use std::sync::atomic::{AtomicU64, Ordering};
use std::sync::{Mutex, Wait};
use std::thread::{JoinHandle, Scope, Threads};

/// Where the items of a thread are put: for it, and back for who lent them.
#[derive(Drop)]
struct Mailbox<'a, T: Drop, W: TeamWork<T>> {
    lent: Mutex<Option<Task<'a, T, W>>>,
    done: Mutex<Option<FinishedTask<'a, T, W>>>,
}

/// What the threads of a team share: what they do, a mailbox for each of them, how often all were lent something, and how often some
/// came back.
#[derive(Drop)]
pub struct TeamState<'a, 'w, T: Drop, W: TeamWork<T>> {
    pub(crate) work: &'w W,
    mailboxes: Vec<Mailbox<'a, T, W>>,
    lent: WakeSignal,
    back: WakeSignal,
    ended: AtomicU64,
}

impl<'a, 'w, T: Drop, W: TeamWork<T>> TeamState<'a, 'w, T, W> {
    /// What so many threads share, to which nothing is lent yet.
    ///
    /// # Errors
    /// Memory was refused.
    pub fn new(alloc: Global, work: &'w W, count: usize) -> Result<Self, AllocError>
        ensures { IfOk result (λ shared. vec_len shared.mailboxes ≡ count) }
    {
        let mut mailboxes = Vec::with_capacity(alloc, count)?;
        for _ in 0..count {
            mailboxes.push_reserved(Mailbox {
                lent: Mutex::new(None),
                done: Mutex::new(None),
            });
        }
        Ok(TeamState {
            work,
            mailboxes,
            lent: WakeSignal::new(),
            back: WakeSignal::new(),
            ended: AtomicU64::new(0),
        })
    }

    /// Puts a task in the mailbox of the thread of a number, from 0.
    pub(crate) fn put<R: Wait>(&self, rt: &R, number: usize, task: Task<'a, T, W>) {
        if let Some(mailbox) = self.mailboxes.get(number) {
            let mut lent = mailbox.lent.lock(rt);
            *lent = Some(task);
        }
    }

    /// Has the workers begin: all tasks are in their mailboxes.
    pub(crate) fn begin(&self) {
        self.lent.go_on();
    }

    /// Has the workers end. It does not wait for them.
    pub fn end(&self) {
        self.ended.store(1, Ordering::SeqCst);
        self.lent.go_on();
    }

    /// Takes what came back from the thread of a number; none where nothing has.
    pub(crate) fn take<R: Wait>(&self, rt: &R, number: usize) -> Option<FinishedTask<'a, T, W>> {
        let mailbox = self.mailboxes.get(number)?;
        let mut done = mailbox.done.lock(rt);
        done.take()
    }

    /// How often something came back, from whichever thread.
    pub(crate) fn returned(&self) -> u64 {
        self.back.count()
    }

    /// Waits until something came back after `returned` told this count, or returns sooner.
    pub(crate) fn wait_for_return<R: Wait>(&self, rt: &R, seen: u64) {
        self.back.wait(rt, seen);
    }

    /// Works on what lies in the mailbox of the thread of a number, and puts it back; does nothing where nothing lies there.
    fn run<R: Wait>(&self, rt: &R, number: usize) {
        let Some(mailbox) = self.mailboxes.get(number) else {
            return;
        };
        let Some(task) = taken(rt, &mailbox.lent) else {
            return;
        };
        let done = task.run(self.work);
        put_back(rt, &mailbox.done, done);
        self.back.go_on();
    }
}

/// Takes what is behind a lock, so that nothing is left there; none where nothing is.
fn taken<R: Wait, X>(rt: &R, lock: &Mutex<Option<X>>) -> Option<X> {
    let mut guard = lock.lock(rt);
    guard.take()
}

/// Puts something behind a lock, which is open again then.
fn put_back<R: Wait, X: Drop>(rt: &R, lock: &Mutex<Option<X>>, back: X) {
    let mut guard = lock.lock(rt);
    *guard = Some(back);
}

/// Starts so many threads that stay, each of which serves until [`TeamState::end`]; or fewer where one of them, or memory for their
/// list, is refused.
pub fn start_workers<
    's,
    'a: 's,
    'w: 's,
    E,
    T: Drop + Send + 's,
    W: TeamWork<T> + Send + Sync + 's,
    R: Threads + Wait + Sync,
>(
    scope: &'s Scope<'s, E>,
    rt: &'s R,
    alloc: Global,
    shared: &'s TeamState<'a, 'w, T, W>,
    threads: usize,
) -> Vec<JoinHandle<()>>
    ensures { vec_len result ≤ threads }
{
    let mut started = Vec::new(alloc);
    if started.reserve(threads).is_err() {
        return started;
    }
    for number in 0..threads {
        let Some(thread) = start_worker(scope, rt, shared, number) else {
            return started;
        };
        started.push_reserved(thread);
    }
    started
}

/// Starts the thread of a number, from 0; none where it is refused.
fn start_worker<
    's,
    'a: 's,
    'w: 's,
    E,
    T: Drop + Send + 's,
    W: TeamWork<T> + Send + Sync + 's,
    R: Threads + Wait + Sync,
>(
    scope: &'s Scope<'s, E>,
    rt: &'s R,
    shared: &'s TeamState<'a, 'w, T, W>,
    number: usize,
) -> Option<JoinHandle<()>> {
    scope.spawn(move || serve(rt, shared, number)).ok()
}

/// Waits until threads that are to end have ended, and have given back all memory that they were started with.
pub fn join_workers<R: Threads>(rt: &R, threads: Vec<JoinHandle<()>>) {
    for thread in threads {
        thread.join(rt);
    }
}

/// The life of the worker of a number: whenever something was lent it works on what lies in its mailbox, until the team ends.
pub fn serve<'a, 'w, T: Drop, W: TeamWork<T>, R: Wait>(
    rt: &R,
    shared: &TeamState<'a, 'w, T, W>,
    number: usize,
) {
    let mut seen = 0;
    for _ in rt.forever() {
        let count = shared.lent.count();
        if shared.ended.load(Ordering::SeqCst) == 1 {
            return;
        }
        if count == seen {
            shared.lent.wait(rt, seen);
        } else {
            seen = count;
            shared.run(rt, number);
        }
    }
}
