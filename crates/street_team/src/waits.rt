//! Waiting for a number to change: a short while awake, then asleep. `shared.rt` waits by it.

use std::hint::spin_loop;
use std::sync::Wait;
use std::sync::atomic::{AtomicU64, Ordering};

/// How often a number is looked at before its reader goes to sleep: some tens of microseconds.
const LOOKS: u64 = 1_000;

/// A number that goes on, and how many sleep until it does.
#[derive(Drop)]
pub(crate) struct WakeSignal {
    count: AtomicU64,
    asleep: AtomicU64,
}

impl WakeSignal {
    /// At 0, and nobody sleeps.
    pub(crate) fn new() -> WakeSignal {
        WakeSignal {
            count: AtomicU64::new(0),
            asleep: AtomicU64::new(0),
        }
    }

    /// How often it has gone on.
    pub(crate) fn count(&self) -> u64 {
        self.count.load(Ordering::SeqCst)
    }

    /// The number goes on by one, and all who sleep are woken. Who sleeps was counted before it looked at the number for the
    /// last time, so nobody sleeps through.
    pub(crate) fn go_on(&self) {
        self.count.fetch_add(1, Ordering::SeqCst);
        if self.asleep.load(Ordering::SeqCst) > 0 {
            self.count.wake_all();
        }
    }

    /// Waits until the number is another than `seen`, first awake and then asleep, or returns sooner.
    pub(crate) fn wait<R: Wait>(&self, rt: &R, seen: u64) {
        for _ in 0..LOOKS {
            if self.count() != seen {
                return;
            }
            spin_loop();
        }
        self.asleep.fetch_add(1, Ordering::SeqCst);
        if self.count() == seen {
            self.count.park(rt, (seen % (1 << 32)) as u32);
        }
        self.asleep.fetch_sub(1, Ordering::SeqCst);
    }
}
