//! How a thread of a run waits for another one.

use std::hint::spin_loop;
use std::sync::Wait;
use std::sync::atomic::AtomicU64;
use std::thread::yield_now;
use std::time::Duration;

/// How many pauses of the processor stand between two looks of a thread that does not sleep.
const PAUSES: u32 = 32;

/// After so many looks in vain a thread takes a nap between two.
const LOOKS: u32 = 1024;

/// After so many it sleeps.
const NAPS: u32 = 2048;

/// How long a nap takes, in microseconds. A port offers a thousand frames meanwhile.
const NAP: u64 = 100;

/// How long a sleep takes, in microseconds.
const SLEEP: u64 = 1000;

/// How often in a row a thread has looked in vain for what another one does.
#[derive(Drop)]
pub(crate) struct Idle {
    looks: u32,
}

impl Idle {
    /// It has not.
    pub fn new() -> Idle {
        Idle { looks: 0 }
    }

    /// Waits after a look in vain: for moments first, then 100 microseconds at a time, and a millisecond in the end.
    pub fn wait<R: Wait>(&mut self, rt: &R) {
        if self.looks < LOOKS {
            spin_and_yield();
        } else if self.looks < NAPS {
            nap(rt);
        } else {
            sleep(rt, SLEEP);
        }
        self.looks = self.looks.saturating_add(1);
    }
}

/// Sleeps for 100 microseconds, and so leaves the processor to the other threads.
pub(crate) fn nap<R: Wait>(rt: &R) {
    sleep(rt, NAP);
}

fn sleep<R: Wait>(rt: &R, microseconds: u64) {
    // Nothing wakes it before its time.
    AtomicU64::new(0).park_timeout(rt, 0, Duration::from_micros(microseconds));
}

fn spin_and_yield() {
    for _ in 0..PAUSES {
        spin_loop();
    }
    yield_now();
}
