//! Who observes a run.

ghost use Rattle.std.specs.Prelude.{true, false};

use gw_ports::Gate;
use std::marker::Sync;
use std::rt::Clock;
use std::sync::atomic::{AtomicU64, AtomicUsize, Ordering};
use std::time::Instant;

/// After so many frames of a port it is looked whether a second has passed.
const OFTEN: usize = 4096;

/// A gate that is told how many frames there are.
pub trait Observer: Gate {
    /// Before the run. None where traces are read while it runs.
    fn begins(&self, frames: Option<usize>);
}

/// Nobody observes: the gate does nothing.
#[derive(Clone, Copy, Debug)]
pub struct NoObserver;

impl Gate for NoObserver {
    ghost waits = { false };

    fn waits_for_room(&self) -> bool {
        false
    }

    fn enter(&self, _port: u8, _index: usize) {}

    fn leave(&self, _port: u8, _index: usize) {}

    fn before_replace(&self, _index: usize) {}

    fn replaced(&self, _index: usize) {}
}

impl Observer for NoObserver {
    fn begins(&self, _frames: Option<usize>) {}
}

/// Observes as another does, while a copy that finds its lane full waits for room.
#[derive(Drop)]
pub struct Waiting<'a, G>(pub &'a G);

impl<G: Gate> Gate for Waiting<'_, G> {
    ghost waits = { true };

    fn waits_for_room(&self) -> bool {
        true
    }

    fn enter(&self, port: u8, index: usize) {
        self.0.enter(port, index);
    }

    fn leave(&self, port: u8, index: usize) {
        self.0.leave(port, index);
    }

    fn stopped(&self, port: u8) {
        self.0.stopped(port);
    }

    fn before_replace(&self, index: usize) {
        self.0.before_replace(index);
    }

    fn replaced(&self, index: usize) {
        self.0.replaced(index);
    }
}

impl<G: Observer> Observer for Waiting<'_, G> {
    fn begins(&self, frames: Option<usize>) {
        self.0.begins(frames);
    }
}

/// Tells a person on stderr, once a second, how many frames were offered, and of how many where that is known; or tells nothing.
#[derive(Drop)]
pub struct ProgressOnStderr<'a, R> {
    rt: &'a R,
    /// None where nothing is told.
    start: Option<Instant>,
    /// How many there are; 0 where that is not known.
    frames: AtomicUsize,
    done: AtomicUsize,
    second: AtomicU64,
}

impl<'a, R: Clock> ProgressOnStderr<'a, R> {
    /// An observer that begins now. Without `is_telling` it writes nothing.
    pub fn new(rt: &'a R, is_telling: bool) -> ProgressOnStderr<'a, R> {
        ProgressOnStderr {
            rt,
            start: if is_telling {
                Instant::now(rt).ok()
            } else {
                None
            },
            frames: AtomicUsize::new(0),
            done: AtomicUsize::new(0),
            second: AtomicU64::new(0),
        }
    }
}

impl<R: Clock + Eprint> ProgressOnStderr<'_, R> {
    // Counts some frames more, and tells where they stand if a second began since that was told last.
    fn count(&self, more: usize) {
        let done = self
            .done
            .fetch_add(more, Ordering::SeqCst)
            .wrapping_add(more);
        let Some(start) = self.start else {
            return;
        };
        let Ok(passed) = start.elapsed(self.rt) else {
            return;
        };
        let second = passed.as_secs();
        let last = self.second.load(Ordering::SeqCst);
        if second > last
            && self
                .second
                .compare_exchange(last, second, Ordering::SeqCst, Ordering::SeqCst)
                .is_ok()
        {
            let _ = match self.frames.load(Ordering::SeqCst) {
                0 => eprintln!(self.rt; "gw: {done} frames"),
                frames => eprintln!(self.rt; "gw: {done} of {frames} frames"),
            };
        }
    }
}

impl<R: Clock + Eprint + Sync> Gate for ProgressOnStderr<'_, R> {
    ghost waits = { false };

    fn waits_for_room(&self) -> bool {
        false
    }

    fn enter(&self, _port: u8, _index: usize) {}

    fn leave(&self, _port: u8, index: usize) {
        if index % OFTEN == OFTEN - 1 {
            self.count(OFTEN);
        }
    }

    fn before_replace(&self, _index: usize) {}

    fn replaced(&self, _index: usize) {}
}

impl<R: Clock + Eprint + Sync> Observer for ProgressOnStderr<'_, R> {
    fn begins(&self, frames: Option<usize>) {
        self.frames.store(frames.unwrap_or(0), Ordering::SeqCst);
    }
}
