//! Which ports of a run have stopped.

use gw_ports::Gate;
use std::sync::atomic::{AtomicU32, Ordering};

/// The ports that have stopped, for the thread that reads their frames.
#[derive(Drop)]
pub(crate) struct Stops(AtomicU32);

impl Stops {
    /// None has.
    pub fn new() -> Stops {
        Stops(AtomicU32::new(0))
    }

    /// Whether a port has.
    pub fn has(&self, port: usize) -> bool {
        self.0.load(Ordering::SeqCst) >> (port % 32) & 1 == 1
    }
}

/// Observes as another does, and notes which ports have stopped.
#[derive(Drop)]
pub(crate) struct NotingStops<'a, G> {
    pub gate: &'a G,
    pub stops: &'a Stops,
}

impl<G: Gate> Gate for NotingStops<'_, G> {
    ghost waits = { G.waits };

    fn waits_for_room(&self) -> bool {
        self.gate.waits_for_room()
    }

    fn enter(&self, port: u8, index: usize) {
        self.gate.enter(port, index);
    }

    fn leave(&self, port: u8, index: usize) {
        self.gate.leave(port, index);
    }

    fn stopped(&self, port: u8) {
        self.stops.0.fetch_or(1 << (port % 32), Ordering::SeqCst);
        self.gate.stopped(port);
    }

    fn before_replace(&self, index: usize) {
        self.gate.before_replace(index);
    }

    fn replaced(&self, index: usize) {
        self.gate.replaced(index);
    }
}
