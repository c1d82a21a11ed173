//! Replacements after each so many offers, and each port's last offer behind all of them.

use gw_ports::Gate;
use std::alloc::{AllocError, Global};
use std::sync::atomic::{AtomicBool, AtomicU32, AtomicU64, Ordering};
use std::thread::yield_now;

/// How often a thread looks for what it waits for before it goes on too soon.
pub const MOST_TURNS: u64 = 1_000_000_000;

/// How many replacements there had been before each offer of four ports.
#[derive(Drop)]
pub struct Shown {
    // How many frames each port offers.
    size: usize,
    // Port by port.
    replaced: Vec<AtomicU32>,
}

impl Shown {
    /// Of no offers.
    pub fn none(alloc: Global) -> Shown {
        Shown {
            size: 0,
            replaced: Vec::new(alloc),
        }
    }

    /// None before any offer.
    fn new(alloc: Global, size: usize) -> Result<Shown, AllocError> {
        let mut replaced = Vec::new(alloc);
        for _offer in 0..size.saturating_mul(4) {
            replaced.push(AtomicU32::new(0))?;
        }
        Ok(Shown { size, replaced })
    }

    fn note(&self, port: u8, index: usize, replaced: u32) {
        if let Some(shown) = self.replaced.get(self.place(port, index)) {
            shown.store(replaced, Ordering::SeqCst);
        }
    }

    /// How many there had been before a port's offer of an index.
    pub fn before(&self, port: u8, index: usize) -> u32 {
        match self.replaced.get(self.place(port, index)) {
            Some(shown) => shown.load(Ordering::SeqCst),
            None => 0,
        }
    }

    fn place(&self, port: u8, index: usize) -> usize {
        self.size
            .saturating_mul(usize::from(port))
            .saturating_add(index)
    }
}

/// Holds each replacement back until so many more offers were made, and each port's last offer until the last replacement.
#[derive(Drop)]
pub struct Pace {
    every: u64,
    replacements: u64,
    made: AtomicU64,
    replaced: AtomicU64,
    shown: Shown,
    is_late: AtomicBool,
}

impl Pace {
    pub fn new(
        alloc: Global,
        size: usize,
        every: u64,
        replacements: u64,
    ) -> Result<Pace, AllocError> {
        Ok(Pace {
            every,
            replacements,
            made: AtomicU64::new(0),
            replaced: AtomicU64::new(0),
            shown: Shown::new(alloc, size)?,
            is_late: AtomicBool::new(false),
        })
    }

    pub fn shown(&self) -> &Shown {
        &self.shown
    }

    /// Whether a replacement did not wait for its offers, or an offer for the last replacement.
    pub fn is_late(&self) -> bool {
        self.is_late.load(Ordering::SeqCst)
    }

    /// Waits until there were so many, and notes where they never come.
    fn wait_for(&self, count: &AtomicU64, least: u64) {
        for _turn in 0..MOST_TURNS {
            if count.load(Ordering::SeqCst) >= least {
                return;
            }
            yield_now();
        }
        self.is_late.store(true, Ordering::SeqCst);
    }
}

impl Gate for Pace {
    ghost use Rattle.std.specs.Prelude.{false};

    ghost waits = { false };

    fn waits_for_room(&self) -> bool {
        false
    }

    fn enter(&self, port: u8, index: usize) {
        if index.saturating_add(1) >= self.shown.size {
            self.wait_for(&self.replaced, self.replacements);
        }
        let replaced = self.replaced.load(Ordering::SeqCst);
        self.shown
            .note(port, index, u32::try_from(replaced).unwrap_or(u32::MAX));
    }

    fn leave(&self, _port: u8, _index: usize) {
        self.made.fetch_add(1, Ordering::SeqCst);
    }

    // Without the last offers of all four ports, which wait for the last replacement.
    fn before_replace(&self, index: usize) {
        let most = (self.shown.size.saturating_sub(1) as u64).saturating_mul(4);
        let due = (index as u64).saturating_add(1).saturating_mul(self.every);
        self.wait_for(&self.made, due.min(most));
    }

    fn replaced(&self, _index: usize) {
        self.replaced.fetch_add(1, Ordering::SeqCst);
    }
}
