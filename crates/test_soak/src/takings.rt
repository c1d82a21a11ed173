//! What threads at the ends of a gateway share: the frames that they offer, and how many copies were taken out.

use crate::frames::Drawn;
use crate::pace::MOST_TURNS;
use crate::sendings::{LANE, Sendings};
use gw_frame::Frame;
use std::alloc::{AllocError, Global};
use std::sync::atomic::{AtomicBool, AtomicU32, Ordering};
use std::thread::yield_now;

/// Holds offers back until their lanes have room, and takings until an offer waits for them or all offers are made.
#[derive(Drop)]
pub struct Takings<'a> {
    pool: &'a [Frame],
    // How many frames each port offers.
    size: usize,
    holds_offers: bool,
    // How many copies were taken out of each lane, by ingress port and then egress port.
    taken: Vec<AtomicU32>,
    // How many offers wait for room.
    waiting: AtomicU32,
    // How many ports made their last offer.
    ended: AtomicU32,
    is_late: AtomicBool,
}

impl<'a> Takings<'a> {
    pub fn new(
        alloc: Global,
        pool: &'a [Frame],
        size: usize,
        holds_offers: bool,
    ) -> Result<Takings<'a>, AllocError> {
        let mut taken = Vec::new(alloc);
        for _lane in 0..16 {
            taken.push(AtomicU32::new(0))?;
        }
        Ok(Takings {
            pool,
            size,
            holds_offers,
            taken,
            waiting: AtomicU32::new(0),
            ended: AtomicU32::new(0),
            is_late: AtomicBool::new(false),
        })
    }

    /// The frames that a port offers.
    pub fn frames(&self, port: u8) -> Drawn<'a> {
        Drawn::new(self.pool, port, self.size)
    }

    /// Whether an offer did not wait for room.
    pub fn is_late(&self) -> bool {
        self.is_late.load(Ordering::SeqCst)
    }

    /// Notes that a port made its last offer.
    pub fn end_offers(&self) {
        self.ended.fetch_add(1, Ordering::SeqCst);
    }

    /// Whether each of four ports made its last offer.
    pub fn are_over(&self) -> bool {
        self.ended.load(Ordering::SeqCst) >= 4
    }

    /// Whether an offer waits for room.
    pub fn are_awaited(&self) -> bool {
        self.waiting.load(Ordering::SeqCst) > 0
    }

    /// Counts a copy that was taken out.
    pub fn add(&self, from: u8, to: u8) {
        if let Some(taken) = self.taken.get(lane_index(from, to)) {
            taken.fetch_add(1, Ordering::SeqCst);
        }
    }

    /// Where offers are held back, waits until each lane from a port that placed so many copies has room.
    pub fn wait_for_room(&self, from: u8, sendings: &Sendings) {
        if !self.holds_offers || self.has_room(from, sendings) || self.is_late() {
            return;
        }
        self.waiting.fetch_add(1, Ordering::SeqCst);
        self.await_room(from, sendings);
        self.waiting.fetch_sub(1, Ordering::SeqCst);
    }

    fn await_room(&self, from: u8, sendings: &Sendings) {
        for _turn in 0..MOST_TURNS {
            if self.has_room(from, sendings) {
                return;
            }
            yield_now();
        }
        self.is_late.store(true, Ordering::SeqCst);
    }

    fn has_room(&self, from: u8, sendings: &Sendings) -> bool {
        for to in 0..4 {
            if sendings.to(to) >= self.taken(from, to).saturating_add(LANE) {
                return false;
            }
        }
        true
    }

    fn taken(&self, from: u8, to: u8) -> u32 {
        match self.taken.get(lane_index(from, to)) {
            Some(taken) => taken.load(Ordering::SeqCst),
            None => 0,
        }
    }
}

fn lane_index(from: u8, to: u8) -> usize {
    4 * usize::from(from) + usize::from(to)
}
