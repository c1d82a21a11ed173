//! The copies that a port placed on its lanes, counted again.

use gw_ledger::{Outcome, PortSet};

/// How many copies may wait in a lane.
pub const LANE: u32 = 64;

/// When a lane has room, by how many copies were placed on it before.
#[derive(Clone, Copy)]
pub struct Room {
    // Below so many it has.
    least: u32,
    // From so many on it has none.
    most: u32,
}

impl Room {
    /// Copies are taken out at any time.
    pub const SOME: Room = Room {
        least: LANE,
        most: u32::MAX,
    };

    /// No copy is taken out.
    pub const FEW: Room = Room {
        least: LANE,
        most: LANE,
    };

    /// Each offer waits until there is room.
    pub const ENOUGH: Room = Room {
        least: u32::MAX,
        most: u32::MAX,
    };
}

/// How many copies a port placed on the lane to each of four ports.
#[derive(Clone, Copy)]
pub struct Sendings {
    counts: [u32; 4],
}

impl Sendings {
    pub fn new() -> Sendings {
        Sendings { counts: [0; 4] }
    }

    /// How many it placed on the lane to a port.
    pub fn to(&self, port: u8) -> u32 {
        match self.counts.get(usize::from(port)) {
            Some(count) => *count,
            None => 0,
        }
    }

    /// Counts the copies of a frame.
    pub fn add(&mut self, placed: PortSet) {
        for port in 0..4 {
            let count = &mut self.counts[usize::from(port)];
            *count = count.saturating_add(u32::from(placed.has(port)));
        }
    }

    /// Whether each allowed copy of the next frame was placed where its lane has room, and lost where it has none.
    pub fn fit(&self, room: Room, outcome: &Outcome) -> bool {
        for port in 0..4 {
            let before = self.to(port);
            let is_lost = outcome.allowed.has(port) && !outcome.placed.has(port);
            if is_lost && before < room.least || outcome.placed.has(port) && before >= room.most {
                return false;
            }
        }
        true
    }
}
