//! Enqueues the copies of a frame on lanes.

ghost use Rattle.std.specs.Prelude.{◌≡◌, ◌≤◌, ◌<◌, ℕ, Bool, true, false, length, MatchBool, IsTrue, IsSome};
ghost use Rattle.gw_ledger.specs.Ports.{has_port};
ghost use Rattle.gw_ports.specs.Ends.{lane_at};
ghost use Rattle.gw_ports.specs.Placing.{Appends, WasFull, PlacesAll, PlacesCopies};

use gw_lanes::LaneIn;
use gw_ledger::{FrameCopy, PortSet};
use std::sync::Wait;
use std::thread::yield_now;

/// What becomes of a copy whose lane is full.
pub(crate) trait FullLane {
    // Whether it waits there for room.
    ghost waits: { Bool };

    // Enqueues a copy on the lane to a port, where the frame is allowed to it.
    fn enqueue_on(&self, lane: &mut Option<LaneIn>, is_allowed: bool, copy: &FrameCopy) -> bool
        requires { IsTrue is_allowed → IsSome lane.old }
        ensures placed { MatchBool result
            (IsTrue is_allowed × Appends lane.old copy.now lane.new)
            ((lane.new ≡ lane.old) × (IsTrue is_allowed → WasFull lane.old)) }
        ensures all { waits ≡ true → IsTrue is_allowed → IsTrue result };
}

/// It is lost.
#[derive(Clone, Copy)]
pub(crate) struct Lost;

impl FullLane for Lost {
    ghost waits = { false };

    fn enqueue_on(&self, lane: &mut Option<LaneIn>, is_allowed: bool, copy: &FrameCopy) -> bool {
        if !is_allowed {
            return false;
        }
        match lane {
            Some(lane) => lane.push(*copy).is_ok(),
            None => false,
        }
    }
}

/// The thread that offers waits until the lane has room.
#[derive(Clone, Copy)]
pub(crate) struct Awaited<'a, R>(pub &'a R);

impl<R: Wait> FullLane for Awaited<'_, R> {
    ghost waits = { true };

    fn enqueue_on(&self, lane: &mut Option<LaneIn>, is_allowed: bool, copy: &FrameCopy) -> bool {
        if !is_allowed {
            return false;
        }
        for _ in self.0.forever() {
            if Lost.enqueue_on(lane, is_allowed, copy) {
                return true;
            }
            yield_now();
        }
        unreachable!()
    }
}

// Enqueues a copy on the lane to each of these ports, once. The answer has the ports on whose lanes it stands.
pub(crate) fn enqueue<F: FullLane>(
    lanes: &mut [Option<LaneIn>],
    allowed: PortSet,
    copy: FrameCopy,
    full: &F,
) -> PortSet
    requires few { length lanes.old ≤ 16 }
    requires there { (port : ℕ) → IsTrue (has_port port allowed) → IsSome (lane_at lanes.old port) }
    ensures placed { PlacesCopies allowed copy result lanes.old lanes.new }
    ensures all { F.waits ≡ true → PlacesAll allowed result }
{
    let mut placed = PortSet::new();
    // A frame that is allowed nowhere looks at no lane.
    if allowed.is_empty() {
        return placed;
    }
    for index in 0..lanes.len() {
        let port = index as u8;
        let is_allowed = allowed.has(port);
        if full.enqueue_on(&mut lanes[index], is_allowed, &copy) {
            placed.add(port);
        }
    }
    placed
}
