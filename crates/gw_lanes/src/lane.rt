//! The two ends of a lane, which is a ring of `rtrb`. None of their calls waits or takes memory.

ghost use Rattle.std.specs.Prelude.{◌≡◌, ◌+◌, ◌≤◌, ◌++◌, ◌∷◌, [], List, length, take, MatchResult, MatchOption};
ghost use Rattle.std.specs.Prelude.{vec_len, vec_capacity};
ghost use Rattle.gw_ledger.specs.declared.outcome.FrameCopy.{FrameCopy};

use gw_ledger::FrameCopy;
use rtrb::{Consumer, Producer};
use std::marker::Model;

/// The end on which copies are placed. Contracts see it as `Inlet`.
#[derive(Drop)]
pub struct LaneIn {
    pub(crate) producer: Producer<FrameCopy>,
    pub(crate) room: usize,
}

impl Model for LaneIn {
    ghost use Rattle.std.specs.Prelude.{◌≡◌, ◌+◌, ◌≤◌, length};
    ghost use Rattle.rtrb.specs.Ring.{sent, known_free, producer_capacity};
    ghost use Rattle.gw_lanes.specs.Ends.{Inlet};

    ghost Value = { Inlet };

    ghost view = { λ i. record {
      ring = record {
        words = i.producer.end.words;
        slots = i.producer.end.slots;
        names = i.producer.end.names;
        heap = i.producer.end.heap;
      };
      room = i.room;
      placed = sent i.producer;
    } };

    // So a push that finds no free slot comes after `room` copies were placed, and no more than `room` copies wait.
    ghost invariant = { λ i. (i.room ≡ producer_capacity i.producer)
        × (i.room ≤ known_free i.producer + length (sent i.producer)) };
}

/// The end from which copies are taken. Contracts see it as `Outlet`.
#[derive(Drop)]
pub struct LaneOut {
    pub(crate) consumer: Consumer<FrameCopy>,
}

impl Model for LaneOut {
    ghost use Rattle.rtrb.specs.Ring.{received};
    ghost use Rattle.gw_lanes.specs.Ends.{Outlet};

    ghost Value = { Outlet };

    ghost view = { λ o. record {
      ring = record {
        words = o.consumer.end.words;
        slots = o.consumer.end.slots;
        names = o.consumer.end.names;
        heap = o.consumer.end.heap;
      };
      taken = received o.consumer;
    } };
}

impl LaneIn {
    /// Places a copy behind the others, or gives it back: that comes only once as many were placed as the lane has room for.
    pub fn push(&mut self, copy: FrameCopy) -> Result<(), FrameCopy>
        ensures placed { MatchResult result
            (λ _. self.new ≡ record self.old { placed = self.old.placed ++ copy ∷ [] })
            (λ back. (back ≡ copy) × (self.new ≡ self.old) × (self.old.room ≤ length self.old.placed)) }
    {
        if self.producer.is_full() {
            return Err(copy);
        }
        self.producer.push_reserved(copy);
        Ok(())
    }
}

impl LaneOut {
    /// Takes the oldest copy that is found.
    pub fn pop(&mut self) -> Option<FrameCopy>
        ensures taken { MatchOption result
            (self.new ≡ self.old)
            (λ copy. self.new ≡ record self.old { taken = self.old.taken ++ copy ∷ [] }) }
    {
        self.consumer.pop().ok()
    }

    /// Takes the oldest copies that are found into the front of a slice, as many as it has room for, and tells how many. One step
    /// on the lane takes them all, so many take little longer than one.
    pub fn pop_many(&mut self, copies: &mut [FrameCopy]) -> usize
        ensures fits { (result ≤ length copies.new) × (length copies.new ≡ length copies.old) }
        ensures taken { self.new ≡ record self.old { taken = self.old.taken ++ take result copies.new } }
    {
        self.consumer.pop_partial_slice(copies)
    }

    /// How many copies wait between the two ends of one lane.
    pub fn left(&mut self, other: &mut LaneIn) -> usize
        requires { other.old.ring ≡ self.old.ring }
        ensures same { (self.new ≡ self.old) × (other.new ≡ other.old) }
        ensures value { result + length self.new.taken ≡ length other.new.placed }
        ensures most { result ≤ other.new.room }
    {
        self.consumer.slots_beside(&mut other.producer)
    }
}

/// Ends a lane, and appends the copies that wait on it to a vector that has room for them.
pub fn finish(from: LaneIn, to: LaneOut, left: &mut Vec<FrameCopy>)
    requires lane { from.ring ≡ to.ring }
    requires room { vec_len left.old + length from.placed ≤ vec_capacity left.old + length to.taken }
    ensures { (rest : List FrameCopy) × (to.taken ++ rest ≡ from.placed) × (left.new.items ≡ left.old.items ++ rest)
        × (length rest ≤ from.room) }
{
    let LaneIn {
        mut producer,
        room: _,
    } = from;
    let LaneOut { mut consumer } = to;
    let waiting = consumer.slots_beside(&mut producer);
    for _ in 0..waiting {
        left.push_reserved(consumer.pop_known());
    }
}
