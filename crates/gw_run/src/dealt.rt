//! A port's frames of a trace, which another thread reads.

ghost use Rattle.std.specs.Prelude.{◌≡◌, ◌++◌, ℕ, List, Option, None, IfOk};
ghost use Rattle.rtrb.specs.Ring.{ProducerLooked};
ghost use Rattle.gw_run.specs.Dealt.{Flushes, IsNewRing, Puts};

use crate::batch::{BATCH, Batch};
use crate::stops::Stops;
use crate::waits::nap;
use arrayvec::ArrayVec;
use gw_frame::Frame;
use rtrb::{Consumer, Producer, Protocol, RingBuffer};
use std::alloc::{AllocError, Global};
use std::marker::Model;
use std::sync::Wait;

/// How many frames may wait in a port's ring.
const ROOM: usize = 4096;

/// What a port is handed: the next of its frames, or none behind the last.
pub(crate) type Dealt = Option<Frame>;

/// Fewer than 2 to the 64th items go through a ring, so that taking them ends.
#[derive(Clone, Copy)]
pub(crate) struct Bounded;

impl Protocol<Dealt> for Bounded {
    ghost use Rattle.gw_run.specs.Dealt.{MayFollow};

    ghost allows = { MayFollow };
}

/// The end at which a port's frames are put. Contracts see it as `Putting`.
#[derive(Drop)]
pub(crate) struct DealtIn {
    ring: Producer<Dealt, Global, Bounded>,
    /// What was put here, and not yet into the ring: each step there is dear, so many items go at once.
    batch: ArrayVec<Dealt, BATCH>,
    /// How many items may be put yet.
    room: u64,
    /// Whether the port takes no other frame.
    is_left: bool,
}

impl Model for DealtIn {
    ghost use Rattle.std.specs.Prelude.{◌≡◌, ◌+◌, ◌-◌, ◌^◌, ◌++◌, length};
    ghost use Rattle.rtrb.specs.Ring.{sent};
    ghost use Rattle.gw_run.specs.Dealt.{Putting, ring_of};

    ghost Value = { Putting };

    ghost view = { λ d. record {
      ring = ring_of d.ring.end;
      put = sent d.ring ++ d.batch.items;
      is_left = d.is_left;
    } };

    ghost invariant = { λ d. d.room + (length (sent d.ring) + length d.batch.items) ≡ 2 ^ 64 - 1 };
}

/// The end from which a port takes its frames. Contracts see it as `Taken`.
#[derive(Drop)]
pub(crate) struct DealtOut<'a, R> {
    rt: &'a R,
    ring: Consumer<Dealt, Global, Bounded>,
    /// What was taken out of the ring, and is not given yet.
    batch: Batch,
    /// Whether all frames were taken.
    is_over: bool,
}

impl<'a, R> Model for DealtOut<'a, R> {
    ghost use Rattle.std.specs.Prelude.{◌-◌, ◌^◌, ◌≤◌, length, take};
    ghost use Rattle.rtrb.specs.Ring.{received};
    ghost use Rattle.gw_run.specs.Dealt.{EndsWith, Taken, ring_of};

    ghost Value = { Taken };

    ghost view = { λ d. record {
      ring = ring_of d.ring.end;
      items = take (length (received d.ring) - length d.batch) (received d.ring);
      is_over = d.is_over;
    } };

    ghost invariant = { λ d. EndsWith (received d.ring) d.batch × (length (received d.ring) ≤ 2 ^ 64) };
}

/// The two ends for a port's frames.
pub(crate) fn dealt_ring<R>(rt: &R, alloc: Global) -> Result<(DealtIn, DealtOut<'_, R>), AllocError>
    ensures { IfOk result (λ ends. IsNewRing ends.0 ends.1) }
{
    let (producer, consumer) = RingBuffer::with_protocol::<Global, Bounded>(alloc, ROOM)?;
    Ok((
        DealtIn {
            ring: producer,
            batch: ArrayVec::new(),
            room: u64::MAX,
            is_left: false,
        },
        DealtOut {
            rt,
            ring: consumer,
            batch: Batch::new(),
            is_over: false,
        },
    ))
}

impl DealtIn {
    /// Puts an item behind the others, and waits for room. A port that stopped, and one whose other end is gone, is left.
    pub fn put<R: Wait>(&mut self, rt: &R, item: Dealt, port: usize, stops: &Stops)
        ensures { Puts self.old item self.new }
    {
        if self.batch.is_full() {
            self.flush(rt, port, stops);
        }
        if self.is_left || self.room == 0 || self.batch.is_full() {
            self.is_left = true;
            return;
        }
        self.batch.push(item);
        self.room -= 1;
    }

    /// Puts the end of the frames behind them, and lets the port take all. It may be left, as by `put`.
    pub fn end<R: Wait>(&mut self, rt: &R, port: usize, stops: &Stops)
        ensures { Puts self.old None self.new }
    {
        self.put(rt, None, port, stops);
        self.flush(rt, port, stops);
    }

    /// Lets the port take all that was put here, and waits for room in its ring. It may be left, as by `put`.
    pub fn flush<R: Wait>(&mut self, rt: &R, port: usize, stops: &Stops)
        ensures { Flushes self.old self.new }
    {
        if self.is_left {
            return;
        }
        wait_for_room(rt, &mut self.ring, self.batch.len(), port, stops);
        match self.ring.push_entire_slice(&self.batch) {
            Ok(()) => self.batch.clear(),
            Err(_) => self.is_left = true,
        }
    }
}

/// Waits until a ring has so many free slots. It may have fewer where the port stopped or its end is gone. A full ring keeps its
/// port busy for longer than a nap.
fn wait_for_room<R: Wait>(
    rt: &R,
    ring: &mut Producer<Dealt, Global, Bounded>,
    slots: usize,
    port: usize,
    stops: &Stops,
)
    ensures { ProducerLooked ring.old ring.new }
{
    for _ in rt.forever() {
        if has_room(ring, slots) || stops.has(port) || ring.is_abandoned() {
            return;
        }
        nap(rt);
    }
    unreachable!()
}

/// Whether a ring has so many free slots. The port's end is looked at only where it may have fewer.
fn has_room(ring: &mut Producer<Dealt, Global, Bounded>, slots: usize) -> bool
    ensures { ProducerLooked ring.old ring.new }
{
    ring.cached_slots() >= slots || ring.slots() >= slots
}

impl<R> DealtOut<'_, R> {
    /// Looks at both ends of a ring: what was taken is the front of what was put there.
    pub fn compare(&mut self, other: &mut DealtIn)
        requires { other.old.ring ≡ self.old.ring }
        ensures same { (self.new ≡ self.old) × (other.new ≡ other.old) }
        ensures front { (rest : List (Option (List ℕ))) × (self.old.items ++ rest ≡ other.old.put) }
    {
        self.ring.slots_beside(&mut other.ring);
    }
}

impl<R: Wait> Iterator for DealtOut<'_, R> {
    type Item = Frame;

    ghost use Rattle.std.specs.Prelude.{◌-◌, ◌^◌, length};
    ghost use Rattle.std.specs.Iterator.{at_most};
    ghost use Rattle.gw_run.specs.Dealt.{TakesItem};

    ghost next_gives = { TakesItem };

    ghost remaining = { λ d. at_most (2 ^ 64 - length d.items) };

    // Inlined, so that a frame does not go through memory once more on its way into the port's loop.
    #[inline(always)]
    fn next(&mut self) -> Option<Frame> {
        if self.is_over {
            return None;
        }
        let item = self.batch.next_of(self.rt, &mut self.ring);
        self.is_over = item.is_none();
        item
    }
}
