//! Items that were taken out of a port's ring at once.

ghost use Rattle.std.specs.Prelude.{◌≡◌, ◌<◌, ◌≤◌, ◌++◌, ◌∷◌, ◌^◌, ℕ, List, Option, [], length, take, MatchBool};
ghost use Rattle.rtrb.specs.Ring.{SameConsumer, received};

use crate::dealt::{Bounded, Dealt};
use crate::waits::Idle;
use rtrb::Consumer;
use std::alloc::Global;
use std::marker::Model;
use std::sync::Wait;

/// How many items go into a ring at once, and out of it.
pub(crate) const BATCH: usize = 64;

/// Items that were taken out of a ring. Contracts see those that are not given yet, oldest first.
#[derive(Drop)]
pub(crate) struct Batch {
    items: [Dealt; BATCH],
    /// How many were given.
    given: usize,
    count: usize,
}

impl Model for Batch {
    ghost use Rattle.std.specs.Prelude.{◌≡◌, ◌≤◌, List, length, take, drop};
    ghost use Rattle.gw_run.specs.Dealt.{Dealt};

    ghost Value = { List Dealt };

    ghost view = { λ b. drop b.given (take b.count b.items) };

    ghost invariant = { λ b. (b.given ≤ b.count) × (b.count ≤ length b.items) };
}

impl Batch {
    /// No items.
    pub fn new() -> Batch
        ensures { result ≡ [] }
    {
        Batch {
            items: [None; BATCH],
            given: 0,
            count: 0,
        }
    }

    /// Whether all were given.
    fn is_empty(&self) -> bool
        ensures { MatchBool result (self.now ≡ []) (0 < length self.now) }
    {
        self.given == self.count
    }

    /// Gives the oldest.
    fn next(&mut self) -> Dealt
        requires { 0 < length self.old }
        ensures { self.old ≡ result ∷ self.new }
    {
        let item = self.items[self.given];
        self.given += 1;
        item
    }

    /// Gives the oldest, or the next of a ring where all were given. It waits for it then, and takes what waits there.
    #[inline(always)]
    pub fn next_of<R: Wait>(&mut self, rt: &R, ring: &mut Consumer<Dealt, Global, Bounded>) -> Dealt
        ensures ring { SameConsumer ring.old ring.new }
        ensures next { (first : List (Option (List ℕ))) → received ring.old ≡ first ++ self.old
            → received ring.new ≡ (first ++ result ∷ []) ++ self.new }
        ensures few { length (received ring.old) ≤ 2 ^ 64 → length (received ring.new) ≤ 2 ^ 64 }
    {
        if self.is_empty() {
            self.refill(rt, ring);
        }
        self.next()
    }

    /// Takes what waits in a ring, in place of what is here, and waits for it where there is none.
    // Not inlined: 64 items share it, and a port's loop would be longer by it.
    #[inline(never)]
    fn refill<R: Wait>(&mut self, rt: &R, ring: &mut Consumer<Dealt, Global, Bounded>)
        ensures ring { SameConsumer ring.old ring.new }
        ensures received { received ring.new ≡ received ring.old ++ self.new }
        ensures some { 0 < length self.new }
        ensures few { length (received ring.new) ≤ 2 ^ 64 }
    {
        self.count = take_items(rt, ring, &mut self.items);
        self.given = 0;
    }
}

/// Waits until there are items in a ring, and takes as many as the slice has room for.
fn take_items<R: Wait>(
    rt: &R,
    ring: &mut Consumer<Dealt, Global, Bounded>,
    items: &mut [Dealt],
) -> usize
    requires { 0 < length items.old }
    ensures ring { SameConsumer ring.old ring.new }
    ensures received { received ring.new ≡ received ring.old ++ take result items.new }
    ensures some { (0 < result) × (result ≤ length items.new) × (length items.new ≡ length items.old) }
    ensures few { length (received ring.new) ≤ 2 ^ 64 }
{
    let mut idle = Idle::new();
    for _ in rt.forever() {
        let count = ring.pop_partial_slice(items);
        if count > 0 {
            return count;
        }
        idle.wait(rt);
    }
    unreachable!()
}
