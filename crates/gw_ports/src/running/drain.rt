//! The egress threads: one for every two ports takes copies out.

ghost use Rattle.std.specs.Prelude.{◌≡◌, ◌≤◌, List, IfSome, length, vec_capacity};
ghost use Rattle.gw_ports.specs.Running.{CanRun, HasDrained, HasFed, AllHaveDrained, Pairwise, Publishes};
ghost use Rattle.gw_ports.specs.Ends.{end_out};
ghost use Rattle.gw_ports.specs.Sending.{Takes};
ghost use Rattle.gw_ports.specs.Sinks.{Handed, HasRoomFor};

use super::feed::{Done, Intake, start_feeds};
use super::publishing::Published;
use crate::{Gate, PortOut, Sink};
use gw_frame::{Frame, PAYLOAD_START};
use gw_ledger::{FrameCopy, Outcome};
use std::marker::{Send, Sync};
use std::snapshot::Snapshot;
use std::sync::Wait;
use std::sync::atomic::{AtomicBool, Ordering};
use std::thread::{Promise, Scope, Threads, scope, scope_env, yield_now};

/// How many copies are taken out of a lane at once.
const BATCH: usize = 64;
/// How often an egress thread gives its turn up between two rounds over its lanes, at most: for as long as a lane fills.
const YIELDS: u32 = 16;

/// An egress port that takes copies out, and the sink that they are handed to.
#[derive(Drop)]
pub(super) struct Drain<C> {
    pub port: PortOut,
    pub out: C,
}

/// The egress ports of a thread: two, or the one that is left. So half as many threads as ports look for copies.
#[derive(Drop)]
struct Drains<C> {
    before: Option<Drain<C>>,
    last: Drain<C>,
}

impl<C: Sink<FrameCopy>> Drains<C> {
    ghost use Rattle.std.specs.Prelude.{◌≡◌, ◌≤◌, ◌+◌, ◌++◌, length, vec_capacity, vec_len};
    ghost use Rattle.gw_ports.specs.Running.{AllHaveDrained, drains_of};

    // Takes copies until a round over the lanes that began after the last offer gave none.
    fn empty_lanes<R: Wait>(self, rt: &R, is_over: &AtomicBool, lane: u32) -> Drains<C>
        ensures { AllHaveDrained C.takes self result }
    {
        let mut drains = self;
        let mut copies = [blank(); BATCH];
        let mut yields: u32 = 1;
        for _ in rt.forever() {
            let is_last = is_over.load(Ordering::SeqCst);
            let most = drains.take_rounds(&mut copies);
            if most == 0 && is_last {
                break;
            }
            yields = next_yields(most, lane, yields);
            gather(yields);
        }
        drains
    }

    // Takes the copies that wait at each of the ports, and tells how many the lane gave that gave most.
    fn take_rounds(&mut self, copies: &mut [FrameCopy]) -> usize
        ensures { AllHaveDrained C.takes self.old self.new }
    {
        let most = take_round(&mut self.last.port, &mut self.last.out, copies);
        match &mut self.before {
            Some(drain) => most.max(take_round(&mut drain.port, &mut drain.out, copies)),
            None => most,
        }
    }

    // Puts the ports behind others.
    fn push_to(self, drained: &mut Vec<Drain<C>>)
        requires { vec_len drained.old + length (drains_of self) ≤ vec_capacity drained.old }
        ensures items { drained.new.items ≡ drained.old.items ++ drains_of self }
        ensures capacity { vec_capacity drained.new ≡ vec_capacity drained.old }
    {
        let Drains { before, last } = self;
        if let Some(drain) = before {
            drained.push_reserved(drain);
        }
        drained.push_reserved(last);
    }
}

// A copy of nothing.
fn blank() -> FrameCopy {
    let Ok(frame) = Frame::read(&[0; PAYLOAD_START]) else {
        unreachable!()
    };
    FrameCopy {
        from: 0,
        number: 0,
        frame,
    }
}

// How often to give the turn up before the next round: twice as often where the lane that gave most gave less than an eighth of
// what it could, half as often where it gave more than a quarter.
fn next_yields(most: usize, lane: u32, yields: u32) -> u32 {
    let room = BATCH.min(lane as usize);
    if most > room / 4 {
        yields / 2
    } else if most > 0 && most < room / 8 {
        yields.saturating_mul(2).clamp(1, YIELDS)
    } else {
        yields.max(1)
    }
}

// Lets copies gather, while other threads work. Where the two ends of a lane work at one place, each copy takes its memory from
// one processor to the other and back.
fn gather(yields: u32) {
    for _ in 0..yields {
        yield_now();
    }
}

// Takes the copies that wait, from each lane a slice of them at most, and tells how many the one gave that gave most.
fn take_round<C: Sink<FrameCopy>>(
    port: &mut PortOut,
    out: &mut C,
    copies: &mut [FrameCopy],
) -> usize
    ensures end { end_out port.new ≡ end_out port.old }
    ensures taken { (taken : List FrameCopy) × Takes port.old taken port.new × Handed C.takes out.old taken out.new }
{
    let mut most: usize = 0;
    for ingress in 0..port.ports() {
        most = most.max(take_from(port, ingress, out, copies));
    }
    most
}

// The same of the lane from an ingress port, where the sink has room.
fn take_from<C: Sink<FrameCopy>>(
    port: &mut PortOut,
    ingress: u8,
    out: &mut C,
    copies: &mut [FrameCopy],
) -> usize
    ensures end { end_out port.new ≡ end_out port.old }
    ensures taken { (taken : List FrameCopy) × Takes port.old taken port.new × Handed C.takes out.old taken out.new }
{
    let most = room_of(out, copies.len());
    let (copies, _) = copies.split_at_mut(most);
    let count = port.many_from(ingress, copies);
    hand_out(out, &copies[..count]);
    count
}

// So many, or one, or none: what a sink has room for.
fn room_of<C: Sink<FrameCopy>>(out: &C, copies: usize) -> usize
    ensures few { result ≤ copies }
    ensures room { HasRoomFor (C.room out.now) result }
{
    if out.has_room_for(copies) {
        copies
    } else if copies > 0 && out.has_room_for(1) {
        1
    } else {
        0
    }
}

// Hands a sink copies, one after another.
fn hand_out<C: Sink<FrameCopy>>(out: &mut C, copies: &[FrameCopy])
    requires { HasRoomFor (C.room out.old) (length copies.now) }
    ensures { Handed C.takes out.old copies.now out.new }
{
    for index in 0..copies.len() {
        out.take(copies[index]);
    }
}

// What is known of egress ports that have taken copies out.
#[derive(Drop)]
struct DrainPromise<C>(Snapshot<Drains<C>>);

impl<C: Sink<FrameCopy>> Promise<Drains<C>> for DrainPromise<C> {
    ghost use Rattle.gw_ports.specs.Running.{AllHaveDrained};

    ghost kept_by = { λ p drained. AllHaveDrained C.takes p.0.value drained };
}

/// What the threads of a run begin with.
#[derive(Drop)]
pub(super) struct Work<I, O, C> {
    pub drains: Vec<Drain<C>>,
    /// Empty, with room for as many.
    pub drained: Vec<Drain<C>>,
    pub intake: Intake<I, O>,
}

// Starts a thread for every two of the ports, from the last one down, feeds the gateway, and joins them. None where no thread
// could be made.
fn drain_all<'s, E, R, G, I, O, C>(
    threads: &'s Scope<'s, E>,
    rt: &'s R,
    gate: &G,
    is_over: &'s AtomicBool,
    lane: u32,
    mut work: Work<I, O, C>,
) -> Option<(Vec<Drain<C>>, Vec<Done<I, O>>, Published)>
where
    R: Threads + Wait + Sync,
    G: Gate,
    I: Iterator<Item = Frame> + Send,
    O: Sink<Outcome> + Send,
    C: Sink<FrameCopy> + Send + 's,
    requires ready { CanRun I.can_next I.remaining O.room work }
    ensures taken { IfSome result (λ r. Pairwise (HasDrained C.takes) work.drains.items r.0.items
        × (vec_capacity r.0 ≡ vec_capacity work.drained)) }
    ensures done { IfSome result (λ r. Pairwise (HasFed I.next_gives O.takes) work.intake.feeds.items r.1.items) }
    ensures published { IfSome result (λ r. Publishes work.intake.publishing.operator work.intake.publishing.batches.items
        r.2.fronts.items r.2.refused r.2.operator) }
{
    match work.drains.pop() {
        None => {
            let fed = start_feeds(rt, gate, work.intake);
            is_over.store(true, Ordering::SeqCst);
            let (done, published) = fed?;
            Some((work.drained, done, published))
        }
        Some(last) => {
            let drains = Drains {
                before: work.drains.pop(),
                last,
            };
            let promise = DrainPromise(Snapshot::of(&drains));
            let Ok(thread) = threads.spawn_with(promise, move || -> Drains<C> {
                drains.empty_lanes(rt, is_over, lane)
            }) else {
                is_over.store(true, Ordering::SeqCst);
                return None;
            };
            let others = drain_all(threads, rt, gate, is_over, lane, work);
            let own = thread.join(rt);
            let (mut drained, done, published) = others?;
            own.push_to(&mut drained);
            Some((drained, done, published))
        }
    }
}

/// Starts all threads of a run, whose lanes have room for so many copies, and joins them. None where no thread could be made.
pub(super) fn start_drains<R, G, I, O, C>(
    rt: &R,
    gate: &G,
    lane: u32,
    work: Work<I, O, C>,
) -> Option<(Vec<Drain<C>>, Vec<Done<I, O>>, Published)>
where
    R: Threads + Wait + Sync,
    G: Gate,
    I: Iterator<Item = Frame> + Send,
    O: Sink<Outcome> + Send,
    C: Sink<FrameCopy> + Send,
    requires ready { CanRun I.can_next I.remaining O.room work }
    ensures taken { IfSome result (λ r. Pairwise (HasDrained C.takes) work.drains.items r.0.items) }
    ensures done { IfSome result (λ r. Pairwise (HasFed I.next_gives O.takes) work.intake.feeds.items r.1.items) }
    ensures published { IfSome result (λ r. Publishes work.intake.publishing.operator work.intake.publishing.batches.items
        r.2.fronts.items r.2.refused r.2.operator) }
{
    let is_over = AtomicBool::new(false);
    let over = &is_over;
    scope(
        scope_env(),
        rt,
        move |threads| -> Option<(Vec<Drain<C>>, Vec<Done<I, O>>, Published)>
            requires { CanRun I.can_next I.remaining O.room work }
            ensures taken { IfSome result (λ r. Pairwise (HasDrained C.takes) work.drains.items r.0.items) }
            ensures done { IfSome result (λ r. Pairwise (HasFed I.next_gives O.takes) work.intake.feeds.items r.1.items) }
            ensures published { IfSome result (λ r. Publishes work.intake.publishing.operator
                work.intake.publishing.batches.items r.2.fronts.items r.2.refused r.2.operator) }
        { drain_all(threads, rt, gate, over, lane, work) },
    )
}
