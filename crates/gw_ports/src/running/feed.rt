//! The ingress threads: one a port offers its frames, while the calling thread publishes.

ghost use Rattle.std.specs.Prelude.{
  ◌≡◌,
  ◌<◌,
  ◌↔◌,
  ℕ,
  List,
  vec_capacity,
  IfOk,
  IfSome,
  IsTrue,
  MatchResult,
  OnErr,
  OnOk,
  Err,
};
ghost use Rattle.gw_claims.specs.Holders.{HoldsAfter};
ghost use Rattle.gw_ports.specs.Ends.{end_in};
ghost use Rattle.gw_ports.specs.Offers.{IsPlaced, Offered};
ghost use Rattle.gw_ports.specs.Running.{CanFeed, CanOffer, HasFed, Pairwise, Publishes};
ghost use Rattle.gw_ports.specs.declared.refusals.OfferRefusal.TheVariants.{FramesSpent};

use super::publishing::{Published, Publishing};
use crate::enqueue::Awaited;
use crate::{Gate, OfferRefusal, PortIn, Sink};
use gw_frame::Frame;
use gw_ledger::Outcome;
use std::marker::{Send, Sync};
use std::snapshot::Snapshot;
use std::sync::Wait;
use std::thread::{Promise, Scope, Threads, scope, scope_env};

/// An ingress port that is to offer frames, and the sink that their outcomes are handed to.
#[derive(Drop)]
pub(super) struct Feed<I, O> {
    pub port: PortIn,
    pub input: I,
    pub outcomes: O,
    /// Whether a copy that finds its lane full waits for room, and is not lost.
    pub waits: bool,
}

/// What the ingress threads of a run begin with, and the thread that publishes.
#[derive(Drop)]
pub(super) struct Intake<I, O> {
    pub feeds: Vec<Feed<I, O>>,
    /// Empty, with room for as many.
    pub done: Vec<Done<I, O>>,
    pub publishing: Publishing,
}

/// An ingress port that has offered its frames, up to the one that was refused, and what is left of them.
#[derive(Drop)]
pub(super) struct Done<I, O> {
    pub port: PortIn,
    pub input: I,
    pub outcomes: O,
    pub stop: Option<OfferRefusal>,
}

// What is known of an ingress port that has offered its frames.
#[derive(Drop)]
struct FeedPromise<I, O>(Snapshot<Feed<I, O>>);

impl<I: Iterator<Item = Frame>, O: Sink<Outcome>> Promise<Done<I, O>> for FeedPromise<I, O> {
    ghost use Rattle.gw_ports.specs.Running.{HasFed};

    ghost kept_by = { λ p done. HasFed I.next_gives O.takes p.0.value done };
}

// Offers the frames of a port, until one is refused.
fn offer_frames<R: Wait, I: Iterator<Item = Frame>, O: Sink<Outcome>, G: Gate>(
    rt: &R,
    feed: Feed<I, O>,
    gate: &G,
) -> Done<I, O>
    requires { CanOffer I.can_next I.remaining O.room feed }
    ensures { HasFed I.next_gives O.takes feed result }
{
    let Feed {
        mut port,
        mut input,
        mut outcomes,
        waits,
    } = feed;
    let number = port.number();
    while let Some(frame) = input.next() {
        let index = port.ledger().taken as usize;
        gate.enter(number, index);
        let offered = offer_one(rt, &mut port, frame, waits);
        gate.leave(number, index);
        match offered {
            Ok(outcome) => outcomes.take(outcome),
            Err(why) => {
                gate.stopped(number);
                return Done {
                    port,
                    input,
                    outcomes,
                    stop: Some(why),
                };
            }
        }
    }
    Done {
        port,
        input,
        outcomes,
        stop: None,
    }
}

// Offers a frame at a port. Where it waits, no copy of it is lost.
// Inlined into the loop, which calls `offer` then.
#[inline(always)]
fn offer_one<R: Wait>(
    rt: &R,
    port: &mut PortIn,
    frame: Frame,
    waits: bool,
) -> Result<Outcome, OfferRefusal>
    ensures offered { (heard : List (List ℕ)) → HoldsAfter port.old.claims heard
        → MatchResult result (λ outcome. Offered heard port.old frame outcome port.new) (λ _. port.new ≡ port.old) }
    ensures end { end_in port.new ≡ end_in port.old }
    ensures inside { OnOk result (port.old.ledger.taken < port.old.frames) }
    ensures unchanged { OnErr result (port.new ≡ port.old) }
    ensures spent { (result ≡ Err FramesSpent) ↔ (port.old.ledger.taken ≡ port.old.frames) }
    ensures all { IsTrue waits → IfOk result IsPlaced }
{
    if waits {
        port.offer_by(frame, &Awaited(rt))
    } else {
        port.offer(frame)
    }
}

// Starts a thread for each of the ports, from the last one down, publishes, and joins them. None where no thread could be made.
fn feed_all<'s, E, R, G, I, O>(
    threads: &'s Scope<'s, E>,
    rt: &'s R,
    gate: &'s G,
    mut intake: Intake<I, O>,
) -> Option<(Vec<Done<I, O>>, Published)>
where
    R: Threads + Wait + Sync,
    G: Gate,
    I: Iterator<Item = Frame> + Send + 's,
    O: Sink<Outcome> + Send + 's,
    requires ready { CanFeed I.can_next I.remaining O.room intake }
    ensures done { IfSome result (λ r. Pairwise (HasFed I.next_gives O.takes) intake.feeds.items r.0.items
        × (vec_capacity r.0 ≡ vec_capacity intake.done)) }
    ensures published { IfSome result (λ r. Publishes intake.publishing.operator intake.publishing.batches.items
        r.1.fronts.items r.1.refused r.1.operator) }
{
    match intake.feeds.pop() {
        None => Some((intake.done, intake.publishing.publish(rt, gate))),
        Some(feed) => {
            let promise = FeedPromise(Snapshot::of(&feed));
            let Ok(thread) = threads.spawn_with(
                promise,
                move || -> Done<I, O>
                    requires { CanOffer I.can_next I.remaining O.room feed }
                { offer_frames(rt, feed, gate) },
            ) else {
                return None;
            };
            let others = feed_all(threads, rt, gate, intake);
            let one = thread.join(rt);
            let (mut done, published) = others?;
            done.push_reserved(one);
            Some((done, published))
        }
    }
}

/// Starts the threads that offer, publishes, and joins them. None where no thread could be made.
pub(super) fn start_feeds<R, G, I, O>(
    rt: &R,
    gate: &G,
    intake: Intake<I, O>,
) -> Option<(Vec<Done<I, O>>, Published)>
where
    R: Threads + Wait + Sync,
    G: Gate,
    I: Iterator<Item = Frame> + Send,
    O: Sink<Outcome> + Send,
    requires ready { CanFeed I.can_next I.remaining O.room intake }
    ensures done { IfSome result (λ r. Pairwise (HasFed I.next_gives O.takes) intake.feeds.items r.0.items) }
    ensures published { IfSome result (λ r. Publishes intake.publishing.operator intake.publishing.batches.items
        r.1.fronts.items r.1.refused r.1.operator) }
{
    scope(
        scope_env(),
        rt,
        move |threads| -> Option<(Vec<Done<I, O>>, Published)>
            requires { CanFeed I.can_next I.remaining O.room intake }
        { feed_all(threads, rt, gate, intake) },
    )
}
