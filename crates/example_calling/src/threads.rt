//! The ends of a gateway in threads of the caller's own: one offers frames, one takes their copies out, and one replaces a policy
//! meanwhile.

ghost use Rattle.std.specs.Prelude.{◌≡◌, ◌++◌, ◌∷◌, [], IfOk, IfErr, IfSome, MatchBool, MatchResult, vec_len, All};
ghost use Rattle.j1939_gateway.specs.PortEnds.{end_out};
ghost use Rattle.j1939_gateway.specs.Making.{AreOfOneGateway};
ghost use Rattle.j1939_gateway.specs.Closing.{Closes};
ghost use Rattle.j1939_gateway.specs.Sending.{Sends};
ghost use Rattle.j1939_gateway.specs.MakeRefusal.{MakeRefusal};
ghost use Rattle.example_calling.specs.declared.fault.Fault.TheVariants.{NotMade, OutOfMemory};
ghost use Rattle.example_calling.specs.Replacing.{IsNotPublished};
ghost use Rattle.example_calling.specs.Threads.{
  AreApart,
  CanOffer,
  CanStart,
  HasOffered,
  HasSent,
  HaveMet,
  HaveRun,
  IsClosingFault,
  IsForwarded,
  IsForwardingFault,
  IsOfferFault,
  IsOpen,
  IsOpenFault,
  IsRunFault,
  with_batch,
};

use crate::fault::Fault;
use crate::operator_thread::{OperatorPromise, replace_policies};
use crate::replacing::publish;
use j1939_gateway::{
    Batch, Frame, FrameCopy, Limits, Operator, Outcome, Parts, PortIn, PortOut, Report, close,
    gateway,
};
use std::alloc::Global;
use std::marker::{Send, Sync};
use std::snapshot::Snapshot;
use std::sync::Wait;
use std::sync::atomic::{AtomicBool, Ordering};
use std::thread::{Promise, PromisedHandle, Scope, Threads, scope, scope_env, yield_now};

/// The port at which frames are offered.
const FROM: u8 = 0;

/// What became of frames that one thread offered while another took their copies out, and the gateway's report.
#[derive(Drop)]
pub struct Forwarded {
    /// Of each frame that was offered at port 0, in order.
    pub outcomes: Vec<Outcome>,
    /// The copies that were taken out at port 1, in order.
    pub copies: Vec<FrameCopy>,
    pub report: Report,
}

/// The end at which a thread offers frames, with what became of them. There is room for the outcome of each.
#[derive(Drop)]
struct Feed {
    port: PortIn,
    frames: Vec<Frame>,
    outcomes: Vec<Outcome>,
}

/// The end at which a thread takes copies out, with those that it took. There is room for a copy of each frame.
#[derive(Drop)]
struct Drain {
    port: PortOut,
    copies: Vec<FrameCopy>,
}

/// The ends that go to threads.
#[derive(Drop)]
struct Ends {
    operator: Operator,
    feed: Feed,
    drain: Drain,
}

/// The ends of the other direction, which stay with the caller.
#[derive(Drop)]
struct Idle {
    port_in: PortIn,
    port_out: PortOut,
}

/// Forwards frames from port 0 to port 1 of a new gateway. The first batch is in force at the first of them. One thread offers
/// the frames, another takes copies out, and a third publishes the second batch meanwhile: which of the frames it judges depends
/// on the schedule. Once the threads are joined, the gateway is closed. It may wait.
pub fn forward_in_threads<R: Threads + Wait + Sync>(
    rt: &R,
    alloc: Global,
    frames: Vec<Frame>,
    first: Batch,
    second: Batch,
) -> Result<Forwarded, Fault>
    ensures forwarded { IfOk result (IsForwarded first second frames.items) }
    ensures refused { IfErr result (IsForwardingFault first second frames.items) }
{
    let parts = open(rt, alloc, first)?;
    let (ends, idle) = set_apart(alloc, parts, frames)?;
    let is_over = AtomicBool::new(false);
    let over = &is_over;
    let ends = scope(
        scope_env(),
        rt,
        move |threads| -> Result<Ends, Fault>
            requires { CanStart ends }
        { run_ends(threads, rt, over, ends, second) },
    )?;
    close_ends(alloc, ends, idle)
}

/// A new gateway of two ports, whose first batch is published.
fn open<R: Wait>(rt: &R, alloc: Global, first: Batch) -> Result<Parts, Fault>
    ensures opened { IfOk result (λ parts. IsOpen (first ∷ []) parts.operator parts.ins.items parts.outs.items) }
    ensures refused { IfErr result (IsOpenFault first) }
{
    let mut parts = new_gateway(alloc)?;
    match publish(rt, &mut parts.operator, first) {
        Ok(()) => Ok(parts),
        Err(why) => Err(why),
    }
}

/// Two ports, and room for four copies in a lane, two batches and eight frames at a port.
fn new_gateway(alloc: Global) -> Result<Parts, Fault>
    ensures made { IfOk result (λ parts. IsOpen [] parts.operator parts.ins.items parts.outs.items) }
    ensures refused { IfErr result (λ fault. (why : MakeRefusal) × (fault ≡ NotMade why)) }
{
    let Ok(limits) = Limits::new(2, 4, 2, 8) else {
        unreachable!()
    };
    match gateway(alloc, limits) {
        Ok(parts) => Ok(parts),
        Err(why) => Err(Fault::NotMade(why)),
    }
}

/// Each end on its own, with room for what the threads hand back. Port 0 is told what is published.
fn set_apart(alloc: Global, parts: Parts, frames: Vec<Frame>) -> Result<(Ends, Idle), Fault>
    requires two { (vec_len parts.ins ≡ 2) × (vec_len parts.outs ≡ 2) }
    requires board { All (λ ingress. ingress.board ≡ parts.operator.board) parts.ins.items }
    ensures apart { IfOk result (λ made. AreApart parts.operator parts.ins.items parts.outs.items frames.items made.0 made.1) }
    ensures refused { IfErr result (λ fault. fault ≡ OutOfMemory) }
{
    // Room comes first: a way out behind the parts would drop each of them.
    let Ok(outcomes) = Vec::with_capacity(alloc, frames.len()) else {
        return Err(Fault::OutOfMemory);
    };
    let Ok(copies) = Vec::with_capacity(alloc, frames.len()) else {
        return Err(Fault::OutOfMemory);
    };
    let Parts {
        operator,
        ins,
        outs,
    } = parts;
    let (mut port_in, other_in) = pair(ins);
    let (other_out, port_out) = pair(outs);
    let told = operator.tell();
    port_in.learn(&told);
    let feed = Feed {
        port: port_in,
        frames,
        outcomes,
    };
    let drain = Drain {
        port: port_out,
        copies,
    };
    let ends = Ends {
        operator,
        feed,
        drain,
    };
    let idle = Idle {
        port_in: other_in,
        port_out: other_out,
    };
    Ok((ends, idle))
}

/// The two elements of a list.
fn pair<T: Drop>(mut list: Vec<T>) -> (T, T)
    requires { vec_len list ≡ 2 }
    ensures { list.items ≡ result.0 ∷ result.1 ∷ [] }
{
    let Some(second) = list.pop() else {
        unreachable!()
    };
    let Some(first) = list.pop() else {
        unreachable!()
    };
    (first, second)
}

// What is known of a thread that offered frames.
#[derive(Drop)]
struct FeedPromise(Snapshot<Feed>);

impl Promise<Result<Feed, Fault>> for FeedPromise {
    ghost use Rattle.std.specs.Prelude.{MatchResult};
    ghost use Rattle.example_calling.specs.Threads.{HasOffered, IsOfferFault};

    ghost kept_by = { λ p done. MatchResult done (HasOffered p.0.value) (IsOfferFault p.0.value) };
}

// What is known of a thread that took copies out.
#[derive(Drop)]
struct DrainPromise(Snapshot<Drain>);

impl Promise<Drain> for DrainPromise {
    ghost use Rattle.example_calling.specs.Threads.{HasSent};

    ghost kept_by = { λ p done. HasSent p.0.value done };
}

/// Starts a thread for each end, and joins them. Copies are taken out until no frame is offered any more and none waits.
fn run_ends<'s, E, R: Threads + Wait + Sync>(
    threads: &'s Scope<'s, E>,
    rt: &'s R,
    is_over: &'s AtomicBool,
    ends: Ends,
    batch: Batch,
) -> Result<Ends, Fault>
    requires { CanStart ends }
    ensures ran { IfOk result (HaveRun ends batch) }
    ensures refused { IfErr result (IsRunFault ends.operator ends.feed batch) }
{
    let Ends {
        operator,
        feed,
        drain,
    } = ends;
    let Some(sending) = start_sending(threads, rt, is_over, drain) else {
        return Err(Fault::NoThread);
    };
    let met = replace_meanwhile(threads, rt, operator, feed, batch);
    is_over.store(true, Ordering::SeqCst);
    let drain = sending.join(rt);
    match met {
        Ok((operator, feed)) => Ok(Ends {
            operator,
            feed,
            drain,
        }),
        Err(why) => Err(why),
    }
}

/// Starts the thread that takes copies out, if one can be made.
fn start_sending<'s, E, R: Threads + Wait + Sync>(
    threads: &'s Scope<'s, E>,
    rt: &'s R,
    is_over: &'s AtomicBool,
    drain: Drain,
) -> Option<PromisedHandle<Drain, DrainPromise>>
    requires { drain.copies.items ≡ [] }
    ensures { IfSome result (λ handle. handle.promise.0.value ≡ drain) }
{
    let promise = DrainPromise(Snapshot::of(&drain));
    let started = threads.spawn_with(
        promise,
        move || -> Drain
            requires { drain.copies.items ≡ [] }
        { take_out(rt, drain, is_over) },
    );
    started.ok()
}

/// Starts a thread that offers the frames and one that publishes the batch, and joins both.
fn replace_meanwhile<'s, E, R: Threads + Wait + Sync>(
    threads: &'s Scope<'s, E>,
    rt: &'s R,
    operator: Operator,
    feed: Feed,
    batch: Batch,
) -> Result<(Operator, Feed), Fault>
    requires { CanOffer feed }
    ensures met { IfOk result (λ met. HaveMet operator feed batch met.0 met.1) }
    ensures refused { IfErr result (IsRunFault operator feed batch) }
{
    let Some(offering) = start_offering(threads, feed) else {
        return Err(Fault::NoThread);
    };
    let Some(replacing) = start_replacing(threads, rt, operator, batch) else {
        return Err(Fault::NoThread);
    };
    let (operator, published) = replacing.join(rt);
    // A batch that was refused comes before a frame that was.
    match published.and(offering.join(rt)) {
        Ok(feed) => Ok((operator, feed)),
        Err(why) => Err(why),
    }
}

/// Starts the thread that offers the frames, if one can be made.
fn start_offering<'s, E>(
    threads: &'s Scope<'s, E>,
    feed: Feed,
) -> Option<PromisedHandle<Result<Feed, Fault>, FeedPromise>>
    requires { CanOffer feed }
    ensures { IfSome result (λ handle. handle.promise.0.value ≡ feed) }
{
    let promise = FeedPromise(Snapshot::of(&feed));
    let started = threads.spawn_with(
        promise,
        move || -> Result<Feed, Fault>
            requires { CanOffer feed }
        { offer_all(feed) },
    );
    started.ok()
}

/// Starts the thread that publishes the batch, if one can be made.
fn start_replacing<'s, E, R: Threads + Wait + Sync>(
    threads: &'s Scope<'s, E>,
    rt: &'s R,
    operator: Operator,
    batch: Batch,
) -> Option<PromisedHandle<(Operator, Result<(), Fault>), OperatorPromise>>
    ensures { IfSome result (λ handle. (handle.promise.0.value ≡ operator) × (handle.promise.1.value ≡ batch)) }
{
    let promise = OperatorPromise(Snapshot::of(&operator), Snapshot::of(&batch));
    let started = threads.spawn_with(promise, move || -> (Operator, Result<(), Fault>) {
        replace_policies(rt, operator, batch)
    });
    started.ok()
}

/// Offers the frames in order, up to one that is refused.
fn offer_all(feed: Feed) -> Result<Feed, Fault>
    requires { CanOffer feed }
    ensures offered { IfOk result (HasOffered feed) }
    ensures refused { IfErr result (IsOfferFault feed) }
{
    let Feed {
        mut port,
        frames,
        mut outcomes,
    } = feed;
    for frame in &frames {
        match port.offer(*frame) {
            Ok(outcome) => outcomes.push_reserved(outcome),
            Err(why) => return Err(Fault::NotTaken(why)),
        }
    }
    Ok(Feed {
        port,
        frames,
        outcomes,
    })
}

/// Takes copies out until a look that began after the last offer finds none. It may wait.
fn take_out<R: Wait>(rt: &R, drain: Drain, is_over: &AtomicBool) -> Drain
    requires { drain.copies.items ≡ [] }
    ensures { HasSent drain result }
{
    let Drain {
        mut port,
        mut copies,
    } = drain;
    for _ in rt.forever() {
        let is_last = is_over.load(Ordering::SeqCst);
        if !take_copy(&mut port, &mut copies) {
            if is_last {
                break;
            }
            yield_now();
        }
    }
    Drain { port, copies }
}

/// Takes the next copy out, if one waits and there is room for it.
fn take_copy(port: &mut PortOut, copies: &mut Vec<FrameCopy>) -> bool
    ensures end { end_out port.new ≡ end_out port.old }
    ensures taken { MatchBool result
        ((copy : FrameCopy) × Sends 0 port.old copy port.new × (copies.new.items ≡ copies.old.items ++ copy ∷ []))
        ((port.new ≡ port.old) × (copies.new.items ≡ copies.old.items)) }
{
    if copies.len() >= copies.capacity() {
        return false;
    }
    match port.next_from(FROM) {
        Some(copy) => {
            copies.push_reserved(copy);
            true
        }
        None => false,
    }
}

/// Puts the ends together again, and closes the gateway.
fn close_ends(alloc: Global, ends: Ends, idle: Idle) -> Result<Forwarded, Fault>
    requires { AreOfOneGateway ends.operator (ends.feed.port ∷ idle.port_in ∷ []) (idle.port_out ∷ ends.drain.port ∷ []) }
    ensures closed { IfOk result (λ forwarded. Closes ends.operator (ends.feed.port ∷ idle.port_in ∷ [])
        (idle.port_out ∷ ends.drain.port ∷ []) forwarded.report) }
    ensures outcomes { IfOk result (λ forwarded. forwarded.outcomes.items ≡ ends.feed.outcomes.items) }
    ensures copies { IfOk result (λ forwarded. forwarded.copies.items ≡ ends.drain.copies.items) }
    ensures refused { IfErr result IsClosingFault }
{
    let Ends {
        operator,
        feed,
        drain,
    } = ends;
    let Ok(ins) = Vec::from_array(alloc, [feed.port, idle.port_in]) else {
        return Err(Fault::OutOfMemory);
    };
    let Ok(outs) = Vec::from_array(alloc, [idle.port_out, drain.port]) else {
        return Err(Fault::OutOfMemory);
    };
    match close(
        alloc,
        Parts {
            operator,
            ins,
            outs,
        },
    ) {
        Ok(report) => Ok(Forwarded {
            outcomes: feed.outcomes,
            copies: drain.copies,
            report,
        }),
        Err(why) => Err(Fault::NotClosed(why)),
    }
}
