//! A run of a gateway on the frames of a trace, which is read meanwhile.

ghost use Rattle.std.specs.Prelude.{◌≡◌, ◌<◌, ℕ, List, length, slice_index_or, vec_len, false};
ghost use Rattle.std.specs.Prelude.{Bool, IfErr, IfOk, IfSome, MatchResult, All};
ghost use Rattle.gw_io.specs.Tries.{inner_of, has_failed, reads_of, unended_reads};
ghost use Rattle.gw_run.specs.Dealing.{AreNewRings, AreFronts};
ghost use Rattle.gw_run.specs.DealtRuns.{CanDeal, EndsDealing, IsWholeEnd, RefusesEnd, reading_refusal};
ghost use Rattle.gw_run.specs.DealtPromises.{IsPromised};
ghost use Rattle.gw_run.specs.Forwarding.{EndsRun, KeepsInput, RefusesInputs, RefusesTrace};
ghost use Rattle.gw_run.specs.declared.taking.Taking.TheVariants.{InTurn};
ghost use Rattle.gw_ledger.specs.Bounds.{Bounds};
ghost use Rattle.gw_policy.specs.Batches.{Pair};
ghost use Rattle.gw_run.specs.Dealt.{Putting, Taken, TakesItem};

use crate::dealing::Dealer;
use crate::dealt::{DealtIn, DealtOut, dealt_ring};
use crate::front::Front;
use crate::kept::{Kept, NoCopies};
use crate::losses::Losses;
use crate::notes::{note_dealt, note_log};
use crate::observing::Observer;
use crate::refusal::ForwardRefusal;
use crate::running::{run_over, unstopped};
use crate::stops::{NotingStops, Stops};
use gw_answers::Refusal;
use gw_io::Tried;
use gw_ledger::Limits;
use gw_policy::Batch;
use gw_ports::{Gate, RunEnd, RunRefusal};
use gw_trace::TraceRefusal;
use std::alloc::{AllocError, Global};
use std::io::{Read, Write};
use std::marker::Sync;
use std::snapshot::Snapshot;
use std::sync::Wait;
use std::thread::{Promise, PromisedHandle, Scope, Threads, scope, scope_env};

/// How a run on dealt frames ended.
type Ended<'a, R> = Result<RunEnd<DealtOut<'a, R>, Losses, NoCopies>, ForwardRefusal>;

/// What a run on dealt frames begins with.
#[derive(Drop)]
struct DealtRun<'a, R, G> {
    limits: Limits,
    first: Batch,
    gate: &'a NotingStops<'a, G>,
    inputs: Vec<DealtOut<'a, R>>,
    dealer: Dealer<'a, R>,
}

/// What is left of it, once the trace was read and the run is over.
#[derive(Drop)]
struct DealtEnd<'a, R> {
    dealer: Dealer<'a, R>,
    read: Result<(), TraceRefusal>,
    ran: Ended<'a, R>,
    /// How the trace begins.
    front: Front,
}

/// The same, where the trace was read whole and there was a run.
#[derive(Drop)]
struct WholeEnd<'a, R> {
    dealer: Dealer<'a, R>,
    ended: RunEnd<DealtOut<'a, R>, Losses, NoCopies>,
}

// What is known of the run's thread.
#[derive(Drop)]
struct RunPromise<'a, R> {
    limits: Limits,
    first: Snapshot<Batch>,
    inputs: Snapshot<Vec<DealtOut<'a, R>>>,
    waits: bool,
}

impl<'a, R: Wait> Promise<Ended<'a, R>> for RunPromise<'a, R> {
    ghost use Rattle.std.specs.Prelude.{IfErr, IfOk};
    ghost use Rattle.gw_run.specs.Dealt.{TakesItem};
    ghost use Rattle.gw_run.specs.Forwarding.{EndsRun, KeepsInput, RefusesInputs, RefusesTrace};
    ghost use Rattle.gw_run.specs.declared.taking.Taking.TheVariants.{InTurn};

    ghost kept_by = { λ p ended. IfOk ended (EndsRun TakesItem p.limits p.first.value p.inputs.value.items p.waits)
        × IfErr ended (RefusesInputs (λ _. ⊥) p.limits p.first.value) };
}

/// The rings' ends for each of so many ports.
fn dealt_rings<R>(
    rt: &R,
    alloc: Global,
    ports: usize,
) -> Result<(Vec<DealtIn>, Vec<DealtOut<'_, R>>), AllocError>
    ensures { IfOk result (λ made. AreNewRings ports made.0.items made.1.items) }
{
    let mut ins = Vec::with_capacity(alloc, ports)?;
    let mut outs = Vec::with_capacity(alloc, ports)?;
    for _port in 0..ports {
        let (dealt_in, dealt_out) = dealt_ring(rt, alloc)?;
        ins.push_reserved(dealt_in);
        outs.push_reserved(dealt_out);
    }
    Ok((ins, outs))
}

/// Looks at both ends of each ring: what was taken of it is the front of what was put there.
fn compare_all<R>(outs: &mut [DealtOut<R>], ins: &mut [DealtIn])
    requires count { length outs.old ≡ length ins.old }
    requires rings { (k : ℕ) (d : Taken) (e : Putting) → k < length outs.old
        → (slice_index_or ins.old k e).ring ≡ (slice_index_or outs.old k d).ring }
    ensures { AreFronts outs.old ins.old }
{
    for port in 0..outs.len() {
        outs[port].compare(&mut ins[port]);
    }
}

/// Starts a thread of this scope that runs a gateway on the inputs. None where it could not be made.
fn start_run<'s, 'a: 's, E, R, G>(
    threads: &'s Scope<'s, E>,
    rt: &'a R,
    alloc: Global,
    limits: Limits,
    first: Batch,
    inputs: Vec<DealtOut<'a, R>>,
    gate: &'a NotingStops<'a, G>,
) -> Option<PromisedHandle<Ended<'a, R>, RunPromise<'a, R>>>
where
    R: Threads + Wait + Sync,
    G: Gate,
    requires count { vec_len inputs ≡ limits.ports }
    requires first { All (λ pair. pair.port < limits.ports) first }
    ensures { IfSome result (λ thread. IsPromised limits first inputs.entry.items G.waits thread.promise) }
{
    let promise = RunPromise {
        limits,
        first: Snapshot::of(&first),
        inputs: Snapshot::of(&inputs),
        waits: gate.waits_for_room(),
    };
    match threads.spawn_with(
        promise,
        move || -> Ended<R>
            requires count { vec_len inputs ≡ limits.ports }
            requires first { All (λ pair. pair.port < limits.ports) first }
        { run_over(rt, alloc, limits, first, inputs, gate) },
    ) {
        Ok(thread) => Some(thread),
        Err(_refused) => None,
    }
}

/// How the run of a thread ended, once it is over. Without a thread there was none.
fn join_run<'a, R: Threads + Wait>(
    rt: &R,
    thread: Option<PromisedHandle<Ended<'a, R>, RunPromise<'a, R>>>,
) -> Ended<'a, R>
    ensures { (limits : Bounds) (first : List Pair) (inputs : List Taken) (waits : Bool)
        → IfSome thread.entry (λ handle. IsPromised limits first inputs waits handle.promise)
        → All (λ pair. pair.port < limits.ports) first
        → MatchResult result (EndsRun TakesItem limits first inputs waits) (RefusesInputs (λ ran. ⊥) limits first) }
{
    match thread {
        Some(thread) => thread.join(rt),
        None => Err(ForwardRefusal::Run(RunRefusal::NoThread)),
    }
}

/// Reads a trace and deals its frames, while a thread of this scope runs a gateway on them. Where no thread can be made there is
/// no run, and the trace is read all the same. The reader is handed back.
fn deal_in<'s, 'a: 's, 'r, E, R, G, I>(
    threads: &'s Scope<'s, E>,
    alloc: Global,
    run: DealtRun<'a, R, G>,
    reader: &'r mut Tried<I>,
) -> (&'r mut Tried<I>, DealtEnd<'a, R>)
where
    R: Threads + Wait + Sync,
    G: Gate,
    I: Read,
    requires run { CanDeal run }
    requires whole { has_failed reader.old ≡ false }
    requires unread { reads_of reader.old ≡ 0 }
    ensures same { result.0.ghost_name ≡ reader.entry.ghost_name }
    ensures ended { EndsDealing G.waits (I.remaining (inner_of reader.entry.now)) (I.remaining (inner_of result.0.now))
        (has_failed result.0.now) (unended_reads reader.entry.now result.0.now) run.entry result.1 }
{
    let DealtRun {
        limits,
        first,
        gate,
        inputs,
        mut dealer,
    } = run;
    let rt = dealer.rt;
    let thread = start_run(threads, rt, alloc, limits, first, inputs, gate);
    let mut front = Front::new();
    let read = dealer.deal_trace(alloc, reader, &mut front);
    dealer.end();
    let ran = join_run(rt, thread);
    let end = DealtEnd {
        dealer,
        read,
        ran,
        front,
    };
    (reader, end)
}

/// Reads a trace and deals its frames, while a gateway runs on them. The reader is handed back.
fn deal_in_scope<'a, 'r, R, G, I>(
    alloc: Global,
    run: DealtRun<'a, R, G>,
    reader: &'r mut Tried<I>,
) -> (&'r mut Tried<I>, DealtEnd<'a, R>)
where
    R: Threads + Wait + Sync,
    G: Gate,
    I: Read,
    requires run { CanDeal run }
    requires whole { has_failed reader.old ≡ false }
    requires unread { reads_of reader.old ≡ 0 }
    ensures same { result.0.ghost_name ≡ reader.entry.ghost_name }
    ensures ended { EndsDealing G.waits (I.remaining (inner_of reader.entry.now)) (I.remaining (inner_of result.0.now))
        (has_failed result.0.now) (unended_reads reader.entry.now result.0.now) run.entry result.1 }
{
    let rt = run.dealer.rt;
    scope(
        scope_env(),
        rt,
        move |threads| -> (&mut Tried<I>, DealtEnd<R>)
            requires run { CanDeal run }
            requires whole { has_failed reader.now ≡ false }
            requires unread { reads_of reader.now ≡ 0 }
        { deal_in(threads, alloc, run, reader) },
    )
}

/// What is left of a run whose trace was read whole, or the first refusal: what is wrong with the trace is told before what
/// refuses the run. A person is told where the octets are those of a log, and how the frames were dealt.
fn whole_end<'a, R, F: Write>(
    ports: u32,
    end: DealtEnd<'a, R>,
    faults: &mut Tried<F>,
) -> Result<WholeEnd<'a, R>, ForwardRefusal>
    ensures { MatchResult result (IsWholeEnd end.entry) (RefusesEnd end.entry) }
{
    let DealtEnd {
        dealer,
        read,
        ran,
        front,
    } = end;
    if let Err(why) = read {
        note_log(front.octets(), faults);
        return Err(reading_refusal(why));
    }
    note_dealt(ports, faults);
    match ran {
        Ok(ended) => Ok(WholeEnd { dealer, ended }),
        Err(refusal) => Err(refusal),
    }
}

/// What refuses a trace that was not read whole.
fn reading_refusal(why: TraceRefusal) -> ForwardRefusal
    ensures { result ≡ reading_refusal why }
{
    match why {
        TraceRefusal::OutOfMemory => ForwardRefusal::Command(Refusal::OutOfMemory),
        why => ForwardRefusal::Trace(why),
    }
}

// Does nothing. Without this use of the reader that was handed back, nothing would be known of the one that was lent.
fn hand_back<I>(reader: &mut Tried<I>)
    ensures { reader.new ≡ reader.old }
{}

/// Reads a trace and deals its frames, while a gateway runs on them. It may wait.
fn deal_and_run<'a, R, G, I>(
    alloc: Global,
    run: DealtRun<'a, R, G>,
    reader: &mut Tried<I>,
) -> DealtEnd<'a, R>
where
    R: Threads + Wait + Sync,
    G: Gate,
    I: Read,
    requires run { CanDeal run }
    requires whole { has_failed reader.old ≡ false }
    requires unread { reads_of reader.old ≡ 0 }
    ensures { EndsDealing G.waits (I.remaining (inner_of reader.old)) (I.remaining (inner_of reader.new))
        (has_failed reader.new) (unended_reads reader.old reader.new) run.entry result }
{
    let (reader, end) = deal_in_scope(alloc, run, reader);
    hand_back(reader);
    end
}

/// Reads a trace, deals its frames to the ports in turn, and runs a gateway on them meanwhile: what is kept of the run. What is
/// wrong with the trace is told before what refuses the run. It may wait.
pub(crate) fn run_dealt<R, G, I, F>(
    rt: &R,
    alloc: Global,
    limits: Limits,
    first: Batch,
    observer: &G,
    reader: &mut Tried<I>,
    faults: &mut Tried<F>,
) -> Result<Kept, ForwardRefusal>
where
    R: Threads + Wait + Sync,
    G: Observer,
    I: Read,
    F: Write,
    requires first { All (λ pair. pair.port < limits.ports) first }
    requires whole { has_failed reader.old ≡ false }
    requires unread { reads_of reader.old ≡ 0 }
    ensures ran { IfOk result (KeepsInput InTurn limits first G.waits
        (I.remaining (inner_of reader.old)) (I.remaining (inner_of reader.new)) (has_failed reader.new)) }
    ensures refused { IfErr result (RefusesTrace InTurn limits first
        (I.remaining (inner_of reader.old)) (I.remaining (inner_of reader.new))
        (has_failed reader.new) (unended_reads reader.old reader.new)) }
{
    let (ports, inputs) = dealt_rings(rt, alloc, limits.ports() as usize)?;
    let stops = Stops::new();
    let gate = NotingStops {
        gate: observer,
        stops: &stops,
    };
    let run = DealtRun {
        limits,
        first,
        gate: &gate,
        inputs,
        dealer: Dealer {
            rt,
            stops: &stops,
            ports,
            turn: 0,
        },
    };
    observer.begins(None);
    let end = deal_and_run(alloc, run, reader);
    let WholeEnd {
        mut dealer,
        mut ended,
    } = whole_end(limits.ports(), end, faults)?;
    compare_all(&mut ended.inputs, &mut dealer.ports);
    unstopped(alloc, ended.stops, ended.report, ended.outcomes)
}
