//! A run of a gateway on inputs of any kind, and on the lists of a log's frames.

ghost use Rattle.std.specs.Prelude.{◌≡◌, ◌≤◌, ◌<◌, ◌⊎◌, ℕ, List, map, slice_index_or, vec_len};
ghost use Rattle.std.specs.Prelude.{IfOk, IfErr, IfNone, IfSome, All};
ghost use Rattle.std.specs.Iterator.{IsFinite};
ghost use Rattle.std.specs.Vec.Iter.{into_iter_items};
ghost use Rattle.gw_run.specs.Forwarding.{EndsRun, IsFirstStop, IsListRun, IsRunOver, IsStopOf};
ghost use Rattle.gw_run.specs.Forwarding.{KeepsRun, NoneStopped, RefusesInputs};
ghost use Rattle.gw_run.specs.Tallies.{AreTallies, IsToldOf};
ghost use Rattle.gw_ledger.specs.Bounds.{Bounds};
ghost use Rattle.gw_policy.specs.Batches.{Pair};
ghost use Rattle.gw_ports.specs.Reports.{Ran};
ghost use Rattle.gw_answers.specs.declared.refusal.Refusal.TheVariants.{OutOfMemory};
ghost use Rattle.gw_run.specs.declared.refusal.ForwardRefusal.TheVariants.{Command};

use crate::kept::{Kept, NoCopies, no_copies};
use crate::losses::{Losses, no_losses};
use crate::observing::Observer;
use crate::refusal::ForwardRefusal;
use crate::tally::lane_tallies;
use gw_frame::Frame;
use gw_ledger::Limits;
use gw_policy::Batch;
use gw_ports::{Gate, OfferRefusal, Report, RunEnd, run_with};
use std::alloc::{AllocError, Global};
use std::marker::{Send, Sync};
use std::sync::Wait;
use std::thread::Threads;
use std::vec::IntoIter;

/// Offers each port the frames of its list, and tells what became of them: see `run_inputs`. It may wait.
pub(crate) fn run_lists<R: Threads + Wait + Sync, G: Observer>(
    rt: &R,
    alloc: Global,
    limits: Limits,
    first: Batch,
    lists: Vec<Vec<Frame>>,
    observer: &G,
) -> Result<Kept, ForwardRefusal>
    requires lists { vec_len lists ≡ limits.ports }
    requires first { All (λ pair. pair.port < limits.ports) first }
    ensures ran { IfOk result
        (KeepsRun limits.ports (IsListRun limits first (map (λ list. list.items) lists.items)) G.waits) }
    ensures refused { IfErr result
        (RefusesInputs (IsListRun limits first (map (λ list. list.items) lists.items)) limits first) }
{
    let inputs = iterators(alloc, lists)?;
    run_inputs(rt, alloc, limits, first, inputs, observer)
}

/// Offers each port the frames of its input, and tells what became of them. A port that stopped is a refusal, the least port's
/// first. It may wait.
fn run_inputs<R: Threads + Wait + Sync, G: Observer, I: Iterator<Item = Frame> + Send>(
    rt: &R,
    alloc: Global,
    limits: Limits,
    first: Batch,
    inputs: Vec<I>,
    observer: &G,
) -> Result<Kept, ForwardRefusal>
    requires count { vec_len inputs ≡ limits.ports }
    requires inputs { (port : ℕ) (d : I) → port < limits.ports → I.can_next (slice_index_or inputs.items port d)
        × IsFinite (I.remaining (slice_index_or inputs.items port d)) }
    requires first { All (λ pair. pair.port < limits.ports) first }
    ensures ran { IfOk result (KeepsRun limits.ports (IsRunOver I.next_gives limits first inputs.items) G.waits) }
    ensures refused { IfErr result (RefusesInputs (IsRunOver I.next_gives limits first inputs.items) limits first) }
{
    let ended = run_over(rt, alloc, limits, first, inputs, observer)?;
    unstopped(alloc, ended.stops, ended.report, ended.outcomes)
}

/// Offers each port the frames of its input, and counts what became of them. It may wait.
pub(crate) fn run_over<R: Threads + Wait + Sync, G: Gate, I: Iterator<Item = Frame> + Send>(
    rt: &R,
    alloc: Global,
    limits: Limits,
    first: Batch,
    inputs: Vec<I>,
    observer: &G,
) -> Result<RunEnd<I, Losses, NoCopies>, ForwardRefusal>
    requires count { vec_len inputs ≡ limits.ports }
    requires inputs { (port : ℕ) (d : I) → port < limits.ports → I.can_next (slice_index_or inputs.items port d)
        × IsFinite (I.remaining (slice_index_or inputs.items port d)) }
    requires first { All (λ pair. pair.port < limits.ports) first }
    ensures ran { IfOk result (EndsRun I.next_gives limits first inputs.items G.waits) }
    ensures refused { IfErr result (RefusesInputs (λ ran. ⊥) limits first) }
{
    let losses = no_losses(alloc, limits.ports() as u8)?;
    let out = no_copies(alloc, limits.ports() as usize)?;
    let batches = Vec::new(alloc);
    match run_with(
        rt, alloc, limits, first, inputs, losses, out, batches, observer,
    ) {
        Ok(ended) => Ok(ended),
        Err(why) => Err(ForwardRefusal::Run(why)),
    }
}

/// What is kept of a run of which no port stopped. A port that stopped is a refusal, the least port's first.
pub(crate) fn unstopped(
    alloc: Global,
    stops: Vec<Option<OfferRefusal>>,
    report: Report,
    losses: Vec<Losses>,
) -> Result<Kept, ForwardRefusal>
    ensures ledgers { IfOk result (λ kept. (kept.ledgers ≡ report.ins) × NoneStopped stops.items) }
    ensures lanes { (limits : Bounds) (first : List Pair) (ran : Ran) → limits.ports ≤ 16 → ran.report ≡ report
        → IsToldOf limits first ran losses.items → IfOk result (λ kept. AreTallies limits.ports ran.outcomes kept.lanes.items) }
    ensures stopped { IfErr result (λ refusal. IsStopOf stops.items refusal ⊎ (refusal ≡ Command OutOfMemory)) }
{
    if let Some((port, why)) = first_stop(&stops) {
        return Err(ForwardRefusal::Stopped { port, why });
    }
    let lanes = lane_tallies(alloc, &report, &losses)?;
    Ok(Kept {
        ledgers: report.ins,
        lanes,
    })
}

/// The lists as iterators.
fn iterators(alloc: Global, lists: Vec<Vec<Frame>>) -> Result<Vec<IntoIter<Frame>>, AllocError>
    ensures count { IfOk result (λ made. vec_len made ≡ vec_len lists) }
    ensures items { IfOk result (λ made. map into_iter_items made.items ≡ map (λ list. list.items) lists.items) }
{
    let mut inputs = Vec::with_capacity(alloc, lists.len())?;
    for list in lists {
        inputs.push(list.into_iter())?;
    }
    Ok(inputs)
}

/// The least port that stopped, and why.
fn first_stop(stops: &[Option<OfferRefusal>]) -> Option<(usize, OfferRefusal)>
    ensures none { IfNone result (NoneStopped stops.now) }
    ensures first { IfSome result (λ stop. IsFirstStop stops.now stop.0 stop.1) }
{
    for port in 0..stops.len() {
        if let Some(why) = stops[port] {
            return Some((port, why));
        }
    }
    None
}

/// How many frames the lists have.
pub(crate) fn frame_count(lists: &[Vec<Frame>]) -> usize {
    let mut frames = 0usize;
    for list in lists {
        frames = frames.saturating_add(list.len());
    }
    frames
}
