//! Room for what a run reports, made before its threads start.

ghost use Rattle.std.specs.Prelude.{◌≡◌, ◌<◌, ◌≤◌, ◌^◌, ℕ, [], All, IfOk, length, map, min, slice_index, slice_index_or};
ghost use Rattle.std.specs.Prelude.{vec_capacity, vec_len};
ghost use Rattle.gw_ports.specs.Reports.{sum_of_others};
ghost use Rattle.gw_ports.specs.Running.{AreRoomFor, HasRoomIn, HasRoomOut, IsRoomFor};

use super::drain::Drain;
use super::feed::{Done, Feed};
use super::gathering::{EgressPorts, IngressPorts};
use crate::{PortIn, PortOut};
use gw_ledger::{FrameCopy, Limits, Outcome};
use std::alloc::{AllocError, Global};

/// What the threads of a run begin with.
#[derive(Drop)]
pub(super) struct Prepared<I, O, C> {
    pub drains: Vec<Drain<C>>,
    pub drained: Vec<Drain<C>>,
    pub feeds: Vec<Feed<I, O>>,
    pub done: Vec<Done<I, O>>,
    pub ingress: IngressPorts<I, O>,
    pub egress: EgressPorts<C>,
    pub fronts: Vec<u32>,
}

/// The ports with what they are given, and room for what the threads hand back.
pub(super) fn prepare<I: Drop, O: Drop, C: Drop>(
    alloc: Global,
    ins: Vec<PortIn>,
    outs: Vec<PortOut>,
    inputs: Vec<I>,
    outcomes: Vec<O>,
    out: Vec<C>,
    batches: usize,
    waits: bool,
) -> Result<Prepared<I, O, C>, AllocError>
    requires ins { (vec_len inputs ≡ vec_len ins) × (vec_len outcomes ≡ vec_len ins) }
    requires outs { (vec_len outs ≡ vec_len ins) × (vec_len out ≡ vec_len outs) }
    ensures ports { IfOk result (λ p. map (λ o. o.port) p.feeds.items ≡ ins.items) }
    ensures inputs { IfOk result (λ p. map (λ o. o.input) p.feeds.items ≡ inputs.items) }
    ensures outcomes { IfOk result (λ p. map (λ o. o.outcomes) p.feeds.items ≡ outcomes.items) }
    ensures waits { IfOk result (λ p. All (λ o. o.waits ≡ waits) p.feeds.items) }
    ensures outs { IfOk result (λ p. map (λ t. t.port) p.drains.items ≡ outs.items) }
    ensures out { IfOk result (λ p. map (λ t. t.out) p.drains.items ≡ out.items) }
    ensures done { IfOk result (λ p. IsRoomFor (vec_len ins) p.done × IsRoomFor (vec_len ins) p.drained) }
    ensures fronts { IfOk result (λ p. IsRoomFor batches p.fronts) }
    ensures ingress { IfOk result (λ p. HasRoomIn (vec_len ins) p.ingress) }
    ensures egress { IfOk result (λ p. HasRoomOut (vec_len ins) p.egress) }
{
    let ports = ins.len();
    Ok(Prepared {
        drains: drains(alloc, outs, out)?,
        drained: Vec::with_capacity(alloc, ports)?,
        feeds: feeds(alloc, ins, inputs, outcomes, waits)?,
        done: Vec::with_capacity(alloc, ports)?,
        ingress: IngressPorts::with_room(alloc, ports)?,
        egress: EgressPorts::with_room(alloc, ports)?,
        fronts: Vec::with_capacity(alloc, batches)?,
    })
}

/// The ingress ports, with their inputs and sinks.
fn feeds<I: Drop, O: Drop>(
    alloc: Global,
    ins: Vec<PortIn>,
    inputs: Vec<I>,
    outcomes: Vec<O>,
    waits: bool,
) -> Result<Vec<Feed<I, O>>, AllocError>
    requires { (vec_len inputs ≡ vec_len ins) × (vec_len outcomes ≡ vec_len ins) }
    ensures ports { IfOk result (λ made. map (λ o. o.port) made.items ≡ ins.items) }
    ensures inputs { IfOk result (λ made. map (λ o. o.input) made.items ≡ inputs.items) }
    ensures outcomes { IfOk result (λ made. map (λ o. o.outcomes) made.items ≡ outcomes.items) }
    ensures waits { IfOk result (λ made. All (λ o. o.waits ≡ waits) made.items) }
{
    let mut feeds = Vec::with_capacity(alloc, ins.len())?;
    let mut inputs = inputs.into_iter();
    let mut sinks = outcomes.into_iter();
    for port in ins {
        let Some(input) = inputs.next() else {
            unreachable!()
        };
        let Some(outcomes) = sinks.next() else {
            unreachable!()
        };
        feeds.push_reserved(Feed {
            port,
            input,
            outcomes,
            waits,
        });
    }
    Ok(feeds)
}

/// The egress ports, with their sinks.
fn drains<C: Drop>(
    alloc: Global,
    outs: Vec<PortOut>,
    out: Vec<C>,
) -> Result<Vec<Drain<C>>, AllocError>
    requires { vec_len out ≡ vec_len outs }
    ensures ports { IfOk result (λ made. map (λ t. t.port) made.items ≡ outs.items) }
    ensures out { IfOk result (λ made. map (λ t. t.out) made.items ≡ out.items) }
{
    let mut drains = Vec::with_capacity(alloc, outs.len())?;
    let mut sinks = out.into_iter();
    for port in outs {
        let Some(out) = sinks.next() else {
            unreachable!()
        };
        drains.push_reserved(Drain { port, out });
    }
    Ok(drains)
}

/// Lists that keep what a run on inputs of these sizes reports.
pub(super) fn kept_lists(
    alloc: Global,
    limits: Limits,
    sizes: &[usize],
) -> Result<(Vec<Vec<Outcome>>, Vec<Vec<FrameCopy>>), AllocError>
    requires { length sizes.now ≤ 16 }
    ensures { IfOk result (λ lists. AreRoomFor limits.frames sizes.now lists.0.items lists.1.items) }
{
    Ok((
        outcome_lists(alloc, limits, sizes)?,
        copy_lists(alloc, limits, sizes)?,
    ))
}

/// For each ingress port, in order, an empty list to be its sink in `run_with`. It has room for the outcome of each frame that
/// the port can take. It fails where memory is refused.
pub fn outcome_lists(
    alloc: Global,
    limits: Limits,
    sizes: &[usize],
) -> Result<Vec<Vec<Outcome>>, AllocError>
    ensures count { IfOk result (λ lists. length lists.items ≡ length sizes.now) }
    ensures empty { IfOk result (λ lists. All (λ list. list.items ≡ []) lists.items) }
    ensures room { IfOk result (λ lists. map (λ list. vec_capacity list) lists.items
        ≡ map (λ size. min size limits.frames) sizes.now) }
{
    let mut lists = Vec::with_capacity(alloc, sizes.len())?;
    for port in 0..sizes.len() {
        lists.push_reserved(Vec::with_capacity(alloc, most_taken(limits, sizes[port]))?);
    }
    Ok(lists)
}

/// By egress port, an empty list with room for the copies that the other ports can enqueue.
fn copy_lists(
    alloc: Global,
    limits: Limits,
    sizes: &[usize],
) -> Result<Vec<Vec<FrameCopy>>, AllocError>
    requires few { length sizes.now ≤ 16 }
    ensures count { IfOk result (λ lists. length lists.items ≡ length sizes.now) }
    ensures empty { IfOk result (λ lists. All (λ list. list.items ≡ []) lists.items) }
    ensures room { IfOk result (λ lists. (k : ℕ) → k < length sizes.now
        → sum_of_others k (map (λ size. min size limits.frames) sizes.now)
        ≡ slice_index (map (λ list. vec_capacity list) lists.items) k) }
{
    let mut lists = Vec::with_capacity(alloc, sizes.len())?;
    for egress in 0..sizes.len() {
        lists.push_reserved(Vec::with_capacity(alloc, most_copies(limits, sizes, egress))?);
    }
    Ok(lists)
}

/// How many of so many frames a port takes at most.
fn most_taken(limits: Limits, size: usize) -> usize
    ensures value { result ≡ min size limits.frames }
    ensures few { result < 2 ^ 32 }
{
    size.min(limits.frames() as usize)
}

/// How many copies the other ports enqueue for an egress port at most.
fn most_copies(limits: Limits, sizes: &[usize], egress: usize) -> usize
    requires few { length sizes.now ≤ 16 }
    ensures { result ≡ sum_of_others egress (map (λ size. min size limits.frames) sizes.now) }
{
    let mut copies: usize = 0;
    for (port, size) in sizes.iter().enumerate() {
        if port != egress {
            copies += most_taken(limits, *size);
        }
    }
    copies
}
