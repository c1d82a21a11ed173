//! Running a gateway in threads of its own.

ghost use Rattle.std.specs.Prelude.{◌≡◌, ◌<◌, ◌⊎◌, ℕ, List, IfErr, IfOk, OnOk, IsTrue, length, map, slice_index, slice_index_or};
ghost use Rattle.std.specs.Prelude.{vec_len};
ghost use Rattle.std.specs.Vec.Iter.{into_iter_items, into_iter_len, into_iter_steps};
ghost use Rattle.std.specs.Iterator.{UpTo};
ghost use Rattle.std.specs.declared.vec.IntoIter.{IntoIter};
ghost use Rattle.std.specs.declared.alloc.Global.{Global};
ghost use Rattle.gw_board.specs.Refusals.{PortsBelow};
ghost use Rattle.gw_policy.specs.Batches.{Pair};
ghost use Rattle.gw_ports.specs.Reports.{HasRoom, IsReport, IsReportOf, ran_of};
ghost use Rattle.gw_ports.specs.Running.{CanFeedAll};
ghost use Rattle.gw_ports.specs.Runs.{IsOpened, IsRun, IsRunWith, NoneLost, RefusesRun};
ghost use Rattle.gw_ports.specs.declared.running.RunRefusal.TheVariants.{OutOfMemory};

use crate::closing::{CloseRefusal, close_ends};
use crate::{Gate, MakeRefusal, OfferRefusal, Parts, Report, Sink};
use drain::{Work, start_drains};
use feed::Intake;
use gw_board::ReplaceRefusal;
use gw_frame::Frame;
use gw_ledger::{FrameCopy, Limits, Outcome};
use gw_policy::Batch;
use opening::open;
use publishing::Publishing;
use room::{Prepared, kept_lists, prepare};
use std::alloc::{AllocError, Global};
use std::error::Error;
use std::fmt;
use std::fmt::{Display, Formatter};
use std::marker::{Send, Sync};
use std::sync::Wait;
use std::thread::Threads;
use std::vec::IntoIter;

mod drain;
mod feed;
mod gathering;
mod opening;
mod publishing;
mod room;

pub use room::outcome_lists;

/// What a run did.
#[derive(Drop)]
pub struct RunReport {
    /// By port, what became of its frames, in order.
    pub outcomes: Vec<Vec<Outcome>>,
    /// By port, why it stopped before its frames were at an end.
    pub stops: Vec<Option<OfferRefusal>>,
    /// How many batches were published after each of the batches.
    pub fronts: Vec<u32>,
    /// Why the batch after those was not published.
    pub refused: Option<ReplaceRefusal>,
    /// By port, the copies that were taken out there, in order.
    pub out: Vec<Vec<FrameCopy>>,
    /// What the gateway was at its end.
    pub report: Report,
}

/// What a run did that handed its outcomes and copies to sinks.
#[derive(Drop)]
pub struct RunEnd<I, O, C> {
    /// By port, what is left of its input.
    pub inputs: Vec<I>,
    /// By port, the sink that took the outcomes of its frames, in order.
    pub outcomes: Vec<O>,
    /// By port, why it stopped before its frames were at an end.
    pub stops: Vec<Option<OfferRefusal>>,
    /// How many batches were published after each of the batches.
    pub fronts: Vec<u32>,
    /// Why the batch after those was not published.
    pub refused: Option<ReplaceRefusal>,
    /// By port, the sink that took the copies that were taken out there, in order.
    pub out: Vec<C>,
    /// What the gateway was at its end.
    pub report: Report,
}

/// Why there was no run, or no report of one.
#[derive(Clone, Copy, PartialEq, Eq, Debug)]
pub enum RunRefusal {
    /// 71, 80 or 83: the gateway was not made.
    NotMade(MakeRefusal),
    /// 81: the first batch names a port that the gateway does not have.
    NoSuchPort,
    /// 82: memory was refused for the first batch.
    NotPublished,
    /// 85: memory was refused for what the run is to report.
    OutOfMemory,
    /// 86: no thread could be started for a port.
    NoThread,
    /// 77: the policies in force could not be read at the close.
    NoReading,
}

impl RunRefusal {
    ghost use Rattle.gw_ports.specs.Runs.{run_refusal_number};

    /// The number by which the refusal is known outside: 71, 77, 80 to 83, 85 or 86.
    pub fn number(self) -> u32
        ensures { result ≡ run_refusal_number self }
    {
        match self {
            RunRefusal::NotMade(why) => why.number(),
            RunRefusal::NoSuchPort => 81,
            RunRefusal::NotPublished => 82,
            RunRefusal::OutOfMemory => 85,
            RunRefusal::NoThread => 86,
            RunRefusal::NoReading => 77,
        }
    }
}

impl Display for RunRefusal {
    fn fmt<W: fmt::Write>(&self, f: &mut Formatter<W>) -> fmt::Result {
        match self {
            RunRefusal::NotMade(why) => write!(f, "{why}"),
            RunRefusal::NoSuchPort => f.write_str(
                "the first batch names a port that the gateway does not have: name ports below its number of ports",
            ),
            RunRefusal::NotPublished => f.write_str(
                "no memory to publish the first batch: run again",
            ),
            RunRefusal::OutOfMemory => f.write_str(
                "no memory for the report: run again, on fewer frames",
            ),
            RunRefusal::NoThread => f.write_str(
                "no thread for a port: run again, with fewer ports",
            ),
            RunRefusal::NoReading => f.write_str(
                "the policies in force could not be read: run again",
            ),
        }
    }
}

impl Error for RunRefusal {}

/// Runs a gateway on lists of frames, one for each port: see `run_from`. It may wait.
pub fn run<R: Threads + Wait + Sync, G: Gate>(
    rt: &R,
    alloc: Global,
    limits: Limits,
    first: Batch,
    inputs: Vec<Vec<Frame>>,
    batches: Vec<Batch>,
    gate: &G,
) -> Result<RunReport, RunRefusal>
    requires { vec_len inputs ≡ limits.ports }
    ensures ran { IfOk result (λ report. (made rests : List (IntoIter (List ℕ) Global))
        × (map into_iter_items made ≡ map (λ list. list.items) inputs.items)
        × IsRun into_iter_steps limits first made batches.items rests (ran_of report)) }
    ensures reported { IfOk result (λ report.
        IsReport limits first (map (λ list. list.items) inputs.items) batches.items (ran_of report)) }
    ensures room { IfOk result (HasRoom limits.ports) }
    ensures ports { OnOk result (PortsBelow limits.ports first) }
    ensures none_lost { IsTrue G.waits → IfOk result (λ report. NoneLost (ran_of report)) }
    // Memory for the lists' iterators is wanted before the first batch is looked at.
    ensures refused { IfErr result (λ why. (why ≡ OutOfMemory) ⊎ RefusesRun limits first why) }
{
    let Ok((inputs, sizes)) = iterators(alloc, inputs) else {
        return Err(RunRefusal::OutOfMemory);
    };
    run_from(rt, alloc, limits, first, inputs, sizes, batches, gate)
}

// The lists as iterators, and their lengths.
fn iterators(
    alloc: Global,
    lists: Vec<Vec<Frame>>,
) -> Result<(Vec<IntoIter<Frame>>, Vec<usize>), AllocError>
    ensures count { IfOk result (λ made. (vec_len made.0 ≡ vec_len lists) × (vec_len made.1 ≡ vec_len lists)) }
    ensures items { IfOk result (λ made. map into_iter_items made.0.items ≡ map (λ list. list.items) lists.items) }
    ensures sizes { IfOk result (λ made. (k : ℕ) (d : _) → k < length made.0.items
        → into_iter_len (slice_index_or made.0.items k d) ≡ slice_index made.1.items k) }
{
    let mut inputs = Vec::with_capacity(alloc, lists.len())?;
    let mut sizes = Vec::with_capacity(alloc, lists.len())?;
    for list in lists {
        sizes.push(list.len())?;
        inputs.push(list.into_iter())?;
    }
    Ok((inputs, sizes))
}

/// Runs a gateway: publishes the first batch and tells each port; then a thread for each port offers the frames of its input,
/// a thread for every two ports takes copies out, and this one publishes the batches. `sizes` has how many frames an input
/// gives at most: the room for what is reported is made before a thread starts. It may wait.
pub fn run_from<R: Threads + Wait + Sync, G: Gate, I: Iterator<Item = Frame> + Send>(
    rt: &R,
    alloc: Global,
    limits: Limits,
    first: Batch,
    inputs: Vec<I>,
    sizes: Vec<usize>,
    batches: Vec<Batch>,
    gate: &G,
) -> Result<RunReport, RunRefusal>
    requires count { (vec_len inputs ≡ limits.ports) × (vec_len sizes ≡ limits.ports) }
    requires inputs { (k : ℕ) (d : I) → k < length inputs.items → I.can_next (slice_index_or inputs.items k d)
        × UpTo (I.remaining (slice_index_or inputs.items k d)) (slice_index sizes.items k) }
    ensures ran { IfOk result (λ report. (rests : List I)
        × IsRun I.next_gives limits first inputs.items batches.items rests (ran_of report)) }
    ensures reported { IfOk result (λ report. (rests : List I)
        × IsReportOf I.next_gives limits first inputs.items batches.items rests (ran_of report)) }
    ensures room { IfOk result (HasRoom limits.ports) }
    ensures ports { OnOk result (PortsBelow limits.ports first) }
    ensures none_lost { IsTrue G.waits → IfOk result (λ report. NoneLost (ran_of report)) }
    ensures refused { IfErr result (RefusesRun limits first) }
{
    let parts = match open(rt, alloc, limits, first) {
        Ok(parts) => parts,
        Err(why) => return Err(why),
    };
    let Ok((outcomes, out)) = kept_lists(alloc, limits, &sizes) else {
        parts.operator.end(rt);
        return Err(RunRefusal::OutOfMemory);
    };
    match run_opened(
        rt, alloc, limits, parts, inputs, outcomes, out, batches, gate,
    ) {
        Ok(ended) => Ok(RunReport {
            outcomes: ended.outcomes,
            stops: ended.stops,
            fronts: ended.fronts,
            refused: ended.refused,
            out: ended.out,
            report: ended.report,
        }),
        Err(why) => Err(why),
    }
}

/// Runs a gateway as `run_from` does, and hands what it would report to a sink of each port: to one of `outcomes` what became of
/// the frames that were taken there, and to one of `out` the copies that left there. So it takes no memory that grows with the
/// frames. It refuses as `run_from` does, and what it was given is dropped then. It may wait.
pub fn run_with<R, G, I, O, C>(
    rt: &R,
    alloc: Global,
    limits: Limits,
    first: Batch,
    inputs: Vec<I>,
    outcomes: Vec<O>,
    out: Vec<C>,
    batches: Vec<Batch>,
    gate: &G,
) -> Result<RunEnd<I, O, C>, RunRefusal>
where
    R: Threads + Wait + Sync,
    G: Gate,
    I: Iterator<Item = Frame> + Send,
    O: Sink<Outcome> + Send,
    C: Sink<FrameCopy> + Send,
    requires count { (vec_len inputs ≡ limits.ports) × (vec_len outcomes ≡ limits.ports) × (vec_len out ≡ limits.ports) }
    requires inputs { CanFeedAll I.can_next I.remaining O.room limits.frames inputs.items outcomes.items }
    ensures ran { IfOk result
        (IsRunWith I.next_gives O.takes C.takes G.waits limits first inputs.items outcomes.items out.items batches.items) }
    ensures ports { OnOk result (PortsBelow limits.ports first) }
    ensures refused { IfErr result (RefusesRun limits first) }
{
    match open(rt, alloc, limits, first) {
        Ok(parts) => run_opened(
            rt, alloc, limits, parts, inputs, outcomes, out, batches, gate,
        ),
        Err(why) => Err(why),
    }
}

// Runs a gateway whose ports know the first batch.
fn run_opened<R, G, I, O, C>(
    rt: &R,
    alloc: Global,
    limits: Limits,
    parts: Parts,
    inputs: Vec<I>,
    outcomes: Vec<O>,
    out: Vec<C>,
    batches: Vec<Batch>,
    gate: &G,
) -> Result<RunEnd<I, O, C>, RunRefusal>
where
    R: Threads + Wait + Sync,
    G: Gate,
    I: Iterator<Item = Frame> + Send,
    O: Sink<Outcome> + Send,
    C: Sink<FrameCopy> + Send,
    requires opened { (first : List Pair) × IsOpened limits first parts.operator parts.ins.items parts.outs.items }
    requires count { (vec_len inputs ≡ limits.ports) × (vec_len outcomes ≡ limits.ports) × (vec_len out ≡ limits.ports) }
    requires inputs { CanFeedAll I.can_next I.remaining O.room limits.frames inputs.items outcomes.items }
    ensures ran { (first : List Pair) → IsOpened limits first parts.operator parts.ins.items parts.outs.items
        → IfOk result
        (IsRunWith I.next_gives O.takes C.takes G.waits limits first inputs.items outcomes.items out.items batches.items) }
    ensures refused { (first : List Pair) → PortsBelow limits.ports first → IfErr result (RefusesRun limits first) }
{
    let Parts {
        operator,
        ins,
        outs,
    } = parts;
    let waits = gate.waits_for_room();
    let Ok(prepared) = prepare(
        alloc,
        ins,
        outs,
        inputs,
        outcomes,
        out,
        batches.len(),
        waits,
    ) else {
        operator.end(rt);
        return Err(RunRefusal::OutOfMemory);
    };
    let Prepared {
        drains,
        drained,
        feeds,
        done,
        ingress,
        egress,
        fronts,
    } = prepared;
    let work = Work {
        drains,
        drained,
        intake: Intake {
            feeds,
            done,
            publishing: Publishing {
                operator,
                batches,
                fronts,
            },
        },
    };
    let Some((drained, done, published)) = start_drains(rt, gate, limits.lane(), work) else {
        return Err(RunRefusal::NoThread);
    };
    let ingress = ingress.gather(done);
    let egress = egress.gather(drained);
    let parts = Parts {
        operator: published.operator,
        ins: ingress.ports,
        outs: egress.ports,
    };
    match close_ends(alloc, parts) {
        Ok((report, operator)) => {
            operator.end(rt);
            Ok(RunEnd {
                inputs: ingress.inputs,
                outcomes: ingress.outcomes,
                stops: ingress.stops,
                fronts: published.fronts,
                refused: published.refused,
                out: egress.out,
                report,
            })
        }
        Err(CloseRefusal::OutOfMemory(parts)) => {
            parts.operator.end(rt);
            Err(RunRefusal::OutOfMemory)
        }
        Err(CloseRefusal::NoReading(parts)) => {
            parts.operator.end(rt);
            Err(RunRefusal::NoReading)
        }
    }
}
