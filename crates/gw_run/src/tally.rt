//! How many of the frames of a run became what on each lane.

ghost use Rattle.std.specs.Prelude.{◌≡◌, ◌≤◌, ◌<◌, ◌^◌, IfOk, List};
ghost use Rattle.gw_ledger.specs.Bounds.{Bounds};
ghost use Rattle.gw_policy.specs.Batches.{Pair};
ghost use Rattle.gw_ports.specs.Reports.{Ran};
ghost use Rattle.gw_run.specs.Tallies.{AreTallies, IsSaidOf, IsToldOf, lane_count, ledger_at, lost_at, sent_at};

use crate::losses::Losses;
use gw_ledger::{InLedger, OutLedger};
use gw_ports::{LaneLeft, Report};
use std::alloc::{AllocError, Global};

/// What is counted of a lane.
#[derive(Clone, Copy, Debug)]
pub(crate) enum Counted {
    /// The frames that its egress port's policy judged.
    Judged,
    /// Those of them that the policy let leave.
    Passed,
    /// Those of these that were copied to the lane.
    Placed,
    /// Those of these that were not copied, since the lane was full.
    Lost,
}

/// How many frames of an ingress port became what on the lane to an egress port.
#[derive(Clone, Copy)]
pub(crate) struct LaneTally {
    pub from: u8,
    pub to: u8,
    pub judged: u64,
    pub placed: u64,
    pub lost: u64,
}

impl LaneTally {
    /// How many frames are counted as that.
    pub fn count(&self, what: Counted) -> u128
        ensures count { result ≡ lane_count what self.now }
        ensures few { result < 2 ^ 65 }
    {
        let (placed, lost) = (u128::from(self.placed), u128::from(self.lost));
        match what {
            Counted::Judged => u128::from(self.judged),
            Counted::Passed => placed + lost,
            Counted::Placed => placed,
            Counted::Lost => lost,
        }
    }
}

/// The tally of each lane, by ingress port and then egress port, of what a gateway told at its end and what its ports lost.
pub(crate) fn lane_tallies(
    alloc: Global,
    report: &Report,
    losses: &[Losses],
) -> Result<Vec<LaneTally>, AllocError>
    ensures { (limits : Bounds) (first : List Pair) (ran : Ran) → limits.ports ≤ 16 → ran.report ≡ report.now
        → IsToldOf limits first ran losses.now → IfOk result (λ lanes. AreTallies limits.ports ran.outcomes lanes.items) }
{
    let mut tallies = Vec::with_capacity(alloc, report.lanes.len())?;
    for lane in &report.lanes {
        tallies.push_reserved(lane_tally(report, losses, lane));
    }
    Ok(tallies)
}

/// The tally of a lane on which these copies are left. All that its port placed was sent or is left. No sum of these passes 2^32:
/// a port takes fewer frames.
fn lane_tally(report: &Report, losses: &[Losses], lane: &LaneLeft) -> LaneTally
    ensures { IsSaidOf report.now losses.now lane.now result }
{
    let (from, to) = (lane.from, lane.to);
    let ledger = ledger_at(&report.ins, from);
    let sent = sent_at(&report.outs, from, to);
    LaneTally {
        from,
        to,
        judged: ledger.taken.saturating_sub(ledger.local),
        placed: sent.wrapping_add(lane.left.len() as u64),
        lost: lost_at(losses, from, to),
    }
}

/// What a port counted.
fn ledger_at(ledgers: &[InLedger], from: u8) -> InLedger
    ensures { result ≡ ledger_at from ledgers.now }
{
    match ledgers.get(usize::from(from)) {
        Some(ledger) => *ledger,
        None => InLedger::new(),
    }
}

/// How many copies were sent from a lane.
fn sent_at(ledgers: &[OutLedger], from: u8, to: u8) -> u64
    ensures { result ≡ sent_at from to ledgers.now }
{
    let ledger = match ledgers.get(usize::from(to)) {
        Some(ledger) => *ledger,
        None => OutLedger::new(),
    };
    match ledger.sent.get(usize::from(from)) {
        Some(sent) => *sent,
        None => 0,
    }
}

/// How many copies were lost on the way to a lane.
fn lost_at(losses: &[Losses], from: u8, to: u8) -> u64
    ensures { result ≡ lost_at from to losses.now }
{
    match losses.get(usize::from(from)) {
        Some(losses) => losses.to(to),
        None => 0,
    }
}
