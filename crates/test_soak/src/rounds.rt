//! Rounds of one call, timed. Each answer is the least time of many rounds, in tenths of a nanosecond a call.

use crate::ends::{open, publish};
use crate::fault::Fault;
use crate::policies::{for_each, for_ports};
use gw_board::{Watch, board};
use gw_frame::Frame;
use gw_ledger::Limits;
use gw_policy::{Batch, Policy, PolicySet};
use gw_ports::{Parts, PortIn, PortOut};
use std::alloc::Global;
use std::sync::{Arc, Wait};
use std::time::{Clock, Instant};

/// How many rounds there are.
const ROUNDS: u32 = 500;

/// The greatest room of a lane. So a round of as many frames fills no lane.
const LANE: u32 = 1024;

/// The tenths of a nanosecond since a time, for each of so many calls.
fn tenths_since<R: Clock>(rt: &R, start: Instant, calls: u64) -> Result<u64, Fault> {
    let nanoseconds = u64::try_from(start.elapsed(rt)?.as_nanos()).unwrap_or(u64::MAX);
    Ok(nanoseconds.saturating_mul(10) / calls.max(1))
}

/// The parts of a gateway of so many ports, each with the policy.
pub fn opened<R: Wait>(
    rt: &R,
    alloc: Global,
    ports: u8,
    policy: &Arc<Policy>,
) -> Result<Parts, Fault> {
    opened_with(rt, alloc, ports, for_ports(ports, policy)?)
}

/// The parts of a gateway of so many ports that begins with a batch.
fn opened_with<R: Wait>(rt: &R, alloc: Global, ports: u8, first: Batch) -> Result<Parts, Fault> {
    let limits = Limits::new(u32::from(ports), LANE, 65535, u32::MAX).map_err(|_| Fault::TooMany)?;
    open(rt, alloc, limits, first)
}

/// Takes all copies out at a port, and answers how many there were.
pub fn drain(port: &mut PortOut) -> u64 {
    let mut copies: u64 = 0;
    for _ in 0..u64::MAX {
        if port.next().is_none() {
            break;
        }
        copies = copies.wrapping_add(1);
    }
    copies
}

/// Takes all copies out at each port.
fn drain_all(ports: &mut [PortOut]) {
    for port in ports.iter_mut() {
        drain(port);
    }
}

/// The time of a `next` where all copies are taken out.
fn time_drain<R: Clock>(rt: &R, port: &mut PortOut) -> Result<u64, Fault> {
    let start = Instant::now(rt)?;
    let copies = drain(port);
    tenths_since(rt, start, copies)
}

/// An offer at the first of so many ports that have these policies, and the verdicts of its frame for the others, one by one.
pub fn time_offers<R: Wait + Clock>(
    rt: &R,
    alloc: Global,
    ports: u8,
    policies: &[Arc<Policy>],
    frames: &[Frame],
) -> Result<(u64, u64), Fault> {
    let set = set_of(policies)?;
    let mut parts = opened_with(rt, alloc, ports, for_each(policies)?)?;
    offer_rounds(rt, &mut parts.ins, &mut parts.outs, &set, ports, frames)
}

/// The policies in force where the ports have these policies.
fn set_of(policies: &[Arc<Policy>]) -> Result<PolicySet, Fault> {
    let mut set = PolicySet::new();
    set.absorb(&for_each(policies)?)?;
    Ok(set)
}

/// The least times of an offer at the first port, and of the verdicts of a set for the others.
fn offer_rounds<R: Clock>(
    rt: &R,
    ins: &mut [PortIn],
    outs: &mut [PortOut],
    set: &PolicySet,
    ports: u8,
    frames: &[Frame],
) -> Result<(u64, u64), Fault> {
    let Some(port) = ins.first_mut() else {
        return Err(Fault::Unprepared);
    };
    let (mut offers, mut verdicts) = (u64::MAX, u64::MAX);
    for _ in 0..ROUNDS {
        let (offering, allowed) = offer_round(rt, port, frames)?;
        let (judging, passed) = judge_round(rt, set, ports, frames)?;
        if allowed > passed {
            return Err(Fault::Disagrees);
        }
        offers = offers.min(offering);
        verdicts = verdicts.min(judging);
        drain_all(outs);
    }
    Ok((offers, verdicts))
}

/// The time of an offer of each frame, and how many ports were allowed to them.
fn offer_round<R: Clock>(rt: &R, port: &mut PortIn, frames: &[Frame]) -> Result<(u64, u64), Fault> {
    let mut allowed: u64 = 0;
    let start = Instant::now(rt)?;
    for frame in frames {
        let Ok(outcome) = port.offer(*frame) else {
            return Err(Fault::Unprepared);
        };
        allowed = allowed.wrapping_add(u64::from(outcome.allowed.len()));
    }
    Ok((tenths_since(rt, start, frames.len() as u64)?, allowed))
}

/// The time of the verdicts of each frame for the ports but port 0, and how many pass.
fn judge_round<R: Clock>(
    rt: &R,
    set: &PolicySet,
    ports: u8,
    frames: &[Frame],
) -> Result<(u64, u64), Fault> {
    let mut passed: u64 = 0;
    let start = Instant::now(rt)?;
    for frame in frames {
        passed = passed.wrapping_add(passing(set, ports, frame));
    }
    Ok((tenths_since(rt, start, frames.len() as u64)?, passed))
}

fn passing(set: &PolicySet, ports: u8, frame: &Frame) -> u64 {
    let mut passed: u64 = 0;
    for port in 1..ports {
        passed = passed.wrapping_add(u64::from(set.verdict(port, frame, 0)));
    }
    passed
}

/// A `next` at port 0, where copies of each other port wait.
pub fn time_sendings<R: Wait + Clock>(
    rt: &R,
    alloc: Global,
    ports: u8,
    policy: &Arc<Policy>,
    frames: &[Frame],
) -> Result<u64, Fault> {
    let mut parts = opened(rt, alloc, ports, policy)?;
    send_rounds(rt, &mut parts.ins, &mut parts.outs, frames)
}

/// The least time of a `next` at the first port.
fn send_rounds<R: Clock>(
    rt: &R,
    ins: &mut [PortIn],
    outs: &mut [PortOut],
    frames: &[Frame],
) -> Result<u64, Fault> {
    let mut sendings = u64::MAX;
    for _ in 0..ROUNDS {
        for port in ins.iter_mut() {
            offer_round(rt, port, frames)?;
        }
        if let Some(first) = outs.first_mut() {
            sendings = sendings.min(time_drain(rt, first)?);
        }
        drain_all(outs);
    }
    Ok(sendings)
}

/// A reading of the board, of which a batch is published.
pub fn time_readings<R: Wait + Clock>(
    rt: &R,
    alloc: Global,
    policy: &Arc<Policy>,
) -> Result<u64, Fault> {
    let limits = Limits::new(2, 1, 1, 1).map_err(|_| Fault::TooMany)?;
    let batch = for_ports(2, policy)?;
    let Ok((mut operator, mut watches)) = board(alloc, limits) else {
        return Err(Fault::Unprepared);
    };
    publish(rt, &mut operator, batch)?;
    let readings = read_rounds(rt, &mut watches);
    operator.end(rt);
    readings
}

/// The least time of a reading by the last watch.
fn read_rounds<R: Clock>(rt: &R, watches: &mut [Watch]) -> Result<u64, Fault> {
    let Some(watch) = watches.last_mut() else {
        return Err(Fault::Unprepared);
    };
    let mut readings = u64::MAX;
    for _ in 0..ROUNDS {
        let start = Instant::now(rt)?;
        for _ in 0..1000 {
            if watch.with(|set: &PolicySet| set.front()) != Ok(1) {
                return Err(Fault::Disagrees);
            }
        }
        readings = readings.min(tenths_since(rt, start, 1000)?);
    }
    Ok(readings)
}
