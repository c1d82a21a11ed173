//! The calls of the gateway between threads.

ghost use Rattle.std.specs.Prelude.{◌≡◌, IfOk};
ghost use Rattle.gw_ports.specs.Making.{AreOfOneGateway};

use crate::answer::Answer;
use crate::fault::Fault;
use crate::gateway::{limits_of, ready_limits};
use crate::inputs::{PASS, batch_of, frame_of, ready};
use gw_board::{Operator, ReplaceRefusal, board};
use gw_frame::Frame;
use gw_lanes::lanes;
use gw_ledger::Limits;
use gw_policy::Batch;
use gw_ports::{CloseRefusal, Parts, PortIn, PortOut, Report, close, gateway};
use std::alloc::Global;
use std::io::Write;
use std::sync::Wait;

pub fn make_board<W: Write>(alloc: Global, output: &mut W) -> Result<Answer, Fault> {
    match ready_limits(output) {
        Ok(limits) => Ok(count_watches(alloc, limits)),
        Err(fault) => Err(fault),
    }
}

/// How many watches such a gateway has.
fn count_watches(alloc: Global, limits: Limits) -> Answer {
    match board(alloc, limits) {
        Ok((_operator, watches)) => Answer::count(watches.len(), " watches"),
        Err(why) => Answer::refused(why.number()),
    }
}

pub fn make_lanes<W: Write>(alloc: Global, output: &mut W) -> Result<Answer, Fault> {
    match ready_limits(output) {
        Ok(limits) => Ok(count_lanes(alloc, limits)),
        Err(fault) => Err(fault),
    }
}

/// How many lanes such a gateway has.
fn count_lanes(alloc: Global, limits: Limits) -> Answer {
    match lanes(alloc, limits) {
        Ok(ends) => Answer::count(ends.ins.len(), " lanes"),
        Err(why) => Answer::refused(why.number()),
    }
}

pub fn make_gateway<W: Write>(alloc: Global, output: &mut W) -> Result<Answer, Fault> {
    match ready_limits(output) {
        Ok(limits) => Ok(count_ports(alloc, limits)),
        Err(fault) => Err(fault),
    }
}

/// How many ports such a gateway has.
fn count_ports(alloc: Global, limits: Limits) -> Answer {
    match gateway(alloc, limits) {
        Ok(parts) => Answer::count(parts.ins.len(), " ports"),
        Err(why) => Answer::refused(why.number()),
    }
}

/// The first batch of a gateway is published.
pub fn make_replace<R: Wait, W: Write>(
    rt: &R,
    alloc: Global,
    output: &mut W,
) -> Result<Answer, Fault> {
    match parts_of(alloc) {
        Ok(mut parts) => replace_first(rt, alloc, output, &mut parts.operator),
        Err(fault) => Err(fault),
    }
}

/// An operator publishes a policy that passes.
fn replace_first<R: Wait, W: Write>(
    rt: &R,
    alloc: Global,
    output: &mut W,
    operator: &mut Operator,
) -> Result<Answer, Fault> {
    match ready(output, batch_of(alloc, PASS)) {
        Ok(batch) => Ok(replace(rt, operator, batch)),
        Err(fault) => Err(fault),
    }
}

/// How many batches are published with this one, or why it is not.
fn replace<R: Wait>(rt: &R, operator: &mut Operator, batch: Batch) -> Answer {
    match operator.replace(rt, batch) {
        Ok(front) => Answer::Number("front ", u64::from(front), ""),
        Err(why) => not_replaced(&why, operator),
    }
}

/// Why the first batch was not published.
fn not_replaced(why: &ReplaceRefusal, operator: &Operator) -> Answer {
    match why {
        ReplaceRefusal::OutOfMemory(Some(back)) => {
            if back.len() == 1 && operator.tell().len() == 0 {
                Answer::Said("refused 82, the batch is back")
            } else {
                Answer::Said("refused 82, another batch is back")
            }
        }
        _ => Answer::refused(why.number()),
    }
}

/// Two copies wait on the lane from port 0 to port 3.
pub fn make_close<R: Wait, W: Write>(
    rt: &R,
    alloc: Global,
    output: &mut W,
) -> Result<Answer, Fault> {
    match ready(output, waiting(rt, alloc)) {
        Ok(parts) => Ok(closed(close(alloc, parts))),
        Err(fault) => Err(fault),
    }
}

/// What a gateway was at its end, or why it was not closed.
fn closed(end: Result<Report, CloseRefusal>) -> Answer {
    match end {
        Ok(report) => Answer::Number("closed, ", left_in(&report) as u64, " copies left"),
        Err(mut why) => not_closed(&mut why),
    }
}

/// Why a gateway was not closed.
fn not_closed(why: &mut CloseRefusal) -> Answer {
    match why {
        CloseRefusal::OutOfMemory(back) => Answer::Said(if are_waiting(back) {
            "refused 85, the parts are back"
        } else {
            "refused 85, other parts are back"
        }),
        _ => Answer::refused(why.number()),
    }
}

/// How many copies are left on all lanes.
fn left_in(report: &Report) -> usize {
    report
        .lanes
        .iter()
        .map(|lane| lane.left.len())
        .fold(0, usize::saturating_add)
}

/// The parts of a gateway in which two copies wait.
fn waiting<R: Wait>(rt: &R, alloc: Global) -> Result<Parts, Fault>
    ensures { IfOk result (λ parts. AreOfOneGateway parts.operator parts.ins.items parts.outs.items) }
{
    let Ok(mut parts) = parts_of(alloc) else {
        return Err(Fault::Unprepared);
    };
    if fill(rt, alloc, &mut parts) {
        Ok(parts)
    } else {
        Err(Fault::Unprepared)
    }
}

/// The parts of a gateway in which nothing was done.
fn parts_of(alloc: Global) -> Result<Parts, Fault>
    ensures { IfOk result (λ parts. AreOfOneGateway parts.operator parts.ins.items parts.outs.items) }
{
    let Ok(limits) = limits_of() else {
        return Err(Fault::Unprepared);
    };
    match gateway(alloc, limits) {
        Ok(parts) => Ok(parts),
        Err(_) => Err(Fault::Unprepared),
    }
}

/// Publishes a policy that passes, offers two frames at port 0, and says whether all was taken.
fn fill<R: Wait>(rt: &R, alloc: Global, parts: &mut Parts) -> bool
    requires { AreOfOneGateway parts.old.operator parts.old.ins.items parts.old.outs.items }
    ensures { AreOfOneGateway parts.new.operator parts.new.ins.items parts.new.outs.items }
{
    let Ok(frame) = frame_of() else {
        return false;
    };
    publish(rt, alloc, &mut parts.operator) && take(parts, frame) && take(parts, frame)
}

/// Publishes a policy that passes, and says whether it was taken.
fn publish<R: Wait>(rt: &R, alloc: Global, operator: &mut Operator) -> bool
    ensures board { operator.new.board ≡ operator.old.board }
    ensures ports { operator.new.ports ≡ operator.old.ports }
{
    match batch_of(alloc, PASS) {
        Ok(batch) => operator.replace(rt, batch).is_ok(),
        Err(_) => false,
    }
}

/// Offers a frame at port 0, and says whether it was taken.
fn take(parts: &mut Parts, frame: Frame) -> bool
    requires { AreOfOneGateway parts.old.operator parts.old.ins.items parts.old.outs.items }
    ensures { AreOfOneGateway parts.new.operator parts.new.ins.items parts.new.outs.items }
{
    if parts.ins.len() == 0 {
        return false;
    }
    parts.ins[0].offer(frame).is_ok()
}

/// Whether these are all the parts, and two copies wait.
fn are_waiting(parts: &mut Parts) -> bool {
    has_placed_two(&parts.ins)
        && match parts.outs.last_mut() {
            Some(last) => gives_two(last),
            None => false,
        }
}

/// Whether these are four ports, of which the first has placed two copies.
fn has_placed_two(ports: &[PortIn]) -> bool {
    match ports.first() {
        Some(first) => ports.len() == 4 && first.ledger().placed == 2,
        None => false,
    }
}

/// Whether two copies wait for a port.
fn gives_two(port: &mut PortOut) -> bool {
    port.next().is_some() && port.next().is_some() && port.next().is_none()
}
