//! The worked examples of a gateway whose ends are used in turn.

ghost use Rattle.std.specs.Prelude.{◌≡◌, All, map};
ghost use Rattle.gw_ports.specs.Ends.{end_in, end_out};
ghost use Rattle.gw_ports.specs.Making.{AreOfOneGateway};

use crate::made::{ENGINE_SPEED, Row, batch, bits, returning};
use gw_board::Told;
use gw_frame::Frame;
use gw_ledger::{FrameCopy, InLedger, Limits, balance};
use gw_policy::Batch;
use gw_ports::{OfferRefusal, Parts, PortIn, PortOut, Report, close, gateway};
use std::alloc::{AllocError, Global};
use std::process::Abort;
use std::sync::Wait;
use std::test::Fail;

/// Each port in learns what was told.
fn learn_all(ports: &mut [PortIn], told: &Told)
    requires { All (λ port. port.board ≡ told.now.board) ports.old }
    ensures { map end_in ports.new ≡ map end_in ports.old }
{
    for index in 0..ports.len() {
        ports[index].learn(told);
    }
}

/// The front that a batch is published with, which each port in learns.
fn publish<R: Wait>(rt: &R, parts: &mut Parts, batch: Batch) -> Option<u32>
    requires { AreOfOneGateway parts.old.operator parts.old.ins.items parts.old.outs.items }
    ensures { AreOfOneGateway parts.new.operator parts.new.ins.items parts.new.outs.items }
{
    let front = parts.operator.replace(rt, batch).ok();
    let told = parts.operator.tell();
    learn_all(&mut parts.ins, &told);
    front
}

/// The number, the front, and the allowed and placed ports, as the bits of numbers, of a frame that was offered.
pub type Offered = Result<(u32, u32, u32, u32), OfferRefusal>;

fn offer(from: &mut PortIn, frame: Frame) -> Offered
    ensures { end_in from.new ≡ end_in from.old }
{
    let outcome = from.offer(frame)?;
    Ok((
        outcome.number,
        outcome.front,
        bits(outcome.allowed),
        bits(outcome.placed),
    ))
}

/// The source and the number of a copy.
pub fn told(copy: Option<FrameCopy>) -> Option<(u8, u32)> {
    match copy {
        Some(copy) => Some((copy.from, copy.number)),
        None => None,
    }
}

/// The next copy, or that of one source.
fn next(to: &mut PortOut, from: Option<u8>) -> Option<(u8, u32)>
    ensures { end_out to.new ≡ end_out to.old }
{
    let Some(port) = from else {
        return told(to.next());
    };
    told(to.next_from(port))
}

/// Offers a frame at a port.
fn offer_at(parts: &mut Parts, port: usize, frame: Frame) -> Option<Offered>
    requires { AreOfOneGateway parts.old.operator parts.old.ins.items parts.old.outs.items }
    ensures { AreOfOneGateway parts.new.operator parts.new.ins.items parts.new.outs.items }
{
    if port >= parts.ins.len() {
        return None;
    }
    Some(offer(&mut parts.ins[port], frame))
}

/// The next copy at a port, or that of one source.
fn next_at(parts: &mut Parts, port: usize, from: Option<u8>) -> Option<(u8, u32)>
    requires { AreOfOneGateway parts.old.operator parts.old.ins.items parts.old.outs.items }
    ensures { AreOfOneGateway parts.new.operator parts.new.ins.items parts.new.outs.items }
{
    if port >= parts.outs.len() {
        return None;
    }
    next(&mut parts.outs[port], from)
}

/// A use of a gateway's end, and what comes of it.
#[derive(Clone, Copy)]
pub enum Use {
    /// The frame is offered at a port.
    Offer(usize, Offered),
    /// The next copy is taken at a port, or that of one source.
    Next(usize, Option<u8>, Option<(u8, u32)>),
}

/// Makes a use, and says whether that comes of it.
fn is_met(parts: &mut Parts, frame: Frame, using: Use) -> bool
    requires { AreOfOneGateway parts.old.operator parts.old.ins.items parts.old.outs.items }
    ensures { AreOfOneGateway parts.new.operator parts.new.ins.items parts.new.outs.items }
{
    match using {
        Use::Offer(port, expected) => offer_at(parts, port, frame) == Some(expected),
        Use::Next(port, from, expected) => next_at(parts, port, from) == expected,
    }
}

/// What comes of each use, one after another, must be what it says.
fn assert_met(rt: &impl Abort, parts: &mut Parts, uses: &[Use])
    requires { AreOfOneGateway parts.old.operator parts.old.ins.items parts.old.outs.items }
    ensures { AreOfOneGateway parts.new.operator parts.new.ins.items parts.new.outs.items }
{
    let frame = Frame::read(&ENGINE_SPEED).expect(rt, "a frame");
    for (index, using) in uses.iter().enumerate() {
        assert!(rt; is_met(parts, frame, *using), "use {index}");
    }
}

/// The parts of a gateway whose ports know a batch of one policy.
fn ready<R: Wait + Abort>(rt: &R, alloc: Global, limits: Limits, port: u8, rows: &[Row]) -> Parts
    ensures { AreOfOneGateway result.operator result.ins.items result.outs.items }
{
    let mut parts = gateway(alloc, limits).expect(rt, "a gateway");
    let batch = batch(rt, alloc, &[port], rows);
    assert!(rt; publish(rt, &mut parts, batch) == Some(1));
    parts
}

/// Lanes of one copy: room again, and the circle of sources at port 2.
pub const CIRCLE: [Use; 14] = [
    Use::Offer(0, Ok((0, 1, 0b100, 0b100))),
    Use::Offer(0, Ok((1, 1, 0b100, 0))),
    Use::Offer(1, Ok((0, 1, 0b100, 0b100))),
    Use::Next(2, None, Some((0, 0))),
    Use::Offer(0, Ok((2, 1, 0b100, 0b100))),
    Use::Next(2, None, Some((1, 0))),
    Use::Next(2, Some(1), None),
    Use::Next(2, Some(2), None),
    Use::Next(2, Some(3), None),
    Use::Next(2, Some(0), Some((0, 2))),
    Use::Next(2, None, None),
    Use::Offer(1, Ok((1, 1, 0b100, 0b100))),
    Use::Next(2, Some(1), Some((1, 1))),
    Use::Offer(0, Err(OfferRefusal::FramesSpent)),
];

#[test]
fn room_again_and_the_circle_of_sources(rt: HostRuntime) -> Result<(), Fail> {
    let limits = Limits::new(3, 1, 1, 3)?;
    let mut parts = ready(&rt, rt.alloc(), limits, 2, &returning(1));
    assert_met(&rt, &mut parts, &CIRCLE);
    Ok(())
}

/// A frame is offered at port 0, and its copy is taken at port 1, so many times.
fn turns(alloc: Global, count: u32) -> Result<Vec<Use>, AllocError> {
    let mut uses = Vec::new(alloc);
    for round in 0..count {
        uses.push(Use::Offer(0, Ok((round, 1, 0b10, 0b10))))?;
        uses.push(Use::Next(1, None, Some((0, round))))?;
    }
    Ok(uses)
}

#[test]
fn a_lane_of_one_copy_a_hundred_thousand_times(rt: HostRuntime) -> Result<(), Fail> {
    let limits = Limits::new(2, 1, 1, 100_000)?;
    let uses = turns(rt.alloc(), 100_000)?;
    let mut parts = ready(&rt, rt.alloc(), limits, 1, &returning(1));
    assert_met(&rt, &mut parts, &uses);
    Ok(())
}

/// How many frames a port offered before its offer beside all others in a round. The rounds begin at 1, and in each the port
/// of its number offers one first.
fn number_in(round: u8, port: u8) -> u32 {
    u32::from(round.saturating_sub(1)).saturating_add(u32::from(port <= round))
}

/// A frame of the round's port goes to port 0 alone. Then all others have one there, and the circle goes on behind it.
fn circle_behind(uses: &mut Vec<Use>, round: u8) -> Result<(), AllocError> {
    let first = u32::from(round.saturating_sub(1));
    uses.push(Use::Offer(usize::from(round), Ok((first, 1, 1, 1))))?;
    uses.push(Use::Next(0, None, Some((round, first))))?;
    for port in 1..16 {
        let offered = Ok((number_in(round, port), 1, 1, 1));
        uses.push(Use::Offer(usize::from(port), offered))?;
    }
    for port in (1..16).cycle().skip(usize::from(round)).take(15) {
        uses.push(Use::Next(0, None, Some((port, number_in(round, port)))))?;
    }
    Ok(())
}

/// The rounds of 15 ports.
pub fn circles(alloc: Global) -> Result<Vec<Use>, AllocError> {
    let mut uses = Vec::new(alloc);
    for round in 1..16 {
        circle_behind(&mut uses, round)?;
    }
    Ok(uses)
}

#[test]
fn sixteen_ports_and_each_source_in_its_turn(rt: HostRuntime) -> Result<(), Fail> {
    let limits = Limits::new(16, 1, 1, 16)?;
    let uses = circles(rt.alloc())?;
    let mut parts = ready(&rt, rt.alloc(), limits, 0, &returning(1));
    assert_met(&rt, &mut parts, &uses);
    Ok(())
}

/// `ld ifidx`, `ret a`: what port 0 took is blocked.
const TAKING_PORT: [Row; 2] = [(32, 0, 0, 0xFFFF_F008), (22, 0, 0, 0)];

const BLOCKED_FROM_0: [Use; 2] = [
    Use::Offer(0, Ok((0, 1, 0, 0))),
    Use::Offer(1, Ok((0, 1, 0b100, 0b100))),
];

#[test]
fn the_taking_port_is_handed_in(rt: HostRuntime) -> Result<(), Fail> {
    let limits = Limits::new(3, 4, 4, 10)?;
    let mut parts = ready(&rt, rt.alloc(), limits, 2, &TAKING_PORT);
    assert_met(&rt, &mut parts, &BLOCKED_FROM_0);
    Ok(())
}

/// The number by which a batch is refused.
fn refuse<R: Wait>(rt: &R, parts: &mut Parts, batch: Batch) -> Option<u32>
    requires { AreOfOneGateway parts.old.operator parts.old.ins.items parts.old.outs.items }
    ensures { AreOfOneGateway parts.new.operator parts.new.ins.items parts.new.outs.items }
{
    match parts.operator.replace(rt, batch) {
        Ok(_) => None,
        Err(why) => Some(why.number()),
    }
}

/// The numbers of the copies that wait on a lane at the close, oldest first.
fn numbers_left(alloc: Global, report: &Report, from: u8, to: u8) -> Result<Vec<u32>, AllocError> {
    let mut numbers = Vec::new(alloc);
    for lane in &report.lanes {
        if lane.from == from && lane.to == to {
            for copy in &lane.left {
                numbers.push(copy.number)?;
            }
        }
    }
    Ok(numbers)
}

fn is_balanced(report: &Report, left: u64) -> bool {
    report.ins.len() <= 16 && report.outs.len() <= 16 && balance(&report.ins, &report.outs, left)
}

/// The report must have these copies left on the lane from port 0 to port 1, and this count at port 0.
fn assert_report(
    rt: &impl Abort,
    alloc: Global,
    report: &Report,
    left: &[u32],
    counted: &InLedger,
) {
    let numbers = numbers_left(alloc, report, 0, 1).expect(rt, "memory");
    assert!(rt; numbers.as_slice() == left);
    assert!(rt; report.ins.first() == Some(counted));
    assert!(rt; is_balanced(report, left.len() as u64));
    assert!(rt; report.front == 1);
}

fn assert_closes(rt: &impl Abort, alloc: Global, parts: Parts, left: &[u32], counted: &InLedger)
    requires { AreOfOneGateway parts.operator parts.ins.items parts.outs.items }
{
    match close(alloc, parts) {
        Ok(report) => assert_report(rt, alloc, &report, left, counted),
        Err(_) => assert!(rt; false, "not closed"),
    }
}

/// Room for two frames at each port.
const TWO_FRAMES: [Use; 3] = [
    Use::Offer(0, Ok((0, 1, 0b10, 0b10))),
    Use::Offer(0, Ok((1, 1, 0b10, 0b10))),
    Use::Offer(0, Err(OfferRefusal::FramesSpent)),
];

const TWO_PLACED: InLedger = InLedger {
    taken: 2,
    local: 0,
    allowed: 2,
    placed: 2,
    lost: 0,
};

#[test]
fn a_gateway_by_hand_and_its_close(rt: HostRuntime) -> Result<(), Fail> {
    let limits = Limits::new(2, 4, 1, 2)?;
    let alloc = rt.alloc();
    let mut parts = gateway(alloc, limits)?;
    let no_port = batch(&rt, alloc, &[2], &returning(1));
    assert!(rt; refuse(&rt, &mut parts, no_port) == Some(81));
    let pass = batch(&rt, alloc, &[1], &returning(1));
    assert!(rt; publish(&rt, &mut parts, pass) == Some(1));
    assert_met(&rt, &mut parts, &TWO_FRAMES);
    let too_many = batch(&rt, alloc, &[1], &returning(1));
    assert!(rt; refuse(&rt, &mut parts, too_many) == Some(75));
    assert_met(&rt, &mut parts, &[Use::Next(1, None, Some((0, 0)))]);
    assert_closes(&rt, alloc, parts, &[1], &TWO_PLACED);
    Ok(())
}

/// Room for two copies in the lane, and for five frames at each port.
const FULL_LANE: [Use; 6] = [
    Use::Offer(0, Ok((0, 1, 0b10, 0b10))),
    Use::Offer(0, Ok((1, 1, 0b10, 0b10))),
    Use::Offer(0, Ok((2, 1, 0b10, 0))),
    Use::Offer(0, Ok((3, 1, 0b10, 0))),
    Use::Offer(0, Ok((4, 1, 0b10, 0))),
    Use::Offer(0, Err(OfferRefusal::FramesSpent)),
];

const THREE_LOST: InLedger = InLedger {
    taken: 5,
    local: 0,
    allowed: 5,
    placed: 2,
    lost: 3,
};

#[test]
fn a_full_lane_and_its_close(rt: HostRuntime) -> Result<(), Fail> {
    let limits = Limits::new(2, 2, 1, 5)?;
    let mut parts = ready(&rt, rt.alloc(), limits, 1, &returning(1));
    assert_met(&rt, &mut parts, &FULL_LANE);
    assert_closes(&rt, rt.alloc(), parts, &[0, 1], &THREE_LOST);
    Ok(())
}
