//! A gateway that begins anew.

use crate::made::{ENGINE_SPEED, batch, returning};
use gw_core::{Answer, Core, Event, EventRefusal, RenewRefusal};
use gw_frame::Frame;
use gw_ledger::Limits;
use std::alloc::{AllocError, Global};
use std::process::Abort;
use std::test::Fail;

/// A claim of address 128, and a frame to it.
const CLAIM: [u8; 16] = [0x98, 0xEE, 0xFF, 0x80, 8, 0, 0, 0, 5, 0, 0, 0, 0, 0, 0, 0];

const TO_THE_CLAIMED: [u8; 16] = [
    0x98, 0xEF, 0x80, 0x34, 8, 0, 0, 0, 255, 255, 255, 255, 255, 255, 255, 255,
];

/// A frame of port 0 in one call: its number, and whether it is local and went to port 1.
fn forwarded(core: &mut Core, frame: Frame) -> Option<(u32, bool, bool)> {
    let outcome = core.forward(0, frame).ok()?;
    Some((outcome.number, outcome.local, outcome.placed.has(1)))
}

/// What is answered where a batch that passes all at a port is published.
fn publish(
    rt: &impl Abort,
    alloc: Global,
    core: &mut Core,
    port: u8,
) -> Result<Answer, EventRefusal> {
    core.event(Event::Publish(batch(rt, alloc, &[port], &returning(1))))
}

/// An unfinished frame and its copy must keep a gateway from beginning anew, until the copy is sent.
fn assert_renewed(rt: &impl Abort, core: &mut Core, claim: Frame) {
    assert!(rt; core.event(Event::Take(0, claim)).is_ok());
    assert!(rt; core.renew() == Err(RenewRefusal::Busy));
    assert!(rt; core.event(Event::Step(0)).is_ok());
    assert!(rt; core.event(Event::Step(0)).is_ok());
    assert!(rt; core.renew() == Err(RenewRefusal::CopiesWait));
    assert!(rt; matches!(core.next(1), Ok(Some(_))));
    assert!(rt; core.renew() == Ok(()));
}

/// A gateway that began anew must number from 0, and know the claims and policies from before.
fn assert_anew(rt: &impl Abort, core: &mut Core, local: Frame, engine: Frame) {
    assert!(rt; forwarded(core, local) == Some((0, true, false)));
    assert!(rt; forwarded(core, engine) == Some((1, false, true)));
    assert!(rt; core.forward(0, engine) == Err(EventRefusal::FramesSpent));
}

#[test]
fn a_gateway_begins_anew(rt: HostRuntime) -> Result<(), Fail> {
    let claim = Frame::read(&CLAIM)?;
    let local = Frame::read(&TO_THE_CLAIMED)?;
    let engine = Frame::read(&ENGINE_SPEED)?;
    let mut core = Core::new(rt.alloc(), Limits::new(2, 4, 1, 2)?)?;
    assert!(rt; publish(&rt, rt.alloc(), &mut core, 1).is_ok());
    assert_renewed(&rt, &mut core, claim);
    assert_anew(&rt, &mut core, local, engine);
    assert!(rt; publish(&rt, rt.alloc(), &mut core, 0) == Err(EventRefusal::VersionsSpent));
    Ok(())
}

const TEXTS: [(RenewRefusal, &str); 3] = [
    (
        RenewRefusal::Busy,
        "a frame is unfinished: step each port's frame to its end first",
    ),
    (
        RenewRefusal::CopiesWait,
        "a copy waits: send the copies of all ports first",
    ),
    (
        RenewRefusal::TooManyOwners,
        "a policy in force has too many owners: let one go",
    ),
];

#[test]
fn why_a_gateway_does_not(rt: HostRuntime) -> Result<(), AllocError> {
    for (why, told) in TEXTS {
        let text = format!(in rt.alloc(); "{why}")?;
        assert!(rt; text.as_str() == told);
    }
    assert!(rt; RenewRefusal::TooManyOwners.number() == 100);
    Ok(())
}
