//! The worked examples: batches, and what is in force.

use crate::made::{batch, frame, policy, returning};
use gw_frame::Frame;
use gw_policy::{Batch, BatchRefusal, Policy, PolicySet};
use std::alloc::Global;
use std::process::Abort;
use std::sync::Arc;
use std::test::Fail;

/// EEC1, an engine's speed.
const ENGINE_SPEED: u32 = 0x8CF00400;

/// A batch of sixteen ports, each with a program of its own.
fn sixteen_ports(rt: &impl Abort, alloc: Global) -> Batch {
    let mut batch = Batch::new();
    for port in 0..16 {
        let policy = policy(alloc, &returning(u32::from(port))).expect(rt, "a policy");
        assert!(rt; batch.add(port, policy).is_ok(), "port {port}");
    }
    batch
}

/// The number by which a policy that passes is refused for a port, where it comes back.
fn refused(rt: &impl Abort, batch: &mut Batch, port: u8, added: Arc<Policy>) -> Option<u32> {
    let Err(refusal) = batch.add(port, added) else {
        return None;
    };
    let number = refusal.number();
    let (BatchRefusal::SamePortTwice(back) | BatchRefusal::Full(back)) = refusal;
    let engine_speed = frame(ENGINE_SPEED).expect(rt, "a frame");
    back.verdict(&engine_speed, 0).then_some(number)
}

#[test]
fn a_batch_of_sixteen_ports(rt: HostRuntime) {
    let alloc = rt.alloc();
    let mut batch = sixteen_ports(&rt, alloc);
    assert!(rt; batch.len() == 16);
    for port in [0, 7, 15] {
        assert!(rt;
            batch
                .pair(usize::from(port))
                .is_some_and(|pair| pair.0 == port),
            "port {port}"
        );
    }
    assert!(rt; batch.pair(16).is_none());
    for (port, number) in [(15, 60), (16, 61)] {
        let pass = policy(alloc, &returning(1)).expect(&rt, "a policy");
        assert!(rt; refused(&rt, &mut batch, port, pass) == Some(number));
    }
}

/// A batch must come into force.
fn absorb(rt: &impl Abort, set: &mut PolicySet, batch: &Batch) {
    assert!(rt; set.absorb(batch).is_ok());
}

#[test]
fn sixteen_policies_and_none_in_force(rt: HostRuntime) {
    let mut set = PolicySet::new();
    absorb(&rt, &mut set, &sixteen_ports(&rt, rt.alloc()));
    absorb(&rt, &mut set, &Batch::new());
    assert!(rt; set.front() == 2);
    for port in 0..16 {
        assert!(rt; set.get(port).is_some(), "port {port}");
    }
}

/// Port 3 alone must have a policy, which passes the frame.
fn assert_only_3_passes(rt: &impl Abort, set: &PolicySet, frame: &Frame) {
    for port in 0..=255 {
        assert!(rt; set.verdict(port, frame, 0) == (port == 3), "port {port}");
        assert!(rt; set.get(port).is_some() == (port == 3), "port {port}");
    }
}

#[test]
fn the_set_in_force(rt: HostRuntime) -> Result<(), Fail> {
    let alloc = rt.alloc();
    let engine_speed = frame(ENGINE_SPEED)?;
    let mut set = PolicySet::new();
    assert!(rt; !set.verdict(3, &engine_speed, 0));
    assert!(rt; set.front() == 0);
    absorb(&rt, &mut set, &batch(&rt, alloc, &[3, 200], &returning(1)));
    assert!(rt; set.front() == 1);
    assert_only_3_passes(&rt, &set, &engine_speed);
    absorb(&rt, &mut set, &batch(&rt, alloc, &[3], &returning(0)));
    assert!(rt; set.front() == 2);
    assert!(rt; !set.verdict(3, &engine_speed, 0));
    assert!(rt; set.get(3).is_some());
    Ok(())
}
