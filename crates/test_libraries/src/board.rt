//! The worked example, and readings that succeed, which no contract says.

ghost use Rattle.std.specs.Prelude.{◌≡◌};

use crate::made::{ENGINE_SPEED, batch, policy, returning};
use gw_board::{NoReading, Operator, ReplaceRefusal, Told, Watch, board};
use gw_frame::Frame;
use gw_ledger::Limits;
use gw_policy::{Batch, PolicySet};
use std::alloc::Global;
use std::process::Abort;
use std::sync::{Arc, Wait};
use std::test::Fail;
use std::thread::{Threads, join, spawn};

/// The front, and whether port 1 passes the frame.
type Reading = Result<(u32, bool), NoReading>;

fn read(watch: &mut Watch, frame: Frame) -> Reading {
    watch.with(|set: &PolicySet| (set.front(), set.verdict(1, &frame, 0)))
}

/// What a watch reads that was told.
fn read_told(mut watch: Watch, told: Told, frame: Frame) -> Reading
    requires { told.board ≡ watch.board }
{
    watch.learn(&told);
    read(&mut watch, frame)
}

/// The front that a batch was published with, and what a watch reads in another thread that is told of it.
fn publish_and_read<R: Threads + Wait>(
    rt: &R,
    operator: &mut Operator,
    batch: Batch,
    watch: Watch,
    frame: Frame,
) -> (Option<u32>, Option<Reading>)
    requires { operator.old.board ≡ watch.board }
{
    let front = operator.replace(rt, batch).ok();
    let told = operator.tell();
    let reader = spawn(
        rt,
        move || -> Reading
            requires { told.board ≡ watch.board }
        { read_told(watch, told, frame) },
    );
    match reader {
        Ok(reader) => (front, Some(reader.join(rt))),
        Err(_) => (front, None),
    }
}

/// Whether a batch for port 2 of 2 is refused for it, and comes back.
fn is_refused_for_port_2<R: Wait>(rt: &R, operator: &mut Operator, batch: Batch) -> bool
    ensures { operator.new.board ≡ operator.old.board }
{
    match operator.replace(rt, batch) {
        Err(ReplaceRefusal::NoSuchPort(back)) => back.pair(0).is_some_and(|pair| pair.0 == 2),
        _ => false,
    }
}

#[test]
fn a_told_watch_reads_in_another_thread(rt: HostRuntime) -> Result<(), Fail> {
    let frame = Frame::read(&ENGINE_SPEED)?;
    let (mut operator, mut watches) = board(rt.alloc(), Limits::new(2, 4, 1, 2)?)?;
    let no_port = batch(&rt, rt.alloc(), &[2], &returning(1));
    assert!(rt; is_refused_for_port_2(&rt, &mut operator, no_port));
    let pass = batch(&rt, rt.alloc(), &[1], &returning(1));
    let Some(watch) = watches.pop() else {
        panic!(rt; "no watch");
    };
    let (front, reading) = publish_and_read(&rt, &mut operator, pass, watch, frame);
    assert!(rt; front == Some(1));
    assert!(rt; reading == Some(Ok((1, true))));
    let too_many = batch(&rt, rt.alloc(), &[1], &returning(0));
    let second = operator.replace(&rt, too_many);
    assert!(rt; second.is_err_and(|refusal| refusal.number() == 75));
    operator.end(&rt);
    Ok(())
}

/// What two watches read that were told nothing: one beside the operator, after two batches, and one in another thread, once
/// a third batch was published in a thread that is joined.
fn read_untold<R: Threads + Wait + Sync>(
    rt: &R,
    operator: &mut Operator,
    batches: (Batch, Batch, Batch),
    watches: (Watch, Watch),
    frame: Frame,
) -> (Reading, Reading) {
    let (mut beside, mut elsewhere) = watches;
    let _ = operator.replace(rt, batches.0);
    let _ = operator.replace(rt, batches.1);
    let first = read(&mut beside, frame);
    join(rt, || operator.replace(rt, batches.2).ok(), || ());
    let (second, ()) = join(rt, || read(&mut elsewhere, frame), || ());
    (first, second)
}

#[test]
fn an_untold_watch_finds_what_is_published(rt: HostRuntime) -> Result<(), Fail> {
    let alloc = rt.alloc();
    let frame = Frame::read(&ENGINE_SPEED)?;
    let (mut operator, mut watches) = board(alloc, Limits::new(2, 4, 3, 2)?)?;
    let batches = (
        batch(&rt, alloc, &[1], &returning(1)),
        batch(&rt, alloc, &[1], &returning(0)),
        batch(&rt, alloc, &[1], &returning(1)),
    );
    let one = watches.pop().expect(&rt, "a watch");
    let other = watches.pop().expect(&rt, "a watch");
    let (beside, elsewhere) = read_untold(&rt, &mut operator, batches, (one, other), frame);
    assert!(rt; beside == Ok((2, false)));
    assert!(rt; elsewhere == Ok((3, true)));
    Ok(())
}

/// Publishes three batches that give port 1 another policy.
fn replace_three_times<R: Wait + Abort>(rt: &R, alloc: Global, operator: &mut Operator) {
    for _ in 0..3 {
        let block = batch(rt, alloc, &[1], &returning(0));
        assert!(rt; operator.replace(rt, block).is_ok());
    }
}

#[test]
fn a_replaced_policy_goes_with_its_last_reader(rt: HostRuntime) -> Result<(), Fail> {
    let alloc = rt.alloc();
    let frame = Frame::read(&ENGINE_SPEED)?;
    let (mut operator, mut watches) = board(alloc, Limits::new(2, 4, 4, 2)?)?;
    let mut watch = watches.pop().expect(&rt, "a watch");
    let pass = policy(alloc, &returning(1)).expect(&rt, "a policy");
    let mut first = Batch::new();
    let owner = Arc::try_clone(&pass).expect(&rt, "an owner");
    assert!(rt; first.add(1, owner).is_ok());
    assert!(rt; operator.replace(&rt, first).is_ok());
    assert!(rt; read(&mut watch, frame) == Ok((1, true)));
    // Beside the test the operator, the board and the watch have it.
    assert!(rt; Arc::strong_count(&pass) == 4);
    replace_three_times(&rt, alloc, &mut operator);
    assert!(rt; Arc::strong_count(&pass) == 2);
    assert!(rt; read(&mut watch, frame) == Ok((4, false)));
    assert!(rt; Arc::strong_count(&pass) == 1);
    operator.end(&rt);
    Ok(())
}
