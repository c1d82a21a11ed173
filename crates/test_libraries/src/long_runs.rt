//! What a body gets wrong only after many calls, at many ports, or in threads, and no contract says.

use crate::made::{batch, returning};
use crate::running::run_of;
use gw_board::{Operator, Watch, board};
use gw_ledger::{Limits, Outcome};
use gw_policy::{Batch, PolicySet};
use gw_ports::{Gate, RunReport};
use std::alloc::Global;
use std::marker::Sync;
use std::process::Abort;
use std::sync::Wait;
use std::sync::atomic::{AtomicBool, AtomicU32, Ordering};
use std::test::Fail;
use std::thread::{Threads, join, yield_now};

/// How many batches a board is given: more than a watch that looks seldom, or that stops, could miss.
const BATCHES: u32 = 1500;

/// How many batches a watch knows at its reading.
fn front(watch: &mut Watch) -> Option<u32> {
    watch.with(|set: &PolicySet| set.front()).ok()
}

/// Publishes a batch for port 1 on a board.
fn publish<R: Wait + Abort>(rt: &R, alloc: Global, operator: &mut Operator) -> Option<u32> {
    let batch = batch(rt, alloc, &[1], &returning(1));
    operator.replace(rt, batch).ok()
}

/// Each batch must be found by the reading behind it.
fn assert_found<R: Wait + Abort>(
    rt: &R,
    alloc: Global,
    operator: &mut Operator,
    watch: &mut Watch,
) {
    for published in 1..=BATCHES {
        assert!(rt; publish(rt, alloc, operator) == Some(published));
        assert!(rt; front(watch) == Some(published));
    }
}

#[test]
fn each_reading_finds_what_was_published_last(rt: HostRuntime) -> Result<(), Fail> {
    let (mut operator, mut watches) = board(rt.alloc(), Limits::new(2, 1, BATCHES, 1)?)?;
    let mut late = watches.pop().expect(&rt, "a watch");
    let mut watch = watches.pop().expect(&rt, "a watch");
    assert_found(&rt, rt.alloc(), &mut operator, &mut watch);
    assert!(rt; front(&mut late) == Some(BATCHES));
    operator.end(&rt);
    Ok(())
}

/// Publishes all batches, and shows each one's front once it is published.
fn publish_all<R: Wait + Abort>(rt: &R, alloc: Global, operator: &mut Operator, shown: &AtomicU32) {
    for _batch in 0..BATCHES {
        if let Some(front) = publish(rt, alloc, operator) {
            shown.store(front, Ordering::SeqCst);
        }
    }
}

/// Whether each reading knows at least what was shown before it, until all was.
fn reads_what_was_shown(watch: &mut Watch, shown: &AtomicU32) -> bool {
    for _reading in 0..1_000_000_000 {
        let published = shown.load(Ordering::SeqCst);
        if front(watch).is_none_or(|front| front < published) {
            return false;
        }
        if published == BATCHES {
            return true;
        }
        yield_now();
    }
    false
}

#[test]
fn a_reading_in_a_thread_finds_what_was_published_before(rt: HostRuntime) -> Result<(), Fail> {
    let alloc = rt.alloc();
    let (mut operator, mut watches) = board(alloc, Limits::new(2, 1, BATCHES, 1)?)?;
    let mut watch = watches.pop().expect(&rt, "a watch");
    let shown = AtomicU32::new(0);
    let ((), found) = join(
        &rt,
        || publish_all(&rt, alloc, &mut operator, &shown),
        || reads_what_was_shown(&mut watch, &shown),
    );
    assert!(rt; found);
    operator.end(&rt);
    Ok(())
}

/// Holds four ports in step: they offer their frames of an index at one time, and a batch is published between.
#[derive(Drop)]
struct Lockstep {
    entered: AtomicU32,
    left: AtomicU32,
    replaced: AtomicU32,
    is_late: AtomicBool,
}

impl Lockstep {
    fn new() -> Lockstep {
        Lockstep {
            entered: AtomicU32::new(0),
            left: AtomicU32::new(0),
            replaced: AtomicU32::new(0),
            is_late: AtomicBool::new(false),
        }
    }

    /// Waits until there were so many, and notes where they never come.
    fn wait_for(&self, count: &AtomicU32, least: usize) {
        for _turn in 0..1_000_000_000 {
            if count.load(Ordering::SeqCst) as usize >= least {
                return;
            }
            yield_now();
        }
        self.is_late.store(true, Ordering::SeqCst);
    }
}

impl Gate for Lockstep {
    ghost use Rattle.std.specs.Prelude.{false};

    ghost waits = { false };

    fn waits_for_room(&self) -> bool {
        false
    }

    fn enter(&self, _port: u8, index: usize) {
        self.wait_for(&self.replaced, index);
        self.entered.fetch_add(1, Ordering::SeqCst);
        self.wait_for(&self.entered, index.saturating_add(1).saturating_mul(4));
    }

    fn leave(&self, _port: u8, _index: usize) {
        self.left.fetch_add(1, Ordering::SeqCst);
    }

    fn before_replace(&self, index: usize) {
        self.wait_for(&self.left, index.saturating_add(1).saturating_mul(4));
    }

    fn replaced(&self, _index: usize) {
        self.replaced.fetch_add(1, Ordering::SeqCst);
    }
}

/// Five batches for port 1.
fn five_batches(rt: &impl Abort, alloc: Global) -> Vec<Batch> {
    let mut batches = Vec::new(alloc);
    for _batch in 0..5 {
        let batch = batch(rt, alloc, &[1], &returning(1));
        assert!(rt; batches.push(batch).is_ok());
    }
    batches
}

/// Whether there are six outcomes, each of the front behind its index.
fn are_in_step(outcomes: &[Outcome]) -> bool {
    outcomes.len() == 6
        && outcomes
            .iter()
            .zip(1..)
            .all(|(outcome, front)| outcome.front == front)
}

/// Each port's frame i must have been judged after batch i, and every copy taken out.
fn assert_in_step(rt: &impl Abort, ran: &RunReport) {
    assert!(rt; ran.fronts.as_slice() == [2, 3, 4, 5, 6].as_slice());
    assert!(rt; ran.outcomes.iter().all(|outcomes| are_in_step(outcomes)));
    assert!(rt; ran.out.iter().all(|copies| copies.len() == 18));
}

#[test]
fn four_ports_and_five_batches_in_step(rt: HostRuntime) -> Result<(), Fail> {
    let alloc = rt.alloc();
    let limits = Limits::new(4, 6, 6, 6)?;
    let first = batch(&rt, alloc, &[0, 1, 2, 3], &returning(1));
    let later = five_batches(&rt, alloc);
    let gate = Lockstep::new();
    let ran = run_of(&rt, alloc, limits, &[6, 6, 6, 6], first, later, &gate);
    assert_in_step(&rt, &ran.expect(&rt, "a run"));
    assert!(rt; !gate.is_late.load(Ordering::SeqCst));
    Ok(())
}

/// Lets other threads go on before each frame.
#[derive(Drop)]
struct Yielding;

impl Gate for Yielding {
    ghost use Rattle.std.specs.Prelude.{false};

    ghost waits = { false };

    fn waits_for_room(&self) -> bool {
        false
    }

    fn enter(&self, _port: u8, _index: usize) {
        for _turn in 0..100 {
            yield_now();
        }
    }

    fn leave(&self, _port: u8, _index: usize) {}

    fn before_replace(&self, _index: usize) {}

    fn replaced(&self, _index: usize) {}
}

/// How many of 1024 frames of port 0, all allowed at port 1, are taken out there.
fn taken_out<R: Threads + Wait + Sync + Abort>(
    rt: &R,
    alloc: Global,
    lane: u32,
) -> Result<usize, Fail> {
    let limits = Limits::new(2, lane, 1, 1024)?;
    let first = batch(rt, alloc, &[1], &returning(1));
    let ran = run_of(
        rt,
        alloc,
        limits,
        &[1024, 0],
        first,
        Vec::new(alloc),
        &Yielding,
    );
    let ran = ran.expect(rt, "a run");
    Ok(ran.out.get(1).map_or(0, |copies| copies.len()))
}

#[test]
fn a_lane_is_emptied_while_frames_come(rt: HostRuntime) -> Result<(), Fail> {
    assert!(rt; taken_out(&rt, rt.alloc(), 1)? > 1);
    Ok(())
}

#[test]
fn all_copies_of_a_long_lane_are_taken_out(rt: HostRuntime) -> Result<(), Fail> {
    assert!(rt; taken_out(&rt, rt.alloc(), 1024)? == 1024);
    Ok(())
}
