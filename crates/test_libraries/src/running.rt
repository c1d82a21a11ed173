//! The worked examples of a gateway that runs in threads of its own.

ghost use Rattle.std.specs.Prelude.{◌≡◌, ◌≤◌, All, IfOk, length, vec_len};
ghost use Rattle.std.specs.Iterator.Adapters.{repeat_n_count};

use crate::made::{ENGINE_SPEED, batch, bits, returning};
use gw_frame::Frame;
use gw_ledger::{FrameCopy, Limits, Outcome};
use gw_policy::Batch;
use gw_ports::{Gate, OfferRefusal, RunRefusal, RunReport, run, run_from};
use std::alloc::{AllocError, Global};
use std::iter::{RepeatN, repeat_n};
use std::marker::Sync;
use std::process::Abort;
use std::sync::Wait;
use std::sync::atomic::{AtomicBool, Ordering};
use std::test::Fail;
use std::thread::{Threads, yield_now};

/// The gate of the worked example: both ports offer their first frame at one time, then the batch is published, then port 1
/// offers its second frame, and port 0 its own.
#[derive(Drop)]
struct InTurn {
    entered: [AtomicBool; 2],
    left: [AtomicBool; 2],
    is_replaced: AtomicBool,
    has_left_again: AtomicBool,
    is_late: AtomicBool,
}

impl InTurn {
    fn new() -> InTurn {
        InTurn {
            entered: [AtomicBool::new(false), AtomicBool::new(false)],
            left: [AtomicBool::new(false), AtomicBool::new(false)],
            is_replaced: AtomicBool::new(false),
            has_left_again: AtomicBool::new(false),
            is_late: AtomicBool::new(false),
        }
    }

    /// Waits for a flag, and notes where it came too late.
    fn wait_for(&self, flag: &AtomicBool) {
        for _turn in 0..1_000_000_000 {
            if flag.load(Ordering::SeqCst) {
                return;
            }
            yield_now();
        }
        self.is_late.store(true, Ordering::SeqCst);
    }
}

impl Gate for InTurn {
    ghost use Rattle.std.specs.Prelude.{false};

    ghost waits = { false };

    fn waits_for_room(&self) -> bool {
        false
    }

    fn enter(&self, port: u8, index: usize) {
        match (port, index) {
            (0, 0) => {
                self.entered[0].store(true, Ordering::SeqCst);
                self.wait_for(&self.entered[1]);
            }
            (1, 0) => {
                self.entered[1].store(true, Ordering::SeqCst);
                self.wait_for(&self.entered[0]);
            }
            (_, 1) => {
                self.wait_for(&self.is_replaced);
                if port == 0 {
                    self.wait_for(&self.has_left_again);
                }
            }
            _ => {}
        }
    }

    fn leave(&self, port: u8, index: usize) {
        match (port, index) {
            (0, 0) => self.left[0].store(true, Ordering::SeqCst),
            (1, 0) => self.left[1].store(true, Ordering::SeqCst),
            (1, 1) => self.has_left_again.store(true, Ordering::SeqCst),
            _ => {}
        }
    }

    fn before_replace(&self, index: usize) {
        if index == 0 {
            self.wait_for(&self.left[0]);
            self.wait_for(&self.left[1]);
        }
    }

    fn replaced(&self, index: usize) {
        if index == 0 {
            self.is_replaced.store(true, Ordering::SeqCst);
        }
    }
}

/// Lists of frames, with as many of one frame for each port.
fn inputs_of(alloc: Global, frame: Frame, counts: &[usize]) -> Result<Vec<Vec<Frame>>, AllocError>
    ensures { IfOk result (λ inputs. vec_len inputs ≡ length counts.now) }
{
    let mut inputs = Vec::new(alloc);
    for count in counts {
        let mut frames = Vec::new(alloc);
        for _frame in 0..*count {
            frames.push(frame)?;
        }
        inputs.push(frames)?;
    }
    Ok(inputs)
}

/// The number, front, allowed and placed ports of an outcome.
type Told = (u32, u32, u32, u32);

/// What becomes of the frames of each port.
const OUTCOMES: [&[Told]; 3] = [
    &[(0, 1, 0b110, 0b110), (1, 2, 0b010, 0b010)],
    &[(0, 1, 0b101, 0b101), (1, 2, 0b001, 0b001)],
    &[],
];

/// The copies that leave: at which port, from which, and their numbers in order.
const COPIES: [(usize, u8, &[u32]); 4] = [
    (1, 0, &[0, 1]),
    (0, 1, &[0, 1]),
    (2, 0, &[0]),
    (2, 1, &[0]),
];

fn told(outcome: &Outcome) -> Told {
    let Outcome {
        number,
        front,
        allowed,
        placed,
        ..
    } = *outcome;
    (number, front, bits(allowed), bits(placed))
}

/// The numbers of the copies from a port, in order.
fn numbers_from(alloc: Global, out: &[FrameCopy], from: u8) -> Result<Vec<u32>, AllocError> {
    let mut numbers = Vec::new(alloc);
    for copy in out {
        if copy.from == from {
            numbers.push(copy.number)?;
        }
    }
    Ok(numbers)
}

/// One batch, which is published between the offers.
fn batches_of(rt: &impl Abort, alloc: Global, ports: &[u8], answer: u32) -> Vec<Batch> {
    let mut batches = Vec::new(alloc);
    let batch = batch(rt, alloc, ports, &returning(answer));
    assert!(rt; batches.push(batch).is_ok());
    batches
}

/// The outcomes of each port must be those of the example.
fn assert_outcomes(rt: &impl Abort, outcomes: &[Vec<Outcome>]) {
    assert!(rt; outcomes.len() == OUTCOMES.len());
    for (outcomes, expected) in outcomes.iter().zip(&OUTCOMES) {
        assert!(rt; outcomes.len() == expected.len());
        for (outcome, expected) in outcomes.iter().zip(*expected) {
            assert!(rt; told(outcome) == *expected);
        }
    }
}

/// The copies that leave at each port must be those of the example, two at each.
fn assert_copies(rt: &impl Abort, alloc: Global, out: &[Vec<FrameCopy>]) {
    assert!(rt; out.len() == 3 && out.iter().all(|out| out.len() == 2));
    for (to, from, expected) in COPIES {
        if let Some(out) = out.get(to) {
            let numbers = numbers_from(alloc, out, from).expect(rt, "memory");
            assert!(rt; numbers.as_slice() == expected, "from {from} to {to}");
        }
    }
}

/// What the example states of a run.
fn assert_turns(rt: &impl Abort, alloc: Global, ran: &RunReport, gate: &InTurn) {
    assert!(rt; !gate.is_late.load(Ordering::SeqCst));
    assert_outcomes(rt, &ran.outcomes);
    assert_copies(rt, alloc, &ran.out);
    assert!(rt; ran.fronts.as_slice() == [2].as_slice());
    assert!(rt; ran.report.lanes.iter().all(|lane| lane.left.is_empty()));
}

/// Runs ports that offer the engine's speed so many times each.
pub fn run_of<R: Threads + Wait + Sync + Abort, G: Gate>(
    rt: &R,
    alloc: Global,
    limits: Limits,
    counts: &[usize],
    first: Batch,
    batches: Vec<Batch>,
    gate: &G,
) -> Result<RunReport, RunRefusal>
    requires { length counts.now ≡ limits.ports }
{
    let frame = Frame::read(&ENGINE_SPEED).expect(rt, "a frame");
    let Ok(inputs) = inputs_of(alloc, frame, counts) else {
        panic!(rt; "no memory");
    };
    run(rt, alloc, limits, first, inputs, batches, gate)
}

#[test]
fn threads_with_a_gate(rt: HostRuntime) -> Result<(), Fail> {
    let alloc = rt.alloc();
    let limits = Limits::new(3, 4, 2, 2)?;
    let first = batch(&rt, alloc, &[0, 1, 2], &returning(1));
    let batches = batches_of(&rt, alloc, &[2], 0);
    let gate = InTurn::new();
    let ran = run_of(&rt, alloc, limits, &[2, 2, 0], first, batches, &gate);
    assert_turns(&rt, alloc, &ran.expect(&rt, "a run"), &gate);
    Ok(())
}

/// The frames of three ports: two, two, and none.
fn iterators_of(alloc: Global, frame: Frame) -> Result<Vec<RepeatN<Frame>>, AllocError>
    ensures count { IfOk result (λ inputs. vec_len inputs ≡ 3) }
    ensures few { IfOk result (λ inputs. All (λ input. repeat_n_count input ≤ 2) inputs.items) }
{
    Ok(vec![in alloc; repeat_n(frame, 2), repeat_n(frame, 2), repeat_n(frame, 0)]?)
}

/// How many frames a port offers at most, for three ports.
fn most(alloc: Global) -> Result<Vec<usize>, AllocError>
    ensures count { IfOk result (λ sizes. vec_len sizes ≡ 3) }
    ensures sizes { IfOk result (λ sizes. All (λ size. size ≡ 2) sizes.items) }
{
    Ok(vec![in alloc; 2, 2, 2]?)
}

/// Runs three ports from these iterators.
fn run_iterators<R: Threads + Wait + Sync + Abort, G: Gate>(
    rt: &R,
    alloc: Global,
    limits: Limits,
    first: Batch,
    batches: Vec<Batch>,
    gate: &G,
) -> Result<RunReport, RunRefusal>
    requires { limits.ports ≡ 3 }
{
    let frame = Frame::read(&ENGINE_SPEED).expect(rt, "a frame");
    let Ok(inputs) = iterators_of(alloc, frame) else {
        panic!(rt; "no memory");
    };
    let Ok(sizes) = most(alloc) else {
        panic!(rt; "no memory");
    };
    run_from(rt, alloc, limits, first, inputs, sizes, batches, gate)
}

#[test]
fn threads_with_a_gate_from_iterators(rt: HostRuntime) -> Result<(), Fail> {
    let alloc = rt.alloc();
    let limits = Limits::new(3, 4, 2, 2)?;
    let first = batch(&rt, alloc, &[0, 1, 2], &returning(1));
    let batches = batches_of(&rt, alloc, &[2], 0);
    let gate = InTurn::new();
    let ran = run_iterators(&rt, alloc, limits, first, batches, &gate);
    assert_turns(&rt, alloc, &ran.expect(&rt, "a run"), &gate);
    Ok(())
}

/// A gate that holds nobody back, and notes whether anybody came.
#[derive(Drop)]
struct Noting {
    somebody_came: AtomicBool,
}

impl Noting {
    fn new() -> Noting {
        Noting {
            somebody_came: AtomicBool::new(false),
        }
    }

    fn note(&self) {
        self.somebody_came.store(true, Ordering::SeqCst);
    }
}

impl Gate for Noting {
    ghost use Rattle.std.specs.Prelude.{false};

    ghost waits = { false };

    fn waits_for_room(&self) -> bool {
        false
    }

    fn enter(&self, _port: u8, _index: usize) {
        self.note();
    }

    fn leave(&self, _port: u8, _index: usize) {
        self.note();
    }

    fn before_replace(&self, _index: usize) {
        self.note();
    }

    fn replaced(&self, _index: usize) {
        self.note();
    }
}

/// Port 0 must have stopped at its second frame, and the operator at its second batch.
fn assert_stopped(rt: &impl Abort, ran: &RunReport) {
    assert!(rt; ran.outcomes.len() == 2);
    assert!(rt; ran.outcomes[0].len() == 1 && ran.outcomes[1].is_empty());
    assert!(rt; ran.stops.as_slice() == [Some(OfferRefusal::FramesSpent), None].as_slice());
    assert!(rt; ran.fronts.is_empty());
    assert!(rt; ran.refused.as_ref().is_some_and(|why| why.number() == 75));
}

#[test]
fn a_port_and_the_operator_that_stop(rt: HostRuntime) -> Result<(), Fail> {
    let alloc = rt.alloc();
    let limits = Limits::new(2, 4, 1, 1)?;
    let first = batch(&rt, alloc, &[0, 1], &returning(1));
    let batches = batches_of(&rt, alloc, &[1], 1);
    let gate = Noting::new();
    let ran = run_of(&rt, alloc, limits, &[2, 0], first, batches, &gate);
    assert_stopped(&rt, &ran.expect(&rt, "a run"));
    assert!(rt; gate.somebody_came.load(Ordering::SeqCst));
    Ok(())
}

#[test]
fn a_first_batch_for_no_port_from_iterators(rt: HostRuntime) -> Result<(), Fail> {
    let alloc = rt.alloc();
    let limits = Limits::new(3, 4, 2, 2)?;
    let first = batch(&rt, alloc, &[3], &returning(1));
    let gate = Noting::new();
    let ran = run_iterators(&rt, alloc, limits, first, Vec::new(alloc), &gate);
    assert!(rt; ran.is_err_and(|why| why.number() == 81));
    Ok(())
}

#[test]
fn a_first_batch_for_no_port(rt: HostRuntime) -> Result<(), Fail> {
    let alloc = rt.alloc();
    let limits = Limits::new(2, 4, 1, 1)?;
    let first = batch(&rt, alloc, &[2], &returning(1));
    let gate = Noting::new();
    let ran = run_of(&rt, alloc, limits, &[2, 0], first, Vec::new(alloc), &gate);
    assert!(rt; ran.is_err_and(|why| why.number() == 81));
    assert!(rt; !gate.somebody_came.load(Ordering::SeqCst));
    Ok(())
}
