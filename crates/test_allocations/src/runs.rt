//! The calls that run a gateway in threads of its own.

ghost use Rattle.std.specs.Prelude.{◌≡◌, ◌≤◌, All, IfOk, vec_len};
ghost use Rattle.std.specs.Iterator.{at_most};

use crate::answer::Answer;
use crate::fault::Fault;
use crate::inputs::{PASS, batch_for, frame_of, ready};
use gw_frame::Frame;
use gw_ledger::Limits;
use gw_policy::Batch;
use gw_ports::{Gate, RunRefusal, RunReport, run, run_from};
use std::alloc::Global;
use std::io::Write;
use std::marker::Sync;
use std::sync::Wait;
use std::thread::Threads;

/// How many batches are published behind the first.
const LATER: usize = 33;

/// A gate that holds nobody back.
#[derive(Clone, Copy)]
struct Open;

impl Gate for Open {
    ghost use Rattle.std.specs.Prelude.{false};

    ghost waits = { false };

    fn waits_for_room(&self) -> bool {
        false
    }

    fn enter(&self, _port: u8, _index: usize) {}

    fn leave(&self, _port: u8, _index: usize) {}

    fn before_replace(&self, _index: usize) {}

    fn replaced(&self, _index: usize) {}
}

/// One frame, or none.
#[derive(Clone, Copy, Drop)]
struct Single {
    frame: Frame,
    left: usize,
}

impl Iterator for Single {
    type Item = Frame;

    ghost remaining = { λ s. at_most s.left };

    fn next(&mut self) -> Option<Frame> {
        if self.left == 0 {
            return None;
        }
        self.left -= 1;
        Some(self.frame)
    }
}

/// A gateway of two ports takes a frame at each, while batches are published.
pub fn make_threads<R: Threads + Wait + Sync, W: Write>(
    rt: &R,
    alloc: Global,
    output: &mut W,
) -> Result<Answer, Fault> {
    let Ok(limits) = two_ports() else {
        return Err(Fault::Unprepared);
    };
    let Ok((first, later)) = batches(alloc) else {
        return Err(Fault::Unprepared);
    };
    match ready(output, lists(alloc)) {
        Ok(inputs) => Ok(answer(run(rt, alloc, limits, first, inputs, later, &Open))),
        Err(fault) => Err(fault),
    }
}

/// The same, from iterators.
pub fn make_threads_from<R: Threads + Wait + Sync, W: Write>(
    rt: &R,
    alloc: Global,
    output: &mut W,
) -> Result<Answer, Fault> {
    let Ok(limits) = two_ports() else {
        return Err(Fault::Unprepared);
    };
    let Ok((first, later)) = batches(alloc) else {
        return Err(Fault::Unprepared);
    };
    let Ok(inputs) = singles(alloc) else {
        return Err(Fault::Unprepared);
    };
    match ready(output, ones(alloc)) {
        Ok(sizes) => Ok(answer(run_from(rt, alloc, limits, first, inputs, sizes, later, &Open))),
        Err(fault) => Err(fault),
    }
}

/// A list of one frame for each of two ports.
fn lists(alloc: Global) -> Result<Vec<Vec<Frame>>, Fault>
    ensures { IfOk result (λ inputs. vec_len inputs ≡ 2) }
{
    let Ok(first) = list(alloc) else {
        return Err(Fault::Unprepared);
    };
    let Ok(second) = list(alloc) else {
        return Err(Fault::Unprepared);
    };
    match vec![in alloc; first, second] {
        Ok(lists) => Ok(lists),
        Err(_) => Err(Fault::Unprepared),
    }
}

/// A list of one frame.
fn list(alloc: Global) -> Result<Vec<Frame>, Fault> {
    Ok(vec![in alloc; frame_of()?]?)
}

/// The same as iterators.
fn singles(alloc: Global) -> Result<Vec<Single>, Fault>
    ensures count { IfOk result (λ inputs. vec_len inputs ≡ 2) }
    ensures one { IfOk result (λ inputs. All (λ input. input.left ≤ 1) inputs.items) }
{
    let single = Single {
        frame: frame_of()?,
        left: 1,
    };
    Ok(vec![in alloc; single, single]?)
}

fn ones(alloc: Global) -> Result<Vec<usize>, Fault>
    ensures count { IfOk result (λ sizes. vec_len sizes ≡ 2) }
    ensures sizes { IfOk result (λ sizes. All (λ size. size ≡ 1) sizes.items) }
{
    Ok(vec![in alloc; 1, 1]?)
}

/// Two ports, lanes of two copies, a frame at each port, and as many batches as are published.
fn two_ports() -> Result<Limits, Fault>
    ensures { IfOk result (λ limits. limits.ports ≡ 2) }
{
    Limits::new(2, 2, 34, 1).map_err(|_| Fault::Unprepared)
}

/// The first batch, and those behind it.
fn batches(alloc: Global) -> Result<(Batch, Vec<Batch>), Fault> {
    let Ok(first) = batch_for(alloc, 1, PASS) else {
        return Err(Fault::Unprepared);
    };
    match later_batches(alloc) {
        Ok(later) => Ok((first, later)),
        Err(fault) => Err(fault),
    }
}

/// The batches that are published behind the first.
fn later_batches(alloc: Global) -> Result<Vec<Batch>, Fault> {
    let mut batches = Vec::new(alloc);
    for _ in 0..LATER {
        batches.push(batch_for(alloc, 1, PASS)?)?;
    }
    Ok(batches)
}

fn answer(ran: Result<RunReport, RunRefusal>) -> Answer {
    match ran {
        Ok(report) => Answer::Ran {
            taken: report
                .outcomes
                .iter()
                .map(|outcomes| outcomes.len())
                .fold(0, usize::saturating_add),
            front: report.report.front,
            refused: report.refused.map(|why| why.number()),
        },
        Err(why) => Answer::refused(why.number()),
    }
}
