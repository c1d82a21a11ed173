//! A run of a gateway whose ends are used by threads of the soak's own.

use crate::fault::Fault;
use crate::frames::Drawn;
use crate::sendings::Sendings;
use crate::takings::Takings;
use gw_board::Operator;
use gw_frame::Frame;
use gw_ledger::{FrameCopy, Limits, Outcome};
use gw_policy::Batch;
use gw_ports::{LaneLeft, OfferRefusal, Parts, PortIn, PortOut, Report, RunReport, gateway};
use std::alloc::Global;
use std::marker::Sync;
use std::mem::replace;
use std::sync::Wait;
use std::thread::{Threads, for_each_mut, yield_now};

/// An ingress port, with what became of its frames.
#[derive(Drop)]
struct Feed {
    number: u8,
    port: PortIn,
    sendings: Sendings,
    outcomes: Vec<Outcome>,
    stop: Option<OfferRefusal>,
}

impl Feed {
    /// Offers frames, until one is refused.
    fn offer_all(&mut self, frames: Drawn, takings: &Takings) {
        for frame in frames {
            takings.wait_for_room(self.number, &self.sendings);
            if !self.takes(frame) {
                break;
            }
        }
        takings.end_offers();
    }

    /// Whether a frame is taken, and there is memory for what became of it.
    fn takes(&mut self, frame: Frame) -> bool {
        match self.port.offer(frame) {
            Ok(outcome) => {
                self.sendings.add(outcome.placed);
                self.outcomes.push(outcome).is_ok()
            }
            Err(why) => {
                self.stop = Some(why);
                false
            }
        }
    }
}

/// An egress port, with the copies that were taken out there.
#[derive(Drop)]
struct Drain {
    number: u8,
    port: PortOut,
    out: Vec<FrameCopy>,
}

impl Drain {
    /// Takes copies out where they are to be, until a look that began after the last offer finds none.
    fn take_all<R: Wait>(&mut self, rt: &R, takings: &Takings) {
        for _ in rt.forever() {
            let is_last = takings.are_over();
            if (is_last || takings.are_awaited()) && self.takes(takings) {
                continue;
            }
            if is_last {
                break;
            }
            yield_now();
        }
    }

    /// Whether a copy is taken out, and there is memory for it.
    fn takes(&mut self, takings: &Takings) -> bool {
        match self.port.next() {
            Some(copy) => {
                takings.add(copy.from, self.number);
                self.out.push(copy).is_ok()
            }
            None => false,
        }
    }
}

/// An end of a port, for a thread of its own.
#[derive(Drop)]
enum End {
    In(Feed),
    Out(Drain),
}

impl End {
    fn work<R: Wait>(&mut self, rt: &R, takings: &Takings) {
        match self {
            End::In(feed) => feed.offer_all(takings.frames(feed.number), takings),
            End::Out(drain) => drain.take_all(rt, takings),
        }
    }
}

/// The parts of a gateway on which a batch is published.
pub fn open<R: Wait>(rt: &R, alloc: Global, limits: Limits, first: Batch) -> Result<Parts, Fault> {
    let Ok(mut parts) = gateway(alloc, limits) else {
        return Err(Fault::Unprepared);
    };
    publish(rt, &mut parts.operator, first)?;
    Ok(parts)
}

/// Publishes a batch.
pub fn publish<R: Wait>(rt: &R, operator: &mut Operator, batch: Batch) -> Result<(), Fault> {
    match operator.replace(rt, batch) {
        Ok(_) => Ok(()),
        Err(_) => Err(Fault::Unprepared),
    }
}

/// Offers frames at each of four ports of a new gateway, and takes the copies out, each end in a thread of its own.
pub fn run_ends<R: Threads + Wait + Sync>(
    rt: &R,
    alloc: Global,
    limits: Limits,
    first: Batch,
    takings: &Takings,
) -> Result<RunReport, Fault> {
    let Parts {
        operator,
        ins,
        outs,
    } = open(rt, alloc, limits, first)?;
    let front = operator.tell().len() as u32;
    let ended = worked(rt, alloc, ins, outs, takings);
    operator.end(rt);
    let mut ends = ended?;
    reported(alloc, &mut ends, front)
}

/// The ends after all their threads have ended.
fn worked<R: Threads + Wait + Sync>(
    rt: &R,
    alloc: Global,
    ins: Vec<PortIn>,
    outs: Vec<PortOut>,
    takings: &Takings,
) -> Result<Vec<End>, Fault> {
    let mut ends = ends_of(alloc, ins, outs)?;
    work_all(rt, &mut ends, takings);
    Ok(ends)
}

fn work_all<R: Threads + Wait + Sync>(rt: &R, ends: &mut [End], takings: &Takings) {
    for_each_mut(rt, ends, 8, &|_, end: &mut End| end.work(rt, takings));
}

fn ends_of(alloc: Global, ins: Vec<PortIn>, outs: Vec<PortOut>) -> Result<Vec<End>, Fault> {
    let mut ends = Vec::new(alloc);
    add_feeds(alloc, ins, &mut ends)?;
    add_drains(alloc, outs, &mut ends)?;
    Ok(ends)
}

fn add_feeds(alloc: Global, ports: Vec<PortIn>, ends: &mut Vec<End>) -> Result<(), Fault> {
    let mut number: u8 = 0;
    for port in ports {
        ends.push(End::In(Feed {
            number,
            port,
            sendings: Sendings::new(),
            outcomes: Vec::new(alloc),
            stop: None,
        }))?;
        number = number.wrapping_add(1);
    }
    Ok(())
}

fn add_drains(alloc: Global, ports: Vec<PortOut>, ends: &mut Vec<End>) -> Result<(), Fault> {
    let mut number: u8 = 0;
    for port in ports {
        ends.push(End::Out(Drain {
            number,
            port,
            out: Vec::new(alloc),
        }))?;
        number = number.wrapping_add(1);
    }
    Ok(())
}

/// What the ends did, as a run reports it. They are left empty.
fn reported(alloc: Global, ends: &mut [End], front: u32) -> Result<RunReport, Fault> {
    let mut ran = empty_report(alloc, front);
    report_on(alloc, ends, &mut ran)?;
    Ok(ran)
}

/// The report of a run of no ports.
fn empty_report(alloc: Global, front: u32) -> RunReport {
    RunReport {
        outcomes: Vec::new(alloc),
        stops: Vec::new(alloc),
        fronts: Vec::new(alloc),
        refused: None,
        out: Vec::new(alloc),
        report: Report {
            ins: Vec::new(alloc),
            outs: Vec::new(alloc),
            lanes: Vec::new(alloc),
            front,
        },
    }
}

/// Moves what the ends did to a report.
fn report_on(alloc: Global, ends: &mut [End], ran: &mut RunReport) -> Result<(), Fault> {
    add_lanes(alloc, &mut ran.report.lanes)?;
    for end in ends.iter_mut() {
        match end {
            End::In(feed) => add_feed(alloc, feed, ran)?,
            End::Out(drain) => add_drain(alloc, drain, ran)?,
        }
    }
    Ok(())
}

fn add_feed(alloc: Global, feed: &mut Feed, ran: &mut RunReport) -> Result<(), Fault> {
    ran.report.ins.push(*feed.port.ledger())?;
    ran.stops.push(feed.stop)?;
    ran.outcomes
        .push(replace(&mut feed.outcomes, Vec::new(alloc)))?;
    Ok(())
}

fn add_drain(alloc: Global, drain: &mut Drain, ran: &mut RunReport) -> Result<(), Fault> {
    ran.report.outs.push(*drain.port.ledger())?;
    ran.out.push(replace(&mut drain.out, Vec::new(alloc)))?;
    Ok(())
}

/// The lanes of four ports, on which no copy is left.
fn add_lanes(alloc: Global, lanes: &mut Vec<LaneLeft>) -> Result<(), Fault> {
    for lane in 0u8..16 {
        let (from, to) = (lane / 4, lane % 4);
        if from != to {
            lanes.push(LaneLeft {
                from,
                to,
                left: Vec::new(alloc),
            })?;
        }
    }
    Ok(())
}
