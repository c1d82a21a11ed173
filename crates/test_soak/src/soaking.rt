//! Runs of a gateway, and what is found in their reports.

ghost use Rattle.std.specs.Prelude.{◌≡◌, All, IfOk, vec_len};

use crate::ends::run_ends;
use crate::fault::Fault;
use crate::frames::{Drawn, pool};
use crate::judging::Judge;
use crate::lanes::LaneCopies;
use crate::pace::{Pace, Shown};
use crate::policies::Policies;
use crate::sendings::{LANE, Room};
use crate::takings::Takings;
use gw_frame::Frame;
use gw_ledger::{InLedger, Limits, Outcome, balance};
use gw_policy::Batch;
use gw_ports::{LaneLeft, Report, RunReport, run_from};
use std::alloc::{AllocError, Global};
use std::marker::Sync;
use std::sync::Wait;
use std::thread::Threads;

/// How many ports a gateway has, and how many lanes.
const PORTS: usize = 4;

const LANES: usize = 12;

/// What a soak found.
#[derive(Clone, Copy)]
pub struct Found {
    /// How many frames were offered, and how many batches were to be published behind the first.
    pub offers: usize,
    pub replacements: usize,
    /// How many outcomes there are, and of how many frames that were local.
    pub taken: usize,
    pub local: u64,
    /// How many batches were published behind the first, and at how many ports the last frame was judged by all of them.
    pub published: usize,
    pub current: usize,
    /// How many outcomes are other than one thread finds by the batches up to their front, and by the copies before.
    pub differing: usize,
    /// How many lanes there are, of how many the copies are other than those that were placed, and how many copies are left.
    pub lanes: usize,
    pub disordered: usize,
    pub left: u64,
    /// Whether no port and no replacement stopped, and each waited for what it was to wait for.
    pub is_whole: bool,
    pub is_balanced: bool,
    pub allowed: u64,
    pub placed: u64,
    pub lost: u64,
}

impl Found {
    /// Whether the run did what it was to do.
    pub fn agrees(&self) -> bool {
        self.taken == self.offers
            && self.published == self.replacements
            && self.current == PORTS
            && self.differing == 0
            && self.lanes == LANES
            && self.disordered == 0
            && self.left == 0
            && self.is_whole
            && self.is_balanced
    }
}

/// The frames and the policies of a soak.
#[derive(Drop)]
pub struct Material {
    pool: Vec<Frame>,
    policies: Policies,
}

impl Material {
    pub fn new(alloc: Global) -> Result<Material, Fault> {
        Ok(Material {
            policies: Policies::new(alloc)?,
            pool: pool(alloc)?,
        })
    }

    /// What is found in a report without replacements.
    fn found_at_ends(
        &self,
        alloc: Global,
        each: u32,
        room: Room,
        ran: &RunReport,
        is_late: bool,
    ) -> Result<Found, Fault> {
        let shown = Shown::none(alloc);
        let soaked = Soaked {
            material: self,
            size: each as usize,
            replacements: 0,
            shown: &shown,
            room,
        };
        soaked.found(ran, is_late)
    }
}

/// Offers so many frames at each of four ports, with a replacement after each so many offers, and judges what became of them.
pub fn soak<R: Threads + Wait + Sync>(
    rt: &R,
    alloc: Global,
    material: &Material,
    each: u32,
    every: u32,
) -> Result<Found, Fault> {
    let every = u64::from(every.max(1));
    let Ok(replacements) = u32::try_from(4 * u64::from(each) / every) else {
        return Err(Fault::TooMany);
    };
    let limits = limits_of(each, replacements)?;
    let size = each as usize;
    let gate = Pace::new(alloc, size, every, u64::from(replacements))?;
    let batches = material.policies.batches(alloc, replacements as usize)?;
    let report = run_paced(rt, alloc, limits, material, size, batches, &gate)?;
    let soaked = Soaked {
        material,
        size,
        replacements,
        shown: gate.shown(),
        room: Room::SOME,
    };
    soaked.found(&report, gate.is_late())
}

/// Runs a gateway of four ports, whose frames and batches are held back by a gate.
fn run_paced<R: Threads + Wait + Sync>(
    rt: &R,
    alloc: Global,
    limits: Limits,
    material: &Material,
    size: usize,
    batches: Vec<Batch>,
    gate: &Pace,
) -> Result<RunReport, Fault>
    requires { limits.ports ≡ 4 }
{
    let inputs = inputs(alloc, &material.pool, size)?;
    let sizes = sizes(alloc, size)?;
    let first = material.policies.batch(0)?;
    run_from(rt, alloc, limits, first, inputs, sizes, batches, gate).map_err(Fault::NoRun)
}

/// Offers so many frames at each of four ports with one batch, and judges what became of them. Offers are held back until the
/// lanes have room, or else copies are taken out only after the last offer.
pub fn soak_ends<R: Threads + Wait + Sync>(
    rt: &R,
    alloc: Global,
    material: &Material,
    each: u32,
    holds_offers: bool,
) -> Result<Found, Fault> {
    let limits = limits_of(each, 0)?;
    let first = material.policies.batch(0)?;
    let takings = Takings::new(alloc, &material.pool, each as usize, holds_offers)?;
    let report = run_ends(rt, alloc, limits, first, &takings)?;
    let room = if holds_offers {
        Room::ENOUGH
    } else {
        Room::FEW
    };
    material.found_at_ends(alloc, each, room, &report, takings.is_late())
}

/// Four ports, and room for the first batch and the others.
fn limits_of(each: u32, replacements: u32) -> Result<Limits, Fault>
    ensures { IfOk result (λ limits. limits.ports ≡ 4) }
{
    Limits::new(4, LANE, replacements.saturating_add(1), each).map_err(|_| Fault::TooMany)
}

/// The frames that four ports offer.
fn inputs<'a>(alloc: Global, pool: &'a [Frame], size: usize) -> Result<Vec<Drawn<'a>>, AllocError>
    ensures count { IfOk result (λ inputs. vec_len inputs ≡ 4) }
    ensures sizes { IfOk result (λ inputs. All (λ input. input.left ≡ size) inputs.items) }
{
    Ok(vec![in alloc;
        Drawn::new(pool, 0, size),
        Drawn::new(pool, 1, size),
        Drawn::new(pool, 2, size),
        Drawn::new(pool, 3, size),
    ]?)
}

/// How many frames each of them offers.
fn sizes(alloc: Global, size: usize) -> Result<Vec<usize>, AllocError>
    ensures count { IfOk result (λ sizes. vec_len sizes ≡ 4) }
    ensures sizes { IfOk result (λ sizes. All (λ each. each ≡ size) sizes.items) }
{
    Ok(vec![in alloc; size, size, size, size]?)
}

/// What a run was made of, to judge its report by.
#[derive(Drop)]
struct Soaked<'a> {
    material: &'a Material,
    size: usize,
    replacements: u32,
    shown: &'a Shown,
    room: Room,
}

impl Soaked<'_> {
    fn found(&self, ran: &RunReport, is_late: bool) -> Result<Found, Fault> {
        let copies = total(&ran.report.ins);
        let left = left_on(&ran.report.lanes);
        Ok(Found {
            offers: self.size.saturating_mul(4),
            replacements: self.replacements as usize,
            taken: taken(&ran.outcomes),
            local: copies.local,
            published: ran.fronts.len(),
            current: current(&ran.outcomes, ran.report.front),
            differing: self.differing(&ran.outcomes)?,
            lanes: ran.report.lanes.len(),
            disordered: self.disordered(ran),
            left,
            is_whole: ran.stops.iter().all(|stop| stop.is_none())
                && ran.refused.is_none()
                && !is_late,
            is_balanced: is_balanced(&ran.report, left),
            allowed: copies.allowed,
            placed: copies.placed,
            lost: copies.lost,
        })
    }

    /// How many outcomes are other than one thread finds.
    fn differing(&self, outcomes: &[Vec<Outcome>]) -> Result<usize, Fault> {
        let mut differing: usize = 0;
        for port in 0..4 {
            if let Some(outcomes) = outcomes.get(usize::from(port)) {
                differing = differing.saturating_add(self.differing_at(port, outcomes)?);
            }
        }
        Ok(differing)
    }

    fn differing_at(&self, port: u8, outcomes: &[Outcome]) -> Result<usize, Fault> {
        let most = self.replacements.saturating_add(1);
        let mut judge = Judge::new(&self.material.policies, most, port, self.shown, self.room);
        let mut differing: usize = 0;
        let frames = Drawn::new(&self.material.pool, port, self.size);
        for (frame, outcome) in frames.zip(outcomes.iter()) {
            if !judge.agrees(&frame, outcome)? {
                differing = differing.saturating_add(1);
            }
        }
        Ok(differing)
    }

    /// On how many lanes the copies are other than those that were placed.
    fn disordered(&self, ran: &RunReport) -> usize {
        let mut disordered: usize = 0;
        for lane in &ran.report.lanes {
            if !self.is_in_order(ran, lane) {
                disordered = disordered.saturating_add(1);
            }
        }
        disordered
    }

    fn is_in_order(&self, ran: &RunReport, lane: &LaneLeft) -> bool {
        let (Some(outcomes), Some(out)) = (
            ran.outcomes.get(usize::from(lane.from)),
            ran.out.get(usize::from(lane.to)),
        ) else {
            return false;
        };
        let copies = LaneCopies {
            from: lane.from,
            to: lane.to,
            out,
            left: &lane.left,
        };
        copies.are_placed(
            Drawn::new(&self.material.pool, lane.from, self.size),
            outcomes,
        )
    }
}

/// How many outcomes there are.
fn taken(outcomes: &[Vec<Outcome>]) -> usize {
    outcomes
        .iter()
        .map(|of_port| of_port.len())
        .fold(0, usize::saturating_add)
}

/// At how many ports the last frame was judged by so many batches.
fn current(outcomes: &[Vec<Outcome>], front: u32) -> usize {
    let mut current: usize = 0;
    for of_port in outcomes {
        match of_port.last() {
            Some(last) if last.front == front => current = current.saturating_add(1),
            _ => {}
        }
    }
    current
}

/// What the ports counted together.
fn total(ledgers: &[InLedger]) -> InLedger {
    let mut total = InLedger::new();
    for ledger in ledgers {
        total.taken = total.taken.saturating_add(ledger.taken);
        total.local = total.local.saturating_add(ledger.local);
        total.allowed = total.allowed.saturating_add(ledger.allowed);
        total.placed = total.placed.saturating_add(ledger.placed);
        total.lost = total.lost.saturating_add(ledger.lost);
    }
    total
}

/// How many copies are left on the lanes.
fn left_on(lanes: &[LaneLeft]) -> u64 {
    lanes
        .iter()
        .map(|lane| lane.left.len() as u64)
        .fold(0, u64::saturating_add)
}

fn is_balanced(report: &Report, left: u64) -> bool {
    report.ins.len() <= 16 && report.outs.len() <= 16 && balance(&report.ins, &report.outs, left)
}
