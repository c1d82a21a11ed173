//! The end at which copies leave at a port.

ghost use Rattle.std.specs.Prelude.{◌≡◌, ◌≤◌, ◌<◌, ℕ, None, MatchOption, IsSome, length, slice_set, take};
ghost use Rattle.gw_ports.specs.Ends.{lane_at, ring_to, ring_from};
ghost use Rattle.gw_ports.specs.Sending.{Pops, PopsFrom, sent_many, taken_off};
ghost use Rattle.gw_ports.specs.Closing.{IsWaiting};

use crate::PortIn;
use gw_lanes::{LaneIn, LaneOut};
use gw_ledger::{FrameCopy, OutLedger};
use std::alloc::{AllocError, Global};
use std::marker::Model;

/// The end at which copies leave at a port. Contracts see it as `Egress`.
#[derive(Drop)]
pub struct PortOut {
    port: u8,
    // By ingress port, so a lane's index is its port. There is none at the port's own number.
    lanes: Vec<Option<LaneOut>>,
    // The ingress port that `next` looks at first.
    turn: usize,
    ledger: OutLedger,
}

impl Model for PortOut {
    ghost use Rattle.std.specs.Prelude.{◌≡◌, ◌≤◌, length};
    ghost use Rattle.gw_ports.specs.Ends.{Egress, HasLanes, CountsSent};

    ghost Value = { Egress };

    ghost view = { λ p. record { port = p.port; lanes = p.lanes.items; ledger = p.ledger } };

    ghost invariant = { λ p. HasLanes p.port p.lanes.items × CountsSent p.ledger p.lanes.items × (p.turn ≤ 16) };
}

impl PortOut {
    ghost use Rattle.std.specs.Prelude.{◌≡◌, ◌≢◌, ◌<◌, ◌≤◌, ◌++◌, ◌∷◌, [], length, take, OnOk, ℕ, None, MatchOption, IfSome};
    ghost use Rattle.std.specs.Prelude.{IsSome};
    ghost use Rattle.gw_ports.specs.Making.{new_egress};
    ghost use Rattle.gw_ports.specs.Ends.{taken_from, lane_at, ring_to, ring_from, end_out, IsSoundEgress};
    ghost use Rattle.gw_ports.specs.Closing.{IsWaiting};
    ghost use Rattle.gw_ports.specs.Sending.{Sends, Takes};

    // An end without lanes.
    pub(crate) fn new(alloc: Global, port: u8) -> PortOut
        ensures { result ≡ new_egress port [] }
    {
        PortOut {
            port,
            lanes: Vec::new(alloc),
            turn: 0,
            ledger: OutLedger::new(),
        }
    }

    // The lane of the next ingress port, none for the port itself.
    pub(crate) fn add(&mut self, lane: Option<LaneOut>) -> Result<(), AllocError>
        requires few { length self.old.lanes < 16 }
        requires none { length self.old.lanes ≡ self.old.port → lane ≡ None }
        requires there { length self.old.lanes ≢ self.old.port → IsSome lane }
        requires new { taken_from lane ≡ 0 }
        ensures { OnOk result (self.new ≡ record self.old { lanes = self.old.lanes ++ lane ∷ [] }) }
    {
        self.lanes.push(lane)?;
        Ok(())
    }

    // How many ports the gateway has.
    pub(crate) fn ports(&self) -> u8
        ensures { result ≡ length self.now.lanes }
    {
        self.lanes.len() as u8
    }

    /// What it counted of the copies that left.
    pub fn ledger(&self) -> &OutLedger
        ensures ledger { result.now ≡ self.now.ledger }
        ensures sound { IsSoundEgress self.now }
    {
        &self.ledger
    }

    /// The oldest copy that waits on a lane, round robin by ingress port: the round begins after the port that gave the last
    /// copy, at first with port 0.
    pub fn next(&mut self) -> Option<FrameCopy>
        ensures end { end_out self.new ≡ end_out self.old }
        ensures sent { MatchOption result (self.new ≡ self.old) (λ copy. (ingress : ℕ) × Sends ingress self.old copy self.new) }
    {
        let ports = self.lanes.len();
        let mut ingress = self.turn;
        'round: for _ in 0..ports {
            if ingress >= ports {
                ingress = 0;
            }
            if let Some(copy) = self.next_from(ingress as u8) {
                self.turn = ingress + 1;
                return Some(copy);
            }
            ingress += 1;
        }
        None
    }

    /// The oldest copy that waits on the lane from an ingress port. There is none for a number that is no other port.
    pub fn next_from(&mut self, ingress: u8) -> Option<FrameCopy>
        ensures end { end_out self.new ≡ end_out self.old }
        ensures sent { MatchOption result (self.new ≡ self.old) (λ copy. Sends ingress self.old copy self.new) }
        ensures other { IfSome result (λ _. (ingress ≢ self.old.port) × (ingress < length self.old.lanes)) }
    {
        let copy = dequeue(&mut self.lanes, usize::from(ingress))?;
        self.ledger.add_sent(ingress);
        Some(copy)
    }

    // The oldest copies that wait on the lane from an ingress port, as many as a slice has room for, in front of it; and how
    // many.
    pub(crate) fn many_from(&mut self, ingress: u8, copies: &mut [FrameCopy]) -> usize
        ensures end { end_out self.new ≡ end_out self.old }
        ensures fits { (result ≤ length copies.new) × (length copies.new ≡ length copies.old) }
        ensures sent { Takes self.old (take result copies.new) self.new }
    {
        let count = dequeue_many(&mut self.lanes, usize::from(ingress), copies);
        add_sent(&mut self.ledger, ingress, count);
        count
    }

    // How many copies wait on the lane from an ingress port, whose end is `from`, if there is such a lane.
    pub(crate) fn waiting_from(
        &mut self,
        ingress: u8,
        from: &mut PortIn,
        egress: u8,
    ) -> Option<usize>
        requires { ring_to (lane_at from.old.lanes egress) ≡ ring_from (lane_at self.old.lanes ingress) }
        ensures same { (self.new ≡ self.old) × (from.new ≡ from.old) }
        ensures waiting { IsWaiting (lane_at from.old.lanes egress) (lane_at self.old.lanes ingress) result }
    {
        waiting_at(
            &mut from.lanes,
            usize::from(egress),
            &mut self.lanes,
            usize::from(ingress),
        )
    }

    // Its lanes, by ingress port.
    pub(crate) fn into_lanes(self) -> Vec<Option<LaneOut>>
        ensures { result.items ≡ self.lanes }
    {
        self.lanes
    }
}

// The oldest copy of a lane, if there is such a lane.
fn dequeue(lanes: &mut [Option<LaneOut>], ingress: usize) -> Option<FrameCopy>
    ensures { MatchOption result (lanes.new ≡ lanes.old) (λ copy. PopsFrom ingress lanes.old copy lanes.new) }
{
    if ingress >= lanes.len() {
        return None;
    }
    dequeue_from(&mut lanes[ingress])
}

fn dequeue_from(lane: &mut Option<LaneOut>) -> Option<FrameCopy>
    ensures { MatchOption result (lane.new ≡ lane.old) (λ copy. Pops lane.old copy lane.new) }
{
    match lane {
        Some(lane) => lane.pop(),
        None => None,
    }
}

// The oldest copies of a lane, if there is such a lane, in front of a slice, and how many.
fn dequeue_many(lanes: &mut [Option<LaneOut>], ingress: usize, copies: &mut [FrameCopy]) -> usize
    ensures fits { (result ≤ length copies.new) × (length copies.new ≡ length copies.old) }
    ensures there { 0 < result → (ingress < length lanes.old) × IsSome (lane_at lanes.old ingress) }
    ensures taken { lanes.new
        ≡ slice_set lanes.old ingress (taken_off (lane_at lanes.old ingress) (take result copies.new)) }
{
    if ingress >= lanes.len() {
        return 0;
    }
    dequeue_many_from(&mut lanes[ingress], copies)
}

fn dequeue_many_from(lane: &mut Option<LaneOut>, copies: &mut [FrameCopy]) -> usize
    ensures fits { (result ≤ length copies.new) × (length copies.new ≡ length copies.old) }
    ensures there { 0 < result → IsSome lane.old }
    ensures taken { lane.new ≡ taken_off lane.old (take result copies.new) }
{
    match lane {
        Some(lane) => lane.pop_many(copies),
        None => 0,
    }
}

// Counts copies of an ingress port.
fn add_sent(ledger: &mut OutLedger, ingress: u8, copies: usize)
    requires { 0 < copies → ingress < 16 }
    ensures { ledger.new ≡ sent_many ledger.old ingress copies }
{
    for _ in 0..copies {
        ledger.add_sent(ingress);
    }
}

// How many copies wait between two ends, if both are there.
fn waiting_at(
    inlets: &mut [Option<LaneIn>],
    egress: usize,
    outlets: &mut [Option<LaneOut>],
    ingress: usize,
) -> Option<usize>
    requires { ring_to (lane_at inlets.old egress) ≡ ring_from (lane_at outlets.old ingress) }
    ensures same { (inlets.new ≡ inlets.old) × (outlets.new ≡ outlets.old) }
    ensures waiting { IsWaiting (lane_at inlets.old egress) (lane_at outlets.old ingress) result }
{
    if egress >= inlets.len() || ingress >= outlets.len() {
        return None;
    }
    waiting_between(&mut inlets[egress], &mut outlets[ingress])
}

fn waiting_between(inlet: &mut Option<LaneIn>, outlet: &mut Option<LaneOut>) -> Option<usize>
    requires { ring_to inlet.old ≡ ring_from outlet.old }
    ensures same { (inlet.new ≡ inlet.old) × (outlet.new ≡ outlet.old) }
    ensures waiting { IsWaiting inlet.old outlet.old result }
{
    match (inlet, outlet) {
        (Some(inlet), Some(outlet)) => Some(outlet.left(inlet)),
        _ => None,
    }
}
