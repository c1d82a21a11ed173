//! Taking a frame. It enters the board once, and takes no memory and no lock.

ghost use Rattle.std.specs.Prelude.{
  ◌≡◌,
  ◌≤◌,
  ◌<◌,
  ◌↔◌,
  ℕ,
  List,
  length,
  reverse,
  IfOk,
  MatchResult,
  true,
  OnErr,
  OnOk,
  Err,
};
ghost use mathlib.Core.List.{IsPrefix};
ghost use Rattle.gw_policy.specs.Allowed.{allowed_ports};
ghost use Rattle.gw_claims.specs.Holders.{HoldsAfter};
ghost use Rattle.gw_ledger.specs.Ports.{IsPartOf, IsPortSet};
ghost use Rattle.gw_ledger.specs.Ledgers.{ledger_with};
ghost use Rattle.gw_ports.specs.Ends.{IsCounted, end_in};
ghost use Rattle.gw_ports.specs.Offers.{IsPlaced, Offered};
ghost use Rattle.gw_ports.specs.declared.refusals.OfferRefusal.TheVariants.{FramesSpent, NoReading};

use super::PortIn;
use crate::enqueue::{FullLane, Lost, enqueue};
use crate::refusals::OfferRefusal;
use gw_board::{NoReading, Watch};
use gw_frame::Frame;
use gw_ledger::{FrameCopy, InLedger, Outcome, PortSet};

impl PortIn {
    /// Takes a frame, and places a copy of it on the lane to each port to which the policies in force allow it. A local frame
    /// is allowed nowhere. Refused, first with 76 and then with 77, it is not taken, and nothing changes.
    pub fn offer(&mut self, frame: Frame) -> Result<Outcome, OfferRefusal>
        ensures offered { (heard : List (List ℕ)) → HoldsAfter self.old.claims heard
            → MatchResult result (λ outcome. Offered heard self.old frame outcome self.new) (λ _. self.new ≡ self.old) }
        ensures end { end_in self.new ≡ end_in self.old }
        ensures board { self.new.board ≡ self.old.board }
        ensures inside { OnOk result (self.old.ledger.taken < self.old.frames) }
        ensures unchanged { OnErr result (self.new ≡ self.old) }
        ensures spent { (result ≡ Err FramesSpent) ↔ (self.old.ledger.taken ≡ self.old.frames) }
    {
        self.offer_by(frame, &Lost)
    }

    // The same, where a copy that finds its lane full may wait for room.
    pub(crate) fn offer_by<F: FullLane>(
        &mut self,
        frame: Frame,
        full: &F,
    ) -> Result<Outcome, OfferRefusal>
        ensures offered { (heard : List (List ℕ)) → HoldsAfter self.old.claims heard
            → MatchResult result (λ outcome. Offered heard self.old frame outcome self.new) (λ _. self.new ≡ self.old) }
        ensures end { end_in self.new ≡ end_in self.old }
        ensures board { self.new.board ≡ self.old.board }
        ensures inside { OnOk result (self.old.ledger.taken < self.old.frames) }
        ensures unchanged { OnErr result (self.new ≡ self.old) }
        ensures spent { (result ≡ Err FramesSpent) ↔ (self.old.ledger.taken ≡ self.old.frames) }
        ensures all { F.waits ≡ true → IfOk result IsPlaced }
    {
        if self.ledger.taken >= u64::from(self.frames) {
            return Err(OfferRefusal::FramesSpent);
        }
        let local = self.claims.is_local(&frame);
        let ports = self.lanes.len() as u8;
        let Ok(allowed) = judge(&mut self.watch, ports, self.port, local, &frame) else {
            return Err(OfferRefusal::NoReading);
        };
        let number = self.ledger.taken as u32;
        let copy = FrameCopy {
            from: self.port,
            number,
            frame,
        };
        let placed = enqueue(&mut self.lanes, allowed, copy, full);
        let outcome = Outcome {
            number,
            front: self.watch.len() as u32,
            local,
            allowed,
            placed,
        };
        self.claims.hear(&frame);
        count(&mut self.ledger, &outcome, self.frames);
        Ok(outcome)
    }
}

// The ports to which a frame is allowed by the batches that are known afterwards.
// Inlined into each offer, which calls `egress_ports` then.
#[inline(always)]
fn judge(
    watch: &mut Watch,
    ports: u8,
    ingress: u8,
    local: bool,
    frame: &Frame,
) -> Result<PortSet, NoReading>
    requires { ports ≤ 16 }
    ensures board { watch.new.board ≡ watch.old.board }
    ensures judged { MatchResult result
        (λ allowed. IsPrefix watch.old.batches watch.new.batches
        × (allowed ≡ allowed_ports ports local (reverse watch.new.batches) ingress frame.now))
        (λ _. watch.new.batches ≡ watch.old.batches) }
{
    if local {
        return watch.with(|_| PortSet::new());
    }
    watch.egress_ports(ports, frame, ingress)
}

// Counts a frame that was taken and is finished.
fn count(ledger: &mut InLedger, outcome: &Outcome, frames: u32)
    requires counted { IsCounted ledger.old frames }
    requires room { ledger.old.taken < frames }
    requires part { IsPartOf outcome.now.placed outcome.now.allowed }
    ensures added { ledger.new ≡ ledger_with ledger.old outcome.now }
    ensures counted { IsCounted ledger.new frames }
    ensures set { IsPortSet outcome.now.placed }
{
    // The one set is a part of the other, and so no greater.
    let _sizes = (outcome.allowed.len(), outcome.placed.len());
    ledger.add_outcome(outcome);
}
