//! The end at which a port takes frames.

ghost use Rattle.std.specs.Prelude.{◌≡◌, [], OnOk, sum_by};
ghost use mathlib.Core.List.{IsPrefix};
ghost use Rattle.gw_claims.specs.Holders.{HoldsAfter};
ghost use Rattle.gw_board.specs.Lists.{longer};
ghost use Rattle.gw_ports.specs.Ends.{HasLanes, placed_on};
ghost use Rattle.gw_ports.specs.Making.{nothing_counted};

use gw_board::{NoReading, Told, Watch};
use gw_claims::Claims;
use gw_lanes::LaneIn;
use gw_ledger::InLedger;
use std::marker::Model;

mod offer;

/// The end at which a port takes frames. Contracts see it as `Ingress`.
#[derive(Drop)]
pub struct PortIn {
    port: u8,
    frames: u32,
    watch: Watch,
    claims: Claims,
    // By egress port, so a lane's index is its port. There is none at the port's own number.
    pub(crate) lanes: Vec<Option<LaneIn>>,
    ledger: InLedger,
}

impl Model for PortIn {
    ghost use Rattle.gw_ports.specs.Ends.{Ingress, HasLanes, IsCounted, CountsPlaced};

    ghost Value = { Ingress };

    ghost view = { λ p. record {
      port = p.port;
      board = p.watch.board;
      known = p.watch.batches;
      claims = p.claims;
      frames = p.frames;
      lanes = p.lanes.items;
      ledger = p.ledger;
    } };

    ghost invariant = { λ p. HasLanes p.port p.lanes.items × IsCounted p.ledger p.frames × CountsPlaced p.ledger p.lanes.items };
}

impl PortIn {
    ghost use Rattle.gw_ports.specs.Ends.{IsSoundIngress, end_in};

    pub(crate) fn new(port: u8, frames: u32, watch: Watch, lanes: Vec<Option<LaneIn>>) -> PortIn
        requires lanes { HasLanes port lanes.items }
        requires empty { sum_by placed_on lanes.items ≡ 0 }
        ensures made { result ≡ record {
          port = port;
          board = watch.board;
          known = watch.batches;
          claims = result.claims;
          frames = frames;
          lanes = lanes.items;
          ledger = nothing_counted;
        } }
        ensures claims { HoldsAfter result.claims [] }
    {
        PortIn {
            port,
            frames,
            watch,
            claims: Claims::new(),
            lanes,
            ledger: InLedger::new(),
        }
    }

    // Its number.
    pub(crate) fn number(&self) -> u8
        ensures { result ≡ self.now.port }
    {
        self.port
    }

    /// What became of the frames that were taken.
    pub fn ledger(&self) -> &InLedger
        ensures ledger { result.now ≡ self.now.ledger }
        ensures sound { IsSoundIngress self.now }
    {
        let _frames = self.frames;
        &self.ledger
    }

    /// Advances to the newer of two policy versions: the one that it knows, and the one that it is told.
    pub fn learn(&mut self, told: &Told)
        requires { told.now.board ≡ self.old.board }
        ensures end { end_in self.new ≡ end_in self.old }
        ensures board { self.new.board ≡ self.old.board }
        ensures value { self.new ≡ record self.old { known = longer self.old.known told.now.batches } }
        ensures kept { IsPrefix self.old.known self.new.known }
        ensures told { IsPrefix told.now.batches self.new.known }
    {
        self.watch.learn(told);
    }

    // Advances to the operator's policy version. Refused, it may know a newer one than before.
    pub(crate) fn settle(&mut self, published: &Told) -> Result<(), NoReading>
        requires { published.now.board ≡ self.old.board }
        ensures settled { OnOk result ((self.new ≡ record self.old { known = published.now.batches })
            × IsPrefix self.old.known published.now.batches) }
        ensures more { (self.new ≡ record self.old { known = self.new.known }) × IsPrefix self.old.known self.new.known }
    {
        self.watch.learn(published);
        self.watch.with(|_| ())?;
        if self.watch.len() != published.len() {
            return Err(NoReading);
        }
        Ok(())
    }

    // Its lanes, by egress port.
    pub(crate) fn into_lanes(self) -> Vec<Option<LaneIn>>
        ensures { result.items ≡ self.lanes }
    {
        self.lanes
    }
}
