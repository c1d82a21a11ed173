//! Outcomes judged again, by one thread.

use crate::fault::Fault;
use crate::pace::Shown;
use crate::policies::Policies;
use crate::sendings::{Room, Sendings};
use gw_claims::Claims;
use gw_frame::Frame;
use gw_ledger::{Outcome, PortSet};
use gw_policy::PolicySet;

/// Judges the frames of a port, by a set of its own that absorbs the batches up to each outcome's front.
#[derive(Drop)]
pub struct Judge<'a> {
    policies: &'a Policies,
    // How many batches were to be published.
    most: u32,
    port: u8,
    shown: &'a Shown,
    room: Room,
    set: PolicySet,
    claims: Claims,
    sendings: Sendings,
    judged: u32,
}

impl<'a> Judge<'a> {
    pub fn new(
        policies: &'a Policies,
        most: u32,
        port: u8,
        shown: &'a Shown,
        room: Room,
    ) -> Judge<'a> {
        Judge {
            policies,
            most,
            port,
            shown,
            room,
            set: PolicySet::new(),
            claims: Claims::new(),
            sendings: Sendings::new(),
            judged: 0,
        }
    }

    /// Whether this is what becomes of the port's next frame after so many batches: at least as many as were published before
    /// its offer, and no fewer than before.
    pub fn agrees(&mut self, frame: &Frame, outcome: &Outcome) -> Result<bool, Fault> {
        self.catch_up(outcome.front.min(self.most))?;
        let local = self.claims.is_local(frame);
        let agrees = outcome.front > self.shown.before(self.port, self.judged as usize)
            && outcome.front == self.set.front()
            && outcome.number == self.judged
            && outcome.local == local
            && outcome.allowed == self.allowed(local, frame)
            && are_among(outcome.placed, outcome.allowed)
            && self.sendings.fit(self.room, outcome);
        self.claims.hear(frame);
        self.sendings.add(outcome.placed);
        self.judged = self.judged.saturating_add(1);
        Ok(agrees)
    }

    fn catch_up(&mut self, front: u32) -> Result<(), Fault> {
        for index in self.set.front()..front {
            self.set.absorb(&self.policies.batch(index as usize)?)?;
        }
        Ok(())
    }

    /// The others of four ports whose policies in force pass the frame, none for a local one.
    fn allowed(&self, local: bool, frame: &Frame) -> PortSet {
        let mut allowed = PortSet::new();
        for port in 0..4 {
            if !local && port != self.port && self.set.verdict(port, frame, self.port) {
                allowed.add(port);
            }
        }
        allowed
    }
}

/// Whether these ports are all among those.
fn are_among(ports: PortSet, those: PortSet) -> bool {
    (0..16).all(|port| !ports.has(port) || those.has(port))
}
