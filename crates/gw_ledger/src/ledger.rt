//! What a port counts.

ghost use Rattle.std.specs.Prelude.{◌≡◌, ◌<◌, ◌^◌, ◌+◌, replicate, slice_index, slice_set};
ghost use Rattle.gw_ledger.specs.Ports.{IsPartOf};
ghost use Rattle.gw_ledger.specs.Ledgers.{ledger_with, count_after, HasRoom};

use crate::{MAX_PORTS, Outcome};

/// What a port counts of the frames taken there that are finished.
#[derive(Clone, Copy, PartialEq, Eq, Debug)]
pub struct InLedger {
    /// The finished frames.
    pub taken: u64,
    /// Those of them that were local.
    pub local: u64,
    /// The ports that policies allowed to them.
    pub allowed: u64,
    /// The copies that were placed.
    pub placed: u64,
    /// The copies that a full lane refused.
    pub lost: u64,
}

impl InLedger {
    /// The ledger of a port at which no frame is finished.
    pub const fn new() -> InLedger
        ensures { result ≡ record { taken = 0; local = 0; allowed = 0; placed = 0; lost = 0 } }
    {
        InLedger {
            taken: 0,
            local: 0,
            allowed: 0,
            placed: 0,
            lost: 0,
        }
    }

    /// Counts a finished frame: the sizes of its sets of ports, and their difference as lost.
    pub fn add_outcome(&mut self, outcome: &Outcome)
        requires room { HasRoom self.old }
        requires part { IsPartOf outcome.now.placed outcome.now.allowed }
        ensures { self.new ≡ ledger_with self.old outcome.now }
    {
        let allowed = u64::from(outcome.allowed.len());
        let placed = u64::from(outcome.placed.len());
        self.taken += 1;
        self.local += u64::from(outcome.local);
        self.allowed += allowed;
        self.placed += placed;
        self.lost += allowed - placed;
    }
}

/// What a port counts of the copies sent there: for each port, those of the frames taken at it.
#[derive(Clone, Copy, PartialEq, Eq, Debug)]
pub struct OutLedger {
    pub sent: [u64; MAX_PORTS],
}

impl OutLedger {
    /// The ledger of a port at which no copy was sent.
    pub const fn new() -> OutLedger
        ensures { result.sent ≡ replicate 16 0 }
    {
        OutLedger {
            sent: [0; MAX_PORTS],
        }
    }

    /// Counts a copy of a frame taken at a port. A count stays at 18446744073709551615.
    pub fn add_sent(&mut self, from: u8)
        requires { from < 16 }
        ensures { self.new.sent ≡ slice_set self.old.sent from (count_after (slice_index self.old.sent from)) }
    {
        let sent = &mut self.sent[usize::from(from)];
        *sent = sent.saturating_add(1);
    }
}
