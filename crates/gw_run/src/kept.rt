//! What is kept of a run, which its text tells.

ghost use Rattle.std.specs.Prelude.{◌≡◌, IfOk, vec_len};
ghost use Rattle.std.specs.Iterator.{endless};

use crate::tally::LaneTally;
use gw_ledger::{FrameCopy, InLedger};
use gw_ports::Sink;
use std::alloc::{AllocError, Global};

/// What the ports of a run counted, and how many of their frames became what. Neither outcomes nor copies are kept.
#[derive(Drop)]
pub(crate) struct Kept {
    /// By port, what it counted.
    pub ledgers: Vec<InLedger>,
    /// The tally of each lane, by ingress port and then egress port.
    pub lanes: Vec<LaneTally>,
}

/// Takes copies, and keeps none.
#[derive(Drop)]
pub(crate) struct NoCopies;

impl Sink<FrameCopy> for NoCopies {
    ghost takes = { λ _ _ _. Unit {0} };

    ghost room = { λ _. endless };

    fn has_room_for(&self, _items: usize) -> bool {
        true
    }

    fn take(&mut self, _copy: FrameCopy) {}
}

/// A sink for the copies of each of so many ports.
pub(crate) fn no_copies(alloc: Global, ports: usize) -> Result<Vec<NoCopies>, AllocError>
    ensures { IfOk result (λ sinks. vec_len sinks ≡ ports) }
{
    let mut sinks = Vec::with_capacity(alloc, ports)?;
    for _port in 0..ports {
        sinks.push_reserved(NoCopies);
    }
    Ok(sinks)
}
