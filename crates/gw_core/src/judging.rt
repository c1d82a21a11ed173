//! A frame that is judged for all other ports in one call.

ghost use Rattle.std.specs.Prelude.{◌≡◌, ℕ, ◌+◌, ◌<◌, ◌≤◌, List, length, Option, option_copied, All};
ghost use Rattle.gw_policy.specs.Filter.{Filter};
ghost use Rattle.gw_policy.specs.Batches.{passes as policy_passes};
ghost use Rattle.gw_core.specs.Turns.{IsFound, index_in};

use crate::active::{PairIndices, policy_at};
use crate::lane::Lane;
use gw_frame::Frame;
use gw_ledger::{FrameCopy, Outcome, PortSet};
use gw_machine::one_answer;
use gw_policy::{Batch, Policy};

/// A foreign frame: its copy for each port, and what became of it at the ports for which it was judged.
#[derive(Clone, Copy)]
pub(crate) struct Judging {
    pub(crate) copy: FrameCopy,
    pub(crate) front: u32,
    /// The ports whose policies pass it, and those at which it was placed.
    pub(crate) allowed: PortSet,
    pub(crate) placed: PortSet,
}

impl Judging {
    ghost use Rattle.gw_core.specs.PortHistory.{PortEvent};
    ghost use Rattle.gw_core.specs.Standing.{Worker, outcome_held};
    ghost use Rattle.gw_core.specs.Forwarding.{Judged, Judges, held_by};

    /// Judges the frame for each other port, and enqueues its copies on the lanes there.
    pub(crate) fn judge_all(&mut self, batches: &[Batch], indices: &PairIndices, lanes: &mut [Lane])
        requires { length lanes.old ≤ 16 }
        ensures { (w : Worker) (frame : List ℕ) (done : List PortEvent)
            → Judged batches.now w indices.now frame done 0 self.old lanes.old
            → Judged batches.now w indices.now frame done (length lanes.new) self.new lanes.new }
    {
        for port in 0..lanes.len() as u8 {
            self.judge_other(batches, indices, port, lanes);
        }
    }

    /// Judges the frame for a port, if that is another.
    fn judge_other(
        &mut self,
        batches: &[Batch],
        indices: &PairIndices,
        port: u8,
        lanes: &mut [Lane],
    )
        requires few { length lanes.old ≤ 16 }
        requires there { port < length lanes.old }
        ensures judged { (w : Worker) (frame : List ℕ) (done : List PortEvent)
            → Judged batches.now w indices.now frame done port self.old lanes.old
            → Judged batches.now w indices.now frame done (port + 1) self.new lanes.new }
    {
        // Each program has an instruction to begin with.
        one_answer();
        if port == self.copy.from {
            return;
        }
        self.judge(batches, indices, port, &mut lanes[usize::from(port)]);
    }

    /// Judges the frame for a port, and enqueues its copy on the lane there where the policy passes it. A table is judged by
    /// its index.
    fn judge(&mut self, batches: &[Batch], indices: &PairIndices, port: u8, lane: &mut Lane)
        requires { port < 16 }
        ensures { (policy : Option Filter) → IsFound batches.now (index_in indices.now port) policy
            → All (λ q. q < port) self.old.allowed → All (λ q. q < port) self.old.placed
            → Judges (policy_passes policy self.old.copy.frame self.old.copy.from) port self.old lane.old self.new lane.new }
    {
        let policy = policy_at(batches, indices[usize::from(port)]);
        if passes(policy, &self.copy.frame, self.copy.from) {
            self.allowed.add(port);
            if lane.offer(self.copy) {
                self.placed.add(port);
            }
        }
    }

    /// What became of the frame.
    pub(crate) fn outcome(&self) -> Outcome
        ensures { result ≡ outcome_held (held_by self.now) }
    {
        Outcome {
            number: self.copy.number,
            front: self.front,
            local: false,
            allowed: self.allowed,
            placed: self.placed,
        }
    }
}

/// Whether a policy passes a frame that was taken at a port. The opening block passes none.
fn passes(policy: Option<&Policy>, frame: &Frame, own: u8) -> bool
    ensures { result ≡ policy_passes (option_copied policy.entry) frame.now own }
{
    match policy {
        Some(policy) => policy.verdict(frame, own),
        None => false,
    }
}
