//! The frame that a port's worker holds.

ghost use Rattle.std.specs.Prelude.{◌≡◌, ℕ, ◌+◌, ◌<◌, Option, Some, OnSome, option_copied, option_map, All};
ghost use Rattle.gw_policy.specs.Filter.{Filter};
ghost use Rattle.gw_core.specs.Turns.{CanRun, HasMade, Progresses, IsFound};

use crate::event::Answer;
use crate::lane::Lane;
use gw_frame::Frame;
use gw_ledger::{FrameCopy, MAX_PORTS, Outcome, PortSet};
use gw_machine::{State, one_answer};
use gw_policy::{Batch, Policy};
use std::sync::Arc;

/// Where a policy stands: which published batch, and which of its pairs.
#[derive(Clone, Copy)]
pub(crate) struct PairIndex {
    pub(crate) batch: usize,
    pub(crate) pair: usize,
}

/// For each port where the policy in force stands, if it is not the opening block.
pub(crate) type PairIndices = [Option<PairIndex>; MAX_PORTS];

/// A frame that is not finished.
#[derive(Clone, Copy)]
pub(crate) struct Active {
    pub(crate) frame: Frame,
    pub(crate) number: u32,
    pub(crate) front: u32,
    /// The policies in force at its taking.
    pub(crate) indices: PairIndices,
    /// The ports so far whose policies pass it, and those at which it was placed.
    pub(crate) allowed: PortSet,
    pub(crate) placed: PortSet,
    /// The port that it is offered to, and the state of this port's program, or none where the copy is to be placed.
    pub(crate) port: u8,
    pub(crate) running: Option<State>,
}

/// What a frame did at the port that it is offered to.
#[derive(Clone, Copy)]
pub(crate) enum Progress {
    /// One instruction, and there is more to do at the port.
    Runs,
    /// The last instruction of a policy that blocks.
    Blocks,
    /// Nothing yet: the copy is to be placed.
    Places,
}

impl Active {
    ghost use Rattle.gw_core.specs.Turns.{CanInstruct, Instructs, index_in};
    ghost use Rattle.gw_core.specs.Standing.{has_room, lane_with, copy_from, active_placed, placing_answer, outcome_held};

    /// Makes an instruction of the policy for the port, unless the copy is to be placed.
    pub(crate) fn instruct(&mut self, batches: &[Batch], own: u8) -> Progress
        requires { CanInstruct batches.now own self.old }
        ensures { (policy : Option Filter) → IsFound batches.now (index_in self.old.indices self.old.port) policy
            → Instructs policy own self.old self.old.running result self.new }
    {
        let policy = policy_at(batches, self.indices[usize::from(self.port)]);
        let Some(state) = &mut self.running else {
            return Progress::Places;
        };
        match instruct(policy, state, &self.frame, own) {
            None => Progress::Runs,
            Some(false) => Progress::Blocks,
            Some(true) => {
                self.running = None;
                Progress::Runs
            }
        }
    }

    /// Enqueues the frame's copy on the lane to the port, unless as many as may wait are there.
    pub(crate) fn enqueue(&mut self, own: u8, lane: &mut Lane) -> Answer
        requires { self.old.port < 16 }
        ensures active { All (λ q. q < self.old.port) self.old.allowed → All (λ q. q < self.old.port) self.old.placed
            → self.new ≡ active_placed (has_room lane.old) self.old }
        ensures answer { result ≡ placing_answer (has_room lane.old) self.old.port }
        ensures lane { lane.new ≡ lane_with lane.old (copy_from own self.old) }
    {
        let to = self.port;
        self.allowed.add(to);
        let copy = FrameCopy {
            from: own,
            number: self.number,
            frame: self.frame,
        };
        if !lane.offer(copy) {
            return Answer::Lost { to };
        }
        self.placed.add(to);
        Answer::Placed { to }
    }

    /// What became of the frame.
    pub(crate) fn outcome(&self) -> Outcome
        ensures { result ≡ outcome_held self.now }
    {
        Outcome {
            number: self.number,
            front: self.front,
            local: false,
            allowed: self.allowed,
            placed: self.placed,
        }
    }
}

/// The policy at an index, or the opening block.
pub(crate) fn policy_at(batches: &[Batch], index: Option<PairIndex>) -> Option<&Policy>
    ensures { (policy : Option Filter) → IsFound batches.now index policy → option_copied result ≡ policy }
{
    let index = index?;
    let (_, policy) = batches.get(index.batch)?.pair(index.pair)?;
    Some(&**policy)
}

/// The owner of the policy at an index, or none for the opening block.
pub(crate) fn owner_at(batches: &[Batch], index: Option<PairIndex>) -> Option<&Arc<Policy>>
    ensures { (policy : Option Filter) → IsFound batches.now index policy
        → option_map (λ owner. owner.now.value) result ≡ policy }
{
    let index = index?;
    let (_, policy) = batches.get(index.batch)?.pair(index.pair)?;
    Some(policy)
}

/// One instruction of a policy for a frame that was taken at a port: whether the frame passes, where it is the policy's
/// last. The opening block has one instruction.
fn instruct(policy: Option<&Policy>, state: &mut State, frame: &Frame, own: u8) -> Option<bool>
    requires { CanRun (option_copied policy) frame.now own state.old }
    ensures stays { OnSome result (state.new ≡ state.old) }
    ensures made { (made : ℕ) → HasMade (option_copied policy.entry) frame.now own made state.old
        → Progresses (option_copied policy.entry) frame.now own made result state.new }
{
    let Some(policy) = policy else {
        return Some(false);
    };
    // A table and its program mean the same on records, and a frame's octets are one.
    let _record = frame.bytes();
    let answer = state.step(policy.program(), frame, own)?;
    Some(answer != 0)
}
