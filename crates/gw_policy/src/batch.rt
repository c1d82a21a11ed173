//! Policies that are to come into force together.

ghost use Rattle.std.specs.Prelude.{
  ◌≡◌,
  ◌<◌,
  ◌≤◌,
  [],
  ◌∷◌,
  ◌++◌,
  length,
  true,
  false,
  IsOk,
  IfOk,
  IfErr,
  OnOk,
  OnErr,
  slice_get,
  option_map,
};

use crate::policy::Policy;
use arrayvec::ArrayVec;
use gw_ledger::MAX_PORTS;
use std::alloc::AllocError;
use std::marker::Model;
use std::sync::Arc;

/// Why a policy did not join a batch. It comes back.
#[derive(Drop)]
pub enum BatchRefusal {
    /// 60: the batch has a policy for the port.
    SamePortTwice(Arc<Policy>),
    /// 61: the batch has sixteen pairs.
    Full(Arc<Policy>),
}

/// Up to sixteen ports, each with a policy.
#[derive(Drop)]
pub struct Batch {
    // Each is there: an `ArrayVec` needs a default for the room that is left.
    pairs: ArrayVec<Option<(u8, Arc<Policy>)>, MAX_PORTS>,
}

impl Model for Batch {
    ghost use Rattle.std.specs.Prelude.{◌≡◌, List, true, is_some};
    ghost use Rattle.std.specs.List.{list_all};
    ghost use Rattle.gw_policy.specs.Batches.{Pair, pairs_of};

    ghost Value = { List Pair };

    ghost view = { λ b. pairs_of b.pairs.items };

    ghost invariant = { λ b. list_all is_some b.pairs.items ≡ true };
}

impl BatchRefusal {
    ghost use Rattle.gw_policy.specs.BatchRefusals.{refusal_number};

    /// The number by which the refusal is known outside: 60 or 61.
    pub fn number(&self) -> u32
        ensures { result ≡ refusal_number self.now }
    {
        match self {
            BatchRefusal::SamePortTwice(_) => 60,
            BatchRefusal::Full(_) => 61,
        }
    }
}

impl Batch {
    ghost use Rattle.gw_policy.specs.Batches.{Pair, names, names_port, pairs_of};
    ghost use Rattle.gw_policy.specs.BatchRefusals.{IsBatchRefusal};

    /// A batch without pairs.
    pub fn new() -> Batch
        ensures { result ≡ [] }
    {
        Batch {
            pairs: ArrayVec::new(),
        }
    }

    /// How many pairs the batch has, at most 16.
    pub fn len(&self) -> usize
        ensures { result ≡ length self.now }
    {
        self.pairs.len()
    }

    /// The port and the policy at an index, in the order in which they joined.
    pub fn pair(&self, index: usize) -> Option<(u8, &Arc<Policy>)>
        ensures { option_map (λ pair. record { port = pair.0; policy = pair.1.now.value }) result ≡ slice_get self.now index }
    {
        let Some(held) = self.pairs.as_slice().get(index) else {
            return None;
        };
        match held {
            Some((port, policy)) => Some((*port, policy)),
            None => None,
        }
    }

    /// Joins a policy for a port. It is refused, and comes back, first where the batch has a policy for the port, and
    /// then where it has sixteen pairs.
    pub fn add(&mut self, port: u8, policy: Arc<Policy>) -> Result<(), BatchRefusal>
        ensures added { OnOk result (self.new ≡ self.old ++ record { port = port; policy = policy.value } ∷ []) }
        ensures only_once { OnOk result (names_port port self.old ≡ false) }
        ensures room { OnOk result (length self.old < 16) }
        ensures refused { IfErr result (IsBatchRefusal port policy.value self.old) }
        ensures unchanged { OnErr result (self.new ≡ self.old) }
    {
        if self.names(port) {
            return Err(BatchRefusal::SamePortTwice(policy));
        }
        if self.pairs.is_full() {
            return Err(BatchRefusal::Full(policy));
        }
        self.pairs.push(Some((port, policy)));
        Ok(())
    }

    // Whether a pair is for the port.
    fn names(&self, port: u8) -> bool
        ensures { result ≡ names_port port self.now }
    {
        self.pairs
            .iter()
            .any(|pair| matches!(pair, Some((other, _)) if *other == port))
    }

    // The pairs, each with an owner of its policy more.
    pub(crate) fn copies(
        &self,
    ) -> Result<ArrayVec<Option<(u8, Arc<Policy>)>, MAX_PORTS>, AllocError>
        ensures { IfOk result (λ copies. pairs_of copies.items ≡ self.now) }
    {
        self.pairs.clone()
    }
}
