//! The policies in force: where they stand among the published batches, and a batch of them.

ghost use Rattle.std.specs.Prelude.{◌≡◌, ◌≤◌, ◌++◌, List, MatchOption, IfSome, true, false, option_map};
ghost use Rattle.gw_policy.specs.Batches.{Pair};
ghost use Rattle.gw_core.specs.Events.{names_no_port};
ghost use Rattle.gw_core.specs.Gateway.{IndicesWith};
ghost use Rattle.gw_core.specs.Standing.{AreFound};
ghost use Rattle.gw_core.specs.Renewing.{pair_if, policies_below};

use crate::active::{PairIndex, PairIndices, owner_at};
use gw_policy::{Batch, Policy};
use std::sync::Arc;

/// Where the policies in force stand once a batch is published as the one of this index, or none where the batch
/// names a port that is not there.
pub(crate) fn indices_with(
    batch: &Batch,
    ports: u32,
    index: usize,
    latest: PairIndices,
) -> Option<PairIndices>
    requires { ports ≤ 16 }
    ensures { MatchOption result (names_no_port ports batch.now ≡ true)
        (λ indices. (names_no_port ports batch.now ≡ false) × IndicesWith batch.now index latest indices) }
{
    let mut indices = latest;
    for pair in 0..batch.len() {
        let Some((port, policy)) = batch.pair(pair) else {
            unreachable!()
        };
        // A policy's program is accepted, and means what its table does.
        let _program = policy.program();
        if u32::from(port) >= ports {
            return None;
        }
        indices[usize::from(port)] = Some(PairIndex { batch: index, pair });
    }
    Some(indices)
}

/// The policies in force for the ports below a number, as a batch, or none where a policy has too many owners.
pub(crate) fn policies_in_force(batches: &[Batch], latest: &PairIndices, ports: u8) -> Option<Batch>
    requires { ports ≤ 16 }
    ensures { IfSome result (λ batch. (published : List (List Pair)) → AreFound batches.now latest.now published
        → batch ≡ policies_below published ports) }
{
    let mut batch = Batch::new();
    for port in 0..ports {
        let owner = owner_at(batches, latest[usize::from(port)]);
        if !join(&mut batch, port, owner) {
            return None;
        }
    }
    Some(batch)
}

/// Joins a policy to a batch for a port, if there is one, unless it has too many owners.
fn join(batch: &mut Batch, port: u8, owner: Option<&Arc<Policy>>) -> bool
    ensures { result ≡ true → batch.new ≡ batch.old ++ pair_if port (option_map (λ one. one.now.value) owner.entry) }
{
    let Some(owner) = owner else {
        return true;
    };
    let Ok(more) = Arc::try_clone(owner) else {
        return false;
    };
    batch.add(port, more).is_ok()
}
