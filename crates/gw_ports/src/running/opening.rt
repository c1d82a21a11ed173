//! Opening a run: a new gateway, each port of which knows the first batch.

ghost use Rattle.std.specs.Prelude.{◌≡◌, ◌<◌, ℕ, [], All, IfErr, IfOk, OnOk, length, slice_index_or};
ghost use Rattle.gw_board.specs.Refusals.{PortsBelow};
ghost use Rattle.gw_ports.specs.Ends.{Ingress};
ghost use Rattle.gw_ports.specs.Runs.{IsOpened, RefusesRun};

use crate::{Parts, PortIn, RunRefusal, gateway};
use gw_board::{ReplaceRefusal, Told};
use gw_ledger::Limits;
use gw_policy::Batch;
use std::alloc::Global;
use std::sync::Wait;

/// The parts of a new gateway, each port of which knows the first batch.
pub(super) fn open<R: Wait>(
    rt: &R,
    alloc: Global,
    limits: Limits,
    first: Batch,
) -> Result<Parts, RunRefusal>
    ensures opened { IfOk result (λ parts. IsOpened limits first parts.operator parts.ins.items parts.outs.items) }
    ensures ports { OnOk result (PortsBelow limits.ports first) }
    ensures refused { IfErr result (RefusesRun limits first) }
{
    let mut parts = match gateway(alloc, limits) {
        Ok(parts) => parts,
        Err(why) => return Err(RunRefusal::NotMade(why)),
    };
    // A new operator has published nothing, may publish one batch at least, and is not stopped.
    let _versions = limits.versions();
    match parts.operator.replace(rt, first) {
        Ok(_) => {}
        Err(ReplaceRefusal::NoSuchPort(_)) => {
            parts.operator.end(rt);
            return Err(RunRefusal::NoSuchPort);
        }
        Err(ReplaceRefusal::OutOfMemory(_)) => {
            parts.operator.end(rt);
            return Err(RunRefusal::NotPublished);
        }
        Err(ReplaceRefusal::VersionsSpent(_)) => unreachable!(),
        Err(ReplaceRefusal::Stopped(_)) => unreachable!(),
    }
    let told = parts.operator.tell();
    learn_all(&mut parts.ins, &told);
    Ok(parts)
}

// Advances ports that know nothing to the policy version that is told.
fn learn_all(ports: &mut [PortIn], told: &Told)
    requires { All (λ i. (i.board ≡ told.now.board) × (i.known ≡ [])) ports.old }
    ensures size { length ports.new ≡ length ports.old }
    ensures told { (k : ℕ) (d : Ingress) → k < length ports.old
        → slice_index_or ports.new k d ≡ record (slice_index_or ports.old k d) { known = told.now.batches } }
{
    for index in 0..ports.len() {
        ports[index].learn(told);
    }
}
