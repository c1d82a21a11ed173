//! A replacement of policies in a thread of its own, which hands the operator back.

ghost use Rattle.std.specs.Prelude.{◌≡◌, MatchResult};
ghost use Rattle.example_calling.specs.Replacing.{IsNotPublished};
ghost use Rattle.example_calling.specs.Threads.{with_batch};

use crate::fault::Fault;
use crate::replacing::publish;
use j1939_gateway::{Batch, Operator};
use std::snapshot::Snapshot;
use std::sync::Wait;
use std::thread::Promise;

/// What is known of a thread that published a batch.
#[derive(Drop)]
pub(crate) struct OperatorPromise(pub Snapshot<Operator>, pub Snapshot<Batch>);

impl Promise<(Operator, Result<(), Fault>)> for OperatorPromise {
    ghost use Rattle.std.specs.Prelude.{◌≡◌, MatchResult};
    ghost use Rattle.example_calling.specs.Replacing.{IsNotPublished};
    ghost use Rattle.example_calling.specs.Threads.{with_batch};

    ghost kept_by = { λ p done.
        MatchResult done.1 (λ u. done.0 ≡ with_batch p.0.value p.1.value) (IsNotPublished p.0.value p.1.value) };
}

/// Publishes the batch, and hands the operator back. It waits for ports that are reading.
pub(crate) fn replace_policies<R: Wait>(
    rt: &R,
    operator: Operator,
    batch: Batch,
) -> (Operator, Result<(), Fault>)
    ensures { MatchResult result.1 (λ done. result.0 ≡ with_batch operator batch) (IsNotPublished operator batch) }
{
    let mut held = operator;
    let published = publish(rt, &mut held, batch);
    (held, published)
}
