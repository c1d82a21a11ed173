//! Two policies in force, and what they say of a frame.

ghost use Rattle.std.specs.Prelude.{◌≡◌, ◌∷◌, [], IfOk, IfErr};
ghost use Rattle.example_calling.specs.declared.fault.Fault.TheVariants.{OutOfMemory};
ghost use Rattle.example_calling.specs.Calls.{IsInForce, IsPolicyFault, AreVerdicts, IsFault};

use crate::fault::Fault;
use crate::policies::{program_policy, table_policy};
use j1939_gateway::{Batch, Frame, Policy, PolicySet, one_answer};
use std::alloc::Global;
use std::sync::Arc;

/// The port at which frames are taken.
const TAKING: u8 = 0;

/// The port whose policy is the program.
const PROGRAM_PORT: u8 = 1;

/// The port whose policy is the table.
const TABLE_PORT: u8 = 2;

/// Whether a frame leaves at the program's port, and whether at the table's.
#[derive(Clone, Copy, PartialEq, Eq, Debug)]
pub struct Verdicts {
    pub by_program: bool,
    pub by_table: bool,
}

/// The set after one batch: the program's policy for port 1 and the table's for port 2. The other ports keep the opening
/// block, which passes nothing.
pub fn in_force(alloc: Global, listing: &[u8], table: &str) -> Result<PolicySet, Fault>
    ensures stands { IfOk result (IsInForce listing.now table.now) }
    ensures refused { IfErr result (IsPolicyFault listing.now table.now) }
{
    let by_program = shared(alloc, program_policy(alloc, listing)?)?;
    let by_table = shared(alloc, table_policy(alloc, table)?)?;
    let mut batch = Batch::new();
    // The batch has room, and no policy for either port.
    let Ok(()) = batch.add(PROGRAM_PORT, by_program) else {
        unreachable!()
    };
    let Ok(()) = batch.add(TABLE_PORT, by_table) else {
        unreachable!()
    };
    let mut set = PolicySet::new();
    match set.absorb(&batch) {
        Ok(()) => Ok(set),
        Err(_) => Err(Fault::OutOfMemory),
    }
}

/// An owner of a policy: batches and sets share policies.
fn shared(alloc: Global, policy: Policy) -> Result<Arc<Policy>, Fault>
    ensures value { IfOk result (λ shared. shared.value ≡ policy) }
    ensures refused { IfErr result (λ fault. fault ≡ OutOfMemory) }
{
    match Arc::new(alloc, policy) {
        Ok(shared) => Ok(shared),
        Err(_) => Err(Fault::OutOfMemory),
    }
}

/// A batch of one policy, for a port.
pub fn batch_for(alloc: Global, port: u8, policy: Policy) -> Result<Batch, Fault>
    ensures batch { IfOk result (λ batch. batch ≡ record { port = port; policy = policy } ∷ []) }
    ensures refused { IfErr result (λ fault. fault ≡ OutOfMemory) }
{
    let mut batch = Batch::new();
    let Ok(()) = batch.add(port, shared(alloc, policy)?) else {
        unreachable!()
    };
    Ok(batch)
}

/// Where a record's frame leaves that was taken at port 0: at port 1 by what the listing's program answers, and at port 2
/// by the table's first rule that holds.
pub fn judge(alloc: Global, listing: &[u8], table: &str, octets: &[u8]) -> Result<Verdicts, Fault>
    ensures verdicts { IfOk result (AreVerdicts listing.now table.now octets.now) }
    ensures refused { IfErr result (IsFault listing.now table.now octets.now) }
{
    // A program is accepted, so it returns one answer on the record.
    one_answer();
    let frame = match Frame::read(octets) {
        Ok(frame) => frame,
        Err(why) => return Err(Fault::Record(why)),
    };
    let set = in_force(alloc, listing, table)?;
    Ok(Verdicts {
        by_program: set.verdict(PROGRAM_PORT, &frame, TAKING),
        by_table: set.verdict(TABLE_PORT, &frame, TAKING),
    })
}
