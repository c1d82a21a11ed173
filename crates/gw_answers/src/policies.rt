//! Where a policy comes from, and the policy that a source means.

ghost use Rattle.std.specs.Prelude.{option_map, IfOk, IfErr};
ghost use Rattle.gw_answers.specs.Policies.{
  IsProgramPolicy,
  IsTablePolicy,
  MeansPolicy,
  RefusesListing,
  RefusesSource,
};
ghost use Rattle.gw_answers.specs.Texts.{RefusesText};

use crate::refusal::Refusal;
use crate::texts::{program, read_table};
use gw_policy::Policy;
use std::alloc::Global;
use std::sync::Arc;

/// Where a policy comes from.
#[derive(Clone, Copy, PartialEq, Eq, Debug)]
pub enum PolicySource<'a> {
    /// From nothing: the opening block.
    Opening,
    /// From a program's listing.
    Program(&'a str),
    /// From a file of this name with a program's listing.
    Listing(&'a str),
    /// From a file of this name with a table.
    Table(&'a str),
}

/// The policy that a source means, if it means one; a file's source with what the file holds. Refused are 10 to 13, a text that
/// is no listing, 20 to 30, code that is not accepted, 50 to 55, a text that is no table, 98, no UTF-8, and 100, no memory.
pub fn policy(
    alloc: Global,
    source: PolicySource,
    text: &[u8],
) -> Result<Option<Arc<Policy>>, Refusal>
    ensures means { IfOk result (λ policy. MeansPolicy source.entry text.now (option_map (λ shared. shared.value) policy)) }
    ensures refused { IfErr result (RefusesSource source.entry text.now) }
{
    match source {
        PolicySource::Opening => Ok(None),
        PolicySource::Program(listing) => program_policy(alloc, listing.as_bytes()),
        PolicySource::Listing(_) => program_policy(alloc, text),
        PolicySource::Table(_) => table_policy(alloc, text),
    }
}

/// The policy of a listing's program.
fn program_policy(alloc: Global, listing: &[u8]) -> Result<Option<Arc<Policy>>, Refusal>
    ensures means { IfOk result (λ policy. IsProgramPolicy listing.now (option_map (λ shared. shared.value) policy)) }
    ensures refused { IfErr result (RefusesListing listing.now) }
{
    let program = match program(alloc, listing) {
        Ok(program) => program,
        Err(refusal) => return Err(refusal),
    };
    match Arc::new(alloc, Policy::from_program(program)) {
        Ok(policy) => Ok(Some(policy)),
        Err(_) => Err(Refusal::OutOfMemory),
    }
}

/// The policy of a table's text.
fn table_policy(alloc: Global, text: &[u8]) -> Result<Option<Arc<Policy>>, Refusal>
    ensures means { IfOk result (λ policy. IsTablePolicy text.now (option_map (λ shared. shared.value) policy)) }
    ensures refused { IfErr result (RefusesText text.now) }
{
    let table = match read_table(alloc, text) {
        Ok(table) => table,
        Err(refusal) => return Err(refusal),
    };
    let Ok(policy) = Policy::from_table(alloc, table) else {
        return Err(Refusal::OutOfMemory);
    };
    match Arc::new(alloc, policy) {
        Ok(policy) => Ok(Some(policy)),
        Err(_) => Err(Refusal::OutOfMemory),
    }
}
