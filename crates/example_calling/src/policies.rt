//! Policies made of text.

ghost use Rattle.std.specs.Prelude.{IfOk, IfErr};
ghost use Rattle.example_calling.specs.Calls.{IsProgramPolicy, IsTablePolicy, IsProgramFault, IsTableFault};

use crate::fault::Fault;
use j1939_gateway::{Policy, Program, Table, read_listing};
use std::alloc::Global;

/// The policy of a listing: the text is read, its code is checked, and the accepted program is the policy.
pub fn program_policy(alloc: Global, listing: &[u8]) -> Result<Policy, Fault>
    ensures policy { IfOk result (IsProgramPolicy listing.now) }
    ensures refused { IfErr result (IsProgramFault listing.now) }
{
    let code = match read_listing(alloc, listing) {
        Ok(code) => code,
        Err(why) => return Err(Fault::Listing(why)),
    };
    match Program::check(alloc, code) {
        Ok(program) => Ok(Policy::from_program(program)),
        Err(refused) => Err(Fault::Program {
            why: refused.why,
            place: refused.place,
        }),
    }
}

/// The policy of a table's text: the table is read and compiled. Where memory for the program is wanting the table comes
/// back from `from_table`, and is dropped here.
pub fn table_policy(alloc: Global, text: &str) -> Result<Policy, Fault>
    ensures policy { IfOk result (IsTablePolicy text.now) }
    ensures refused { IfErr result (IsTableFault text.now) }
{
    let table = match Table::read(alloc, text) {
        Ok(table) => table,
        Err(why) => return Err(Fault::Table(why)),
    };
    match Policy::from_table(alloc, table) {
        Ok(policy) => Ok(policy),
        Err(_) => Err(Fault::OutOfMemory),
    }
}
