//! Policies as a script writes them.

ghost use Rattle.gw_replay.specs.Faults.{UnlessMemory};
ghost use Rattle.gw_replay.specs.Policies.{IsProgramText, IsTableHex, IsTableRead};

use crate::fault::Fault;
use gw_input::{ProgramFault, TableFault};
use gw_insn::ListRefusal;
use gw_policy::Policy;
use gw_table::TableRefusal;
use gw_verify::Cause;
use hex::FromHexError;
use std::alloc::Global;

/// The policy of a program, from its listing.
pub fn program_policy(alloc: Global, listing: &[u8]) -> Result<Policy, Fault>
    ensures { UnlessMemory result (IsProgramText listing.now) }
{
    match gw_input::program_policy(alloc, listing) {
        Ok(policy) => Ok(policy),
        Err(ProgramFault::Listing(ListRefusal::OutOfMemory)) => Err(Fault::OutOfMemory),
        Err(ProgramFault::Listing(why)) => Err(Fault::Listing(why)),
        Err(ProgramFault::Code(refused)) => match refused.why {
            Cause::OutOfMemory => Err(Fault::OutOfMemory),
            _ => Err(Fault::Program(refused)),
        },
    }
}

/// The policy of a table, from the hexadecimal digits of its text.
pub fn table_policy(alloc: Global, hex: &[u8]) -> Result<Policy, Fault>
    ensures { UnlessMemory result (IsTableHex hex.now) }
{
    match hex::decode(alloc, hex) {
        Ok(octets) => read_table(alloc, &octets),
        Err(FromHexError::OutOfMemory) => Err(Fault::OutOfMemory),
        Err(_) => Err(Fault::NoHex),
    }
}

/// The policy of a table, from its text.
fn read_table(alloc: Global, octets: &[u8]) -> Result<Policy, Fault>
    ensures { UnlessMemory result (IsTableRead octets.now) }
{
    match gw_input::table_policy(alloc, octets) {
        Ok(policy) => Ok(policy),
        Err(TableFault::NotUtf8) => Err(Fault::NoUtf8),
        Err(TableFault::Text(TableRefusal::OutOfMemory)) => Err(Fault::OutOfMemory),
        Err(TableFault::Text(why)) => Err(Fault::Table(why)),
        Err(TableFault::OutOfMemory) => Err(Fault::OutOfMemory),
    }
}
