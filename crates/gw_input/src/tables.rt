//! Tables and their policies, from octets.

ghost use Rattle.std.specs.Prelude.{IfOk, IfErr};
ghost use Rattle.gw_input.specs.Tables.{IsTable, IsTableFault, IsTablePolicy};

use gw_policy::Policy;
use gw_table::{Table, TableRefusal};
use std::alloc::Global;

/// Why octets give no table, or no policy of one.
#[derive(Drop, Debug)]
pub enum TableFault {
    /// The octets are not UTF-8.
    NotUtf8,
    /// 50 to 55: a text that is no table.
    Text(TableRefusal),
    /// Memory was refused for the policy of a table.
    OutOfMemory,
}

/// Reads a table from the octets of its text.
pub fn table(alloc: Global, octets: &[u8]) -> Result<Table, TableFault>
    ensures table { IfOk result (IsTable octets.now) }
    ensures refused { IfErr result (IsTableFault octets.now) }
{
    let Ok(text) = str::from_utf8(octets) else {
        return Err(TableFault::NotUtf8);
    };
    Table::read(alloc, text).map_err(TableFault::Text)
}

/// Reads a table from the octets of its text, and compiles it to a policy.
pub fn table_policy(alloc: Global, octets: &[u8]) -> Result<Policy, TableFault>
    ensures policy { IfOk result (IsTablePolicy octets.now) }
    ensures refused { IfErr result (IsTableFault octets.now) }
{
    match Policy::from_table(alloc, table(alloc, octets)?) {
        Ok(policy) => Ok(policy),
        Err(_) => Err(TableFault::OutOfMemory),
    }
}
