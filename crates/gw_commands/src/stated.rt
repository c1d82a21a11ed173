//! Tables as their texts state them.

ghost use Rattle.std.specs.Prelude.{◌≡◌, IfOk, IfErr};
ghost use Rattle.gw_commands.specs.Stated.{known_lines};

use gw_answers::{Refusal, read_table};
use gw_input::rule_lines;
use gw_table::Table;
use std::alloc::{AllocError, Global};

/// A table, and where its rules stand in its text.
#[derive(Drop)]
pub struct StatedTable {
    pub table: Table,
    /// The numbers of the lines that begin a rule, in the order of the rules; none where not each rule has such a line.
    pub lines: Vec<usize>,
}

/// Two tables: before a change, and after it.
#[derive(Drop)]
pub struct StatedChange {
    pub old: StatedTable,
    pub new: StatedTable,
}

impl StatedTable {
    ghost use Rattle.std.specs.Prelude.{◌≡◌, IfOk, IfErr};
    ghost use Rattle.gw_answers.specs.Texts.{RefusesText};
    ghost use Rattle.gw_commands.specs.Stated.{IsStated};

    /// Reads a table from its text.
    pub fn read(alloc: Global, text: &[u8]) -> Result<StatedTable, Refusal>
        ensures table { IfOk result (IsStated text.now) }
        ensures refused { IfErr result (RefusesText text.now) }
    {
        let table = match read_table(alloc, text) {
            Ok(table) => table,
            Err(refusal) => return Err(refusal),
        };
        match known_lines(alloc, text, &table) {
            Ok(lines) => Ok(StatedTable { table, lines }),
            Err(AllocError) => Err(Refusal::OutOfMemory),
        }
    }
}

/// The lines that begin a rule, where as many do as the table has rules.
fn known_lines(alloc: Global, text: &[u8], table: &Table) -> Result<Vec<usize>, AllocError>
    ensures { IfOk result (λ lines. lines.items ≡ known_lines text.now table.now) }
{
    let mut lines = rule_lines(alloc, text)?;
    if lines.len() != table.rules().len() {
        lines.clear();
    }
    Ok(lines)
}
