//! The rounds that the driver times of a table's index.

ghost use Rattle.std.specs.Prelude.{◌≡◌, map, length};
ghost use Rattle.gw_table.specs.Table.{table_passes};
ghost use Rattle.bench_calls.specs.Calls.{after};

use crate::rounds::PORT;
use gw_frame::Frame;
use gw_table::IndexedTable;

/// Judges every frame by a table's index in each round. What stays are the verdicts of the last.
pub fn index_rounds(table: &IndexedTable, frames: &[Frame], rounds: u32, verdicts: &mut [bool])
    requires { length verdicts.old ≡ length frames.now }
    ensures { verdicts.new ≡ after rounds verdicts.old (map (λ octets. table_passes table.now octets 0) frames.now) }
{
    for _ in 0..rounds {
        index_each(table, frames, verdicts);
    }
}

fn index_each(table: &IndexedTable, frames: &[Frame], verdicts: &mut [bool])
    requires { length verdicts.old ≡ length frames.now }
    ensures { verdicts.new ≡ map (λ octets. table_passes table.now octets 0) frames.now }
{
    for (i, verdict) in verdicts.iter_mut().enumerate() {
        *verdict = table.verdict(&frames[i], PORT);
    }
}
