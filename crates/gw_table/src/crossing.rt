//! What the tables of a gateway's egress ports differ in.

ghost use Rattle.std.specs.Prelude.{◌≡◌, ℕ, ◌+◌, ◌<◌, ◌↔◌, List, [], IfOk, OnOk};
ghost use Rattle.gw_table.specs.Crossings.{
  port_count,
  AreCrossings,
  AreCrossingsBelow,
  AreAlikeEverywhere,
};

use crate::difference::{Difference, differences_at};
use crate::ingress::Ingress;
use crate::table::Table;
use gw_ledger::MAX_PORTS;
use std::alloc::{AllocError, Global};

/// The tables of an egress port: before a change, and after it.
#[derive(Clone, Copy)]
pub struct Change<'a> {
    pub old: &'a Table,
    pub new: &'a Table,
}

/// A frame that may leave at an egress port by one of its two tables alone, and the parts that decide it.
#[derive(Clone, Copy, Debug)]
pub struct Crossing {
    pub egress: u8,
    pub difference: Difference,
}

/// What the tables of a gateway's ports differ in: the index of a change is its egress port, and the number of changes that of
/// the ports. Of more than 16 changes only the first 16 count. It is refused for want of memory alone.
pub fn crossings(alloc: Global, changes: &[Change]) -> Result<Vec<Crossing>, AllocError>
    ensures crossings { IfOk result (λ list. AreCrossings changes.now list.items) }
    ensures alike { IfOk result (λ list. (list.items ≡ []) ↔ AreAlikeEverywhere changes.now) }
{
    let ports = changes.len().min(MAX_PORTS) as u8;
    let mut found = Vec::new(alloc);
    for egress in 0..ports {
        push_crossings(alloc, &mut found, changes, ports, egress)?;
    }
    Ok(found)
}

/// Puts what the tables of an egress port differ in behind what was found.
fn push_crossings(
    alloc: Global,
    found: &mut Vec<Crossing>,
    changes: &[Change],
    ports: u8,
    egress: u8,
) -> Result<(), AllocError>
    requires ports { ports ≡ port_count changes.now }
    requires egress { egress < ports }
    requires before { AreCrossingsBelow changes.now egress found.old.items }
    ensures { OnOk result (AreCrossingsBelow changes.now (egress + 1) found.new.items) }
{
    let change = &changes[usize::from(egress)];
    let ingress = Ingress {
        below: ports,
        without: egress,
    };
    let differences = differences_at(alloc, ingress, change.old, change.new)?;
    for difference in &differences {
        found.push(Crossing {
            egress,
            difference: *difference,
        })?;
    }
    Ok(())
}
