//! What decides frames.

ghost use Rattle.std.specs.Prelude.{◌≡◌, ℕ, List, false};
ghost use Rattle.std.specs.Option.{option_map_or};
ghost use Rattle.gw_table.specs.Table.{is_pass, action_of};
ghost use Rattle.gw_judge.specs.declared.fate.Fate.{Fate};
ghost use Rattle.gw_judge.specs.Fates.{policy_fate, table_fate, verdict_fate};
ghost use Rattle.gw_frame.specs.Record.{word_of};

use crate::fate::{Decided, Fate};
use gw_frame::Frame;
use gw_policy::Policy;
use gw_table::{Action, IndexedTable, Part, Table};

/// What decides the frames of a log: a policy, or a table, which names the part of it that decides.
pub trait Decider {
    /// What becomes of a record that was taken at a port.
    ghost fate_by: { Self → ℕ → List ℕ → Fate };

    /// What becomes of a frame that was taken at the port `from`.
    fn fate(&self, frame: &Frame, from: u8) -> Fate
        ensures { result ≡ fate_by self.now from frame.now };
}

impl Decider for Policy {
    ghost fate_by = { policy_fate };

    fn fate(&self, frame: &Frame, from: u8) -> Fate {
        verdict_fate(self.verdict(frame, from), None, frame)
    }
}

impl Decider for Table {
    ghost fate_by = { table_fate };

    fn fate(&self, frame: &Frame, from: u8) -> Fate {
        let part = self.decides(frame, from);
        verdict_fate(is_passing(self, part), Some(part), frame)
    }
}

/// A table with an index takes about as long for 256 rules as for 16.
impl Decider for IndexedTable {
    ghost fate_by = { table_fate };

    fn fate(&self, frame: &Frame, from: u8) -> Fate {
        let part = self.decides(frame, from);
        verdict_fate(is_passing(self.table(), part), Some(part), frame)
    }
}

/// What becomes of a frame by its verdict, and by the part of a table that gave it.
fn verdict_fate(passes: bool, part: Option<Part>, frame: &Frame) -> Fate
    ensures { result ≡ verdict_fate passes (record { part = part; word = word_of frame.now }) }
{
    let word = frame.id().word();
    if passes {
        Fate::Passed(Decided { part, word })
    } else {
        Fate::Blocked(Decided { part, word })
    }
}

/// Whether the action of a part of a table is to pass.
fn is_passing(table: &Table, part: Part) -> bool
    ensures { result ≡ option_map_or is_pass (action_of table.now part) false }
{
    match part {
        Part::Rule(number) => match table.rules().get(number) {
            Some(rule) => is_pass(rule.action),
            None => false,
        },
        Part::Default => is_pass(table.default()),
        Part::Other => is_pass(table.other()),
    }
}

fn is_pass(action: Action) -> bool
    ensures { result ≡ is_pass action }
{
    matches!(action, Action::Pass)
}
