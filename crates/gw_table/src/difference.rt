//! What two tables differ in.

ghost use Rattle.std.specs.Prelude.{◌≡◌, ◌≢◌, ℕ, ◌+◌, ◌*◌, ◌<◌, ◌≤◌, ◌↔◌, List, [], length, All, Some, IfOk, OnOk, MatchOption};
ghost use Rattle.gw_table.specs.Table.{Meaning, IsWellFormed, IsRule, action_of};
ghost use Rattle.gw_table.specs.Difference.{AreDifferences, AreAlike, IsDifference, IsUnlike};
ghost use Rattle.gw_table.specs.Ingress.{IsIngress, guarded_rules};
ghost use Rattle.gw_table.specs.PartIndices.{part_at, index_of, HoldFirst, DecideAt, IsOfIndices, AreListed, AreDifferencesAt};

use crate::ingress::Ingress;
use crate::search::common_frame;
use crate::table::{Action, Part, Rule, Table};
use crate::universe::empty_frame;
use gw_frame::Frame;
use std::alloc::{AllocError, Global};

/// A frame that two tables treat unlike when it is taken at a port, and the parts that decide it.
#[derive(Clone, Copy, Debug)]
pub struct Difference {
    /// What decides it in the old table.
    pub old: Part,
    /// What decides it in the new one.
    pub new: Part,
    /// One of 29 bits, of priority 0, or one of 11 bits; without payload.
    pub frame: Frame,
    /// The ingress port, below 16.
    pub port: u8,
}

/// A frame, and the port at which it is taken.
#[derive(Clone, Copy)]
pub struct Witness {
    pub frame: Frame,
    pub port: u8,
}

impl Table {
    /// What another table differs in: each pair of a part of this table and a part of the other that decide some frame unlike
    /// at a port below 16, once, with one such frame and port. The rules stand first, then `default`, then `other`. It is
    /// refused for want of memory alone.
    pub fn differences(&self, alloc: Global, other: &Table) -> Result<Vec<Difference>, AllocError>
        ensures differences { IfOk result (λ list. AreDifferences self.now other.now list.items) }
        ensures alike { IfOk result (λ list. (list.items ≡ []) ↔ AreAlike self.now other.now) }
    {
        differences_at(alloc, Ingress::all(), self, other)
    }

    /// How many parts the table has.
    pub(crate) fn part_count(&self) -> usize
        ensures count { result ≡ length self.now.rules + 2 }
        ensures table { IsWellFormed self.now }
    {
        self.rules().len() + 2
    }

    pub(crate) fn part_at(&self, index: usize) -> Part
        ensures { result ≡ part_at (length self.now.rules) index }
    {
        let rules = self.rules().len();
        if index < rules {
            Part::Rule(index)
        } else if index == rules {
            Part::Default
        } else {
            Part::Other
        }
    }

    pub(crate) fn action_at(&self, index: usize) -> Action
        ensures { action_of self.now (part_at (length self.now.rules) index) ≡ Some result }
    {
        match self.part_at(index) {
            Part::Rule(rule) => self.rules()[rule].action,
            Part::Default => self.default(),
            Part::Other => self.other(),
        }
    }
}

/// What two tables differ in at these ports, as by `Table::differences`.
pub fn differences_at(
    alloc: Global,
    ingress: Ingress,
    old: &Table,
    new: &Table,
) -> Result<Vec<Difference>, AllocError>
    requires { ingress.below ≤ 16 }
    ensures { IfOk result (λ list. AreDifferencesAt ingress old.now new.now list.items) }
{
    let guarded = ingress.guarded(alloc, old.rules())?;
    let mut found = Vec::new(alloc);
    for index in 0..old.part_count() {
        push_row(alloc, &mut found, ingress, &guarded, old, index, new)?;
    }
    Ok(found)
}

/// Puts the differences of the part at an index of the old table and each part of the new one behind those found.
fn push_row(
    alloc: Global,
    found: &mut Vec<Difference>,
    ingress: Ingress,
    guarded: &[Rule],
    old: &Table,
    index: usize,
    new: &Table,
) -> Result<(), AllocError>
    requires ports { ingress.below ≤ 16 }
    requires guarded { guarded.now ≡ guarded_rules ingress old.now.rules }
    requires table { IsWellFormed old.now }
    requires index { index < length old.now.rules + 2 }
    requires before { AreListed ingress old.now new.now index 0 found.old.items }
    ensures { OnOk result (AreListed ingress old.now new.now (index + 1) 0 found.new.items) }
{
    for with in 0..new.part_count() {
        if let Some(difference) = difference_at(alloc, ingress, guarded, old, index, new, with)? {
            found.push(difference)?;
        }
    }
    Ok(())
}

/// A difference of the parts at an index of each table.
fn difference_at(
    alloc: Global,
    ingress: Ingress,
    guarded: &[Rule],
    old: &Table,
    a: usize,
    new: &Table,
    b: usize,
) -> Result<Option<Difference>, AllocError>
    requires ports { ingress.below ≤ 16 }
    requires guarded { guarded.now ≡ guarded_rules ingress old.now.rules }
    requires a { a < length old.now.rules + 2 }
    requires b { b < length new.now.rules + 2 }
    ensures { IfOk result (λ found. MatchOption found
        ((octets : List ℕ) (port : ℕ) → IsUnlike old.now new.now octets port → IsIngress ingress port
        → ¬ DecideAt old.now a new.now b octets port)
        (λ d. IsDifference old.now new.now d × IsIngress ingress d.port × IsOfIndices old.now new.now a b d)) }
{
    if old.action_at(a) == new.action_at(b) {
        return Ok(None);
    }
    let Some(witness) = witness_at(alloc, ingress, guarded, old, a, new, b)? else {
        return Ok(None);
    };
    Ok(Some(Difference {
        old: old.part_at(a),
        new: new.part_at(b),
        frame: witness.frame,
        port: witness.port,
    }))
}

/// A frame at one of the ports that the parts at an index of each table decide.
fn witness_at(
    alloc: Global,
    ingress: Ingress,
    guarded: &[Rule],
    old: &Table,
    a: usize,
    new: &Table,
    b: usize,
) -> Result<Option<Witness>, AllocError>
    requires ports { ingress.below ≤ 16 }
    requires guarded { guarded.now ≡ guarded_rules ingress old.now.rules }
    requires a { a < length old.now.rules + 2 }
    requires b { b < length new.now.rules + 2 }
    ensures { IfOk result (λ found. MatchOption found
        ((octets : List ℕ) (port : ℕ) → IsIngress ingress port → ¬ DecideAt old.now a new.now b octets port)
        (λ w. DecideAt old.now a new.now b w.frame w.port × IsIngress ingress w.port)) }
{
    let is_other = a > old.rules().len();
    if is_other != (b > new.rules().len()) {
        return Ok(None);
    }
    if is_other {
        // Neither table looks at such a frame, so that one of them stands for all.
        let Some(port) = ingress.first() else {
            return Ok(None);
        };
        let frame = empty_frame(0);
        return Ok(Some(Witness { frame, port }));
    }
    // Two rules stand before those of the old table.
    common_frame(alloc, guarded, a + 2, new.rules(), b)
}
