//! Tables of pass and block rules.

ghost use Rattle.std.specs.Prelude.{◌≡◌};
ghost use Rattle.gw_table.specs.Table.{is_pass, IsWellFormed};

use gw_ident::LEAST_PDU2;
use std::marker::Model;

/// The greatest parameter group number, of 18 bits (SAE J1939-21).
pub(crate) const GREATEST_GROUP: u32 = 262143;

/// The greatest address. A range of ports is one of octets too.
pub(crate) const GREATEST_OCTET: u32 = 255;

/// The least PDU format of a PDU2 group, as a number among parameter groups.
pub(crate) const PDU2: u32 = LEAST_PDU2 as u32;

/// What becomes of a frame.
#[derive(Clone, Copy, PartialEq, Eq, Debug)]
pub enum Action {
    Pass,
    Block,
}

impl Action {
    pub(crate) fn passes(self) -> bool
        ensures { result ≡ is_pass self }
    {
        matches!(self, Action::Pass)
    }
}

/// An inclusive range of numbers.
#[derive(Clone, Copy, PartialEq, Eq, Debug)]
pub struct Span {
    pub low: u32,
    pub high: u32,
}

/// A rule: what becomes of an extended data frame of which all four ranges hold.
#[derive(Clone, Copy, PartialEq, Eq, Debug)]
pub struct Rule {
    pub action: Action,
    /// Parameter group numbers, 0 to 262143.
    pub pgn: Span,
    /// Source addresses, 0 to 255.
    pub source: Span,
    /// Destination addresses, 0 to 255; 255 for a PDU2 frame.
    pub destination: Span,
    /// Ports at which the frame was taken, 0 to 255.
    pub from: Span,
}

/// A part of a table that has an action.
#[derive(Clone, Copy, PartialEq, Eq, Debug)]
pub enum Part {
    /// The rule of this number, counted from 0.
    Rule(usize),
    /// What extended data frames get of which no rule holds.
    Default,
    /// What every other frame gets.
    Other,
}

/// A table of at most 256 rules, of which the first that holds of a frame decides.
#[derive(Drop)]
pub struct Table {
    pub(crate) default: Action,
    pub(crate) other: Action,
    pub(crate) rules: Vec<Rule>,
}

impl Model for Table {
    ghost use Rattle.gw_table.specs.Table.{Meaning, IsWellFormed};
    ghost use Rattle.gw_table.specs.declared.table.Action.{Action};
    ghost use Rattle.gw_table.specs.declared.table.Rule.{Rule};

    ghost Value = { Meaning };

    ghost view = { λ t. record { otherwise = t.default; other = t.other; rules = t.rules.items } };

    ghost invariant = { λ t. IsWellFormed (record { otherwise = t.default; other = t.other; rules = t.rules.items }) };
}

impl Table {
    /// What becomes of an extended data frame of which no rule holds.
    pub fn default(&self) -> Action
        ensures { result ≡ self.now.otherwise }
    {
        self.default
    }

    /// What becomes of every frame that is no extended data frame.
    pub fn other(&self) -> Action
        ensures { result ≡ self.now.other }
    {
        self.other
    }

    /// The rules, in their order: at most 256.
    pub fn rules(&self) -> &[Rule]
        ensures rules { result.now ≡ self.now.rules }
        ensures table { IsWellFormed self.now }
    {
        self.rules.as_slice()
    }
}
