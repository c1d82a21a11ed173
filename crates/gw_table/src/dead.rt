//! Rules that can never decide.

ghost use Rattle.std.specs.Prelude.{
  ◌≡◌,
  ℕ,
  ◌+◌,
  ◌*◌,
  ◌/◌,
  ◌%◌,
  ◌<◌,
  ◌≤◌,
  true,
  false,
  List,
  All,
  IfSome,
  IfNone,
  OnSome,
  MatchBool,
  MatchOption,
  position,
};
ghost use Rattle.gw_ident.specs.Identifier.{parameter_group, destination_address};
ghost use Rattle.gw_table.specs.Table.{lies_in, greatest_group, Decides, Fits, IsRule};
ghost use Rattle.gw_table.specs.Dead.{HasNoDestination, is_within, covers, IsDead, IsFirstCause, IsOwnCause, HasNoOwnCause};

use crate::table::{GREATEST_OCTET, PDU2, Part, Rule, Span, Table};
use gw_ledger::MAX_PORTS;
use std::fmt;
use std::fmt::{Display, Formatter};

/// Why a rule can never decide, whatever the frame and the port at which it was taken.
#[derive(Clone, Copy, PartialEq, Eq, Debug)]
pub enum WhyDead {
    /// No identifier's parameter group lies in its range: a PDU1 group has 0 as its last octet.
    NoGroup,
    /// No port lies in its range of `from`: ports are 0 to 15.
    NoPort,
    /// Its groups are PDU2, whose destination is 255, and its range of destinations is without 255.
    NoDestination,
    /// Each range lies within that of an earlier rule, the first such.
    Covered { by: usize },
}

impl Table {
    /// Why the rule of this number, counted from 0, can never decide: the first cause in the order of `WhyDead`, and of
    /// earlier rules that cover it the first. `None` for a rule without a cause of these, and for a number that no rule has.
    pub fn why_dead(&self, rule: usize) -> Option<WhyDead>
        ensures dead { IfSome result (IsFirstCause self.now.rules rule) }
        ensures alive { IfNone result ((why : WhyDead) → ¬ IsDead self.now.rules rule why) }
        ensures never { OnSome result ((octets : List ℕ) (port : ℕ) → port < 16
            → ¬ Decides self.now octets port (Part.Rule rule)) }
    {
        why_dead(self.rules(), rule)
    }
}

fn why_dead(rules: &[Rule], rule: usize) -> Option<WhyDead>
    requires { All IsRule rules.now }
    ensures dead { IfSome result (IsFirstCause rules.now rule) }
    ensures alive { IfNone result ((why : WhyDead) → ¬ IsDead rules.now rule why) }
{
    let judged = rules.get(rule)?;
    if let Some(why) = judged.own_cause() {
        return Some(why);
    }
    let by = first_covering(&rules[..rule], judged)?;
    Some(WhyDead::Covered { by })
}

fn first_covering(earlier: &[Rule], later: &Rule) -> Option<usize>
    ensures { result ≡ position (λ rule. covers rule later.now) earlier.now }
{
    earlier.iter().position(|rule| rule.covers(later))
}

impl Rule {
    /// The first cause that the rule has whatever the others are.
    fn own_cause(&self) -> Option<WhyDead>
        requires { IsRule self.now }
        ensures { MatchOption result (HasNoOwnCause self.now) (IsOwnCause self.now) }
    {
        if !self.pgn.has_group() {
            Some(WhyDead::NoGroup)
        } else if !self.from.has_port() {
            Some(WhyDead::NoPort)
        } else if !self.has_destination() {
            Some(WhyDead::NoDestination)
        } else {
            None
        }
    }

    /// Whether an identifier has its group and its destination in the ranges, where one has its group there.
    fn has_destination(&self) -> bool
        requires rule { IsRule self.now }
        requires group { (word : ℕ) × (lies_in (parameter_group word) self.now.pgn ≡ true) }
        ensures { MatchBool result ((word : ℕ) × (lies_in (parameter_group word) self.now.pgn ≡ true)
            × (lies_in (destination_address word) self.now.destination ≡ true)) (HasNoDestination self.now) }
    {
        self.destination.high == GREATEST_OCTET || self.pgn.has_pdu1_group()
    }

    fn covers(&self, later: &Rule) -> bool
        ensures { result ≡ covers self.now later.now }
    {
        later.pgn.is_within(self.pgn)
            && later.source.is_within(self.source)
            && later.destination.is_within(self.destination)
            && later.from.is_within(self.from)
    }
}

impl Span {
    fn is_within(self, outer: Span) -> bool
        ensures { result ≡ is_within self outer }
    {
        outer.low <= self.low && self.high <= outer.high
    }

    fn has_port(self) -> bool
        requires { self.low ≤ self.high }
        ensures { MatchBool result ((port : ℕ) × (port < 16) × (lies_in port self ≡ true))
            ((port : ℕ) → port < 16 → lies_in port self ≡ false) }
    {
        (self.low as usize) < MAX_PORTS
    }

    /// Whether a parameter group lies in the range.
    pub(crate) fn has_group(self) -> bool
        requires { Fits greatest_group self }
        ensures { MatchBool result ((word : ℕ) × (lies_in (parameter_group word) self ≡ true))
            ((word : ℕ) → lies_in (parameter_group word) self ≡ false) }
    {
        next_group(self.low) <= self.high
    }

    /// Whether a PDU1 group lies in the range: its last octet is 0, and the format before it is below 240.
    fn has_pdu1_group(self) -> bool
        requires { Fits greatest_group self }
        ensures { MatchBool result ((k : ℕ) × (k % 256 < 240) × (lies_in (256 * k) self ≡ true))
            ((k : ℕ) → k % 256 < 240 → lies_in (256 * k) self ≡ false) }
    {
        let next = (self.low + 255) / 256;
        let next_pdu1 = if next % 256 < PDU2 {
            next
        } else {
            (next / 256 + 1) * 256
        };
        next_pdu1 * 256 <= self.high
    }
}

/// The least parameter group from a number on: where its format is below 240, the last octet is 0.
fn next_group(number: u32) -> u32
    requires { number ≤ greatest_group }
    ensures reached { number ≤ result }
    ensures group { result / 256 % 256 < 240 → result % 256 ≡ 0 }
    ensures least { (format last : ℕ) → last < 256 → (format % 256 < 240 → last ≡ 0)
        → number ≤ 256 * format + last → result ≤ 256 * format + last }
{
    if number / 256 % 256 < PDU2 {
        (number + 255) / 256 * 256
    } else {
        number
    }
}

impl Display for WhyDead {
    fn fmt<W: fmt::Write>(&self, f: &mut Formatter<W>) -> fmt::Result {
        match self {
            WhyDead::NoGroup => f.write_str(
                "`pgn` has no parameter group: below PDU format 240 the last octet of a PGN is 0, and the destination is no part \
                of it",
            ),
            WhyDead::NoPort => f.write_str("`from` has no port: ports are 0 to 15"),
            WhyDead::NoDestination => f.write_str(
                "`pgn` has PDU2 groups alone, whose destination is 255, and `destination` is without 255",
            ),
            WhyDead::Covered { by } => write!(
                f,
                "rule {by} before it holds of every frame that it holds of"
            ),
        }
    }
}
