//! The frames that a part of one table and a part of another decide, where one box says which they are.

ghost use Rattle.std.specs.Prelude.{◌≡◌, IfNone, IfSome};
ghost use Rattle.std.specs.List.{list_any};
ghost use Rattle.gw_table.specs.PairFrames.{
  asking,
  has_number,
  has_numbers,
  is_clear,
  meet,
  meet_span,
  ranges_of,
  rules_before,
  AreClear,
  AsksForPair,
};

use crate::question::Question;
use crate::table::{GREATEST_GROUP, GREATEST_OCTET, Part, Rule, Span, Table};

impl Table {
    /// The question that asks for exactly the frames that a part of this table and a part of another decide. `None` where a rule
    /// before either part shares numbers with both, where the parts share none, and for `other`, whose frames have no ranges.
    pub fn pair_frames(&self, own: Part, other: &Table, its: Part) -> Option<Question>
        ensures frames { IfSome result (AsksForPair self.now own other.now its) }
        ensures none { IfNone result (¬ AreClear self.now own other.now its) }
    {
        let (own_ranges, its_ranges) = (self.ranges(own)?, other.ranges(its)?);
        let both = own_ranges.meet(&its_ranges);
        if is_clear(self.rules_before(own), other.rules_before(its), &both) {
            Some(both.question())
        } else {
            None
        }
    }

    fn ranges(&self, part: Part) -> Option<Rule>
        ensures { result ≡ ranges_of self.now part }
    {
        match part {
            Part::Rule(number) => self.rules().get(number).copied(),
            Part::Default => Some(Rule {
                action: self.default(),
                pgn: Span::up_to(GREATEST_GROUP),
                source: Span::up_to(GREATEST_OCTET),
                destination: Span::up_to(GREATEST_OCTET),
                from: Span::up_to(GREATEST_OCTET),
            }),
            Part::Other => None,
        }
    }

    /// The rules that are asked before a part.
    fn rules_before(&self, part: Part) -> &[Rule]
        ensures { result.now ≡ rules_before self.now part }
    {
        let rules = self.rules();
        match part {
            Part::Rule(number) => &rules[..number.min(rules.len())],
            Part::Default | Part::Other => rules,
        }
    }
}

/// Whether numbers lie in the ranges, and in those of none of the rules.
fn is_clear(own: &[Rule], its: &[Rule], both: &Rule) -> bool
    ensures { result ≡ is_clear own.now its.now both.now }
{
    both.has_numbers() && !any_meets(own, both) && !any_meets(its, both)
}

/// Whether the ranges of one of the rules have numbers in common with those of another.
fn any_meets(rules: &[Rule], with: &Rule) -> bool
    ensures { result ≡ list_any (λ rule. has_numbers (meet rule with.now)) rules.now }
{
    rules.iter().any(|rule| rule.meet(with).has_numbers())
}

impl Rule {
    /// The numbers that two rules have in common, if there are some.
    fn meet(&self, other: &Rule) -> Rule
        ensures { result ≡ meet self.now other.now }
    {
        Rule {
            action: self.action,
            pgn: self.pgn.meet(other.pgn),
            source: self.source.meet(other.source),
            destination: self.destination.meet(other.destination),
            from: self.from.meet(other.from),
        }
    }

    /// Whether a number lies in each range.
    fn has_numbers(&self) -> bool
        ensures { result ≡ has_numbers self.now }
    {
        self.pgn.has_number()
            && self.source.has_number()
            && self.destination.has_number()
            && self.from.has_number()
    }

    /// The question that asks for the extended data frames of which the ranges hold.
    fn question(&self) -> Question
        ensures { result ≡ asking self.now }
    {
        Question {
            pgn: Some(self.pgn),
            source: Some(self.source),
            destination: Some(self.destination),
            from: Some(self.from),
        }
    }
}

impl Span {
    fn up_to(high: u32) -> Span
        ensures { result ≡ record { low = 0; high = high } }
    {
        Span { low: 0, high }
    }

    fn meet(self, other: Span) -> Span
        ensures { result ≡ meet_span self other }
    {
        Span {
            low: self.low.max(other.low),
            high: self.high.min(other.high),
        }
    }

    fn has_number(self) -> bool
        ensures { result ≡ has_number self }
    {
        self.low <= self.high
    }
}
