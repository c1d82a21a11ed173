//! What a table passes, and what decides it.

ghost use Rattle.std.specs.Prelude.{◌≡◌, ◌&&◌, Some, find, position, option_copied};
ghost use Rattle.gw_table.specs.Table.{lies_in, action_for, table_passes, action_of, Decides};

use crate::table::{Action, Part, Rule, Span, Table};
use gw_frame::Frame;

impl Table {
    /// Whether the table passes a frame that was taken at the port `from`.
    pub fn verdict(&self, frame: &Frame, from: u8) -> bool
        ensures { result ≡ table_passes self.now frame.now from }
    {
        self.action_for(frame, from).passes()
    }

    /// The part of the table that decides a frame which was taken at the port `from`: the first rule that holds, `default`
    /// or `other`. Its action is the table's verdict.
    pub fn decides(&self, frame: &Frame, from: u8) -> Part
        ensures part { Decides self.now frame.now from result }
        ensures action { action_of self.now result ≡ Some (action_for self.now frame.now from) }
    {
        let id = frame.id();
        let Some(destination) = id.destination() else {
            return Part::Other;
        };
        match first_holding_number(&self.rules, id.pgn(), id.source(), destination, from) {
            Some(rule) => Part::Rule(rule),
            None => Part::Default,
        }
    }

    fn action_for(&self, frame: &Frame, from: u8) -> Action
        ensures { result ≡ action_for self.now frame.now from }
    {
        let id = frame.id();
        // Extended data frames alone have a destination.
        let Some(destination) = id.destination() else {
            return self.other;
        };
        match first_holding(&self.rules, id.pgn(), id.source(), destination, from) {
            Some(rule) => rule.action,
            None => self.default,
        }
    }
}

fn first_holding(rules: &[Rule], pgn: u32, source: u8, destination: u8, from: u8) -> Option<&Rule>
    ensures { option_copied result
        ≡ find (λ rule. lies_in pgn rule.pgn && lies_in source rule.source
        && lies_in destination rule.destination && lies_in from rule.from) rules.now }
{
    rules
        .iter()
        .find(|rule| rule.holds(pgn, source, destination, from))
}

fn first_holding_number(
    rules: &[Rule],
    pgn: u32,
    source: u8,
    destination: u8,
    from: u8,
) -> Option<usize>
    ensures { result
        ≡ position (λ rule. lies_in pgn rule.pgn && lies_in source rule.source
        && lies_in destination rule.destination && lies_in from rule.from) rules.now }
{
    rules
        .iter()
        .position(|rule| rule.holds(pgn, source, destination, from))
}

impl Rule {
    fn holds(&self, pgn: u32, source: u8, destination: u8, from: u8) -> bool
        ensures { result ≡ (lies_in pgn self.now.pgn && lies_in source self.now.source
            && lies_in destination self.now.destination && lies_in from self.now.from) }
    {
        self.pgn.contains(pgn)
            && self.source.contains(u32::from(source))
            && self.destination.contains(u32::from(destination))
            && self.from.contains(u32::from(from))
    }
}

impl Span {
    pub(crate) fn contains(self, number: u32) -> bool
        ensures { result ≡ lies_in number self }
    {
        self.low <= number && number <= self.high
    }
}
