//! Tables with an index of their rules (T. V. Lakshman and D. Stiliadis, 1998).

ghost use Rattle.std.specs.Prelude.{◌≡◌, ℕ, ◌+◌, ◌-◌, ◌<◌, ◌≤◌, ◌&&◌, length, get_or, find, position};
ghost use Rattle.std.specs.Prelude.{option_map, unwrap_or, Some};
ghost use Rattle.std.specs.Prelude.{IfOk, IfErr, IfSome, IfNone};
ghost use Rattle.std.specs.List.{list_any};
ghost use Rattle.gw_table.specs.Table.{lies_in, is_pass, table_passes, action_for, action_of, Decides};
ghost use Rattle.gw_table.specs.RuleSets.{span_of, IsLowest};
ghost use Rattle.gw_table.specs.Index.{IsGroup, splits, position_in, group_position, shared, Stands, Indexes};

use crate::fields::FrameFields;
use crate::refusal::Field;
use crate::rule_set::{is_member, lowest_common};
use crate::rule_sets::RuleSets;
use crate::section::{
    ANY_PORT, DESTINATIONS, MOST_ROWS, NUMBERS, PAGES, PASSING, PORTS, ROWS, SOURCES, Section,
    row_at, row_of_page,
};
use crate::table::{GREATEST_OCTET, PDU2, Part, Rule, Span, Table};
use gw_frame::Frame;
use std::alloc::{AllocError, Global};
use std::marker::Model;

/// Tables with fewer rules are judged rule by rule: their rules are read from memory sooner than an index, and save
/// little where both are in the cache (docs/BENCHMARKS.md).
const SHORT: usize = 16;

/// A table that is judged by an index: for each field the set of rules whose range holds a value. The rule that decides is the
/// lowest that the four sets share. A table with few rules has no index.
#[derive(Drop)]
pub struct IndexedTable {
    table: Table,
    index: Option<Index>,
}

/// The sets of rules for the values of each field.
#[derive(Drop)]
pub struct Index {
    pub sets: RuleSets,
    /// For each row its number among the rows that are there, from 1 on, or 0 where it is not.
    pub ranks: [u8; MOST_ROWS],
}

impl Model for IndexedTable {
    ghost use Rattle.gw_table.specs.Table.{Meaning};

    ghost Value = { Meaning };

    ghost use Rattle.gw_table.specs.Index.{IsIndexed};

    ghost view = { λ t. t.table };

    ghost invariant = { IsIndexed };
}

impl IndexedTable {
    /// Makes the index of a table. The table comes back where memory for it is wanting.
    pub fn new(alloc: Global, table: Table) -> Result<IndexedTable, Table>
        ensures indexed { IfOk result (λ indexed. indexed ≡ table) }
        ensures handed_back { IfErr result (λ back. back ≡ table) }
    {
        if table.rules().len() < SHORT {
            return Ok(IndexedTable { table, index: None });
        }
        match Index::new(alloc, table.rules()) {
            Ok(index) => Ok(IndexedTable {
                table,
                index: Some(index),
            }),
            Err(_) => Err(table),
        }
    }

    /// Whether the table passes a frame that was taken at the port `from`. It takes about as long for 256 rules as
    /// for 16.
    pub fn verdict(&self, frame: &Frame, from: u8) -> bool
        ensures { result ≡ table_passes self.now frame.now from }
    {
        self.passes(&FrameFields::new(frame), from)
    }

    /// Whether the table passes a frame that was taken at the port `from`, where its fields are found already.
    pub fn passes(&self, fields: &FrameFields, from: u8) -> bool
        ensures { result ≡ table_passes self.now fields.now from }
    {
        match &self.index {
            Some(index) => index.verdict(&self.table, fields, from),
            None => self.table.verdict(fields.frame(), from),
        }
    }

    /// The part of the table that decides a frame which was taken at the port `from`, as `Table::decides` gives it. It takes
    /// about as long for 256 rules as for 16.
    pub fn decides(&self, frame: &Frame, from: u8) -> Part
        ensures part { Decides self.now frame.now from result }
        ensures action { action_of self.now result ≡ Some (action_for self.now frame.now from) }
    {
        match &self.index {
            Some(index) => index.decides(&self.table, frame, from),
            None => self.table.decides(frame, from),
        }
    }

    /// The table.
    pub fn table(&self) -> &Table
        ensures { result.now ≡ self.now }
    {
        &self.table
    }
}

impl Index {
    fn new(alloc: Global, rules: &[Rule]) -> Result<Index, AllocError>
        requires { length rules.now ≤ 256 }
        ensures { IfOk result (Indexes rules.now) }
    {
        let mut sets = RuleSets::new(alloc, rules);
        sets.append(rules, Section::Start)?;
        let mut ranks = [0; MOST_ROWS];
        let mut rank = 0;
        for number in 0..MOST_ROWS {
            let row = row_at(number as u32);
            if any_splits(rules, row.field, row.least) {
                sets.append(rules, Section::Row(row.field, row.least))?;
                rank += 1;
                ranks[number] = rank;
            }
        }
        Ok(Index { sets, ranks })
    }

    fn verdict(&self, table: &Table, fields: &FrameFields, from: u8) -> bool
        requires { Indexes table.now.rules self.now }
        ensures { result ≡ table_passes table.now fields.now from }
    {
        // Extended data frames alone have a destination.
        let Some(destination) = fields.destination() else {
            return table.other().passes();
        };
        self.passes(table, fields.pgn(), fields.source(), destination, from)
    }

    fn decides(&self, table: &Table, frame: &Frame, from: u8) -> Part
        requires { Indexes table.now.rules self.now }
        ensures part { Decides table.now frame.now from result }
        ensures action { action_of table.now result ≡ Some (action_for table.now frame.now from) }
    {
        let id = frame.id();
        // Extended data frames alone have a destination.
        let Some(destination) = id.destination() else {
            return Part::Other;
        };
        match self.first_holding(table.rules(), id.pgn(), id.source(), destination, from) {
            Some(rule) => Part::Rule(rule),
            None => Part::Default,
        }
    }

    /// The number of the first of the rules that holds of these values.
    fn first_holding(
        &self,
        rules: &[Rule],
        pgn: u32,
        source: u8,
        destination: u8,
        from: u8,
    ) -> Option<usize>
        requires indexed { Indexes rules.now self.now }
        requires group { IsGroup pgn }
        ensures { result ≡ position (λ rule. lies_in pgn rule.pgn
            && lies_in source rule.source && lies_in destination rule.destination && lies_in from rule.from) rules.now }
    {
        self.lowest_shared(pgn, source, destination, from)
    }

    /// Whether the table passes an extended data frame with these values that was taken at the port `from`.
    fn passes(&self, table: &Table, pgn: u32, source: u8, destination: u8, from: u8) -> bool
        requires indexed { Indexes table.now.rules self.now }
        requires group { IsGroup pgn }
        ensures { result ≡ is_pass (unwrap_or (option_map (λ rule. rule.action) (find (λ rule. lies_in pgn rule.pgn
            && lies_in source rule.source && lies_in destination rule.destination && lies_in from rule.from)
            table.now.rules)) table.now.otherwise) }
    {
        match self.first_holding(table.rules(), pgn, source, destination, from) {
            Some(rule) => is_member(self.sets.at(PASSING), rule),
            None => table.default().passes(),
        }
    }

    /// The lowest rule of the sets for the four values.
    fn lowest_shared(&self, pgn: u32, source: u8, destination: u8, from: u8) -> Option<usize>
        requires few { self.now.sets.words ≤ 4 }
        requires fits { pgn < 262144 }
        requires group { Stands self.now (group_position self.now.ranks pgn) }
        requires source { Stands self.now (258 + source) }
        requires destination { Stands self.now (2 + (255 - destination)) }
        requires from { Stands self.now (position_in (get_or self.now.ranks 0 0) 1 from) }
        ensures first { IfSome result (IsLowest (shared self.now pgn source destination from)) }
        ensures none { IfNone result ((rule : ℕ) → shared self.now pgn source destination from rule ≡ 0) }
    {
        let below_255 = GREATEST_OCTET - u32::from(destination);
        lowest_common(
            self.sets.at(self.group_position(pgn)),
            self.sets.at(SOURCES + u32::from(source)),
            self.sets.at(DESTINATIONS + below_255),
            self.sets
                .at(self.position_in(PORTS, ANY_PORT, u32::from(from))),
        )
    }

    /// Where the set of a parameter group stands.
    fn group_position(&self, pgn: u32) -> u32
        requires { pgn < 262144 }
        ensures { result ≡ group_position self.now.ranks pgn }
    {
        let page = pgn / NUMBERS;
        if page % NUMBERS < PDU2 {
            return PAGES + page;
        }
        self.position_in(row_of_page(page), PAGES + page, pgn % NUMBERS)
    }

    /// Where the set of a number of a row stands: in the row, if it is there.
    fn position_in(&self, row: u32, whole: u32, number: u32) -> u32
        requires row { row < 65 }
        requires whole { whole < 1538 }
        requires number { number < 256 }
        ensures { result ≡ position_in (get_or self.now.ranks row 0) whole number }
    {
        match self.ranks[row as usize] {
            0 => whole,
            rank => ROWS + (u32::from(rank) - 1) * NUMBERS + number,
        }
    }
}

/// Whether some rule's range of the field begins or ends among the 256 numbers from the first on.
fn any_splits(rules: &[Rule], field: Field, first: u32) -> bool
    requires { first < 262144 }
    ensures { result ≡ list_any (λ rule. splits first (span_of field rule)) rules.now }
{
    rules.iter().any(|rule| rule.span(field).splits(first))
}

impl Span {
    /// Whether the range holds some, but not all, of 256 numbers from `first` on.
    fn splits(self, first: u32) -> bool
        requires { first < 262144 }
        ensures { result ≡ splits first self }
    {
        let last = first + (NUMBERS - 1);
        let holds_all = self.low <= first && last <= self.high;
        let holds_none = self.high < first || last < self.low;
        !holds_all && !holds_none
    }
}
