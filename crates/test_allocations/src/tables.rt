//! The calls that make policies of tables, and put policies in force.

use crate::answer::Answer;
use crate::fault::Fault;
use crate::inputs::{PASS, PORT, batch_of, frame_of, ready, say_ready};
use gw_frame::Frame;
use gw_policy::{Batch, Policy, PolicySet};
use gw_table::{
    Action, Answer as Answered, Change, Question, Rule, Span, Table, compile, crossings,
};
use std::alloc::Global;
use std::io::Write;

/// A table of two rules with one PGN.
const TABLE: &str = r#"default = "pass"
[[rule]]
action = "pass"
pgn = 61184
source = 1
[[rule]]
action = "block"
pgn = 61184
"#;

/// A table of sixteen rules: so many are judged by an index.
const INDEXED: &str = r#"
[[rule]]
action = "pass"
source = 0
[[rule]]
action = "pass"
source = 1
[[rule]]
action = "pass"
source = 2
[[rule]]
action = "pass"
source = 3
[[rule]]
action = "pass"
source = 4
[[rule]]
action = "pass"
source = 5
[[rule]]
action = "pass"
source = 6
[[rule]]
action = "pass"
source = 7
[[rule]]
action = "pass"
source = 8
[[rule]]
action = "pass"
source = 9
[[rule]]
action = "pass"
source = 10
[[rule]]
action = "pass"
source = 11
[[rule]]
action = "pass"
source = 12
[[rule]]
action = "pass"
source = 13
[[rule]]
action = "pass"
source = 14
[[rule]]
action = "pass"
source = 15
"#;

/// `ret #0`.
const BLOCK: &str = "1,6 0 0 0,";

pub fn make_read_table<W: Write>(alloc: Global, output: &mut W) -> Result<Answer, Fault> {
    match say_ready(output) {
        Ok(()) => Ok(count_rules(alloc)),
        Err(fault) => Err(fault),
    }
}

/// How many rules the table has.
fn count_rules(alloc: Global) -> Answer {
    match Table::read(alloc, TABLE) {
        Ok(table) => Answer::count(table.rules().len(), " rules"),
        Err(why) => Answer::refused(why.number()),
    }
}

pub fn make_compile<W: Write>(alloc: Global, output: &mut W) -> Result<Answer, Fault> {
    match ready(output, table_of(alloc, TABLE)) {
        Ok(table) => Ok(compiled(alloc, &table)),
        Err(fault) => Err(fault),
    }
}

/// How many instructions a table is compiled to.
fn compiled(alloc: Global, table: &Table) -> Answer {
    match compile(alloc, table) {
        Ok(program) => Answer::count(program.len(), " instructions"),
        Err(_) => Answer::OUT_OF_MEMORY,
    }
}

pub fn make_differences<W: Write>(alloc: Global, output: &mut W) -> Result<Answer, Fault> {
    match ready(output, two_tables(alloc)) {
        Ok((old, new)) => Ok(differing(alloc, &old, &new)),
        Err(fault) => Err(fault),
    }
}

/// How many differences two tables have.
fn differing(alloc: Global, old: &Table, new: &Table) -> Answer {
    match old.differences(alloc, new) {
        Ok(found) => Answer::count(found.len(), " differences"),
        Err(_) => Answer::OUT_OF_MEMORY,
    }
}

pub fn make_answers<W: Write>(alloc: Global, output: &mut W) -> Result<Answer, Fault> {
    match ready(output, table_of(alloc, TABLE)) {
        Ok(table) => Ok(answered(alloc, &table)),
        Err(fault) => Err(fault),
    }
}

/// How many frames show what a table does with the group of its PGN.
fn answered(alloc: Global, table: &Table) -> Answer {
    let of_group = Question {
        pgn: Some(Span {
            low: 61184,
            high: 61184,
        }),
        source: None,
        destination: None,
        from: None,
    };
    match table.answers(alloc, &of_group) {
        Ok(found) => Answer::count(samples_of(&found), " samples"),
        Err(_) => Answer::OUT_OF_MEMORY,
    }
}

pub fn make_crossings<W: Write>(alloc: Global, output: &mut W) -> Result<Answer, Fault> {
    match ready(output, two_tables(alloc)) {
        Ok((old, new)) => Ok(crossed(alloc, &old, &new)),
        Err(fault) => Err(fault),
    }
}

/// How many crossings the same change at two ports makes.
fn crossed(alloc: Global, old: &Table, new: &Table) -> Answer {
    let change = Change { old, new };
    match crossings(alloc, &[change, change]) {
        Ok(found) => Answer::count(found.len(), " crossings"),
        Err(_) => Answer::OUT_OF_MEMORY,
    }
}

/// How many frames an answer shows.
fn samples_of(found: &Answered) -> usize {
    match found {
        Answered::SomePass { .. } => 2,
        Answered::AllPass(_) | Answered::NonePass(_) => 1,
        Answered::NoFrame(_) => 0,
    }
}

/// A table of a text.
fn table_of(alloc: Global, text: &str) -> Result<Table, Fault> {
    match Table::read(alloc, text) {
        Ok(table) => Ok(table),
        Err(_) => Err(Fault::Unprepared),
    }
}

/// An old table and a new one.
fn two_tables(alloc: Global) -> Result<(Table, Table), Fault> {
    let Ok(old) = table_of(alloc, TABLE) else {
        return Err(Fault::Unprepared);
    };
    match table_of(alloc, INDEXED) {
        Ok(new) => Ok((old, new)),
        Err(fault) => Err(fault),
    }
}

pub fn make_from_table<W: Write>(alloc: Global, output: &mut W) -> Result<Answer, Fault> {
    match ready(output, table_and_rules(alloc)) {
        Ok((table, rules)) => Ok(from_table(alloc, table, &rules)),
        Err(fault) => Err(fault),
    }
}

/// How long the policy of a table is, or whether the table came back with these rules.
fn from_table(alloc: Global, table: Table, rules: &[Rule]) -> Answer {
    let actions = (table.default(), table.other());
    match Policy::from_table(alloc, table) {
        Ok(policy) => Answer::count(policy.program().len(), " instructions"),
        Err(back) => Answer::Said(if is_back(&back, actions, rules) {
            "refused, the table is back"
        } else {
            "refused, another table is back"
        }),
    }
}

/// A table, and its rules once more.
fn table_and_rules(alloc: Global) -> Result<(Table, Vec<Rule>), Fault> {
    let Ok(table) = table_of(alloc, INDEXED) else {
        return Err(Fault::Unprepared);
    };
    match table.rules().to_vec(alloc) {
        Ok(rules) => Ok((table, rules)),
        Err(_) => Err(Fault::Unprepared),
    }
}

/// Whether a table has these actions for what no rule matches, and these rules.
fn is_back(table: &Table, (default, other): (Action, Action), rules: &[Rule]) -> bool {
    table.default() == default && table.other() == other && table.rules() == rules
}

/// The set has one batch, which blocks, and is to absorb one that passes.
pub fn make_absorb<W: Write>(alloc: Global, output: &mut W) -> Result<Answer, Fault> {
    let Ok(frame) = frame_of() else {
        return Err(Fault::Unprepared);
    };
    match blocking(alloc) {
        Ok(mut set) => absorb_next(alloc, output, &mut set, &frame),
        Err(fault) => Err(fault),
    }
}

/// The set absorbs a batch that passes.
fn absorb_next<W: Write>(
    alloc: Global,
    output: &mut W,
    set: &mut PolicySet,
    frame: &Frame,
) -> Result<Answer, Fault> {
    match ready(output, batch_of(alloc, PASS)) {
        Ok(batch) => Ok(absorb(set, &batch, frame)),
        Err(fault) => Err(fault),
    }
}

/// How many batches are in force with this one, and what is said of the frame then.
fn absorb(set: &mut PolicySet, batch: &Batch, frame: &Frame) -> Answer {
    if set.absorb(batch).is_err() {
        return Answer::OUT_OF_MEMORY;
    }
    let verdict = if set.verdict(PORT, frame, 0) {
        ", pass"
    } else {
        ", block"
    };
    Answer::Number("front ", u64::from(set.front()), verdict)
}

/// A set of one batch, which blocks.
fn blocking(alloc: Global) -> Result<PolicySet, Fault> {
    match batch_of(alloc, BLOCK) {
        Ok(batch) => set_of(&batch),
        Err(fault) => Err(fault),
    }
}

/// A set of one batch.
fn set_of(batch: &Batch) -> Result<PolicySet, Fault> {
    let mut set = PolicySet::new();
    match set.absorb(batch) {
        Ok(()) => Ok(set),
        Err(_) => Err(Fault::Unprepared),
    }
}
