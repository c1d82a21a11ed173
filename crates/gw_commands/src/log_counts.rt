//! How many frames of a log each part of a table decided, as text, or as a JSON object.

ghost use Rattle.std.specs.Prelude.{◌≡◌, ◌≤◌, ℕ, List, ◌++◌, string_bytes, length, IfOk, OnOk};
ghost use Rattle.gw_judge.specs.declared.tally.Tally.{Tally};
ghost use Rattle.gw_input.specs.RuleLines.{rule_name};
ghost use Rattle.gw_judge.specs.Grouped.{other_group};
ghost use Rattle.gw_answers.specs.declared.requests.CountForm.{CountForm};
ghost use Rattle.gw_commands.specs.LogCounts.{
  action_word,
  group_counts,
  group_lines,
  group_text,
  name_in,
  part_line,
  range_text,
  rule_count,
  rule_counts,
  rule_text,
  table_counts,
  totals_line,
  verdicts_text,
};
ghost use Rattle.gw_commands.specs.ToldCounts.{groups_told, policy_told, table_told, told_counts};

use crate::json_counts::{grouped_json, policy_json, table_json};
use crate::show_command::group_name;
use gw_answers::CountForm;
use gw_input::line_of_rule;
use gw_judge::{Decider, Grouping, Groups, Tally, Verdicts};
use gw_policy::Policy;
use gw_table::{Action, Field, IndexedTable, Rule, Span, Table};
use std::alloc::{AllocError, Global};

/// What decides the frames of a log, and tells how many each of its parts decided.
pub trait TellsParts: Decider {
    /// The text of a tally in a form, where the rules stand at these lines.
    ghost counts_by: { Self → List ℕ → CountForm → Tally → List ℕ };

    /// The text that tells what was counted. `lines` are those at which the rules of a table stand.
    fn counts_text(
        &self,
        alloc: Global,
        form: CountForm,
        lines: &[usize],
        tally: &Tally,
    ) -> Result<String, AllocError>
        ensures { IfOk result (λ text. string_bytes text ≡ counts_by self.now lines.now form tally.now) };
}

impl TellsParts for Policy {
    ghost counts_by = { policy_told };

    fn counts_text(
        &self,
        alloc: Global,
        form: CountForm,
        _lines: &[usize],
        tally: &Tally,
    ) -> Result<String, AllocError> {
        match form {
            CountForm::Lines => totals_text(alloc, tally),
            CountForm::Json => policy_json(alloc, tally),
        }
    }
}

impl TellsParts for Table {
    ghost counts_by = { table_told };

    fn counts_text(
        &self,
        alloc: Global,
        form: CountForm,
        lines: &[usize],
        tally: &Tally,
    ) -> Result<String, AllocError> {
        match form {
            CountForm::Lines => parts_text(alloc, self, lines, tally),
            CountForm::Json => table_json(alloc, lines, self.rules().len(), tally),
        }
    }
}

impl TellsParts for IndexedTable {
    ghost counts_by = { table_told };

    fn counts_text(
        &self,
        alloc: Global,
        form: CountForm,
        lines: &[usize],
        tally: &Tally,
    ) -> Result<String, AllocError> {
        self.table().counts_text(alloc, form, lines, tally)
    }
}

/// The text that tells what was counted, in groups or by the parts of what decides.
pub fn told_text<D: TellsParts>(
    alloc: Global,
    by: Grouping,
    form: CountForm,
    decider: &D,
    lines: &[usize],
    tally: &Tally,
) -> Result<String, AllocError>
    ensures { IfOk result (λ text. string_bytes text ≡ told_counts (D.counts_by decider.now lines.now) by form tally.now) }
{
    match by {
        Grouping::Nothing => decider.counts_text(alloc, form, lines, tally),
        Grouping::Pgn => groups_told(alloc, form, "pgn", tally),
        Grouping::Source => groups_told(alloc, form, "source", tally),
    }
}

/// The text that tells what was counted in groups.
fn groups_told(
    alloc: Global,
    form: CountForm,
    key: &str,
    tally: &Tally,
) -> Result<String, AllocError>
    ensures { IfOk result (λ text. string_bytes text ≡ groups_told key.now form tally.now) }
{
    match form {
        CountForm::Lines => groups_text(alloc, key, tally),
        CountForm::Json => grouped_json(alloc, key, tally),
    }
}

/// The lines of the parts of a table, and that of all lines.
fn parts_text(
    alloc: Global,
    table: &Table,
    lines: &[usize],
    tally: &Tally,
) -> Result<String, AllocError>
    ensures { IfOk result (λ text. string_bytes text ≡ table_counts table.now lines.now tally.now) }
{
    let mut text = String::new(alloc);
    push_rules(&mut text, lines, table.rules(), tally)?;
    push_part(&mut text, "default", table.default(), tally.by_default)?;
    push_part(&mut text, "other", table.other(), tally.by_other)?;
    push_totals(&mut text, tally)?;
    Ok(text)
}

/// The line of all lines.
fn totals_text(alloc: Global, tally: &Tally) -> Result<String, AllocError>
    ensures { IfOk result (λ text. string_bytes text ≡ totals_line tally.now) }
{
    let mut text = String::new(alloc);
    push_totals(&mut text, tally)?;
    Ok(text)
}

/// The lines that tell what was counted in groups: those with a frame, and that of all frames that are no extended data frames.
fn groups_text(alloc: Global, key: &str, tally: &Tally) -> Result<String, AllocError>
    ensures { IfOk result (λ text. string_bytes text ≡ group_counts key.now tally.now) }
{
    let mut text = String::new(alloc);
    let groups = &tally.groups;
    let other = groups.grouping().other();
    push_groups(&mut text, key, groups, other)?;
    text.push_str("other")?;
    push_verdicts(&mut text, groups.verdicts(other))?;
    push_totals(&mut text, tally)?;
    Ok(text)
}

/// A line for each group below a number that has a frame, in their order.
fn push_groups(
    text: &mut String,
    key: &str,
    groups: &Groups,
    count: usize,
) -> Result<(), AllocError>
    ensures { OnOk result (string_bytes text.new ≡ string_bytes text.old ++ group_lines key.now groups.now count) }
{
    for group in 0..count {
        let name = name_in(groups.grouping(), group);
        push_group(text, key, group, name, groups.verdicts(group))?;
    }
    Ok(())
}

/// The line of a group that has a frame.
fn push_group(
    text: &mut String,
    key: &str,
    group: usize,
    name: &str,
    verdicts: Verdicts,
) -> Result<(), AllocError>
    ensures { OnOk result (string_bytes text.new ≡ string_bytes text.old ++ group_text key.now group name.now verdicts) }
{
    if verdicts.passed == 0 && verdicts.blocked == 0 {
        return Ok(());
    }
    write!(text, "{key} {group}{name}")?;
    push_verdicts(text, verdicts)
}

/// What stands behind the number of a group: the name of a well-known parameter group.
fn name_in(by: Grouping, group: usize) -> &'static str
    ensures { result.now ≡ name_in by group }
{
    match by {
        Grouping::Pgn => group_name(group),
        _ => "",
    }
}

/// How many frames of a group passed, and how many were blocked.
fn push_verdicts(text: &mut String, verdicts: Verdicts) -> Result<(), AllocError>
    ensures { OnOk result (string_bytes text.new ≡ string_bytes text.old ++ verdicts_text verdicts) }
{
    let Verdicts { passed, blocked } = verdicts;
    write!(text, " passed {passed} blocked {blocked}\n")
}

/// A line for each rule, in their order.
fn push_rules(
    text: &mut String,
    lines: &[usize],
    rules: &[Rule],
    tally: &Tally,
) -> Result<(), AllocError>
    requires { length rules.now ≤ 256 }
    ensures { OnOk result (string_bytes text.new ≡ string_bytes text.old ++ rule_counts lines.now tally.now rules.now) }
{
    for number in 0..rules.len() {
        push_rule(text, lines, number, &rules[number], tally.by_rule[number])?;
    }
    Ok(())
}

/// The line of a rule: where it stands, how many frames it decided, and what it says.
fn push_rule(
    text: &mut String,
    lines: &[usize],
    number: usize,
    rule: &Rule,
    count: u64,
) -> Result<(), AllocError>
    ensures { OnOk result (string_bytes text.new ≡ string_bytes text.old ++ rule_count lines.now number count rule.now) }
{
    push_name(text, lines, number)?;
    write!(text, " decided {count}: ")?;
    push_what(text, rule)?;
    text.push_str("\n")
}

/// The number of a rule, and the line of the table's text at which it stands.
pub fn push_name(text: &mut String, lines: &[usize], number: usize) -> Result<(), AllocError>
    ensures { OnOk result (string_bytes text.new ≡ string_bytes text.old ++ rule_name lines.now number) }
{
    write!(text, "rule {number}")?;
    match line_of_rule(lines, number) {
        Some(line) => write!(text, " (line {line})"),
        None => Ok(()),
    }
}

/// What a rule says: its action, and each range that leaves something out.
fn push_what(text: &mut String, rule: &Rule) -> Result<(), AllocError>
    ensures { OnOk result (string_bytes text.new ≡ string_bytes text.old ++ rule_text rule.now) }
{
    text.push_str(action_word(rule.action))?;
    push_range(text, Field::Pgn, rule.pgn)?;
    push_range(text, Field::Source, rule.source)?;
    push_range(text, Field::Destination, rule.destination)?;
    push_range(text, Field::From, rule.from)
}

/// A rule's range of a field, unless the whole field is in it.
fn push_range(text: &mut String, field: Field, range: Span) -> Result<(), AllocError>
    ensures { OnOk result (string_bytes text.new ≡ string_bytes text.old ++ range_text field range) }
{
    let Span { low, high } = range;
    let key = field.key();
    if low == 0 && high == field.greatest() {
        Ok(())
    } else if low == high {
        write!(text, " {key} {low}")
    } else {
        write!(text, " {key} {low} to {high}")
    }
}

/// The line of `default` or of `other`.
fn push_part(text: &mut String, key: &str, action: Action, count: u64) -> Result<(), AllocError>
    ensures { OnOk result (string_bytes text.new ≡ string_bytes text.old ++ part_line key.now count action) }
{
    let action = action_word(action);
    write!(text, "{key} decided {count}: {action}\n")
}

/// The word for an action.
pub fn action_word(action: Action) -> &'static str
    ensures { result.now ≡ action_word action }
{
    match action {
        Action::Pass => "pass",
        Action::Block => "block",
    }
}

/// The line of all lines.
fn push_totals(text: &mut String, tally: &Tally) -> Result<(), AllocError>
    ensures { OnOk result (string_bytes text.new ≡ string_bytes text.old ++ totals_line tally.now) }
{
    let (lines, passed) = (tally.lines, tally.counts.passed);
    let (blocked, refused) = (tally.counts.blocked, tally.counts.refused);
    write!(
        text,
        "lines {lines} passed {passed} blocked {blocked} refused {refused}\n"
    )
}
