//! What was counted of a log, as one JSON object of numbers.

ghost use Rattle.std.specs.Prelude.{◌≡◌, ◌≤◌, ◌++◌, [], if◌then◌else◌, codes, ◌&&◌, string_bytes, IfOk, OnOk};
ghost use Rattle.gw_judge.specs.Grouped.{other_group};
ghost use Rattle.gw_commands.specs.JsonCounts.{
  group_json,
  grouped_json,
  groups_json,
  has_none,
  line_json,
  member,
  next_json,
  next_member,
  policy_json,
  rule_json,
  rules_json,
  table_json,
  totals_json,
  verdicts_json,
};

use gw_input::line_of_rule;
use gw_judge::{Groups, Tally, Verdicts};
use std::alloc::{AllocError, Global};

/// The object of a table with so many rules, which stand at these lines.
pub fn table_json(
    alloc: Global,
    lines: &[usize],
    count: usize,
    tally: &Tally,
) -> Result<String, AllocError>
    requires { count ≤ 256 }
    ensures { IfOk result (λ text. string_bytes text ≡ table_json lines.now count tally.now) }
{
    let mut text = String::new(alloc);
    text.push_str("{\"rules\":[")?;
    push_rules(&mut text, lines, count, tally)?;
    text.push_str("]")?;
    push_next_member(&mut text, "default", tally.by_default)?;
    push_next_member(&mut text, "other", tally.by_other)?;
    text.push_str(",")?;
    push_totals(&mut text, tally)?;
    Ok(text)
}

/// The object of a program, which has no rules.
pub fn policy_json(alloc: Global, tally: &Tally) -> Result<String, AllocError>
    ensures { IfOk result (λ text. string_bytes text ≡ policy_json tally.now) }
{
    let mut text = String::new(alloc);
    text.push_str("{")?;
    push_totals(&mut text, tally)?;
    Ok(text)
}

/// The object of groups: those with a frame, and all frames that are no extended data frames.
pub fn grouped_json(alloc: Global, key: &str, tally: &Tally) -> Result<String, AllocError>
    ensures { IfOk result (λ text. string_bytes text ≡ grouped_json key.now tally.now) }
{
    let mut text = String::new(alloc);
    let groups = &tally.groups;
    let other = groups.grouping().other();
    text.push_str("{\"groups\":[")?;
    push_groups(&mut text, key, groups, other)?;
    text.push_str("],\"other\":{")?;
    push_verdicts(&mut text, groups.verdicts(other))?;
    text.push_str(",")?;
    push_totals(&mut text, tally)?;
    Ok(text)
}

/// So many rules, in their order, with commas between them.
fn push_rules(
    text: &mut String,
    lines: &[usize],
    count: usize,
    tally: &Tally,
) -> Result<(), AllocError>
    requires { count ≤ 256 }
    ensures { OnOk result (string_bytes text.new ≡ string_bytes text.old ++ rules_json lines.now tally.now count) }
{
    for number in 0..count {
        push_comma(text, number == 0)?;
        push_rule(text, lines, number, tally.by_rule[number])?;
    }
    Ok(())
}

/// A rule, where it stands, and how many frames it decided.
fn push_rule(
    text: &mut String,
    lines: &[usize],
    number: usize,
    count: u64,
) -> Result<(), AllocError>
    ensures { OnOk result (string_bytes text.new ≡ string_bytes text.old ++ rule_json lines.now number count) }
{
    text.push_str("{")?;
    push_member(text, "rule", number as u64)?;
    push_line(text, line_of_rule(lines, number))?;
    push_next_member(text, "decided", count)?;
    text.push_str("}")
}

/// The member that says where a rule stands, where that is known.
fn push_line(text: &mut String, line: Option<usize>) -> Result<(), AllocError>
    ensures { OnOk result (string_bytes text.new ≡ string_bytes text.old ++ line_json line) }
{
    match line {
        Some(line) => push_next_member(text, "line", line as u64),
        None => Ok(()),
    }
}

/// The groups below a number that have a frame, in ascending order, with commas between them.
fn push_groups(
    text: &mut String,
    key: &str,
    groups: &Groups,
    count: usize,
) -> Result<(), AllocError>
    ensures { OnOk result (string_bytes text.new ≡ string_bytes text.old ++ groups_json key.now groups.now count) }
{
    let mut is_first = true;
    for group in 0..count {
        is_first = push_next(text, key, group, groups.verdicts(group), is_first)?;
    }
    Ok(())
}

/// A group by its number, behind a comma unless it is the first; nothing where it has no frame. Returns whether the next one is
/// the first.
fn push_next(
    text: &mut String,
    key: &str,
    group: usize,
    verdicts: Verdicts,
    is_first: bool,
) -> Result<bool, AllocError>
    ensures next { OnOk result (string_bytes text.new ≡ string_bytes text.old ++ next_json key.now group verdicts is_first) }
    ensures first { IfOk result (λ first. first ≡ (is_first && has_none verdicts)) }
{
    if verdicts.passed == 0 && verdicts.blocked == 0 {
        return Ok(is_first);
    }
    push_comma(text, is_first)?;
    push_group(text, key, group, verdicts)?;
    Ok(false)
}

/// A group by its number.
fn push_group(
    text: &mut String,
    key: &str,
    group: usize,
    verdicts: Verdicts,
) -> Result<(), AllocError>
    ensures { OnOk result (string_bytes text.new ≡ string_bytes text.old ++ group_json key.now group verdicts) }
{
    text.push_str("{")?;
    push_member(text, key, group as u64)?;
    text.push_str(",")?;
    push_verdicts(text, verdicts)
}

/// How many frames of a group passed, and how many were blocked. They end the group's object.
fn push_verdicts(text: &mut String, verdicts: Verdicts) -> Result<(), AllocError>
    ensures { OnOk result (string_bytes text.new ≡ string_bytes text.old ++ verdicts_json verdicts) }
{
    let Verdicts { passed, blocked } = verdicts;
    push_member(text, "passed", passed)?;
    push_next_member(text, "blocked", blocked)?;
    text.push_str("}")
}

/// A comma, in front of all but the first.
fn push_comma(text: &mut String, is_first: bool) -> Result<(), AllocError>
    ensures { OnOk result (string_bytes text.new ≡ string_bytes text.old ++ (if is_first then [] else codes ",")) }
{
    if is_first { Ok(()) } else { text.push_str(",") }
}

/// The members of all lines, which end the object.
fn push_totals(text: &mut String, tally: &Tally) -> Result<(), AllocError>
    ensures { OnOk result (string_bytes text.new ≡ string_bytes text.old ++ totals_json tally.now) }
{
    push_member(text, "lines", tally.lines)?;
    push_next_member(text, "passed", tally.counts.passed)?;
    push_next_member(text, "blocked", tally.counts.blocked)?;
    push_next_member(text, "refused", tally.counts.refused)?;
    text.push_str("}\n")
}

/// A member of an object.
#[tactic(auto, unfolding(crate::specs::JsonCounts::member))]
fn push_member(text: &mut String, key: &str, number: u64) -> Result<(), AllocError>
    ensures { OnOk result (string_bytes text.new ≡ string_bytes text.old ++ member key.now number) }
{
    write!(text, "\"{key}\":{number}")
}

/// A member of an object behind others.
#[tactic(auto, unfolding(crate::specs::JsonCounts::next_member))]
fn push_next_member(text: &mut String, key: &str, number: u64) -> Result<(), AllocError>
    ensures { OnOk result (string_bytes text.new ≡ string_bytes text.old ++ next_member key.now number) }
{
    write!(text, ",\"{key}\":{number}")
}
