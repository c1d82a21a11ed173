//! The command `table --show`: what the rules of a table say, in words.

ghost use Rattle.std.specs.Prelude.{◌≡◌, ◌++◌, string_bytes, IfOk, IfErr, OnOk};
ghost use Rattle.gw_answers.specs.Texts.{RefusesText};
ghost use Rattle.gw_commands.specs.GroupNames.{group_name};
ghost use Rattle.gw_commands.specs.Shown.{
  AnswersShow,
  fields_text,
  group_count,
  group_range,
  groups_text,
  holds_always,
  is_group,
  is_whole,
  numbers_text,
  part_words,
  ranges_text,
  rule_words,
  shown_text,
  size_of,
  words_of_rules,
};

use crate::log_counts::{action_word, push_name};
use crate::notes::note_dead_rules;
use crate::stated::StatedTable;
use gw_answers::{Answer, Refusal};
use gw_ident::LEAST_PDU2;
use gw_io::Tried;
use gw_table::{Action, Rule, Span};
use std::alloc::{AllocError, Global};
use std::io::Write;

/// The greatest number of a parameter group.
const GREATEST_GROUP: u32 = 262_143;

/// The greatest address. A range of ports is one of octets too.
const GREATEST_OCTET: u32 = 255;

/// Which frames get `default`.
const DEFAULT_FRAMES: &str = "every other extended data frame";

/// Which frames get `other`.
const OTHER_FRAMES: &str = "every frame of 11 bits, remote frame and error frame";

/// What the rules of a table say, in words. A person is told of each rule that never decides.
pub fn show<F: Write>(alloc: Global, input: &[u8], faults: &mut Tried<F>) -> Result<Answer, Refusal>
    ensures answered { IfOk result (AnswersShow input.now) }
    ensures refused { IfErr result (RefusesText input.now) }
{
    let stated = match StatedTable::read(alloc, input) {
        Ok(stated) => stated,
        Err(refusal) => return Err(refusal),
    };
    note_dead_rules(&stated, faults);
    match shown_text(alloc, &stated) {
        Ok(text) => Ok(Answer::Text(text.into_bytes())),
        Err(AllocError) => Err(Refusal::OutOfMemory),
    }
}

/// The lines of a table's rules, of `default` and of `other`.
fn shown_text(alloc: Global, stated: &StatedTable) -> Result<String, AllocError>
    ensures { IfOk result (λ text. string_bytes text ≡ shown_text stated.now) }
{
    let mut text = String::new(alloc);
    push_rules(&mut text, stated)?;
    push_part(&mut text, "default", stated.table.default(), DEFAULT_FRAMES)?;
    push_part(&mut text, "other", stated.table.other(), OTHER_FRAMES)?;
    Ok(text)
}

/// A line for each rule, in their order.
fn push_rules(text: &mut String, stated: &StatedTable) -> Result<(), AllocError>
    ensures { OnOk result (string_bytes text.new ≡ string_bytes text.old ++ words_of_rules stated.now) }
{
    let rules = stated.table.rules();
    for number in 0..rules.len() {
        push_rule(text, stated, number, &rules[number])?;
    }
    Ok(())
}

/// The line of a rule.
fn push_rule(
    text: &mut String,
    stated: &StatedTable,
    number: usize,
    rule: &Rule,
) -> Result<(), AllocError>
    ensures { OnOk result (string_bytes text.new ≡ string_bytes text.old ++ rule_words stated.now number rule.now) }
{
    push_name(text, stated.lines.as_slice(), number)?;
    let action = action_word(rule.action);
    write!(text, ": {action}")?;
    push_ranges(text, rule)?;
    text.push_str("\n")
}

/// The ranges of a rule that leave something out.
#[tactic(auto, unfolding(crate::specs::Shown::ranges_text))]
fn push_ranges(text: &mut String, rule: &Rule) -> Result<(), AllocError>
    ensures { OnOk result (string_bytes text.new ≡ string_bytes text.old ++ ranges_text rule.now) }
{
    if holds_always(rule) {
        text.push_str(", every extended data frame")
    } else {
        push_fields(text, rule)
    }
}

/// The ranges of a rule, one after another.
fn push_fields(text: &mut String, rule: &Rule) -> Result<(), AllocError>
    ensures { OnOk result (string_bytes text.new ≡ string_bytes text.old ++ fields_text rule.now) }
{
    push_groups(text, rule.pgn)?;
    push_numbers(text, "source", rule.source)?;
    push_numbers(text, "destination", rule.destination)?;
    push_numbers(text, "from port", rule.from)
}

/// Whether no range of a rule leaves anything out.
fn holds_always(rule: &Rule) -> bool
    ensures { result ≡ holds_always rule.now }
{
    is_whole(GREATEST_GROUP, rule.pgn)
        && is_whole(GREATEST_OCTET, rule.source)
        && is_whole(GREATEST_OCTET, rule.destination)
        && is_whole(GREATEST_OCTET, rule.from)
}

/// Whether a range has each number up to the greatest.
fn is_whole(greatest: u32, range: Span) -> bool
    ensures { result ≡ is_whole greatest range }
{
    range.low == 0 && range.high == greatest
}

/// A range of parameter groups, unless each is in it.
#[tactic(auto, unfolding(crate::specs::Shown::groups_text))]
pub(crate) fn push_groups(text: &mut String, range: Span) -> Result<(), AllocError>
    ensures { OnOk result (string_bytes text.new ≡ string_bytes text.old ++ groups_text range) }
{
    if is_whole(GREATEST_GROUP, range) {
        return Ok(());
    }
    if range.low != range.high {
        return push_group_range(text, range);
    }
    let group = range.low;
    let name = group_name(group as usize);
    write!(text, ", pgn {group}{name}")
}

/// Parameter groups from one number to another, and how many there are.
#[tactic(auto, unfolding(crate::specs::Shown::group_range))]
fn push_group_range(text: &mut String, range: Span) -> Result<(), AllocError>
    ensures { OnOk result (string_bytes text.new ≡ string_bytes text.old ++ group_range range) }
{
    let Span { low, high } = range;
    let (first, last) = (group_name(low as usize), group_name(high as usize));
    write!(text, ", pgns {low}{first} to {high}{last}")?;
    let count = group_count(range);
    write!(text, " (groups: {count})")
}

/// A range of addresses or ports, unless each is in it.
#[tactic(auto, unfolding(crate::specs::Shown::numbers_text))]
pub(crate) fn push_numbers(text: &mut String, word: &str, range: Span) -> Result<(), AllocError>
    ensures { OnOk result (string_bytes text.new ≡ string_bytes text.old ++ numbers_text word.now range) }
{
    let Span { low, high } = range;
    if is_whole(GREATEST_OCTET, range) {
        return Ok(());
    }
    if low == high {
        return write!(text, ", {word} {low}");
    }
    let size = size(range);
    write!(text, ", {word}s {low} to {high} ({size})")
}

/// How many numbers a range has.
fn size(range: Span) -> u64
    ensures { result ≡ size_of range }
{
    (u64::from(range.high) + 1).saturating_sub(u64::from(range.low))
}

/// How many parameter groups have their number in a range.
fn group_count(range: Span) -> u64
    ensures { result ≡ group_count range }
{
    let mut count = 0;
    for number in u64::from(range.low)..u64::from(range.high) + 1 {
        if is_group(number) {
            count += 1;
        }
    }
    count
}

/// Whether this is the number of a parameter group: that of a PDU1 group ends in a zero octet.
fn is_group(number: u64) -> bool
    ensures { result ≡ is_group number }
{
    number / 256 % 256 >= u64::from(LEAST_PDU2) || number % 256 == 0
}

/// The name of a well-known parameter group.
#[tactic(auto, unfolding(crate::specs::GroupNames::group_name))]
pub(crate) fn group_name(number: usize) -> &'static str
    ensures { result.now ≡ group_name number }
{
    match number {
        0 => " (torque/speed control 1, TSC1)",
        59392 => " (acknowledgment)",
        59904 => " (request)",
        60160 => " (transport protocol, data transfer, TP.DT)",
        60416 => " (transport protocol, connection management, TP.CM)",
        60928 => " (address claimed)",
        61184 => " (proprietary A)",
        61442 => " (electronic transmission controller 1, ETC1)",
        61443 => " (electronic engine controller 2, EEC2)",
        61444 => " (electronic engine controller 1, EEC1)",
        65226 => " (active diagnostic trouble codes, DM1)",
        65253 => " (engine hours, revolutions, HOURS)",
        65262 => " (engine temperature 1, ET1)",
        65265 => " (cruise control/vehicle speed, CCVS)",
        65266 => " (fuel economy, liquid, LFE)",
        65280..=65535 => " (proprietary B)",
        126720 => " (proprietary A2)",
        _ => "",
    }
}

/// The line of `default` or of `other`, with the frames that get it.
fn push_part(text: &mut String, key: &str, action: Action, frames: &str) -> Result<(), AllocError>
    ensures { OnOk result (string_bytes text.new ≡ string_bytes text.old ++ part_words key.now action frames.now) }
{
    let action = action_word(action);
    write!(text, "{key}: {action}, {frames}\n")
}
