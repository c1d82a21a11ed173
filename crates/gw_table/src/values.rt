//! What the values of a document say: actions, ranges and rules.

ghost use Rattle.std.specs.Prelude.{◌≡◌, option_map};
ghost use Rattle.toml.specs.Data.{get_member};
ghost use Rattle.toml.specs.View.{view, table_view};
ghost use Rattle.gw_table.specs.TableText.{
  action_in,
  action_or_block,
  rule_action,
  number_in,
  span_between,
  span_in,
  span_at,
  named_span,
  ranges_in,
  rule_in,
};

use crate::refusal::{Field, RangeFault};
use crate::table::{Action, Rule, Span};
use toml::Value;

/// A rule's four ranges.
#[derive(Clone, Copy)]
pub struct Ranges {
    pub pgn: Span,
    pub source: Span,
    pub destination: Span,
    pub from: Span,
}

/// The value at a key.
pub fn member<'a>(document: &'a toml::Table, key: &str) -> Option<&'a Value>
    ensures { option_map (λ value. view value.now) result
        ≡ get_member key.now (table_view document.now) }
{
    document.get(key)
}

/// The action that a value spells.
pub fn action_in(value: &Value) -> Option<Action>
    ensures { result ≡ action_in (view value.now) }
{
    match value.as_str()? {
        "pass" => Some(Action::Pass),
        "block" => Some(Action::Block),
        _ => None,
    }
}

/// The action at a key, `"block"` where it is absent, or `None` where it is no action.
pub fn action_or_block(document: &toml::Table, key: &str) -> Option<Action>
    ensures { result ≡ action_or_block key.now (table_view document.now) }
{
    match member(document, key) {
        Some(value) => action_in(value),
        None => Some(Action::Block),
    }
}

/// A rule's action, or `None` where it is absent or no action.
fn rule_action(rule: &Value) -> Option<Action>
    ensures { result ≡ rule_action (view rule.now) }
{
    action_in(rule.get("action")?)
}

/// A rule with its action and its four ranges, or `None` where one of the five is none.
pub fn rule_in(rule: &Value) -> Option<Rule>
    ensures { result ≡ rule_in (view rule.now) }
{
    let action = rule_action(rule)?;
    let ranges = ranges_in(rule).ok()?;
    Some(Rule {
        action,
        pgn: ranges.pgn,
        source: ranges.source,
        destination: ranges.destination,
        from: ranges.from,
    })
}

/// A rule's four ranges, or the first that is none.
pub fn ranges_in(rule: &Value) -> Result<Ranges, (Field, RangeFault)>
    ensures { result ≡ ranges_in (view rule.now) }
{
    Ok(Ranges {
        pgn: named_span(rule, Field::Pgn)?,
        source: named_span(rule, Field::Source)?,
        destination: named_span(rule, Field::Destination)?,
        from: named_span(rule, Field::From)?,
    })
}

fn named_span(rule: &Value, field: Field) -> Result<Span, (Field, RangeFault)>
    ensures { result ≡ named_span field (view rule.now) }
{
    match span_at(rule, field) {
        Ok(span) => Ok(span),
        Err(why) => Err((field, why)),
    }
}

/// A field's range, which is the whole field where it is absent.
fn span_at(rule: &Value, field: Field) -> Result<Span, RangeFault>
    ensures { result ≡ span_at field (view rule.now) }
{
    match rule.get(field.key()) {
        Some(value) => span_in(value, field.greatest()),
        None => Ok(Span {
            low: 0,
            high: field.greatest(),
        }),
    }
}

/// A number n, which is the range from n to n, or an array of the two ends.
fn span_in(value: &Value, most: u32) -> Result<Span, RangeFault>
    ensures { result ≡ span_in most (view value.now) }
{
    match value {
        Value::Array(ends) => match ends.as_slice() {
            [low, high] => span_between(number_in(low, most)?, number_in(high, most)?),
            _ => Err(RangeFault::NoRange),
        },
        _ => {
            let number = number_in(value, most)?;
            Ok(Span {
                low: number,
                high: number,
            })
        }
    }
}

fn span_between(low: u32, high: u32) -> Result<Span, RangeFault>
    ensures { result ≡ span_between low high }
{
    if low <= high {
        Ok(Span { low, high })
    } else {
        Err(RangeFault::Descending)
    }
}

fn number_in(value: &Value, most: u32) -> Result<u32, RangeFault>
    ensures { result ≡ number_in most (view value.now) }
{
    let Some(number) = value.as_integer() else {
        return Err(RangeFault::NoRange);
    };
    match u32::try_from(number) {
        Ok(number) if number <= most => Ok(number),
        _ => Err(RangeFault::OutOfField),
    }
}
