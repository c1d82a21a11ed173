//! The first thing that is wrong with a document: a key, an action or a range.

ghost use Rattle.std.specs.Prelude.{◌≡◌, map, option_map, bytes_eq, string_bytes};
ghost use Rattle.std.specs.Fn.{FnReturnsAt};
ghost use Rattle.std.specs.List.{list_any};
ghost use Rattle.toml.specs.View.{view, table_view};
ghost use Rattle.gw_table.specs.TableText.{
  first_of,
  first_but,
  document_keys,
  rule_keys,
  unknown_in_rule,
  value_fault,
  action_fault,
  written_fault,
  range_fault,
  unknown_key,
  bad_action,
  bad_range,
  IsFirstWrong,
};

use crate::refusal::{ActionFault, Field, KeyLocation, RangeFault};
use crate::table::Part;
use crate::values::{action_in, member, ranges_in};
use toml::Value;

/// The first rule of which something is wrong, by its number, and what it is.
fn first_of<'a, T: Drop, F: Fn(&'a Value) -> Option<T>>(
    rules: &'a [Value],
    wrong: F,
) -> Option<(usize, T)>
    requires { F.IsAlwaysCallable wrong }
    ensures { IsFirstWrong (FnReturnsAt F.Fn wrong) rules.now result }
{
    for (number, rule) in rules.iter().enumerate() {
        if let Some(why) = wrong(rule) {
            return Some((number, why));
        }
    }
    None
}

/// The first key that is not known, and where it stands.
pub fn unknown_key<'a>(
    document: &'a toml::Table,
    rules: &'a [Value],
) -> Option<(KeyLocation, &'a String)>
    ensures { option_map (λ found. (found.0, string_bytes found.1.now)) result
        ≡ unknown_key (table_view document.now) (map view rules.now) }
{
    if let Some(key) = unknown_at_top(document) {
        return Some((KeyLocation::Top, key));
    }
    let (rule, key) = unknown_in_rules(rules)?;
    Some((KeyLocation::Rule(rule), key))
}

fn unknown_in_rules(rules: &[Value]) -> Option<(usize, &String)>
    ensures { option_map (λ found. (found.0, string_bytes found.1.now)) result
        ≡ first_of unknown_in_rule (map view rules.now) }
{
    first_of(rules, unknown_in_rule)
}

fn unknown_at_top(document: &toml::Table) -> Option<&String>
    ensures { option_map (λ key. string_bytes key.now) result ≡ first_but document_keys (table_view document.now) }
{
    document.keys().find(|key| !is_document_key(key.as_str()))
}

fn is_document_key(key: &str) -> bool
    ensures { result ≡ list_any (bytes_eq key.now) document_keys }
{
    matches!(key, "default" | "other" | "rule")
}

fn unknown_in_rule(rule: &Value) -> Option<&String>
    ensures { option_map (λ key. string_bytes key.now) result ≡ unknown_in_rule (view rule.now) }
{
    match rule {
        Value::Table(members) => members.keys().find(|key| !is_rule_key(key.as_str())),
        _ => None,
    }
}

fn is_rule_key(key: &str) -> bool
    ensures { result ≡ list_any (bytes_eq key.now) rule_keys }
{
    matches!(key, "action" | "pgn" | "source" | "destination" | "from")
}

/// What is wrong with the first action that is wrong.
pub fn bad_action(document: &toml::Table, rules: &[Value]) -> Option<(Part, ActionFault)>
    ensures { result ≡ bad_action (table_view document.now) (map view rules.now) }
{
    if let Some(why) = written_fault(document, "default") {
        return Some((Part::Default, why));
    }
    if let Some(why) = written_fault(document, "other") {
        return Some((Part::Other, why));
    }
    let (rule, why) = bad_rule_action(rules)?;
    Some((Part::Rule(rule), why))
}

fn bad_rule_action(rules: &[Value]) -> Option<(usize, ActionFault)>
    ensures { result ≡ first_of action_fault (map view rules.now) }
{
    first_of(rules, action_fault)
}

/// What is wrong with an action that may be absent.
fn written_fault(document: &toml::Table, key: &str) -> Option<ActionFault>
    ensures { result ≡ written_fault key.now (table_view document.now) }
{
    value_fault(member(document, key)?)
}

fn value_fault(value: &Value) -> Option<ActionFault>
    ensures { result ≡ value_fault (view value.now) }
{
    match action_in(value) {
        Some(_) => None,
        None => Some(ActionFault::NoAction),
    }
}

/// What is wrong with a rule's action.
fn action_fault(rule: &Value) -> Option<ActionFault>
    ensures { result ≡ action_fault (view rule.now) }
{
    match rule.get("action") {
        Some(value) => value_fault(value),
        None => Some(ActionFault::Absent),
    }
}

/// The rule of the first range that is wrong, with its field and what is wrong.
pub fn bad_range(rules: &[Value]) -> Option<(usize, (Field, RangeFault))>
    ensures { result ≡ bad_range (map view rules.now) }
{
    first_of(rules, range_fault)
}

fn range_fault(rule: &Value) -> Option<(Field, RangeFault)>
    ensures { result ≡ range_fault (view rule.now) }
{
    ranges_in(rule).err()
}
