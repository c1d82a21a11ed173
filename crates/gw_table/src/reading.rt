//! Reading a table from TOML text.

ghost use Rattle.std.specs.Prelude.{◌≡◌, map, option_map, IfOk, IfErr, string_bytes};
ghost use Rattle.std.specs.List.{list_all, filter_map};
ghost use Rattle.toml.specs.View.{view, table_view};
ghost use Rattle.gw_table.specs.TableText.{
  is_table,
  tables_in,
  written_rules,
  rule_in,
  IsDocument,
  IsDocumentRefusal,
  IsTableText,
  IsTableRefusal,
  IsKeyRefusal,
};

use crate::faults::{bad_action, bad_range, unknown_key};
use crate::refusal::{KeyLocation, TableRefusal};
use crate::table::{Action, Rule, Table};
use crate::values::{action_or_block, member, rule_in};
use std::alloc::{AllocError, Global};
use toml::Value;

/// The most rules of a table.
const MOST_RULES: usize = 256;

impl Table {
    /// Reads a table from a TOML document with the keys `default` and `other`, each `"pass"` or `"block"`, and
    /// `rule`, an array of at most 256 tables with an `action` and ranges `pgn`, `source`, `destination` and `from`.
    /// Absent, the two actions are `"block"` and a range is its whole field. What is TOML, the crate `toml` decides.
    ///
    /// Refusals: 50 to 55, as `TableRefusal` says.
    pub fn read(alloc: Global, text: &str) -> Result<Table, TableRefusal>
        ensures table { IfOk result (IsTableText text.now) }
        ensures refused { IfErr result (IsTableRefusal text.now) }
    {
        match toml::table_from_str(alloc, text) {
            Ok(document) => from_document(alloc, &document),
            Err(error) if error.is_memory() => Err(TableRefusal::OutOfMemory),
            Err(error) => Err(TableRefusal::BadToml(error)),
        }
    }
}

/// The causes in their order over the whole document.
fn from_document(alloc: Global, document: &toml::Table) -> Result<Table, TableRefusal>
    ensures table { IfOk result (IsDocument (table_view document.now)) }
    ensures refused { IfErr result (IsDocumentRefusal (table_view document.now)) }
{
    let Some(written) = written_rules(document) else {
        return Err(TableRefusal::NoRuleTables);
    };
    if let Some((location, key)) = unknown_key(document, written) {
        return Err(tell_key(location, key));
    }
    if let Some((of, why)) = bad_action(document, written) {
        return Err(TableRefusal::BadAction { of, why });
    }
    if let Some((rule, (field, why))) = bad_range(written) {
        return Err(TableRefusal::BadRange { rule, field, why });
    }
    let rules = written.len();
    if rules > MOST_RULES {
        return Err(TableRefusal::TooManyRules { rules });
    }
    match read_rules(alloc, written) {
        Ok(rules) => Ok(Table {
            default: action_or_block(document, "default").unwrap_or(Action::Block),
            other: action_or_block(document, "other").unwrap_or(Action::Block),
            rules,
        }),
        Err(AllocError) => Err(TableRefusal::OutOfMemory),
    }
}

/// The refusal of a key that is not known.
fn tell_key(location: KeyLocation, key: &String) -> TableRefusal
    ensures { IsKeyRefusal location (string_bytes key.now) result }
{
    match key.clone() {
        Ok(key) => TableRefusal::UnknownKey { location, key },
        Err(AllocError) => TableRefusal::OutOfMemory,
    }
}

/// The rules as they are written: none where there is no `rule`, and `None` where it is no array of tables.
fn written_rules(document: &toml::Table) -> Option<&[Value]>
    ensures { option_map (λ rules. map view rules.now) result
        ≡ written_rules (table_view document.now) }
{
    match member(document, "rule") {
        Some(rules) => tables_in(rules),
        None => Some(&[]),
    }
}

fn tables_in(value: &Value) -> Option<&[Value]>
    ensures { option_map (λ values. map view values.now) result ≡ tables_in (view value.now) }
{
    match value {
        Value::Array(values) => {
            let tables = values.as_slice();
            if are_tables(tables) {
                Some(tables)
            } else {
                None
            }
        }
        _ => None,
    }
}

fn are_tables(values: &[Value]) -> bool
    ensures { result ≡ list_all is_table (map view values.now) }
{
    values.iter().all(Value::is_table)
}

/// The rules that the values are, without those that are none. Their room is made beforehand: `collect` would ask again, and
/// for less, where a growth is refused.
fn read_rules(alloc: Global, rules: &[Value]) -> Result<Vec<Rule>, AllocError>
    ensures { IfOk result (λ read. read.items ≡ filter_map rule_in (map view rules.now)) }
{
    let mut read = Vec::with_capacity(alloc, rules.len())?;
    read.extend(rules.iter().filter_map(rule_in))?;
    Ok(read)
}
