//! What is wrong with a table, in one line: where it is, and how it is written right.

use crate::nearest::nearest;
use crate::refusal::{ActionFault, Field, KeyLocation, RangeFault, TableRefusal};
use crate::table::Part;
use std::error::Error;
use std::fmt;
use std::fmt::{Display, Formatter};

/// The keys above the rules.
const DOCUMENT_KEYS: [&str; 3] = ["default", "other", "rule"];

/// The keys of a rule.
const RULE_KEYS: [&str; 5] = ["action", "pgn", "source", "destination", "from"];

impl Display for Part {
    fn fmt<W: fmt::Write>(&self, f: &mut Formatter<W>) -> fmt::Result {
        match self {
            Part::Rule(rule) => write!(f, "rule {rule}"),
            Part::Default => f.write_str("`default`"),
            Part::Other => f.write_str("`other`"),
        }
    }
}

impl Display for TableRefusal {
    fn fmt<W: fmt::Write>(&self, f: &mut Formatter<W>) -> fmt::Result {
        match self {
            TableRefusal::BadToml(error) => not_toml(f, error),
            TableRefusal::NoRuleTables => f.write_str(
                "`rule` is no array of tables; write `[[rule]]`, with two brackets, above each rule",
            ),
            TableRefusal::UnknownKey { location, key } => unknown_key(f, *location, key.as_str()),
            TableRefusal::BadAction { of, why } => bad_action(f, *of, *why),
            TableRefusal::BadRange { rule, field, why } => bad_range(f, *rule, *field, *why),
            TableRefusal::TooManyRules { rules } => {
                write!(f, "the table has {rules} rules; at most 256 are read")
            }
            TableRefusal::OutOfMemory => f.write_str("memory was refused for the table"),
        }
    }
}

impl Error for TableRefusal {}

/// The message of `toml` with its line and column. It has several lines.
fn not_toml<W: fmt::Write>(f: &mut Formatter<W>, error: &toml::de::Error) -> fmt::Result {
    f.write_str("the table is no TOML document: ")?;
    let mut line = OneLine {
        inner: f,
        is_behind_line: false,
    };
    fmt::Write::write_fmt(&mut line, format_args!("{error}"))
}

/// A key is quoted as in TOML, since it may be any text.
fn unknown_key<W: fmt::Write>(
    f: &mut Formatter<W>,
    location: KeyLocation,
    key: &str,
) -> fmt::Result {
    match location {
        KeyLocation::Top => unknown_at_top(f, key),
        KeyLocation::Rule(rule) => unknown_in_rule(f, rule, key),
    }
}

fn unknown_at_top<W: fmt::Write>(f: &mut Formatter<W>, key: &str) -> fmt::Result {
    if RULE_KEYS.contains(&key) {
        return write!(
            f,
            "{key:?} stands above the first `[[rule]]`; write it below the `[[rule]]` that it belongs to"
        );
    }
    write!(f, "the key {key:?} is unknown")?;
    guess(f, nearest(key, &DOCUMENT_KEYS))?;
    f.write_str("; a table has `default`, `other` and `[[rule]]`")
}

fn unknown_in_rule<W: fmt::Write>(f: &mut Formatter<W>, rule: usize, key: &str) -> fmt::Result {
    if matches!(key, "default" | "other") {
        return write!(
            f,
            "rule {rule} has {key:?}: behind a `[[rule]]` TOML puts it into that rule; write it above the first `[[rule]]`"
        );
    }
    write!(f, "rule {rule} has the unknown key {key:?}")?;
    guess(f, nearest(key, &RULE_KEYS))?;
    f.write_str("; a rule has `action`, `pgn`, `source`, `destination` and `from`")
}

fn guess<W: fmt::Write>(f: &mut Formatter<W>, key: Option<&str>) -> fmt::Result {
    match key {
        Some(key) => write!(f, " (`{key}`?)"),
        None => Ok(()),
    }
}

fn bad_action<W: fmt::Write>(f: &mut Formatter<W>, of: Part, why: ActionFault) -> fmt::Result {
    match (of, why) {
        (_, ActionFault::Absent) => {
            write!(
                f,
                "{of} has no `action`; write `action = \"pass\"` or `action = \"block\"`"
            )
        }
        (Part::Rule(_), ActionFault::NoAction) => {
            write!(f, "the `action` of {of} is neither \"pass\" nor \"block\"")
        }
        (_, ActionFault::NoAction) => write!(f, "{of} is neither \"pass\" nor \"block\""),
    }
}

fn bad_range<W: fmt::Write>(
    f: &mut Formatter<W>,
    rule: usize,
    field: Field,
    why: RangeFault,
) -> fmt::Result {
    let (key, greatest) = (field.key(), field.greatest());
    match why {
        RangeFault::NoRange => write!(
            f,
            "`{key}` of rule {rule} is no range; write a number from 0 to {greatest}, or two as `[lo, hi]`, without quotes"
        ),
        RangeFault::OutOfField => write!(
            f,
            "`{key}` of rule {rule} has a number that is not from 0 to {greatest}"
        ),
        RangeFault::Descending => write!(
            f,
            "`{key}` of rule {rule} runs downwards; write `[lo, hi]` with the lower number first"
        ),
    }
}

/// Writes lines as one, with `: ` between them.
#[derive(Drop)]
struct OneLine<'a, W> {
    inner: &'a mut Formatter<W>,
    is_behind_line: bool,
}

impl<W: fmt::Write> fmt::Write for OneLine<'_, W> {
    fn write_str(&mut self, text: &str) -> fmt::Result {
        for c in text.chars() {
            if c == '\n' {
                self.is_behind_line = true;
                continue;
            }
            if self.is_behind_line {
                self.inner.write_str(": ")?;
                self.is_behind_line = false;
            }
            self.inner.write_char(c)?;
        }
        Ok(())
    }
}
