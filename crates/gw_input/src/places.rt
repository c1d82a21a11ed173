//! Where a text of a table is wrong: its lines and columns.

ghost use Rattle.std.specs.Prelude.{◌≡◌, ◌+◌, ◌==◌, ◌&&◌, ◌<◌, ◌≤◌, not, if◌then◌else◌, length, option_copied};
ghost use Rattle.std.specs.List.{count_by, position_or_len};
ghost use Rattle.memchr.specs.Find.{is_byte};
ghost use Rattle.gw_input.specs.RuleLines.{begins_rule, behind_blanks};
ghost use Rattle.gw_input.specs.Places.{
  action_place,
  closes,
  is_opening,
  is_wanted,
  key_place,
  line_place,
  names_key,
  opened,
  rules_begun,
  IsPlaceBehind,
  IsToldPlace,
};

use crate::lines::first_line;
use crate::rule_places::{begins_rule, behind_blanks, indent};
use gw_table::{ActionFault, KeyLocation, Part, TableRefusal};
use memchr::memrchr;
use std::fmt;
use std::fmt::{Display, Formatter};

/// A place in a text. Both count from 1, and a column counts octets.
#[derive(Clone, Copy, PartialEq, Eq, Debug)]
pub struct Place {
    pub line: usize,
    pub column: usize,
}

/// `12:3`, as compilers and editors write a place.
impl Display for Place {
    fn fmt<W: fmt::Write>(&self, f: &mut Formatter<W>) -> fmt::Result {
        write!(f, "{}:{}", self.line, self.column)
    }
}

/// Where the text of a table is refused: at the key that is wrong, or where its rule begins if no line begins with the key. Of a
/// text that is no TOML, where that shows. None where no line is known.
pub fn refused_place(text: &[u8], why: &TableRefusal) -> Option<Place>
    ensures { IsToldPlace text.now why.now result }
{
    match why {
        TableRefusal::BadToml(error) => {
            let span = error.span()?;
            text.get(..span.start).map(|before| place_behind(before))
        }
        TableRefusal::NoRuleTables => key_place(text, KeyLocation::Top, b"rule"),
        TableRefusal::UnknownKey { location, key } => key_place(text, *location, key.as_bytes()),
        TableRefusal::BadAction { of, why } => action_place(text, *of, *why),
        TableRefusal::BadRange { rule, field, .. } => {
            key_place(text, KeyLocation::Rule(*rule), field.key().as_bytes())
        }
        TableRefusal::TooManyRules { .. } | TableRefusal::OutOfMemory => None,
    }
}

/// Where the action of a part of a table is wrong.
fn action_place(text: &[u8], part: Part, why: ActionFault) -> Option<Place>
    ensures { result ≡ action_place text.now part why }
{
    match part {
        Part::Default => key_place(text, KeyLocation::Top, b"default"),
        Part::Other => key_place(text, KeyLocation::Top, b"other"),
        Part::Rule(rule) => {
            let location = KeyLocation::Rule(rule);
            match why {
                ActionFault::Absent => find_line(text, location, None),
                ActionFault::NoAction => key_place(text, location, b"action"),
            }
        }
    }
}

/// Where a key stands, or where its rule begins if no line begins with the key.
fn key_place(text: &[u8], location: KeyLocation, key: &[u8]) -> Option<Place>
    ensures { result ≡ key_place text.now location key.now }
{
    match find_line(text, location, Some(key)) {
        Some(place) => Some(place),
        None => find_line(text, location, None),
    }
}

/// The first line of a location that begins with a key; without a key, the line that begins the rule.
fn find_line(text: &[u8], location: KeyLocation, key: Option<&[u8]>) -> Option<Place>
    ensures { result ≡ line_place text.now location (option_copied key.entry) }
{
    let (mut rest, mut number, mut begun) = (Some(text), 0, 0);
    while let Some(left) = rest {
        let (line, behind) = first_line(left);
        (rest, number, begun) = (behind, number + 1, rules_with(begun, line));
        if stands(location, key, begun, line) {
            return Some(Place {
                line: number,
                column: indent(line) + 1,
            });
        }
    }
    None
}

/// How many rules begin with one line more.
fn rules_with(begun: usize, line: &[u8]) -> usize
    requires { begun < 18446744073709551615 }
    ensures { result ≡ (if begins_rule line.now then begun + 1 else begun) }
{
    if begins_rule(line) { begun + 1 } else { begun }
}

/// Whether a line, on or above which so many rules begin, is the one that is looked for.
fn stands(location: KeyLocation, key: Option<&[u8]>, begun: usize, line: &[u8]) -> bool
    ensures { result ≡ ((begun == rules_begun location) && is_wanted (option_copied key.entry) line.now) }
{
    is_begun(location, begun) && is_wanted(key, line)
}

/// Whether a location is where so many rules have begun.
fn is_begun(location: KeyLocation, begun: usize) -> bool
    ensures { result ≡ (begun == rules_begun location) }
{
    match location {
        KeyLocation::Top => begun == 0,
        KeyLocation::Rule(number) => begun > number && begun - 1 == number,
    }
}

/// Whether a line begins with a key; without a key, whether it begins a rule.
fn is_wanted(key: Option<&[u8]>, line: &[u8]) -> bool
    ensures { result ≡ is_wanted (option_copied key.entry) line.now }
{
    match key {
        Some(key) => names_key(key, line),
        None => begins_rule(line),
    }
}

/// Whether a line begins with a key, or is the header of one.
fn names_key(key: &[u8], line: &[u8]) -> bool
    ensures { result ≡ names_key key.now line.now }
{
    let line = opened(line);
    line.starts_with(key) && closes(behind_blanks(&line[key.len()..]))
}

/// Whether the end of a key stands here.
fn closes(rest: &[u8]) -> bool
    ensures { result ≡ closes rest.now }
{
    matches!(rest, [b'=' | b']', ..])
}

/// What stands behind blanks and brackets.
fn opened(line: &[u8]) -> &[u8]
    ensures { result.now ≡ opened line.now }
{
    &line[openings(line)..]
}

/// How many blanks and brackets a line begins with.
fn openings(line: &[u8]) -> usize
    ensures openings { result ≡ position_or_len (λ c. not (is_opening c)) line.now }
    ensures bound { result ≤ length line.now }
{
    for (i, c) in line.iter().enumerate() {
        if *c != b' ' && *c != b'\t' && *c != b'[' {
            return i;
        }
    }
    line.len()
}

/// The place behind these octets.
fn place_behind(before: &[u8]) -> Place
    ensures { IsPlaceBehind before.now result }
{
    let column = match memrchr(b'\n', before) {
        Some(feed) => before.len() - feed,
        None => before.len() + 1,
    };
    Place {
        line: line_feeds(before) + 1,
        column,
    }
}

/// How many line feeds a text has.
fn line_feeds(text: &[u8]) -> usize
    ensures number { result ≡ count_by (is_byte 10) text.now }
    ensures bound { result ≤ length text.now }
{
    text.iter().filter(|octet| **octet == b'\n').count()
}
