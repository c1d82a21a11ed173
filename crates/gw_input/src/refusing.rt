//! The lines of refusals.

ghost use Rattle.std.specs.Prelude.{◌≡◌, ◌≤◌, length};
ghost use Rattle.gw_verify.specs.Cause.{cause_number};
ghost use Rattle.gw_input.specs.Refused.{refused_line, cause_details, refused_rule};

use crate::line::Line;
use gw_table::{KeyLocation, Part, TableRefusal};
use gw_verify::{Cause, Path, Refused};
use std::fmt;
use std::fmt::{Display, Formatter};

/// Why code is refused, as a person is told it: with a path that leaves a scratch word unset, where there is one.
#[derive(Clone, Copy)]
pub struct ExplainedCode<'a> {
    pub refused: &'a Refused,
    pub path: Option<&'a Path>,
}

impl<'a> Display for ExplainedCode<'a> {
    fn fmt<W: fmt::Write>(&self, f: &mut Formatter<W>) -> fmt::Result {
        let place = self.refused.place;
        match (self.refused.why, self.path) {
            (Cause::UnsetWord { word }, Some(path)) => write!(
                f,
                "instruction {place} loads M[{word}], which the path {path} leaves unset"
            ),
            _ => write!(f, "{}", self.refused),
        }
    }
}

/// Returns the line of a refusal: `refused`, its number and its details.
pub fn refused(number: u32, details: &[u64]) -> Line
    requires { length details.now ≤ 4 }
    ensures { result ≡ refused_line number details.now }
{
    let mut line = Line::new().text("refused").number(u64::from(number));
    for detail in details {
        line = line.number(*detail);
    }
    line.text("\n")
}

/// Returns the line of refused code. Its details are the place, and the scratch word that may be unset.
pub fn refused_code(why: Cause, place: usize) -> Line
    ensures { result ≡ refused_line (cause_number why) (cause_details why place) }
{
    match why {
        Cause::OutOfMemory => refused(why.number(), &[]),
        Cause::UnsetWord { word } => refused(why.number(), &[place as u64, u64::from(word)]),
        _ => refused(why.number(), &[place as u64]),
    }
}

/// Returns the rule of a table that a refusal names, by its number.
pub fn refused_rule(why: &TableRefusal) -> Option<usize>
    ensures { result ≡ refused_rule why.now }
{
    match why {
        TableRefusal::UnknownKey {
            location: KeyLocation::Rule(rule),
            ..
        }
        | TableRefusal::BadAction {
            of: Part::Rule(rule),
            ..
        }
        | TableRefusal::BadRange { rule, .. } => Some(*rule),
        _ => None,
    }
}
