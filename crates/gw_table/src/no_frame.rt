//! Why a question asks for no frame.

ghost use Rattle.std.specs.Prelude.{◌≡◌, ℕ, ◌≤◌, true, false, List, MatchBool};
ghost use Rattle.gw_ident.specs.Identifier.{parameter_group};
ghost use Rattle.gw_table.specs.Question.{lies_in_given, IsAsked, AsksNoGroup, IsWhyNoFrame, why_text};

use crate::question::{Question, cut};
use crate::table::{GREATEST_GROUP, GREATEST_OCTET, Span};
use gw_ledger::MAX_PORTS;
use std::fmt;
use std::fmt::{Display, Formatter};

/// Why a question asks for no frame.
#[derive(Clone, Copy, PartialEq, Eq, Debug)]
pub enum WhyNoFrame {
    /// No identifier's parameter group lies in the range of groups that is given.
    NoGroup,
    /// No octet lies in the range of sources that is given.
    NoSource,
    /// No port below 16 lies in the range of ports that is given.
    NoPort,
    /// No identifier with a group that is asked for has its destination in the range of destinations.
    NoDestination,
}

impl Question {
    /// Why no frame is asked for.
    pub(crate) fn why_no_frame(&self) -> WhyNoFrame
        requires { (octets : List ℕ) (port : ℕ) → ¬ IsAsked self.now octets port }
        ensures { IsWhyNoFrame self.now result }
    {
        if !self.has_group() {
            WhyNoFrame::NoGroup
        } else if !has_number(self.source, GREATEST_OCTET) {
            WhyNoFrame::NoSource
        } else if !has_number(self.from, MAX_PORTS as u32 - 1) {
            WhyNoFrame::NoPort
        } else {
            WhyNoFrame::NoDestination
        }
    }

    /// Whether a parameter group is asked for.
    fn has_group(&self) -> bool
        ensures { MatchBool result ((word : ℕ) × (lies_in_given (parameter_group word) self.now.pgn ≡ true))
            (AsksNoGroup self.now) }
    {
        match cut(self.pgn, GREATEST_GROUP) {
            Some(groups) => groups.has_group(),
            None => false,
        }
    }
}

/// Whether a number up to the greatest of its field lies in a range, if one is given.
fn has_number(span: Option<Span>, greatest: u32) -> bool
    ensures { MatchBool result ((n : ℕ) × (n ≤ greatest) × (lies_in_given n span ≡ true))
        ((n : ℕ) → n ≤ greatest → lies_in_given n span ≡ false) }
{
    match cut(span, greatest) {
        Some(_) => true,
        None => false,
    }
}

impl WhyNoFrame {
    /// The cause in words, which `Display` writes too.
    pub fn text(self) -> &'static str
        ensures { result.now ≡ why_text self }
    {
        match self {
            WhyNoFrame::NoGroup => {
                "`pgn` has no parameter group: below PDU format 240 the last octet of a PGN is 0, and the destination is no \
                part of it"
            }
            WhyNoFrame::NoSource => "`source` has no address: addresses are 0 to 255",
            WhyNoFrame::NoPort => "`from` has no port: ports are 0 to 15",
            WhyNoFrame::NoDestination => {
                "`destination` has no address that these groups go to: addresses are 0 to 255, and PDU2 groups go to 255 alone"
            }
        }
    }
}

impl Display for WhyNoFrame {
    fn fmt<W: fmt::Write>(&self, f: &mut Formatter<W>) -> fmt::Result {
        f.write_str(self.text())
    }
}
