//! Why a text is no table.

ghost use Rattle.std.specs.Prelude.{◌≡◌};
ghost use Rattle.gw_table.specs.TableText.{refusal_number};

use crate::table::{GREATEST_GROUP, GREATEST_OCTET, Part};

/// Where a key stands.
#[derive(Clone, Copy, PartialEq, Eq, Debug)]
pub enum KeyLocation {
    /// At the top of the document, before its first `[[rule]]`.
    Top,
    /// In the rule of this number, counted from 0.
    Rule(usize),
}

/// What is wrong with an action.
#[derive(Clone, Copy, PartialEq, Eq, Debug)]
pub enum ActionFault {
    /// The rule has none.
    Absent,
    /// It is neither `"pass"` nor `"block"`.
    NoAction,
}

/// A field that a rule can have a range of.
#[derive(Clone, Copy, PartialEq, Eq, Debug)]
pub enum Field {
    Pgn,
    Source,
    Destination,
    From,
}

/// What is wrong with a range.
#[derive(Clone, Copy, PartialEq, Eq, Debug)]
pub enum RangeFault {
    /// It is neither a number nor an array of two numbers.
    NoRange,
    /// A number of it is below 0 or above the greatest of the field.
    OutOfField,
    /// The first of its two numbers is above the second.
    Descending,
}

/// Why a text is no table, and where. Of several causes the one with the least number is given: over the whole text
/// the keys come before the actions, and these before the ranges. Of one cause the first is given: `default`,
/// `other`, then the least rule, and within a table the first key in the order of their octets.
#[derive(Drop, PartialEq, Eq, Debug)]
pub enum TableRefusal {
    /// 50: the text is no TOML document.
    BadToml(toml::de::Error),
    /// 51: `rule` is not an array of tables.
    NoRuleTables,
    /// 51: a key that is none of `default`, `other` and `rule`, or in a rule none of `action`, `pgn`, `source`,
    /// `destination` and `from`.
    UnknownKey {
        location: KeyLocation,
        key: String,
    },
    /// 52: an action that is neither `"pass"` nor `"block"`, or a rule without one.
    BadAction {
        of: Part,
        why: ActionFault,
    },
    /// 53: a range that is neither a number of its field nor an array of two of them in ascending order, and the
    /// rule that has it, counted from 0.
    BadRange {
        rule: usize,
        field: Field,
        why: RangeFault,
    },
    /// 54: more than 256 rules, and how many.
    TooManyRules {
        rules: usize,
    },
    /// 55: want of memory, which may stand in place of any answer.
    OutOfMemory,
}

impl TableRefusal {
    /// The number by which the refusal is known outside.
    pub fn number(&self) -> u32
        ensures { result ≡ refusal_number self.now }
    {
        match self {
            TableRefusal::BadToml(_) => 50,
            TableRefusal::NoRuleTables | TableRefusal::UnknownKey { .. } => 51,
            TableRefusal::BadAction { .. } => 52,
            TableRefusal::BadRange { .. } => 53,
            TableRefusal::TooManyRules { .. } => 54,
            TableRefusal::OutOfMemory => 55,
        }
    }
}

impl Field {
    ghost use Rattle.gw_table.specs.TableText.{key_of, greatest};

    /// The key that a rule has the range under.
    pub fn key(self) -> &'static str
        ensures { result.now ≡ key_of self }
    {
        match self {
            Field::Pgn => "pgn",
            Field::Source => "source",
            Field::Destination => "destination",
            Field::From => "from",
        }
    }

    /// The greatest number of the field; the least is 0.
    pub fn greatest(self) -> u32
        ensures { result ≡ greatest self }
    {
        match self {
            Field::Pgn => GREATEST_GROUP,
            Field::Source | Field::Destination | Field::From => GREATEST_OCTET,
        }
    }
}
