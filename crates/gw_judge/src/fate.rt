//! What becomes of a line.

ghost use Rattle.std.specs.Prelude.{◌≡◌};
ghost use Rattle.gw_judge.specs.Fates.{fate_of};

use crate::decider::Decider;
use gw_log::{LogRefusal, read_line};
use gw_table::Part;

/// A frame that was judged.
#[derive(Clone, Copy, PartialEq, Eq, Debug)]
pub struct Decided {
    /// The part that decided it, where a table judges.
    pub part: Option<Part>,
    /// Its identifier word.
    pub word: u32,
}

/// What becomes of a line of a log.
#[derive(Clone, Copy, PartialEq, Eq, Debug)]
pub enum Fate {
    /// It says a frame that passes.
    Passed(Decided),
    /// It says a frame that is blocked.
    Blocked(Decided),
    /// It says nothing.
    Silent,
    /// It says no classic frame.
    Refused(LogRefusal),
}

/// What becomes of a line by a policy or a table, where its frame is taken at the port `from`.
#[tactic(auto, unfolding(crate::specs::Fates::fate_of))]
pub fn line_fate<D: Decider>(decider: &D, from: u8, line: &[u8]) -> Fate
    ensures { result ≡ fate_of (D.fate_by decider.now from) line.now }
{
    match read_line(line) {
        Ok(Some(said)) => decider.fate(said.frame(), from),
        Ok(None) => Fate::Silent,
        Err(why) => Fate::Refused(why),
    }
}
