//! How many lines had which fate.

ghost use Rattle.std.specs.Prelude.{◌≡◌};

use crate::fate::Fate;

/// How many lines of a log had which fate, each up to 18446744073709551615. Lines that say nothing are not counted.
#[derive(Clone, Copy, PartialEq, Eq, Debug)]
pub struct Counts {
    /// Lines that say a frame that passes.
    pub passed: u64,
    /// Lines that say a frame that is blocked.
    pub blocked: u64,
    /// Lines that say no classic frame.
    pub refused: u64,
}

impl Counts {
    ghost use Rattle.gw_judge.specs.Counting.{no_counts, counts_with};

    /// No line yet.
    pub fn new() -> Counts
        ensures { result ≡ no_counts }
    {
        Counts {
            passed: 0,
            blocked: 0,
            refused: 0,
        }
    }

    /// The counts with a line of this fate.
    pub fn with(mut self, fate: Fate) -> Counts
        ensures { result ≡ counts_with fate self }
    {
        match fate {
            Fate::Passed(_) => self.passed = self.passed.saturating_add(1),
            Fate::Blocked(_) => self.blocked = self.blocked.saturating_add(1),
            Fate::Refused(_) => self.refused = self.refused.saturating_add(1),
            Fate::Silent => {}
        }
        self
    }
}
