//! How many frames each part of a table decided, and how many lines were refused for which cause.

ghost use Rattle.std.specs.Prelude.{◌≡◌, ◌<◌};
ghost use Rattle.gw_judge.specs.Tallies.{cause_in, cause_place};
ghost use Rattle.gw_judge.specs.Counting.{no_tally, tally_with, with_part, with_cause, cause_with};

use crate::counts::Counts;
use crate::fate::Fate;
use crate::groups::Groups;
use gw_log::LogRefusal;
use gw_table::Part;

/// The most rules of a table.
pub const MAX_RULES: usize = 256;

/// How many causes there are to refuse a line, and the number of the first.
const CAUSES: usize = 13;

const FIRST_CAUSE: u32 = 101;

/// How many lines were refused for one cause.
#[derive(Clone, Copy, PartialEq, Eq, Debug)]
pub struct Cause {
    pub count: u64,
    /// The number of the first of them, counted from 1; 0 where there is none.
    pub first: u64,
}

/// What is told of the lines of a log. Each number is right up to 18446744073709551615, and stays there.
#[derive(Drop)]
pub struct Tally {
    /// The lines, those that say nothing too.
    pub lines: u64,
    pub counts: Counts,
    /// How many frames each rule of a table decided, by its number; 0 behind the last rule, and where no table judged.
    pub by_rule: [u64; MAX_RULES],
    pub by_default: u64,
    pub by_other: u64,
    pub(crate) causes: [Cause; CAUSES],
    /// How many frames of each group passed and were blocked.
    pub groups: Groups,
}

impl Tally {
    /// No line yet.
    pub(crate) fn new(groups: Groups) -> Tally
        ensures { result ≡ no_tally groups }
    {
        Tally {
            lines: 0,
            counts: Counts::new(),
            by_rule: [0; MAX_RULES],
            by_default: 0,
            by_other: 0,
            causes: [Cause { count: 0, first: 0 }; CAUSES],
            groups,
        }
    }

    /// How many lines were refused for a cause, and the first of them.
    pub fn cause(&self, why: LogRefusal) -> Cause
        ensures { result ≡ cause_in self.now why }
    {
        self.causes[cause_place(why)]
    }

    /// Counts a line of this fate.
    pub(crate) fn count(&mut self, fate: Fate)
        ensures { self.new ≡ tally_with fate self.old }
    {
        self.lines = self.lines.saturating_add(1);
        self.counts = self.counts.with(fate);
        self.groups.count(fate);
        match fate {
            Fate::Passed(frame) | Fate::Blocked(frame) => self.count_part(frame.part),
            Fate::Refused(why) => self.count_cause(why),
            Fate::Silent => {}
        }
    }

    fn count_part(&mut self, part: Option<Part>)
        ensures { self.new ≡ with_part part self.old }
    {
        match part {
            Some(Part::Rule(number)) => {
                if number < MAX_RULES {
                    self.by_rule[number] = self.by_rule[number].saturating_add(1);
                }
            }
            Some(Part::Default) => self.by_default = self.by_default.saturating_add(1),
            Some(Part::Other) => self.by_other = self.by_other.saturating_add(1),
            None => {}
        }
    }

    fn count_cause(&mut self, why: LogRefusal)
        ensures { self.new ≡ with_cause why self.old }
    {
        let place = cause_place(why);
        self.causes[place] = self.causes[place].with(self.lines);
    }
}

impl Cause {
    /// With one line more, of this number.
    fn with(self, number: u64) -> Cause
        ensures { result ≡ cause_with number self }
    {
        Cause {
            count: self.count.saturating_add(1),
            first: if self.first == 0 { number } else { self.first },
        }
    }
}

/// Where a cause is counted.
#[tactic(auto, using(crate::proofs::Counting::place_below, crate::proofs::Counting::from_101))]
fn cause_place(why: LogRefusal) -> usize
    ensures place { result ≡ cause_place why }
    ensures bound { result < 13 }
{
    (why.number() - FIRST_CAUSE) as usize
}
