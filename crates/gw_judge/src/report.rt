//! What is written of a log.

ghost use Rattle.std.specs.Prelude.{◌≡◌, ◌+◌, ◌≤◌, ◌++◌, ℕ, List, Option, length, if◌then◌else◌, Some, None, []};
ghost use Rattle.gw_judge.specs.declared.fate.Fate.{Fate};
ghost use Rattle.gw_judge.specs.Judged.{front_line, verdict_front, wanted_front};

use crate::fate::Fate;
use gw_input::Line;
use gw_table::Part;

/// Which lines are written, and what stands in front of each.
pub trait Report {
    /// What stands in front of the lines of a fate, if they are written.
    ghost front_of: { Self → Fate → Option (List ℕ) };

    /// What stands in front of a line of this fate, and none where the line is not written. A refused line never is.
    fn front(&self, fate: Fate) -> Option<Line>
        ensures { result ≡ front_of self.now fate };
}

/// Lines that are written, and stand unchanged in what is written.
#[derive(Clone, Copy, PartialEq, Eq, Debug)]
pub enum Wanted {
    /// Those that say a frame that passes.
    Passed,
    /// Those that say a frame that is blocked.
    Blocked,
    /// Those that say a frame, each behind its verdict and what decides it: `pass rule 0 (line 12) (1.0) can0 18FEF100#`.
    Each,
    /// None.
    Nothing,
}

/// The lines that are wanted, and where the rules stand that are named in front of them.
#[derive(Clone, Copy)]
pub struct Named<'a> {
    pub wanted: Wanted,
    /// The line at which each rule of the table stands, by its number. A rule behind the last of them is named without one.
    pub rule_lines: &'a [usize],
}

impl<'a> Report for Named<'a> {
    ghost front_of = { λ n. wanted_front n.rule_lines.now n.wanted };

    fn front(&self, fate: Fate) -> Option<Line> {
        match self.wanted {
            Wanted::Passed => unchanged_if(matches!(fate, Fate::Passed(_))),
            Wanted::Blocked => unchanged_if(matches!(fate, Fate::Blocked(_))),
            Wanted::Each => verdict_front(self.rule_lines, fate),
            Wanted::Nothing => None,
        }
    }
}

/// Nothing, in front of a line that is written.
fn unchanged_if(wanted: bool) -> Option<Line>
    ensures { result ≡ (if wanted then Some [] else None) }
{
    if wanted { Some(Line::new()) } else { None }
}

/// The verdict on a frame and what decides it.
fn verdict_front(lines: &[usize], fate: Fate) -> Option<Line>
    ensures { result ≡ verdict_front lines.now fate }
{
    match fate {
        Fate::Passed(frame) => Some(front_line("pass", lines, frame.part)),
        Fate::Blocked(frame) => Some(front_line("block", lines, frame.part)),
        Fate::Silent | Fate::Refused(_) => None,
    }
}

/// A verdict and what gave it, with a space behind each.
fn front_line(verdict: &str, lines: &[usize], part: Option<Part>) -> Line
    requires { length verdict.now ≤ 5 }
    ensures { result ≡ front_line verdict.now lines.now part }
{
    let line = Line::new().text(verdict).text(" ");
    match part {
        Some(Part::Rule(number)) => line.rule(number, lines).text(" "),
        Some(Part::Default) => line.text("default "),
        Some(Part::Other) => line.text("other "),
        None => line,
    }
}
