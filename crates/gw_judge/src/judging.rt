//! A log that comes in parts of lines, and what is written of it.

ghost use Rattle.std.specs.Prelude.{◌≡◌, ◌++◌, ◌-◌, [], ℕ, List, false, length, take, IfOk, OnOk};
ghost use Rattle.gw_io.specs.Tries.{inner_of, has_failed};
ghost use Rattle.gw_judge.specs.Fates.{fate_of};
ghost use Rattle.gw_judge.specs.Judged.{line_text};
ghost use Rattle.gw_judge.specs.Counting.{no_tally, tally_with};
ghost use Rattle.gw_judge.specs.UnderWay.{Judges, Refuses};

use crate::decider::Decider;
use crate::fate::{Fate, line_fate};
use crate::fault::{JudgeFault, RefusedLine};
use crate::gathered::Gathered;
use crate::groups::Groups;
use crate::kept::{MAX_KEPT, ends_line, keep};
use crate::report::Report;
use crate::tally::Tally;
use arrayvec::ArrayVec;
use gw_io::Tried;
use std::io::Write;

/// What is asked of a log.
#[derive(Drop)]
pub struct Asked<'a, D, P> {
    /// What decides its frames.
    pub decider: &'a D,
    /// The port at which they are taken.
    pub from: u8,
    /// Which lines are written, and what stands in front of each.
    pub report: &'a P,
    /// Whether the first refused line ends the judging.
    pub strict: bool,
}

/// Judges each line as soon as its last part comes.
#[derive(Drop)]
pub struct Judging {
    // the line that is unfinished, or its beginning where it is too long
    pub kept: ArrayVec<u8, MAX_KEPT>,
    pub gathered: Gathered,
    pub tally: Tally,
}

impl Judging {
    ghost use Rattle.gw_judge.specs.LineParts.{IsLinePart};
    ghost use Rattle.gw_judge.specs.UnderWay.{HasJudged, Reaches, Closes, Ends};

    /// Starts before the first octet.
    pub fn new(groups: Groups) -> Judging
        ensures kept { result.kept.items ≡ [] }
        ensures gathered { result.gathered.held.items ≡ [] }
        ensures tally { result.tally ≡ no_tally groups }
    {
        Judging {
            kept: ArrayVec::new(),
            gathered: Gathered::new(),
            tally: Tally::new(groups),
        }
    }

    /// Takes a part of a line. Where a line feed ends it, the line is judged, and written if it is asked for.
    pub fn take<D: Decider, P: Report, W: Write>(
        &mut self,
        asked: &Asked<D, P>,
        part: &[u8],
        writer: &mut Tried<W>,
    ) -> Result<(), JudgeFault>
        requires writer { has_failed writer.old ≡ false }
        requires part { IsLinePart part.now }
        ensures taken { (octets text : List ℕ)
            → HasJudged (fate_of (D.fate_by asked.now.decider.now asked.now.from)) (P.front_of asked.now.report.now)
            asked.now.strict octets self.old text
            → Reaches (fate_of (D.fate_by asked.now.decider.now asked.now.from)) (P.front_of asked.now.report.now)
            asked.now.strict (octets ++ part.now) text (W.contents (inner_of writer.old)) (W.contents (inner_of writer.new))
            (has_failed writer.new) result self.new }
        ensures whole { OnOk result (has_failed writer.new ≡ false) }
        ensures grouping { self.new.tally.groups.grouping ≡ self.old.tally.groups.grouping }
    {
        let is_ended = ends_line(part);
        if is_ended && self.kept.is_empty() && part.len() <= MAX_KEPT {
            // A whole line, as most are, is judged where it stands.
            return judge_line(asked, part, &mut self.gathered, &mut self.tally, writer);
        }
        self.keep(part);
        if !is_ended {
            return Ok(());
        }
        let judged = self.judge_kept(asked, writer);
        self.kept.clear();
        judged
    }

    /// Writes what is held where all that was read is judged.
    pub fn write_out<D: Decider, P: Report, W: Write>(
        &mut self,
        asked: &Asked<D, P>,
        used_up: bool,
        writer: &mut Tried<W>,
    ) -> Result<(), JudgeFault>
        requires writer { has_failed writer.old ≡ false }
        ensures reached { (octets text : List ℕ)
            → HasJudged (fate_of (D.fate_by asked.now.decider.now asked.now.from)) (P.front_of asked.now.report.now)
            asked.now.strict octets self.old text
            → Reaches (fate_of (D.fate_by asked.now.decider.now asked.now.from)) (P.front_of asked.now.report.now)
            asked.now.strict octets text (W.contents (inner_of writer.old)) (W.contents (inner_of writer.new))
            (has_failed writer.new) result self.new }
        ensures whole { OnOk result (has_failed writer.new ≡ false) }
        ensures grouping { self.new.tally.groups.grouping ≡ self.old.tally.groups.grouping }
    {
        if used_up {
            self.gathered.flush(writer)
        } else {
            Ok(())
        }
    }

    /// Judges the last line, which no line feed ended, and returns the tally.
    pub fn end<D: Decider, P: Report, W: Write>(
        mut self,
        asked: &Asked<D, P>,
        writer: &mut Tried<W>,
    ) -> Result<Tally, JudgeFault>
        requires { has_failed writer.old ≡ false }
        ensures ended { (octets text : List ℕ)
            → HasJudged (fate_of (D.fate_by asked.now.decider.now asked.now.from)) (P.front_of asked.now.report.now)
            asked.now.strict octets self text
            → Ends (fate_of (D.fate_by asked.now.decider.now asked.now.from)) (P.front_of asked.now.report.now)
            asked.now.strict octets text (W.contents (inner_of writer.old)) (W.contents (inner_of writer.new))
            (has_failed writer.new) result }
        ensures grouping { IfOk result (λ tally. tally.groups.grouping ≡ self.tally.groups.grouping) }
    {
        self.judge_last(asked, writer)?;
        self.gathered.flush(writer)?;
        Ok(self.tally)
    }

    /// Judges the last line, if no line feed ended it.
    fn judge_last<D: Decider, P: Report, W: Write>(
        &mut self,
        asked: &Asked<D, P>,
        writer: &mut Tried<W>,
    ) -> Result<(), JudgeFault>
        requires { has_failed writer.old ≡ false }
        ensures closed { (octets text : List ℕ)
            → HasJudged (fate_of (D.fate_by asked.now.decider.now asked.now.from)) (P.front_of asked.now.report.now)
            asked.now.strict octets self.old text
            → Closes (fate_of (D.fate_by asked.now.decider.now asked.now.from)) (P.front_of asked.now.report.now)
            asked.now.strict octets text (W.contents (inner_of writer.old)) (W.contents (inner_of writer.new))
            (has_failed writer.new) result self.new }
        ensures whole { OnOk result (has_failed writer.new ≡ false) }
        ensures grouping { self.new.tally.groups.grouping ≡ self.old.tally.groups.grouping }
    {
        if self.kept.is_empty() {
            Ok(())
        } else {
            self.judge_kept(asked, writer)
        }
    }

    /// Keeps more of the unfinished line.
    fn keep(&mut self, part: &[u8])
        ensures kept { self.new.kept.items ≡ self.old.kept.items ++ take (65537 - length self.old.kept.items) part.now }
        ensures gathered { self.new.gathered ≡ self.old.gathered }
        ensures tally { self.new.tally ≡ self.old.tally }
    {
        keep(&mut self.kept, part);
    }

    /// Judges the line that is kept.
    fn judge_kept<D: Decider, P: Report, W: Write>(
        &mut self,
        asked: &Asked<D, P>,
        writer: &mut Tried<W>,
    ) -> Result<(), JudgeFault>
        requires { has_failed writer.old ≡ false }
        ensures tally { self.new.tally
            ≡ tally_with (fate_of (D.fate_by asked.now.decider.now asked.now.from) self.old.kept.items) self.old.tally }
        ensures judged { Judges (fate_of (D.fate_by asked.now.decider.now asked.now.from) self.old.kept.items)
            (line_text (P.front_of asked.now.report.now)
            (fate_of (D.fate_by asked.now.decider.now asked.now.from) self.old.kept.items) self.old.kept.items)
            asked.now.strict self.new.tally.lines
            (W.contents (inner_of writer.old)) (W.contents (inner_of writer.new)) (has_failed writer.new)
            self.old.gathered.held.items result self.new.gathered.held.items }
        ensures grouping { self.new.tally.groups.grouping ≡ self.old.tally.groups.grouping }
    {
        judge_line(
            asked,
            self.kept.as_slice(),
            &mut self.gathered,
            &mut self.tally,
            writer,
        )
    }
}

/// Judges a line: it is counted, and put behind its front where it is asked for.
#[tactic(auto, using(crate::proofs::Counting::grouping_stays))]
fn judge_line<D: Decider, P: Report, W: Write>(
    asked: &Asked<D, P>,
    line: &[u8],
    gathered: &mut Gathered,
    tally: &mut Tally,
    writer: &mut Tried<W>,
) -> Result<(), JudgeFault>
    requires { has_failed writer.old ≡ false }
    ensures tally { tally.new ≡ tally_with (fate_of (D.fate_by asked.now.decider.now asked.now.from) line.now) tally.old }
    ensures judged { Judges (fate_of (D.fate_by asked.now.decider.now asked.now.from) line.now)
        (line_text (P.front_of asked.now.report.now)
        (fate_of (D.fate_by asked.now.decider.now asked.now.from) line.now) line.now) asked.now.strict tally.new.lines
        (W.contents (inner_of writer.old)) (W.contents (inner_of writer.new)) (has_failed writer.new)
        gathered.old.held.items result gathered.new.held.items }
    ensures grouping { tally.new.groups.grouping ≡ tally.old.groups.grouping }
{
    let fate = line_fate(asked.decider, asked.from, line);
    tally.count(fate);
    match fate {
        Fate::Refused(why) => {
            let line = tally.lines;
            refuse(asked.strict, RefusedLine { line, why }, gathered, writer)
        }
        Fate::Passed(_) | Fate::Blocked(_) | Fate::Silent => {
            gathered.put_line(asked.report.front(fate), line, writer)
        }
    }
}

/// Ends the judging where it is strict, once what is held is written.
fn refuse<W: Write>(
    strict: bool,
    refused: RefusedLine,
    gathered: &mut Gathered,
    writer: &mut Tried<W>,
) -> Result<(), JudgeFault>
    requires { has_failed writer.old ≡ false }
    ensures { Refuses strict refused (W.contents (inner_of writer.old)) (W.contents (inner_of writer.new))
        (has_failed writer.new) gathered.old.held.items result gathered.new.held.items }
{
    if !strict {
        return Ok(());
    }
    gathered.flush(writer)?;
    Err(JudgeFault::Refused(refused))
}
