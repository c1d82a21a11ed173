//! A script that comes in pieces, and the answers to its lines.

ghost use Rattle.std.specs.Prelude.{◌≡◌, ◌<◌, ◌+◌, ◌++◌, [], ℕ, List, Option, None, length, true, false};
ghost use Rattle.std.specs.Prelude.{OnOk, OnErr, IfOk, IfErr, option_copied};
ghost use Rattle.std.specs.Io.KnownBytes.{Appends};
ghost use Rattle.gw_io.specs.Tries.{inner_of, has_failed};
ghost use Rattle.gw_io.specs.Written.{WritesPart};

use crate::script::{Said, Script};
use crate::whole::ReplayFault;
use gw_input::{MAX_INPUT, line_in, position_of};
use gw_io::{Tried, write_all};
use std::alloc::{AllocError, Global};
use std::io::Write;

/// How many octets of an unfinished line are kept. A line that has more is too long, whatever follows.
const MAX_KEPT: usize = MAX_INPUT + 2;

/// Reads a script in pieces, and answers each line as soon as it is whole.
#[derive(Drop)]
pub struct ScriptReader {
    pub script: Script,
    // the line that is unfinished, or its beginning where it is too long
    pub kept: Vec<u8>,
    // answers that are to be written
    pub answers: Vec<u8>,
    // how many lines were ended, for a person
    pub lines: u64,
    // whether a line was refused
    pub refused: bool,
}

impl ScriptReader {
    ghost use Rattle.std.specs.Prelude.{take, ◌-◌};
    ghost use Rattle.gw_replay.specs.Replies.{SessionState};
    ghost use Rattle.gw_input.specs.Lines.{ended_line, left_behind};
    ghost use Rattle.gw_replay.specs.Standing.{StandsIn};
    ghost use Rattle.gw_replay.specs.Reached.{HasReached, HasFed, FeedsLine, AnswersKept, EndsWith, IsEndFault};
    ghost use Rattle.gw_replay.specs.Reached.{most_kept};

    /// Starts before the first octet.
    pub fn new(alloc: Global) -> ScriptReader
        ensures reached { HasReached [] result [] }
        ensures empty { result.answers.items ≡ [] }
    {
        ScriptReader {
            script: Script::new(),
            kept: Vec::new(alloc),
            answers: Vec::new(alloc),
            lines: 0,
            refused: false,
        }
    }

    /// Answers the lines that end in a piece, and keeps what stands behind the last of them.
    pub fn feed<F: Write>(
        &mut self,
        alloc: Global,
        piece: &[u8],
        faults: &mut Tried<F>,
    ) -> Result<(), AllocError>
        ensures fed { (octets text : List ℕ) → HasReached octets self.old (text ++ self.old.answers.items)
            → HasFed octets piece.now text result self.new }
    {
        let mut rest = Some(piece);
        while let Some(text) = rest {
            match self.feed_line(alloc, text, faults) {
                Ok(behind) => rest = behind,
                Err(AllocError) => return Err(AllocError),
            }
        }
        Ok(())
    }

    /// Answers the line that ends in a text, and returns what stands behind it. A text where no line ends is kept.
    fn feed_line<'a, F: Write>(
        &mut self,
        alloc: Global,
        text: &'a [u8],
        faults: &mut Tried<F>,
    ) -> Result<Option<&'a [u8]>, AllocError>
        ensures fed { (octets before : List ℕ) → HasReached octets self.old (before ++ self.old.answers.items)
            → FeedsLine octets text.now before result self.new }
        ensures shorter { IfOk result (λ rest. left_behind (option_copied rest) < length text.now + 1) }
    {
        let end = position_of(b'\n', text);
        if self.keep(&text[..end]).is_err() {
            return Err(AllocError);
        }
        if end == text.len() {
            return Ok(None);
        }
        match self.answer_kept(alloc, true, faults) {
            Ok(()) => self.kept.clear(),
            Err(AllocError) => return Err(AllocError),
        }
        Ok(Some(&text[end + 1..]))
    }

    /// Keeps more of the unfinished line.
    fn keep(&mut self, part: &[u8]) -> Result<(), AllocError>
        ensures kept { OnOk result (self.new.kept.items ≡ self.old.kept.items
            ++ take (most_kept - length self.old.kept.items) part.now) }
        ensures script { self.new.script ≡ self.old.script }
        ensures answers { self.new.answers ≡ self.old.answers }
        ensures refused { self.new.refused ≡ self.old.refused }
    {
        let room = MAX_KEPT.saturating_sub(self.kept.len()).min(part.len());
        self.kept.extend_from_slice(&part[..room])
    }

    /// Answers the line that is kept. A line feed ended it, or else the script's end.
    fn answer_kept<F: Write>(
        &mut self,
        alloc: Global,
        ended: bool,
        faults: &mut Tried<F>,
    ) -> Result<(), AllocError>
        ensures answered { (s : Option SessionState) → StandsIn self.old.script.session s
            → OnOk result (AnswersKept s (ended_line ended self.old.kept.items) self.old self.new) }
        ensures kept { self.new.kept ≡ self.old.kept }
        ensures refused { OnErr result (self.new.answers.items ≡ self.old.answers.items) }
    {
        let line = line_in(self.kept.as_slice(), ended);
        self.lines = self.lines.saturating_add(1);
        match self.script.answer(alloc, line)? {
            Said::Nothing => Ok(()),
            Said::Line(line) => self.answers.extend_from_slice(line.as_bytes()),
            Said::Refused(fault) => {
                let number = self.lines;
                self.refused = true;
                let _ = writeln!(faults, "gw: line {number}: {fault}");
                self.answers.extend_from_slice(fault.line().as_bytes())
            }
        }
    }

    /// Writes the answers that were not written yet.
    pub fn write<W: Write>(&mut self, writer: &mut Tried<W>) -> Result<(), ReplayFault>
        requires { has_failed writer.old ≡ false }
        ensures written { OnOk result (Appends (W.contents (inner_of writer.old)) (W.contents (inner_of writer.new))
            self.old.answers.items) }
        ensures part { OnErr result (WritesPart (W.contents (inner_of writer.old)) (W.contents (inner_of writer.new))
            self.old.answers.items) }
        ensures whole { OnOk result (has_failed writer.new ≡ false) }
        ensures failed { OnErr result (has_failed writer.new ≡ true) }
        ensures fault { IfErr result (λ e. e ≡ ReplayFault.WriteFault) }
        ensures script { self.new.script ≡ self.old.script }
        ensures kept { self.new.kept ≡ self.old.kept }
        ensures lines { self.new.lines ≡ self.old.lines }
        ensures refused { self.new.refused ≡ self.old.refused }
        ensures empty { OnOk result (self.new.answers.items ≡ []) }
    {
        match write_all(writer, self.answers.as_slice()) {
            Ok(()) => {
                self.answers.clear();
                Ok(())
            }
            Err(_) => Err(ReplayFault::WriteFault),
        }
    }

    /// Answers the last line, which no line feed ended, and writes its answer. It returns whether a line of the script was
    /// refused.
    pub fn end<W: Write, F: Write>(
        &mut self,
        alloc: Global,
        writer: &mut Tried<W>,
        faults: &mut Tried<F>,
    ) -> Result<bool, ReplayFault>
        requires { has_failed writer.old ≡ false }
        ensures ended { (octets text : List ℕ) → HasReached octets self.old (text ++ self.old.answers.items)
            → EndsWith octets text (W.contents (inner_of writer.old)) (W.contents (inner_of writer.new)) result }
        ensures whole { OnOk result (has_failed writer.new ≡ false) }
        ensures failed { IfErr result (IsEndFault (has_failed writer.new)) }
    {
        let answered = self.answer_kept(alloc, false, faults);
        if self.write(writer).is_err() {
            return Err(ReplayFault::WriteFault);
        }
        match answered {
            Ok(()) => Ok(self.refused),
            Err(AllocError) => Err(ReplayFault::OutOfMemory),
        }
    }
}
