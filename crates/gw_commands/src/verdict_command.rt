//! The command `verdict`: a program of a listing, run on a record.

ghost use Rattle.std.specs.Prelude.{◌≡◌, IfOk, IfErr};
ghost use Rattle.gw_commands.specs.Verdicts.{AnswersVerdict, RefusesVerdict, IsJudged, RefusesJudged, listing_text};

use gw_answers::{Answer, FrameWord, Refusal, noted_record, program, word_frame};
use gw_frame::Frame;
use gw_input::first_line;
use gw_io::Tried;
use gw_machine::run;
use std::alloc::Global;
use std::io::Write;

/// The verdict of a listing's program on a record; the listing stands behind the record's line where no word says the record.
pub fn verdict<F: Write>(
    alloc: Global,
    port: u8,
    word: Option<FrameWord>,
    input: &[u8],
    faults: &mut Tried<F>,
) -> Result<Answer, Refusal>
    ensures answered { IfOk result (AnswersVerdict word.entry port input.now) }
    ensures refused { IfErr result (RefusesVerdict word.entry input.now) }
{
    let frame = match judged(word, input, faults) {
        Ok(frame) => frame,
        Err(refusal) => return Err(refusal),
    };
    match program(alloc, listing(word, input)) {
        Ok(program) => Ok(Answer::Verdict(run(&program, &frame, port))),
        Err(refusal) => Err(refusal),
    }
}

/// The record that is judged: that of a word of the command line, or else that of the input's first line.
fn judged<F: Write>(
    word: Option<FrameWord>,
    input: &[u8],
    faults: &mut Tried<F>,
) -> Result<Frame, Refusal>
    ensures judged { IfOk result (IsJudged word.entry input.now) }
    ensures refused { IfErr result (RefusesJudged word.entry input.now) }
{
    match word {
        Some(word) => word_frame(word, faults),
        None => noted_record(first_line(input).0, faults),
    }
}

/// The listing, which is the whole input or what stands behind its first line.
fn listing<'a>(word: Option<FrameWord>, input: &'a [u8]) -> &'a [u8]
    ensures { result.now ≡ listing_text word.entry input.now }
{
    if word.is_some() {
        return input;
    }
    match first_line(input).1 {
        Some(behind) => behind,
        None => &[],
    }
}
