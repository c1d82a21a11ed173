//! The frame that a word of the command line says.

ghost use Rattle.std.specs.Prelude.{IfOk, IfErr};
ghost use Rattle.gw_answers.specs.Frames.{MeansFrame, RefusesFrame};

use crate::refusal::Refusal;
use crate::texts::noted_record;
use gw_frame::Frame;
use gw_io::Tried;
use gw_log::read_frame;
use std::io::Write;

/// A word of the command line that says a frame.
#[derive(Clone, Copy, PartialEq, Eq, Debug)]
pub enum FrameWord<'a> {
    /// A record in hexadecimal digits.
    Record(&'a str),
    /// candump's form of a frame.
    Candump(&'a str),
}

/// The frame that a word says: 1 to 4 and 97 refuse a record, and 101, 103 and 106 to 112 a frame in candump's form.
pub fn word_frame<F: Write>(word: FrameWord, faults: &mut Tried<F>) -> Result<Frame, Refusal>
    ensures means { IfOk result (MeansFrame word.entry) }
    ensures refused { IfErr result (RefusesFrame word.entry) }
{
    match word {
        FrameWord::Record(text) => noted_record(text.as_bytes(), faults),
        FrameWord::Candump(text) => match read_frame(text.as_bytes()) {
            Ok(frame) => Ok(frame),
            Err(why) => Err(Refusal::Candump(why)),
        },
    }
}
