//! What commands write where they refuse nothing.

ghost use Rattle.std.specs.Prelude.{◌≡◌, OnOk, OnErr, false, true};
ghost use Rattle.std.specs.Io.KnownBytes.{Appends};
ghost use Rattle.gw_io.specs.Tries.{inner_of, has_failed};
ghost use Rattle.gw_answers.specs.Answers.{answer_text, verdict_line, accepted_line};
ghost use Rattle.gw_io.specs.Written.{WritesPart};

use gw_input::Line;
use gw_io::{Tried, WriteFault, write_all};
use std::io::Write;

/// What a command answers.
#[derive(Drop)]
pub enum Answer {
    /// A program's answer on a record.
    Verdict(u32),
    /// How many instructions an accepted program has.
    Accepted(usize),
    /// Whether a table passes a record.
    Passes(bool),
    /// A text of its own.
    Text(Vec<u8>),
}

impl Answer {
    ghost use Rattle.gw_answers.specs.Answers.{answer_status};

    /// The exit status: 3 for a frame that is blocked, where the status is to tell it, and else 0.
    pub(crate) fn status(&self, tells: bool) -> u8
        ensures { result ≡ answer_status tells self.now }
    {
        if !tells {
            return 0;
        }
        match self {
            Answer::Verdict(0) | Answer::Passes(false) => 3,
            _ => 0,
        }
    }

    /// Writes the answer.
    pub(crate) fn write<W: Write>(&self, output: &mut Tried<W>) -> Result<(), WriteFault>
        requires { has_failed output.old ≡ false }
        ensures written { OnOk result (Appends (W.contents (inner_of output.old)) (W.contents (inner_of output.new))
            (answer_text self.now)) }
        ensures part { OnErr result (WritesPart (W.contents (inner_of output.old)) (W.contents (inner_of output.new))
            (answer_text self.now)) }
        ensures whole { OnOk result (has_failed output.new ≡ false) }
        ensures failed { OnErr result (has_failed output.new ≡ true) }
    {
        match self {
            Answer::Verdict(answer) => write_all(output, verdict_line(*answer).as_bytes()),
            Answer::Accepted(count) => write_all(output, accepted_line(*count).as_bytes()),
            Answer::Passes(true) => write_all(output, b"pass\n"),
            Answer::Passes(false) => write_all(output, b"block\n"),
            Answer::Text(octets) => write_all(output, octets.as_slice()),
        }
    }
}

/// The line of a program's answer: `block` for 0, else `pass` and the answer.
fn verdict_line(answer: u32) -> Line
    ensures { result ≡ verdict_line answer }
{
    if answer == 0 {
        Line::new().text("block\n")
    } else {
        Line::new()
            .text("pass ")
            .digits(u64::from(answer))
            .text("\n")
    }
}

/// The line of an accepted program with so many instructions.
fn accepted_line(count: usize) -> Line
    ensures { result ≡ accepted_line count }
{
    Line::new()
        .text("accepted ")
        .digits(count as u64)
        .text("\n")
}
