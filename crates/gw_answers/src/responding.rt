//! How a command ends: its answer or its refusal is written, and tells the status.

ghost use Rattle.std.specs.Prelude.{◌≡◌, false};
ghost use Rattle.gw_io.specs.Tries.{inner_of, has_failed};
ghost use Rattle.gw_answers.specs.Responses.{Writes, WritesFound, WritesText};
ghost use Rattle.gw_answers.specs.Refusals.{refusal_text};

use crate::answer::Answer;
use crate::notes::note_file;
use crate::refusal::Refusal;
use gw_io::{Tried, WriteFault, write_all};
use std::fmt::Display;
use std::io::Write;

/// Writes what a command found, and gives its status: 0 for an answer, 1 for a refusal or where a write failed. What is
/// wrong is told to a person on stderr.
pub fn respond<W: Write, F: Write>(
    found: &Result<Answer, Refusal>,
    output: &mut Tried<W>,
    faults: &mut Tried<F>,
) -> u8
    requires { has_failed output.old ≡ false }
    ensures { Writes found.now result (W.contents (inner_of output.old)) (W.contents (inner_of output.new))
        (has_failed output.new) }
{
    respond_telling(found, false, output, faults)
}

/// The same, with the status 3 for a frame that is blocked, where the status is to tell it.
pub fn respond_telling<W: Write, F: Write>(
    found: &Result<Answer, Refusal>,
    tells: bool,
    output: &mut Tried<W>,
    faults: &mut Tried<F>,
) -> u8
    requires { has_failed output.old ≡ false }
    ensures { WritesFound tells found.now result (W.contents (inner_of output.old)) (W.contents (inner_of output.new))
        (has_failed output.new) }
{
    let answer = match found {
        Ok(answer) => answer,
        Err(refusal) => return refuse(refusal, output, faults),
    };
    match answer.write(output) {
        Ok(()) => answer.status(tells),
        Err(WriteFault) => unwritten(faults),
    }
}

/// Writes the refusal of a file, tells a person of it and which file it is, and gives the status 1.
pub fn refuse_file<W: Write, F: Write>(
    file: &str,
    refusal: &Refusal,
    output: &mut Tried<W>,
    faults: &mut Tried<F>,
) -> u8
    requires { has_failed output.old ≡ false }
    ensures { WritesText (refusal_text refusal.now) 1 result
        (W.contents (inner_of output.old)) (W.contents (inner_of output.new)) (has_failed output.new) }
{
    note_file(file, refusal, faults);
    refuse(refusal, output, faults)
}

/// Writes a refusal, tells a person of it, and gives the status 1.
pub fn refuse<W: Write, F: Write>(
    refusal: &Refusal,
    output: &mut Tried<W>,
    faults: &mut Tried<F>,
) -> u8
    requires { has_failed output.old ≡ false }
    ensures { WritesText (refusal_text refusal.now) 1 result
        (W.contents (inner_of output.old)) (W.contents (inner_of output.new)) (has_failed output.new) }
{
    match refusal {
        Refusal::Explained { lines, .. } => write_refusal(
            lines.as_slice(),
            refusal,
            output,
            faults,
        ),
        _ => write_refusal(refusal.line().as_bytes(), refusal, output, faults),
    }
}

/// Writes the text of a refusal, tells a person of it, and gives the status 1.
pub fn write_refusal<D: Display, W: Write, F: Write>(
    text: &[u8],
    refusal: &D,
    output: &mut Tried<W>,
    faults: &mut Tried<F>,
) -> u8
    requires { has_failed output.old ≡ false }
    ensures { WritesText text.now 1 result (W.contents (inner_of output.old)) (W.contents (inner_of output.new))
        (has_failed output.new) }
{
    let written = write_all(output, text);
    let _ = writeln!(faults, "gw: {refusal}");
    match written {
        Ok(()) => 1,
        Err(WriteFault) => unwritten(faults),
    }
}

/// Writes a text, and gives the status `done`, or 1 where a write failed.
pub fn write_text<W: Write, F: Write>(
    text: &[u8],
    done: u8,
    output: &mut Tried<W>,
    faults: &mut Tried<F>,
) -> u8
    requires { has_failed output.old ≡ false }
    ensures { WritesText text.now done result (W.contents (inner_of output.old)) (W.contents (inner_of output.new))
        (has_failed output.new) }
{
    match write_all(output, text) {
        Ok(()) => done,
        Err(WriteFault) => unwritten(faults),
    }
}

/// Tells a person that a write failed, and gives the status 1.
fn unwritten<F: Write>(faults: &mut Tried<F>) -> u8
    ensures { result ≡ 1 }
{
    let _ = writeln!(faults, "gw: the output could not be written");
    1
}
