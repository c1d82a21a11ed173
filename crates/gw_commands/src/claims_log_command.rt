//! The command `claims` on a log: who holds which address at each interface.

ghost use Rattle.std.specs.Prelude.{◌≡◌, false, IfOk, IfErr};
ghost use Rattle.gw_io.specs.Tries.{inner_of, has_failed};
ghost use Rattle.gw_commands.specs.LogClaims.{AnswersLog, RefusesLog, TellsHolders, TellsHoldersNamed};

use crate::notes::{note_no_log, note_refused_lines};
use crate::segments::Segments;
use gw_answers::{Answer, Refusal, note_file, note_unread, refuse_file, respond};
use gw_io::Tried;
use gw_judge::{Head, ListenFault, listen};
use std::alloc::{AllocError, Global};
use std::fs;
use std::io::{Read, Write};
use std::rt::Files;

/// Hears the frames of a log, and writes for each interface, in the order of its first frame, who holds which address there. A
/// person is told of the lines that say no classic frame. 96 is a read that failed, and 100 want of memory.
pub fn claims_log<I: Read, W: Write, F: Write>(
    alloc: Global,
    input: &mut Tried<I>,
    output: &mut Tried<W>,
    faults: &mut Tried<F>,
) -> u8
    requires input { has_failed input.old ≡ false }
    requires output { has_failed output.old ≡ false }
    ensures { TellsHolders (I.remaining (inner_of input.old)) (I.remaining (inner_of input.new)) (has_failed input.new)
        (W.contents (inner_of output.old)) (W.contents (inner_of output.new)) (has_failed output.new) result }
{
    let found = heard(alloc, input, faults);
    respond(&found, output, faults)
}

/// The same of what a file holds: 96 where it cannot be opened. A person is told which file is refused.
pub fn claims_log_named<R: Files, W: Write, F: Write>(
    rt: &R,
    alloc: Global,
    file: &str,
    output: &mut Tried<W>,
    faults: &mut Tried<F>,
) -> u8
    requires { has_failed output.old ≡ false }
    ensures { TellsHoldersNamed (W.contents (inner_of output.old)) (W.contents (inner_of output.new))
        (has_failed output.new) result }
{
    match fs::open(rt, file) {
        Ok(opened) => {
            let mut reader = Tried::new(opened);
            let found = heard_named(alloc, file, &mut reader, faults);
            respond(&found, output, faults)
        }
        Err(why) => {
            note_unread(file, &why, faults);
            refuse_file(file, &Refusal::ReadFault, output, faults)
        }
    }
}

/// The lines of the holders of a file's log, or its refusal. A person is told which file is refused.
fn heard_named<I: Read, F: Write>(
    alloc: Global,
    file: &str,
    input: &mut Tried<I>,
    faults: &mut Tried<F>,
) -> Result<Answer, Refusal>
    requires { has_failed input.old ≡ false }
    ensures answered { IfOk result (AnswersLog (I.remaining (inner_of input.old)) (I.remaining (inner_of input.new))
        (has_failed input.new)) }
    ensures refused { IfErr result (RefusesLog (I.remaining (inner_of input.old)) (I.remaining (inner_of input.new))
        (has_failed input.new)) }
{
    let found = heard(alloc, input, faults);
    if let Some(why) = input.error() {
        note_unread(file, &why, faults);
    }
    if let Err(refusal) = &found {
        note_file(file, refusal, faults);
    }
    found
}

/// The lines of the holders of a log, or its refusal.
fn heard<I: Read, F: Write>(
    alloc: Global,
    input: &mut Tried<I>,
    faults: &mut Tried<F>,
) -> Result<Answer, Refusal>
    requires { has_failed input.old ≡ false }
    ensures answered { IfOk result (AnswersLog (I.remaining (inner_of input.old)) (I.remaining (inner_of input.new))
        (has_failed input.new)) }
    ensures refused { IfErr result (RefusesLog (I.remaining (inner_of input.old)) (I.remaining (inner_of input.new))
        (has_failed input.new)) }
{
    let mut head = Head::new();
    let mut segments = Segments::new(alloc);
    let heard = listen(alloc, &mut segments, &mut head, input);
    note_no_log(&head, faults);
    match heard {
        Ok(tally) => note_refused_lines(&tally, faults),
        Err(ListenFault::ReadFault) => return Err(Refusal::ReadFault),
        Err(ListenFault::OutOfMemory) => return Err(Refusal::OutOfMemory),
    }
    match segments.lines(alloc) {
        Ok(lines) => Ok(Answer::Text(lines)),
        Err(AllocError) => Err(Refusal::OutOfMemory),
    }
}
