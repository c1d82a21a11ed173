//! The command `table`: policy tables, their programs and their verdicts.

ghost use Rattle.std.specs.Prelude.{◌≡◌, ◌≤◌, ℕ, Some, None, length, map, IfOk, IfErr};
ghost use Rattle.gw_insn.specs.Table.{raw_of};
ghost use Rattle.gw_commands.specs.Tables.{AnswersTable, RefusesTable, compiled_line};

use crate::notes::{note_dead_rules, note_decision};
use crate::stated::StatedTable;
use gw_answers::{Answer, FrameWord, Refusal, word_frame};
use gw_insn::{Raw, encode, write_listing};
use gw_io::Tried;
use gw_table::{Table, compile};
use gw_verify::Program;
use std::alloc::{AllocError, Global};
use std::io::Write;

/// The listing of a table's program, or its verdict on a frame, which is judged before the table.
pub fn table<F: Write>(
    alloc: Global,
    port: u8,
    frame: Option<FrameWord>,
    why: bool,
    input: &[u8],
    faults: &mut Tried<F>,
) -> Result<Answer, Refusal>
    ensures answered { IfOk result (AnswersTable frame.entry port input.now) }
    ensures refused { IfErr result (RefusesTable frame.entry input.now) }
{
    match frame {
        Some(word) => judged(alloc, port, word, why, input, faults),
        None => compiled(alloc, input, faults),
    }
}

/// The verdict of a table on a frame, whose word is judged before the table.
fn judged<F: Write>(
    alloc: Global,
    port: u8,
    word: FrameWord,
    why: bool,
    input: &[u8],
    faults: &mut Tried<F>,
) -> Result<Answer, Refusal>
    ensures answered { IfOk result (AnswersTable (Some word.entry) port input.now) }
    ensures refused { IfErr result (RefusesTable (Some word.entry) input.now) }
{
    let frame = match word_frame(word, faults) {
        Ok(frame) => frame,
        Err(refusal) => return Err(refusal),
    };
    let stated = match StatedTable::read(alloc, input) {
        Ok(stated) => stated,
        Err(refusal) => return Err(refusal),
    };
    if why {
        note_decision(&stated, &frame, port, faults);
    }
    Ok(Answer::Passes(stated.table.verdict(&frame, port)))
}

/// The listing of a table's program.
fn compiled<F: Write>(alloc: Global, input: &[u8], faults: &mut Tried<F>) -> Result<Answer, Refusal>
    ensures answered { (port : ℕ) → IfOk result (AnswersTable None port input.now) }
    ensures refused { IfErr result (RefusesTable None input.now) }
{
    let stated = match StatedTable::read(alloc, input) {
        Ok(stated) => stated,
        Err(refusal) => return Err(refusal),
    };
    note_dead_rules(&stated, faults);
    match compiled_listing(alloc, &stated.table) {
        Ok(listing) => Ok(Answer::Text(listing)),
        Err(AllocError) => Err(Refusal::OutOfMemory),
    }
}

/// The listing of the program that a table is compiled to, and a line feed.
fn compiled_listing(alloc: Global, table: &Table) -> Result<Vec<u8>, AllocError>
    ensures { IfOk result (λ listing. listing.items ≡ compiled_line table.now) }
{
    let code = raws(alloc, &compile(alloc, table)?)?;
    let mut listing = write_listing(alloc, &code)?;
    listing.push(b'\n')?;
    Ok(listing)
}

/// The fields of a program's instructions.
fn raws(alloc: Global, program: &Program) -> Result<Vec<Raw>, AllocError>
    ensures fields { IfOk result (λ raws. raws.items ≡ map raw_of program.now) }
    ensures few { IfOk result (λ raws. length raws.items ≤ 65535) }
{
    let mut raws = Vec::with_capacity(alloc, program.len())?;
    for insn in program.code() {
        raws.push_reserved(encode(*insn));
    }
    Ok(raws)
}
