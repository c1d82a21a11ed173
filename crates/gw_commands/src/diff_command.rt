//! The command `diff`: what two tables differ in.

ghost use Rattle.std.specs.Prelude.{◌≡◌, ◌⊎◌, false, Err, IfOk, IfErr};
ghost use Rattle.gw_io.specs.Tries.{inner_of, has_failed};
ghost use Rattle.gw_answers.specs.Responses.{Writes, WritesText};
ghost use Rattle.gw_answers.specs.Policies.{RefusesFile};
ghost use Rattle.gw_answers.specs.Texts.{RefusesText};
ghost use Rattle.gw_answers.specs.declared.refusal.Refusal.TheVariants.{OutOfMemory};
ghost use Rattle.gw_commands.specs.Differences.{
  AreTablesOf,
  ComparesNamed,
  ComparesTexts,
  IsDifferencesText,
  RefusesEither,
  WritesOne,
  TellsDifferences,
  found_status,
};
ghost use Rattle.gw_commands.specs.Stated.{IsStated};

use crate::difference_lines::differences_text;
use crate::notes::note_program;
use crate::stated::{StatedChange, StatedTable};
use gw_answers::{Refusal, TableFiles, note_file, read_file, refuse, write_text};
use gw_io::Tried;
use gw_table::Difference;
use std::alloc::{AllocError, Global};
use std::io::Write;
use std::rt::Files;

/// What the files of two tables hold.
#[derive(Drop)]
pub(crate) struct TableTexts {
    pub(crate) old: Vec<u8>,
    pub(crate) new: Vec<u8>,
}

/// Reads the files of two tables, and tells what they differ in: see `diff_texts`. A file that cannot be read is 96, and one of
/// more than 1048576 octets 98, before the tables' own refusals.
pub fn diff_named<R: Files, W: Write, F: Write>(
    rt: &R,
    alloc: Global,
    files: TableFiles,
    output: &mut Tried<W>,
    faults: &mut Tried<F>,
) -> u8
    requires { has_failed output.old ≡ false }
    ensures { ComparesNamed (W.contents (inner_of output.old)) (W.contents (inner_of output.new)) (has_failed output.new)
        result }
{
    match told_texts(rt, alloc, files, faults) {
        Ok(texts) => {
            let (old, new) = (texts.old.as_slice(), texts.new.as_slice());
            diff_texts(alloc, files, old, new, output, faults)
        }
        Err(refusal) => refuse(&refusal, output, faults),
    }
}

/// Tells what the tables of two texts differ in: `alike` with status 0, or with status 1 a line for each pair of parts that
/// decide some frame unlike. Refused are first the old table's text and then the new one's, as by the command `table`; a person
/// is told which file it is. 100 is want of memory for what is told.
pub fn diff_texts<W: Write, F: Write>(
    alloc: Global,
    files: TableFiles,
    old: &[u8],
    new: &[u8],
    output: &mut Tried<W>,
    faults: &mut Tried<F>,
) -> u8
    requires { has_failed output.old ≡ false }
    ensures { ComparesTexts old.now new.now (W.contents (inner_of output.old)) (W.contents (inner_of output.new))
        (has_failed output.new) result }
{
    match told_tables(alloc, files, old, new, faults) {
        Ok(tables) => tell_differences(alloc, &tables.old, &tables.new, output, faults),
        Err(refusal) => refuse(&refusal, output, faults),
    }
}

/// What the files of two tables hold. A person is told which file is refused.
pub(crate) fn told_texts<R: Files, F: Write>(
    rt: &R,
    alloc: Global,
    files: TableFiles,
    faults: &mut Tried<F>,
) -> Result<TableTexts, Refusal>
    ensures { IfErr result RefusesFile }
{
    let old = match told_file(rt, alloc, files.old, faults) {
        Ok(text) => text,
        Err(refusal) => return Err(refusal),
    };
    match told_file(rt, alloc, files.new, faults) {
        Ok(new) => Ok(TableTexts { old, new }),
        Err(refusal) => Err(refusal),
    }
}

/// The tables of two texts, and where their rules stand. A person is told which file is refused.
pub(crate) fn told_tables<F: Write>(
    alloc: Global,
    files: TableFiles,
    old: &[u8],
    new: &[u8],
    faults: &mut Tried<F>,
) -> Result<StatedChange, Refusal>
    ensures tables { IfOk result (AreTablesOf old.now new.now) }
    ensures refused { IfErr result (RefusesEither old.now new.now) }
{
    let old = match told_stated(alloc, files.old, old, faults) {
        Ok(stated) => stated,
        Err(refusal) => return Err(refusal),
    };
    match told_stated(alloc, files.new, new, faults) {
        Ok(new) => Ok(StatedChange { old, new }),
        Err(refusal) => Err(refusal),
    }
}

/// What a file holds. A person is told which file is refused.
pub(crate) fn told_file<R: Files, F: Write>(
    rt: &R,
    alloc: Global,
    file: &str,
    faults: &mut Tried<F>,
) -> Result<Vec<u8>, Refusal>
    ensures { IfErr result RefusesFile }
{
    match read_file(rt, alloc, file, faults) {
        Ok(text) => Ok(text),
        Err(refusal) => {
            note_file(file, &refusal, faults);
            Err(refusal)
        }
    }
}

/// The table of a file's text, and where its rules stand. A person is told which file is refused.
fn told_stated<F: Write>(
    alloc: Global,
    file: &str,
    text: &[u8],
    faults: &mut Tried<F>,
) -> Result<StatedTable, Refusal>
    ensures table { IfOk result (IsStated text.now) }
    ensures refused { IfErr result (RefusesText text.now) }
{
    match StatedTable::read(alloc, text) {
        Ok(stated) => Ok(stated),
        Err(refusal) => {
            note_file(file, &refusal, faults);
            note_program(alloc, text, faults);
            Err(refusal)
        }
    }
}

/// Tells what two tables differ in.
fn tell_differences<W: Write, F: Write>(
    alloc: Global,
    old: &StatedTable,
    new: &StatedTable,
    output: &mut Tried<W>,
    faults: &mut Tried<F>,
) -> u8
    requires { has_failed output.old ≡ false }
    ensures { TellsDifferences old.now new.now (W.contents (inner_of output.old)) (W.contents (inner_of output.new))
        (has_failed output.new) result }
{
    match old.table.differences(alloc, &new.table) {
        Ok(found) => tell_found(alloc, old, new, found.as_slice(), output, faults),
        Err(AllocError) => refuse(&Refusal::OutOfMemory, output, faults),
    }
}

/// Tells the differences that were found, and gives the status.
fn tell_found<W: Write, F: Write>(
    alloc: Global,
    old: &StatedTable,
    new: &StatedTable,
    found: &[Difference],
    output: &mut Tried<W>,
    faults: &mut Tried<F>,
) -> u8
    requires { has_failed output.old ≡ false }
    ensures { WritesOne (IsDifferencesText old.now new.now found.now) (found_status found.now) result
        (W.contents (inner_of output.old)) (W.contents (inner_of output.new)) (has_failed output.new)
        ⊎ Writes (Err OutOfMemory) result (W.contents (inner_of output.old)) (W.contents (inner_of output.new))
        (has_failed output.new) }
{
    let status = if found.is_empty() { 0 } else { 1 };
    match differences_text(alloc, old, new, found) {
        Ok(text) => write_text(text.as_slice(), status, output, faults),
        Err(AllocError) => refuse(&Refusal::OutOfMemory, output, faults),
    }
}
