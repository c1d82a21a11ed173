//! What a text means, or why it is refused: a record, the program of a listing, and the table of a table's text.

ghost use Rattle.std.specs.Prelude.{◌≡◌, IfOk, IfErr};
ghost use Rattle.gw_answers.specs.Frames.{RefusesRecord};
ghost use Rattle.gw_answers.specs.Texts.{RefusesText, IsProgramRefusal};
ghost use Rattle.gw_input.specs.Programs.{NamesProgram};
ghost use Rattle.gw_input.specs.Records.{NamesRecord};
ghost use Rattle.gw_input.specs.Tables.{IsTable};

use crate::notes::note_standard_identifier;
use crate::refusal::Refusal;
use gw_frame::Frame;
use gw_input::{ProgramFault, TableFault, record, refused_place};
use gw_io::Tried;
use gw_table::Table;
use gw_verify::Program;
use std::alloc::Global;
use std::io::Write;

/// The record that a text names. A person is told where it may be meant as another frame.
pub fn noted_record<F: Write>(text: &[u8], faults: &mut Tried<F>) -> Result<Frame, Refusal>
    ensures named { IfOk result (NamesRecord text.now) }
    ensures refused { IfErr result (RefusesRecord text.now) }
{
    match record(text) {
        Ok(frame) => {
            note_standard_identifier(&frame, faults);
            Ok(frame)
        }
        Err(fault) => Err(Refusal::Record(fault)),
    }
}

/// The accepted program of a listing.
pub fn program(alloc: Global, listing: &[u8]) -> Result<Program, Refusal>
    ensures named { IfOk result (λ program. NamesProgram listing.now program) }
    ensures refused { IfErr result (IsProgramRefusal listing.now) }
{
    match gw_input::program(alloc, listing) {
        Ok(program) => Ok(program),
        Err(ProgramFault::Listing(why)) => Err(Refusal::Listing(why)),
        Err(ProgramFault::Code(refused)) => Err(Refusal::Program {
            path: refused.explain(alloc).unwrap_or(None),
            refused,
        }),
    }
}

/// The table of a text.
pub fn read_table(alloc: Global, text: &[u8]) -> Result<Table, Refusal>
    ensures table { IfOk result (IsTable text.now) }
    ensures refused { IfErr result (RefusesText text.now) }
{
    match gw_input::table(alloc, text) {
        Ok(table) => Ok(table),
        Err(TableFault::NotUtf8) => Err(Refusal::NotUtf8),
        Err(TableFault::Text(why)) => {
            let place = refused_place(text, &why);
            Err(Refusal::Table { why, place })
        }
        Err(TableFault::OutOfMemory) => Err(Refusal::OutOfMemory),
    }
}
