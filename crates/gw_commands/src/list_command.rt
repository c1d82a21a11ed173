//! The command `list`: the text of a listing's accepted program.

ghost use Rattle.std.specs.Prelude.{IfOk, IfErr};
ghost use Rattle.gw_commands.specs.Assemblies.{AnswersList, RefusesList};

use gw_answers::{Answer, Refusal, program};
use gw_text::disassemble;
use std::alloc::{AllocError, Global};

/// The text of the accepted program of a listing.
pub fn list(alloc: Global, listing: &[u8]) -> Result<Answer, Refusal>
    ensures answered { IfOk result (AnswersList listing.now) }
    ensures refused { IfErr result (RefusesList listing.now) }
{
    let program = match program(alloc, listing) {
        Ok(program) => program,
        Err(refusal) => return Err(refusal),
    };
    match disassemble(alloc, &program) {
        Ok(text) => Ok(Answer::Text(text.into_bytes())),
        Err(AllocError) => Err(Refusal::OutOfMemory),
    }
}
