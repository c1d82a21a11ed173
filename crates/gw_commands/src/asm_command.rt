//! The command `asm`: the listing of the code that an assembler text means.

ghost use Rattle.std.specs.Prelude.{IfOk, IfErr};
ghost use Rattle.gw_commands.specs.Assemblies.{AnswersAsm, RefusesAsm};

use gw_answers::{Answer, Refusal};
use gw_insn::write_listing;
use gw_text::assemble;
use std::alloc::Global;

/// The listing of the code that a text means.
pub fn asm(alloc: Global, octets: Vec<u8>) -> Result<Answer, Refusal>
    ensures answered { IfOk result (AnswersAsm octets.items) }
    ensures refused { IfErr result (RefusesAsm octets.items) }
{
    let code = match str::from_utf8(octets.as_slice()) {
        Ok(text) => assemble(alloc, text),
        Err(_) => return Err(Refusal::NotUtf8),
    };
    let code = match code {
        Ok(code) => code,
        Err(why) => return Err(Refusal::Assembler { why, text: octets }),
    };
    let Ok(mut listing) = write_listing(alloc, &code) else {
        return Err(Refusal::OutOfMemory);
    };
    match listing.push(b'\n') {
        Ok(()) => Ok(Answer::Text(listing)),
        Err(_) => Err(Refusal::OutOfMemory),
    }
}
