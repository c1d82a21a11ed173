//! The assembler.

ghost use Rattle.std.specs.Prelude.{◌≡◌, ◌≢◌, ◌≤◌, length, Some, IfOk, IfErr};
ghost use Rattle.gw_text.specs.declared.refusal.AsmRefusal.{AsmRefusal as Refusal};
ghost use Rattle.gw_text.specs.Assembly.{Assembles, first_refusal};

use crate::comments::blanked;
use crate::lines::lines;
use crate::places::places;
use crate::refusal::AsmRefusal;
use crate::source::read;
use crate::targets::{encode, first_bad_target};
use gw_insn::{MAX_INSNS, Raw};
use std::alloc::Global;

/// The code that an assembler text means.
pub fn assemble(alloc: Global, text: &str) -> Result<Vec<Raw>, AsmRefusal>
    ensures assembled { IfOk result (λ code. Assembles text.now code.items) }
    ensures few { IfOk result (λ code. length code.items ≤ 4096) }
    ensures refused { IfErr result (λ e. e ≢ Refusal.OutOfMemory → first_refusal text.now ≡ Some e) }
{
    let text = blanked(alloc, text.as_bytes())?;
    let lines = lines(alloc, &text)?;
    let source = read(alloc, &lines)?;
    let places = places(alloc, &source.labels)?;
    if let Some(refusal) = first_bad_target(&places, &source.instructions) {
        return Err(refusal);
    }
    if source.instructions.len() > MAX_INSNS {
        let line = source.instructions[MAX_INSNS].line;
        return Err(AsmRefusal::TooMany { line });
    }
    Ok(encode(alloc, &places, &source.instructions)?)
}
