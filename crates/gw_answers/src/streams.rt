//! Whole inputs.

ghost use Rattle.std.specs.Prelude.{◌≡◌, false, IfOk, IfErr};
ghost use Rattle.gw_io.specs.Tries.{inner_of, has_failed};
ghost use Rattle.gw_answers.specs.Inputs.{IsInput, IsInputRefusal};

use crate::refusal::Refusal;
use gw_input::MAX_INPUT;
use gw_io::{Pieces, Tried};
use std::alloc::Global;
use std::io::Read;

/// Reads to the end: 96 where a read failed, 98 for more than 1048576 octets, 100 for want of memory.
pub fn read_input<R: Read>(alloc: Global, reader: &mut Tried<R>) -> Result<Vec<u8>, Refusal>
    requires { has_failed reader.old ≡ false }
    ensures input { IfOk result (λ octets. IsInput (R.remaining (inner_of reader.old)) (R.remaining (inner_of reader.new))
        (has_failed reader.new) octets.items) }
    ensures refused { IfErr result (IsInputRefusal (R.remaining (inner_of reader.old)) (R.remaining (inner_of reader.new))
        (has_failed reader.new)) }
{
    let mut input = Vec::new(alloc);
    let mut pieces = Pieces::new();
    'pieces: while input.len() <= MAX_INPUT {
        if !pieces.read(reader)? {
            return Ok(input);
        }
        input.extend_from_slice(pieces.piece())?;
    }
    Err(Refusal::TooMuchInput)
}
