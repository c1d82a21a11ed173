//! The octets of a whole input.

ghost use Rattle.std.specs.Prelude.{◌≡◌, ◌⊎◌, ◌++◌, ℕ, List, false, IfOk, IfErr, OnOk};
ghost use Rattle.gw_io.specs.Tries.{inner_of, has_failed, reads_of, unended_reads};
ghost use Rattle.gw_trace.specs.declared.refusal.TraceRefusal.TheVariants.{ReadFault};
ghost use Rattle.gw_answers.specs.declared.refusal.Refusal.TheVariants.{OutOfMemory};
ghost use Rattle.gw_run.specs.declared.refusal.ForwardRefusal.TheVariants.{Command, Trace};
ghost use Rattle.gw_run.specs.Forwarding.{IsTraceInput, IsTraceFault};

use crate::refusal::ForwardRefusal;
use gw_io::{Pieces, Tried};
use gw_trace::TraceRefusal;
use std::alloc::Global;
use std::io::Read;

/// Reads an input to its end: 96 where a read failed or 16777216 reads did not reach the end, 100 for want of memory.
pub(crate) fn read_whole<R: Read>(
    alloc: Global,
    reader: &mut Tried<R>,
) -> Result<Vec<u8>, ForwardRefusal>
    requires whole { has_failed reader.old ≡ false }
    requires unread { reads_of reader.old ≡ 0 }
    ensures input { IfOk result (λ octets. IsTraceInput (R.remaining (inner_of reader.old)) (R.remaining (inner_of reader.new))
        (has_failed reader.new) octets.items) }
    ensures refused { IfErr result (IsTraceFault (has_failed reader.new) (unended_reads reader.old reader.new)) }
{
    let mut octets = Vec::new(alloc);
    read_rest(&mut octets, reader)?;
    Ok(octets)
}

/// Appends what a reader gives to its end. It refuses as `read_whole` does.
pub(crate) fn read_rest<R: Read>(
    octets: &mut Vec<u8>,
    reader: &mut Tried<R>,
) -> Result<(), ForwardRefusal>
    requires whole { has_failed reader.old ≡ false }
    ensures input { OnOk result ((more : List ℕ) × (octets.new.items ≡ octets.old.items ++ more)
        × IsTraceInput (R.remaining (inner_of reader.old)) (R.remaining (inner_of reader.new)) (has_failed reader.new) more) }
    ensures refused { IfErr result (λ refusal. (refusal ≡ Trace ReadFault) ⊎ (refusal ≡ Command OutOfMemory)) }
    ensures fault { reads_of reader.old ≡ 0
        → IfErr result (IsTraceFault (has_failed reader.new) (unended_reads reader.old reader.new)) }
{
    let mut pieces = Pieces::new();
    'pieces: while pieces
        .read(reader)
        .map_err(|_| ForwardRefusal::Trace(TraceRefusal::ReadFault))?
    {
        octets.extend_from_slice(pieces.piece())?;
    }
    Ok(())
}
