//! Whole traces.

ghost use Rattle.std.specs.Prelude.{◌≡◌, ◌≤◌, ℕ, true, false, Err, IfOk, IfErr};
ghost use Rattle.gw_trace.specs.declared.refusal.TraceRefusal.TheVariants.{ReadFault};
ghost use Rattle.gw_io.specs.Pieces.{most_reads};
ghost use Rattle.gw_io.specs.Tries.{inner_of, has_failed, reads_of, unended_reads};
ghost use Rattle.gw_trace.specs.Progress.{IsTraceOf, IsUnread};

use crate::refusal::TraceRefusal;
use crate::trace::Trace;
use gw_frame::Frame;
use gw_io::{Pieces, Tried};
use std::alloc::Global;
use std::io::Read;

/// Reads a trace to its end, and returns the frames of all its records in order. 96 is a failed read, or an end that 16777216
/// reads did not reach. It comes before 90 to 93 and 95. 94 is no memory.
pub fn frames<R: Read>(alloc: Global, reader: &mut Tried<R>) -> Result<Vec<Frame>, TraceRefusal>
    requires whole { has_failed reader.old ≡ false }
    requires unread { reads_of reader.old ≡ 0 }
    ensures frames { IfOk result (λ frames.
        IsTraceOf (R.remaining (inner_of reader.old)) (R.remaining (inner_of reader.new)) frames.items) }
    ensures refused { IfErr result (λ e.
        IsUnread (R.remaining (inner_of reader.old)) (R.remaining (inner_of reader.new))
        (has_failed reader.new) (unended_reads reader.old reader.new) e) }
    ensures failed { has_failed reader.new ≡ true → result ≡ Err ReadFault }
    ensures reads { reads_of reader.new ≤ most_reads }
{
    let mut trace = Trace::new();
    let mut frames = Vec::new(alloc);
    let mut pieces = Pieces::new();
    'pieces: while pieces.read(reader)? {
        if trace.feed_to(&mut frames, pieces.piece()).is_err() {
            return Err(TraceRefusal::OutOfMemory);
        }
    }
    trace.end()?;
    Ok(frames)
}
