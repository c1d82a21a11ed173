//! What leaves at the interfaces of a gateway, from a reader to a writer.

ghost use Rattle.std.specs.Prelude.{◌≡◌, ◌≤◌, ℕ, List, Option, length, false, IfErr, OnOk};
ghost use Rattle.std.specs.Io.KnownBytes.{Consumes};
ghost use Rattle.gw_io.specs.Tries.{inner_of, has_failed};
ghost use Rattle.gw_policy.specs.Batches.{Pair, StandsAfter};
ghost use Rattle.gw_judge.specs.Egress.{WritesEgress, WritesPartOfEgress};

use crate::egress::Egress;
use crate::fault::JudgeFault;
use crate::gateway::Gateway;
use crate::head::Head;
use crate::line_notes::LineNotes;
use crate::parts::Parts;
use gw_io::Tried;
use std::io::{Read, Write};

/// Writes what leaves of a log at the interfaces of a gateway: of each frame, in the log's order, a line for each interface of
/// the ports to which it is allowed, with its time and that interface. A frame is taken at the port that is named for its
/// interface, judged by the claims that were heard there before it, and heard there then. `first` are the octets of the log that
/// were read before. `head` is given the first octets.
///
/// All lines that a read ended are judged and what leaves of them is written before the next read, in the memory of one line and
/// of the claims of 16 ports, and 65536 octets more. Where a fault ends it, a beginning of what leaves is written.
pub fn write_egress<N: LineNotes, R: Read, W: Write>(
    gateway: &Gateway,
    first: &[u8],
    notes: &mut N,
    head: &mut Head,
    reader: &mut Tried<R>,
    writer: &mut Tried<W>,
) -> Result<(), JudgeFault>
    requires reader { has_failed reader.old ≡ false }
    requires writer { has_failed writer.old ≡ false }
    requires first { length first.now ≤ 65536 }
    ensures written { (batches : List (List Pair)) (before : Option (List ℕ)) → StandsAfter gateway.now.policies.now batches
        → Consumes before (R.remaining (inner_of reader.old)) first.now
        → OnOk result (WritesEgress gateway.now.names.now batches before (R.remaining (inner_of reader.new))
        (W.contents (inner_of writer.old)) (W.contents (inner_of writer.new))) }
    ensures part { (batches : List (List Pair)) (before : Option (List ℕ)) → StandsAfter gateway.now.policies.now batches
        → Consumes before (R.remaining (inner_of reader.old)) first.now
        → IfErr result (WritesPartOfEgress gateway.now.names.now batches before (R.remaining (inner_of reader.new))
        (W.contents (inner_of writer.old)) (W.contents (inner_of writer.new))
        (has_failed reader.new) (has_failed writer.new)) }
    ensures read { OnOk result (has_failed reader.new ≡ false) }
    ensures whole { OnOk result (has_failed writer.new ≡ false) }
{
    let mut egress = Egress::new();
    let mut parts = Parts::behind(first);
    let mut left = u64::MAX;
    'parts: while left > 0 {
        left -= 1;
        if !parts.next(reader)? {
            return egress.end(gateway, notes, writer);
        }
        let part = parts.part();
        head.see(part);
        egress.take(gateway, part, notes, writer)?;
        egress.write_out(parts.is_used_up(), writer)?;
    }
    Err(JudgeFault::ReadFault)
}
