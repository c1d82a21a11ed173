//! Whole logs, from a reader to a writer.

ghost use Rattle.std.specs.Prelude.{◌≡◌, ◌≤◌, ℕ, List, Option, length, false, IfOk, IfErr, OnOk};
ghost use Rattle.std.specs.Io.KnownBytes.{Consumes};
ghost use Rattle.gw_io.specs.Tries.{inner_of, has_failed};
ghost use Rattle.gw_judge.specs.Fates.{fate_of};
ghost use Rattle.gw_judge.specs.Grouped.{no_groups};
ghost use Rattle.gw_judge.specs.Judged.{IsJudged, IsPartlyJudged};

use crate::decider::Decider;
use crate::fault::JudgeFault;
use crate::groups::Groups;
use crate::head::Head;
use crate::judging::{Asked, Judging};
use crate::parts::Parts;
use crate::report::Report;
use crate::tally::Tally;
use gw_io::Tried;
use std::io::{Read, Write};

/// Writes the lines of a log that are asked for, unchanged to the octet and in order, each behind its front, and returns what
/// is told of all lines. Each frame is counted in its group too. `head` is given the
/// first octets.
///
/// All lines that a read ended are judged and written before the next read, in the memory of one line and 65536 octets more.
/// Where a fault ends it, a beginning of what is asked for is written; where a refused line does, all up to that line.
pub fn judge<D: Decider, P: Report, R: Read, W: Write>(
    asked: &Asked<D, P>,
    groups: Groups,
    head: &mut Head,
    reader: &mut Tried<R>,
    writer: &mut Tried<W>,
) -> Result<Tally, JudgeFault>
    requires reader { has_failed reader.old ≡ false }
    requires writer { has_failed writer.old ≡ false }
    requires groups { groups ≡ no_groups groups.grouping }
    ensures judged { IfOk result (IsJudged (fate_of (D.fate_by asked.now.decider.now asked.now.from))
        (P.front_of asked.now.report.now) asked.now.strict
        (R.remaining (inner_of reader.old)) (R.remaining (inner_of reader.new))
        (W.contents (inner_of writer.old)) (W.contents (inner_of writer.new))) }
    ensures part { IfErr result (IsPartlyJudged (fate_of (D.fate_by asked.now.decider.now asked.now.from))
        (P.front_of asked.now.report.now) asked.now.strict
        (R.remaining (inner_of reader.old)) (R.remaining (inner_of reader.new))
        (W.contents (inner_of writer.old)) (W.contents (inner_of writer.new))
        (has_failed reader.new) (has_failed writer.new)) }
    ensures read { OnOk result (has_failed reader.new ≡ false) }
    ensures grouping { IfOk result (λ tally. tally.groups.grouping ≡ groups.grouping) }
{
    judge_opened(asked, groups, &[], head, reader, writer)
}

/// The same of a log of which these first octets were read before.
pub fn judge_opened<D: Decider, P: Report, R: Read, W: Write>(
    asked: &Asked<D, P>,
    groups: Groups,
    first: &[u8],
    head: &mut Head,
    reader: &mut Tried<R>,
    writer: &mut Tried<W>,
) -> Result<Tally, JudgeFault>
    requires reader { has_failed reader.old ≡ false }
    requires writer { has_failed writer.old ≡ false }
    requires groups { groups ≡ no_groups groups.grouping }
    requires first { length first.now ≤ 65536 }
    ensures judged { (before : Option (List ℕ)) → Consumes before (R.remaining (inner_of reader.old)) first.now
        → IfOk result (IsJudged (fate_of (D.fate_by asked.now.decider.now asked.now.from))
        (P.front_of asked.now.report.now) asked.now.strict
        before (R.remaining (inner_of reader.new))
        (W.contents (inner_of writer.old)) (W.contents (inner_of writer.new))) }
    ensures part { (before : Option (List ℕ)) → Consumes before (R.remaining (inner_of reader.old)) first.now
        → IfErr result (IsPartlyJudged (fate_of (D.fate_by asked.now.decider.now asked.now.from))
        (P.front_of asked.now.report.now) asked.now.strict
        before (R.remaining (inner_of reader.new))
        (W.contents (inner_of writer.old)) (W.contents (inner_of writer.new))
        (has_failed reader.new) (has_failed writer.new)) }
    ensures read { OnOk result (has_failed reader.new ≡ false) }
    ensures grouping { IfOk result (λ tally. tally.groups.grouping ≡ groups.grouping) }
{
    let mut judging = Judging::new(groups);
    let mut parts = Parts::behind(first);
    let mut left = u64::MAX;
    'parts: while left > 0 {
        left -= 1;
        if !parts.next(reader)? {
            return judging.end(asked, writer);
        }
        let part = parts.part();
        head.see(part);
        judging.take(asked, part, writer)?;
        judging.write_out(asked, parts.is_used_up(), writer)?;
    }
    Err(JudgeFault::ReadFault)
}
