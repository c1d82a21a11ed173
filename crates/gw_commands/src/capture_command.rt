//! The command `judge` on a capture: its frames, as a policy decides them.

ghost use Rattle.std.specs.Prelude.{◌≡◌, false};
ghost use Rattle.gw_io.specs.Tries.{inner_of, has_failed};
ghost use Rattle.gw_judge.specs.Grouped.{no_groups};
ghost use Rattle.gw_answers.specs.declared.requests.Shown.TheVariants.{Counts};
ghost use Rattle.gw_commands.specs.Judgings.{CountsCapture, EndsCapture, capture_line};

use crate::judge_command::{LogPolicy, tell_counts};
use crate::log_counts::TellsParts;
use crate::notes::{note_no_lines, note_refused_records};
use gw_answers::{CountForm, LogQuery, Shown, write_refusal};
use gw_input::{Line, refused};
use gw_io::Tried;
use gw_judge::{Groups, judge_capture};
use gw_trace::TraceRefusal;
use std::alloc::Global;
use std::io::{Read, Write};

/// Judges each frame of a capture, of which these first octets were read before. It has no lines: where they are asked for, a
/// person is told so.
pub(crate) fn judge_frames<D: TellsParts, I: Read, W: Write, F: Write>(
    alloc: Global,
    query: LogQuery,
    policy: LogPolicy<D>,
    groups: Groups,
    first: &[u8],
    input: &mut Tried<I>,
    output: &mut Tried<W>,
    faults: &mut Tried<F>,
) -> u8
    requires input { has_failed input.old ≡ false }
    requires output { has_failed output.old ≡ false }
    requires groups { groups ≡ no_groups query.by }
    ensures { EndsCapture (D.fate_by policy.entry.decider.now query.port)
        (D.counts_by policy.entry.decider.now policy.entry.rule_lines.now) query.by query.shown query.strict first.now
        (I.remaining (inner_of input.old)) (I.remaining (inner_of input.new)) (has_failed input.new)
        (W.contents (inner_of output.old)) (W.contents (inner_of output.new)) (has_failed output.new) result }
{
    match query.shown {
        Shown::Counts(form) => count_frames(
            alloc, query, form, policy, groups, first, input, output, faults,
        ),
        Shown::Passed | Shown::Blocked | Shown::Each => {
            note_no_lines(faults);
            1
        }
    }
}

/// Counts each record of a capture, of which these first octets were read before.
fn count_frames<D: TellsParts, I: Read, W: Write, F: Write>(
    alloc: Global,
    query: LogQuery,
    form: CountForm,
    policy: LogPolicy<D>,
    groups: Groups,
    first: &[u8],
    input: &mut Tried<I>,
    output: &mut Tried<W>,
    faults: &mut Tried<F>,
) -> u8
    requires input { has_failed input.old ≡ false }
    requires output { has_failed output.old ≡ false }
    requires groups { groups ≡ no_groups query.by }
    requires counts { query.shown ≡ Counts form }
    ensures { CountsCapture (D.fate_by policy.entry.decider.now query.port)
        (D.counts_by policy.entry.decider.now policy.entry.rule_lines.now) query.by form query.strict first.now
        (I.remaining (inner_of input.old)) (I.remaining (inner_of input.new)) (has_failed input.new)
        (W.contents (inner_of output.old)) (W.contents (inner_of output.new)) (has_failed output.new) result }
{
    let (decider, port) = (policy.decider, query.port);
    match judge_capture(decider, port, query.strict, groups, first, input) {
        Ok(told) => {
            let first = told.first;
            let tally = told.lines();
            note_refused_records(&tally, first, faults);
            tell_counts(alloc, query, policy, &tally, output, faults)
        }
        Err(fault) => write_refusal(capture_line(fault.why).as_bytes(), &fault, output, faults),
    }
}

/// The line of what ends a capture early: its number, and of a record that is no frame its index and what is wrong with it.
fn capture_line(why: TraceRefusal) -> Line
    ensures { result ≡ capture_line why }
{
    match why {
        TraceRefusal::BadRecord { index, why } => {
            refused(93, &[index as u64, u64::from(why.number())])
        }
        _ => refused(why.number(), &[]),
    }
}
