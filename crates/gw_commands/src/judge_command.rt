//! The command `judge`: the lines of a log or the frames of a capture, as a policy decides them.

ghost use Rattle.std.specs.Prelude.{◌≡◌, ◌≤◌, ℕ, List, Option, length, true, false};
ghost use Rattle.std.specs.Io.KnownBytes.{Consumes};
ghost use Rattle.gw_io.specs.Tries.{inner_of, has_failed};
ghost use Rattle.gw_judge.specs.Fates.{fate_of, table_fate};
ghost use Rattle.gw_judge.specs.Grouped.{no_groups};
ghost use Rattle.gw_answers.specs.Openings.{TellsEnd, fault_line};
ghost use Rattle.gw_commands.specs.ToldCounts.{table_told, told_counts};
ghost use Rattle.gw_commands.specs.Judgings.{EndsInput, EndsLog, JudgesGroups, JudgesLog, JudgesNamed, TellsCounts, wanted_of};

use crate::capture_command::judge_frames;
use crate::log_counts::{TellsParts, told_text};
use crate::notes::{note_no_log, note_port_form, note_refused_lines, note_unasked_port};
use crate::stated::StatedTable;
use gw_answers::{
    LogQuery, PolicyKind, Refusal, Shown, program, read_file, refuse, refuse_file, write_refusal,
    write_text,
};
use gw_input::{Line, refused};
use gw_io::{ReadFault, Tried};
use gw_judge::{Asked, FirstOctets, Groups, Head, JudgeFault, Named, Tally, Wanted, judge_opened};
use gw_policy::Policy;
use gw_table::IndexedTable;
use std::alloc::{AllocError, Global};
use std::io::{Read, Write};
use std::rt::Files;

/// What judges a log.
#[derive(Clone, Copy)]
pub(crate) struct LogPolicy<'a, D> {
    pub(crate) decider: &'a D,
    /// The lines at which the rules of a table stand, where they are known.
    pub(crate) rule_lines: &'a [usize],
}

/// Reads a policy's file, and judges a log by it: see `judge_log`. A file that cannot be read is 96, and one of more than 1048576
/// octets 98; a person is told which.
pub fn judge_named<R: Files, I: Read, W: Write, F: Write>(
    rt: &R,
    alloc: Global,
    query: LogQuery,
    file: &str,
    input: &mut Tried<I>,
    output: &mut Tried<W>,
    faults: &mut Tried<F>,
) -> u8
    requires input { has_failed input.old ≡ false }
    requires output { has_failed output.old ≡ false }
    ensures { JudgesNamed query (I.remaining (inner_of input.old)) (I.remaining (inner_of input.new)) (has_failed input.new)
        (W.contents (inner_of output.old)) (W.contents (inner_of output.new)) (has_failed output.new) result }
{
    match read_file(rt, alloc, file, faults) {
        Ok(text) => {
            let text = text.as_slice();
            judge_log(alloc, query, file, text, input, output, faults)
        }
        Err(unread) => {
            note_port_form(file, faults);
            refuse_file(file, &unread, output, faults)
        }
    }
}

/// Judges each line of a log by the policy of a file's text, and writes the lines that are asked for, or the counts of all. An
/// input that begins with a magic number of classic pcap is a capture: each of its frames is judged, and it has counts alone.
/// Refused are the policy's text as by the commands `table` and `check`, and a person is told which file it is; 96, a read that
/// failed; strictly 101 to 113, the first line that says no classic frame, and 93, the first record of a capture that is none;
/// and 91, 92, 93 and 95, a capture whose header is wrong or whose last record is cut. Where lines are asked for, nothing else is
/// written, and a person is told of the rest.
pub fn judge_log<I: Read, W: Write, F: Write>(
    alloc: Global,
    query: LogQuery,
    file: &str,
    text: &[u8],
    input: &mut Tried<I>,
    output: &mut Tried<W>,
    faults: &mut Tried<F>,
) -> u8
    requires input { has_failed input.old ≡ false }
    requires output { has_failed output.old ≡ false }
    ensures { JudgesLog query text.now (I.remaining (inner_of input.old)) (I.remaining (inner_of input.new))
        (has_failed input.new)
        (W.contents (inner_of output.old)) (W.contents (inner_of output.new)) (has_failed output.new) result }
{
    match query.kind {
        PolicyKind::Table => match StatedTable::read(alloc, text) {
            Ok(stated) => judge_table(alloc, query, stated, input, output, faults),
            Err(refusal) => refuse_file(file, &refusal, output, faults),
        },
        PolicyKind::Listing => match program(alloc, text) {
            Ok(program) => {
                let policy = Policy::from_program(program);
                judge_by(alloc, query, &policy, &[], input, output, faults)
            }
            Err(refusal) => refuse_file(file, &refusal, output, faults),
        },
    }
}

/// Judges each frame of an input by a table: by its index, unless memory for that is wanting.
fn judge_table<I: Read, W: Write, F: Write>(
    alloc: Global,
    query: LogQuery,
    stated: StatedTable,
    input: &mut Tried<I>,
    output: &mut Tried<W>,
    faults: &mut Tried<F>,
) -> u8
    requires input { has_failed input.old ≡ false }
    requires output { has_failed output.old ≡ false }
    ensures { JudgesGroups (table_fate stated.table query.port) stated.lines.items
        (table_told stated.table stated.lines.items) query.by query.shown query.strict
        (I.remaining (inner_of input.old)) (I.remaining (inner_of input.new)) (has_failed input.new)
        (W.contents (inner_of output.old)) (W.contents (inner_of output.new)) (has_failed output.new) result }
{
    let StatedTable { table, lines } = stated;
    let rule_lines = lines.as_slice();
    note_unasked_port(table.rules(), query.port, faults);
    match IndexedTable::new(alloc, table) {
        Ok(indexed) => judge_by(alloc, query, &indexed, rule_lines, input, output, faults),
        Err(table) => judge_by(alloc, query, &table, rule_lines, input, output, faults),
    }
}

/// Judges each frame of an input by what decides. `rule_lines` are the lines at which the rules of a table stand, where they are
/// known. 100 is want of memory for groups that are asked for, before the input is read.
fn judge_by<D: TellsParts, I: Read, W: Write, F: Write>(
    alloc: Global,
    query: LogQuery,
    decider: &D,
    rule_lines: &[usize],
    input: &mut Tried<I>,
    output: &mut Tried<W>,
    faults: &mut Tried<F>,
) -> u8
    requires input { has_failed input.old ≡ false }
    requires output { has_failed output.old ≡ false }
    ensures { JudgesGroups (D.fate_by decider.now query.port) rule_lines.now
        (D.counts_by decider.now rule_lines.now) query.by query.shown query.strict
        (I.remaining (inner_of input.old)) (I.remaining (inner_of input.new)) (has_failed input.new)
        (W.contents (inner_of output.old)) (W.contents (inner_of output.new)) (has_failed output.new) result }
{
    let policy = LogPolicy {
        decider,
        rule_lines,
    };
    match Groups::new(alloc, query.by) {
        Ok(groups) => judge_grouped(alloc, query, policy, groups, input, output, faults),
        Err(AllocError) => refuse(&Refusal::OutOfMemory, output, faults),
    }
}

/// Judges each frame of an input by what decides, and counts it in its group. The first octets tell a capture from a log.
fn judge_grouped<D: TellsParts, I: Read, W: Write, F: Write>(
    alloc: Global,
    query: LogQuery,
    policy: LogPolicy<D>,
    groups: Groups,
    input: &mut Tried<I>,
    output: &mut Tried<W>,
    faults: &mut Tried<F>,
) -> u8
    requires input { has_failed input.old ≡ false }
    requires output { has_failed output.old ≡ false }
    requires groups { groups ≡ no_groups query.by }
    ensures { EndsInput (D.fate_by policy.entry.decider.now query.port) policy.entry.rule_lines.now
        (D.counts_by policy.entry.decider.now policy.entry.rule_lines.now) query.by query.shown query.strict
        (I.remaining (inner_of input.old)) (I.remaining (inner_of input.new)) (has_failed input.new)
        (W.contents (inner_of output.old)) (W.contents (inner_of output.new)) (has_failed output.new) result }
{
    match FirstOctets::read(input) {
        Ok(octets) => {
            let first = octets.octets();
            if octets.is_capture() {
                judge_frames(alloc, query, policy, groups, first, input, output, faults)
            } else {
                judge_lines(alloc, query, policy, groups, first, input, output, faults)
            }
        }
        Err(ReadFault) => tell_end(query.shown, JudgeFault::ReadFault, output, faults),
    }
}

/// Judges each line of a log, of which these first octets were read before.
fn judge_lines<D: TellsParts, I: Read, W: Write, F: Write>(
    alloc: Global,
    query: LogQuery,
    policy: LogPolicy<D>,
    groups: Groups,
    first: &[u8],
    input: &mut Tried<I>,
    output: &mut Tried<W>,
    faults: &mut Tried<F>,
) -> u8
    requires input { has_failed input.old ≡ false }
    requires output { has_failed output.old ≡ false }
    requires groups { groups ≡ no_groups query.by }
    requires first { length first.now ≤ 4 }
    ensures { (before : Option (List ℕ)) → Consumes before (I.remaining (inner_of input.old)) first.now
        → EndsLog (fate_of (D.fate_by policy.entry.decider.now query.port)) policy.entry.rule_lines.now
        (D.counts_by policy.entry.decider.now policy.entry.rule_lines.now) query.by query.shown query.strict
        before (I.remaining (inner_of input.new)) (has_failed input.new)
        (W.contents (inner_of output.old)) (W.contents (inner_of output.new)) (has_failed output.new) result }
{
    let report = Named {
        wanted: wanted(query.shown),
        rule_lines: policy.rule_lines,
    };
    let asked = Asked {
        decider: policy.decider,
        from: query.port,
        report: &report,
        strict: query.strict,
    };
    let mut head = Head::new();
    let judged = judge_opened(&asked, groups, first, &mut head, input, output);
    note_no_log(&head, faults);
    match judged {
        Ok(tally) => {
            note_refused_lines(&tally, faults);
            tell_counts(alloc, query, policy, &tally, output, faults)
        }
        Err(fault) => tell_end(query.shown, fault, output, faults),
    }
}

/// Which lines of a log are written.
fn wanted(shown: Shown) -> Wanted
    ensures { result ≡ wanted_of shown }
{
    match shown {
        Shown::Counts(_) => Wanted::Nothing,
        Shown::Passed => Wanted::Passed,
        Shown::Blocked => Wanted::Blocked,
        Shown::Each => Wanted::Each,
    }
}

/// Writes the counts, where they are asked for.
pub(crate) fn tell_counts<D: TellsParts, W: Write, F: Write>(
    alloc: Global,
    query: LogQuery,
    policy: LogPolicy<D>,
    tally: &Tally,
    output: &mut Tried<W>,
    faults: &mut Tried<F>,
) -> u8
    ensures { TellsCounts (told_counts (D.counts_by policy.entry.decider.now policy.entry.rule_lines.now) query.by) query.shown
        tally.now
        (W.contents (inner_of output.old)) (W.contents (inner_of output.new)) (has_failed output.new) result }
{
    if output.failed() {
        return 1;
    }
    let Shown::Counts(form) = query.shown else {
        return 0;
    };
    match told_text(
        alloc,
        query.by,
        form,
        policy.decider,
        policy.rule_lines,
        tally,
    ) {
        Ok(text) => write_text(text.as_bytes(), 0, output, faults),
        Err(AllocError) => refuse(&Refusal::OutOfMemory, output, faults),
    }
}

/// Tells why a log ended early, on the output only where counts are asked for.
pub(crate) fn tell_end<W: Write, F: Write>(
    shown: Shown,
    fault: JudgeFault,
    output: &mut Tried<W>,
    faults: &mut Tried<F>,
) -> u8
    ensures told { TellsEnd shown fault
        (W.contents (inner_of output.old)) (W.contents (inner_of output.new)) (has_failed output.new) result }
    ensures failed { has_failed output.old ≡ true → has_failed output.new ≡ true }
{
    if matches!(shown, Shown::Counts(_)) && !output.failed() {
        return write_refusal(fault_line(fault).as_bytes(), &fault, output, faults);
    }
    let _ = writeln!(faults, "gw: {fault}");
    1
}

/// The line of what ends a log early: its number, and that of the line that is refused.
fn fault_line(fault: JudgeFault) -> Line
    ensures { result ≡ fault_line fault }
{
    let number = fault.number();
    match fault {
        JudgeFault::Refused(at) => refused(number, &[at.line]),
        _ => refused(number, &[]),
    }
}
