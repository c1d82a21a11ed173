//! The command `diff` on a log: the lines whose frame two tables treat unlike.

ghost use Rattle.std.specs.Prelude.{◌≡◌, false};
ghost use Rattle.gw_io.specs.Tries.{inner_of, has_failed};
ghost use Rattle.gw_judge.specs.Fates.{fate_of, changed_fate};
ghost use Rattle.gw_judge.specs.Grouped.{no_groups};
ghost use Rattle.gw_judge.specs.declared.groups.Grouping.TheVariants.{Nothing};
ghost use Rattle.gw_commands.specs.LogDifferences.{ChangesLog, DiffsLog, DiffsNamed, changed_status};

use crate::diff_command::{told_tables, told_texts};
use crate::judge_command::tell_end;
use crate::notes::{note_no_log, note_refused_lines};
use gw_answers::{Shown, TableFiles, refuse};
use gw_io::Tried;
use gw_judge::{Asked, Changed, Grouping, Groups, Head, Named, Tally, Wanted, judge};
use std::alloc::Global;
use std::io::{Read, Write};
use std::rt::Files;

/// Reads the files of two tables, and writes the lines of a log whose frame they treat unlike: see `diff_log`. A file that cannot
/// be read is 96, and one of more than 1048576 octets 98, before the tables' own refusals.
pub fn diff_log_named<R: Files, I: Read, W: Write, F: Write>(
    rt: &R,
    alloc: Global,
    files: TableFiles,
    port: u8,
    input: &mut Tried<I>,
    output: &mut Tried<W>,
    faults: &mut Tried<F>,
) -> u8
    requires input { has_failed input.old ≡ false }
    requires output { has_failed output.old ≡ false }
    ensures { DiffsNamed port (I.remaining (inner_of input.old)) (I.remaining (inner_of input.new)) (has_failed input.new)
        (W.contents (inner_of output.old)) (W.contents (inner_of output.new)) (has_failed output.new) result }
{
    match told_texts(rt, alloc, files, faults) {
        Ok(texts) => {
            let (old, new) = (texts.old.as_slice(), texts.new.as_slice());
            diff_log(alloc, files, port, old, new, input, output, faults)
        }
        Err(refusal) => refuse(&refusal, output, faults),
    }
}

/// Writes the lines of a log whose frame the tables of two texts treat unlike when it is taken at the port, each behind the new
/// table's verdict and what decides it, with status 1 where there is such a line and 0 where there is none. Refused are first the
/// old table's text and then the new one's; 96 is a read that failed. A person is told of the lines that say no classic frame.
pub fn diff_log<I: Read, W: Write, F: Write>(
    alloc: Global,
    files: TableFiles,
    port: u8,
    old: &[u8],
    new: &[u8],
    input: &mut Tried<I>,
    output: &mut Tried<W>,
    faults: &mut Tried<F>,
) -> u8
    requires input { has_failed input.old ≡ false }
    requires output { has_failed output.old ≡ false }
    ensures { DiffsLog port old.now new.now (I.remaining (inner_of input.old)) (I.remaining (inner_of input.new))
        (has_failed input.new)
        (W.contents (inner_of output.old)) (W.contents (inner_of output.new)) (has_failed output.new) result }
{
    match told_tables(alloc, files, old, new, faults) {
        Ok(tables) => {
            let changed = Changed {
                old: &tables.old.table,
                new: &tables.new.table,
            };
            let lines = tables.new.lines.as_slice();
            write_changed(alloc, &changed, lines, port, input, output, faults)
        }
        Err(refusal) => refuse(&refusal, output, faults),
    }
}

/// Writes the lines of a log whose frame two tables treat unlike. `rule_lines` are those of the new table's rules.
fn write_changed<I: Read, W: Write, F: Write>(
    alloc: Global,
    changed: &Changed,
    rule_lines: &[usize],
    port: u8,
    input: &mut Tried<I>,
    output: &mut Tried<W>,
    faults: &mut Tried<F>,
) -> u8
    requires input { has_failed input.old ≡ false }
    requires output { has_failed output.old ≡ false }
    ensures { ChangesLog (fate_of (changed_fate changed.now.old.now changed.now.new.now port)) rule_lines.now
        (I.remaining (inner_of input.old)) (I.remaining (inner_of input.new)) (has_failed input.new)
        (W.contents (inner_of output.old)) (W.contents (inner_of output.new)) (has_failed output.new) result }
{
    let Ok(groups) = Groups::new(alloc, Grouping::Nothing) else {
        unreachable!()
    };
    let report = Named {
        wanted: Wanted::Each,
        rule_lines,
    };
    let asked = Asked {
        decider: changed,
        from: port,
        report: &report,
        strict: false,
    };
    let mut head = Head::new();
    let judged = judge(&asked, groups, &mut head, input, output);
    note_no_log(&head, faults);
    match judged {
        Ok(tally) => {
            note_refused_lines(&tally, faults);
            changed_status(&tally, output.failed())
        }
        Err(fault) => tell_end(Shown::Each, fault, output, faults),
    }
}

/// The status: 1 where a write failed, or where the new table passes or blocks a frame otherwise than the old one.
fn changed_status(tally: &Tally, failed: bool) -> u8
    ensures { result ≡ changed_status tally.now.counts failed }
{
    if failed || tally.counts.passed > 0 || tally.counts.blocked > 0 {
        1
    } else {
        0
    }
}
