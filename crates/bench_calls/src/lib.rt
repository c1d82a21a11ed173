//! What the benchmark times of the crates, over the records and instructions of its driver: the machine, tables with their
//! compiler, the assembler, the event machine and traces. The static library bench_exports hands these calls to C.
#![tactic(auto)]

ghost use Rattle.std.specs.Prelude.{◌≡◌, ◌≢◌, drop, length};
ghost use Rattle.std.specs.Bool.{OnFalse, OnTrue};
ghost use Rattle.bench_calls.specs.Calls.{IsCompiled, IsJudged, IsRun};

mod cold;
mod differences;
mod events;
mod indexed;
mod interchange;
mod loading;
mod rounds;
mod texts;
mod traces;

pub use cold::pass_cold;
pub use differences::count_differences;
pub use events::{count_events, count_steps};
use gw_table::compile;
use indexed::index_rounds;
pub use interchange::{BpfInsn, Record};
use loading::{load_frames, load_index, load_program, load_table, store_code};
use rounds::{judge_rounds, run_rounds};
use std::alloc::Global;
pub use texts::count_assembled;
pub use traces::{Tally, tally_pieces, tally_shares};

/// Runs code on each record, taken at port 0, in so many rounds. True: the answers are those of the code's program, or
/// with no round what they were. False: the code is refused (`Program::check`), the octets of a record are no
/// record (`Frame::read`), or memory was refused; the answers are what they were.
pub fn run_code(
    alloc: Global,
    code: &[BpfInsn],
    records: &[Record],
    rounds: u32,
    answers: &mut [u32],
) -> bool
    requires { length answers.old ≡ length records.now }
    ensures ran { OnTrue result (IsRun code.now records.now rounds answers.old answers.new) }
    ensures refused { OnFalse result (answers.new ≡ answers.old) }
{
    let Some(program) = load_program(alloc, code) else {
        return false;
    };
    let Some(frames) = load_frames(alloc, records) else {
        return false;
    };
    run_rounds(&program, &frames, rounds, answers);
    true
}

/// Judges each record, taken at port 0, by the table of a TOML text in so many rounds. True: the verdicts are the
/// table's (true passes), or with no round what they were. False: the text is no table (`Table::read`), the
/// octets of a record are no record, or memory was refused; the verdicts are what they were.
pub fn judge_by_rules(
    alloc: Global,
    text: &[u8],
    records: &[Record],
    rounds: u32,
    verdicts: &mut [bool],
) -> bool
    requires { length verdicts.old ≡ length records.now }
    ensures judged { OnTrue result (IsJudged text.now records.now rounds verdicts.old verdicts.new) }
    ensures refused { OnFalse result (verdicts.new ≡ verdicts.old) }
{
    let Some(table) = load_table(alloc, text) else {
        return false;
    };
    let Some(frames) = load_frames(alloc, records) else {
        return false;
    };
    judge_rounds(&table, &frames, rounds, verdicts);
    true
}

/// As `judge_by_rules`, by the table's index.
pub fn judge_by_index(
    alloc: Global,
    text: &[u8],
    records: &[Record],
    rounds: u32,
    verdicts: &mut [bool],
) -> bool
    requires { length verdicts.old ≡ length records.now }
    ensures judged { OnTrue result (IsJudged text.now records.now rounds verdicts.old verdicts.new) }
    ensures refused { OnFalse result (verdicts.new ≡ verdicts.old) }
{
    let Some(table) = load_index(alloc, text) else {
        return false;
    };
    let Some(frames) = load_frames(alloc, records) else {
        return false;
    };
    index_rounds(&table, &frames, rounds, verdicts);
    true
}

/// Writes the program that the table of a TOML text is compiled to, and returns how many instructions it has: at
/// least 22. What stands behind them in `code` is left. 0, with nothing written: the text is no table, the code has no room
/// for the program, or memory was refused.
pub fn write_compiled(alloc: Global, text: &[u8], code: &mut [BpfInsn]) -> usize
    ensures compiled { result ≢ 0 → IsCompiled text.now result code.new }
    ensures behind { drop result code.new ≡ drop result code.old }
{
    let Some(table) = load_table(alloc, text) else {
        return 0;
    };
    let Ok(program) = compile(alloc, &table) else {
        return 0;
    };
    let insns = program.code();
    if insns.len() > code.len() {
        return 0;
    }
    store_code(insns, code);
    insns.len()
}
