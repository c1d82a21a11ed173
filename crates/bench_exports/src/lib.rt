//! bench_calls as a static library, for the driver in C that times its calls beside libpcap's.
#![tactic(auto)]

ghost use Rattle.std.specs.Prelude.{◌≡◌, ◌≢◌, drop, length};
ghost use Rattle.std.specs.Bool.{OnFalse, OnTrue};
ghost use Rattle.bench_calls.specs.Calls.{IsAssembled, IsCompiled, IsJudged, IsRun, IsWhole};

use bench_calls::{
    BpfInsn, Record, Tally, count_assembled, count_differences, count_events, count_steps,
    judge_by_index, judge_by_rules, pass_cold, run_code, tally_pieces, tally_shares,
    write_compiled,
};
use std::alloc::Global;

/// `run_code`.
#[unsafe(no_mangle)]
pub extern "C" fn gw_bench_run(
    alloc: Global,
    code: &[BpfInsn],
    records: &[Record],
    rounds: u32,
    answers: &mut [u32],
) -> bool
    requires { length answers.old ≡ length records.now }
    ensures ran { OnTrue result (IsRun code.now records.now rounds answers.old answers.new) }
    ensures refused { OnFalse result (answers.new ≡ answers.old) }
{
    run_code(alloc, code, records, rounds, answers)
}

/// `judge_by_rules`.
#[unsafe(no_mangle)]
pub extern "C" fn gw_bench_judge(
    alloc: Global,
    text: &[u8],
    records: &[Record],
    rounds: u32,
    verdicts: &mut [bool],
) -> bool
    requires { length verdicts.old ≡ length records.now }
    ensures judged { OnTrue result (IsJudged text.now records.now rounds verdicts.old verdicts.new) }
    ensures refused { OnFalse result (verdicts.new ≡ verdicts.old) }
{
    judge_by_rules(alloc, text, records, rounds, verdicts)
}

/// `judge_by_index`.
#[unsafe(no_mangle)]
pub extern "C" fn gw_bench_index(
    alloc: Global,
    text: &[u8],
    records: &[Record],
    rounds: u32,
    verdicts: &mut [bool],
) -> bool
    requires { length verdicts.old ≡ length records.now }
    ensures judged { OnTrue result (IsJudged text.now records.now rounds verdicts.old verdicts.new) }
    ensures refused { OnFalse result (verdicts.new ≡ verdicts.old) }
{
    judge_by_index(alloc, text, records, rounds, verdicts)
}

/// `write_compiled`.
#[unsafe(no_mangle)]
pub extern "C" fn gw_bench_compile(alloc: Global, text: &[u8], code: &mut [BpfInsn]) -> usize
    ensures compiled { result ≢ 0 → IsCompiled text.now result code.new }
    ensures behind { drop result code.new ≡ drop result code.old }
{
    write_compiled(alloc, text, code)
}

/// `count_assembled`.
#[unsafe(no_mangle)]
pub extern "C" fn gw_bench_assemble(alloc: Global, text: &[u8]) -> usize
    ensures { result ≢ 0 → IsAssembled text.now result }
{
    count_assembled(alloc, text)
}

/// `tally_shares`.
#[unsafe(no_mangle)]
pub extern "C" fn gw_bench_shares(octets: &[u8], ports: usize, tally: &mut Tally) -> bool
    ensures { OnTrue result (IsWhole octets.now) }
{
    tally_shares(octets, ports, tally)
}

/// `tally_pieces`.
#[unsafe(no_mangle)]
pub extern "C" fn gw_bench_feed(
    alloc: Global,
    octets: &[u8],
    piece: usize,
    tally: &mut Tally,
) -> bool {
    tally_pieces(alloc, octets, piece, tally)
}

/// `count_events`, or 0.
#[unsafe(no_mangle)]
pub extern "C" fn gw_bench_events(
    alloc: Global,
    text: &[u8],
    records: &[Record],
    run: bool,
) -> usize {
    count_events(alloc, text, records, run).unwrap_or(0)
}

/// `count_steps`, or 0.
#[unsafe(no_mangle)]
pub extern "C" fn gw_bench_steps(
    alloc: Global,
    code: &[BpfInsn],
    records: &[Record],
    rounds: u32,
    core: bool,
) -> u64 {
    count_steps(alloc, code, records, rounds, core).unwrap_or(0)
}

/// `pass_cold`, or 0.
#[unsafe(no_mangle)]
pub extern "C" fn gw_bench_cold(
    alloc: Global,
    text: &[u8],
    records: &[Record],
    walk: &[u64],
    rounds: u32,
    way: u32,
) -> u64 {
    pass_cold(alloc, text, records, walk, rounds, way).unwrap_or(0)
}

/// `count_differences`, or the greatest number.
#[unsafe(no_mangle)]
pub extern "C" fn gw_bench_differences(alloc: Global, old: &[u8], new: &[u8]) -> usize {
    count_differences(alloc, old, new).unwrap_or(usize::MAX)
}
