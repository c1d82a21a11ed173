//! The rounds that the driver times.

ghost use Rattle.std.specs.Prelude.{◌≡◌, map, length};
ghost use Rattle.gw_machine.specs.Answers.{answer_of};
ghost use Rattle.gw_table.specs.Table.{table_passes};
ghost use Rattle.bench_calls.specs.Calls.{after};

use gw_frame::Frame;
use gw_machine::run;
use gw_table::Table;
use gw_verify::Program;

/// The port at which every frame counts as taken.
pub(crate) const PORT: u8 = 0;

/// Runs a program on every frame in each round. What stays are the answers of the last.
pub fn run_rounds(program: &Program, frames: &[Frame], rounds: u32, answers: &mut [u32])
    requires { length answers.old ≡ length frames.now }
    ensures { answers.new ≡ after rounds answers.old (map (λ octets. answer_of program.now octets 0) frames.now) }
{
    for _ in 0..rounds {
        run_each(program, frames, answers);
    }
}

fn run_each(program: &Program, frames: &[Frame], answers: &mut [u32])
    requires { length answers.old ≡ length frames.now }
    ensures { answers.new ≡ map (λ octets. answer_of program.now octets 0) frames.now }
{
    for (i, answer) in answers.iter_mut().enumerate() {
        *answer = run(program, &frames[i], PORT);
    }
}

/// Judges every frame by a table in each round. What stays are the verdicts of the last.
pub fn judge_rounds(table: &Table, frames: &[Frame], rounds: u32, verdicts: &mut [bool])
    requires { length verdicts.old ≡ length frames.now }
    ensures { verdicts.new ≡ after rounds verdicts.old (map (λ octets. table_passes table.now octets 0) frames.now) }
{
    for _ in 0..rounds {
        judge_each(table, frames, verdicts);
    }
}

fn judge_each(table: &Table, frames: &[Frame], verdicts: &mut [bool])
    requires { length verdicts.old ≡ length frames.now }
    ensures { verdicts.new ≡ map (λ octets. table_passes table.now octets 0) frames.now }
{
    for (i, verdict) in verdicts.iter_mut().enumerate() {
        *verdict = table.verdict(&frames[i], PORT);
    }
}
