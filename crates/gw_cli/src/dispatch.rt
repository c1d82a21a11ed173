//! The program's commands, over a reader and two writers.

ghost use Rattle.std.specs.Prelude.{◌≡◌, length, false, None};
ghost use Rattle.clap.specs.Values.{kind_of};
ghost use Rattle.gw_io.specs.Tries.{inner_of, has_failed, reads_of, unended_reads};
ghost use Rattle.gw_answers.specs.Responses.{WritesText};
ghost use Rattle.gw_commands.specs.Commands.{Does};
ghost use Rattle.gw_commands.specs.Verdicts.{AnswersVerdict, RefusesVerdict};
ghost use Rattle.gw_cli.specs.Asked.{AnswersArguments, DoesAsked};

use clap::Error;
use clap::error::ErrorKind;
use gw_answers::{Query, Refusal, respond};
use gw_arguments::{Request, read_arguments};
use gw_commands::{answer_named, answer_query, claims_log, claims_log_named, replay};
use gw_io::{Tried, WriteFault, write_all};
use std::alloc::Global;
use std::convert::AsStr;
use std::io::{Read, Write};
use std::rt::Files;

/// Does what the arguments of a command line, without the program's name, ask for, and answers the exit status: 0 done,
/// 1 refused or a write failed, 2 wrong arguments, 3 a blocked frame where the status is to tell it. No clause says which
/// arguments ask for what, except that none ask for a verdict.
pub fn command<R: Files, S: AsStr, I: Read, W: Write, F: Write>(
    rt: &R,
    alloc: Global,
    arguments: &[S],
    input: &mut Tried<I>,
    output: &mut Tried<W>,
    faults: &mut Tried<F>,
) -> u8
    requires unread { reads_of input.old ≡ 0 }
    requires input { has_failed input.old ≡ false }
    requires output { has_failed output.old ≡ false }
    requires faults { has_failed faults.old ≡ false }

    // Without arguments: the record's line and the listing, judged for port 0.
    ensures first { length arguments.now ≡ 0 → Does (AnswersVerdict None 0) (RefusesVerdict None) false
        (I.remaining (inner_of input.old)) (I.remaining (inner_of input.new)) (has_failed input.new)
        (W.contents (inner_of output.old)) (W.contents (inner_of output.new)) (has_failed output.new) result }
    ensures does { DoesAsked (I.remaining (inner_of input.old)) (I.remaining (inner_of input.new))
        (has_failed input.new) (unended_reads input.old input.new)
        (W.contents (inner_of output.old)) (W.contents (inner_of output.new)) (has_failed output.new)
        (F.contents (inner_of faults.old)) (F.contents (inner_of faults.new)) (has_failed faults.new) result }
{
    if arguments.is_empty() {
        let first = Query::Verdict {
            port: 0,
            frame: None,
            tells: false,
        };
        return answer_query(alloc, first, input, output, faults);
    }
    match read_arguments(alloc, arguments) {
        Ok(Request::Query(query)) => answer_query(alloc, query, input, output, faults),
        Ok(Request::Named(query, file)) => answer_named(rt, alloc, query, file, output, faults),
        Ok(Request::ClaimsLog) => claims_log(alloc, input, output, faults),
        Ok(Request::ClaimsLogNamed(file)) => claims_log_named(rt, alloc, file, output, faults),
        Ok(Request::Replay { strict }) => replay(alloc, strict, input, output, faults),
        Err(error) => answer_arguments(alloc, &error, output, faults),
    }
}

/// Writes `clap`'s answer: help on the output with status 0, or what is wrong on stderr with status 2. The status is 1
/// where the write failed, or memory was wanting for the text.
pub fn answer_arguments<W: Write, F: Write>(
    alloc: Global,
    error: &Error,
    output: &mut Tried<W>,
    faults: &mut Tried<F>,
) -> u8
    requires output { has_failed output.old ≡ false }
    requires faults { has_failed faults.old ≡ false }
    ensures { AnswersArguments (kind_of error.now)
        (W.contents (inner_of output.old)) (W.contents (inner_of output.new)) (has_failed output.new)
        (F.contents (inner_of faults.old)) (F.contents (inner_of faults.new)) (has_failed faults.new) result }
{
    let text = match format!(in alloc; "{error}") {
        Ok(text) if error.kind() != ErrorKind::OutOfMemory => text,
        _ => return respond(&Err(Refusal::OutOfMemory), output, faults),
    };
    if error.use_stderr() {
        write_text(faults, text.as_str(), 2)
    } else {
        write_text(output, text.as_str(), 0)
    }
}

/// Writes a text, and gives its status, or 1 where a write failed.
fn write_text<W: Write>(writer: &mut Tried<W>, text: &str, done: u8) -> u8
    requires { has_failed writer.old ≡ false }
    ensures { WritesText text.now done result
        (W.contents (inner_of writer.old)) (W.contents (inner_of writer.new)) (has_failed writer.new) }
{
    match write_all(writer, text.as_bytes()) {
        Ok(()) => done,
        Err(WriteFault) => 1,
    }
}
