//! The command `judge`, over a reader and two writers.

ghost use Rattle.std.specs.Prelude.{◌≡◌, false};
ghost use Rattle.gw_io.specs.Tries.{inner_of, has_failed};
ghost use Rattle.gw_cli.specs.Asked.{JudgesAsked};

use crate::dispatch::answer_arguments;
use gw_arguments::{EgressRequest, JudgeRequest, read_judge};
use gw_commands::judge_named;
use gw_io::Tried;
use gw_run::egress_named;
use std::alloc::Global;
use std::convert::AsStr;
use std::io::{Read, Write};
use std::rt::Files;

/// Does what the arguments of a command line, without the program's name, ask for, where they name the command `judge`; other
/// commands are wrong arguments. The exit status is as for `command`. Which arguments ask for what, no clause says.
pub fn judge_command<R: Files, S: AsStr, I: Read, W: Write, F: Write>(
    rt: &R,
    alloc: Global,
    arguments: &[S],
    input: &mut Tried<I>,
    output: &mut Tried<W>,
    faults: &mut Tried<F>,
) -> u8
    requires input { has_failed input.old ≡ false }
    requires output { has_failed output.old ≡ false }
    requires faults { has_failed faults.old ≡ false }
    ensures { JudgesAsked (I.remaining (inner_of input.old)) (I.remaining (inner_of input.new)) (has_failed input.new)
        (W.contents (inner_of output.old)) (W.contents (inner_of output.new)) (has_failed output.new)
        (F.contents (inner_of faults.old)) (F.contents (inner_of faults.new)) (has_failed faults.new) result }
{
    match read_judge(alloc, arguments) {
        Ok(JudgeRequest::Log(query, file)) => {
            judge_named(rt, alloc, query, file, input, output, faults)
        }
        Ok(JudgeRequest::Egress(asked)) => {
            let EgressRequest {
                sources,
                interfaces,
            } = asked;
            let names = interfaces.as_slice();
            egress_named(rt, alloc, &sources, names, input, output, faults)
        }
        Err(error) => answer_arguments(alloc, &error, output, faults),
    }
}
