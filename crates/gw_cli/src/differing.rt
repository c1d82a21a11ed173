//! The command `diff`, over a reader and two writers.

ghost use Rattle.std.specs.Prelude.{◌≡◌, false};
ghost use Rattle.gw_io.specs.Tries.{inner_of, has_failed};
ghost use Rattle.gw_cli.specs.Asked.{ComparesAsked};

use crate::dispatch::answer_arguments;
use gw_arguments::{DiffRequest, read_diff};
use gw_commands::{diff_log_named, diff_named, diff_ports_named};
use gw_io::Tried;
use std::alloc::Global;
use std::convert::AsStr;
use std::io::{Read, Write};
use std::rt::Files;

/// Does what the arguments of a command line, without the program's name, ask for, where they name the command `diff`; other
/// commands are wrong arguments. The exit status is as for `command`, and 1 where the tables differ too. Which arguments ask
/// for what, no clause says.
pub fn diff_command<R: Files, S: AsStr, I: Read, W: Write, F: Write>(
    rt: &R,
    alloc: Global,
    arguments: &[S],
    input: &mut Tried<I>,
    output: &mut Tried<W>,
    faults: &mut Tried<F>,
) -> u8
    requires input { has_failed input.old ≡ false }
    requires output { has_failed output.old ≡ false }
    requires faults { has_failed faults.old ≡ false }
    ensures { ComparesAsked (I.remaining (inner_of input.old)) (I.remaining (inner_of input.new)) (has_failed input.new)
        (W.contents (inner_of output.old)) (W.contents (inner_of output.new)) (has_failed output.new)
        (F.contents (inner_of faults.old)) (F.contents (inner_of faults.new)) (has_failed faults.new) result }
{
    match read_diff(alloc, arguments) {
        Ok(DiffRequest::Tables(files)) => diff_named(rt, alloc, files, output, faults),
        Ok(DiffRequest::Log(files, port)) => {
            diff_log_named(rt, alloc, files, port, input, output, faults)
        }
        Ok(DiffRequest::Ports(files)) => {
            diff_ports_named(rt, alloc, files.as_slice(), output, faults)
        }
        Err(error) => answer_arguments(alloc, &error, output, faults),
    }
}
