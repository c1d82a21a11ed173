//! The command `replay`: the lines of a script, each with its answer.

ghost use Rattle.std.specs.Prelude.{◌≡◌, false};
ghost use Rattle.gw_io.specs.Tries.{inner_of, has_failed, reads_of, unended_reads};
ghost use Rattle.gw_commands.specs.Replays.{Replays, replayed_status};

use gw_answers::{Refusal, respond};
use gw_io::Tried;
use gw_replay::{ReplayFault, replay_told};
use std::alloc::Global;
use std::io::{Read, Write};

/// Runs a script, and writes the answer of each of its lines as soon as the line was read. Where the script could not be read
/// to its end (96), or memory was wanting (100), the line of that refusal stands behind the answers. Strictly the status is 1 too
/// where a line of the script was refused.
pub fn replay<R: Read, W: Write, F: Write>(
    alloc: Global,
    strict: bool,
    input: &mut Tried<R>,
    output: &mut Tried<W>,
    faults: &mut Tried<F>,
) -> u8
    requires input { has_failed input.old ≡ false }
    requires output { has_failed output.old ≡ false }
    requires unread { reads_of input.old ≡ 0 }
    ensures { Replays strict (R.remaining (inner_of input.old)) (R.remaining (inner_of input.new)) (has_failed input.new)
        (unended_reads input.old input.new)
        (W.contents (inner_of output.old)) (W.contents (inner_of output.new)) (has_failed output.new) result }
{
    let fault = match replay_told(alloc, input, output, faults) {
        Ok(refused) => return replayed_status(strict, refused),
        Err(fault) => fault,
    };
    if output.failed() {
        let _ = writeln!(faults, "gw: {fault}");
        return 1;
    }
    match fault {
        ReplayFault::OutOfMemory => respond(&Err(Refusal::OutOfMemory), output, faults),
        _ => respond(&Err(Refusal::ReadFault), output, faults),
    }
}

/// The status of a script that was replayed to its end.
fn replayed_status(strict: bool, refused: bool) -> u8
    ensures { result ≡ replayed_status strict refused }
{
    if strict && refused { 1 } else { 0 }
}
