//! The files of policies that a command line names.

ghost use Rattle.std.specs.Prelude.{◌≡◌, length, vec_len, false, IfOk, IfErr};
ghost use Rattle.gw_io.specs.Tries.{inner_of, has_failed, reads_of, unended_reads};
ghost use Rattle.gw_answers.specs.Policies.{RefusesFile};
ghost use Rattle.gw_run.specs.Forwarding.{ForwardsNamed, RefusesNamed};

use crate::forwarding::forward;
use crate::lines::Shown;
use crate::observing::Observer;
use crate::taking::Taking;
use gw_answers::{PolicySource, Refusal, read_file, respond};
use gw_io::Tried;
use gw_ledger::Limits;
use std::alloc::Global;
use std::io::{Read, Write};
use std::marker::Sync;
use std::rt::Files;
use std::sync::Wait;
use std::thread::Threads;

/// Reads the files that the ports' sources name, and forwards an input under their policies: see `forward`. A file that cannot be
/// read is 96, and one of more than 1048576 octets 98; a person is told which. It may wait.
pub fn forward_named<R: Threads + Wait + Sync + Files, G: Observer, I: Read, W: Write, F: Write>(
    rt: &R,
    alloc: Global,
    limits: Limits,
    sources: &[PolicySource],
    taking: &Taking,
    shown: Shown,
    observer: &G,
    input: &mut Tried<I>,
    output: &mut Tried<W>,
    faults: &mut Tried<F>,
) -> u8
    requires sources { length sources.now ≡ limits.ports }
    requires unread { reads_of input.old ≡ 0 }
    requires input { has_failed input.old ≡ false }
    requires output { has_failed output.old ≡ false }
    ensures { ForwardsNamed taking.now limits sources.now G.waits shown
        (I.remaining (inner_of input.old)) (I.remaining (inner_of input.new))
        (has_failed input.new) (unended_reads input.old input.new)
        (W.contents (inner_of output.old)) (W.contents (inner_of output.new)) (has_failed output.new) result }
{
    let texts = match texts(rt, alloc, sources, faults) {
        Ok(texts) => texts,
        Err(refusal) => return respond(&Err(refusal), output, faults),
    };
    forward(
        rt, alloc, limits, sources, &texts, taking, shown, observer, input, output, faults,
    )
}

/// What the files hold, in the order of their ports; nothing where a source names none.
pub(crate) fn texts<R: Files, F: Write>(
    rt: &R,
    alloc: Global,
    sources: &[PolicySource],
    faults: &mut Tried<F>,
) -> Result<Vec<Vec<u8>>, Refusal>
    ensures count { IfOk result (λ texts. vec_len texts ≡ length sources.now) }
    ensures refused { IfErr result (RefusesNamed sources.now) }
{
    let mut texts = Vec::new(alloc);
    for port in 0..sources.len() {
        let text = match sources[port] {
            PolicySource::Listing(file) | PolicySource::Table(file) => {
                port_text(rt, alloc, port, file, faults)?
            }
            _ => Vec::new(alloc),
        };
        if texts.push(text).is_err() {
            return Err(Refusal::OutOfMemory);
        }
    }
    Ok(texts)
}

/// What the file of a port holds. A person is told which file is refused.
fn port_text<R: Files, F: Write>(
    rt: &R,
    alloc: Global,
    port: usize,
    path: &str,
    faults: &mut Tried<F>,
) -> Result<Vec<u8>, Refusal>
    ensures { IfErr result RefusesFile }
{
    let read = read_file(rt, alloc, path, faults);
    if read.is_err() {
        let _ = writeln!(faults, "gw: the file of port {port}, {path}, is refused:");
    }
    read
}
