//! The files from which the ports take their frames.

ghost use Rattle.std.specs.Prelude.{◌≡◌, ◌≤◌, ◌<◌, ℕ, List, Option, length, false, IfOk, IfErr, All, vec_len};
ghost use Rattle.std.specs.Borrow.{Bor};
ghost use Rattle.gw_io.specs.Tries.{inner_of, has_failed};
ghost use Rattle.gw_run.specs.Forwarding.{IsFirst};
ghost use Rattle.gw_run.specs.PortInputs.{AreFoundOf, AreNew, ForwardsFiles, Found, IsInputsRun, KeepsFiles};
ghost use Rattle.gw_run.specs.PortInputs.{RefusesFilesRun, RefusesPolicies};

use crate::files::texts;
use crate::first::first_batch;
use crate::forwarding::report_octets;
use crate::inputs::{finish_inputs, known_frames, open_inputs};
use crate::kept::Kept;
use crate::lines::Shown;
use crate::observing::Observer;
use crate::port_input::PortInput;
use crate::refusal::ForwardRefusal;
use crate::running::{run_over, unstopped};
use gw_answers::{Answer, PolicySource, Refusal, respond, write_refusal};
use gw_io::Tried;
use gw_ledger::Limits;
use gw_policy::Batch;
use std::alloc::Global;
use std::io::{Read, Write};
use std::marker::{Send, Sync};
use std::rt::Files;
use std::sync::Wait;
use std::thread::Threads;

/// Reads the files that the ports' sources name, forwards the frames of the files that are named for the ports, each port's in
/// their order, under the policies from the first frame on, and writes what each port counted, and behind it the lines that are
/// `shown`. The index of a file is its port. A log is read before the run, and a trace while it runs, one piece at a time.
///
/// The policies' refusals come first, those of their files before the others. Then the first file that is refused is told: 96 of
/// one that could not be read, 91 to 93 and 95 of a trace, and 114 of what is neither a log nor a trace. What is wrong with a
/// trace shows where it ends, so 80 to 86, of a run that did not begin, are told before it. It may wait.
pub fn forward_files<R: Threads + Wait + Sync + Files, G: Observer, W: Write, F: Write>(
    rt: &R,
    alloc: Global,
    limits: Limits,
    sources: &[PolicySource],
    files: &[Option<&str>],
    shown: Shown,
    observer: &G,
    output: &mut Tried<W>,
    faults: &mut Tried<F>,
) -> u8
where
    R::File: Send,
    requires sources { length sources.now ≡ limits.ports }
    requires files { length files.now ≡ limits.ports }
    requires output { has_failed output.old ≡ false }
    ensures { ForwardsFiles limits sources.now files.now G.waits shown
        (W.contents (inner_of output.old)) (W.contents (inner_of output.new)) (has_failed output.new) result }
{
    let first = match named_batch(rt, alloc, sources, faults) {
        Ok(first) => first,
        Err(refusal) => return respond(&Err(refusal), output, faults),
    };
    match files_text(rt, alloc, limits, first, files, shown, observer, faults) {
        Ok(text) => respond(&Ok(Answer::Text(text)), output, faults),
        Err(refusal) => write_refusal(refusal.line().as_bytes(), &refusal, output, faults),
    }
}

/// The policies of the ports' sources, whose files are read.
fn named_batch<R: Files, F: Write>(
    rt: &R,
    alloc: Global,
    sources: &[PolicySource],
    faults: &mut Tried<F>,
) -> Result<Batch, Refusal>
    requires { length sources.now ≤ 16 }
    ensures first { IfOk result (λ first. (texts : List (List ℕ)) × IsFirst sources.now texts first) }
    ensures refused { IfErr result (RefusesPolicies sources.now) }
{
    match texts(rt, alloc, sources, faults) {
        Ok(texts) => first_batch(alloc, sources, &texts, faults),
        Err(refusal) => Err(refusal),
    }
}

/// The lines of a run on what the ports' files hold, or the first refusal.
fn files_text<R: Threads + Wait + Sync + Files, G: Observer, F: Write>(
    rt: &R,
    alloc: Global,
    limits: Limits,
    first: Batch,
    files: &[Option<&str>],
    shown: Shown,
    observer: &G,
    faults: &mut Tried<F>,
) -> Result<Vec<u8>, ForwardRefusal>
where
    R::File: Send,
    requires first { All (λ pair. pair.port < limits.ports) first }
    requires files { length files.now ≡ limits.ports }
    ensures ran { IfOk result (λ text. (found : List Found) × AreFoundOf files.now found
        × IsInputsRun limits first found G.waits shown text.items) }
    ensures refused { IfErr result (RefusesFilesRun limits first files.now) }
{
    let inputs = open_inputs(rt, alloc, files, faults)?;
    let kept = run_files(rt, alloc, limits, first, inputs, observer, faults)?;
    report_octets(alloc, limits, &kept, shown, faults)
}

/// Offers each port the frames of its input, and tells what became of them. The first input that is refused is told before a port
/// that stopped. It may wait.
fn run_files<R: Threads + Wait + Sync, G: Observer, I: Read + Drop + Send, F: Write>(
    rt: &R,
    alloc: Global,
    limits: Limits,
    first: Batch,
    inputs: Vec<PortInput<I>>,
    observer: &G,
    faults: &mut Tried<F>,
) -> Result<Kept, ForwardRefusal>
    requires count { vec_len inputs ≡ limits.ports }
    requires first { All (λ pair. pair.port < limits.ports) first }
    ensures ran { (files : List (Option (Bor (List ℕ)))) → AreNew I.remaining files inputs.entry.items
        → IfOk result (KeepsFiles limits first files G.waits) }
    ensures refused { (files : List (Option (Bor (List ℕ)))) → AreNew I.remaining files inputs.entry.items
        → IfErr result (RefusesFilesRun limits first files) }
{
    observer.begins(known_frames(&inputs));
    let ended = run_over(rt, alloc, limits, first, inputs, observer)?;
    finish_inputs(ended.inputs, faults)?;
    unstopped(alloc, ended.stops, ended.report, ended.outcomes)
}
