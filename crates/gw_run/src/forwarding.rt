//! From the octets of an input to the lines of a run.

ghost use Rattle.std.specs.Prelude.{◌≡◌, ◌<◌, ◌⊎◌, ℕ, List, length, map, false, IfOk, IfErr, All};
ghost use Rattle.gw_io.specs.Tries.{inner_of, has_failed, reads_of, unended_reads};
ghost use Rattle.gw_run.specs.Forwarding.{
  Forwards,
  IsForwarded,
  IsForwardRefusal,
  IsTraceFault,
  IsTraceInput,
  IsTraceRun,
  KeepsInput,
  KeepsRun,
  LogRuns,
  RefusesLog,
  RefusesTrace,
  report_text,
};
ghost use Rattle.gw_answers.specs.declared.refusal.Refusal.TheVariants.{OutOfMemory};
ghost use Rattle.gw_run.specs.declared.refusal.ForwardRefusal.TheVariants.{Command};

use crate::dealt_run::run_dealt;
use crate::first::first_batch;
use crate::kept::Kept;
use crate::lines::{Shown, report_text};
use crate::log::{named_lists, no_log};
use crate::log_notes::LogNotes;
use crate::notes::note_lost;
use crate::observing::Observer;
use crate::octets::read_whole;
use crate::refusal::ForwardRefusal;
use crate::running::{frame_count, run_lists};
use crate::taking::Taking;
use gw_answers::{Answer, PolicySource, Refusal, respond, write_refusal};
use gw_io::Tried;
use gw_judge::NamedInterface;
use gw_ledger::Limits;
use gw_policy::Batch;
use std::alloc::{AllocError, Global};
use std::io::{Read, Write};
use std::marker::Sync;
use std::sync::Wait;
use std::thread::Threads;

/// Reads an input, forwards the frames that each port takes of it, under the policies of the ports' sources, and writes what each
/// port counted, and behind it the lines that are `shown`. `texts` has what the files of the sources hold, port by port. It may
/// wait.
pub fn forward<R: Threads + Wait + Sync, G: Observer, I: Read, W: Write, F: Write>(
    rt: &R,
    alloc: Global,
    limits: Limits,
    sources: &[PolicySource],
    texts: &[Vec<u8>],
    taking: &Taking,
    shown: Shown,
    observer: &G,
    input: &mut Tried<I>,
    output: &mut Tried<W>,
    faults: &mut Tried<F>,
) -> u8
    requires sources { length sources.now ≡ limits.ports }
    requires texts { length texts.now ≡ limits.ports }
    requires unread { reads_of input.old ≡ 0 }
    requires input { has_failed input.old ≡ false }
    requires output { has_failed output.old ≡ false }
    ensures { Forwards taking.now limits sources.now (map (λ text. text.items) texts.now) G.waits shown
        (I.remaining (inner_of input.old)) (I.remaining (inner_of input.new))
        (has_failed input.new) (unended_reads input.old input.new)
        (W.contents (inner_of output.old)) (W.contents (inner_of output.new)) (has_failed output.new) result }
{
    let found = forwarded(
        rt, alloc, limits, sources, texts, taking, shown, observer, input, faults,
    );
    match found {
        Ok(text) => respond(&Ok(Answer::Text(text)), output, faults),
        Err(refusal) => write_refusal(refusal.line().as_bytes(), &refusal, output, faults),
    }
}

/// The lines of an input's run under the policies of the sources, or the first refusal.
fn forwarded<R: Threads + Wait + Sync, G: Observer, I: Read, F: Write>(
    rt: &R,
    alloc: Global,
    limits: Limits,
    sources: &[PolicySource],
    texts: &[Vec<u8>],
    taking: &Taking,
    shown: Shown,
    observer: &G,
    input: &mut Tried<I>,
    faults: &mut Tried<F>,
) -> Result<Vec<u8>, ForwardRefusal>
    requires sources { length sources.now ≡ limits.ports }
    requires texts { length texts.now ≡ limits.ports }
    requires unread { reads_of input.old ≡ 0 }
    requires input { has_failed input.old ≡ false }
    ensures forwarded { IfOk result (λ text. IsForwarded taking.now limits sources.now (map (λ text. text.items) texts.now)
        G.waits shown (I.remaining (inner_of input.old)) (I.remaining (inner_of input.new)) (has_failed input.new) text.items) }
    ensures refused { IfErr result (IsForwardRefusal taking.now limits sources.now (map (λ text. text.items) texts.now)
        (I.remaining (inner_of input.old)) (I.remaining (inner_of input.new))
        (has_failed input.new) (unended_reads input.old input.new)) }
{
    match first_batch(alloc, sources, texts, faults) {
        Ok(first) => run_input(
            rt, alloc, limits, first, taking, shown, observer, input, faults,
        ),
        Err(refusal) => Err(ForwardRefusal::Command(refusal)),
    }
}

/// The lines of the run of an input that is read, or its first refusal. The run begins with this batch.
fn run_input<R: Threads + Wait + Sync, G: Observer, I: Read, F: Write>(
    rt: &R,
    alloc: Global,
    limits: Limits,
    first: Batch,
    taking: &Taking,
    shown: Shown,
    observer: &G,
    input: &mut Tried<I>,
    faults: &mut Tried<F>,
) -> Result<Vec<u8>, ForwardRefusal>
    requires ports { All (λ pair. pair.port < limits.ports) first }
    requires unread { reads_of input.old ≡ 0 }
    requires input { has_failed input.old ≡ false }
    ensures ran { IfOk result (λ text. IsTraceRun taking.now limits first G.waits shown
        (I.remaining (inner_of input.old)) (I.remaining (inner_of input.new)) (has_failed input.new) text.items) }
    ensures refused { IfErr result (RefusesTrace taking.now limits first
        (I.remaining (inner_of input.old)) (I.remaining (inner_of input.new))
        (has_failed input.new) (unended_reads input.old input.new)) }
{
    match run_taken(rt, alloc, limits, first, taking, observer, input, faults) {
        Ok(kept) => report_octets(alloc, limits, &kept, shown, faults),
        Err(refusal) => Err(refusal),
    }
}

/// The run on what the ports take of an input, or its first refusal. A trace is read while it is forwarded, and a log before.
fn run_taken<R: Threads + Wait + Sync, G: Observer, I: Read, F: Write>(
    rt: &R,
    alloc: Global,
    limits: Limits,
    first: Batch,
    taking: &Taking,
    observer: &G,
    input: &mut Tried<I>,
    faults: &mut Tried<F>,
) -> Result<Kept, ForwardRefusal>
    requires ports { All (λ pair. pair.port < limits.ports) first }
    requires unread { reads_of input.old ≡ 0 }
    requires input { has_failed input.old ≡ false }
    ensures ran { IfOk result (KeepsInput taking.now limits first G.waits
        (I.remaining (inner_of input.old)) (I.remaining (inner_of input.new)) (has_failed input.new)) }
    ensures refused { IfErr result (RefusesTrace taking.now limits first
        (I.remaining (inner_of input.old)) (I.remaining (inner_of input.new))
        (has_failed input.new) (unended_reads input.old input.new)) }
{
    match taking {
        Taking::InTurn => run_dealt(rt, alloc, limits, first, observer, input, faults),
        Taking::ByInterface(names) => {
            run_named(rt, alloc, limits, first, names, observer, input, faults)
        }
    }
}

/// The run on a log that is read, or its first refusal.
fn run_named<R: Threads + Wait + Sync, G: Observer, I: Read, F: Write>(
    rt: &R,
    alloc: Global,
    limits: Limits,
    first: Batch,
    names: &[NamedInterface],
    observer: &G,
    input: &mut Tried<I>,
    faults: &mut Tried<F>,
) -> Result<Kept, ForwardRefusal>
    requires ports { All (λ pair. pair.port < limits.ports) first }
    requires unread { reads_of input.old ≡ 0 }
    requires input { has_failed input.old ≡ false }
    ensures ran { IfOk result (λ kept. (octets : List ℕ)
        × IsTraceInput (I.remaining (inner_of input.old)) (I.remaining (inner_of input.new)) (has_failed input.new) octets
        × KeepsRun limits.ports (LogRuns names.now limits first octets) G.waits kept) }
    ensures refused { IfErr result (λ refusal. IsTraceFault (has_failed input.new) (unended_reads input.old input.new) refusal
        ⊎ ((octets : List ℕ)
        × IsTraceInput (I.remaining (inner_of input.old)) (I.remaining (inner_of input.new)) (has_failed input.new) octets
        × RefusesLog names.now limits first octets refusal)) }
{
    match read_whole(alloc, input) {
        Ok(octets) => run_log(
            rt,
            alloc,
            limits,
            first,
            names,
            observer,
            octets.as_slice(),
            faults,
        ),
        Err(refusal) => Err(refusal),
    }
}

/// The text of a run of which this was kept. A person is told of copies that were lost.
pub(crate) fn report_octets<F: Write>(
    alloc: Global,
    limits: Limits,
    kept: &Kept,
    shown: Shown,
    faults: &mut Tried<F>,
) -> Result<Vec<u8>, ForwardRefusal>
    ensures lines { IfOk result (λ text. text.items
        ≡ report_text limits.ports shown kept.now.ledgers.items kept.now.lanes.items) }
    ensures refused { IfErr result (λ refusal. refusal ≡ Command OutOfMemory) }
{
    note_lost(&kept.ledgers, faults);
    match report_text(alloc, limits.ports() as u8, kept, shown) {
        Ok(text) => Ok(text.into_bytes()),
        Err(AllocError) => Err(ForwardRefusal::Command(Refusal::OutOfMemory)),
    }
}

/// The run of a log's octets, or their first refusal. A person is told of lines that no port takes.
fn run_log<R: Threads + Wait + Sync, G: Observer, F: Write>(
    rt: &R,
    alloc: Global,
    limits: Limits,
    first: Batch,
    names: &[NamedInterface],
    observer: &G,
    octets: &[u8],
    faults: &mut Tried<F>,
) -> Result<Kept, ForwardRefusal>
    requires { All (λ pair. pair.port < limits.ports) first }
    ensures ran { IfOk result (KeepsRun limits.ports (LogRuns names.now limits first octets.now) G.waits) }
    ensures refused { IfErr result (RefusesLog names.now limits first octets.now) }
{
    if let Some(why) = no_log(octets) {
        return Err(ForwardRefusal::NoLog(why));
    }
    let mut notes = LogNotes::new();
    let ports = limits.ports() as usize;
    let Ok(lists) = named_lists(alloc, names, ports, octets, &mut notes) else {
        return Err(ForwardRefusal::Command(Refusal::OutOfMemory));
    };
    observer.begins(Some(frame_count(lists.as_slice())));
    let ran = run_lists(rt, alloc, limits, first, lists, observer);
    notes.tell(faults);
    ran
}
