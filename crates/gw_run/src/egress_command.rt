//! The command `judge` on a log of several interfaces: what leaves at each.

ghost use Rattle.std.specs.Prelude.{◌≡◌, ◌≤◌, ◌∷◌, [], ℕ, List, Option, length, map, false};
ghost use Rattle.std.specs.Io.KnownBytes.{Consumes};
ghost use Rattle.gw_io.specs.Tries.{inner_of, has_failed};
ghost use Rattle.gw_policy.specs.Batches.{Pair, StandsAfter};
ghost use Rattle.gw_run.specs.Egress.{EndsEgress, WritesEgressNamed, WritesEgressOf, WritesEgressUnder, EndsLogEgress};

use crate::files::texts;
use crate::first::first_batch;
use crate::log_notes::LogNotes;
use crate::notes::{note_no_lines, note_no_log};
use gw_answers::{PolicySource, Refusal, respond};
use gw_io::{ReadFault, Tried};
use gw_judge::{FirstOctets, Gateway, Head, JudgeFault, NamedInterface, write_egress};
use gw_policy::{Batch, PolicySet};
use std::alloc::{AllocError, Global};
use std::io::{Read, Write};
use std::rt::Files;

/// Reads the files that the ports' sources name, and writes what leaves of a log under their policies: see `write_egress_under`.
/// Refused are a file that cannot be read, 96, or that has more than 1048576 octets, 98, and then what is no policy; a person is
/// told which.
pub fn egress_named<R: Files, I: Read, W: Write, F: Write>(
    rt: &R,
    alloc: Global,
    sources: &[PolicySource],
    names: &[NamedInterface],
    input: &mut Tried<I>,
    output: &mut Tried<W>,
    faults: &mut Tried<F>,
) -> u8
    requires few { length sources.now ≤ 16 }
    requires input { has_failed input.old ≡ false }
    requires output { has_failed output.old ≡ false }
    ensures { WritesEgressNamed names.now sources.now
        (I.remaining (inner_of input.old)) (I.remaining (inner_of input.new)) (has_failed input.new)
        (W.contents (inner_of output.old)) (W.contents (inner_of output.new)) (has_failed output.new) result }
{
    match texts(rt, alloc, sources, faults) {
        Ok(texts) => egress_of(
            alloc,
            sources,
            texts.as_slice(),
            names,
            input,
            output,
            faults,
        ),
        Err(refusal) => respond(&Err(refusal), output, faults),
    }
}

/// Writes what leaves of a log under the policies of the ports' sources.
fn egress_of<I: Read, W: Write, F: Write>(
    alloc: Global,
    sources: &[PolicySource],
    texts: &[Vec<u8>],
    names: &[NamedInterface],
    input: &mut Tried<I>,
    output: &mut Tried<W>,
    faults: &mut Tried<F>,
) -> u8
    requires few { length sources.now ≤ 16 }
    requires texts { length texts.now ≡ length sources.now }
    requires input { has_failed input.old ≡ false }
    requires output { has_failed output.old ≡ false }
    ensures { WritesEgressOf names.now sources.now (map (λ text. text.items) texts.now)
        (I.remaining (inner_of input.old)) (I.remaining (inner_of input.new)) (has_failed input.new)
        (W.contents (inner_of output.old)) (W.contents (inner_of output.new)) (has_failed output.new) result }
{
    match first_batch(alloc, sources, texts, faults) {
        Ok(first) => write_egress_under(&first, names, input, output, faults),
        Err(refusal) => respond(&Err(refusal), output, faults),
    }
}

/// Writes for each frame of a log, in the log's order, a line for each interface at which it leaves under the policies of a
/// batch: see `write_egress` of gw_judge. An interface belongs to the port that it is named for. A failed read or write ends it
/// with status 1, and a person is told. An input that begins with a magic number of classic pcap has no interfaces: nothing is
/// written, and the status is 1. 100 is want of memory, before the input is read.
pub fn write_egress_under<I: Read, W: Write, F: Write>(
    first: &Batch,
    names: &[NamedInterface],
    input: &mut Tried<I>,
    output: &mut Tried<W>,
    faults: &mut Tried<F>,
) -> u8
    requires input { has_failed input.old ≡ false }
    requires output { has_failed output.old ≡ false }
    ensures { WritesEgressUnder names.now first.now
        (I.remaining (inner_of input.old)) (I.remaining (inner_of input.new)) (has_failed input.new)
        (W.contents (inner_of output.old)) (W.contents (inner_of output.new)) (has_failed output.new) result }
{
    let mut policies = PolicySet::new();
    match policies.absorb(first) {
        Ok(()) => {
            let gateway = Gateway {
                names,
                policies: &policies,
            };
            input_egress(&gateway, input, output, faults)
        }
        Err(AllocError) => respond(&Err(Refusal::OutOfMemory), output, faults),
    }
}

/// Writes what leaves of an input, of which the first octets tell a capture from a log.
fn input_egress<I: Read, W: Write, F: Write>(
    gateway: &Gateway,
    input: &mut Tried<I>,
    output: &mut Tried<W>,
    faults: &mut Tried<F>,
) -> u8
    requires input { has_failed input.old ≡ false }
    requires output { has_failed output.old ≡ false }
    ensures { (batches : List (List Pair)) → StandsAfter gateway.now.policies.now batches
        → EndsEgress gateway.now.names.now batches
        (I.remaining (inner_of input.old)) (I.remaining (inner_of input.new)) (has_failed input.new)
        (W.contents (inner_of output.old)) (W.contents (inner_of output.new)) (has_failed output.new) result }
{
    match FirstOctets::read(input) {
        Ok(first) => {
            if first.is_capture() {
                note_no_lines(faults);
                1
            } else {
                log_egress(gateway, first.octets(), input, output, faults)
            }
        }
        Err(ReadFault) => {
            let _ = writeln!(faults, "gw: {}", JudgeFault::ReadFault);
            1
        }
    }
}

/// Writes what leaves of a log, of which these first octets were read before.
fn log_egress<I: Read, W: Write, F: Write>(
    gateway: &Gateway,
    first: &[u8],
    input: &mut Tried<I>,
    output: &mut Tried<W>,
    faults: &mut Tried<F>,
) -> u8
    requires input { has_failed input.old ≡ false }
    requires output { has_failed output.old ≡ false }
    requires first { length first.now ≤ 4 }
    ensures { (batches : List (List Pair)) (before : Option (List ℕ)) → StandsAfter gateway.now.policies.now batches
        → Consumes before (I.remaining (inner_of input.old)) first.now
        → EndsLogEgress gateway.now.names.now batches before (I.remaining (inner_of input.new)) (has_failed input.new)
        (W.contents (inner_of output.old)) (W.contents (inner_of output.new)) (has_failed output.new) result }
{
    let mut notes = LogNotes::new();
    let mut head = Head::new();
    let ended = write_egress(gateway, first, &mut notes, &mut head, input, output);
    note_no_log(&head, faults);
    match ended {
        Ok(()) => {
            notes.tell(faults);
            0
        }
        Err(fault) => {
            let _ = writeln!(faults, "gw: {fault}");
            1
        }
    }
}
