//! What the ports take their frames from, opened before a run and finished behind it.

ghost use Rattle.std.specs.Prelude.{◌≡◌, ◌⊎◌, ◌<◌, ℕ, length, List, [], Option, Some, None, Ok, false, IfOk, IfErr, OnOk};
ghost use Rattle.std.specs.Borrow.{Bor};
ghost use Rattle.std.specs.Io.KnownBytes.{IsAtEnd};
ghost use Rattle.gw_io.specs.Tries.{has_failed, inner_of};
ghost use Rattle.gw_answers.specs.declared.refusal.Refusal.TheVariants.{OutOfMemory, ReadFault};
ghost use Rattle.gw_run.specs.Logs.{no_log};
ghost use Rattle.gw_run.specs.PortInputs.{AreFinished, AreKnown, AreNew, HasGiven, IsOpened, IsReadOn, Known, RefusesFile};
ghost use Rattle.gw_run.specs.PortInputs.{RefusesFiles, RefusesFinished, frames_in};
ghost use Rattle.gw_run.specs.declared.refusal.ForwardRefusal.TheVariants.{Command};

use crate::log::{log_frames, no_log};
use crate::log_notes::LogNotes;
use crate::notes::note_input;
use crate::octets::read_rest;
use crate::port_input::{PortFile, PortInput, trace_refusal};
use crate::refusal::ForwardRefusal;
use gw_answers::{Refusal, note_unread};
use gw_frame::Frame;
use gw_io::Tried;
use gw_judge::{FirstOctets, NoLog};
use gw_trace::TraceFrames;
use std::alloc::Global;
use std::fs;
use std::io::{Read, Write};
use std::rt::Files;

/// By port, what it takes its frames from; or the first refusal of a file. A person is told which port's file that is.
pub(crate) fn open_inputs<'a, R: Files, F: Write>(
    rt: &R,
    alloc: Global,
    files: &[Option<&'a str>],
    faults: &mut Tried<F>,
) -> Result<Vec<PortInput<'a, R::File>>, ForwardRefusal>
    ensures inputs { IfOk result (λ inputs. AreNew R.File.remaining files.now inputs.items) }
    ensures refused { IfErr result (RefusesFiles files.now) }
{
    let mut inputs = Vec::new(alloc);
    for port in 0..files.len() {
        match open_input(rt, alloc, port, files[port], faults) {
            Ok(input) => inputs.push(input)?,
            Err(refusal) => {
                // A trace of a port before may be refused, and is told first.
                finish_inputs(inputs, faults)?;
                if let Some(file) = files[port] {
                    note_input(port, file, faults);
                }
                return Err(refusal);
            }
        }
    }
    Ok(inputs)
}

/// Reads each input on to its end, or up to the first that is refused.
pub(crate) fn finish_inputs<R: Read + Drop, F: Write>(
    inputs: Vec<PortInput<R>>,
    faults: &mut Tried<F>,
) -> Result<(), ForwardRefusal>
    ensures finished { (known : List Known) → AreKnown R.remaining known inputs.entry.items
        → OnOk result (AreFinished known inputs.entry.items) }
    ensures refused { (known : List Known) → AreKnown R.remaining known inputs.entry.items
        → IfErr result (RefusesFinished known inputs.entry.items) }
{
    for input in inputs {
        input.finish(faults)?;
    }
    Ok(())
}

/// What a port takes its frames from, of which none is taken yet.
fn open_input<'a, R: Files, F: Write>(
    rt: &R,
    alloc: Global,
    port: usize,
    file: Option<&'a str>,
    faults: &mut Tried<F>,
) -> Result<PortInput<'a, R::File>, ForwardRefusal>
    ensures input { IfOk result (HasGiven R.File.remaining file.entry []) }
    ensures refused { IfErr result (RefusesFile file.entry) }
{
    let Some(file) = file else {
        return Ok(PortInput::Listed(Vec::new(alloc).into_iter()));
    };
    match fs::open(rt, file) {
        Ok(opened) => read_input(alloc, PortFile { port, file }, Tried::new(opened), faults),
        Err(why) => {
            note_unread(file, &why, faults);
            Err(ForwardRefusal::Command(Refusal::ReadFault))
        }
    }
}

/// What a port takes its frames from, where its file is open: a log is read, and of a trace what stands in front.
fn read_input<'a, R: Read + Drop, F: Write>(
    alloc: Global,
    named: PortFile<'a>,
    reader: Tried<R>,
    faults: &mut Tried<F>,
) -> Result<PortInput<'a, R>, ForwardRefusal>
    requires { has_failed reader ≡ false }
    ensures input { IfOk result (IsOpened R.remaining (R.remaining (inner_of reader))) }
    ensures refused { (file : Bor (List ℕ)) → IfErr result (RefusesFile (Some file)) }
{
    let mut reader = reader;
    let Ok(first) = FirstOctets::read(&mut reader) else {
        return Err(unread(named, &reader, faults));
    };
    let front = first.octets();
    match no_log(front) {
        Some(NoLog::Pcap) => {
            let mut frames = match TraceFrames::new(alloc, front, reader) {
                Ok(frames) => frames,
                Err(why) => return Err(trace_refusal(why)),
            };
            frames.read_ahead();
            Ok(PortInput::Streamed(named, frames))
        }
        Some(NoLog::PcapNg) => Err(ForwardRefusal::NoLog(NoLog::PcapNg)),
        Some(NoLog::Gzip) => Err(ForwardRefusal::NoLog(NoLog::Gzip)),
        None => {
            let frames = read_log(alloc, named, front, reader, faults)?;
            Ok(PortInput::Listed(frames.into_iter()))
        }
    }
}

/// The frames of a log of which these octets were read. A person is told of its lines that say no classic frame.
fn read_log<R: Read + Drop, F: Write>(
    alloc: Global,
    named: PortFile,
    first: &[u8],
    reader: Tried<R>,
    faults: &mut Tried<F>,
) -> Result<Vec<Frame>, ForwardRefusal>
    requires whole { has_failed reader ≡ false }
    requires log { no_log first.now ≡ None }
    requires all { length first.now < 4 → IsAtEnd (R.remaining (inner_of reader)) }
    ensures frames { IfOk result (λ frames. (octets : List ℕ)
        × IsReadOn (R.remaining (inner_of reader)) first.now octets × (frames_in octets ≡ Ok frames.items)) }
    ensures refused { IfErr result (λ refusal. (refusal ≡ Command ReadFault) ⊎ (refusal ≡ Command OutOfMemory)) }
{
    let octets = log_octets(alloc, named, first, reader, faults)?;
    let mut notes = LogNotes::new();
    let frames = log_frames(alloc, octets.as_slice(), &mut notes)?;
    notes.tell_of(named.port, named.file, faults);
    Ok(frames)
}

/// The octets of a log of which these were read, which are all where there are fewer than four.
fn log_octets<R: Read + Drop, F: Write>(
    alloc: Global,
    named: PortFile,
    first: &[u8],
    reader: Tried<R>,
    faults: &mut Tried<F>,
) -> Result<Vec<u8>, ForwardRefusal>
    requires whole { has_failed reader ≡ false }
    requires log { no_log first.now ≡ None }
    requires all { length first.now < 4 → IsAtEnd (R.remaining (inner_of reader)) }
    ensures octets { IfOk result (λ octets. IsReadOn (R.remaining (inner_of reader)) first.now octets.items) }
    ensures log { IfOk result (λ octets. no_log octets.items ≡ None) }
    ensures refused { IfErr result (λ refusal. (refusal ≡ Command ReadFault) ⊎ (refusal ≡ Command OutOfMemory)) }
{
    let mut reader = reader;
    let mut octets = Vec::new(alloc);
    octets.extend_from_slice(first)?;
    if first.len() < 4 {
        return Ok(octets);
    }
    match read_rest(&mut octets, &mut reader) {
        Ok(()) => Ok(octets),
        Err(ForwardRefusal::Trace(_)) => Err(unread(named, &reader, faults)),
        Err(_) => Err(ForwardRefusal::Command(Refusal::OutOfMemory)),
    }
}

/// What refuses a file that could not be read. A person is told by which error.
fn unread<R, F: Write>(named: PortFile, reader: &Tried<R>, faults: &mut Tried<F>) -> ForwardRefusal
    ensures { result ≡ Command ReadFault }
{
    if let Some(why) = reader.error() {
        note_unread(named.file, &why, faults);
    }
    ForwardRefusal::Command(Refusal::ReadFault)
}

/// How many frames the inputs have, where that is known before they are read.
pub(crate) fn known_frames<R>(inputs: &[PortInput<R>]) -> Option<usize> {
    let mut frames = 0usize;
    for input in inputs {
        match input {
            PortInput::Listed(list) => frames = frames.saturating_add(list.len()),
            PortInput::Streamed(_, _) => return None,
        }
    }
    Some(frames)
}
