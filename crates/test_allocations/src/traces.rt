//! The calls that read traces.

use crate::answer::Answer;
use crate::fault::Fault;
use crate::inputs::{ready, say_ready};
use gw_trace::{Trace, TraceRefusal, Tried, frames};
use std::alloc::Global;
use std::io::Write;

/// A trace of two frames, EEC1 (PGN 61444) of an engine and a request to it (PGN 59904), as a machine of high octets first
/// writes it.
const TRACE: [u8; 80] = [
    0xA1, 0xB2, 0xC3, 0xD4, 0, 2, 0, 4, 0, 0, 0, 0, 0, 0, 0, 0, 0, 0, 0, 16, 0, 0, 0, 227, //
    0, 0, 0, 0, 0, 0, 0, 0, 0, 0, 0, 16, 0, 0, 0, 16, //
    0x8C, 0xF0, 0x04, 0x00, 8, 0, 0, 0, 255, 255, 255, 255, 255, 255, 255, 255, //
    0, 0, 0, 0, 0, 0, 0, 1, 0, 0, 0, 8, 0, 0, 0, 8, //
    0x98, 0xEA, 0x00, 0xF9, 0, 0, 0, 0,
];

/// Feeds what stands behind the beginning of the first record, and feeds it again where it is refused.
pub fn make_feed<W: Write>(alloc: Global, output: &mut W) -> Result<Answer, Fault> {
    let (beginning, piece) = TRACE.split_at(30);
    match ready(output, begun(alloc, beginning)) {
        Ok(mut trace) => Ok(feed(alloc, &mut trace, piece)),
        Err(fault) => Err(fault),
    }
}

/// Feeds a piece, and feeds it again where it is refused for want of memory.
fn feed(alloc: Global, trace: &mut Trace, piece: &[u8]) -> Answer {
    match trace.feed(alloc, piece) {
        Ok(frames) => Answer::count(frames.len(), " frames"),
        Err(TraceRefusal::OutOfMemory) => feed_again(alloc, trace, piece),
        Err(why) => Answer::refused(why.number()),
    }
}

/// Feeds a piece that was refused for want of memory.
fn feed_again(alloc: Global, trace: &mut Trace, piece: &[u8]) -> Answer {
    match trace.feed(alloc, piece) {
        Ok(frames) => Answer::Number("refused 94, fed again ", frames.len() as u64, " frames"),
        Err(why) => Answer::refused(why.number()),
    }
}

/// A trace that was fed its beginning.
fn begun(alloc: Global, beginning: &[u8]) -> Result<Trace, Fault> {
    let mut trace = Trace::new();
    match trace.feed(alloc, beginning) {
        Ok(_) => Ok(trace),
        Err(_) => Err(Fault::Unprepared),
    }
}

pub fn make_frames<W: Write>(alloc: Global, output: &mut W) -> Result<Answer, Fault> {
    match say_ready(output) {
        Ok(()) => Ok(count_frames(alloc)),
        Err(fault) => Err(fault),
    }
}

/// How many frames the trace has.
fn count_frames(alloc: Global) -> Answer {
    let octets: &[u8] = &TRACE;
    let mut reader = Tried::new(octets);
    match frames(alloc, &mut reader) {
        Ok(frames) => Answer::count(frames.len(), " frames"),
        Err(why) => Answer::refused(why.number()),
    }
}
