//! Worked examples of traces, and readers that fail.

use crate::made::ENGINE_SPEED as R;
use crate::octets::{RUNS, Runs};
use crate::streams::Source;
use gw_frame::{Frame, FrameRefusal};
use gw_trace::{Checked, Share, Trace, TraceRefusal, Tried, frames};
use std::alloc::Global;
use std::process::Abort;
use std::test::Fail;

/// Headers of traces, each with the header of a record of 16 octets: by microseconds and nanoseconds, in both orders.
const HEADERS: [(&[u8], &[u8]); 4] = [
    (
        b"\xD4\xC3\xB2\xA1\x02\0\x04\0\0\0\0\0\0\0\0\0\0\0\x04\0\xE3\0\0\0",
        b"\0\0\0\0\0\0\0\0\x10\0\0\0\x10\0\0\0",
    ),
    (
        b"\x4D\x3C\xB2\xA1\x02\0\x04\0\0\0\0\0\0\0\0\0\0\0\x04\0\xE3\0\0\0",
        b"\0\0\0\0\0\0\0\0\x10\0\0\0\x10\0\0\0",
    ),
    (
        b"\xA1\xB2\xC3\xD4\0\x02\0\x04\0\0\0\0\0\0\0\0\0\x04\0\0\0\0\0\xE3",
        b"\0\0\0\0\0\0\0\0\0\0\0\x10\0\0\0\x10",
    ),
    (
        b"\xA1\xB2\x3C\x4D\0\x02\0\x04\0\0\0\0\0\0\0\0\0\x04\0\0\0\0\0\xE3",
        b"\0\0\0\0\0\0\0\0\0\0\0\x10\0\0\0\x10",
    ),
];

/// What is refused, and the octet that shows it.
type Refused = (&'static [u8], TraceRefusal, usize);

/// Headers: without a magic number, of versions 2.3 and 3.4, of version 2.5 in the other order, and with link type 1.
const BAD_HEADERS: [Refused; 5] = [
    (
        b"\x0A\x0D\x0D\x0A\x02\0\x04\0\0\0\0\0\0\0\0\0\0\0\x04\0\xE3\0\0\0",
        TraceRefusal::BadMagic,
        23,
    ),
    (
        b"\xD4\xC3\xB2\xA1\x02\0\x03\0\0\0\0\0\0\0\0\0\0\0\x04\0\xE3\0\0\0",
        TraceRefusal::BadVersion,
        23,
    ),
    (
        b"\x4D\x3C\xB2\xA1\x03\0\x04\0\0\0\0\0\0\0\0\0\0\0\x04\0\xE3\0\0\0",
        TraceRefusal::BadVersion,
        23,
    ),
    (
        b"\xA1\xB2\xC3\xD4\0\x02\0\x05\0\0\0\0\0\0\0\0\0\x04\0\0\0\0\0\xE3",
        TraceRefusal::BadVersion,
        23,
    ),
    (
        b"\xD4\xC3\xB2\xA1\x02\0\x04\0\0\0\0\0\0\0\0\0\0\0\x04\0\x01\0\0\0",
        TraceRefusal::BadLink,
        23,
    ),
];

/// Record 0 with captured length 17.
const BAD_RECORD: TraceRefusal = TraceRefusal::BadRecord {
    index: 0,
    why: FrameRefusal::TooLong { len: 17 },
};

/// The front of a record, behind the first of the headers above: with captured length 7, 17, 16 and 15, of which the third has
/// payload length 9, and the fourth 8.
const BAD_RECORDS: [Refused; 4] = [
    (
        b"\0\0\0\0\0\0\0\0\x07\0\0\0\x10\0\0\0",
        TraceRefusal::BadRecord {
            index: 0,
            why: FrameRefusal::TooShort { len: 7 },
        },
        39,
    ),
    (b"\0\0\0\0\0\0\0\0\x11\0\0\0\x10\0\0\0", BAD_RECORD, 39),
    (
        b"\0\0\0\0\0\0\0\0\x10\0\0\0\x10\0\0\0\x8C\xF0\x04\0\x09\0\0\0\0\0\0\0\0\0\0\0",
        TraceRefusal::BadRecord {
            index: 0,
            why: FrameRefusal::BadLength { said: 9 },
        },
        55,
    ),
    (
        b"\0\0\0\0\0\0\0\0\x0F\0\0\0\x10\0\0\0\x8C\xF0\x04\0\x08\0\0\0\0\0\0\0\0\0\0",
        TraceRefusal::BadRecord {
            index: 0,
            why: FrameRefusal::PayloadCut { said: 8, there: 7 },
        },
        54,
    ),
];

// A trace of R so many times.
fn trace_of(rt: &impl Abort, alloc: Global, header: &[u8], record: &[u8], times: usize) -> Vec<u8> {
    let mut trace = Vec::from_slice(alloc, header).expect(rt, "memory");
    for _ in 0..times {
        assert!(rt; trace.extend_from_slice(record).is_ok());
        assert!(rt; trace.extend_from_slice(&R).is_ok());
    }
    trace
}

// What `frames` says of these octets: how many there are.
fn read(alloc: Global, mut octets: &[u8]) -> Result<usize, TraceRefusal> {
    match frames(alloc, &mut Tried::new(&mut octets)) {
        Ok(frames) => Ok(frames.len()),
        Err(refusal) => Err(refusal),
    }
}

// What `Checked` says of these octets: how many there are.
fn check(octets: &[u8]) -> Result<usize, TraceRefusal> {
    match Checked::new(octets) {
        Ok(checked) => Ok(checked.len()),
        Err(refusal) => Err(refusal),
    }
}

// How many frames a share has.
fn count(share: Share<'_>) -> usize {
    let mut count: usize = 0;
    for _frame in share {
        count = count.saturating_add(1);
    }
    count
}

// Whether both say this of octets.
fn is_read(alloc: Global, octets: &[u8], wanted: Result<usize, TraceRefusal>) -> bool {
    read(alloc, octets) == wanted && check(octets) == wanted
}

// Whether each frame is R.
fn are_r(frames: &[Frame]) -> bool {
    for frame in frames {
        if frame.bytes() != R.as_slice() {
            return false;
        }
    }
    true
}

/// A trace of one frame that is fed octet by octet gives it with its last octet.
fn assert_fed(rt: &impl Abort, alloc: Global, octets: &[u8]) {
    let mut trace = Trace::new();
    for i in 0..octets.len() {
        let given = trace.feed(alloc, &[octets[i]]).expect(rt, "frames");
        assert!(rt; given.len() == usize::from(i == 55), "octet {i}");
        assert!(rt; are_r(&given));
    }
    assert!(rt; trace.end().is_ok());
}

/// Of a trace of one frame the first of two shares has it, and the second none.
fn assert_shared(rt: &impl Abort, octets: &[u8]) {
    let checked = Checked::new(octets).expect(rt, "a trace");
    for frame in checked.share(0, 2) {
        assert!(rt; frame.bytes() == R.as_slice());
    }
    assert!(rt; count(checked.share(0, 2)) == 1);
    assert!(rt; count(checked.share(1, 2)) == 0);
}

#[test]
fn traces_of_four_magics(rt: HostRuntime) {
    for (header, record) in HEADERS {
        let octets = trace_of(&rt, rt.alloc(), header, record, 1);
        assert!(rt; is_read(rt.alloc(), &octets, Ok(1)));
        assert_fed(&rt, rt.alloc(), &octets);
        assert_shared(&rt, &octets);
    }
}

#[test]
fn refused_traces(rt: HostRuntime) {
    let (header, record) = HEADERS[0];
    let octets = trace_of(&rt, rt.alloc(), header, record, 1);
    for len in 0..=octets.len() {
        let wanted = match len {
            24 => Ok(0),
            56 => Ok(1),
            _ => Err(TraceRefusal::Cut),
        };
        assert!(rt;
            is_read(rt.alloc(), &octets[..len], wanted),
            "the first {len}"
        );
    }
}

/// Octets are refused so as a whole, and from an octet on where they are fed one by one.
fn assert_refused_from(
    rt: &impl Abort,
    alloc: Global,
    octets: &[u8],
    from: usize,
    refusal: TraceRefusal,
) {
    assert!(rt; is_read(alloc, octets, Err(refusal)));
    assert!(rt; Trace::new().feed(alloc, octets).err() == Some(refusal));
    let mut trace = Trace::new();
    for i in 0..octets.len() {
        let given = trace.feed(alloc, &[octets[i]]);
        assert!(rt;
            given.err() == (i >= from).then_some(refusal),
            "at octet {i}"
        );
    }
    assert!(rt; trace.end() == Err(refusal));
}

#[test]
fn bad_headers(rt: HostRuntime) {
    let (_, record) = HEADERS[0];
    for (header, refusal, from) in BAD_HEADERS {
        let octets = trace_of(&rt, rt.alloc(), header, record, 1);
        assert_refused_from(&rt, rt.alloc(), &octets, from, refusal);
    }
}

#[test]
fn bad_records(rt: HostRuntime) {
    let (header, _) = HEADERS[0];
    for (record, refusal, from) in BAD_RECORDS {
        let mut octets = Vec::from_slice(rt.alloc(), header).expect(&rt, "memory");
        assert!(rt; octets.extend_from_slice(record).is_ok());
        assert_refused_from(&rt, rt.alloc(), &octets, from, refusal);
    }
}

#[test]
fn what_is_told_of_a_bad_record(rt: HostRuntime) -> Result<(), Fail> {
    assert!(rt; BAD_RECORD.number() == 93);
    assert!(rt; FrameRefusal::TooLong { len: 17 }.number() == 2);
    let text = format!(in rt.alloc(); "{BAD_RECORD}")?;
    let wanted = "record 0 of the trace, counted from 0, is no frame: ";
    assert!(rt; text.starts_with(wanted));
    Ok(())
}

/// The frames of a whole trace that is fed in two pieces.
fn fed_in_two(rt: &impl Abort, alloc: Global, first: &[u8], second: &[u8]) -> Vec<Frame> {
    let mut trace = Trace::new();
    let mut given = trace.feed(alloc, first).expect(rt, "frames");
    let mut more = trace.feed(alloc, second).expect(rt, "frames");
    assert!(rt; given.append(&mut more).is_ok());
    assert!(rt; trace.end().is_ok());
    given
}

#[test]
fn three_frames_in_two_pieces(rt: HostRuntime) {
    let (header, record) = HEADERS[2];
    let octets = trace_of(&rt, rt.alloc(), header, record, 3);
    for at in 0..=octets.len() {
        let (first, second) = octets.split_at(at);
        let given = fed_in_two(&rt, rt.alloc(), first, second);
        assert!(rt; given.len() == 3, "divided at {at}");
        assert!(rt; are_r(&given));
    }
}

#[test]
fn readers_that_fail(rt: HostRuntime) {
    let (header, record) = HEADERS[0];
    let octets = trace_of(&rt, rt.alloc(), header, record, 1);
    for left in 0..=octets.len() {
        let mut reader = Tried::new(Source::breaking(octets.as_slice(), left));
        let refusal = frames(rt.alloc(), &mut reader);
        assert!(rt;
            refusal.is_err_and(|e| e == TraceRefusal::ReadFault),
            "after {left} octets"
        );
        assert!(rt; reader.failed());
    }
}

#[test]
fn broken_input(rt: HostRuntime) {
    let mut runs = Runs::new();
    for number in 0..RUNS {
        assert!(rt; read(rt.alloc(), runs.next()).is_err(), "run {number}");
    }
    assert!(rt; runs.left() == 0);
}
