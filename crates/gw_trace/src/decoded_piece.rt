//! What a piece adds to a trace.

ghost use Rattle.std.specs.Prelude.{◌≡◌, ◌≤◌, ◌<◌, ◌+◌, [], ◌++◌, length, None, Some, vec_len, vec_capacity};
ghost use Rattle.gw_trace.specs.declared.record.Beginning.TheVariants.{Unfinished};
ghost use Rattle.gw_trace.specs.Traces.{beginning, contents, reading, reading_from};
ghost use Rattle.gw_trace.specs.Progress.{kept_after};
ghost use Rattle.gw_trace.specs.Scans.{found};
ghost use Rattle.gw_trace.specs.DecodedPieces.{frames_in, refusal_in, IsDecoded};

use crate::byte_order::{Endian, HEADER};
use crate::checked::Checked;
use crate::partial::{MAX_PARTIAL, Partial};
use crate::record::{Beginning, RECORD_HEADER, begins, frame_in};
use crate::refusal::TraceRefusal;
use crate::scan::Scan;
use crate::trace::Trace;
use crate::{byte_order, scan};
use gw_frame::Frame;

/// What a piece of a trace says: the frame of the record that it completes, the records that stand whole in it, and the
/// trace afterwards.
#[derive(Drop)]
pub struct DecodedPiece<'a> {
    pub first: Option<Frame>,
    pub others: Checked<'a>,
    pub next: Trace,
}

impl<'a> DecodedPiece<'a> {
    // A piece that gives no frame.
    pub fn nothing(next: Trace) -> DecodedPiece<'a>
        ensures first { result.first ≡ None }
        ensures others { result.others ≡ [] }
        ensures next { result.next ≡ next }
    {
        DecodedPiece {
            first: None,
            others: Checked {
                order: Endian::Big,
                records: &[],
                len: 0,
            },
            next,
        }
    }

    /// How many frames there are.
    pub fn len(&self) -> usize
        ensures { result ≡ length (frames_in self.now) }
    {
        let others = self.others.len();
        match self.first {
            Some(_) => others + 1,
            None => others,
        }
    }

    /// Appends the frames to a vector that has room for them. Returns the trace afterwards.
    pub fn give(self, frames: &mut Vec<Frame>) -> Trace
        requires { vec_len frames.old + length (frames_in self) ≤ vec_capacity frames.old }
        ensures frames { frames.new.items ≡ frames.old.items ++ frames_in self.entry }
        ensures next { result ≡ self.entry.next }
    {
        if let Some(frame) = self.first {
            frames.push_reserved(frame);
        }
        self.others.append_to(frames);
        self.next
    }

    /// Returns the fault, if no frame stands before it.
    pub fn refusal(&self) -> Option<TraceRefusal>
        ensures { result ≡ refusal_in (frames_in self.now) self.now.next.stage }
    {
        if self.len() == 0 {
            self.next.fault()
        } else {
            None
        }
    }
}

// Decodes a piece of a trace whose header was not whole before.
pub fn decode_header<'a>(partial: &Partial, piece: &'a [u8]) -> DecodedPiece<'a>
    requires { length partial.now < 24 }
    ensures { IsDecoded result 0 (reading (partial.now ++ piece.now)) }
{
    let joined = partial.joined(piece, HEADER);
    if joined.octets().len() < HEADER {
        return DecodedPiece::nothing(Trace::beginning(joined));
    }
    match byte_order::header(joined.octets()) {
        Ok(order) => {
            let (_header, octets) = piece.split_at(HEADER - partial.octets().len());
            records(order, 0, None, octets)
        }
        Err(fault) => DecodedPiece::nothing(Trace::failed(fault, 0)),
    }
}

// Decodes a piece of records. So many frames were given before.
pub fn decode_records<'a>(
    order: Endian,
    given: usize,
    partial: &Partial,
    piece: &'a [u8],
) -> DecodedPiece<'a>
    requires { beginning order partial.now ≡ Unfinished }
    ensures { IsDecoded result given (reading_from order given (contents order (partial.now ++ piece.now))) }
{
    let joined = partial.joined(piece, MAX_PARTIAL);
    let front = joined.octets();
    match begins(order, front) {
        Beginning::Unfinished => DecodedPiece::nothing(Trace::among(order, joined, given)),
        Beginning::Bad(why) => {
            DecodedPiece::nothing(Trace::failed(
                TraceRefusal::BadRecord { index: given, why },
                given,
            ))
        }
        Beginning::Whole(captured) => {
            let first = frame_in(order, front, captured);
            let (_first, octets) = piece.split_at(
                RECORD_HEADER + captured - partial.octets().len(),
            );
            records(order, given.saturating_add(1), Some(first), octets)
        }
    }
}

// Decodes octets that begin with a record, and puts a frame before their frames. So many frames stand before the octets.
fn records<'a>(
    order: Endian,
    before: usize,
    first: Option<Frame>,
    octets: &'a [u8],
) -> DecodedPiece<'a>
    ensures first { result.first ≡ first }
    ensures others { result.others ≡ (contents order octets.now).frames }
    ensures next { result.next ≡ kept_after before (reading_from order before (contents order octets.now)) }
{
    let scan = scan::over(order, octets);
    let next = behind(order, before, &scan);
    DecodedPiece {
        first,
        others: scan.whole,
        next,
    }
}

// Returns the trace behind a scan. So many frames stand before those of the scan.
fn behind(order: Endian, before: usize, scan: &Scan) -> Trace
    requires { scan.now.fault ≡ None → beginning order scan.now.rest.now ≡ Unfinished }
    ensures { result ≡ kept_after before (reading_from order before (found scan.now)) }
{
    let given = before.saturating_add(scan.whole.len());
    match scan.fault {
        None => Trace::among(order, Partial::of(scan.rest), given),
        Some(why) => Trace::failed(TraceRefusal::BadRecord { index: given, why }, given),
    }
}
