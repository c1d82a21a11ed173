//! The records of a trace that comes in pieces, those that are no frames too.

ghost use Rattle.std.specs.Prelude.{◌≡◌, ◌≤◌, ◌<◌, ◌+◌, ◌^◌, ℕ, List, Result, [], ◌++◌, length, min, take, drop, IfOk, IfErr};
ghost use Rattle.std.specs.Prelude.{IfSome, IfNone};
ghost use Rattle.gw_frame.specs.declared.refusal.FrameRefusal.{FrameRefusal};
ghost use Rattle.gw_trace.specs.declared.stage.Stage.TheVariants as stage;
ghost use Rattle.gw_trace.specs.Recorded.{Ends, HasBadHeader, IsBegun, IsReadTo, IsWholeRecord, Takes};
ghost use Rattle.gw_trace.specs.Recorded.{at_bad_header, frame_of, in_header, in_records, wanted};
ghost use Rattle.gw_trace.specs.Traces.{captured_length, index_of};

use crate::byte_order;
use crate::byte_order::{Endian, HEADER};
use crate::partial::{MAX_PARTIAL, Partial};
use crate::record::{Beginning, RECORD_HEADER, begins, captured_len};
use crate::refusal::TraceRefusal;
use crate::stage::Stage;
use gw_frame::{Frame, FrameRefusal, RECORD_OCTETS};
use std::marker::Model;

/// The records of a trace, each as soon as it is whole. A record that is no frame ends where its header says, and the next one is
/// read. At most the front of one header or record is kept.
#[derive(Drop)]
pub struct Records {
    stage: Stage,
    /// The first octets, 32 at most, of the header or record that is not whole yet.
    front: Partial,
    /// How many octets of that record there are.
    there: usize,
    /// How many records were whole, up to 18446744073709551615.
    count: usize,
}

impl Model for Records {
    ghost use Rattle.gw_trace.specs.Recorded.{Begun, IsBegun};

    ghost Value = { Begun };

    ghost view = { λ r. record { stage = r.stage; front = r.front; there = r.there; count = r.count } };

    ghost invariant = { λ r. IsBegun r.stage r.front r.there };
}

/// What a piece gave.
#[derive(Drop)]
pub struct Taken<'a> {
    /// The record that became whole: a frame, or why it is none.
    pub whole: Option<Result<Frame, FrameRefusal>>,
    /// The octets of the piece that were not taken.
    pub rest: &'a [u8],
}

impl Records {
    /// Nothing was read.
    pub fn new() -> Records
        ensures { IsReadTo result [] [] }
    {
        Records::beginning(Partial::new())
    }

    /// How many records were whole so far, up to 18446744073709551615.
    pub fn count(&self) -> usize
        ensures { (octets : List ℕ) → (records : List (Result (List ℕ) FrameRefusal)) → IsReadTo self.now octets records →
            result ≡ index_of (length records) }
    {
        self.count
    }

    /// Takes octets of a piece, one at least where it has one, up to the end of a header or a record at most. What is wrong with
    /// the trace's header, 90 to 92, is told as soon as it is whole, and by each later call.
    pub fn take<'a>(&mut self, piece: &'a [u8]) -> Result<Taken<'a>, TraceRefusal>
        ensures taken { (octets : List ℕ) → (records : List (Result (List ℕ) FrameRefusal)) → IsReadTo self.old octets records →
            IfOk result (λ taken. Takes octets records piece.now taken self.new) }
        ensures shorter { IfOk result (λ taken. 0 < length piece.now → length taken.rest.now < length piece.now) }
        ensures refused { (octets : List ℕ) → (records : List (Result (List ℕ) FrameRefusal)) → IsReadTo self.old octets records →
            IfErr result (λ e. HasBadHeader (octets ++ piece.now) e × IsReadTo self.new (octets ++ piece.now) records) }
    {
        match self.stage {
            Stage::Header => self.take_header(piece),
            Stage::Records(order) => Ok(self.take_record(order, piece)),
            Stage::Failed(fault) => Err(fault),
        }
    }

    /// Tells what is wrong with a trace that ends here: its header, 90 to 92; 93, a record that is cut, and no frame as its
    /// header shows; or else 95, a header or a record that is cut.
    pub fn end(&self) -> Result<(), TraceRefusal>
        ensures { (octets : List ℕ) → (records : List (Result (List ℕ) FrameRefusal)) → IsReadTo self.now octets records →
            Ends octets records result }
    {
        match self.stage {
            Stage::Header => Err(TraceRefusal::Cut),
            Stage::Failed(fault) => Err(fault),
            Stage::Records(order) => self.end_among(order),
        }
    }

    // Takes octets of the trace's header.
    fn take_header<'a>(&mut self, piece: &'a [u8]) -> Result<Taken<'a>, TraceRefusal>
        requires { self.old.stage ≡ stage.Header }
        ensures taken { (octets : List ℕ) → (records : List (Result (List ℕ) FrameRefusal)) → IsReadTo self.old octets records →
            IfOk result (λ taken. Takes octets records piece.now taken self.new) }
        ensures shorter { IfOk result (λ taken. 0 < length piece.now → length taken.rest.now < length piece.now) }
        ensures refused { (octets : List ℕ) → (records : List (Result (List ℕ) FrameRefusal)) → IsReadTo self.old octets records →
            IfErr result (λ e. HasBadHeader (octets ++ piece.now) e × IsReadTo self.new (octets ++ piece.now) records) }
    {
        let wanted = HEADER - self.front.octets().len();
        let (part, rest) = piece.split_at(wanted.min(piece.len()));
        let front = self.front.joined(part, HEADER);
        if front.octets().len() < HEADER {
            *self = Records::beginning(front);
            return Ok(Taken { whole: None, rest });
        }
        match byte_order::header(front.octets()) {
            Ok(order) => {
                *self = Records::among(order, Partial::new(), 0, 0);
                Ok(Taken { whole: None, rest })
            }
            Err(fault) => {
                *self = Records::failed(fault);
                Err(fault)
            }
        }
    }

    // Takes octets of a record.
    fn take_record<'a>(&mut self, order: Endian, piece: &'a [u8]) -> Taken<'a>
        requires { self.old.stage ≡ stage.Records order }
        ensures taken { (octets : List ℕ) → (records : List (Result (List ℕ) FrameRefusal)) → IsReadTo self.old octets records →
            Takes octets records piece.now result self.new }
        ensures shorter { 0 < length piece.now → length result.rest.now < length piece.now }
    {
        let wanted = wanted(order, &self.front, self.there);
        let (part, rest) = piece.split_at(wanted.min(piece.len()));
        let front = self.front.joined(part, MAX_PARTIAL);
        let there = self.there + part.len();
        match whole_in(order, &front, there) {
            Some(said) => {
                *self = Records::among(order, Partial::new(), 0, self.count.saturating_add(1));
                Taken {
                    whole: Some(said),
                    rest,
                }
            }
            None => {
                *self = Records::among(order, front, there, self.count);
                Taken { whole: None, rest }
            }
        }
    }

    // Tells what is wrong with a trace that ends here, among records.
    fn end_among(&self, order: Endian) -> Result<(), TraceRefusal>
        requires { self.now.stage ≡ stage.Records order }
        ensures { (octets : List ℕ) → (records : List (Result (List ℕ) FrameRefusal)) → IsReadTo self.now octets records →
            Ends octets records result }
    {
        if self.there == 0 {
            return Ok(());
        }
        match begins(order, self.front.octets()) {
            Beginning::Bad(why) => Err(TraceRefusal::BadRecord {
                index: self.count,
                why,
            }),
            Beginning::Unfinished | Beginning::Whole(_) => Err(TraceRefusal::Cut),
        }
    }

    // Within the trace's header.
    fn beginning(front: Partial) -> Records
        requires { length front < 24 }
        ensures { result ≡ in_header front }
    {
        Records {
            stage: Stage::Header,
            front,
            there: 0,
            count: 0,
        }
    }

    // Among records, behind so many whole ones.
    fn among(order: Endian, front: Partial, there: usize, count: usize) -> Records
        requires { IsBegun (stage.Records order) front there }
        ensures { result ≡ in_records order front there count }
    {
        Records {
            stage: Stage::Records(order),
            front,
            there,
            count,
        }
    }

    // Behind a header that is refused.
    fn failed(fault: TraceRefusal) -> Records
        ensures { result ≡ at_bad_header fault }
    {
        Records {
            stage: Stage::Failed(fault),
            front: Partial::new(),
            there: 0,
            count: 0,
        }
    }
}

// How many octets are wanted to the end of a record's header, or of the record behind it, where so many are there.
fn wanted(order: Endian, front: &Partial, there: usize) -> usize
    requires { IsBegun (stage.Records order) front.now there }
    ensures wanted { result ≡ wanted order front.now there }
    ensures few { there + result < 2 ^ 33 }
{
    if there < RECORD_HEADER {
        RECORD_HEADER - there
    } else {
        RECORD_HEADER + captured_len(order, front.octets()) - there
    }
}

// Reads the record of which so many octets are there, these in front, if it is whole.
fn whole_in(order: Endian, front: &Partial, there: usize) -> Option<Result<Frame, FrameRefusal>>
    requires front { length front.now ≡ min 32 there }
    requires within { RECORD_HEADER ≤ there → there ≤ RECORD_HEADER + captured_length order front.now }
    ensures whole { (octets : List ℕ) → front.now ≡ take 32 octets → there ≡ length octets →
        IfSome result (λ said. IsWholeRecord order octets × (said ≡ frame_of (drop 16 octets))) }
    ensures part { IfNone result (RECORD_HEADER ≤ there → there < RECORD_HEADER + captured_length order front.now) }
{
    if there < RECORD_HEADER {
        return None;
    }
    let captured = captured_len(order, front.octets());
    if there < RECORD_HEADER + captured {
        return None;
    }
    if captured > RECORD_OCTETS {
        return Some(Err(FrameRefusal::TooLong { len: captured }));
    }
    Some(Frame::read(&front.octets()[RECORD_HEADER..]))
}
