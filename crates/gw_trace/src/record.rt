//! The records of a trace.

ghost use Rattle.std.specs.Prelude.{◌≡◌, ◌≢◌, ◌≤◌, ◌<◌, ◌+◌, ◌^◌, length};
ghost use Rattle.std.specs.Bool.{OnFalse, OnTrue};
ghost use Rattle.gw_trace.specs.declared.record.Beginning.TheVariants.{Whole};
ghost use Rattle.gw_trace.specs.Traces.{captured, captured_length, beginning};
ghost use Rattle.gw_trace.specs.Wholes.{IsWithin};

use crate::byte_order::Endian;
use gw_frame::{Frame, FrameRefusal, PAYLOAD_START, RECORD_OCTETS};

/// How many octets the header of a record has.
pub const RECORD_HEADER: usize = 16;

/// What stands at the front of octets among records.
#[derive(Clone, Copy)]
pub enum Beginning {
    /// Less than a record, and nothing wrong with it so far.
    Unfinished,
    /// A record that is no frame.
    Bad(FrameRefusal),
    /// A whole record, with so many octets behind its header.
    Whole(usize),
}

/// Reads the captured length in a record's header.
pub fn captured_len(order: Endian, octets: &[u8]) -> usize
    requires { RECORD_HEADER ≤ length octets.now }
    ensures len { result ≡ captured_length order octets.now }
    ensures few { result < 2 ^ 32 }
{
    order.read_u32(&octets[8..12]) as usize
}

/// Tells what stands at the front of octets.
#[tactic(auto, unfolding(crate::specs::Traces::beginning))]
pub fn begins(order: Endian, octets: &[u8]) -> Beginning
    ensures begins { result ≡ beginning order octets.now }
    ensures within { IsWithin (length octets.now) result }
{
    if octets.len() < RECORD_HEADER {
        return Beginning::Unfinished;
    }
    let captured = captured_len(order, octets);
    if captured < PAYLOAD_START {
        return Beginning::Bad(FrameRefusal::TooShort { len: captured });
    }
    if captured > RECORD_OCTETS {
        return Beginning::Bad(FrameRefusal::TooLong { len: captured });
    }
    if octets.len() < RECORD_HEADER + captured {
        return Beginning::Unfinished;
    }
    match Frame::read(&octets[RECORD_HEADER..RECORD_HEADER + captured]) {
        Ok(_) => Beginning::Whole(captured),
        Err(why) => Beginning::Bad(why),
    }
}

/// Whether a whole record of the longest form, which most writers give every frame, stands at the front of octets.
#[tactic(auto, unfolding(crate::specs::Traces::beginning))]
pub fn begins_longest(order: Endian, octets: &[u8]) -> bool
    ensures begins { OnTrue result (beginning order octets.now ≡ Whole RECORD_OCTETS) }
    ensures otherwise { OnFalse result (beginning order octets.now ≢ Whole RECORD_OCTETS) }
    ensures within { OnTrue result (RECORD_HEADER + RECORD_OCTETS ≤ length octets.now) }
{
    octets.len() >= RECORD_HEADER + RECORD_OCTETS
        && captured_len(order, octets) == RECORD_OCTETS
        && Frame::read(&octets[RECORD_HEADER..RECORD_HEADER + RECORD_OCTETS]).is_ok()
}

/// Returns the frame of the whole record at the front of octets.
pub fn frame_in(order: Endian, octets: &[u8], count: usize) -> Frame
    requires whole { beginning order octets.now ≡ Whole count }
    requires within { RECORD_HEADER + count ≤ length octets.now }
    ensures { result ≡ captured count octets.now }
{
    let (record, _rest) = octets.split_at(RECORD_HEADER + count);
    let frame = Frame::read(&record[RECORD_HEADER..]).unwrap();
    frame
}
